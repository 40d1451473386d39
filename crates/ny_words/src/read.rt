ghost use Rattle.std.specs.Prelude.{◌≡◌, map, option_and_then, string_bytes, MatchResult, Some, None, IfOk};
ghost use Rattle.ny_words.specs.Reader.{found_in};
ghost use Rattle.ny_words.specs.Views.{command_view};
ghost use Rattle.ny_words.specs.Words.{check_command, checking, render_command, rendering, read_words};
ghost use Rattle.ny_words.specs.Commands.{IsInRange};

use crate::arguments::Argument;
use crate::command::Command;
use crate::fault::WordsFault;
use crate::found::{check, find, render};
use std::alloc::Global;

/// The arguments of `check`.
const CHECK: [Argument; 1] = [Argument::Word("IN")];

/// The arguments of `render`.
const RENDER: [Argument; 5] = [
    Argument::Word("IN"),
    Argument::Word("OUT"),
    Argument::Value("pool"),
    Argument::Value("block"),
    Argument::Value("rate"),
];

/// The words of `check`.
fn read_check<'a>(alloc: Global, words: &'a [String]) -> Result<Command<'a>, WordsFault>
    ensures command { MatchResult result
        (λ command. option_and_then checking (found_in check_command (map string_bytes words.entry.now)) ≡ Some (command_view command))
        (λ fault. fault ≡ WordsFault.Usage → option_and_then checking (found_in check_command (map string_bytes words.entry.now)) ≡ None) }
    ensures within { IfOk result (λ command. IsInRange (command_view command).task) }
{
    let found = find(alloc, "check", CHECK.as_slice(), words)?;
    check(&found).ok_or(WordsFault::Usage)
}

/// The words of `render`.
fn read_render<'a>(alloc: Global, words: &'a [String]) -> Result<Command<'a>, WordsFault>
    ensures command { MatchResult result
        (λ command. option_and_then rendering (found_in render_command (map string_bytes words.entry.now)) ≡ Some (command_view command))
        (λ fault. fault ≡ WordsFault.Usage → option_and_then rendering (found_in render_command (map string_bytes words.entry.now)) ≡ None) }
    ensures within { IfOk result (λ command. IsInRange (command_view command).task) }
{
    let found = find(alloc, "render", RENDER.as_slice(), words)?;
    render(&found).ok_or(WordsFault::Usage)
}

/// What the words ask for (`docs/LANGUAGE.md`, "The command line"). The first is the command, and the rest is
/// read by `clap`.
#[tactic(auto, unfolding(crate::specs::Words::read_words))]
pub fn read_command<'a>(alloc: Global, words: &'a [String]) -> Result<Command<'a>, WordsFault>
    ensures command { MatchResult result
        (λ command. read_words (map string_bytes words.entry.now) ≡ Some (command_view command))
        (λ fault. fault ≡ WordsFault.Usage → read_words (map string_bytes words.entry.now) ≡ None) }
    ensures within { IfOk result (λ command. IsInRange (command_view command).task) }
{
    match words {
        [name, ..] if name.as_str() == "check" => read_check(alloc, words),
        [name, ..] if name.as_str() == "render" => read_render(alloc, words),
        _ => Err(WordsFault::Usage),
    }
}
