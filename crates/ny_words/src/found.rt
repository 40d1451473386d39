ghost use Rattle.std.specs.Prelude.{◌≡◌, ◌≤◌, true, map, string_bytes, option_and_then, option_map, MatchOption, MatchResult, Some, None, IfSome};
ghost use Rattle.clap.specs.Words.{first_of, found_of, is_simple_and_free, rows_of};
ghost use Rattle.ny_words.specs.Reader.{command_with, found_in, rule_for};
ghost use Rattle.ny_words.specs.Views.{command_view};
ghost use Rattle.ny_words.specs.Words.{checking, name_word, rendering};
ghost use Rattle.ny_words.specs.Commands.{IsInRange};

use crate::arguments::{Argument, command_with};
use crate::command::{Command, Render, Task};
use crate::fault::{WordsFault, fault_of};
use crate::values::{block_of, pool_of, rate_of};
use clap::ArgMatches;
use std::alloc::Global;

/// What a command finds in its words, of which the first is its name. A request for help finds nothing.
pub fn find<'a>(
    alloc: Global,
    name: &'static str,
    arguments: &[Argument],
    words: &'a [String],
) -> Result<ArgMatches<'a>, WordsFault>
    requires { is_simple_and_free (command_with name.now (map rule_for arguments.now)) ≡ true }
    ensures { MatchResult result
        (λ found. found_in (command_with name.entry.now (map rule_for arguments.now)) (map string_bytes words.entry.now) ≡ Some (rows_of (found_of found)))
        (λ fault. fault ≡ WordsFault.Usage → found_in (command_with name.entry.now (map rule_for arguments.now)) (map string_bytes words.entry.now) ≡ None) }
{
    let command = match command_with(alloc, name, arguments) {
        Ok(command) => command,
        Err(_) => return Err(WordsFault::OutOfMemory),
    };
    match command.try_get_matches_from(words) {
        Ok(found) => Ok(found),
        Err(error) => Err(fault_of(error.kind())),
    }
}

/// The value that was found under a name.
fn value<'a>(found: &ArgMatches<'a>, name: &str) -> Option<&'a str>
    ensures { option_map (λ word. word.now) result ≡ first_of name.now (rows_of (found_of found.now)) }
{
    found.get_str(name)
}

/// The name of a file that was found; an empty word names none.
fn name<'a>(found: &ArgMatches<'a>, argument: &str) -> Option<&'a str>
    ensures { option_map (λ word. word.now) result ≡ option_and_then name_word (first_of argument.now (rows_of (found_of found.now))) }
{
    let word = value(found, argument)?;
    if word.is_empty() { None } else { Some(word) }
}

/// `check`, by what was found in its words.
pub fn check<'a>(found: &ArgMatches<'a>) -> Option<Command<'a>>
    ensures command { MatchOption result
        (checking (rows_of (found_of found.now)) ≡ None)
        (λ command. checking (rows_of (found_of found.now)) ≡ Some (command_view command)) }
    ensures within { IfSome result (λ command. IsInRange (command_view command).task) }
{
    Some(Command {
        input: name(found, "IN")?,
        task: Task::Check,
    })
}

/// `render`, by what was found in its words.
pub fn render<'a>(found: &ArgMatches<'a>) -> Option<Command<'a>>
    ensures command { MatchOption result
        (rendering (rows_of (found_of found.now)) ≡ None)
        (λ command. rendering (rows_of (found_of found.now)) ≡ Some (command_view command)) }
    ensures within { IfSome result (λ command. IsInRange (command_view command).task) }
{
    let input = name(found, "IN")?;
    let output = name(found, "OUT")?;
    let pool = pool_of(value(found, "pool"))?;
    let block = block_of(value(found, "block"))?;
    let rate = rate_of(value(found, "rate"))?;
    Some(Command {
        input,
        task: Task::Render(Render {
            output,
            pool,
            block,
            rate,
        }),
    })
}
