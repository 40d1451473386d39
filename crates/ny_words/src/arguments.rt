ghost use Rattle.std.specs.Prelude.{◌≡◌, IfOk, false, map};
ghost use Rattle.clap.specs.Words.{app_of, rule_of};
ghost use Rattle.ny_words.specs.Reader.{command_with};
ghost use Rattle.ny_words.specs.Reader.{rule_for};

use clap::{Arg, ArgAction, Command};
use std::alloc::{AllocError, Global};

/// An argument of a command, by the name under which its value is found.
#[derive(Clone, Copy)]
pub enum Argument {
    /// A word at its place among such words, which has to be there.
    Word(&'static str),
    /// An option that takes a value, by its long name: `--pool 8` or `--pool=8`.
    Value(&'static str),
}

impl Argument {
    /// The argument as the reader takes it.
    fn arg<'a>(self, alloc: Global) -> Arg<'a>
        ensures rule { rule_of result ≡ rule_for self }
        ensures own { result.global ≡ false }
    {
        match self {
            Argument::Word(name) => Arg::new(alloc, name).required(true).action(ArgAction::Set),
            Argument::Value(name) => Arg::new(alloc, name).long(name).action(ArgAction::Set),
        }
    }
}

/// A command with these arguments, in their order. `clap` adds its help to them.
#[tactic(auto, using(crate::proofs::MoreArguments::one_more))]
pub fn command_with<'a>(
    alloc: Global,
    name: &'static str,
    arguments: &[Argument],
) -> Result<Command<'a>, AllocError>
    ensures { IfOk result (λ c. app_of c ≡ command_with name.entry.now (map rule_for arguments.now)) }
{
    let mut command = Command::new(alloc, name);
    for argument in arguments {
        command = command.arg(argument.arg(alloc))?;
    }
    Ok(command)
}
