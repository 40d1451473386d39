ghost use Rattle.std.specs.Prelude.{◌≡◌, bytes_eq};
ghost use Rattle.std.specs.Map.{lookup};
ghost use Rattle.ny_resolve.specs.Faults.{earliest_after};
ghost use Rattle.ny_resolve.specs.Names.{variable_faults, function_faults};

use crate::fault::{CheckWhy, Fault, noted, noted_if};
use crate::word::Word;
use indexmap::IndexMap;

/// What a call sees of a declared function: the number of its declaration and how many parameters it has.
#[derive(Clone, Copy, PartialEq, Eq)]
pub struct Called {
    pub number: u32,
    pub params: usize,
}

/// The functions and global variables of a text, each name at its first declaration.
#[derive(Drop)]
pub struct Names<'t> {
    pub functions: IndexMap<Word<'t>, Called>,
    pub variables: IndexMap<Word<'t>, u32>,
}

/// The declared function of this name.
pub(crate) fn function_named<'t>(
    functions: &IndexMap<Word<'t>, Called>,
    x: &Word<'t>,
) -> Option<Called>
    ensures { result ≡ lookup (bytes_eq x.now) functions.now.entries }
{
    functions.get(x).copied()
}

/// The declared global variable of this name.
pub(crate) fn variable_named<'t>(variables: &IndexMap<Word<'t>, u32>, x: &Word<'t>) -> Option<u32>
    ensures { result ≡ lookup (bytes_eq x.now) variables.now.entries }
{
    variables.get(x).copied()
}

/// The first fault, where a global variable is used here.
pub(crate) fn variable_noted(
    at: u32,
    here: u32,
    number: Option<u32>,
    first: Option<Fault>,
) -> Option<Fault>
    ensures { result ≡ earliest_after first (variable_faults at here number) }
{
    match number {
        None => noted(CheckWhy::UnknownName, at, first),
        Some(number) => noted_if(here <= number, CheckWhy::NotYetDefined, at, first),
    }
}

/// The first fault, where a function is called here with so many arguments.
#[tactic(auto, using(crate::proofs::Earliest::told))]
pub(crate) fn function_noted(
    at: u32,
    here: u32,
    arguments: usize,
    called: Option<Called>,
    first: Option<Fault>,
) -> Option<Fault>
    ensures { result ≡ earliest_after first (function_faults at here arguments called) }
{
    match called {
        None => noted(CheckWhy::UnknownName, at, first),
        Some(f) => {
            let early = noted_if(here <= f.number, CheckWhy::NotYetDefined, at, first);
            noted_if(arguments != f.params, CheckWhy::Arity, at, early)
        }
    }
}
