ghost use Rattle.std.specs.Prelude.{◌≡◌, ◌<◌, ◌≤◌, ◌^◌, length, Some, IfOk, IfErr};
ghost use Rattle.ny_syntax.specs.Grammar.{height_limit};
ghost use Rattle.ny_syntax.specs.Sizes.{tree_size};
ghost use Rattle.ny_syntax.specs.Canonical.{canonical_height};
ghost use Rattle.ny_check.specs.Acceptance.{program_in};
ghost use Rattle.ny_top.specs.Reading.{IsTreeOf, IsAccepted, IsTextFault, why_name, fault_name, refusal_text};

use ny_check::{CheckFault, CheckWhy, Program, check_tree};
use ny_lex::{LexFault, LexWhy, lex};
use ny_parse::{ParseFault, parse};
use ny_report::refusal_line;
use ny_syntax::{Tree, size_laws};
use std::alloc::{AllocError, Global};

/// Why a text is refused, with the place in bytes from 0.
#[derive(Clone, Copy)]
pub enum Refusal {
    Lex { at: u32, why: LexWhy },
    Parse { at: u32 },
    Check { at: u32, why: CheckWhy },
}

/// Why a text was not read.
#[derive(Clone, Copy)]
pub(crate) enum TextFault {
    Refused(Refusal),
    OutOfMemory,
}

/// An accepted text: its tree and its program.
#[derive(Drop)]
pub(crate) struct Accepted {
    pub(crate) tree: Tree,
    pub(crate) program: Program,
}

/// The tree of a text, or why it has none.
fn read_tree(alloc: Global, text: &[u8]) -> Result<Tree, TextFault>
    requires { length text.now ≤ 1048576 }
    ensures tree { IfOk result (λ tree. IsTreeOf text.now tree) }
    ensures height { IfOk result (λ tree. canonical_height tree ≤ height_limit) }
    ensures small { IfOk result (λ tree. tree_size tree < 2 ^ 32) }
    ensures fault { IfErr result (λ fault. IsTextFault text.now fault) }
{
    size_laws();
    let tokens = match lex(alloc, text) {
        Ok(tokens) => tokens,
        Err(LexFault::Bad { at, why }) => return Err(TextFault::Refused(Refusal::Lex { at, why })),
        Err(LexFault::OutOfMemory) => return Err(TextFault::OutOfMemory),
    };
    match parse(alloc, text, &tokens) {
        Ok(tree) => Ok(tree),
        Err(ParseFault::At { at }) => Err(TextFault::Refused(Refusal::Parse { at })),
        Err(ParseFault::OutOfMemory) => Err(TextFault::OutOfMemory),
    }
}

/// The tree and the program of a text, or why it is refused.
pub(crate) fn read_text(alloc: Global, text: &[u8]) -> Result<Accepted, TextFault>
    requires { length text.now ≤ 1048576 }
    ensures tree { IfOk result (λ accepted. IsAccepted text.now accepted.tree) }
    ensures height { IfOk result (λ accepted. canonical_height accepted.tree ≤ height_limit) }
    ensures program { IfOk result (λ accepted. program_in accepted.tree ≡ Some accepted.program) }
    ensures fault { IfErr result (λ fault. IsTextFault text.now fault) }
{
    let tree = match read_tree(alloc, text) {
        Ok(tree) => tree,
        Err(fault) => return Err(fault),
    };
    match check_tree(alloc, &tree) {
        Ok(program) => Ok(Accepted { tree, program }),
        Err(CheckFault::Bad { at, why }) => Err(TextFault::Refused(Refusal::Check { at, why })),
        Err(CheckFault::OutOfMemory) => Err(TextFault::OutOfMemory),
    }
}

fn name_of(why: LexWhy) -> &'static str
    ensures { result.now ≡ why_name why }
{
    match why {
        LexWhy::BadByte => "BadByte",
        LexWhy::BadHash => "BadHash",
        LexWhy::NotDecimal => "NotDecimal",
        LexWhy::TooManyPlaces => "TooManyPlaces",
        LexWhy::TooLarge => "TooLarge",
    }
}

fn fault_name(why: CheckWhy) -> &'static str
    ensures { result.now ≡ fault_name why }
{
    match why {
        CheckWhy::UnknownName => "UnknownName",
        CheckWhy::Redefined => "Redefined",
        CheckWhy::NotYetDefined => "NotYetDefined",
        CheckWhy::Arity => "Arity",
        CheckWhy::Kind => "Kind",
        CheckWhy::BadCount => "BadCount",
        CheckWhy::BadMap => "BadMap",
        CheckWhy::BadRate => "BadRate",
        CheckWhy::ZeroDivisor => "ZeroDivisor",
        CheckWhy::NoPlay => "NoPlay",
        CheckWhy::TooManyChannels => "TooManyChannels",
        CheckWhy::TooDeep => "TooDeep",
        CheckWhy::TooHeavy => "TooHeavy",
    }
}

/// The line of a refusal.
pub(crate) fn line_of(alloc: Global, refusal: Refusal) -> Result<Vec<u8>, AllocError>
    ensures { IfOk result (λ line. line.items ≡ refusal_text refusal) }
{
    match refusal {
        Refusal::Lex { at, why } => refusal_line(alloc, "lex", at, name_of(why)),
        Refusal::Parse { at } => refusal_line(alloc, "parse", at, ""),
        Refusal::Check { at, why } => refusal_line(alloc, "check", at, fault_name(why)),
    }
}
