ghost use Rattle.std.specs.Prelude.{◌≡◌, ◌<◌, ◌≤◌, ◌^◌, nat_lt, false, length, IfOk, IfErr, Some, None};
ghost use Rattle.ny_syntax.specs.Sizes.{tree_size};
ghost use Rattle.ny_kinds.specs.Whole.{text_kind, channels_in};
ghost use Rattle.ny_kinds.specs.declared.kind.Unjudged.TheVariants as unjudged;
ghost use Rattle.ny_measures.specs.Weight.{text_weight};
ghost use Rattle.ny_resolve.specs.Faults.{earliest_after};
ghost use Rattle.ny_resolve.specs.Declarations.{tree_read};
ghost use Rattle.ny_resolve.specs.Sizes.{text_size};
ghost use Rattle.ny_check.specs.Acceptance.{greatest_weight, kind_faults, judged_faults, fault_of, program_in, program_with, IsRefusal, IsRefusalOr};
ghost use Rattle.ny_check.specs.Code.{Code};
ghost use Rattle.ny_check.specs.Texts.{IsAccepted};

use crate::program::Program;
use crate::write::program;
use ny_kinds::{Unjudged, channels, text_kind};
use ny_measures::{text_depth, text_weight};
use ny_resolve::{CheckWhy, Fault, ReadTree, noted, noted_if, read_tree};
use ny_syntax::Tree;
use std::alloc::{AllocError, Global};

/// Why a text has no program.
#[derive(Clone, Copy, Debug, PartialEq, Eq)]
pub enum CheckFault {
    /// The first of its faults, at a byte of the text (`docs/LANGUAGE.md`, "Faults").
    Bad { at: u32, why: CheckWhy },
    /// No memory was left.
    OutOfMemory,
}

impl From<AllocError> for CheckFault {
    ghost use Rattle.std.specs.Prelude.{◌≡◌};
    ghost use Rattle.ny_check.specs.declared.accept.CheckFault.TheVariants.{OutOfMemory};

    ghost from_gives = { λ e s. s ≡ OutOfMemory };

    fn from(_error: AllocError) -> CheckFault {
        CheckFault::OutOfMemory
    }
}

impl From<Unjudged> for CheckFault {
    ghost use Rattle.std.specs.Prelude.{◌≡◌};
    ghost use Rattle.ny_check.specs.declared.accept.CheckFault.TheVariants.{OutOfMemory};

    ghost from_gives = { λ e s. s ≡ OutOfMemory };

    fn from(_error: Unjudged) -> CheckFault {
        CheckFault::OutOfMemory
    }
}

#[tactic(auto, using(ny_resolve::proofs::Earliest::told))]
fn kind_noted(at: Option<u32>, first: Option<Fault>) -> Option<Fault>
    ensures { result ≡ earliest_after first (kind_faults at) }
{
    match at {
        None => first,
        Some(at) => noted(CheckWhy::Kind, at, first),
    }
}

const GREATEST_DEPTH: u64 = 256;

const GREATEST_WEIGHT: u64 = 1_000_000;

/// The kinds of a text that is too heavy may take more steps than can be waited for. No more of its expressions than these
/// are judged.
const GREATEST_JUDGED: u64 = 4_000_000;

/// A text's first fault, and how many channels it plays.
#[derive(Clone, Copy, PartialEq, Eq)]
struct Verdict {
    fault: Option<Fault>,
    channels: u32,
}

/// The first fault of a text that was read. A text within the weight is judged whole.
#[tactic(auto, using(ny_resolve::proofs::Earliest::told))]
fn judge(alloc: Global, read: &ReadTree, play_at: u32) -> Result<Verdict, Unjudged>
    requires { length read.now.declared < 2 ^ 32 }
    ensures fault { IfOk result (λ j. j.fault ≡ earliest_after read.now.first (judged_faults read.now.declared read.now.play play_at)) }
    ensures channels { IfOk result (λ j. j.channels ≡ channels_in (text_kind read.now.declared read.now.play).kind) }
    ensures few { IfOk result (λ j. (1 ≤ j.channels) × (j.channels ≤ 8)) }
    ensures whole { nat_lt greatest_weight (text_weight read.now.declared read.now.play) ≡ false → IfErr result (λ why. why ≡ unjudged.OutOfMemory) }
{
    let declared = read.declared.as_slice();
    let heavy = GREATEST_WEIGHT < text_weight(alloc, declared, &read.play)?;
    let most = if heavy { Some(GREATEST_JUDGED) } else { None };
    let found = text_kind(alloc, declared, &read.play, most)?;
    let deep = GREATEST_DEPTH < text_depth(alloc, declared, &read.play)?;
    let first = kind_noted(found.fault, read.first);
    let first = noted_if(deep, CheckWhy::TooDeep, play_at, first);
    Ok(Verdict {
        fault: noted_if(heavy, CheckWhy::TooHeavy, play_at, first),
        channels: channels(found.kind),
    })
}

/// The program of a text without a fault, or its first fault.
fn answer(alloc: Global, read: &ReadTree, verdict: Verdict, end: u32) -> Result<Program, CheckFault>
    requires channels { (1 ≤ verdict.channels) × (verdict.channels ≤ 8) }
    requires few { text_size read.now.declared read.now.play < 2 ^ 32 }
    requires accepted { verdict.fault ≡ None → (code : Code) → program_with read.now.declared read.now.play verdict.channels ≡ Some code → IsAccepted code }
    ensures accepted { IfOk result (λ p. verdict.fault ≡ None) }
    ensures program { IfOk result (λ p. program_with read.now.declared read.now.play verdict.channels ≡ Some p) }
    ensures refused { IfErr result (IsRefusalOr end read.now.play verdict.fault) }
{
    match verdict.fault {
        Some(fault) => Err(CheckFault::Bad {
            at: fault.at,
            why: fault.why,
        }),
        None => match &read.play {
            Some(play) => Ok(program(alloc, read.declared.as_slice(), play, verdict.channels)?),
            None => Err(CheckFault::Bad {
                at: end,
                why: CheckWhy::NoPlay,
            }),
        },
    }
}

/// The program of a text that the caller keeps, or the first of its faults. The tree has fewer than 2^32
/// expressions and names, as each tree of a text has (`ny_syntax::size_laws`).
#[tactic(auto, unfolding(crate::specs::Acceptance::fault_of, crate::specs::Acceptance::program_in))]
pub fn check_tree(alloc: Global, tree: &Tree) -> Result<Program, CheckFault>
    requires { tree_size tree.now < 2 ^ 32 }
    ensures accepted { IfOk result (λ p. fault_of tree.now ≡ None) }
    ensures program { IfOk result (λ p. program_in tree.now ≡ Some p) }
    ensures refused { IfErr result (IsRefusal (fault_of tree.now)) }
{
    let read = read_tree(alloc, tree)?;
    let verdict = judge(alloc, &read, tree.play_at)?;
    answer(alloc, &read, verdict, tree.end)
}

/// The program of a text, or the first of its faults: of the first kind in the order of the list, the one at
/// the least place. The tree has fewer than 2^32 expressions and names, as each tree of a text has
/// (`ny_syntax::size_laws`).
pub fn check(alloc: Global, tree: Tree) -> Result<Program, CheckFault>
    requires { tree_size tree < 2 ^ 32 }
    ensures accepted { IfOk result (λ p. fault_of tree ≡ None) }
    ensures program { IfOk result (λ p. program_in tree ≡ Some p) }
    ensures refused { IfErr result (IsRefusal (fault_of tree)) }
{
    Ok(check_tree(alloc, &tree)?)
}
