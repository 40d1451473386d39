ghost use Rattle.std.specs.Prelude.{◌≡◌, ◌++◌, IfOk, OnOk, zip, flat_map};
ghost use Rattle.ny_report.specs.Lines.{kind_names, kind_part, kind_parts, kinds_told, pull_line_of};

use itoa::Buffer;
use std::alloc::{AllocError, Global};

/// The names of the kinds of units, in the order in which their blocks are counted.
const KINDS: [&str; 18] = [
    "const", "ramp", "osc", "hzosc", "lfo", "noise", "pwl", "data", "abs", "add", "sub", "mul",
    "max", "min", "resample", "filter", "mix", "channel",
];

/// Appends a kind and how many blocks of it are live, where any is.
fn push_kind(line: &mut Vec<u8>, name: &str, count: u32) -> Result<(), AllocError>
    ensures { OnOk result (line.new.items ≡ line.old.items ++ kind_part name.now count) }
{
    if count == 0 {
        return Ok(());
    }
    let mut digits = Buffer::new();
    line.extend_from_slice(b" ")?;
    line.extend_from_slice(name.as_bytes())?;
    line.extend_from_slice(b" ")?;
    line.extend_from_slice(digits.format(count).as_bytes())
}

/// Appends the kinds of which blocks are live.
fn push_kinds(line: &mut Vec<u8>, counts: &[u32]) -> Result<(), AllocError>
    ensures { OnOk result (line.new.items ≡ line.old.items ++ kind_parts counts.now) }
{
    for (name, count) in KINDS.iter().zip(counts) {
        push_kind(line, name, *count)?;
    }
    Ok(())
}

/// The line of a pull (`docs/DEFINITIONS.md`, "Lines"): its number from 1, its channel from 0, how
/// many blocks are live after it, how many were filled so far, and how many are live of each kind, in
/// the order of the kinds, where that is asked for.
///
/// # Errors
/// `AllocError` where memory is missing.
#[tactic(auto, unfolding(crate::specs::Lines::pull_line_of))]
pub fn pull_line(
    alloc: Global,
    pull: u64,
    channel: u32,
    live: u32,
    fills: u64,
    kinds: Option<[u32; 18]>,
) -> Result<Vec<u8>, AllocError>
    ensures { IfOk result (λ line. line.items ≡ pull_line_of pull channel live fills kinds) }
{
    let mut line = format!(in alloc;
        "pull {pull} channel {channel} live {live} fills {fills}"
    )?.into_bytes();
    if let Some(counts) = kinds {
        push_kinds(&mut line, counts.as_slice())?;
    }
    line.extend_from_slice(b"\n")?;
    Ok(line)
}
