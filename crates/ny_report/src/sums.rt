ghost use Rattle.std.specs.Prelude.{◌≡◌, IfOk};
ghost use Rattle.ny_report.specs.Lines.{peak_line_of, sum_lines_of};

use std::alloc::{AllocError, Global};

/// The line of a peak (`docs/DEFINITIONS.md`, "Lines"): the most blocks that were live at once.
///
/// # Errors
/// `AllocError` where memory is missing.
#[tactic(auto, unfolding(crate::specs::Lines::peak_line_of))]
pub fn peak_line(alloc: Global, peak: u32) -> Result<Vec<u8>, AllocError>
    ensures { IfOk result (λ line. line.items ≡ peak_line_of peak) }
{
    Ok(format!(in alloc; "peak {peak}\n")?.into_bytes())
}

/// The lines of a piece that was drawn and played (`docs/DEFINITIONS.md`, "Lines"): its notes, its
/// frames, the most blocks that were live at once, how many blocks were filled, and the sum of its
/// samples.
///
/// # Errors
/// `AllocError` where memory is missing.
#[tactic(auto, unfolding(crate::specs::Lines::sum_lines_of))]
pub fn sum_lines(
    alloc: Global,
    notes: u32,
    frames: u32,
    peak: u32,
    fills: u64,
    sum: u32,
) -> Result<Vec<u8>, AllocError>
    ensures { IfOk result (λ lines. lines.items ≡ sum_lines_of notes frames peak fills sum) }
{
    let lines = format!(in alloc;
        "notes {notes}\nframes {frames}\npeak {peak}\nfills {fills}\nsum {sum}\n"
    )?;
    Ok(lines.into_bytes())
}
