ghost use Rattle.std.specs.Prelude.{◌≡◌, IfOk};
ghost use Rattle.ny_report.specs.Lines.{refusal_line_of};

use std::alloc::{AllocError, Global};

/// The line of a refused text (`docs/DEFINITIONS.md`, "Lines"): the stage that refused it, the
/// place of the fault in bytes from 0, and why, where `why` is not empty.
#[tactic(auto, unfolding(crate::specs::Lines::refusal_line_of))]
pub fn refusal_line(alloc: Global, stage: &str, at: u32, why: &str) -> Result<Vec<u8>, AllocError>
    ensures { IfOk result (λ line. line.items ≡ refusal_line_of stage.now at why.now) }
{
    let text = if why.is_empty() {
        format!(in alloc; "refused: {stage} {at}\n")?
    } else {
        format!(in alloc; "refused: {stage} {at} {why}\n")?
    };
    Ok(text.into_bytes())
}
