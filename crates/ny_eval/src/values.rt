ghost use Rattle.std.specs.Prelude.{◌≡◌, ◌≤◌, length, map, [], IfOk};
ghost use Rattle.ny_check.specs.Code.{AllBelow};
ghost use Rattle.ny_trace.specs.Evaluates.{numbers_in};
ghost use Rattle.ny_eval.specs.Framed.{names_in};
ghost use Rattle.ny_eval.specs.Values.{number_in};

use crate::frame::Frame;
use ny_check::{Binds, ExprId, Program, Scalar};
use ny_heap::Sound;
use ny_num::Fix;
use sqlite_items::Items;
use std::alloc::{AllocError, Global};

/// No names.
pub(crate) fn no_names(alloc: Global) -> Binds<Sound>
    ensures { result.names ≡ [] }
{
    Binds {
        names: Items::new(alloc),
    }
}

/// The number that an operand is, and None where it is a test or a sound.
pub(crate) fn number_in(scalar: Scalar) -> Option<Fix>
    ensures { result ≡ number_in scalar }
{
    match scalar {
        Scalar::Number(v) => Some(v),
        _ => None,
    }
}

/// The numbers that expressions are.
pub(crate) fn numbers(
    alloc: Global,
    p: &Program,
    e: ExprId,
    parts: &[ExprId],
    frame: &mut Frame<'_>,
) -> Result<Vec<Fix>, AllocError>
    requires inside { e.0 ≤ length p.now.nodes }
    requires below { AllBelow e.0 parts.now }
    ensures values { IfOk result (λ vs. vs.items ≡ numbers_in p.now (names_in frame.old) parts.now) }
    ensures same { frame.new ≡ frame.old }
{
    let mut values = Vec::with_capacity(alloc, parts.len())?;
    for part in parts {
        values.push(frame.number(alloc, p, *part)?)?;
    }
    Ok(values)
}
