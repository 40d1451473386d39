//! Bare names.

ghost use Rattle.std.specs.Prelude.{◌≡◌, [], IfOk, OnErr};
ghost use Rattle.ny_scope.specs.Scopes.{last_of};
ghost use Rattle.ny_resolve.specs.Keys.{same_name};
ghost use Rattle.ny_heap.specs.Heap.{place_of};
ghost use Rattle.ny_heap.specs.Steps.{IsHeldSound};
ghost use Rattle.ny_hands.specs.Calls.{Shares};
ghost use Rattle.ny_hands.specs.Frames.{AllHeld};
ghost use Rattle.ny_hands.specs.Hands.{Hand};
ghost use Rattle.ny_eval.specs.Framed.{names_in};
ghost use Rattle.ny_trace.specs.Evaluates.{NameTurn};

use crate::frame::Frame;
use crate::leaf::{lawful, silent};
use ny_check::{NameId, Value};
use ny_hands::Branch;
use ny_heap::{Heap, Sound};
use ny_num::Rate;
use std::alloc::{AllocError, Global};

/// Another sound that reads what a sound at its beginning reads.
///
/// # Errors
/// `AllocError` where 2^32 - 1 readers read it. All is then as before.
pub(crate) fn shared(sound: &Sound, heap: &mut Heap<Branch>) -> Result<Sound, AllocError>
    requires held { IsHeldSound heap.old sound.now }
    requires begins { place_of sound.now ≡ 0 }
    ensures shares { IfOk result (λ s. Shares heap.old heap.new sound.now s) }
    ensures same { OnErr result (heap.new ≡ heap.old) }
{
    if heap.can_share(sound) {
        Ok(heap.share(sound))
    } else {
        Err(AllocError)
    }
}

/// A bare name: one more reader of the sound that it stands for. A number is silent.
///
/// # Errors
/// `AllocError` where memory is missing, or 2^32 - 1 readers read that sound. The heap is then as before.
pub(crate) fn named(
    alloc: Global,
    x: NameId,
    rate: Rate,
    frame: &Frame<'_>,
    heap: &mut Heap<Branch>,
) -> Result<Sound, AllocError>
    requires names { AllHeld heap.old (names_in frame.now) }
    ensures turn { IfOk result (λ s. NameTurn rate (last_of (same_name x) (names_in frame.now)) heap.old heap.new s) }
    ensures refused { OnErr result (Hand heap.old heap.new []) }
{
    lawful(heap);
    match frame.find(x) {
        None => Ok(silent(alloc, rate, heap)?),
        Some(value) => match value {
            Value::Number(_) => Ok(silent(alloc, rate, heap)?),
            Value::Sound(sound) => Ok(shared(sound, heap)?),
        },
    }
}
