//! Parts of a sequence in hand, one after the other.

ghost use Rattle.std.specs.Prelude.{◌≡◌, ◌+◌, ◌-◌, ◌<◌, ◌≤◌, [], ◌∷◌, ◌++◌, length, map, nat_lt, IfOk, OnErr};
ghost use Rattle.ny_num.specs.Grid.{index_at};
ghost use Rattle.ny_num.specs.Sound.{IsTiming, placed_timing, timing_of};
ghost use Rattle.ny_warp.specs.Environment.{from_stop};
ghost use Rattle.ny_check.specs.Meaning.{Bound, meaning};
ghost use Rattle.ny_timing.specs.Timings.{AllTimed, timed};
ghost use Rattle.ny_heap.specs.Heap.{Mix};
ghost use Rattle.ny_heap.specs.Steps.{IsMixOf, waiting_of, sounds_of};
ghost use Rattle.ny_hands.specs.Calls.{MakesUnit, Places};
ghost use Rattle.ny_hands.specs.Frames.{AllHeld};
ghost use Rattle.ny_hands.specs.Hands.{InHand, GivesUp};
ghost use Rattle.ny_trace.specs.Evaluates.{times_in};
ghost use Rattle.ny_eval.specs.Framed.{names_in};
ghost use Rattle.ny_eval.specs.Parts.{count_in, AreBelow};
ghost use Rattle.ny_eval.specs.Turns.{Follows, RestTurn};
ghost use Rattle.ny_eval.specs.Waiting.{kept_in, parts_between};

use crate::frame::Frame;
use crate::leaf::lawful;
use crate::mixing::give_up_all;
use crate::parts::Parts;
use crate::unit::brought;
use crate::waiting::branches;
use ny_check::{ExprId, Program};
use ny_hands::Branch;
use ny_heap::{Heap, Sound};
use ny_num::{Rate, Ticks, Timing, index};
use ny_timing::{placed_timing, timing};
use ny_warp::Env;
use std::alloc::{AllocError, Global};
use std::collections::VecDeque;

/// When an expression is heard as a whole, whatever waits of it.
///
/// # Errors
/// `AllocError` where memory is missing.
pub(crate) fn whole_timing(
    alloc: Global,
    p: &Program,
    e: ExprId,
    env: &Env,
    frame: &Frame<'_>,
) -> Result<Timing, AllocError>
    requires inside { e.0 < length p.now.nodes }
    requires names { AllTimed (times_in (names_in frame.now)) }
    ensures when { IfOk result (λ t. (bound : Bound) → timed bound ≡ times_in (names_in frame.now) → t ≡ timing_of (meaning p.now e.0 env.now bound)) }
    ensures bounds { IfOk result (λ t. IsTiming t) }
{
    let times = frame.times(alloc)?;
    Ok(timing(alloc, p, e, env, &times)?)
}

/// The environment from a stop on.
///
/// # Errors
/// `AllocError` where memory is missing.
pub(crate) fn env_from(alloc: Global, env: &Env, stop: Ticks) -> Result<Env, AllocError>
    ensures { IfOk result (λ late. late ≡ from_stop env.now stop) }
{
    let mut late = env.copy(alloc)?;
    late.at_stop(stop);
    Ok(late)
}

/// Whether the part behind this stop has its place in the first block of a sequence that is heard so.
pub(crate) fn is_due(stop: Ticks, when: &Timing, block: u32) -> bool
    ensures { result ≡ nat_lt (index_at stop when.now.rate) (when.now.start + block) }
{
    u64::from(index(stop, when.rate)) < u64::from(when.start) + u64::from(block)
}

/// The stop of a sound.
pub(crate) fn stop_of(sound: &Sound) -> Ticks
    ensures { result ≡ sound.now.timing.stop }
{
    sound.timing.stop
}

/// A sound in hand of this rate, placed at the index of a stop. Where nothing of it is left before the horizon it is given up.
fn placed_behind(sound: Sound, stop: Ticks, rate: Rate, heap: &mut Heap<Branch>) -> Sound
    requires hands { InHand heap.old (sound ∷ []) }
    requires rate { sound.timing.rate ≡ rate }
    ensures places { Places heap.old heap.new (placed_timing (index_at stop rate)) sound result }
{
    lawful(heap);
    let timing = placed_timing(index(stop, rate), &sound.timing);
    heap.place(sound, timing.start, timing.stop)
}

/// A sound in hand as the part that follows one with this stop: brought to the rate, and placed there.
///
/// # Errors
/// `AllocError` where memory is missing. The sound is spent nevertheless.
pub(crate) fn following(
    alloc: Global,
    sound: Sound,
    stop: Ticks,
    rate: Rate,
    heap: &mut Heap<Branch>,
) -> Result<Sound, AllocError>
    requires hands { InHand heap.old (sound ∷ []) }
    ensures follows { IfOk result (λ s. Follows rate stop sound heap.old heap.new s) }
    ensures gives_up { OnErr result (GivesUp heap.old heap.new (sound ∷ [])) }
{
    let at_rate = brought(alloc, sound, rate, heap)?;
    Ok(placed_behind(at_rate, stop, rate, heap))
}

/// A sequence over these parts and branches, heard as `timing` says. Their sounds are spent.
///
/// # Errors
/// `AllocError` where memory is missing. The sounds are spent nevertheless.
fn sequenced(
    alloc: Global,
    parts: Vec<Sound>,
    waiting: Vec<(Branch, Vec<Sound>)>,
    timing: Timing,
    heap: &mut Heap<Branch>,
) -> Result<Sound, AllocError>
    requires mix { IsMixOf parts.items timing }
    requires hands { InHand heap.old (parts.items ++ sounds_of (kept_in waiting.items)) }
    ensures makes { IfOk result (λ s. MakesUnit heap.old heap.new Mix timing parts.items (map waiting_of (kept_in waiting.items)) (parts.items ++ sounds_of (kept_in waiting.items)) s) }
    ensures gives_up { OnErr result (GivesUp heap.old heap.new (parts.items ++ sounds_of (kept_in waiting.items))) }
{
    Ok(heap.make_mix(alloc, parts, waiting, timing, false)?)
}

/// A sequence of which these parts are there and all others wait. The sounds are spent.
///
/// # Errors
/// `AllocError` where memory is missing. The sounds are spent nevertheless.
pub(crate) fn with_rest(
    alloc: Global,
    p: &Program,
    parts: &Parts<'_>,
    sounds: Vec<Sound>,
    timing: Timing,
    env: &Env,
    frame: &mut Frame<'_>,
    heap: &mut Heap<Branch>,
) -> Result<Sound, AllocError>
    requires below { AreBelow (length p.now.nodes) parts.now }
    requires few { length sounds.items ≤ count_in parts.now }
    requires mix { IsMixOf sounds.items timing }
    requires hands { InHand heap.old sounds.items }
    requires names { AllHeld heap.old (names_in frame.old) }
    ensures turn { IfOk result (λ s. RestTurn p.now env.now (parts_between (names_in frame.old) parts.now (length sounds.items) (count_in parts.now - length sounds.items)) timing sounds.items heap.old heap.new s) }
    ensures same { frame.new ≡ frame.old }
    ensures gives_up { OnErr result (GivesUp heap.old heap.new sounds.items) }
{
    match branches(alloc, p, parts, sounds.as_slice().len(), env, frame, heap) {
        Ok(waiting) => Ok(sequenced(alloc, sounds, waiting, timing, heap)?),
        Err(fault) => {
            give_up_all(VecDeque::from(sounds), heap);
            Err(fault)
        }
    }
}
