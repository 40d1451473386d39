//! Cues.

ghost use Rattle.std.specs.Prelude.{◌≡◌, [], ◌∷◌, IfOk, OnErr};
ghost use Rattle.ny_check.specs.Behaviours.{is_one, cue_timing};
ghost use Rattle.ny_hands.specs.Calls.{Places};
ghost use Rattle.ny_hands.specs.Hands.{InHand, GivesUp};
ghost use Rattle.ny_trace.specs.Evaluates.{LouderTurn, CuedTurn};

use crate::unit::single;
use ny_hands::Branch;
use ny_heap::{Heap, Make, Op, Sound};
use ny_num::{Fix, Sample};
use ny_timing::cue_timing;
use ny_warp::Env;
use std::alloc::{AllocError, Global};

fn is_one(loud: Fix) -> bool
    ensures { result ≡ is_one loud }
{
    !(loud.micro() < 1_000_000) && !(1_000_000 < loud.micro())
}

/// A sound in hand, heard from local time 0 on. Where nothing of it is left before the horizon it is given up.
fn moved(sound: Sound, env: &Env, heap: &mut Heap<Branch>) -> Sound
    requires hands { InHand heap.old (sound ∷ []) }
    ensures places { Places heap.old heap.new (cue_timing env.now) sound result }
{
    let timing = cue_timing(env, &sound.timing);
    heap.place(sound, timing.start, timing.stop)
}

/// A sound in hand at a loudness: at 1 as it is, and else a product, for which it is spent.
///
/// # Errors
/// `AllocError` where memory is missing. The sound is spent nevertheless.
fn louder(
    alloc: Global,
    sound: Sound,
    loud: Fix,
    heap: &mut Heap<Branch>,
) -> Result<Sound, AllocError>
    requires hands { InHand heap.old (sound ∷ []) }
    ensures turn { IfOk result (λ s. LouderTurn (is_one loud) loud sound heap.old heap.new s) }
    ensures gives_up { OnErr result (GivesUp heap.old heap.new (sound ∷ [])) }
{
    if is_one(loud) {
        Ok(sound)
    } else {
        let make = Make::Pair(Op::Mul, Some(Sample::of_fix(loud)), None);
        Ok(single(alloc, make, sound, heap)?)
    }
}

/// A cue of a sound in hand: heard from local time 0 on, and at the loudness.
///
/// # Errors
/// `AllocError` where memory is missing. The sound is spent nevertheless.
pub(crate) fn cued(
    alloc: Global,
    sound: Sound,
    env: &Env,
    heap: &mut Heap<Branch>,
) -> Result<Sound, AllocError>
    requires hands { InHand heap.old (sound ∷ []) }
    ensures turn { IfOk result (λ s. CuedTurn env.now sound heap.old heap.new s) }
    ensures gives_up { OnErr result (GivesUp heap.old heap.new (sound ∷ [])) }
{
    let later = moved(sound, env, heap);
    Ok(louder(alloc, later, env.loud, heap)?)
}
