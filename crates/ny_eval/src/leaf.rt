ghost use Rattle.std.specs.Prelude.{◌≡◌, ℕ, ◌<◌, ◌≤◌, length, [], pos, IfOk, OnErr};
ghost use Rattle.ny_num.specs.Leaves.{leaf};
ghost use Rattle.ny_num.specs.Sound.{IsTiming};
ghost use Rattle.ny_check.specs.Code.{AllBelow};
ghost use Rattle.ny_check.specs.Families.{leaf_sound, leaf_time};
ghost use Rattle.ny_heap.specs.Heap.{Made};
ghost use Rattle.ny_heap.specs.Kinds.{kind_of_leaf};
ghost use Rattle.ny_heap.specs.Reach.{HeapLaws};
ghost use Rattle.ny_heap.specs.declared.make.Make.TheVariants.{Leaf as MakesLeaf};
ghost use Rattle.ny_units.specs.Playing.{leaf_value, IsLeaf, Reaches};
ghost use Rattle.ny_hands.specs.Calls.{MakesUnit, IsSilent};
ghost use Rattle.ny_hands.specs.Hands.{Hand, GivesUp};
ghost use Rattle.ny_hands.specs.Kinds.{kind_of_generator, IsOfKind};
ghost use Rattle.ny_eval.specs.Framed.{names_in};
ghost use Rattle.ny_trace.specs.Evaluates.{LeafTurn, numbers_in};

use crate::envelope::knots;
use crate::frame::Frame;
use crate::values::numbers;
use ny_check::operations::number_at;
use ny_check::{ExprId, Generator, Program};
use ny_hands::Branch;
use ny_heap::{Heap, Leaf, Make, Sound};
use ny_num::pitch::{increment, key_hz, key_of, seed_of};
use ny_num::{Fix, Rate, Sample, Ticks, Timing};
use ny_timing::leaf_time;
use ny_warp::Env;
use std::alloc::{AllocError, Global};

/// Shows what holds of each heap between two calls.
pub(crate) fn lawful(heap: &Heap<Branch>)
    ensures { HeapLaws heap.now }
{
    let _free = heap.free();
}

/// A leaf that is heard as `timing` says, as a sound of the heap. Where it has no sample, whatever it
/// is.
///
/// # Errors
/// `AllocError` where memory is missing. The heap is then as before.
fn play(
    alloc: Global,
    played: Leaf,
    timing: Timing,
    heap: &mut Heap<Branch>,
) -> Result<Sound, AllocError>
    requires heard { 0 < timing.len → IsLeaf played × Reaches played timing.len }
    requires bounds { IsTiming timing }
    ensures makes { IfOk result (λ s. MakesUnit heap.old heap.new (Made (MakesLeaf played)) timing [] [] [] s) }
    ensures gives_up { OnErr result (GivesUp heap.old heap.new []) }
{
    heap.make(alloc, Make::Leaf(played), Vec::new(alloc), timing)
}

/// No sound, at this rate.
///
/// # Errors
/// `AllocError` where memory is missing. The heap is then as before.
pub(crate) fn silent(
    alloc: Global,
    rate: Rate,
    heap: &mut Heap<Branch>,
) -> Result<Sound, AllocError>
    ensures silent { IfOk result (λ s. IsSilent heap.old heap.new rate s) }
    ensures gives_up { OnErr result (GivesUp heap.old heap.new []) }
{
    let timing = Timing {
        rate,
        start: 0,
        len: 0,
        stop: Ticks::of(0),
    };
    play(alloc, Leaf::Const(Sample::ZERO), timing, heap)
}

/// The unit of a leaf of these numbers that is heard as `timing` says: a row for each.
///
/// # Errors
/// `AllocError` where memory is missing.
fn unit_of(
    alloc: Global,
    generator: Generator,
    env: &Env,
    numbers: &[Fix],
    timing: &Timing,
) -> Result<Leaf, AllocError>
    requires { timing.now ≡ leaf_time generator env.now numbers.now }
    ensures sound { IfOk result (λ unit. leaf timing.now (leaf_value unit) ≡ leaf_sound generator env.now numbers.now) }
    ensures kind { IfOk result (λ unit. IsOfKind (kind_of_generator generator) (kind_of_leaf unit)) }
    ensures heard { IfOk result (λ unit. 0 < timing.now.len → IsLeaf unit × Reaches unit timing.now.len) }
{
    env.never_falls();
    let first = number_at(numbers, 0);
    let loud = Sample::of_fix(env.loud);
    match generator {
        Generator::Const => Ok(Leaf::Const(Sample::of_fix(first))),
        Generator::Osc => {
            let inc = increment(key_hz(key_of(first, env.transpose)), env.sound_rate);
            Ok(Leaf::Osc { inc, loud })
        }
        Generator::HzOsc => {
            let inc = increment(first, env.sound_rate);
            Ok(Leaf::HzOsc { inc, loud })
        }
        Generator::Lfo => {
            let inc = increment(first, env.control_rate);
            Ok(Leaf::Lfo { inc })
        }
        Generator::Noise => {
            let x = seed_of(first);
            Ok(Leaf::Noise { x, loud })
        }
        Generator::Rest => Ok(Leaf::Const(Sample::ZERO)),
        Generator::Ramp => Ok(Leaf::Ramp(timing.len)),
        Generator::Pwl => {
            let knots = knots(alloc, env, timing.start, numbers)?;
            Ok(Leaf::Pwl(knots))
        }
    }
}

/// A leaf, in an environment.
///
/// # Errors
/// `AllocError` where memory is missing. The heap is then as before.
pub(crate) fn make_leaf(
    alloc: Global,
    p: &Program,
    e: ExprId,
    generator: Generator,
    parts: &[ExprId],
    env: &Env,
    frame: &mut Frame<'_>,
    heap: &mut Heap<Branch>,
) -> Result<Sound, AllocError>
    requires inside { e.0 ≤ length p.now.nodes }
    requires below { AllBelow e.0 parts.now }
    ensures turn { IfOk result (λ s. LeafTurn generator env.now (numbers_in p.now (names_in frame.old) parts.now) heap.old heap.new s) }
    ensures same { frame.new ≡ frame.old }
    ensures refused { OnErr result (Hand heap.old heap.new []) }
{
    lawful(heap);
    let numbers = numbers(alloc, p, e, parts, frame)?;
    let timing = leaf_time(generator, env, numbers.as_slice());
    let unit = unit_of(alloc, generator, env, numbers.as_slice(), &timing)?;
    Ok(play(alloc, unit, timing, heap)?)
}
