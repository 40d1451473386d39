//! Units over sounds in hand.

ghost use Rattle.std.specs.Prelude.{◌≡◌, true, [], ◌∷◌, None, Some, IfOk, OnErr};
ghost use Rattle.ny_num.specs.Resampling.{is_same_rate};
ghost use Rattle.ny_num.specs.Sound.{IsTiming};
ghost use Rattle.ny_heap.specs.Heap.{Made};
ghost use Rattle.ny_heap.specs.Steps.{IsMadeOf, both_timing};
ghost use Rattle.ny_heap.specs.declared.make.Make.TheVariants.{Pair as PairMake};
ghost use Rattle.ny_hands.specs.Calls.{MakesUnit, ReleasesAll, Brings};
ghost use Rattle.ny_hands.specs.Hands.{InHand, GivesUp};
ghost use Rattle.ny_hands.specs.Made.{IsSingle};
ghost use Rattle.ny_trace.specs.Evaluates.{BothTurn, OneTurn, JoinTurn, sounds_of_values};

use crate::leaf::silent;
use ny_check::Value;
use ny_hands::Branch;
use ny_heap::{Heap, Make, Op, Sound};
use ny_num::{Rate, Sample, Timing};
use ny_timing::{product_timing, resampled_timing, sum_timing};
use std::alloc::{AllocError, Global};

/// A unit that computes this of one sound, which is spent, heard as `timing` says.
///
/// # Errors
/// `AllocError` where memory is missing. The sound is spent nevertheless.
fn of_one(
    alloc: Global,
    make: Make,
    sound: Sound,
    timing: Timing,
    heap: &mut Heap<Branch>,
) -> Result<Sound, AllocError>
    requires hands { InHand heap.old (sound ∷ []) }
    requires made { IsMadeOf make (sound ∷ []) timing }
    ensures makes { IfOk result (λ s. MakesUnit heap.old heap.new (Made make) timing (sound ∷ []) [] (sound ∷ []) s) }
    ensures gives_up { OnErr result (GivesUp heap.old heap.new (sound ∷ [])) }
{
    match Vec::with_capacity(alloc, 1) {
        Ok(room) => {
            let mut inputs = room;
            inputs.push_reserved(sound);
            Ok(heap.make(alloc, make, inputs, timing)?)
        }
        Err(fault) => {
            heap.release(sound);
            Err(fault)
        }
    }
}

/// A unit that computes this of one sound, which is spent, heard when that sound is.
///
/// # Errors
/// `AllocError` where memory is missing. The sound is spent nevertheless.
pub(crate) fn single(
    alloc: Global,
    make: Make,
    sound: Sound,
    heap: &mut Heap<Branch>,
) -> Result<Sound, AllocError>
    requires hands { InHand heap.old (sound ∷ []) }
    requires made { IsSingle make }
    ensures makes { IfOk result (λ s. MakesUnit heap.old heap.new (Made make) sound.timing (sound ∷ []) [] (sound ∷ []) s) }
    ensures gives_up { OnErr result (GivesUp heap.old heap.new (sound ∷ [])) }
{
    let timing = sound.timing;
    Ok(of_one(alloc, make, sound, timing, heap)?)
}

fn has_rate(timing: &Timing, rate: Rate) -> bool
    ensures { result ≡ is_same_rate timing.now.rate rate }
{
    timing.rate.hz() == rate.hz()
}

/// A sound, brought to a rate: at that rate already it stays as it is, and else it is spent.
///
/// # Errors
/// `AllocError` where memory is missing. The sound is spent nevertheless.
pub(crate) fn brought(
    alloc: Global,
    sound: Sound,
    rate: Rate,
    heap: &mut Heap<Branch>,
) -> Result<Sound, AllocError>
    requires hands { InHand heap.old (sound ∷ []) }
    ensures brings { IfOk result (λ s. Brings heap.old heap.new rate sound s) }
    ensures rate { IfOk result (λ s. s.timing.rate ≡ rate) }
    ensures gives_up { OnErr result (GivesUp heap.old heap.new (sound ∷ [])) }
{
    if has_rate(&sound.timing, rate) {
        Ok(sound)
    } else {
        let timing = resampled_timing(rate, &sound.timing);
        Ok(of_one(alloc, Make::Resample, sound, timing, heap)?)
    }
}

/// A sound and a number by an operation. The sound, which is spent, is first brought to the rate.
///
/// # Errors
/// `AllocError` where memory is missing. The sound is spent nevertheless.
fn with_number(
    alloc: Global,
    op: Op,
    left: Option<Sample>,
    right: Option<Sample>,
    sound: Sound,
    rate: Rate,
    heap: &mut Heap<Branch>,
) -> Result<Sound, AllocError>
    requires hands { InHand heap.old (sound ∷ []) }
    requires made { IsSingle (PairMake op left right) }
    ensures turn { IfOk result (λ s. OneTurn op left right rate sound heap.old heap.new s) }
    ensures gives_up { OnErr result (GivesUp heap.old heap.new (sound ∷ [])) }
{
    let sound = brought(alloc, sound, rate, heap)?;
    Ok(single(alloc, Make::Pair(op, left, right), sound, heap)?)
}

/// When an operation on two sounds of one rate is heard.
fn both_timing(op: Op, a: &Timing, b: &Timing) -> Timing
    requires rate { a.now.rate ≡ b.now.rate }
    requires a_bounds { IsTiming a.now }
    requires b_bounds { IsTiming b.now }
    ensures value { result ≡ both_timing op a.now b.now }
    ensures bounds { IsTiming result }
{
    match op {
        Op::Mul => product_timing(a, b),
        Op::Add | Op::Sub | Op::Max | Op::Min => sum_timing(a, b),
    }
}

/// Two sounds of one rate, which are spent, by an operation.
///
/// # Errors
/// `AllocError` where memory is missing. Both sounds are spent nevertheless.
fn of_two(
    alloc: Global,
    op: Op,
    first: Sound,
    second: Sound,
    heap: &mut Heap<Branch>,
) -> Result<Sound, AllocError>
    requires hands { InHand heap.old (first ∷ second ∷ []) }
    requires rate { first.timing.rate ≡ second.timing.rate }
    ensures makes { IfOk result (λ s. MakesUnit heap.old heap.new (Made (PairMake op None None)) (both_timing op first.timing second.timing) (first ∷ second ∷ []) [] (first ∷ second ∷ []) s) }
    ensures gives_up { OnErr result (GivesUp heap.old heap.new (first ∷ second ∷ [])) }
{
    let timing = both_timing(op, &first.timing, &second.timing);
    match Vec::with_capacity(alloc, 2) {
        Ok(room) => {
            let mut inputs = room;
            inputs.push_reserved(first);
            inputs.push_reserved(second);
            Ok(heap.make(alloc, Make::Pair(op, None, None), inputs, timing)?)
        }
        Err(fault) => {
            heap.release(first);
            heap.release(second);
            Err(fault)
        }
    }
}

/// Two sounds, which are spent, by an operation. Each that has another rate is first brought to this
/// one, the first one first.
///
/// # Errors
/// `AllocError` where memory is missing. Both sounds are spent nevertheless.
fn together(
    alloc: Global,
    op: Op,
    first: Sound,
    second: Sound,
    rate: Rate,
    heap: &mut Heap<Branch>,
) -> Result<Sound, AllocError>
    requires hands { InHand heap.old (first ∷ second ∷ []) }
    ensures turn { IfOk result (λ s. BothTurn op rate first second heap.old heap.new s) }
    ensures gives_up { OnErr result (GivesUp heap.old heap.new (first ∷ second ∷ [])) }
{
    match brought(alloc, first, rate, heap) {
        Ok(left) => match brought(alloc, second, rate, heap) {
            Ok(right) => Ok(of_two(alloc, op, left, right, heap)?),
            Err(fault) => {
                heap.release(left);
                Err(fault)
            }
        },
        Err(fault) => {
            heap.release(second);
            Err(fault)
        }
    }
}

/// Two operands by an operation: two sounds, a sound and a number, or two numbers, which are no sound.
/// The sounds are spent.
///
/// # Errors
/// `AllocError` where memory is missing. The sounds are spent nevertheless.
pub(crate) fn joined(
    alloc: Global,
    op: Op,
    left: Value<Sound>,
    right: Value<Sound>,
    rate: Rate,
    heap: &mut Heap<Branch>,
) -> Result<Sound, AllocError>
    requires hands { InHand heap.old (sounds_of_values (left ∷ right ∷ [])) }
    ensures turn { IfOk result (λ s. JoinTurn op rate left right heap.old heap.new s) }
    ensures gives_up { OnErr result (GivesUp heap.old heap.new (sounds_of_values (left ∷ right ∷ []))) }
{
    match left {
        Value::Number(j) => match right {
            Value::Number(_) => Ok(silent(alloc, rate, heap)?),
            Value::Sound(b) => {
                Ok(with_number(alloc, op, Some(Sample::of_fix(j)), None, b, rate, heap)?)
            }
        },
        Value::Sound(a) => match right {
            Value::Number(k) => {
                Ok(with_number(alloc, op, None, Some(Sample::of_fix(k)), a, rate, heap)?)
            }
            Value::Sound(b) => Ok(together(alloc, op, a, b, rate, heap)?),
        },
    }
}

/// Gives up an operand.
pub(crate) fn give_up(value: Value<Sound>, heap: &mut Heap<Branch>)
    requires hands { InHand heap.old (sounds_of_values (value ∷ [])) }
    ensures gives_up { GivesUp heap.old heap.new (sounds_of_values (value ∷ [])) }
    ensures released { ReleasesAll heap.old heap.new (sounds_of_values (value ∷ [])) }
{
    if let Value::Sound(sound) = value {
        heap.release(sound);
    }
}
