//! Sounds in hand that are mixed.

ghost use Rattle.std.specs.Prelude.{◌≡◌, ◌≤◌, [], ◌++◌, length, map, All, IfOk, OnOk, OnErr, vec_capacity};
ghost use Rattle.ny_num.specs.Mix.{mix_timing};
ghost use Rattle.ny_heap.specs.Heap.{Mix};
ghost use Rattle.ny_hands.specs.Calls.{MakesUnit, BringsEach};
ghost use Rattle.ny_hands.specs.Hands.{InHand, GivesUp};
ghost use Rattle.ny_trace.specs.Evaluates.{MixedTurn};
ghost use Rattle.ny_eval.specs.Mixing.{ComeFor};

use crate::leaf::silent;
use crate::unit::brought;
use ny_hands::Branch;
use ny_heap::{Heap, Sound};
use ny_num::{Rate, Timing};
use ny_timing::mix_timing;
use std::alloc::{AllocError, Global};
use std::collections::VecDeque;

/// Gives up sounds, the first one first.
pub(crate) fn give_up_all(sounds: VecDeque<Sound>, heap: &mut Heap<Branch>)
    requires hands { InHand heap.old sounds.items }
    ensures gives_up { GivesUp heap.old heap.new sounds.items }
{
    let mut left = sounds;
    while let Some(sound) = left.pop_front() {
        heap.release(sound);
    }
}

/// When these sounds are heard.
fn times_of(alloc: Global, sounds: &[Sound]) -> Result<Vec<Timing>, AllocError>
    ensures { IfOk result (λ times. times.items ≡ map (λ s. s.timing) sounds.now) }
{
    sounds.iter().map(|s| s.timing).collect(alloc)
}

/// A mix of sounds of this rate, which are spent. Where there is none it is silent.
///
/// # Errors
/// `AllocError` where memory is missing. The sounds are spent nevertheless.
fn mix_of(
    alloc: Global,
    parts: Vec<Sound>,
    rate: Rate,
    heap: &mut Heap<Branch>,
) -> Result<Sound, AllocError>
    requires hands { InHand heap.old parts.items }
    requires rates { All (λ s. s.timing.rate ≡ rate) parts.items }
    ensures makes { IfOk result (λ s. MakesUnit heap.old heap.new Mix (mix_timing rate (map (λ s. s.timing) parts.items)) parts.items [] parts.items s) }
    ensures gives_up { OnErr result (GivesUp heap.old heap.new parts.items) }
{
    if parts.as_slice().is_empty() {
        return Ok(silent(alloc, rate, heap)?);
    }
    match times_of(alloc, parts.as_slice()) {
        Ok(times) => {
            let timing = mix_timing(rate, times.as_slice());
            Ok(heap.make_mix(alloc, parts, Vec::new(alloc), timing, false)?)
        }
        Err(fault) => {
            give_up_all(VecDeque::from(parts), heap);
            Err(fault)
        }
    }
}

/// Brings sounds to a rate, the first one first, and puts them into `done`.
///
/// # Errors
/// `AllocError` where memory is missing. Those that were brought and those that are left are then in hand.
fn bring_each(
    alloc: Global,
    left: &mut VecDeque<Sound>,
    rate: Rate,
    done: &mut Vec<Sound>,
    heap: &mut Heap<Branch>,
) -> Result<(), AllocError>
    requires hands { InHand heap.old left.old.items }
    requires none { done.old.items ≡ [] }
    requires room { length left.old.items ≤ vec_capacity done.old }
    ensures brings { OnOk result (BringsEach heap.old heap.new rate left.old.items done.new.items) }
    ensures rates { OnOk result (All (λ s. s.timing.rate ≡ rate) done.new.items) }
    ensures hands { OnErr result (ComeFor heap.old heap.new left.old.items (left.new.items ++ done.new.items)) }
{
    while let Some(part) = left.pop_front() {
        let sound = brought(alloc, part, rate, heap)?;
        done.push_reserved(sound);
    }
    Ok(())
}

/// Sounds together, at a rate: each is brought to it, and then they are mixed. They are spent. There is room for
/// them in `room`.
///
/// # Errors
/// `AllocError` where memory is missing. The sounds are spent nevertheless.
fn mixed_in(
    alloc: Global,
    parts: Vec<Sound>,
    room: Vec<Sound>,
    rate: Rate,
    heap: &mut Heap<Branch>,
) -> Result<Sound, AllocError>
    requires hands { InHand heap.old parts.items }
    requires none { room.items ≡ [] }
    requires room { length parts.items ≤ vec_capacity room }
    ensures turn { IfOk result (λ s. MixedTurn rate parts.items heap.old heap.new s) }
    ensures gives_up { OnErr result (GivesUp heap.old heap.new parts.items) }
{
    let mut left = VecDeque::from(parts);
    let mut done = room;
    match bring_each(alloc, &mut left, rate, &mut done, heap) {
        Ok(()) => Ok(mix_of(alloc, done, rate, heap)?),
        Err(fault) => {
            give_up_all(left, heap);
            give_up_all(VecDeque::from(done), heap);
            Err(fault)
        }
    }
}

/// Sounds together, at a rate: each that has another rate is first brought to it, the first one first. They are
/// spent.
///
/// # Errors
/// `AllocError` where memory is missing. The sounds are spent nevertheless.
pub(crate) fn mixed(
    alloc: Global,
    parts: Vec<Sound>,
    rate: Rate,
    heap: &mut Heap<Branch>,
) -> Result<Sound, AllocError>
    requires hands { InHand heap.old parts.items }
    ensures turn { IfOk result (λ s. MixedTurn rate parts.items heap.old heap.new s) }
    ensures gives_up { OnErr result (GivesUp heap.old heap.new parts.items) }
{
    match Vec::with_capacity(alloc, parts.as_slice().len()) {
        Ok(room) => Ok(mixed_in(alloc, parts, room, rate, heap)?),
        Err(fault) => {
            give_up_all(VecDeque::from(parts), heap);
            Err(fault)
        }
    }
}
