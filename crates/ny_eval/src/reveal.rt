//! Parts that fall due: each is handed out by its unit, evaluated in its names, and attached.

ghost use Rattle.std.specs.Prelude.{◌≡◌, ℕ, ◌+◌, ◌<◌, ◌≤◌, [], ◌∷◌, length, IsSome, IsSomeAnd, IfOk, OnOk, OnErr, None, Some, vec_capacity};
ghost use Rattle.ny_num.specs.declared.rate.Rate.{Rate as RateOf};
ghost use Rattle.ny_heap.specs.Heap.{HeapState, Waiting, node_at};
ghost use Rattle.ny_heap.specs.Reach.{HeapLaws};
ghost use Rattle.ny_heap.specs.Revealing.{due_of};
ghost use Rattle.ny_heap.specs.Steps.{AreHeld};
ghost use Rattle.ny_hands.specs.declared.branch.Branch.{Branch as BranchOf};
ghost use Rattle.ny_hands.specs.Calls.{ReleasesAll};
ghost use Rattle.ny_hands.specs.Frames.{AllHeld, sounds_among};
ghost use Rattle.ny_hands.specs.Hands.{Hand};
ghost use Rattle.ny_trace.specs.Evaluates.{Evaluates, NextTurn, sounds_of_values};
ghost use Rattle.ny_trace.specs.Reveals.{frame};
ghost use Rattle.ny_walk.specs.Parts.{AreKept};
ghost use Rattle.ny_walk.specs.Walk.{PartTurn, RevealsParts};
ghost use Rattle.ny_eval.specs.Ready.{IsReady};
ghost use Rattle.ny_eval.specs.Revealed.{HasFirst, IsFramed, IsDuePart, HasRoomFor, RevealsOne};

use crate::expression::evaluate;
use crate::frame::Frame;
use crate::laws::program_laws;
use crate::leaf::lawful;
use crate::turn::{env_from, following};
use ny_check::{ExprId, NameId, Program, Value};
use ny_hands::Branch;
use ny_heap::{Heap, Sound, UnitId};
use ny_num::Ticks;
use ny_warp::Env;
use std::alloc::{AllocError, Global};
use std::collections::VecDeque;

/// The first of these sounds, taken out.
fn first_of(sounds: &mut VecDeque<Sound>) -> Sound
    requires some { 0 < length sounds.old.items }
    ensures first { sounds.old.items ≡ result ∷ sounds.new.items }
{
    sounds.pop_front().unwrap()
}

/// What a name of a branch stands for: a number, or the first of the sounds that are left.
fn framed_value(value: &Value<u32>, left: &mut VecDeque<Sound>) -> Value<Sound>
    requires some { HasFirst value.now left.old.items }
    ensures framed { IsFramed value.now left.old.items left.new.items result }
{
    match value {
        Value::Number(v) => Value::Number(*v),
        Value::Sound(_) => Value::Sound(first_of(left)),
    }
}

/// The names of a branch over the sounds that it kept, which come in their order. There is room for them.
fn framed(
    names: &[(NameId, Value<u32>)],
    captured: VecDeque<Sound>,
    room: Vec<(NameId, Value<Sound>)>,
) -> Vec<(NameId, Value<Sound>)>
    requires kept { AreKept 0 names.now (length captured.items) }
    requires none { room.items ≡ [] }
    requires room { length names.now ≤ vec_capacity room }
    ensures framed { (rate : RateOf) → result.items ≡ frame rate captured.items names.now }
{
    let mut left = captured;
    let mut framed = room;
    for i in 0..names.len() {
        framed.push_reserved((names[i].0, framed_value(&names[i].1, &mut left)));
    }
    framed
}

/// Gives up the sound that a name stands for.
fn give_up_held(value: Value<Sound>, heap: &mut Heap<Branch>)
    requires held { AreHeld heap.old (sounds_of_values (value ∷ [])) }
    ensures released { ReleasesAll heap.old heap.new (sounds_of_values (value ∷ [])) }
{
    if let Value::Sound(sound) = value {
        heap.release(sound);
    }
}

/// Gives up the sounds that these names stand for, the first one first.
fn give_up_names(names: VecDeque<(NameId, Value<Sound>)>, heap: &mut Heap<Branch>)
    requires held { AreHeld heap.old (sounds_among names.items) }
    ensures laws { HeapLaws heap.new }
    ensures released { ReleasesAll heap.old heap.new (sounds_among names.items) }
{
    lawful(heap);
    let mut left = names;
    while let Some(binding) = left.pop_front() {
        let (_, value) = binding;
        give_up_held(value, heap);
    }
}

/// An expression as the part that follows one with this stop: evaluated in these names and in the environment from there on,
/// brought to the sound rate, and placed there.
///
/// # Errors
/// `AllocError` where memory is missing. The heap is then as before.
fn part_behind(
    alloc: Global,
    p: &Program,
    e: ExprId,
    env: &Env,
    names: &[(NameId, Value<Sound>)],
    stop: Ticks,
    heap: &mut Heap<Branch>,
) -> Result<Sound, AllocError>
    requires inside { e.0 < length p.now.nodes }
    requires names { AllHeld heap.old names.now }
    ensures turn { IfOk result (λ s. NextTurn (Evaluates p.now (e.0 + 1)) env.now stop (e, names.now) heap.old heap.new s) }
    ensures hand { IfOk result (λ s. Hand heap.old heap.new (s ∷ [])) }
    ensures refused { OnErr result (Hand heap.old heap.new []) }
{
    program_laws(p);
    lawful(heap);
    let late = env_from(alloc, env, stop)?;
    let mut frame = Frame::of(alloc, names)?;
    let sound = evaluate(alloc, p, e, late, &mut frame, heap)?;
    Ok(following(alloc, sound, stop, env.sound_rate, heap)?)
}

/// The part that a branch is, as it follows one with this stop. Then the sounds that the branch kept are given up. There is room
/// for its names.
///
/// # Errors
/// `AllocError` where memory is missing. The sounds are given up nevertheless.
fn due_part(
    alloc: Global,
    p: &Program,
    branch: Branch,
    captured: Vec<Sound>,
    room: Vec<(NameId, Value<Sound>)>,
    stop: Ticks,
    heap: &mut Heap<Branch>,
) -> Result<Sound, AllocError>
    requires inside { branch.expr.0 < length p.now.nodes }
    requires kept { AreKept 0 branch.names (length captured.items) }
    requires held { AreHeld heap.old captured.items }
    requires none { room.items ≡ [] }
    requires room { length branch.names ≤ vec_capacity room }
    ensures part { IfOk result (λ s. IsDuePart p.now branch stop captured.items heap.old heap.new s) }
    ensures laws { HeapLaws heap.new }
    ensures size { (heap.new.pool ≡ heap.old.pool) × (heap.new.block ≡ heap.old.block) }
{
    lawful(heap);
    let names = framed(branch.names.as_slice(), VecDeque::from(captured), room);
    let part = part_behind(
        alloc,
        p,
        branch.expr,
        &branch.env,
        names.as_slice(),
        stop,
        heap,
    );
    give_up_names(VecDeque::from(names), heap);
    part
}

/// Room for the names of the part that is due at `u`; None exactly where none is due.
///
/// # Errors
/// `AllocError` where memory is missing.
fn room_for(
    alloc: Global,
    heap: &Heap<Branch>,
    u: UnitId,
) -> Result<Option<Vec<(NameId, Value<Sound>)>>, AllocError>
    requires there { IsSome (node_at heap.now u.0.0) }
    ensures room { IfOk result (λ room. HasRoomFor (due_of heap.now u.0.0) room) }
    ensures lacks { OnErr result (IsSome (due_of heap.now u.0.0)) }
{
    match heap.due(u) {
        None => Ok(None),
        Some(branch) => Ok(Some(Vec::with_capacity(alloc, branch.names.as_slice().len())?)),
    }
}

/// The part that is due at `u` is handed out, evaluated and attached. There is room for its names.
///
/// # Errors
/// `AllocError` where memory is missing for it.
fn reveal_in(
    alloc: Global,
    p: &Program,
    heap: &mut Heap<Branch>,
    u: UnitId,
    room: Vec<(NameId, Value<Sound>)>,
) -> Result<bool, AllocError>
    requires laws { HeapLaws heap.old }
    requires there { IsSomeAnd (node_at heap.old u.0.0) (λ x. x.pending ≡ 0) }
    requires ready { IsReady p.now heap.old }
    requires room { HasRoomFor (due_of heap.old u.0.0) (Some room) }
    ensures laws { HeapLaws heap.new }
    ensures size { (heap.new.pool ≡ heap.old.pool) × (heap.new.block ≡ heap.old.block) }
    ensures reveals { IfOk result (λ more. RevealsOne p.now heap.old u.0.0 heap.new more) }
{
    program_laws(p);
    p.height_law();
    let stop = heap.last_stop(u);
    match heap.next_due(u) {
        None => Ok(false),
        Some(handed) => {
            let (branch, captured) = handed;
            let part = due_part(alloc, p, branch, captured, room, stop, heap)?;
            heap.attach(u, part);
            Ok(true)
        }
    }
}

/// The part of `u` that is due is revealed. Answers whether one was.
///
/// # Errors
/// `AllocError` where one was and memory is missing for it.
fn reveal(
    alloc: Global,
    p: &Program,
    heap: &mut Heap<Branch>,
    u: UnitId,
) -> Result<bool, AllocError>
    requires laws { HeapLaws heap.old }
    requires there { IsSomeAnd (node_at heap.old u.0.0) (λ x. x.pending ≡ 0) }
    requires ready { IsReady p.now heap.old }
    ensures laws { HeapLaws heap.new }
    ensures size { (heap.new.pool ≡ heap.old.pool) × (heap.new.block ≡ heap.old.block) }
    ensures reveals { IfOk result (λ more. RevealsOne p.now heap.old u.0.0 heap.new more) }
    ensures lacks { OnErr result (IsSome (due_of heap.old u.0.0)) }
{
    match room_for(alloc, heap, u)? {
        None => Ok(false),
        Some(room) => Ok(reveal_in(alloc, p, heap, u, room)?),
    }
}

/// The parts of `u` that are due are revealed, the first one first.
///
/// # Errors
/// `AllocError` where memory is missing for one of them.
pub(crate) fn reveal_due(
    alloc: Global,
    p: &Program,
    heap: &mut Heap<Branch>,
    u: UnitId,
) -> Result<(), AllocError>
    requires laws { HeapLaws heap.old }
    requires there { IsSomeAnd (node_at heap.old u.0.0) (λ x. x.pending ≡ 0) }
    requires ready { IsReady p.now heap.old }
    ensures laws { HeapLaws heap.new }
    ensures size { (heap.new.pool ≡ heap.old.pool) × (heap.new.block ≡ heap.old.block) }
    ensures reveals { OnOk result ((k : ℕ) × RevealsParts (PartTurn p.now) k heap.old u.0.0 heap.new × (due_of heap.new u.0.0 ≡ None)) }
    ensures lacks { OnErr result ((k : ℕ) × (last : HeapState BranchOf) × (part : Waiting BranchOf) × RevealsParts (PartTurn p.now) k heap.old u.0.0 last × (due_of last u.0.0 ≡ Some part)) }
{
    program_laws(p);
    p.height_law();
    while reveal(alloc, p, heap, u)? {}
    Ok(())
}
