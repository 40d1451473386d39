//! Parts that wait.

ghost use Rattle.std.specs.Prelude.{◌≡◌, ◌+◌, ◌-◌, ◌<◌, ◌≤◌, [], ◌∷◌, length, IfOk, OnOk, OnErr, vec_len, vec_capacity};
ghost use Rattle.ny_scope.specs.Scopes.{last_of};
ghost use Rattle.ny_resolve.specs.Keys.{same_name};
ghost use Rattle.ny_heap.specs.Steps.{sounds_of};
ghost use Rattle.ny_hands.specs.Frames.{AllHeld};
ghost use Rattle.ny_hands.specs.Hands.{Hand, InHand, GivesUp};
ghost use Rattle.ny_trace.specs.Evaluates.{KeepsTurn, counted_names};
ghost use Rattle.ny_eval.specs.Framed.{names_in};
ghost use Rattle.ny_eval.specs.Parts.{count_in, part_at, AreBelow};
ghost use Rattle.ny_eval.specs.Waiting.{KeepsName, kept_in, parts_between, WaitsAlone, WaitAll};

use crate::frame::Frame;
use crate::leaf::lawful;
use crate::mixing::give_up_all;
use crate::name::shared;
use crate::parts::{Parts, expr_at, turn_number};
use ny_check::{ExprId, NameId, Program, Value};
use ny_hands::Branch;
use ny_heap::{Heap, Sound};
use ny_warp::Env;
use sqlite_items::Items;
use std::alloc::{AllocError, Global};
use std::collections::VecDeque;

/// Keeps what a name stands for: a number, or one more reader of a sound. Nothing is kept of a name that stands for nothing.
///
/// # Errors
/// `AllocError` where 2^32 - 1 readers read that sound, or 2^32 sounds are kept. All is then as before.
fn keep_name(
    x: NameId,
    frame: &Frame<'_>,
    names: &mut Vec<(NameId, Value<u32>)>,
    sounds: &mut Vec<Sound>,
    heap: &mut Heap<Branch>,
) -> Result<(), AllocError>
    requires names_room { vec_len names.old < vec_capacity names.old }
    requires sounds_room { vec_len sounds.old < vec_capacity sounds.old }
    requires held { AllHeld heap.old (names_in frame.now) }
    ensures keeps { OnOk result (KeepsName (last_of (same_name x) (names_in frame.now)) x heap.old heap.new names.old.items names.new.items sounds.old.items sounds.new.items) }
    ensures names_len { vec_len names.new ≤ vec_len names.old + 1 }
    ensures names_capacity { vec_capacity names.new ≡ vec_capacity names.old }
    ensures sounds_len { vec_len sounds.new ≤ vec_len sounds.old + 1 }
    ensures sounds_capacity { vec_capacity sounds.new ≡ vec_capacity sounds.old }
    ensures heap { OnErr result (heap.new ≡ heap.old) }
    ensures sounds { OnErr result (sounds.new.items ≡ sounds.old.items) }
{
    match frame.find(x) {
        None => Ok(()),
        Some(value) => match value {
            Value::Number(v) => {
                names.push_reserved((x, Value::Number(*v)));
                Ok(())
            }
            Value::Sound(sound) => {
                let Ok(place) = u32::try_from(sounds.len()) else {
                    return Err(AllocError);
                };
                let kept = shared(sound, heap)?;
                names.push_reserved((x, Value::Sound(place)));
                sounds.push_reserved(kept);
                Ok(())
            }
        },
    }
}

/// Keeps what each of these names stands for, in order. There is room for all of them.
///
/// # Errors
/// `AllocError` as of one name. Those before it are then kept.
fn keep_names(
    free: &[NameId],
    frame: &Frame<'_>,
    names: &mut Vec<(NameId, Value<u32>)>,
    sounds: &mut Vec<Sound>,
    heap: &mut Heap<Branch>,
) -> Result<(), AllocError>
    requires no_names { names.old.items ≡ [] }
    requires no_sounds { sounds.old.items ≡ [] }
    requires names_room { vec_len names.old + length free.now ≤ vec_capacity names.old }
    requires sounds_room { vec_len sounds.old + length free.now ≤ vec_capacity sounds.old }
    requires held { AllHeld heap.old (names_in frame.now) }
    ensures keeps { OnOk result (KeepsTurn (names_in frame.now) free.now 0 heap.old heap.new names.new.items sounds.new.items) }
    ensures hand { Hand heap.old heap.new sounds.new.items }
{
    lawful(heap);
    for x in free {
        keep_name(*x, frame, names, sounds, heap)?;
    }
    Ok(())
}

/// A branch that waits, with the sounds that the free names of its expression stand for.
///
/// # Errors
/// `AllocError` where memory is missing. The heap is then as before.
fn branch_of(
    alloc: Global,
    p: &Program,
    e: ExprId,
    env: Env,
    frame: &Frame<'_>,
    heap: &mut Heap<Branch>,
) -> Result<(Branch, Vec<Sound>), AllocError>
    requires inside { e.0 < length p.now.nodes }
    requires names { AllHeld heap.old (names_in frame.now) }
    ensures waits { IfOk result (λ q. WaitsAlone p.now env (e, names_in frame.now) heap.old heap.new (q.0, q.1.items)) }
    ensures refused { OnErr result (Hand heap.old heap.new []) }
{
    lawful(heap);
    let free = p.free(e);
    let mut names = Vec::with_capacity(alloc, free.len())?;
    let mut sounds = Vec::with_capacity(alloc, free.len())?;
    match keep_names(free, frame, &mut names, &mut sounds, heap) {
        Ok(()) => {
            let names = Items::from_vec(names);
            Ok((
                Branch {
                    expr: e,
                    env,
                    names,
                },
                sounds,
            ))
        }
        Err(fault) => {
            give_up_all(VecDeque::from(sounds), heap);
            Err(fault)
        }
    }
}

/// The branch for an expression in which a name stands for `k`, one of `count` numbers.
///
/// # Errors
/// `AllocError` where memory is missing. The heap is then as before.
fn counted_branch(
    alloc: Global,
    p: &Program,
    i: NameId,
    count: u32,
    k: usize,
    part: ExprId,
    env: Env,
    frame: &mut Frame<'_>,
    heap: &mut Heap<Branch>,
) -> Result<(Branch, Vec<Sound>), AllocError>
    requires inside { part.0 < length p.now.nodes }
    requires place { k < count }
    requires names { AllHeld heap.old (names_in frame.old) }
    ensures waits { IfOk result (λ q. WaitsAlone p.now env (part, counted_names (names_in frame.old) i k) heap.old heap.new (q.0, q.1.items)) }
    ensures same { frame.new ≡ frame.old }
    ensures refused { OnErr result (Hand heap.old heap.new []) }
{
    lawful(heap);
    let before = frame.len();
    frame.keep(i, turn_number(k, count), heap)?;
    let branch = branch_of(alloc, p, part, env, frame, heap);
    frame.leave(before, heap);
    branch
}

/// The branch for part `k`, which is evaluated in an environment from a stop on.
///
/// # Errors
/// `AllocError` where memory is missing. The heap is then as before.
fn branch_at(
    alloc: Global,
    p: &Program,
    parts: &Parts<'_>,
    k: usize,
    env: &Env,
    frame: &mut Frame<'_>,
    heap: &mut Heap<Branch>,
) -> Result<(Branch, Vec<Sound>), AllocError>
    requires below { AreBelow (length p.now.nodes) parts.now }
    requires place { k < count_in parts.now }
    requires names { AllHeld heap.old (names_in frame.old) }
    ensures waits { IfOk result (λ q. WaitsAlone p.now env.now (part_at (names_in frame.old) parts.now k) heap.old heap.new (q.0, q.1.items)) }
    ensures same { frame.new ≡ frame.old }
    ensures refused { OnErr result (Hand heap.old heap.new []) }
{
    lawful(heap);
    let late = env.copy(alloc)?;
    match parts {
        Parts::Listed(listed) => { Ok(branch_of(alloc, p, expr_at(listed, k), late, frame, heap)?) }
        Parts::Counted(i, count, counted) => {
            Ok(counted_branch(alloc, p, *i, *count, k, *counted, late, frame, heap)?)
        }
    }
}

/// The branches for the parts from place `from` on. There is room for all of them.
///
/// # Errors
/// `AllocError` where memory is missing. Those before are then there.
fn branches_from(
    alloc: Global,
    p: &Program,
    parts: &Parts<'_>,
    from: usize,
    env: &Env,
    frame: &mut Frame<'_>,
    waiting: &mut Vec<(Branch, Vec<Sound>)>,
    heap: &mut Heap<Branch>,
) -> Result<(), AllocError>
    requires below { AreBelow (length p.now.nodes) parts.now }
    requires from { from ≤ count_in parts.now }
    requires none { waiting.old.items ≡ [] }
    requires room { vec_len waiting.old + (count_in parts.now - from) ≤ vec_capacity waiting.old }
    requires names { AllHeld heap.old (names_in frame.old) }
    ensures waits { OnOk result (WaitAll p.now env.now (parts_between (names_in frame.old) parts.now from (count_in parts.now - from)) heap.old heap.new (kept_in waiting.new.items)) }
    ensures hand { Hand heap.old heap.new (sounds_of (kept_in waiting.new.items)) }
    ensures same { frame.new ≡ frame.old }
{
    lawful(heap);
    for k in from..parts.count() {
        let branch = branch_at(alloc, p, parts, k, env, frame, heap)?;
        waiting.push_reserved(branch);
    }
    Ok(())
}

/// Gives up the sounds that branches keep.
pub(crate) fn give_up_branches(waiting: VecDeque<(Branch, Vec<Sound>)>, heap: &mut Heap<Branch>)
    requires hands { InHand heap.old (sounds_of (kept_in waiting.items)) }
    ensures gives_up { GivesUp heap.old heap.new (sounds_of (kept_in waiting.items)) }
{
    let mut left = waiting;
    while let Some(branch) = left.pop_front() {
        let (_, sounds) = branch;
        give_up_all(VecDeque::from(sounds), heap);
    }
}

/// The branches for the parts from place `from` on, each with the sounds that it keeps.
///
/// # Errors
/// `AllocError` where memory is missing. The heap is then as before.
pub(crate) fn branches(
    alloc: Global,
    p: &Program,
    parts: &Parts<'_>,
    from: usize,
    env: &Env,
    frame: &mut Frame<'_>,
    heap: &mut Heap<Branch>,
) -> Result<Vec<(Branch, Vec<Sound>)>, AllocError>
    requires below { AreBelow (length p.now.nodes) parts.now }
    requires from { from ≤ count_in parts.now }
    requires names { AllHeld heap.old (names_in frame.old) }
    ensures waits { IfOk result (λ qs. WaitAll p.now env.now (parts_between (names_in frame.old) parts.now from (count_in parts.now - from)) heap.old heap.new (kept_in qs.items)) }
    ensures same { frame.new ≡ frame.old }
    ensures refused { OnErr result (Hand heap.old heap.new []) }
{
    lawful(heap);
    let mut waiting = Vec::with_capacity(alloc, parts.count() - from)?;
    match branches_from(alloc, p, parts, from, env, frame, &mut waiting, heap) {
        Ok(()) => Ok(waiting),
        Err(fault) => {
            give_up_branches(VecDeque::from(waiting), heap);
            Err(fault)
        }
    }
}
