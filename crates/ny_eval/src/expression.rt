ghost use Rattle.std.specs.Prelude.{◌≡◌, ℕ, ◌+◌, ◌*◌, ◌<◌, ◌≤◌, max, length, take, if◌then◌else◌, [], ◌∷◌, IfOk, OnErr, OnOk, vec_capacity};
ghost use Rattle.ny_check.specs.Code.{AllBelow, BindsBelow, IsChangeBelow, function_at};
ghost use Rattle.ny_check.specs.Families.{changed_env};
ghost use Rattle.ny_check.specs.Values.{scalars_of, number_of};
ghost use Rattle.ny_check.specs.Heights.{height_of};
ghost use Rattle.ny_check.specs.Meaning.{meaning};
ghost use Rattle.ny_walk.specs.Below.{IsSettled};
ghost use Rattle.ny_eval.specs.Framed.{names_in, HasGrown, AreBound, ArePassed};
ghost use Rattle.ny_eval.specs.Parts.{count_in, parts_in, part_at, AreBelow};
ghost use Rattle.ny_hands.specs.Frames.{AllHeld, bound_in, part_is, sounds_among};
ghost use Rattle.ny_heap.specs.Steps.{last_stop_of};
ghost use Rattle.ny_eval.specs.Turns.{Gains, AreNext, Starts, AreEnough, NextAreDue, AreParts, AreInTurn};
ghost use Rattle.ny_hands.specs.Hands.{Hand, Comes, item};
ghost use Rattle.ny_trace.specs.Heights.{Ranks, AreLow, Stands};
ghost use Rattle.ny_trace.specs.Evaluates.{Evaluates, ValueTurn, OperationTurn, SignTurn, EffectTurn, BlockTurn, CallTurn, CueTurn, PartsTurn, MixTurn, SimTurn, NextTurn, SeqTurn, numbers_in};

use crate::cue::cued;
use crate::filter::make_of;
use crate::frame::Frame;
use crate::laws::program_laws;
use crate::leaf::{lawful, make_leaf, silent};
use crate::mixing::{give_up_all, mixed};
use crate::name::named;
use crate::parts::{Parts, expr_at, turn_number};
use crate::turn::{env_from, following, is_due, stop_of, whole_timing, with_rest};
use crate::unit::{brought, give_up, joined, single};
use crate::values::{no_names, number_in, numbers};
use ny_check::changes::{change_by, change_rate};
use ny_check::{Binds, Change, Effect, ExprId, FunctionId, NameId, Node, Order, Program, Value};
use ny_hands::Branch;
use ny_heap::{Heap, Op, Sound};
use ny_num::{Fix, Ticks, Timing};
use ny_warp::Env;
use std::alloc::{AllocError, Global};
use std::collections::VecDeque;

/// Changes an environment.
///
/// # Errors
/// `AllocError` where memory is missing.
fn apply(
    alloc: Global,
    p: &Program,
    e: ExprId,
    change: &Change,
    frame: &mut Frame<'_>,
    env: &mut Env,
) -> Result<(), AllocError>
    requires inside { e.0 ≤ length p.now.nodes }
    requires below { IsChangeBelow e.0 change.now }
    ensures changed { OnOk result (env.new ≡ changed_env change.now (λ k. number_of p.now k (scalars_of (names_in frame.old))) env.old) }
    ensures same { frame.new ≡ frame.old }
{
    match change {
        Change::By(by, k) => {
            change_by(env, *by, frame.number(alloc, p, *k)?);
            Ok(())
        }
        Change::Warp(map) => Ok(env.warp(alloc, map)?),
        Change::Rate(rated, rate) => {
            change_rate(env, *rated, *rate);
            Ok(())
        }
    }
}

/// One of two expressions.
pub(crate) fn chosen(holds: bool, a: ExprId, b: ExprId) -> ExprId
    ensures { result.0 ≡ (if holds then a.0 else b.0) }
{
    if holds { a } else { b }
}

/// The sound that an expression is, in an environment.
///
/// # Errors
/// `AllocError` where memory is missing. The heap is then as before.
#[cycle(evaluate)]
pub(crate) fn evaluate(
    alloc: Global,
    p: &Program,
    e: ExprId,
    env: Env,
    frame: &mut Frame<'_>,
    heap: &mut Heap<Branch>,
) -> Result<Sound, AllocError>
    requires inside { e.0 < length p.now.nodes }
    requires names { AllHeld heap.old (names_in frame.old) }
    ensures evaluates { IfOk result (λ s. Evaluates p.now (e.0 + 1) e.0 env (names_in frame.old) heap.old heap.new s) }
    ensures same { frame.new ≡ frame.old }
    ensures refused { OnErr result (Hand heap.old heap.new []) }
{
    lawful(heap);
    match p.node(e) {
        Node::Pair(op, a, b) => Ok(pair(alloc, p, *op, *a, *b, env, frame, heap)?),
        Node::Neg(a) => Ok(negated(alloc, p, *a, env, frame, heap)?),
        Node::Local(x) => Ok(named(alloc, *x, env.sound_rate, frame, heap)?),
        Node::Call(f, parts) => { Ok(call(alloc, p, e, *f, parts.as_slice(), env, frame, heap)?) }
        Node::Block(binds, value) => {
            Ok(block(alloc, p, e, binds.as_slice(), *value, env, frame, heap)?)
        }
        Node::Leaf(generator, parts) => {
            Ok(make_leaf(alloc, p, e, *generator, parts.as_slice(), &env, frame, heap)?)
        }
        Node::Effect(effect, part, parts) => {
            Ok(affected(
                alloc,
                p,
                e,
                *effect,
                *part,
                parts.as_slice(),
                env,
                frame,
                heap,
            )?)
        }
        Node::Cue(part) => Ok(cue(alloc, p, *part, env, frame, heap)?),
        Node::Mix(order, parts) => {
            let listed = Parts::Listed(parts.as_slice());
            Ok(in_order(alloc, p, e, *order, listed, env, frame, heap)?)
        }
        Node::Repeat(order, i, count, part) => {
            let counted = Parts::Counted(*i, *count, *part);
            Ok(in_order(alloc, p, e, *order, counted, env, frame, heap)?)
        }
        Node::If(c, a, b) => {
            let part = chosen(frame.test(alloc, p, *c)?, *a, *b);
            Ok(evaluate(alloc, p, part, env, frame, heap)?)
        }
        Node::Change(change, part) => {
            let mut changed = env;
            apply(alloc, p, e, change, frame, &mut changed)?;
            Ok(evaluate(alloc, p, *part, changed, frame, heap)?)
        }
        _ => Ok(silent(alloc, env.sound_rate, heap)?),
    }
}

/// An operand, in an environment: a number, or else the sound that it is.
///
/// # Errors
/// `AllocError` where memory is missing. The heap is then as before.
#[cycle(evaluate)]
fn operand(
    alloc: Global,
    p: &Program,
    e: ExprId,
    env: Env,
    frame: &mut Frame<'_>,
    heap: &mut Heap<Branch>,
) -> Result<Value<Sound>, AllocError>
    requires inside { e.0 < length p.now.nodes }
    requires names { AllHeld heap.old (names_in frame.old) }
    ensures turn { IfOk result (λ v. ValueTurn (Evaluates p.now (e.0 + 1)) p.now env (names_in frame.old) e heap.old heap.new v) }
    ensures same { frame.new ≡ frame.old }
    ensures refused { OnErr result (Hand heap.old heap.new []) }
{
    lawful(heap);
    let scalar = frame.scalar(alloc, p, e)?;
    match number_in(scalar) {
        Some(v) => Ok(Value::Number(v)),
        None => Ok(Value::Sound(evaluate(alloc, p, e, env, frame, heap)?)),
    }
}

/// Two operands by an operation, in an environment: two sounds, or a sound and a number.
///
/// # Errors
/// `AllocError` where memory is missing. The heap is then as before.
#[cycle(evaluate)]
fn pair(
    alloc: Global,
    p: &Program,
    op: Op,
    a: ExprId,
    b: ExprId,
    env: Env,
    frame: &mut Frame<'_>,
    heap: &mut Heap<Branch>,
) -> Result<Sound, AllocError>
    requires first { a.0 < length p.now.nodes }
    requires second { b.0 < length p.now.nodes }
    requires names { AllHeld heap.old (names_in frame.old) }
    ensures turn { IfOk result (λ s. (n : ℕ) → max a.0 b.0 < n → OperationTurn (Evaluates p.now n) p.now op a b env (names_in frame.old) heap.old heap.new s) }
    ensures same { frame.new ≡ frame.old }
    ensures refused { OnErr result (Hand heap.old heap.new []) }
{
    program_laws(p);
    lawful(heap);
    let rate = env.sound_rate;
    let left = operand(alloc, p, a, env.copy(alloc)?, frame, heap)?;
    match operand(alloc, p, b, env, frame, heap) {
        Ok(right) => Ok(joined(alloc, op, left, right, rate, heap)?),
        Err(fault) => {
            give_up(left, heap);
            Err(fault)
        }
    }
}

/// An operand with the other sign, in an environment: 0 minus it.
///
/// # Errors
/// `AllocError` where memory is missing. The heap is then as before.
#[cycle(evaluate)]
fn negated(
    alloc: Global,
    p: &Program,
    a: ExprId,
    env: Env,
    frame: &mut Frame<'_>,
    heap: &mut Heap<Branch>,
) -> Result<Sound, AllocError>
    requires inside { a.0 < length p.now.nodes }
    requires names { AllHeld heap.old (names_in frame.old) }
    ensures turn { IfOk result (λ s. (n : ℕ) → a.0 < n → SignTurn (Evaluates p.now n) p.now a env (names_in frame.old) heap.old heap.new s) }
    ensures same { frame.new ≡ frame.old }
    ensures refused { OnErr result (Hand heap.old heap.new []) }
{
    program_laws(p);
    lawful(heap);
    let rate = env.sound_rate;
    let value = operand(alloc, p, a, env, frame, heap)?;
    Ok(joined(alloc, Op::Sub, Value::Number(Fix::of(0)), value, rate, heap)?)
}

/// An effect on the sound of an expression, in an environment, at that sound's own rate.
///
/// # Errors
/// `AllocError` where memory is missing. The heap is then as before.
#[cycle(evaluate)]
fn affected(
    alloc: Global,
    p: &Program,
    e: ExprId,
    effect: Effect,
    part: ExprId,
    parts: &[ExprId],
    env: Env,
    frame: &mut Frame<'_>,
    heap: &mut Heap<Branch>,
) -> Result<Sound, AllocError>
    requires inside { e.0 < length p.now.nodes }
    requires part { part.0 < length p.now.nodes }
    requires below { AllBelow e.0 parts.now }
    requires names { AllHeld heap.old (names_in frame.old) }
    ensures turn { IfOk result (λ s. (n : ℕ) → part.0 < n → EffectTurn (Evaluates p.now n) effect part (numbers_in p.now (names_in frame.old) parts.now) env (names_in frame.old) heap.old heap.new s) }
    ensures same { frame.new ≡ frame.old }
    ensures refused { OnErr result (Hand heap.old heap.new []) }
{
    program_laws(p);
    lawful(heap);
    let numbers = numbers(alloc, p, e, parts, frame)?;
    let sound = evaluate(alloc, p, part, env, frame, heap)?;
    let make = make_of(effect, numbers.as_slice(), sound.timing.rate);
    Ok(single(alloc, make, sound, heap)?)
}

/// A cue of the sound of an expression, in an environment.
///
/// # Errors
/// `AllocError` where memory is missing. The heap is then as before.
#[cycle(evaluate)]
fn cue(
    alloc: Global,
    p: &Program,
    part: ExprId,
    env: Env,
    frame: &mut Frame<'_>,
    heap: &mut Heap<Branch>,
) -> Result<Sound, AllocError>
    requires inside { part.0 < length p.now.nodes }
    requires names { AllHeld heap.old (names_in frame.old) }
    ensures turn { IfOk result (λ s. (n : ℕ) → part.0 < n → CueTurn (Evaluates p.now n) part env (names_in frame.old) heap.old heap.new s) }
    ensures same { frame.new ≡ frame.old }
    ensures refused { OnErr result (Hand heap.old heap.new []) }
{
    program_laws(p);
    lawful(heap);
    let sound = evaluate(alloc, p, part, env.copy(alloc)?, frame, heap)?;
    Ok(cued(alloc, sound, &env, heap)?)
}

/// Part `k` of a mix, in an environment.
///
/// # Errors
/// `AllocError` where memory is missing. The heap is then as before.
#[cycle(evaluate)]
fn part(
    alloc: Global,
    p: &Program,
    e: ExprId,
    parts: &Parts<'_>,
    k: usize,
    env: Env,
    frame: &mut Frame<'_>,
    heap: &mut Heap<Branch>,
) -> Result<Sound, AllocError>
    requires inside { e.0 < length p.now.nodes }
    requires below { AreBelow e.0 parts.now }
    requires place { k < count_in parts.now }
    requires names { AllHeld heap.old (names_in frame.old) }
    ensures evaluates { IfOk result (λ s. Evaluates p.now e.0 (part_at (names_in frame.old) parts.now k).0.0 env (part_at (names_in frame.old) parts.now k).1 heap.old heap.new s) }
    ensures same { frame.new ≡ frame.old }
    ensures refused { OnErr result (Hand heap.old heap.new []) }
{
    program_laws(p);
    lawful(heap);
    match parts {
        Parts::Listed(listed) => Ok(evaluate(alloc, p, expr_at(listed, k), env, frame, heap)?),
        Parts::Counted(i, count, counted) => {
            let before = frame.len();
            frame.keep(*i, turn_number(k, *count), heap)?;
            let sound = evaluate(alloc, p, *counted, env, frame, heap);
            frame.leave(before, heap);
            sound
        }
    }
}

/// The parts of a mix, the first one first, each in this environment.
///
/// # Errors
/// `AllocError` where memory is missing. Those before are then in hand.
#[cycle(evaluate)]
pub(crate) fn each_part(
    alloc: Global,
    p: &Program,
    e: ExprId,
    parts: &Parts<'_>,
    env: &Env,
    frame: &mut Frame<'_>,
    sounds: &mut Vec<Sound>,
    heap: &mut Heap<Branch>,
) -> Result<(), AllocError>
    requires inside { e.0 < length p.now.nodes }
    requires below { AreBelow e.0 parts.now }
    requires names { AllHeld heap.old (names_in frame.old) }
    requires none { sounds.old.items ≡ [] }
    requires room { count_in parts.now ≤ vec_capacity sounds.old }
    ensures each { OnOk result (PartsTurn (Evaluates p.now e.0) env.now (parts_in (names_in frame.old) parts.now) heap.old heap.new sounds.new.items) }
    ensures hand { Hand heap.old heap.new sounds.new.items }
    ensures same { frame.new ≡ frame.old }
{
    program_laws(p);
    lawful(heap);
    for k in 0..parts.count() {
        let sound = part(alloc, p, e, parts, k, env.copy(alloc)?, frame, heap)?;
        sounds.push_reserved(sound);
    }
    Ok(())
}

/// Parts together, in an environment.
///
/// # Errors
/// `AllocError` where memory is missing. The heap is then as before.
#[cycle(evaluate)]
fn together(
    alloc: Global,
    p: &Program,
    e: ExprId,
    parts: Parts<'_>,
    env: Env,
    frame: &mut Frame<'_>,
    heap: &mut Heap<Branch>,
) -> Result<Sound, AllocError>
    requires inside { e.0 < length p.now.nodes }
    requires below { AreBelow e.0 parts }
    requires names { AllHeld heap.old (names_in frame.old) }
    ensures turn { IfOk result (λ s. SimTurn (Evaluates p.now e.0) (parts_in (names_in frame.old) parts.entry) env heap.old heap.new s) }
    ensures same { frame.new ≡ frame.old }
    ensures refused { OnErr result (Hand heap.old heap.new []) }
{
    lawful(heap);
    let mut sounds = Vec::with_capacity(alloc, parts.count())?;
    match each_part(alloc, p, e, &parts, &env, frame, &mut sounds, heap) {
        Ok(()) => Ok(mixed(alloc, sounds, env.sound_rate, heap)?),
        Err(fault) => {
            give_up_all(VecDeque::from(sounds), heap);
            Err(fault)
        }
    }
}

/// Parts in an order, in an environment.
///
/// # Errors
/// `AllocError` where memory is missing. The heap is then as before.
#[cycle(evaluate)]
fn in_order(
    alloc: Global,
    p: &Program,
    e: ExprId,
    order: Order,
    parts: Parts<'_>,
    env: Env,
    frame: &mut Frame<'_>,
    heap: &mut Heap<Branch>,
) -> Result<Sound, AllocError>
    requires inside { e.0 < length p.now.nodes }
    requires below { AreBelow e.0 parts }
    requires node { AreParts p.now e.0 order parts }
    requires names { AllHeld heap.old (names_in frame.old) }
    ensures turn { IfOk result (λ s. MixTurn (Evaluates p.now e.0) p.now e.0 order (parts_in (names_in frame.old) parts.entry) env (names_in frame.old) heap.old heap.new s) }
    ensures same { frame.new ≡ frame.old }
    ensures refused { OnErr result (Hand heap.old heap.new []) }
{
    match order {
        Order::Together => Ok(together(alloc, p, e, parts, env, frame, heap)?),
        Order::InTurn => Ok(in_turn(alloc, p, e, parts, env, frame, heap)?),
    }
}

/// Binds the names of a block, each of which sees those before it.
///
/// # Errors
/// `AllocError` where memory is missing. Some names are then bound.
#[cycle(evaluate)]
pub(crate) fn bind_all(
    alloc: Global,
    p: &Program,
    e: ExprId,
    binds: &[(NameId, ExprId)],
    env: &Env,
    frame: &mut Frame<'_>,
    heap: &mut Heap<Branch>,
) -> Result<(), AllocError>
    requires inside { e.0 < length p.now.nodes }
    requires below { BindsBelow e.0 binds.now }
    requires names { AllHeld heap.old (names_in frame.old) }
    ensures bound { OnOk result (AreBound p.now e.0 env.now binds.now frame.old frame.new heap.old heap.new) }
    ensures grown { OnErr result (HasGrown frame.old frame.new heap.old heap.new) }
{
    program_laws(p);
    lawful(heap);
    for (name, part) in binds {
        let value = operand(alloc, p, *part, env.copy(alloc)?, frame, heap)?;
        frame.keep(*name, value, heap)?;
    }
    Ok(())
}

/// What a block returns, in an environment. Then the sounds of its names are given up.
///
/// # Errors
/// `AllocError` where memory is missing. The heap is then as before.
#[cycle(evaluate)]
fn block(
    alloc: Global,
    p: &Program,
    e: ExprId,
    binds: &[(NameId, ExprId)],
    value: ExprId,
    env: Env,
    frame: &mut Frame<'_>,
    heap: &mut Heap<Branch>,
) -> Result<Sound, AllocError>
    requires inside { e.0 < length p.now.nodes }
    requires below { BindsBelow e.0 binds.now }
    requires value { value.0 < e.0 }
    requires names { AllHeld heap.old (names_in frame.old) }
    ensures turn { IfOk result (λ s. BlockTurn (Evaluates p.now e.0) p.now binds.now value env (names_in frame.old) heap.old heap.new s) }
    ensures same { frame.new ≡ frame.old }
    ensures refused { OnErr result (Hand heap.old heap.new []) }
{
    program_laws(p);
    lawful(heap);
    let before = frame.len();
    match bind_all(alloc, p, e, binds, &env, frame, heap) {
        Ok(()) => {
            let sound = evaluate(alloc, p, value, env, frame, heap);
            frame.leave(before, heap);
            sound
        }
        Err(fault) => {
            frame.leave(before, heap);
            Err(fault)
        }
    }
}

/// Binds the parameters of a function to arguments in the names of the caller.
///
/// # Errors
/// `AllocError` where memory is missing. Some parameters are then bound.
#[cycle(evaluate)]
pub(crate) fn arguments(
    alloc: Global,
    p: &Program,
    e: ExprId,
    params: &[NameId],
    parts: &[ExprId],
    env: &Env,
    frame: &mut Frame<'_>,
    inner: &mut Frame<'_>,
    heap: &mut Heap<Branch>,
) -> Result<(), AllocError>
    requires inside { e.0 < length p.now.nodes }
    requires below { AllBelow e.0 parts.now }
    requires names { AllHeld heap.old (names_in frame.old) }
    ensures passed { OnOk result (ArePassed p.now e.0 env.now (names_in frame.old) params.now (take (length params.now) parts.now) inner.old inner.new heap.old heap.new) }
    ensures grown { OnErr result (HasGrown inner.old inner.new heap.old heap.new) }
    ensures same { frame.new ≡ frame.old }
{
    program_laws(p);
    lawful(heap);
    let count = params.len().min(parts.len());
    for i in 0..count {
        let value = operand(alloc, p, parts[i], env.copy(alloc)?, frame, heap)?;
        inner.keep(params[i], value, heap)?;
    }
    Ok(())
}

/// The body of a function under its arguments, in the environment of the call. Then the sounds of the arguments are given up.
///
/// # Errors
/// `AllocError` where memory is missing. The heap is then as before.
#[cycle(evaluate)]
fn call(
    alloc: Global,
    p: &Program,
    e: ExprId,
    f: FunctionId,
    parts: &[ExprId],
    env: Env,
    frame: &mut Frame<'_>,
    heap: &mut Heap<Branch>,
) -> Result<Sound, AllocError>
    requires inside { e.0 < length p.now.nodes }
    requires below { AllBelow e.0 parts.now }
    requires function { f.0 < length p.now.functions }
    requires body { (function_at p.now f.0).body.0 < e.0 }
    requires names { AllHeld heap.old (names_in frame.old) }
    ensures turn { IfOk result (λ s. CallTurn (Evaluates p.now e.0) p.now (function_at p.now f.0).params (function_at p.now f.0).body.0 parts.now env (names_in frame.old) heap.old heap.new s) }
    ensures same { frame.new ≡ frame.old }
    ensures refused { OnErr result (Hand heap.old heap.new []) }
{
    program_laws(p);
    lawful(heap);
    let none = no_names(alloc);
    let mut inner = Frame::of(alloc, none.names.as_slice())?;
    match arguments(
        alloc,
        p,
        e,
        p.params(f),
        parts,
        &env,
        frame,
        &mut inner,
        heap,
    ) {
        Ok(()) => {
            let sound = evaluate(alloc, p, p.body(f), env, &mut inner, heap);
            inner.leave(0, heap);
            sound
        }
        Err(fault) => {
            inner.leave(0, heap);
            Err(fault)
        }
    }
}

/// Part `k` of a sequence, which follows one with this stop: in the environment from there on, brought to the sound rate, and placed there.
///
/// # Errors
/// `AllocError` where memory is missing. The heap is then as before.
#[cycle(evaluate)]
fn next_part(
    alloc: Global,
    p: &Program,
    e: ExprId,
    parts: &Parts<'_>,
    k: usize,
    stop: Ticks,
    env: &Env,
    frame: &mut Frame<'_>,
    heap: &mut Heap<Branch>,
) -> Result<Sound, AllocError>
    requires inside { e.0 < length p.now.nodes }
    requires below { AreBelow e.0 parts.now }
    requires place { k < count_in parts.now }
    requires names { AllHeld heap.old (names_in frame.old) }
    ensures turn { IfOk result (λ s. NextTurn (Evaluates p.now e.0) env.now stop (part_at (names_in frame.old) parts.now k) heap.old heap.new s) }
    ensures hand { IfOk result (λ s. Hand heap.old heap.new (s ∷ [])) }
    ensures same { frame.new ≡ frame.old }
    ensures refused { OnErr result (Hand heap.old heap.new []) }
{
    program_laws(p);
    lawful(heap);
    let late = env_from(alloc, env, stop)?;
    let sound = part(alloc, p, e, parts, k, late, frame, heap)?;
    Ok(following(alloc, sound, stop, env.sound_rate, heap)?)
}

/// The parts of a sequence behind those that are there, as long as their places lie in the first block of what is heard at `when`.
/// `stop` is the stop of the last part that is there.
///
/// # Errors
/// `AllocError` where memory is missing. Those before are then in hand.
#[cycle(evaluate)]
fn due_parts(
    alloc: Global,
    p: &Program,
    e: ExprId,
    parts: &Parts<'_>,
    when: &Timing,
    block: u32,
    stop: Ticks,
    env: &Env,
    frame: &mut Frame<'_>,
    sounds: &mut Vec<Sound>,
    heap: &mut Heap<Branch>,
) -> Result<(), AllocError>
    requires inside { e.0 < length p.now.nodes }
    requires below { AreBelow e.0 parts.now }
    requires names { AllHeld heap.old (names_in frame.old) }
    requires few { length sounds.old.items ≤ count_in parts.now }
    requires stop { stop ≡ last_stop_of 0 sounds.old.items }
    requires due { NextAreDue when.now block sounds.old.items }
    requires block { block ≡ heap.old.block }
    ensures next { OnOk result (AreNext p.now e.0 env.now (names_in frame.old) parts.now sounds.old.items heap.old heap.new sounds.new.items) }
    ensures few { OnOk result (length sounds.new.items ≤ count_in parts.now) }
    ensures enough { OnOk result (AreEnough when.now heap.new.block (count_in parts.now) sounds.new.items) }
    ensures due { OnOk result (NextAreDue when.now block sounds.new.items) }
    ensures gains { Gains sounds.old.items heap.old heap.new sounds.new.items }
    ensures same { frame.new ≡ frame.old }
{
    lawful(heap);
    let mut last = stop;
    for k in sounds.len()..parts.count() {
        if !is_due(last, when, block) {
            return Ok(());
        }
        sounds.reserve(1)?;
        let sound = next_part(alloc, p, e, parts, k, last, env, frame, heap)?;
        last = stop_of(&sound);
        sounds.push_reserved(sound);
    }
    Ok(())
}

/// The parts of a sequence that is heard at `when` whose places lie in its first block, the first part in any case.
///
/// # Errors
/// `AllocError` where memory is missing. Those before are then in hand.
#[cycle(evaluate)]
fn first_block(
    alloc: Global,
    p: &Program,
    e: ExprId,
    parts: &Parts<'_>,
    when: &Timing,
    block: u32,
    env: &Env,
    frame: &mut Frame<'_>,
    sounds: &mut Vec<Sound>,
    heap: &mut Heap<Branch>,
) -> Result<(), AllocError>
    requires inside { e.0 < length p.now.nodes }
    requires below { AreBelow e.0 parts.now }
    requires some { 0 < count_in parts.now }
    requires names { AllHeld heap.old (names_in frame.old) }
    requires none { sounds.old.items ≡ [] }
    requires block { block ≡ heap.old.block }
    ensures starts { OnOk result (Starts p.now e.0 env.now (names_in frame.old) parts.now heap.old heap.new sounds.new.items) }
    ensures few { OnOk result (length sounds.new.items ≤ count_in parts.now) }
    ensures enough { OnOk result (AreEnough when.now heap.new.block (count_in parts.now) sounds.new.items) }
    ensures due { OnOk result (NextAreDue when.now block sounds.new.items) }
    ensures hand { Hand heap.old heap.new sounds.new.items }
    ensures same { frame.new ≡ frame.old }
{
    program_laws(p);
    lawful(heap);
    sounds.reserve(1)?;
    let first = part(alloc, p, e, parts, 0, env.copy(alloc)?, frame, heap)?;
    let sound = brought(alloc, first, env.sound_rate, heap)?;
    let stop = stop_of(&sound);
    sounds.push_reserved(sound);
    Ok(due_parts(
        alloc, p, e, parts, when, block, stop, env, frame, sounds, heap,
    )?)
}

/// Parts one after another, in an environment: those whose places lie in the first block are evaluated, and the others wait.
///
/// # Errors
/// `AllocError` where memory is missing. The heap is then as before.
#[cycle(evaluate)]
fn in_turn(
    alloc: Global,
    p: &Program,
    e: ExprId,
    parts: Parts<'_>,
    env: Env,
    frame: &mut Frame<'_>,
    heap: &mut Heap<Branch>,
) -> Result<Sound, AllocError>
    requires inside { e.0 < length p.now.nodes }
    requires below { AreBelow e.0 parts }
    requires node { AreInTurn p.now e.0 parts }
    requires names { AllHeld heap.old (names_in frame.old) }
    ensures turn { IfOk result (λ s. SeqTurn (Evaluates p.now e.0) p.now e.0 (parts_in (names_in frame.old) parts.entry) env (names_in frame.old) heap.old heap.new s) }
    ensures same { frame.new ≡ frame.old }
    ensures refused { OnErr result (Hand heap.old heap.new []) }
{
    program_laws(p);
    lawful(heap);
    let when = whole_timing(alloc, p, e, &env, frame)?;
    let block = heap.block();
    let mut there = Vec::new(alloc);
    match first_block(
        alloc, p, e, &parts, &when, block, &env, frame, &mut there, heap,
    ) {
        Ok(()) => Ok(with_rest(alloc, p, &parts, there, when, &env, frame, heap)?),
        Err(fault) => {
            give_up_all(VecDeque::from(there), heap);
            Err(fault)
        }
    }
}

/// The sound that an expression is, in an environment, as a sound of the heap
/// (`docs/DEFINITIONS.md`, "The trace of an evaluation"). A number, a test and a vector are silent.
///
/// # Errors
/// `AllocError` where memory is missing. The heap is then as before.
pub fn eval(
    alloc: Global,
    p: &Program,
    e: ExprId,
    env: Env,
    binds: &Binds<Sound>,
    heap: &mut Heap<Branch>,
) -> Result<Sound, AllocError>
    requires inside { e.0 < length p.now.nodes }
    requires names { AllHeld heap.old binds.now.names }
    ensures evaluates { IfOk result (λ s. Evaluates p.now (e.0 + 1) e.0 env binds.now.names heap.old heap.new s) }
    ensures means { IfOk result (λ s. Comes (part_is p.now) heap.old heap.new (item s (λ w. meaning p.now e.0 env (bound_in w binds.now.names)) ∷ [])) }
    ensures rises { IfOk result (λ s. (rank : ℕ → ℕ) (base : ℕ) → Ranks (height_of p.now) heap.old rank → AreLow rank base (sounds_among binds.now.names) → Stands (height_of p.now) heap.old heap.new rank (base + height_of p.now e.0) (s ∷ [])) }
    ensures settles { IfOk result (λ s. IsSettled heap.old → IsSettled heap.new) }
    ensures refused { OnErr result (Hand heap.old heap.new []) }
{
    program_laws(p);
    p.height_law();
    lawful(heap);
    let mut frame = Frame::of(alloc, binds.names.as_slice())?;
    Ok(evaluate(alloc, p, e, env, &mut frame, heap)?)
}
