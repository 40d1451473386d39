//! What is played: the sounds of all channels.

ghost use Rattle.std.specs.Prelude.{◌≡◌, ◌+◌, ◌<◌, [], ◌∷◌, length, IfOk, OnErr};
ghost use Rattle.ny_check.specs.Code.{AllBelow, BindsBelow, function_at};
ghost use Rattle.ny_eval.specs.Framed.{names_in};
ghost use Rattle.ny_hands.specs.Frames.{AllHeld};
ghost use Rattle.ny_hands.specs.Hands.{Hand};
ghost use Rattle.ny_trace.specs.Evaluates.{Evaluates, PartsTurn, parts_of};
ghost use Rattle.ny_trace.specs.Plays.{EvaluatesAny, Plays, PlaysCall, PlaysBlock};

use crate::expression::{arguments, bind_all, chosen, each_part, evaluate};
use crate::frame::Frame;
use crate::laws::program_laws;
use crate::leaf::lawful;
use crate::mixing::give_up_all;
use crate::parts::Parts;
use crate::values::no_names;
use ny_check::{ExprId, FunctionId, NameId, Node, Program};
use ny_hands::Branch;
use ny_heap::{Heap, Sound};
use ny_warp::Env;
use std::alloc::{AllocError, Global};
use std::collections::VecDeque;

/// The sounds that an expression plays, in an environment: of `vector` its operands, and of a call, a block or an `#if`
/// what is played below it. Each other expression plays its one sound.
///
/// # Errors
/// `AllocError` where memory is missing. The heap is then as before.
#[cycle(played)]
pub(crate) fn played(
    alloc: Global,
    p: &Program,
    e: ExprId,
    env: Env,
    frame: &mut Frame<'_>,
    heap: &mut Heap<Branch>,
) -> Result<Vec<Sound>, AllocError>
    requires inside { e.0 < length p.now.nodes }
    requires names { AllHeld heap.old (names_in frame.old) }
    ensures plays { IfOk result (λ sounds. Plays p.now (e.0 + 1) e.0 env (names_in frame.old) heap.old heap.new sounds.items) }
    ensures same { frame.new ≡ frame.old }
    ensures refused { OnErr result (Hand heap.old heap.new []) }
{
    lawful(heap);
    match p.node(e) {
        Node::Vector(parts) => Ok(operands(alloc, p, e, parts.as_slice(), env, frame, heap)?),
        Node::Call(f, parts) => {
            Ok(played_call(alloc, p, e, *f, parts.as_slice(), env, frame, heap)?)
        }
        Node::Block(binds, value) => {
            Ok(played_block(alloc, p, e, binds.as_slice(), *value, env, frame, heap)?)
        }
        Node::If(c, a, b) => {
            let part = chosen(frame.test(alloc, p, *c)?, *a, *b);
            Ok(played(alloc, p, part, env, frame, heap)?)
        }
        _ => Ok(alone(alloc, p, e, env, frame, heap)?),
    }
}

/// The one sound of an expression, in an environment.
///
/// # Errors
/// `AllocError` where memory is missing. The heap is then as before.
fn alone(
    alloc: Global,
    p: &Program,
    e: ExprId,
    env: Env,
    frame: &mut Frame<'_>,
    heap: &mut Heap<Branch>,
) -> Result<Vec<Sound>, AllocError>
    requires inside { e.0 < length p.now.nodes }
    requires names { AllHeld heap.old (names_in frame.old) }
    ensures one { IfOk result (λ sounds. (s : Sound) × Evaluates p.now (e.0 + 1) e.0 env (names_in frame.old) heap.old heap.new s × (sounds.items ≡ s ∷ [])) }
    ensures same { frame.new ≡ frame.old }
    ensures refused { OnErr result (Hand heap.old heap.new []) }
{
    lawful(heap);
    let mut sounds = Vec::with_capacity(alloc, 1)?;
    let sound = evaluate(alloc, p, e, env, frame, heap)?;
    sounds.push_reserved(sound);
    Ok(sounds)
}

/// The operands of `vector`, the first one first, each in this environment.
///
/// # Errors
/// `AllocError` where memory is missing. The heap is then as before.
fn operands(
    alloc: Global,
    p: &Program,
    e: ExprId,
    parts: &[ExprId],
    env: Env,
    frame: &mut Frame<'_>,
    heap: &mut Heap<Branch>,
) -> Result<Vec<Sound>, AllocError>
    requires inside { e.0 < length p.now.nodes }
    requires below { AllBelow e.0 parts.now }
    requires names { AllHeld heap.old (names_in frame.old) }
    ensures turn { IfOk result (λ sounds. PartsTurn (Evaluates p.now e.0) env (parts_of (names_in frame.old) parts.now) heap.old heap.new sounds.items) }
    ensures same { frame.new ≡ frame.old }
    ensures refused { OnErr result (Hand heap.old heap.new []) }
{
    lawful(heap);
    let listed = Parts::Listed(parts);
    let mut sounds = Vec::with_capacity(alloc, listed.count())?;
    match each_part(alloc, p, e, &listed, &env, frame, &mut sounds, heap) {
        Ok(()) => Ok(sounds),
        Err(fault) => {
            give_up_all(VecDeque::from(sounds), heap);
            Err(fault)
        }
    }
}

/// What a block plays, in an environment. Then the sounds of its names are given up.
///
/// # Errors
/// `AllocError` where memory is missing. The heap is then as before.
#[cycle(played)]
fn played_block(
    alloc: Global,
    p: &Program,
    e: ExprId,
    binds: &[(NameId, ExprId)],
    value: ExprId,
    env: Env,
    frame: &mut Frame<'_>,
    heap: &mut Heap<Branch>,
) -> Result<Vec<Sound>, AllocError>
    requires inside { e.0 < length p.now.nodes }
    requires below { BindsBelow e.0 binds.now }
    requires value { value.0 < e.0 }
    requires names { AllHeld heap.old (names_in frame.old) }
    ensures turn { IfOk result (λ sounds. PlaysBlock (EvaluatesAny p.now) (Plays p.now e.0) p.now binds.now value env (names_in frame.old) heap.old heap.new sounds.items) }
    ensures same { frame.new ≡ frame.old }
    ensures refused { OnErr result (Hand heap.old heap.new []) }
{
    program_laws(p);
    lawful(heap);
    let before = frame.len();
    match bind_all(alloc, p, e, binds, &env, frame, heap) {
        Ok(()) => {
            let sounds = played(alloc, p, value, env, frame, heap);
            frame.leave(before, heap);
            sounds
        }
        Err(fault) => {
            frame.leave(before, heap);
            Err(fault)
        }
    }
}

/// What the body of a function plays under its arguments, in the environment of the call. Then the sounds of the arguments are
/// given up.
///
/// # Errors
/// `AllocError` where memory is missing. The heap is then as before.
#[cycle(played)]
fn played_call(
    alloc: Global,
    p: &Program,
    e: ExprId,
    f: FunctionId,
    parts: &[ExprId],
    env: Env,
    frame: &mut Frame<'_>,
    heap: &mut Heap<Branch>,
) -> Result<Vec<Sound>, AllocError>
    requires inside { e.0 < length p.now.nodes }
    requires below { AllBelow e.0 parts.now }
    requires function { f.0 < length p.now.functions }
    requires body { (function_at p.now f.0).body.0 < e.0 }
    requires names { AllHeld heap.old (names_in frame.old) }
    ensures turn { IfOk result (λ sounds. PlaysCall (EvaluatesAny p.now) (Plays p.now e.0) p.now (function_at p.now f.0).params (function_at p.now f.0).body.0 parts.now env (names_in frame.old) heap.old heap.new sounds.items) }
    ensures same { frame.new ≡ frame.old }
    ensures refused { OnErr result (Hand heap.old heap.new []) }
{
    program_laws(p);
    lawful(heap);
    let none = no_names(alloc);
    let mut inner = Frame::of(alloc, none.names.as_slice())?;
    match arguments(
        alloc,
        p,
        e,
        p.params(f),
        parts,
        &env,
        frame,
        &mut inner,
        heap,
    ) {
        Ok(()) => {
            let sounds = played(alloc, p, p.body(f), env, &mut inner, heap);
            inner.leave(0, heap);
            sounds
        }
        Err(fault) => {
            inner.leave(0, heap);
            Err(fault)
        }
    }
}
