//! The walk over an expression: what each node is, and when it is heard, answered at once, so that no
//! node is asked twice.

ghost use Rattle.std.specs.Prelude.{◌≡◌, ◌<◌, ◌≤◌, ◌*◌, [], length, take, IfOk, OnOk, map, zip, pos};
ghost use Rattle.std.specs.List.{All};
ghost use Rattle.ny_num.specs.Sound.{IsTiming, placed_timing};
ghost use Rattle.ny_num.specs.Grid.{index_at};
ghost use Rattle.ny_num.specs.Resampling.{resampled_timing};
ghost use Rattle.ny_warp.specs.Environment.{from_stop};
ghost use Rattle.ny_check.specs.Code.{node_at, function_at, AllBelow, BindsBelow, IsChangeBelow};
ghost use Rattle.ny_check.specs.Families.{fix_operation, pair_timing, changed_env};
ghost use Rattle.ny_check.specs.Values.{scalars_of, scalar_of, scalars_after, argument, number_of, of_numbers};
ghost use Rattle.ny_check.specs.declared.value.Value.TheVariants as value;
ghost use Rattle.ny_timing.specs.Timings.{IsTimingAt, IsTimedValue, timing_at, timed_value_of, timed_after, no_time, time_of_part, time_of_repeat, times_of_repeats, times_together, times_in_turn, times_in, combined_times, sounding_time, number};
ghost use Rattle.ny_timing.specs.Found.{scalar_of_found, time_of_found};

use crate::found::{Found, found_of, named, negative, no_time, operated, scalar_of, time_of};
use crate::leaves::{cue_timing, leaf_time};
use crate::names::Names;
use crate::rules::{mix_timing, placed_timing, resampled_timing};
use ny_check::changes::{change_by, change_rate};
use ny_check::operations::{and, compare, holds, not, number_in, or, quotient};
use ny_check::{Change, ExprId, FunctionId, NameId, Node, Op, Order, Program, Scalar, Value};
use ny_num::{Fix, Rate, Ticks, Timing, index};
use ny_warp::Env;
use std::alloc::{AllocError, Global};

/// What an expression is, and when it is heard, in an environment and under what its names stand for.
#[cycle(timing)]
#[tactic(auto, using(crate::proofs::TimingEquation::by_node, ny_check::proofs::ScalarEquation::by_node), unfolding(ny_check::specs::Values::test_of))]
pub(crate) fn find(
    alloc: Global,
    p: &Program,
    e: ExprId,
    env: &Env,
    names: &mut Names,
) -> Result<Found, AllocError>
    requires inside { e.0 < length p.now.nodes }
    ensures scalar { IfOk result (λ f. scalar_of_found f ≡ scalar_of p.now e.0 (scalars_of names.old)) }
    ensures timing { IfOk result (λ f. time_of_found env.now.sound_rate f ≡ timing_at p.now e.0 env.now names.old) }
    ensures bounds { IfOk result (λ f. IsTiming (time_of_found env.now.sound_rate f)) }
    ensures names { OnOk result (names.new ≡ names.old) }
{
    match p.node(e) {
        Node::Number(v) => Ok(found_of(Scalar::Number(*v), env.sound_rate)),
        Node::Local(x) => Ok(names.find(*x, env.sound_rate)),
        Node::Global(value) => Ok(global(alloc, p, *value, env.sound_rate)?),
        Node::Call(f, values) => Ok(call(alloc, p, e, *f, values.as_slice(), env, names)?),
        Node::Block(binds, value) => Ok(block(alloc, p, e, binds.as_slice(), *value, env, names)?),
        Node::If(c, a, b) => {
            let condition = find(alloc, p, *c, env, names)?;
            let chosen = if holds(scalar_of(&condition)) { *a } else { *b };
            Ok(find(alloc, p, chosen, env, names)?)
        }
        Node::Pair(op, a, b) => Ok(pair(alloc, p, *op, *a, *b, env, names)?),
        Node::Compare(relation, a, b) => {
            let a = find(alloc, p, *a, env, names)?;
            let b = find(alloc, p, *b, env, names)?;
            Ok(found_of(
                compare(*relation, scalar_of(&a), scalar_of(&b)),
                env.sound_rate,
            ))
        }
        Node::And(a, b) => {
            let a = find(alloc, p, *a, env, names)?;
            let b = find(alloc, p, *b, env, names)?;
            Ok(found_of(and(scalar_of(&a), scalar_of(&b)), env.sound_rate))
        }
        Node::Or(a, b) => {
            let a = find(alloc, p, *a, env, names)?;
            let b = find(alloc, p, *b, env, names)?;
            Ok(found_of(or(scalar_of(&a), scalar_of(&b)), env.sound_rate))
        }
        Node::Div(a, by) => {
            let a = find(alloc, p, *a, env, names)?;
            Ok(found_of(quotient(scalar_of(&a), *by), env.sound_rate))
        }
        Node::Neg(a) => {
            let a = find(alloc, p, *a, env, names)?;
            Ok(negative(env.sound_rate, &a))
        }
        Node::Not(a) => {
            let a = find(alloc, p, *a, env, names)?;
            Ok(found_of(not(scalar_of(&a)), env.sound_rate))
        }
        _ => Ok(Found::Sound(sounding(alloc, p, e, env, names)?)),
    }
}

/// The value of a global variable, which sees no local name.
fn global(alloc: Global, p: &Program, value: ExprId, rate: Rate) -> Result<Found, AllocError>
    requires { value.0 < length p.now.nodes }
    ensures scalar { IfOk result (λ f. scalar_of_found f ≡ scalar_of p.now value.0 []) }
    ensures timing { IfOk result (λ f. time_of_found rate f ≡ no_time rate) }
    ensures bounds { IfOk result (λ f. IsTiming (time_of_found rate f)) }
{
    let scalar = p.global(alloc, value)?;
    Ok(found_of(scalar, rate))
}

/// What an operation makes of its two operands.
#[cycle(timing)]
fn pair(
    alloc: Global,
    p: &Program,
    op: Op,
    a: ExprId,
    b: ExprId,
    env: &Env,
    names: &mut Names,
) -> Result<Found, AllocError>
    requires a { a.0 < length p.now.nodes }
    requires b { b.0 < length p.now.nodes }
    ensures scalar { IfOk result (λ f. scalar_of_found f ≡ of_numbers (fix_operation op) (scalar_of p.now a.0 (scalars_of names.old)) (scalar_of p.now b.0 (scalars_of names.old))) }
    ensures timing { IfOk result (λ f. time_of_found env.now.sound_rate f ≡ combined_times (pair_timing op) env.now.sound_rate (timed_value_of p.now (timing_at p.now) env.now names.old a) (timed_value_of p.now (timing_at p.now) env.now names.old b)) }
    ensures bounds { IfOk result (λ f. IsTiming (time_of_found env.now.sound_rate f)) }
    ensures names { OnOk result (names.new ≡ names.old) }
{
    let first = find(alloc, p, a, env, names)?;
    let second = find(alloc, p, b, env, names)?;
    Ok(operated(op, env.sound_rate, &first, &second))
}

/// The parameters of a function, each bound to its argument.
#[cycle(timing)]
pub(crate) fn arguments(
    alloc: Global,
    p: &Program,
    e: ExprId,
    f: FunctionId,
    values: &[ExprId],
    env: &Env,
    names: &mut Names,
) -> Result<Names, AllocError>
    requires inside { e.0 ≤ length p.now.nodes }
    requires below { AllBelow e.0 values.now }
    requires function { f.0 < length p.now.functions }
    ensures value { IfOk result (λ inner. inner ≡ zip (function_at p.now f.0).params (map (timed_value_of p.now (timing_at p.now) env.now names.old) values.now)) }
    ensures names { OnOk result (names.new ≡ names.old) }
{
    let params = p.params(f);
    let mut inner = Names::new(alloc);
    let count = params.len().min(values.len());
    for i in 0..count {
        let found = find(alloc, p, values[i], env, names)?;
        inner.bind(params[i], named(&found, env.sound_rate))?;
    }
    Ok(inner)
}

/// The body of a function, in the environment of its call.
#[cycle(timing)]
#[tactic(auto, using(crate::proofs::NameScalars::by_parts))]
fn call(
    alloc: Global,
    p: &Program,
    e: ExprId,
    f: FunctionId,
    values: &[ExprId],
    env: &Env,
    names: &mut Names,
) -> Result<Found, AllocError>
    requires inside { e.0 < length p.now.nodes }
    requires below { AllBelow e.0 values.now }
    requires function { f.0 < length p.now.functions }
    requires body { (function_at p.now f.0).body.0 < e.0 }
    ensures scalar { IfOk result (λ r. scalar_of_found r ≡ scalar_of p.now (function_at p.now f.0).body.0 (zip (function_at p.now f.0).params (map (argument (scalar_of p.now) (scalars_of names.old)) values.now))) }
    ensures timing { IfOk result (λ r. time_of_found env.now.sound_rate r ≡ timing_at p.now (function_at p.now f.0).body.0 env.now (zip (function_at p.now f.0).params (map (timed_value_of p.now (timing_at p.now) env.now names.old) values.now))) }
    ensures bounds { IfOk result (λ r. IsTiming (time_of_found env.now.sound_rate r)) }
    ensures names { OnOk result (names.new ≡ names.old) }
{
    let mut inner = arguments(alloc, p, e, f, values, env, names)?;
    Ok(find(alloc, p, p.body(f), env, &mut inner)?)
}

/// Binds the names of a block, each of which sees those before it.
#[cycle(timing)]
pub(crate) fn bind_all(
    alloc: Global,
    p: &Program,
    e: ExprId,
    binds: &[(NameId, ExprId)],
    env: &Env,
    names: &mut Names,
) -> Result<(), AllocError>
    requires inside { e.0 ≤ length p.now.nodes }
    requires below { BindsBelow e.0 binds.now }
    ensures value { OnOk result (names.new ≡ timed_after p.now (timing_at p.now) env.now binds.now names.old) }
    ensures kept { OnOk result (take (length names.old) names.new ≡ names.old) }
{
    for (name, value) in binds {
        let found = find(alloc, p, *value, env, names)?;
        names.bind(*name, named(&found, env.sound_rate))?;
    }
    Ok(())
}

/// What a block returns.
#[cycle(timing)]
#[tactic(auto, using(crate::proofs::NameScalars::by_parts))]
fn block(
    alloc: Global,
    p: &Program,
    e: ExprId,
    binds: &[(NameId, ExprId)],
    value: ExprId,
    env: &Env,
    names: &mut Names,
) -> Result<Found, AllocError>
    requires inside { e.0 < length p.now.nodes }
    requires below { BindsBelow e.0 binds.now }
    requires value { value.0 < e.0 }
    ensures scalar { IfOk result (λ r. scalar_of_found r ≡ scalar_of p.now value.0 (scalars_after (scalar_of p.now) binds.now (scalars_of names.old))) }
    ensures timing { IfOk result (λ r. time_of_found env.now.sound_rate r ≡ timing_at p.now value.0 env.now (timed_after p.now (timing_at p.now) env.now binds.now names.old)) }
    ensures bounds { IfOk result (λ r. IsTiming (time_of_found env.now.sound_rate r)) }
    ensures names { OnOk result (names.new ≡ names.old) }
{
    let before = names.len();
    bind_all(alloc, p, e, binds, env, names)?;
    let found = find(alloc, p, value, env, names)?;
    names.leave(before);
    Ok(found)
}

/// When the sound of an expression is heard.
#[cycle(timing)]
pub(crate) fn heard(
    alloc: Global,
    p: &Program,
    e: ExprId,
    env: &Env,
    names: &mut Names,
) -> Result<Timing, AllocError>
    requires inside { e.0 < length p.now.nodes }
    ensures value { IfOk result (λ t. t ≡ timing_at p.now e.0 env.now names.old) }
    ensures bounds { IfOk result (λ t. IsTiming t) }
    ensures names { OnOk result (names.new ≡ names.old) }
{
    let found = find(alloc, p, e, env, names)?;
    Ok(time_of(&found, env.sound_rate))
}

/// The number that an expression is.
#[cycle(timing)]
#[tactic(auto, unfolding(ny_check::specs::Values::number_of))]
fn number(
    alloc: Global,
    p: &Program,
    e: ExprId,
    env: &Env,
    names: &mut Names,
) -> Result<Fix, AllocError>
    requires inside { e.0 < length p.now.nodes }
    ensures value { IfOk result (λ v. v ≡ number_of p.now e (scalars_of names.old)) }
    ensures names { OnOk result (names.new ≡ names.old) }
{
    let found = find(alloc, p, e, env, names)?;
    Ok(number_in(scalar_of(&found)))
}

/// The numbers that expressions are.
#[cycle(timing)]
fn numbers(
    alloc: Global,
    p: &Program,
    e: ExprId,
    parts: &[ExprId],
    env: &Env,
    names: &mut Names,
) -> Result<Vec<Fix>, AllocError>
    requires inside { e.0 ≤ length p.now.nodes }
    requires below { AllBelow e.0 parts.now }
    ensures value { IfOk result (λ vs. vs.items ≡ map (number p.now names.old) parts.now) }
    ensures names { OnOk result (names.new ≡ names.old) }
{
    let mut values = Vec::new(alloc);
    for part in parts {
        values.push(number(alloc, p, *part, env, names)?)?;
    }
    Ok(values)
}

/// A leaf, an effect, a cue, a mix or a change; no sound where the node is none.
#[cycle(timing)]
fn sounding(
    alloc: Global,
    p: &Program,
    e: ExprId,
    env: &Env,
    names: &mut Names,
) -> Result<Timing, AllocError>
    requires inside { e.0 < length p.now.nodes }
    ensures value { IfOk result (λ t. t ≡ sounding_time p.now (node_at p.now e.0) (timing_at p.now) env.now names.old) }
    ensures bounds { IfOk result (λ t. IsTiming t) }
    ensures names { OnOk result (names.new ≡ names.old) }
{
    match p.node(e) {
        Node::Leaf(generator, parts) => {
            let values = numbers(alloc, p, e, parts.as_slice(), env, names)?;
            Ok(leaf_time(*generator, env, values.as_slice()))
        }
        Node::Effect(_, part, _) => Ok(heard(alloc, p, *part, env, names)?),
        Node::Cue(part) => {
            let t = heard(alloc, p, *part, env, names)?;
            Ok(cue_timing(env, &t))
        }
        Node::Mix(order, parts) => {
            let times = parts_in(alloc, p, e, *order, parts.as_slice(), env, names)?;
            Ok(mix_timing(env.sound_rate, times.as_slice()))
        }
        Node::Repeat(order, i, count, part) => {
            let times = repeats_in(alloc, p, *order, *i, *count, *part, env, names)?;
            Ok(mix_timing(env.sound_rate, times.as_slice()))
        }
        Node::Change(change, part) => {
            let inner = changed(alloc, p, e, change, env, names)?;
            Ok(heard(alloc, p, *part, &inner, names)?)
        }
        _ => Ok(no_time(env.sound_rate)),
    }
}

/// The environment of what is changed.
#[cycle(timing)]
fn changed(
    alloc: Global,
    p: &Program,
    e: ExprId,
    change: &Change,
    env: &Env,
    names: &mut Names,
) -> Result<Env, AllocError>
    requires inside { e.0 ≤ length p.now.nodes }
    requires below { IsChangeBelow e.0 change.now }
    ensures value { IfOk result (λ inner. inner ≡ changed_env change.now (number p.now names.old) env.now) }
    ensures names { OnOk result (names.new ≡ names.old) }
{
    let mut inner = env.copy(alloc)?;
    match change {
        Change::By(by, k) => {
            let k = number(alloc, p, *k, env, names)?;
            change_by(&mut inner, *by, k);
            Ok(inner)
        }
        Change::Warp(map) => {
            inner.warp(alloc, map)?;
            Ok(inner)
        }
        Change::Rate(rated, rate) => {
            change_rate(&mut inner, *rated, *rate);
            Ok(inner)
        }
    }
}

/// Parts together, or one after another.
#[cycle(timing)]
fn parts_in(
    alloc: Global,
    p: &Program,
    e: ExprId,
    order: Order,
    parts: &[ExprId],
    env: &Env,
    names: &mut Names,
) -> Result<Vec<Timing>, AllocError>
    requires inside { e.0 ≤ length p.now.nodes }
    requires below { AllBelow e.0 parts.now }
    ensures value { IfOk result (λ ts. ts.items ≡ times_in order env.now (map (time_of_part (timing_at p.now) names.old) parts.now)) }
    ensures bounds { IfOk result (λ ts. All (IsTimingAt env.now.sound_rate) ts.items) }
    ensures names { OnOk result (names.new ≡ names.old) }
{
    match order {
        Order::Together => Ok(together(alloc, p, e, parts, env, names)?),
        Order::InTurn => Ok(in_turn(alloc, p, e, parts, env, names)?),
    }
}

/// Parts in one environment.
#[cycle(timing)]
fn together(
    alloc: Global,
    p: &Program,
    e: ExprId,
    parts: &[ExprId],
    env: &Env,
    names: &mut Names,
) -> Result<Vec<Timing>, AllocError>
    requires inside { e.0 ≤ length p.now.nodes }
    requires below { AllBelow e.0 parts.now }
    ensures value { IfOk result (λ ts. ts.items ≡ times_together env.now (map (time_of_part (timing_at p.now) names.old) parts.now)) }
    ensures bounds { IfOk result (λ ts. All (IsTimingAt env.now.sound_rate) ts.items) }
    ensures names { OnOk result (names.new ≡ names.old) }
{
    let mut times = Vec::new(alloc);
    for part in parts {
        let t = heard(alloc, p, *part, env, names)?;
        times.push(resampled_timing(env.sound_rate, &t))?;
    }
    Ok(times)
}

/// The environment from a stop on.
fn env_from(alloc: Global, env: &Env, stop: Ticks) -> Result<Env, AllocError>
    ensures { IfOk result (λ from. from ≡ from_stop env.now stop) }
{
    let mut from = env.copy(alloc)?;
    from.at_stop(stop);
    Ok(from)
}

/// A part that follows one with this stop, brought to the rate and placed.
fn placed_after(stop: Ticks, rate: Rate, t: &Timing) -> Timing
    requires { IsTiming t.now }
    ensures value { result ≡ placed_timing (index_at stop rate) (resampled_timing rate t.now) }
    ensures rate { result.rate ≡ rate }
    ensures bounds { IsTiming result }
{
    placed_timing(index(stop, rate), &resampled_timing(rate, t))
}

/// Parts one after another.
#[cycle(timing)]
fn in_turn(
    alloc: Global,
    p: &Program,
    e: ExprId,
    parts: &[ExprId],
    env: &Env,
    names: &mut Names,
) -> Result<Vec<Timing>, AllocError>
    requires inside { e.0 ≤ length p.now.nodes }
    requires below { AllBelow e.0 parts.now }
    ensures value { IfOk result (λ ts. ts.items ≡ times_in_turn env.now (map (time_of_part (timing_at p.now) names.old) parts.now)) }
    ensures bounds { IfOk result (λ ts. All (IsTimingAt env.now.sound_rate) ts.items) }
    ensures names { OnOk result (names.new ≡ names.old) }
{
    let mut times = Vec::new(alloc);
    if parts.is_empty() {
        return Ok(times);
    }
    let t = heard(alloc, p, parts[0], env, names)?;
    let first = resampled_timing(env.sound_rate, &t);
    let mut stop = first.stop;
    times.push(first)?;
    for k in 1..parts.len() {
        let from = env_from(alloc, env, stop)?;
        let t = heard(alloc, p, parts[k], &from, names)?;
        let next = placed_after(stop, env.sound_rate, &t);
        stop = next.stop;
        times.push(next)?;
    }
    Ok(times)
}

/// The number of a turn.
#[tactic(auto, unfolding(ny_num::specs::Numbers::sat))]
fn turn_number(k: u32) -> Value<Timing>
    ensures value { result ≡ value.Number (pos (k * 1000000)) }
    ensures bounds { IsTimedValue result }
{
    Value::Number(Fix::of(i64::from(k) * 1_000_000))
}

/// One turn of a repeat, in which the name stands for the turn's number.
#[cycle(timing)]
fn turn(
    alloc: Global,
    p: &Program,
    i: NameId,
    k: u32,
    part: ExprId,
    env: &Env,
    names: &mut Names,
) -> Result<Timing, AllocError>
    requires inside { part.0 < length p.now.nodes }
    ensures value { IfOk result (λ t. t ≡ time_of_repeat (timing_at p.now) names.old i part k env.now) }
    ensures bounds { IfOk result (λ t. IsTiming t) }
    ensures names { OnOk result (names.new ≡ names.old) }
{
    let before = names.len();
    names.bind(i, turn_number(k))?;
    let t = heard(alloc, p, part, env, names)?;
    names.leave(before);
    Ok(t)
}

/// The turns of a repeat in one environment.
#[cycle(timing)]
fn repeats_together(
    alloc: Global,
    p: &Program,
    i: NameId,
    count: u32,
    part: ExprId,
    env: &Env,
    names: &mut Names,
) -> Result<Vec<Timing>, AllocError>
    requires inside { part.0 < length p.now.nodes }
    ensures value { IfOk result (λ ts. ts.items ≡ times_together env.now (times_of_repeats (timing_at p.now) names.old i count part)) }
    ensures bounds { IfOk result (λ ts. All (IsTimingAt env.now.sound_rate) ts.items) }
    ensures names { OnOk result (names.new ≡ names.old) }
{
    let mut times = Vec::new(alloc);
    for k in 0..count {
        let t = turn(alloc, p, i, k, part, env, names)?;
        times.push(resampled_timing(env.sound_rate, &t))?;
    }
    Ok(times)
}

/// The turns of a repeat one after another.
#[cycle(timing)]
#[tactic(auto, using(crate::proofs::Turns::next_turn))]
fn repeats_in_turn(
    alloc: Global,
    p: &Program,
    i: NameId,
    count: u32,
    part: ExprId,
    env: &Env,
    names: &mut Names,
) -> Result<Vec<Timing>, AllocError>
    requires inside { part.0 < length p.now.nodes }
    ensures value { IfOk result (λ ts. ts.items ≡ times_in_turn env.now (times_of_repeats (timing_at p.now) names.old i count part)) }
    ensures bounds { IfOk result (λ ts. All (IsTimingAt env.now.sound_rate) ts.items) }
    ensures names { OnOk result (names.new ≡ names.old) }
{
    let mut times = Vec::new(alloc);
    if count == 0 {
        return Ok(times);
    }
    let t = turn(alloc, p, i, 0, part, env, names)?;
    let first = resampled_timing(env.sound_rate, &t);
    let mut stop = first.stop;
    times.push(first)?;
    for k in 1..count {
        let from = env_from(alloc, env, stop)?;
        let t = turn(alloc, p, i, k, part, &from, names)?;
        let placed = placed_after(stop, env.sound_rate, &t);
        stop = placed.stop;
        times.push(placed)?;
    }
    Ok(times)
}

/// The turns of a repeat together, or one after another.
#[cycle(timing)]
fn repeats_in(
    alloc: Global,
    p: &Program,
    order: Order,
    i: NameId,
    count: u32,
    part: ExprId,
    env: &Env,
    names: &mut Names,
) -> Result<Vec<Timing>, AllocError>
    requires inside { part.0 < length p.now.nodes }
    ensures value { IfOk result (λ ts. ts.items ≡ times_in order env.now (times_of_repeats (timing_at p.now) names.old i count part)) }
    ensures bounds { IfOk result (λ ts. All (IsTimingAt env.now.sound_rate) ts.items) }
    ensures names { OnOk result (names.new ≡ names.old) }
{
    match order {
        Order::Together => Ok(repeats_together(alloc, p, i, count, part, env, names)?),
        Order::InTurn => Ok(repeats_in_turn(alloc, p, i, count, part, env, names)?),
    }
}
