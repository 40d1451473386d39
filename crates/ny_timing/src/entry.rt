ghost use Rattle.std.specs.Prelude.{◌≡◌, ◌<◌, ◌≤◌, [], ◌∷◌, length, map, IfOk, OnOk};
ghost use Rattle.std.specs.List.{All};
ghost use Rattle.ny_num.specs.Sound.{IsTiming, timing_of};
ghost use Rattle.ny_warp.specs.Environment.{opening};
ghost use Rattle.ny_check.specs.Code.{node_at, AllBelow};
ghost use Rattle.ny_check.specs.Meaning.{Bound, meaning};
ghost use Rattle.ny_check.specs.Channels.{channels};
ghost use Rattle.ny_timing.specs.Timings.{AllTimed, timed, timing_at};
ghost use Rattle.ny_timing.specs.Played.{played_at, operand_time, channel_times};

use crate::find::{arguments, bind_all, find, heard};
use crate::found::scalar_of;
use crate::names::Names;
use crate::rules::{channel_timing, resampled_timing};
use ny_check::operations::holds;
use ny_check::{Binds, ExprId, Node, Program};
use ny_num::{Rate, Timing};
use ny_warp::Env;
use std::alloc::{AllocError, Global};

/// When the sound is heard that an expression means in an environment (`docs/DEFINITIONS.md`,
/// "Timing"), where the names stand for sounds that are heard so; nothing of what is no sound.
#[tactic(auto, using(crate::proofs::TimesOfSounds::by_meaning))]
pub fn timing(
    alloc: Global,
    p: &Program,
    e: ExprId,
    env: &Env,
    binds: &Binds<Timing>,
) -> Result<Timing, AllocError>
    requires inside { e.0 < length p.now.nodes }
    requires bounds { AllTimed binds.now.names }
    ensures value { IfOk result (λ t. (bound : Bound) → timed bound ≡ binds.now.names → t ≡ timing_of (meaning p.now e.0 env.now bound)) }
    ensures bounds { IfOk result (λ t. IsTiming t) }
{
    let mut names = Names::of(alloc, binds.names.as_slice())?;
    let t = heard(alloc, p, e, env, &mut names)?;
    Ok(t)
}

/// The operands of `vector`.
fn operands(
    alloc: Global,
    p: &Program,
    e: ExprId,
    parts: &[ExprId],
    env: &Env,
    names: &mut Names,
) -> Result<Vec<Timing>, AllocError>
    requires inside { e.0 ≤ length p.now.nodes }
    requires below { AllBelow e.0 parts.now }
    ensures value { IfOk result (λ ts. ts.items ≡ map (operand_time p.now env.now names.old) parts.now) }
    ensures bounds { IfOk result (λ ts. All IsTiming ts.items) }
    ensures names { OnOk result (names.new ≡ names.old) }
{
    let mut times = Vec::new(alloc);
    for part in parts {
        times.push(heard(alloc, p, *part, env, names)?)?;
    }
    Ok(times)
}

/// One sound that is played.
fn alone(
    alloc: Global,
    p: &Program,
    e: ExprId,
    env: &Env,
    names: &mut Names,
) -> Result<Vec<Timing>, AllocError>
    requires inside { e.0 < length p.now.nodes }
    ensures value { IfOk result (λ ts. ts.items ≡ timing_at p.now e.0 env.now names.old ∷ []) }
    ensures bounds { IfOk result (λ ts. All IsTiming ts.items) }
    ensures names { OnOk result (names.new ≡ names.old) }
{
    let t = heard(alloc, p, e, env, names)?;
    let mut times = Vec::new(alloc);
    times.push(t)?;
    Ok(times)
}

/// When the sounds are heard that an expression plays.
#[cycle(playing)]
#[tactic(auto, using(crate::proofs::PlayedEquation::by_node), unfolding(ny_check::specs::Values::test_of))]
fn plays(
    alloc: Global,
    p: &Program,
    e: ExprId,
    env: &Env,
    names: &mut Names,
) -> Result<Vec<Timing>, AllocError>
    requires inside { e.0 < length p.now.nodes }
    ensures value { IfOk result (λ ts. ts.items ≡ played_at p.now e.0 env.now names.old) }
    ensures bounds { IfOk result (λ ts. All IsTiming ts.items) }
    ensures names { OnOk result (names.new ≡ names.old) }
{
    match p.node(e) {
        Node::Vector(parts) => Ok(operands(alloc, p, e, parts.as_slice(), env, names)?),
        Node::Call(f, values) => {
            let inner = arguments(alloc, p, e, *f, values.as_slice(), env, names)?;
            Ok(body_plays(alloc, p, p.body(*f), env, inner)?)
        }
        Node::Block(binds, value) => {
            let before = names.len();
            bind_all(alloc, p, e, binds.as_slice(), env, names)?;
            let times = plays(alloc, p, *value, env, names)?;
            names.leave(before);
            Ok(times)
        }
        Node::If(c, a, b) => {
            let condition = find(alloc, p, *c, env, names)?;
            let chosen = if holds(scalar_of(&condition)) { *a } else { *b };
            Ok(plays(alloc, p, chosen, env, names)?)
        }
        _ => Ok(alone(alloc, p, e, env, names)?),
    }
}

/// The same of a function's body, under what its parameters stand for.
#[cycle(playing)]
fn body_plays(
    alloc: Global,
    p: &Program,
    body: ExprId,
    env: &Env,
    names: Names,
) -> Result<Vec<Timing>, AllocError>
    requires inside { body.0 < length p.now.nodes }
    ensures value { IfOk result (λ ts. ts.items ≡ played_at p.now body.0 env.now names) }
    ensures bounds { IfOk result (λ ts. All IsTiming ts.items) }
{
    let mut names = names;
    plays(alloc, p, body, env, &mut names)
}

/// When the sounds are heard that a program plays at this rate.
fn all_played(alloc: Global, p: &Program, rate: Rate) -> Result<Vec<Timing>, AllocError>
    ensures value { IfOk result (λ ts. ts.items ≡ played_at p.now p.now.play.0 (opening rate) []) }
    ensures bounds { IfOk result (λ ts. All IsTiming ts.items) }
{
    let env = Env::open(alloc, rate)?;
    let mut names = Names::new(alloc);
    plays(alloc, p, p.play(), &env, &mut names)
}

/// When the channels of a program are heard at the rate of a command (`docs/DEFINITIONS.md`,
/// "Channels").
#[tactic(auto, using(crate::proofs::TimesOfChannels::by_meaning), unfolding(crate::specs::Played::channel_times))]
pub fn channel_timings(alloc: Global, p: &Program, rate: Rate) -> Result<Vec<Timing>, AllocError>
    ensures value { IfOk result (λ ts. ts.items ≡ map timing_of (channels p.now rate)) }
    ensures bounds { IfOk result (λ ts. All IsTiming ts.items) }
{
    let played = all_played(alloc, p, rate)?;
    let mut times = Vec::new(alloc);
    for t in &played {
        times.push(channel_timing(&resampled_timing(rate, t)))?;
    }
    Ok(times)
}
