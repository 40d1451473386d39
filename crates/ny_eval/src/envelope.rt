//! The knots of an envelope.

ghost use Rattle.std.specs.Prelude.{◌≡◌, ◌∷◌, map, drop, pos, IfOk};
ghost use Rattle.std.specs.Int.{int_max};
ghost use Rattle.ny_check.specs.Behaviours.{breakpoints};
ghost use Rattle.ny_units.specs.Envelopes.{corner, corners};
ghost use Rattle.ny_eval.specs.Knots.{knot_from, first_level};

use ny_heap::Knot;
use ny_num::{Fix, Sample, index};
use ny_warp::Env;
use std::alloc::{AllocError, Global};

/// The later of two local times.
fn later(a: Fix, b: Fix) -> Fix
    ensures { result ≡ int_max a b }
{
    Fix::of(a.micro().max(b.micro()))
}

/// The knot of a local time and a level. Its place counts from `start`.
fn knot_from(env: &Env, start: u32, time: Fix, level: Sample) -> Knot
    ensures { corner result ≡ knot_from env.now start (time, level) }
{
    let at = index(env.apply(time), env.control_rate);
    Knot {
        t: at.saturating_sub(start),
        level,
    }
}

/// The level that is written at an index, 0 where none is.
#[tactic(auto, using(crate::proofs::EnvelopeLemmas::levels))]
fn level_at(numbers: &[Fix], i: usize) -> Sample
    ensures { result ≡ first_level (drop i numbers.now) }
{
    match numbers.get(i) {
        Some(number) => Sample::of_fix(*number),
        None => Sample::ZERO,
    }
}

/// The knots of an envelope of these numbers, times and levels in turn. Their places count from
/// `start`.
#[tactic(auto, using(crate::proofs::EnvelopeLemmas::knots_in_turn))]
pub(crate) fn knots(
    alloc: Global,
    env: &Env,
    start: u32,
    numbers: &[Fix],
) -> Result<Vec<Knot>, AllocError>
    ensures { IfOk result (λ ks. corners ks.items ≡ map (knot_from env.now start) ((pos 0, pos 0) ∷ breakpoints numbers.now)) }
{
    let mut time = Fix::of(0);
    let mut knots = Vec::with_capacity(alloc, numbers.len() / 2 + 2)?;
    knots.push(knot_from(env, start, time, Sample::ZERO))?;
    for k in 0..numbers.len().div_ceil(2) {
        time = later(time, numbers[2 * k]);
        knots.push(knot_from(env, start, time, level_at(numbers, 2 * k + 1)))?;
    }
    Ok(knots)
}
