//! When leaves and cues are heard in an environment.

ghost use Rattle.std.specs.Prelude.{◌≡◌};
ghost use Rattle.std.specs.Int.{int_max};
ghost use Rattle.ny_num.specs.Sound.{IsTiming};
ghost use Rattle.ny_check.specs.Behaviours.{sustained_timing, plain_timing, rest_timing, envelope_end, cue_timing};
ghost use Rattle.ny_check.specs.Families.{leaf_time};

use crate::rules::{cued_timing, leaf_timing};
use ny_check::Generator;
use ny_check::operations::number_at;
use ny_num::{Fix, Rate, Timing, index};
use ny_warp::Env;

/// From local time 0 for `d` seconds times the sustain; the stop is that of `d` seconds.
#[tactic(auto, unfolding(ny_check::specs::Behaviours::sustained_timing, ny_num::specs::Numbers::sat))]
pub fn sustained_timing(rate: Rate, env: &Env, d: Fix) -> Timing
    ensures value { result ≡ sustained_timing rate env.now d }
    ensures bounds { IsTiming result }
{
    let begins = env.apply(Fix::of(0));
    let ends = env.apply(d.mul(env.sustain));
    leaf_timing(rate, begins, ends, env.apply(d))
}

/// From local time 0 for `d` seconds, whatever the sustain.
#[tactic(auto, unfolding(ny_check::specs::Behaviours::plain_timing, ny_num::specs::Numbers::sat))]
pub fn plain_timing(rate: Rate, env: &Env, d: Fix) -> Timing
    ensures value { result ≡ plain_timing rate env.now d }
    ensures bounds { IsTiming result }
{
    let begins = env.apply(Fix::of(0));
    leaf_timing(rate, begins, env.apply(d), env.apply(d))
}

/// Nothing from local time 0 on, with the stop of `d` seconds.
#[tactic(auto, unfolding(ny_check::specs::Behaviours::rest_timing, ny_num::specs::Numbers::sat))]
pub fn rest_timing(env: &Env, d: Fix) -> Timing
    ensures value { result ≡ rest_timing env.now d }
    ensures bounds { IsTiming result }
{
    let begins = env.apply(Fix::of(0));
    leaf_timing(env.sound_rate, begins, env.apply(Fix::of(0)), env.apply(d))
}

/// When the cue of a sound with this timing is heard.
#[tactic(auto, unfolding(ny_check::specs::Behaviours::cue_timing, ny_num::specs::Numbers::sat))]
pub fn cue_timing(env: &Env, t: &Timing) -> Timing
    requires { IsTiming t.now }
    ensures value { result ≡ cue_timing env.now t.now }
    ensures bounds { IsTiming result }
{
    cued_timing(index(env.apply(Fix::of(0)), t.rate), t)
}

/// The later of two local times.
fn later(a: Fix, b: Fix) -> Fix
    ensures { result ≡ int_max a b }
{
    Fix::of(a.micro().max(b.micro()))
}

/// The local time at which an envelope of these numbers, times and levels in turn, ends.
#[tactic(auto, using(crate::proofs::EnvelopeEnds::by_numbers), unfolding(ny_num::specs::Numbers::sat))]
pub fn envelope_end(numbers: &[Fix]) -> Fix
    ensures { result ≡ envelope_end numbers.now }
{
    let mut time = Fix::of(0);
    let mut is_time = true;
    for number in numbers {
        if is_time {
            time = later(time, *number);
        }
        is_time = !is_time;
    }
    time
}

/// When a leaf of these numbers is heard: a row for each.
pub fn leaf_time(generator: Generator, env: &Env, numbers: &[Fix]) -> Timing
    ensures value { result ≡ leaf_time generator env.now numbers.now }
    ensures bounds { IsTiming result }
{
    match generator {
        Generator::Const | Generator::Osc | Generator::HzOsc | Generator::Noise => {
            sustained_timing(env.sound_rate, env, number_at(numbers, 1))
        }
        Generator::Lfo => sustained_timing(env.control_rate, env, number_at(numbers, 1)),
        Generator::Rest => rest_timing(env, number_at(numbers, 0)),
        Generator::Ramp => plain_timing(env.control_rate, env, number_at(numbers, 0)),
        Generator::Pwl => plain_timing(env.control_rate, env, envelope_end(numbers)),
    }
}
