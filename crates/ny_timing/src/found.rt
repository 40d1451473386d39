//! What an expression is, together with when it is heard, and what operators make of that.

ghost use Rattle.std.specs.Prelude.{◌≡◌};
ghost use Rattle.ny_num.specs.Sound.{IsTiming};
ghost use Rattle.ny_num.specs.Numbers.{fix_neg};
ghost use Rattle.ny_check.specs.Values.{of_number, of_numbers};
ghost use Rattle.ny_check.specs.Families.{fix_operation, pair_timing as pair_of};
ghost use Rattle.ny_timing.specs.Timings.{IsTimedValue, no_time, combined_times, negated_time};
ghost use Rattle.ny_timing.specs.Found.{scalar_of_found, time_of_found, value_of_found};

use crate::rules::{pair_timing, resampled_timing};
use ny_check::operations::combined;
use ny_check::{Op, Scalar, Value};
use ny_num::{Fix, Rate, Ticks, Timing};

/// What an expression is: a number, a test, or a sound that is heard then.
#[derive(Clone, Copy)]
pub(crate) enum Found {
    Number(Fix),
    Test(bool),
    Sound(Timing),
}

/// When no sound is heard.
#[tactic(auto, unfolding(ny_num::specs::Grid::tick_at))]
pub(crate) fn no_time(rate: Rate) -> Timing
    ensures value { result ≡ no_time rate }
    ensures bounds { IsTiming result }
{
    Timing {
        rate,
        start: 0,
        len: 0,
        stop: Ticks::of(0),
    }
}

/// A number or a test, or else no sound of this rate.
pub(crate) fn found_of(scalar: Scalar, rate: Rate) -> Found
    ensures scalar { scalar_of_found result ≡ scalar }
    ensures timing { time_of_found rate result ≡ no_time rate }
    ensures bounds { IsTiming (time_of_found rate result) }
{
    match scalar {
        Scalar::Number(v) => Found::Number(v),
        Scalar::Test(holds) => Found::Test(holds),
        Scalar::Sound => Found::Sound(no_time(rate)),
    }
}

/// The number or test that was found.
pub(crate) fn scalar_of(found: &Found) -> Scalar
    ensures { result ≡ scalar_of_found found.now }
{
    match found {
        Found::Number(v) => Scalar::Number(*v),
        Found::Test(holds) => Scalar::Test(*holds),
        Found::Sound(_) => Scalar::Sound,
    }
}

/// When it is heard; of a number or a test no sound of this rate.
pub(crate) fn time_of(found: &Found, rate: Rate) -> Timing
    requires { IsTiming (time_of_found rate found.now) }
    ensures value { result ≡ time_of_found rate found.now }
    ensures bounds { IsTiming result }
{
    match found {
        Found::Number(_) => no_time(rate),
        Found::Test(_) => no_time(rate),
        Found::Sound(t) => *t,
    }
}

/// What a name stands for that is bound to it.
pub(crate) fn named(found: &Found, rate: Rate) -> Value<Timing>
    requires { IsTiming (time_of_found rate found.now) }
    ensures value { result ≡ value_of_found rate found.now }
    ensures bounds { IsTimedValue result }
{
    match found {
        Found::Number(v) => Value::Number(*v),
        Found::Test(_) => Value::Sound(no_time(rate)),
        Found::Sound(t) => Value::Sound(*t),
    }
}

/// When two values are heard by an operation at a rate.
pub(crate) fn together(op: Op, rate: Rate, a: &Value<Timing>, b: &Value<Timing>) -> Timing
    requires a_bounds { IsTimedValue a.now }
    requires b_bounds { IsTimedValue b.now }
    ensures value { result ≡ combined_times (pair_of op) rate a.now b.now }
    ensures bounds { IsTiming result }
{
    match a {
        Value::Number(_) => match b {
            Value::Number(_) => no_time(rate),
            Value::Sound(b) => resampled_timing(rate, b),
        },
        Value::Sound(a) => match b {
            Value::Number(_) => resampled_timing(rate, a),
            Value::Sound(b) => {
                pair_timing(op, &resampled_timing(rate, a), &resampled_timing(rate, b))
            }
        },
    }
}

/// What an operation makes of two operands.
#[tactic(auto, using(crate::proofs::NoSound::by_kind))]
pub(crate) fn operated(op: Op, rate: Rate, a: &Found, b: &Found) -> Found
    requires a_bounds { IsTiming (time_of_found rate a.now) }
    requires b_bounds { IsTiming (time_of_found rate b.now) }
    ensures scalar { scalar_of_found result ≡ of_numbers (fix_operation op) (scalar_of_found a.now) (scalar_of_found b.now) }
    ensures timing { time_of_found rate result ≡ combined_times (pair_of op) rate (value_of_found rate a.now) (value_of_found rate b.now) }
    ensures bounds { IsTiming (time_of_found rate result) }
{
    let scalar = combined(op, scalar_of(a), scalar_of(b));
    match scalar {
        Scalar::Number(v) => Found::Number(v),
        Scalar::Test(holds) => Found::Test(holds),
        Scalar::Sound => {
            let first = named(a, rate);
            let second = named(b, rate);
            Found::Sound(together(op, rate, &first, &second))
        }
    }
}

/// What is made of an operand by a minus.
pub(crate) fn negative(rate: Rate, a: &Found) -> Found
    requires { IsTiming (time_of_found rate a.now) }
    ensures scalar { scalar_of_found result ≡ of_number fix_neg (scalar_of_found a.now) }
    ensures timing { time_of_found rate result ≡ negated_time rate (value_of_found rate a.now) }
    ensures bounds { IsTiming (time_of_found rate result) }
{
    match a {
        Found::Number(v) => Found::Number(v.neg()),
        Found::Test(_) => Found::Sound(resampled_timing(rate, &no_time(rate))),
        Found::Sound(t) => Found::Sound(resampled_timing(rate, t)),
    }
}
