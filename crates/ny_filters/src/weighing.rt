ghost use Rattle.std.specs.Prelude.{FitsSigned, ◌≡◌, true, ◌^◌, ◌<◌, ◌≤ℤ◌, ◌+ℤ◌, ◌-ℤ◌, ◌*ℤ◌, pos, neg_ℤ};
ghost use Rattle.std.specs.Int.{w64};
ghost use Rattle.ny_num.specs.Numbers.{sat_sample};
ghost use Rattle.ny_num.specs.Filters.{biquad_value};
ghost use Rattle.ny_filters.specs.Sizes.{is_small, each_holds};

use crate::recent::{Coefficients, Recent};
use ny_num::{Fix, Sample};

/// One, in millionths.
const UNIT: i64 = 1_000_000;

/// So many units lift a weighed sum of small numbers above 0, where a quotient is rounded down without a test of its sign.
const LIFT: i64 = 2_882_303_761_518;

// The exact product of a small number and a sample.
fn short_weight(factor: Fix, sample: Sample) -> i64
    requires small { is_small factor ≡ true }
    ensures value { result ≡ factor *ℤ sample }
    ensures low { neg_ℤ (pos 576460752303423488) ≤ℤ result }
    ensures high { result ≤ℤ pos 576460752303423488 }
{
    factor.micro() * i64::from(sample.micro())
}

// The exact sum, where it fits.
fn short_plus(a: i64, b: i64) -> i64
    requires { FitsSigned w64 (a +ℤ b) }
    ensures { result ≡ a +ℤ b }
{
    a + b
}

// The weighed sum of a filter with small numbers, lifted. What waits for the last output stands last, since the next output waits
// for this one.
fn lifted_sum(c: &Coefficients, recent: &Recent, input: Sample) -> i64
    requires { each_holds is_small c.now ≡ true }
    ensures value { result ≡ c.now.b0 *ℤ input +ℤ c.now.b1 *ℤ recent.now.x1 +ℤ c.now.b2 *ℤ recent.now.x2 +ℤ c.now.a1 *ℤ recent.now.y1 +ℤ c.now.a2 *ℤ recent.now.y2 +ℤ pos 2882303761518000000 }
    ensures low { pos 0 ≤ℤ result }
{
    let inputs = short_plus(LIFT * UNIT, short_weight(c.b0, input));
    let inputs = short_plus(inputs, short_weight(c.b1, recent.x1));
    let inputs = short_plus(inputs, short_weight(c.b2, recent.x2));
    let older = short_plus(inputs, short_weight(c.a2, recent.y2));
    short_plus(older, short_weight(c.a1, recent.y1))
}

/// The whole units of the next output of a biquad filter with small numbers, lifted above 0, before they are clamped.
pub(crate) fn lifted_units(c: &Coefficients, recent: &Recent, input: Sample) -> u64
    requires { each_holds is_small c.now ≡ true }
    ensures value { sat_sample (pos result -ℤ pos 2882303761518) ≡ biquad_value c.now recent.now input }
    ensures small { result < 2 ^ 63 }
{
    lifted_sum(c, recent, input) as u64 / UNIT as u64
}

/// The sample nearest to so many lifted units.
pub(crate) fn sample_of(units: u64) -> Sample
    requires { units < 2 ^ 63 }
    ensures { result ≡ sat_sample (pos units -ℤ pos 2882303761518) }
{
    Sample::of(units as i64 - LIFT)
}

/// Whether so many lifted units are a sample, so that nothing is clamped.
pub(crate) fn is_sample(units: u64) -> bool {
    LIFT as u64 - 2_147_483_647 <= units && units <= LIFT as u64 + 2_147_483_647
}
