ghost use Rattle.std.specs.Prelude.{◌≡◌, ℤ, Bool, true, ◌+ℤ◌, ◌*ℤ◌, ◌≤ℤ◌, pos, neg_ℤ};
ghost use Rattle.ny_num.specs.Numbers.{million, floor_div, sat_sample};
ghost use Rattle.ny_filters.specs.Sizes.{is_small, is_any, each_holds};
ghost use Rattle.ny_num.specs.Filters.{biquad_value};

use crate::exact::{nearest, product, sum, units, weight};
use crate::recent::{Coefficients, Recent};
use crate::weighing::{lifted_units, sample_of};
use ny_num::{Fix, Sample};

/// How many bits the products of a filter are computed with, known where its loop is compiled.
pub(crate) trait Width {
    ghost holds: { ℤ → Bool };

    /// A sample, and a number times a difference of samples, rounded down.
    fn added(to: Sample, factor: Fix, times: i64) -> Sample
        requires holds { holds factor ≡ true }
        requires least { neg_ℤ (pos 4294967294) ≤ℤ times }
        requires greatest { times ≤ℤ pos 4294967294 }
        ensures { result ≡ sat_sample (to +ℤ floor_div (factor *ℤ times) million) };

    /// The weighed sum of the newest three inputs and the last two outputs.
    fn weighed(c: &Coefficients, recent: &Recent, input: Sample) -> Sample
        requires { each_holds holds c.now ≡ true }
        ensures { result ≡ biquad_value c.now recent.now input };
}

/// 64 bits, for numbers up to 2^28 millionths.
pub(crate) struct Narrow;

/// 128 bits, for each number.
pub(crate) struct Wide;

// The exact product of a small number and a difference of samples.
#[tactic(auto, using(crate::proofs::Products::product_small))]
fn short_product(factor: i64, times: i64) -> i64
    requires small { is_small factor ≡ true }
    requires least { neg_ℤ (pos 4294967294) ≤ℤ times }
    requires greatest { times ≤ℤ pos 4294967294 }
    ensures value { result ≡ factor *ℤ times }
    ensures low { neg_ℤ (pos 2305843009213693952) ≤ℤ result }
    ensures high { result ≤ℤ pos 2305843009213693952 }
{
    factor * times
}

// The weighed sum of a filter.
fn weighed_sum(c: &Coefficients, recent: &Recent, input: Sample) -> i128
    ensures { result ≡ c.now.b0 *ℤ input +ℤ c.now.b1 *ℤ recent.now.x1 +ℤ c.now.b2 *ℤ recent.now.x2 +ℤ c.now.a1 *ℤ recent.now.y1 +ℤ c.now.a2 *ℤ recent.now.y2 }
{
    let inputs = sum(weight(c.b0, input), weight(c.b1, recent.x1));
    let inputs = sum(inputs, weight(c.b2, recent.x2));
    let all = sum(inputs, weight(c.a1, recent.y1));
    sum(all, weight(c.a2, recent.y2))
}

// The whole units of a product, rounded down.
#[tactic(auto, using(crate::proofs::Products::units_within))]
fn short_units(exact: i64) -> i64
    requires low { neg_ℤ (pos 2305843009213693952) ≤ℤ exact }
    requires high { exact ≤ℤ pos 2305843009213693952 }
    ensures value { result ≡ floor_div exact million }
    ensures low { neg_ℤ (pos 2305843009213693952) ≤ℤ result }
    ensures high { result ≤ℤ pos 2305843009213693952 }
{
    exact.div_euclid(1_000_000)
}

impl Width for Narrow {
    ghost holds = { is_small };

    fn added(to: Sample, factor: Fix, times: i64) -> Sample {
        Sample::of(i64::from(to.micro()) + short_units(short_product(factor.micro(), times)))
    }

    fn weighed(c: &Coefficients, recent: &Recent, input: Sample) -> Sample {
        sample_of(lifted_units(c, recent, input))
    }
}

impl Width for Wide {
    ghost holds = { is_any };

    fn added(to: Sample, factor: Fix, times: i64) -> Sample {
        nearest(sum(
            i128::from(to.micro()),
            units(product(factor.micro(), times)),
        ))
    }

    #[tactic(auto, unfolding(ny_num::specs::Filters::biquad_value))]
    fn weighed(c: &Coefficients, recent: &Recent, input: Sample) -> Sample {
        nearest(units(weighed_sum(c, recent, input)))
    }
}

/// Whether 64 bits hold what this number is a factor of.
pub(crate) fn is_small(factor: Fix) -> bool
    ensures { result ≡ is_small factor }
{
    let micro = factor.micro();
    -268_435_456 <= micro && micro <= 268_435_456
}

/// Whether 64 bits hold the weighed sum of a filter with these numbers.
pub(crate) fn are_small(c: &Coefficients) -> bool
    ensures { result ≡ each_holds is_small c.now }
{
    is_small(c.b0) && is_small(c.b1) && is_small(c.b2) && is_small(c.a1) && is_small(c.a2)
}
