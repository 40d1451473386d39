ghost use Rattle.std.specs.Prelude.{FitsSigned, ◌≡◌, ◌+ℤ◌, ◌-ℤ◌, ◌*ℤ◌, ◌≤ℤ◌, pos, neg_ℤ};
ghost use Rattle.std.specs.Int.{w128};
ghost use Rattle.ny_num.specs.Numbers.{million, floor_div, sat_sample};

use ny_num::{Fix, Sample};

/// The sample nearest to so many millionths.
#[tactic(auto, unfolding(ny_num::specs::Numbers::sat_sample))]
pub(crate) fn nearest(exact: i128) -> Sample
    ensures { result ≡ sat_sample exact }
{
    let kept = exact.clamp(-2_147_483_647, 2_147_483_647);
    Sample::of(kept as i64)
}

/// The exact product, which 64 bits cannot hold.
pub(crate) fn product(a: i64, b: i64) -> i128
    ensures { result ≡ a *ℤ b }
{
    i128::from(a) * i128::from(b)
}

/// The exact sum, where it fits.
pub(crate) fn sum(a: i128, b: i128) -> i128
    requires { FitsSigned w128 (a +ℤ b) }
    ensures { result ≡ a +ℤ b }
{
    a + b
}

/// The whole units of so many millionths, rounded down.
pub(crate) fn units(exact: i128) -> i128
    ensures { result ≡ floor_div exact million }
{
    exact.div_euclid(1_000_000)
}

/// A number times a sample, exactly: no more than 2^84 millionths of a millionth.
#[tactic(auto, using(ny_num::proofs::Weights::weight_within))]
pub(crate) fn weight(factor: Fix, sample: Sample) -> i128
    ensures value { result ≡ factor *ℤ sample }
    ensures least { neg_ℤ (pos 19342813113834066795298816) ≤ℤ result }
    ensures greatest { result ≤ℤ pos 19342813113834066795298816 }
{
    product(factor.micro(), i64::from(sample.micro()))
}

/// The difference of two samples, which 32 bits cannot hold.
pub(crate) fn difference(a: Sample, b: Sample) -> i64
    ensures value { result ≡ a -ℤ b }
    ensures least { neg_ℤ (pos 4294967294) ≤ℤ result }
    ensures greatest { result ≤ℤ pos 4294967294 }
{
    i64::from(a.micro()) - i64::from(b.micro())
}

/// A sample in millionths.
pub(crate) fn level(a: Sample) -> i64
    ensures value { result ≡ a }
    ensures least { neg_ℤ (pos 4294967294) ≤ℤ result }
    ensures greatest { result ≤ℤ pos 4294967294 }
{
    i64::from(a.micro())
}
