ghost use Rattle.std.specs.Prelude.{◌≡◌, pos, neg_ℤ, ◌*◌, ◌*ℤ◌, ◌≤ℤ◌};
ghost use Rattle.ny_num.specs.Numbers.{IsSample, sat_sample, sample_add, sample_sub, sample_mul, sample_max, sample_min, sample_abs, floor_div, million};

use crate::fix::Fix;
use std::marker::Model;

const LIMIT: i64 = 2_147_483_647;

/// One, in millionths.
const UNIT: i64 = 1_000_000;

/// So many units are more than any product of two samples in millionths.
const LIFT: i64 = 4_611_686_014_133;

/// A sample: whole millionths from -2147483647 to 2147483647. Each operation is exact and then
/// clamped once (`docs/DEFINITIONS.md`, "Numbers").
#[derive(Clone, Copy, Debug, PartialEq, Eq)]
pub struct Sample {
    micro: i32,
}

impl Model for Sample {
    ghost use Rattle.std.specs.Prelude.{ℤ};
    ghost use Rattle.ny_num.specs.Numbers.{IsSample};

    ghost Value = { ℤ };

    ghost view = { λ s. s.micro };

    ghost invariant = { λ s. IsSample s.micro };

    ghost inverse = { λ z. record { micro = z } };
}

// The exact product of two samples.
fn product(a: i32, b: i32) -> i64
    requires a { IsSample a }
    requires b { IsSample b }
    ensures value { result ≡ a *ℤ b }
    ensures low { neg_ℤ (pos (4611686014133 * 1000000)) ≤ℤ result }
    ensures high { result ≤ℤ pos (4611686014133 * 1000000) }
{
    i64::from(a) * i64::from(b)
}

// The whole units of a product, rounded down. The product is lifted above 0, where a quotient is
// rounded down without a test of its sign.
#[tactic(auto, using(crate::proofs::Lifted::lifted_floor))]
fn floor_of_units(product: i64) -> i64
    requires low { neg_ℤ (pos (4611686014133 * 1000000)) ≤ℤ product }
    requires high { product ≤ℤ pos (4611686014133 * 1000000) }
    ensures { result ≡ floor_div product million }
{
    let lifted = (product + LIFT * UNIT) as u64 / UNIT as u64;
    lifted as i64 - LIFT
}

impl Sample {
    /// The sample of silence.
    pub const ZERO: Sample = Sample { micro: 0 };

    /// The sample nearest to so many millionths.
    #[tactic(auto, unfolding(crate::specs::Numbers::sat_sample))]
    pub fn of(micro: i64) -> Sample
        ensures value { result ≡ sat_sample micro }
        ensures exact { IsSample micro → result ≡ micro }
    {
        let kept = micro.clamp(-LIMIT, LIMIT);
        Sample { micro: kept as i32 }
    }

    /// The sample nearest to a number.
    pub fn of_fix(v: Fix) -> Sample
        ensures { result ≡ sat_sample v }
    {
        Sample::of(v.micro())
    }

    /// The sample in millionths.
    pub fn micro(self) -> i32
        ensures value { result ≡ self }
        ensures within { IsSample result }
    {
        self.micro
    }

    /// The sum, clamped.
    #[tactic(auto, unfolding(crate::specs::Numbers::sample_add))]
    pub fn add(self, b: Sample) -> Sample
        ensures { result ≡ sample_add self b }
    {
        Sample::of(i64::from(self.micro) + i64::from(b.micro))
    }

    /// The difference, clamped.
    #[tactic(auto, unfolding(crate::specs::Numbers::sample_sub))]
    pub fn sub(self, b: Sample) -> Sample
        ensures { result ≡ sample_sub self b }
    {
        Sample::of(i64::from(self.micro) - i64::from(b.micro))
    }

    /// The product, rounded down to a millionth and clamped.
    #[tactic(auto, unfolding(crate::specs::Numbers::sample_mul))]
    pub fn mul(self, b: Sample) -> Sample
        ensures { result ≡ sample_mul self b }
    {
        Sample::of(floor_of_units(product(self.micro, b.micro)))
    }

    /// The greater of the two.
    pub fn max(self, b: Sample) -> Sample
        ensures { result ≡ sample_max self b }
    {
        Sample {
            micro: self.micro.max(b.micro),
        }
    }

    /// The smaller of the two.
    pub fn min(self, b: Sample) -> Sample
        ensures { result ≡ sample_min self b }
    {
        Sample {
            micro: self.micro.min(b.micro),
        }
    }

    /// The sample without its sign.
    pub fn abs(self) -> Sample
        ensures { result ≡ sample_abs self }
    {
        Sample {
            micro: self.micro.abs(),
        }
    }
}
