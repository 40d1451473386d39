ghost use Rattle.std.specs.Prelude.{◌≡◌, pos, ◌<ℤ◌, ◌*ℤ◌};
ghost use Rattle.ny_num.specs.Numbers.{IsFix, sat, whole_units, fix_add, fix_sub, fix_neg, fix_mul, fix_div};

use std::marker::Model;

const LIMIT: i64 = 9_007_199_254_740_992;

/// One, in millionths.
const UNIT: i64 = 1_000_000;

/// A number: whole millionths from -2^53 to 2^53. Each operation is exact and then clamped once
/// (`docs/DEFINITIONS.md`, "Numbers").
#[derive(Clone, Copy, Debug, PartialEq, Eq)]
pub struct Fix {
    micro: i64,
}

impl Model for Fix {
    ghost use Rattle.std.specs.Prelude.{ℤ};
    ghost use Rattle.ny_num.specs.Numbers.{IsFix};

    ghost Value = { ℤ };

    ghost view = { λ f. f.micro };

    ghost invariant = { λ f. IsFix f.micro };

    ghost inverse = { λ z. record { micro = z } };
}

/// The exact product, which 64 bits cannot hold.
fn product(a: i64, b: i64) -> i128
    ensures { result ≡ a *ℤ b }
{
    i128::from(a) * i128::from(b)
}

/// The number nearest to so many millionths.
#[tactic(auto, unfolding(crate::specs::Numbers::sat))]
fn nearest(exact: i128) -> Fix
    ensures { result ≡ sat exact }
{
    let limit = i128::from(LIMIT);
    let kept = exact.clamp(-limit, limit);
    Fix { micro: kept as i64 }
}

impl Fix {
    /// The number nearest to so many millionths.
    #[tactic(auto, unfolding(crate::specs::Numbers::sat))]
    pub fn of(micro: i64) -> Fix
        ensures value { result ≡ sat micro }
        ensures exact { IsFix micro → result ≡ micro }
    {
        Fix {
            micro: micro.clamp(-LIMIT, LIMIT),
        }
    }

    /// The number in millionths.
    pub fn micro(self) -> i64
        ensures value { result ≡ self }
        ensures within { IsFix result }
    {
        self.micro
    }

    /// The number in whole units, rounded down.
    #[tactic(auto, unfolding(crate::specs::Numbers::whole_units))]
    pub fn whole(self) -> i64
        ensures { result ≡ whole_units self }
    {
        self.micro.div_euclid(UNIT)
    }

    /// The sum, clamped.
    #[tactic(auto, unfolding(crate::specs::Numbers::fix_add))]
    pub fn add(self, b: Fix) -> Fix
        ensures { result ≡ fix_add self b }
    {
        Fix::of(self.micro + b.micro)
    }

    /// The difference, clamped.
    #[tactic(auto, unfolding(crate::specs::Numbers::fix_sub))]
    pub fn sub(self, b: Fix) -> Fix
        ensures { result ≡ fix_sub self b }
    {
        Fix::of(self.micro - b.micro)
    }

    /// The number with the other sign.
    #[tactic(auto, unfolding(crate::specs::Numbers::fix_neg))]
    pub fn neg(self) -> Fix
        ensures { result ≡ fix_neg self }
    {
        Fix::of(-self.micro)
    }

    /// The product, rounded down to a millionth and clamped.
    #[tactic(auto, unfolding(crate::specs::Numbers::fix_mul))]
    pub fn mul(self, b: Fix) -> Fix
        ensures { result ≡ fix_mul self b }
    {
        nearest(product(self.micro, b.micro).div_euclid(i128::from(UNIT)))
    }

    /// The quotient by a number above 0, rounded down to a millionth and clamped.
    #[tactic(auto, unfolding(crate::specs::Numbers::fix_div))]
    pub fn div(self, by: Fix) -> Fix
        requires { pos 0 <ℤ by }
        ensures { result ≡ fix_div self by }
    {
        nearest(product(self.micro, UNIT).div_euclid(i128::from(by.micro)))
    }
}
