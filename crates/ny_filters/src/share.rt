ghost use Rattle.std.specs.Prelude.{◌≡◌, ◌+◌, ◌*◌, ◌/◌, ◌^◌, ◌<◌, ◌≤◌, pos};
ghost use Rattle.ny_filters.specs.Ways.{IsShare, IsLifted, on_way};

/// So many units lift the difference of two samples above 0.
const LIFT: u64 = 4295;

/// One, in millionths.
const UNIT: u64 = 1_000_000;

/// A share of a way, from 0 to less than 1. It is kept as parts of 2^64 too, so that a share is the high half of a product and no
/// quotient.
#[derive(Clone, Copy)]
pub(crate) struct Share {
    /// So many millionths.
    micro: u64,
    /// So many parts of 2^64, rounded up.
    parts: u64,
}

// How many parts of 2^64 so many millionths are, rounded up.
#[tactic(auto, using(crate::proofs::Reciprocals::parts_fit, std::proofs::lemmas::Grind::div_ceil_times))]
fn parts_of(micro: u64) -> u64
    requires { micro < 1000000 }
    ensures enough { micro * 2 ^ 64 ≤ result * 1000000 }
    ensures few { result * 1000000 ≤ micro * 2 ^ 64 + 1000000 }
{
    (u128::from(micro) * 18_446_744_073_709_551_616).div_ceil(1_000_000) as u64
}

// The high half of a product.
#[tactic(auto, using(crate::proofs::Reciprocals::product_fits, crate::proofs::Reciprocals::half_fits))]
fn high_half(a: u64, b: u64) -> u64
    ensures { result ≡ a * b / 2 ^ 64 }
{
    ((u128::from(a) * u128::from(b)) / 18_446_744_073_709_551_616) as u64
}

impl Share {
    /// A share of so many millionths.
    pub(crate) fn of(micro: u64) -> Share
        requires { micro < 1000000 }
        ensures share { IsShare result }
        ensures micro { result.micro ≡ micro }
    {
        Share {
            micro,
            parts: parts_of(micro),
        }
    }

    /// By this share of the way from one lifted sample towards another, rounded down.
    pub(crate) fn towards(&self, from: u64, to: u64) -> u64
        requires share { IsShare self.now }
        requires from { IsLifted from }
        requires to { IsLifted to }
        ensures value { pos result ≡ on_way self.now.micro from to }
        ensures within { IsLifted result }
    {
        // What `from` is not needed for stands first, since the next output waits for this one.
        let way = to + LIFT * UNIT - from;
        from - self.micro * LIFT + high_half(self.parts, way)
    }
}
