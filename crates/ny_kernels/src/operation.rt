ghost use Rattle.std.specs.Prelude.{◌≡◌, ℤ};
ghost use Rattle.ny_num.specs.Numbers.{sample_add, sample_sub, sample_mul, sample_max, sample_min};
ghost use Rattle.ny_kernels.specs.Operations.{operation};

use ny_num::Sample;

/// An operation on two samples (`docs/DEFINITIONS.md`, "Numbers").
#[derive(Clone, Copy, Debug, PartialEq, Eq)]
pub enum Op {
    Add,
    Sub,
    Mul,
    Max,
    Min,
}

impl Op {
    /// What the operation makes of two samples.
    pub fn of(self, a: Sample, b: Sample) -> Sample
        ensures { result ≡ operation self a b }
    {
        match self {
            Op::Add => a.add(b),
            Op::Sub => a.sub(b),
            Op::Mul => a.mul(b),
            Op::Max => a.max(b),
            Op::Min => a.min(b),
        }
    }
}

/// An operation that is known where a loop is compiled, so that the loop neither asks for it nor
/// calls it.
pub(crate) trait Operation {
    ghost gives: { ℤ → ℤ → ℤ };

    fn apply(a: Sample, b: Sample) -> Sample
        ensures { result ≡ gives a b };
}

pub(crate) struct Sum;

impl Operation for Sum {
    ghost gives = { sample_add };

    fn apply(a: Sample, b: Sample) -> Sample {
        a.add(b)
    }
}

pub(crate) struct Difference;

impl Operation for Difference {
    ghost gives = { sample_sub };

    fn apply(a: Sample, b: Sample) -> Sample {
        a.sub(b)
    }
}

pub(crate) struct Product;

impl Operation for Product {
    ghost gives = { sample_mul };

    fn apply(a: Sample, b: Sample) -> Sample {
        a.mul(b)
    }
}

pub(crate) struct Greater;

impl Operation for Greater {
    ghost gives = { sample_max };

    fn apply(a: Sample, b: Sample) -> Sample {
        a.max(b)
    }
}

pub(crate) struct Smaller;

impl Operation for Smaller {
    ghost gives = { sample_min };

    fn apply(a: Sample, b: Sample) -> Sample {
        a.min(b)
    }
}
