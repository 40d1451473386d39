ghost use Rattle.std.specs.Prelude.{◌≡◌};
ghost use Rattle.ny_num.specs.Filters.{at_rest};

use ny_num::{Fix, Sample};
use std::marker::Model;

/// The numbers by which a biquad filter weighs the newest three inputs and the last two outputs.
#[derive(Clone, Copy, Debug)]
pub(crate) struct Coefficients {
    pub(crate) b0: Fix,
    pub(crate) b1: Fix,
    pub(crate) b2: Fix,
    pub(crate) a1: Fix,
    pub(crate) a2: Fix,
}

impl Model for Coefficients {
    ghost use Rattle.ny_num.specs.Filters as filters;

    ghost Value = { filters.Coefficients };

    ghost view = { λ c. record { b0 = c.b0; b1 = c.b1; b2 = c.b2; a1 = c.a1; a2 = c.a2 } };

    ghost inverse = { λ c. record { b0 = c.b0; b1 = c.b1; b2 = c.b2; a1 = c.a1; a2 = c.a2 } };
}

/// The last two inputs and outputs, the later ones first.
#[derive(Clone, Copy, Debug)]
pub(crate) struct Recent {
    pub(crate) x1: Sample,
    pub(crate) x2: Sample,
    pub(crate) y1: Sample,
    pub(crate) y2: Sample,
}

impl Model for Recent {
    ghost use Rattle.ny_num.specs.Filters as filters;

    ghost Value = { filters.Recent };

    ghost view = { λ r. record { x1 = r.x1; x2 = r.x2; y1 = r.y1; y2 = r.y2 } };

    ghost inverse = { λ r. record { x1 = r.x1; x2 = r.x2; y1 = r.y1; y2 = r.y2 } };
}

impl Recent {
    /// No input and no output so far.
    pub(crate) fn none() -> Recent
        ensures { result ≡ at_rest }
    {
        Recent {
            x1: Sample::ZERO,
            x2: Sample::ZERO,
            y1: Sample::ZERO,
            y2: Sample::ZERO,
        }
    }

    /// What is recent after one more input and its output.
    pub(crate) fn after(&self, input: Sample, output: Sample) -> Recent
        ensures { result ≡ record { x1 = input; x2 = self.now.x1; y1 = output; y2 = self.now.y1 } }
    {
        Recent {
            x1: input,
            x2: self.x1,
            y1: output,
            y2: self.y1,
        }
    }
}
