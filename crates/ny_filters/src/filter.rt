use ny_num::Fix;

/// What a filter makes of its input (`docs/DEFINITIONS.md`, "Filters").
#[derive(Clone, Copy, Debug)]
pub enum Filter {
    /// The output goes towards the input by this share.
    OnePole(Fix),
    /// The newest three inputs and the last two outputs, weighed.
    Biquad {
        b0: Fix,
        b1: Fix,
        b2: Fix,
        a1: Fix,
        a2: Fix,
    },
    /// The input and, at a gain, the output `delay` samples before: 1 to 65,536.
    Comb {
        delay: u32,
        gain: Fix,
    },
}
