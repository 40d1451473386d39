use ny_filters::Filter;
use ny_kernels::Op;
use ny_num::Sample;
use ny_units::Leaf;

/// What a unit computes, and of how many sounds.
#[derive(Drop)]
pub enum Make {
    /// Of none.
    Leaf(Leaf),
    /// Of two sounds, or of one and a sample: a given sample stands in place of that sound.
    Pair(Op, Option<Sample>, Option<Sample>),
    /// Of one: its samples without their signs.
    Abs,
    /// Of one: it, brought to another rate.
    Resample,
    /// Of one: what the filter gives for it.
    Filter(Filter),
}
