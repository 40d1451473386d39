//! Units: what computes the samples of a sound, slice by slice.
//!
//! The rules stand in `docs/DEFINITIONS.md`, "Leaves" and "Units".
#![tactic(auto)]

mod abs;
mod copy;
mod course;
mod envelope;
mod input;
mod leaves;
mod line;
mod loudness;
mod noise;
mod pair;
mod resample;
mod stretch;
mod unit;
mod voice;
mod waves;

pub use abs::AbsUnit;
pub use copy::CopyUnit;
pub use input::{Input, Source};
pub use leaves::{Knot, Leaf, LeafKind};
pub use pair::PairUnit;
pub use resample::ResampleUnit;
pub use unit::LeafUnit;
