//! Units that compute sounds a block at a time, over a pool of fixed size.
//!
//! A unit stands for one sound. It computes its samples in blocks, when it is asked to, from the
//! blocks of the units that it reads. A block is kept as long as somebody has still to read it. The
//! rules stand in `docs/DEFINITIONS.md`, "Blocks" and "The heap".
#![tactic(auto)]

mod adding;
mod attaching;
mod blocks;
mod filling;
mod heap;
mod kinds;
mod make;
mod mixing;
mod revealing;
mod settling;
mod sharing;
mod sound;
mod table;
mod task;
mod wants;
mod work;

pub use heap::{FillFault, Heap, UnitId, Wanted};
pub use make::Make;
pub use ny_filters::Filter;
pub use ny_kernels::Op;
pub use ny_units::{Knot, Leaf};
pub use sound::Sound;
