//! Inner loops: one operation on all samples of a block.
//!
//! The rules stand in `docs/DEFINITIONS.md`, "Numbers" and "Operations on blocks".
#![tactic(auto)]

mod operation;
mod sides;

pub use operation::Op;
pub use sides::{Side, absolute, binary};
