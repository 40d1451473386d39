//! The units of a heap are the rows of a plan: laws of evaluation, of fills, of parts that fall due, and of walks.
//!
//! The rules stand in `docs/DEFINITIONS.md`, "The match".
#![tactic(auto)]

mod channels;
mod evaluates;
mod fills;
mod reveals;
mod walks;

pub use channels::channel_laws;
pub use evaluates::evaluation_laws;
pub use fills::fill_laws;
pub use reveals::{keep_law, reveal_law};
pub use walks::walk_law;
