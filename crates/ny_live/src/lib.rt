//! The life of the blocks: an engine is pulled in turns, and a line is printed after each pull.
//!
//! What is printed stands in `docs/DEFINITIONS.md`, "Lines of pulls".
#![tactic(auto)]

mod fault;
mod turns;

pub use fault::LiveFault;
pub use turns::pull_turns;
