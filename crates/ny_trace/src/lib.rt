//! The trace of an evaluation: which calls of a heap evaluate an expression, or all channels that it plays,
//! by family of nodes, and what follows from them.
//!
//! The rules stand in `docs/DEFINITIONS.md`, "The trace of an evaluation".
#![tactic(auto)]

mod laws;
mod plays;
mod reveals;

pub use laws::trace_laws;
pub use plays::plays_laws;
pub use reveals::reveal_laws;
