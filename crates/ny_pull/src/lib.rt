//! The engine: the channels of a program, each a block at a time, over a pool of fixed size.
//!
//! A pull computes no more than the next block of the channel needs. The rules stand in
//! `docs/DEFINITIONS.md`, "Blocks" and "The engine".
#![tactic(auto)]

mod engine;
mod fault;
mod laws;

pub use engine::Engine;
pub use fault::PullFault;
