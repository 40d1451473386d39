//! Mixes: parts that are heard together, clamped at each step, and parts that wait until they are due.
//!
//! The rules stand in `docs/DEFINITIONS.md`, "Mixes".
#![tactic(auto)]

mod adding;
mod mix;
mod part;

pub use mix::Mix;
