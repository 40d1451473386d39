//! Pieces drawn from a number: a text of any size to try an engine and a pool with.
//!
//! The rules stand in `docs/DEFINITIONS.md`, "Drawn pieces".
#![tactic(auto)]

mod draws;
mod examples;
mod note;
mod piece;
#[cfg(test)]
mod tests;

pub use examples::two_notes;
pub use piece::generate;
