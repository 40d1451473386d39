//! Sounds in hand: what the calls of a heap do for whoever evaluates over it.
//!
//! Each call is one step: a unit is made, a sound is shared, placed or given up. A run of steps leaves
//! some sounds in hand, and each of them is a whole sound of the strict meaning. The rules stand in
//! `docs/DEFINITIONS.md`, "Evaluation".
#![tactic(auto)]

mod branch;
mod laws;

pub use branch::Branch;
pub use laws::{hand_laws, meaning_laws};
