//! Wave tables: one period of a sound, by formula.
//!
//! The rules stand in `docs/DEFINITIONS.md`, "Leaves".
#![tactic(auto)]

mod wave;

pub use wave::{Wave, Waves};
