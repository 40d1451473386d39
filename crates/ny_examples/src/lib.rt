//! Worked examples: small programs and what they give, computed from the definitions alone.
//!
//! Each function does nothing; its clauses are the examples. Samples and numbers are in millionths, times in ticks.
//! What the definitions say stands in `docs/DEFINITIONS.md`.
#![tactic(auto)]

mod maps;
mod programs;
mod sequences;
mod sounds;

pub use maps::{environments, map_values, times};
pub use programs::{
    channels, choices, constants, control_leaves, cues, filters, noises, operations, waves,
};
pub use sequences::{cues_follow, repeats, stops, under_a_warp};
pub use sounds::{formulas, mixed, moved, periods};
