//! When the sound of an expression is heard: its rate, start, length and stop, without a sample.
//!
//! The rules stand in `docs/DEFINITIONS.md`, "Sounds", "The strict meaning" and "Timing".
#![tactic(auto)]

mod entry;
mod find;
mod found;
mod leaves;
mod names;
mod rules;

pub use entry::{channel_timings, timing};
pub use leaves::{
    cue_timing, envelope_end, leaf_time, plain_timing, rest_timing, sustained_timing,
};
pub use rules::{
    channel_timing, cued_timing, leaf_timing, mix_timing, pair_timing, placed_timing,
    product_timing, resampled_timing, spanning, sum_timing,
};
