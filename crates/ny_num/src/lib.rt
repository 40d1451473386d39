//! Numbers, samples, rates and times, each a whole number kept in its range.
//!
//! The rules stand in `docs/DEFINITIONS.md`, "Numbers" and "Time".
#![tactic(auto)]

mod decimal;
mod fix;
mod laws;
pub mod pitch;
mod rate;
mod sample;
mod ticks;
mod timing;

pub use decimal::{NumFault, push_decimal, read_decimal, text_reads_back, write_decimal};
pub use fix::Fix;
pub use laws::{envelope_law, filter_laws};
pub use rate::Rate;
pub use sample::Sample;
pub use ticks::{Ticks, index, tick_of_index, ticks_of};
pub use timing::Timing;
