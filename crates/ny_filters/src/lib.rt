//! Filters, slice by slice: each goes on from what it keeps of the samples before.
//!
//! The rules stand in `docs/DEFINITIONS.md`, "Filters" and "Units".
#![tactic(auto)]

mod biquad;
mod comb;
mod exact;
mod filter;
mod lifted;
mod one_pole;
mod recent;
mod share;
mod stage;
mod unit;
mod weighing;
mod width;

pub use filter::Filter;
pub use unit::FilterUnit;
