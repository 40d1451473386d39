//! The depth and the weight of a text, through calls, counted up to 2^32.
//!
//! The rules stand in `docs/LANGUAGE.md`, "Depth and weight".
#![tactic(auto)]

mod count;
mod depth;
mod weight;

pub use depth::text_depth;
pub use weight::text_weight;
