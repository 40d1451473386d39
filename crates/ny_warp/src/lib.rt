//! The warp from local to global time, and the environment that a sound expression is evaluated in.
//!
//! The rules stand in `docs/DEFINITIONS.md`, "The warp" and "The environment".
#![tactic(auto)]

mod env;
mod map;
mod step;

pub use env::Env;
pub use map::{Map, MapFault, Point};
pub use step::Step;
