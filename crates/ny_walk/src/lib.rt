//! The walk by which a unit gets one block more: what it lacks is filled before it, and the parts of a
//! sequence that fall due are revealed after each fill. Here are its steps as a relation, and what follows.
//!
//! The rules stand in `docs/DEFINITIONS.md`, "The walk".
#![tactic(auto)]

mod fits;
mod laws;

pub use fits::fit_laws;
pub use laws::walk_laws;
