//! Evaluation: a program into a heap of units, and the fills that a block needs.
//!
//! An evaluated sound stands for the whole sound of the strict meaning, and computes its samples only
//! when they are wanted. The rules stand in `docs/DEFINITIONS.md`, "Evaluation" and "The engine".
#![tactic(auto)]

mod channels;
mod cue;
mod envelope;
mod expression;
mod filter;
mod frame;
mod laws;
mod leaf;
mod mixing;
mod name;
mod parts;
mod plays;
mod reveal;
mod turn;
mod unit;
mod values;
mod waiting;
mod walk;

pub use channels::eval_channels;
pub use expression::eval;
pub use walk::{DriveFault, drive};
