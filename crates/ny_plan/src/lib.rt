//! The plan of a program: the units that its strict meaning is made of, how many of their blocks are filled and live after some
//! pulls, and what a run tells of them. It is laws and worked examples of definitions: no code runs by it.
#![tactic(auto)]

mod laws;
mod sequences;
mod worked;

pub use laws::{live_law, need_law, order_law, plan_law};
pub use sequences::{captured_parts, names_passed_over, overlapping_parts, parts_of_their_own};
pub use worked::{constants, echoes, envelopes, products, two_channels};
