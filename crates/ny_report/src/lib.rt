//! The lines that a command prints, each as its bytes.
//!
//! Their forms stand in `docs/DEFINITIONS.md`, "Lines".
#![tactic(auto)]

mod full;
mod pull;
mod refusal;
mod rows;
mod sums;

pub use full::{FullLine, full_line};
pub use pull::pull_line;
pub use refusal::refusal_line;
pub use rows::{other_lines, pull_lines};
pub use sums::{peak_line, sum_lines};
