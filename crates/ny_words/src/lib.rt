//! The words of a command, as what they ask for.
//!
//! The rules stand in `docs/LANGUAGE.md`, "The command line".
#![tactic(auto)]

mod arguments;
mod command;
mod fault;
mod found;
mod read;
mod rows;
mod values;

pub use command::{Command, Render, Task};
pub use fault::WordsFault;
pub use read::read_command;
pub use rows::{asked_for, no_command};
