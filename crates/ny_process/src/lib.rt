//! The program as a process: from the words that it is started with to its exit code.
#![tactic(auto)]

mod ended;
mod entry;

pub use ended::exit_code;
pub use entry::start;
