//! A run of the program over any host: words, a text, a file (`docs/ARCHITECTURE.md`).
#![tactic(auto)]

mod ends;
mod entry;
mod file;
mod frames;
mod names;
mod play;
mod reading;
mod rounds;
mod song;
mod status;
mod text;
mod unfailing;

pub use entry::run;
pub use status::Status;
pub use unfailing::run_unfailing;
