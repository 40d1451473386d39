//! The bytes of a WAV file: its header, and its samples of 16 bits.
//!
//! The rules stand in `docs/DEFINITIONS.md`, "The WAV file".
#![tactic(auto)]

mod file_header;
mod sample_bytes;

pub use file_header::header;
pub use sample_bytes::{frame_bytes, pcm16};
