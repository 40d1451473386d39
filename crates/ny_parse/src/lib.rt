//! The parser: the tree of a text's tokens, or the place of the first token that no accepted text goes on with.
//!
//! It takes each token once and keeps what has begun and is not finished on a stack of its own, so that
//! no text makes it recurse. The grammar stands in `docs/LANGUAGE.md`, "Grammar".
#![tactic(auto)]

mod closing;
mod declarations;
mod fault;
mod frame;
mod laws;
mod levels;
mod nodes;
mod operands;
mod parser;
mod reader;
mod stack;
mod state;

pub use fault::ParseFault;
pub use laws::{canonical_law, stop_laws};
pub use parser::parse;
