//! Names that are bound one after another, each looked up by its nearest binding in constant time.
//!
//! The rules stand in `docs/LANGUAGE.md`, "Names".
#![tactic(auto)]

mod key;
mod scope;

pub use key::Key;
pub use scope::Scope;
