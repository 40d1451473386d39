//! The words of the language: its tokens, the trees that they make, and the one canonical text of a tree.
//!
//! The rules stand in `docs/LANGUAGE.md`.
#![tactic(auto)]

mod laws;
mod lines;
mod spelled;
mod token;
mod tree;
mod written;

pub use laws::{canonical_laws, size_laws};
pub use lines::canonical;
pub use token::{Mark, Token, TokenKind, Word};
pub use tree::{BinOp, Bind, Decl, Expr, Form, Name, Param, PreOp, Tree};
