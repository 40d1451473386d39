//! From the bytes of a text to its tokens.
//!
//! The rules stand in `docs/LANGUAGE.md`, "Tokens".
#![tactic(auto)]

mod bytes;
mod fault;
mod laws;
mod lexer;
mod word;

pub use fault::{LexFault, LexWhy};
pub use laws::canonical_tokens;
pub use lexer::lex;
pub use ny_syntax::{Mark, Token, TokenKind, Word};
