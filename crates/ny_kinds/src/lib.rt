//! The kinds of a text's expressions, taken from its global values and from what it plays, through calls; and the least place
//! of an operator whose operands have kinds that it refuses.
//!
//! The rules stand in `docs/LANGUAGE.md`, "Kinds".
#![tactic(auto)]

mod judging;
mod kind;
mod known;
mod laws;
mod resolve;
mod row;
mod whole;

pub use kind::{Found, Kind, Unjudged};
pub use laws::refusal_laws;
pub use whole::{channels, text_kind};
