//! The reading of a tree: each name told by what it stands for, each call of a built-in by its operator,
//! each literal by its value; and the faults that the text shows before any kind is known.
//!
//! The rules stand in `docs/LANGUAGE.md`, "Names" and "Literals".
#![tactic(auto)]

mod builtin;
mod calls;
mod declarations;
mod fault;
mod laws;
mod literals;
mod names;
mod parts;
mod reading;
mod term;
mod word;

pub use builtin::{Arity, Builtin, Operator, Order, Rated, Relation};
pub use declarations::{ReadTree, read_tree};
pub use fault::{CheckWhy, Fault, noted, noted_if};
pub use laws::name_laws;
pub use names::{Called, Names};
pub use parts::Read;
pub use term::{Bound, Declared, NameId, Part, Term};
pub use word::Word;
