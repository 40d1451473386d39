//! Acceptance: whether a text has a meaning, and if so its table of nodes.
//!
//! The rules stand in `docs/LANGUAGE.md`.
#![tactic(auto)]

mod accept;
pub mod changes;
mod draft;
mod family;
mod form;
mod free;
mod laws;
mod node;
pub mod operations;
mod program;
mod scalar;
mod table_laws;
mod value;
mod write;

pub use accept::{CheckFault, check, check_tree};
pub use laws::acceptance_laws;
pub use node::{Change, Effect, ExprId, Function, FunctionId, Generator, Node, Transformation};
pub use ny_kernels::Op;
pub use ny_resolve::{CheckWhy, NameId, Order, Rated, Relation};
pub use program::Program;
pub use value::{Binds, Scalar, Value};
