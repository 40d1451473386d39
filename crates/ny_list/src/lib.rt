//! Lists of blocks that many can read, each at a place of its own, over a pool of fixed size.
//!
//! A list is filled by one owner, block by block. A block of a list is kept as long as a reader stands in it or before
//! it, and given back as soon as none does. The rules stand in `docs/DEFINITIONS.md`, "Block lists".
#![tactic(auto)]

mod chain;
mod cursor;
mod reads;
mod store;
mod table;

pub use cursor::{Cursor, List};
pub use reads::Reads;
pub use store::Store;
