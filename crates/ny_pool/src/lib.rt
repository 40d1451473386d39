//! Storage that takes no memory after it was opened or reserved: a pool of
//! blocks of one length, and numbered slots for values of any type.
//!
//! A caller sees a [`Pool`] as what each of its blocks holds, and [`Slots`] as
//! what each slot holds; nothing is held by a free block or a vacant slot. How
//! they lie in memory is private, and no clause depends on it.
#![tactic(auto)]

mod pool;
mod slots;

pub use pool::{BlockId, Pool};
pub use slots::{SlotId, Slots};
