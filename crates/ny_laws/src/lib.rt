//! Laws of accepted programs: what acceptance hands on to evaluation.
//!
//! The definitions are told in `docs/DEFINITIONS.md`.
#![tactic(auto)]

mod accepted;
mod kept;
mod kinds;
mod measures;
mod table;

pub use accepted::{meaning_law, whole_law};
pub use kept::kept_name_laws;
pub use kinds::kinds_law;
pub use measures::measure_law;
pub use table::table_law;
