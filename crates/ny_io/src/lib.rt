//! The outside of the program: files by name and what is printed.
//!
//! [`Host`] is all that the program sees of it. [`RealHost`] is the real files and the standard
//! output; [`MemHost`] holds files in memory and fails at chosen calls, and no call of
//! [`NeverFail`] fails. [`read_all`], [`write_all`] and [`print_all`] work over any host, and say
//! whose count of faults rose where they fail. The rules: docs/DEFINITIONS.md, "The outside".
#![tactic(auto)]

mod host;
mod load;
mod memory;
mod never_fail;
mod real;
mod store;

pub use host::{Failed, Host};
pub use load::{LoadFault, read_all};
pub use memory::{Fails, MemHost};
pub use never_fail::NeverFail;
pub use real::RealHost;
pub use store::{print_all, write_all};
