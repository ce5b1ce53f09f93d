//! The types and the functions of one unit, by one walk: its types as `c_types` has them, and its
//! functions with their prototypes (DWARF 5, section 3.3), as BTF has them.
//!
//! An entry that takes its name from another one (inlined code) is no function: the other one
//! counts.
#![tactic(auto)]

pub mod entries;
pub mod laws;
mod shared;
pub mod unit;
mod walking;

pub use entries::{FuncEntries, FuncEntry, UnitEntries};
pub use unit::entries_of_unit_with;
