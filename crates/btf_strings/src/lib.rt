//! The names of a BTF table and their string section (the Linux kernel's BTF documentation, "String
//! Encoding").
//!
//! Work grows linearly: `Strings::new` takes the base's strings once, and `put` and `offset_of` the
//! bytes of their name.
#![tactic(auto)]

pub mod fault;
mod shared;
pub mod strings;

pub use fault::StringsFault;
pub use strings::{LAST_OFFSET, Strings};
