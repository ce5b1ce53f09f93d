//! Which types of a table are shown, and the whole text of them.
//!
//! A structure or union is shown by its name, and one without a name by the typedefs of it.
//!
//! What was chosen, and why:
//!
//! - **Names are looked up in one map over the table**, so that many names of `-C` don't each go
//!   over all types.
//! - **A structure is laid out once in a run**: its layout is kept by its place, for names that are
//!   given again and for several typedefs of one structure without a name. Its holes of whole bytes
//!   are counted once too, and kept beside the layout with the end of its line for `-s`, so a name
//!   that is given again costs one look-up besides its text or line.
//! - **A name that is given twice is shown twice**, and finds structures and unions of that name
//!   and typedefs of those without one.
#![tactic(auto)]

pub mod by_name;
pub mod choosing;
mod counting;
pub mod fault;
pub mod laws;
pub mod listed;
mod shared;
pub mod showing;

pub use fault::ShowFault;
pub use laws::same_is_shown;
pub use showing::{Style, show};
