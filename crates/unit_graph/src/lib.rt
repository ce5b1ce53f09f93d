//! The graph of the types of all units: its definition, and the search for the node at an offset
//! of a file.
//!
//! - A unit is linked as soon as it is read, if no two units share offsets of a file. References
//!   out of it are linked at the end. If a file is given twice under one number, all are, and the
//!   last node at an offset counts.
//! - A thread keeps tables of abbreviations of the last file, within the size of `.debug_abbrev`
//!   (`KeptTables`). Tables of a file that don't overlap are read at most twice each, until a unit
//!   of another file comes.
#![tactic(auto)]

pub mod laws;
pub mod links;
pub mod pieces;
pub mod places;
mod shared;
pub mod sources;
pub mod tables;
pub mod tags;

pub use links::{Out, link_targets};
pub use pieces::push_moved_rows;
pub use places::{NodePlace, NodePlaces};
pub use sources::UnitAt;
pub use tables::{KeptTable, KeptTables, types_by};
pub use tags::find_tag;
