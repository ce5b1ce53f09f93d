//! The table of a partition: how the types of files, merged by classes, become the types of a BTF
//! table, beside the types of a base.
//!
//! A base is a table of types that the files' types may be of one class with: a module's types and
//! those of the kernel that it is loaded into. Its types come first in the graph, as base nodes, so
//! that a class with base nodes has a base node as its first node, and keeps its id.
//!
//! A split table without own strings has an empty string section; a table without a base has the
//! empty string.
//!
//! Besides what they call, its calls take work that is linear in the nodes and what they hold.
#![tactic(auto)]

pub mod fault;
pub mod graph;
pub mod laws;
mod lengths;
mod names;
mod places;
mod shared;
mod sources;
pub mod table;
mod types;

pub use fault::TableFault;
pub use graph::{graph_of, with_base, with_base_packed};
pub use table::build;
