//! The world that a run meets: the files that it loads, what it prints and complains, the files
//! that it stores, and the gate before each unit.
//!
//! `World` is what a run asks for. `MemoryWorld` holds all in memory, tells all of it, and fails
//! exactly where it was asked to. `HostWorld` is the host; its few lines are the trusted edge.
//!
//! - A world tells its content or does not. What a real file, terminal or output holds can't be known
//!   by a proof, so clauses on content hold for worlds that tell it; safety, the counts of faults and
//!   the causes of statuses hold for both.
//! - A world in memory at a stop for which there is no memory answers `Memory`, not `Failed`. Its
//!   complaints end at 65,536 bytes: what passes them fails.
//! - `Gate::enter` promises nothing: it is a place to wait at, so that a test can order workers.
//! - Counts stand still at 2^64 - 1. A count rose where it became greater in a call, or stands at
//!   that number.
//!
//! The work of a call of `HostWorld` is that of the bytes that are read or written; of `MemoryWorld`
//! that of these, of its files with the bytes of their names, and of its stops.
#![tactic(auto)]

pub mod fault;
pub mod files;
pub mod gate;
pub mod host;
pub mod memory;
mod shared;
pub mod world;

pub use fault::{Failed, LoadFault, OutFault};
pub use files::{Files, HeldFile, Stop, Stops};
pub use gate::{Gate, OpenGate};
pub use host::HostWorld;
pub use memory::{Faults, MemoryWorld};
pub use world::World;
