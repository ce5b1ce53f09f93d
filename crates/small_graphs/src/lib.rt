//! What the crates of tests need of small graphs made by hand: types in rows, what calls ask of a
//! graph, tested, a ring, and whether types, classes and references are as they are wanted.
#![tactic(auto)]

pub mod fitting;
pub mod packed;
pub mod ring;
pub mod rows;
pub mod same;
