//! What the crates of tests need of files made by hand: numbers, headers of units and ELF files of
//! a few sections, in bytes; the units of files; gates that see in which order units are read; and
//! names and references as text.
#![tactic(auto)]

pub mod bytes;
pub mod gates;
pub mod texts;
pub mod units;
