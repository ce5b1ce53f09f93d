//! Tests of the crates that read bytes, words and the world: numbers, abbreviations, sections and
//! relocations of objects, strings of BTF, the words of a command line, and worlds in memory and of
//! the host.
#![tactic(auto)]

#[cfg(test)]
mod abbreviation_tests;
#[cfg(test)]
mod number_tests;
#[cfg(test)]
mod objects;
#[cfg(test)]
mod relocation_tests;
#[cfg(test)]
mod section_tests;
#[cfg(test)]
mod string_tests;
#[cfg(test)]
mod text_tests;
#[cfg(test)]
mod word_tests;
#[cfg(test)]
mod world_tests;
