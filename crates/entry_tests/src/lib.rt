//! Tests of the crates that read the entries of units and their forms, graphs and functions, and of
//! the made input: sections made in bytes, and what is read of them.
#![tactic(auto)]

#[cfg(test)]
mod form_tests;
#[cfg(test)]
mod function_tests;
#[cfg(test)]
mod header_tests;
#[cfg(test)]
mod walk_tests;
