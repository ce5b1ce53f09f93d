//! Tests of the crates that merge types and functions: small graphs made by hand, and their
//! classes, tables and chosen functions.
#![tactic(auto)]

#[cfg(test)]
mod class_halves_tests;
#[cfg(test)]
mod fitting;
#[cfg(test)]
mod func_merge_tests;
#[cfg(test)]
mod func_types_tests;
#[cfg(test)]
mod functions;
#[cfg(test)]
mod rows;
#[cfg(test)]
mod split_base_tests;
#[cfg(test)]
mod table_tests;
#[cfg(test)]
mod type_signature_tests;
