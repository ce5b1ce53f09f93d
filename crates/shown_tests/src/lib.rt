//! Tests of the crates that show types: small tables made from rows, long ones, and their texts.
#![tactic(auto)]

#[cfg(test)]
mod fitting;
#[cfg(test)]
mod layout_printer_tests;
#[cfg(test)]
mod rows;
#[cfg(test)]
mod shown_types_tests;
