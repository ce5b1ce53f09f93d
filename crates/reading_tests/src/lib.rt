//! Tests of the crates that read units: units in bytes, and their types, graphs and prototypes.
#![tactic(auto)]

#[cfg(test)]
mod c_types_tests;
#[cfg(test)]
mod prototype_tests;
#[cfg(test)]
mod unit_encoder_tests;
