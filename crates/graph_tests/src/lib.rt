//! Tests of the crates of graphs and of their classes by rounds: small graphs made by hand.
#![tactic(auto)]

#[cfg(test)]
mod class_refine_tests;
#[cfg(test)]
mod forward_rule_tests;
#[cfg(test)]
mod packed_graph_tests;
#[cfg(test)]
mod rows;
