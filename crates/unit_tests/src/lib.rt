//! Tests of the graph of all units and of made inputs: files in bytes, and the units in them.
#![tactic(auto)]

#[cfg(test)]
mod dwarf_gen_tests;
#[cfg(test)]
mod unit_graph_tests;
