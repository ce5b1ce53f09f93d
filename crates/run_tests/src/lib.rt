//! Tests of the program as one call, over a world in memory.
#![tactic(auto)]

#[cfg(test)]
mod gates;
#[cfg(test)]
mod pahole_run_tests;
