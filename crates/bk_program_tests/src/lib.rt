//! Tests of the program's call: its rows over sources and sinks in memory, refusals and their lines, faults.
//!
//! Tests of the larger crates stand in crates of their own, so that no crate is proved a second time for its tests.
#![tactic(auto)]

#[cfg(test)]
mod program;
