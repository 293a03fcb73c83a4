//! Tests of instructions, simulators and objects: tables of other tools' words, rows of the manuals, damage.
//!
//! Tests of the larger crates stand in crates of their own, so that no crate is proved a second time for its tests.
#![tactic(auto)]

#[cfg(test)]
mod arm_isa;
#[cfg(test)]
mod arm_sim;
#[cfg(test)]
mod elf;
#[cfg(test)]
mod rv_isa;
#[cfg(test)]
mod rv_sim;
