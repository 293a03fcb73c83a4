//! Tests of the work on one function, between its text and its code: rules applied, orders of blocks and values, what
//! is live, calls in words, code.
//! Worked rows and small functions, over the public calls.
//!
//! Tests of the larger crates stand in crates of their own, so that no crate is proved a second time for its tests.
#![tactic(auto)]

#[cfg(test)]
mod arm_emit;
#[cfg(test)]
mod calls;
#[cfg(test)]
mod dec64;
#[cfg(test)]
mod emit;
#[cfg(test)]
mod graph;
#[cfg(test)]
mod link;
#[cfg(test)]
mod live;
#[cfg(test)]
mod rewrite;
#[cfg(test)]
mod rules_arm;
#[cfg(test)]
mod rules_dec64;
#[cfg(test)]
mod rules_rv;
#[cfg(test)]
mod sched;
