//! Tests of what stands before the machine: ops, functions, texts, forms, meanings and rules. Tables, worked rows and
//! refusals, over the public calls.
//!
//! Tests of the larger crates stand in crates of their own, so that no crate is proved a second time for its tests.
#![tactic(auto)]

#[cfg(test)]
mod dump;
#[cfg(test)]
mod form;
#[cfg(test)]
mod func;
#[cfg(test)]
mod generic;
#[cfg(test)]
mod mean;
#[cfg(test)]
mod ops;
#[cfg(test)]
mod read;
#[cfg(test)]
mod rule;
#[cfg(test)]
mod rule_text;
#[cfg(test)]
mod texts;
