//! The moves of an edge, done one after the other.
#![tactic(auto)]

mod left;
mod moves;
#[cfg(test)]
mod tests;

pub use bk_func::Memory;
pub use moves::sequence;
