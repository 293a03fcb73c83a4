//! The callees of a package by their names, found once for all of its functions.
#![tactic(auto)]

mod callees;

pub use callees::Callees;
