//! Families of rewrite rules over machine words, and lists of them line by line.
#![tactic(auto)]

mod accesses;
mod conversions;
mod direct;
mod families;
mod immediates;
mod lines;
mod list;
mod trees;
mod widened;

pub use lines::{Fits, Line, Shape, Widths};
pub use list::put;
