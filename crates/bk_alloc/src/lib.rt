//! Values of a function in registers and slots.
#![tactic(auto)]

mod acts;
mod ahead;
mod allocation;
mod edges;
mod homes;
mod outgoing;
mod parts;
mod places;
mod plan;
mod registers;
mod steps;
mod walk;

pub use allocation::{allocate, allocate_by};
pub use bk_func::Memory;
