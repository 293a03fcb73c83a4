//! The order of values inside their block.
#![tactic(auto)]

pub mod laws;
mod listed;
mod named;
mod order;
mod own;
mod places;
mod score;
mod turns;

pub use bk_func::Memory;
pub use listed::schedule;
pub use own::has_own_numbers;
