//! A counter and three tables of keys that workers share without a lock.
//!
//! A worker steps with a `Pass`. Each step is one atomic step of the table and one event of the pure
//! machine of `bk_core`, whose rule holds between any two steps.
#![tactic(auto)]

mod calls;
mod laws;
mod make;
mod rules;
mod shares;
#[cfg(test)]
mod tests;

pub use laws::each_step_is_an_event;
pub use shares::{Pass, Share};
