//! The code of placed functions for riscv64.
#![tactic(auto)]

mod blocks;
mod lines;
mod machine;
mod units;
mod words;
mod written;

pub use bk_emit::{Handle, Memory, Patch, Piece};
pub use machine::{Riscv64, emit};
