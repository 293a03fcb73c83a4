//! The code of placed functions for arm, in A32 instructions.
#![tactic(auto)]

mod blocks;
mod insts;
mod lines;
mod machine;
mod units;
mod words;
mod written;

pub use bk_emit::{Handle, Memory, Patch, Piece};
pub use machine::{Arm, emit};
