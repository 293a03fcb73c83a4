//! The code of placed functions, for any machine that says what its code is made of.
#![tactic(auto)]

mod blocks;
mod layout;
mod lines;
mod machine;
mod pieces;
mod table;
mod written;

pub use bk_fixup::Branch;
pub use bk_func::Memory;
pub use bk_piece::{Handle, Patch, Piece};
pub use blocks::{Frame, Spot};
pub use lines::{Line, opening};
pub use machine::Machine;
pub use pieces::emit;
pub use table::{Entry, Regs};
