//! What a piece of code leaves open until all pieces lie in place: keys, sizes of branches and patches.
#![tactic(auto)]

mod keys;
mod laws;
mod patches;
mod sizes;

pub use bk_func::Memory;
pub use bk_piece::{Handle, Key, Patch, Piece};
pub use keys::{key_of, keys_of};
pub use laws::keys_are_keys;
pub use patches::patch_words;
pub use sizes::{Branch, branch_sizes};
