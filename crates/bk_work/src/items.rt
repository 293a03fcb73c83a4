// What workers make.
use crate::refusals::Cause;
use bk_func::Func;
use bk_piece::{Key, Piece};

/// What became of a function in a round.
#[derive(Drop)]
pub enum Done {
    /// It is lowered, and these are its keys, with repeats.
    Lowered(Func, Vec<Key>),
    /// Its code is made.
    Ready(Piece),
    Refused(Cause),
}

/// What a worker made in a round: the number of each of its claims, the place of the claim's function in the package, and
/// what became of it.
#[derive(Drop)]
pub struct Part {
    pub items: Vec<(u64, u32, Done)>,
}
