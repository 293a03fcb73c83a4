//! Values, blocks, functions and packages, and their edits.
#![tactic(auto)]

mod construct;
mod copy;
mod edits;
mod form;
mod func;
mod limits;
mod parts;
mod placed;
mod signature;
mod symbols;

pub use bk_ops::Memory;
pub use construct::first_construct;
pub use copy::{copy_func, copy_sig};
pub use edits::{
    add_value, block_place, greatest_block, greatest_value, replace, split_edge, uses,
};
pub use form::{FormKind, Place};
pub use func::{Block, Func, Package, Sig, Value, Var};
pub use limits::{
    MOST_BLOCKS, MOST_FRAME, MOST_FUNCTIONS, MOST_IN_SIGNATURE, MOST_TEXT, MOST_VALUES,
    MOST_VALUES_MADE, MOST_VARIABLES, MOST_WINDOW,
};
pub use parts::{Aux, Kind, Likely, Loc};
pub use placed::{Placed, PlacedBlock, Step};
pub use signature::{count_words, fit, register_words, words_of_type};
pub use symbols::{
    PANIC_DIVIDE, PANIC_SHIFT, TRAP_BOUNDS, TRAP_DIVIDE, TRAP_EXIT, TRAP_NIL, TRAP_SHIFT,
    TRAP_STACK,
};

/// Why a function was not rewritten.
#[derive(Clone, Copy, PartialEq, Eq, Debug)]
pub enum RewriteError {
    /// Each of the first n passes changed something, n being the limit.
    Passes { n: u64 },
    /// The count of values passed the limit.
    Grown { values: u64 },
    Memory,
}
