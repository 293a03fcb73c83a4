// What is known of a function before a run.
use crate::symbols::Callee;
use bk_ops::{Family, Ty};
use smallvec::SmallVec;

/// A function made ready to run. A call of it has a number for each value, by places, and one more that
/// stays 0.
#[derive(Drop)]
pub(crate) struct Ready {
    pub(crate) values: Vec<ReadyValue>,
    /// What is kept of the results, for each value that is a call.
    pub(crate) kept: Vec<Vec<Kept>>,
    pub(crate) blocks: Vec<ReadyBlock>,
}

/// What is known of a value.
#[derive(Drop)]
pub(crate) struct ReadyValue {
    /// The places of its arguments.
    pub(crate) args: SmallVec<usize, 4>,
    /// The address of the variable that it names.
    pub(crate) address: u64,
    /// The function that it calls.
    pub(crate) callee: Callee,
    /// The call is on words: those of its arguments, then those that were written.
    pub(crate) on_words: bool,
    /// Its arguments without memory are the results of the function.
    pub(crate) gives_results: bool,
}

/// A value that keeps a result of a call.
#[derive(Clone, Copy)]
pub(crate) struct Kept {
    /// The number beside its op: which result or word it is.
    pub(crate) index: u64,
    /// The place of its number.
    pub(crate) place: usize,
    pub(crate) family: Family,
    pub(crate) ty: Ty,
}

/// What is known of a block.
#[derive(Drop)]
pub(crate) struct ReadyBlock {
    /// The place of its first value.
    pub(crate) first: usize,
    /// Its values in the order in which they are done, by their places in the block.
    pub(crate) order: Vec<usize>,
    pub(crate) phis: Vec<usize>,
    /// The place of the control.
    pub(crate) control: usize,
    /// The edges to its first and its second successor.
    pub(crate) edge: Edge,
    pub(crate) other: Edge,
}

/// An edge to a block: the block's place, if it is there, and the edge's place among its predecessors.
#[derive(Clone, Copy)]
pub(crate) struct Edge {
    pub(crate) block: Option<usize>,
    pub(crate) place: usize,
}
