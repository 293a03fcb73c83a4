// Which branches are decided, which blocks are reached, and which values yield to others.
use crate::graph::Graph;
use crate::roots::Roots;

/// What the rules have made of a function so far.
#[derive(Drop)]
pub(crate) struct Settled<'a> {
    pub(crate) graph: &'a Graph<'a>,
    /// For each block the place of the one successor that it goes to, where it is decided.
    pub(crate) taken: Vec<Option<usize>>,
    /// For each block whether it is reached, as far as is known.
    pub(crate) reached: Vec<bool>,
    /// For each value the place of what it stands for.
    pub(crate) roots: Roots,
}
