//! What the lines of a text declare so far.
use crate::read::draft::{FuncDraft, Stage};
use bk_func::Var;
use indexmap::IndexSet;

/// What the lines so far declare.
#[derive(Drop)]
pub struct Reader<'a> {
    /// The names of functions and variables, in text order.
    pub names: IndexSet<&'a str>,
    /// The functions that are whole.
    pub funcs: Vec<FuncDraft<'a>>,
    pub vars: Vec<Var>,
    /// The end of the data window, a multiple of 8.
    pub window: u64,
    pub stage: Stage<'a>,
}
