//! What the functions of a package mean: an evaluator of values in SSA form.
#![tactic(auto)]

mod arrange;
mod evaluate;
mod fit;
mod machine;
mod memory;
mod number;
mod numbering;
mod prepare;
mod ready;
mod role;
mod states;
mod step;
mod symbols;
mod turn;
mod words;

pub use evaluate::eval;

/// How a run ends.
#[derive(Drop, Debug)]
pub enum Outcome {
    /// The function returned these results, each below 2 to the width of its type.
    Returned(Vec<u64>),
    /// A check failed: 1 at a nil pointer, 2 at bounds, 3 at a division, 4 at a shift, 5 where a
    /// frame exceeds the stack left, 6 at an exit.
    Trapped(u8),
    /// The bound of entered blocks is spent, and one more would be entered.
    Going,
    /// A load or a store at this address lies outside the data window.
    Wild(u64),
}

/// Why a function was not run.
#[derive(Clone, Copy, PartialEq, Eq, Debug)]
pub enum EvalError {
    /// No function has the name.
    NoFunction,
    /// The count of the arguments, or the range of one, does not fit the signature.
    BadArgs,
    Memory,
}
