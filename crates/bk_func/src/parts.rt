// The enums that values, blocks and steps are made of.
use bk_ops::Ty;

/// What stands beside the arguments of a value.
#[derive(Clone, Copy, PartialEq, Eq, Debug)]
pub enum Aux {
    Nothing,
    /// The number of a function's or a variable's name.
    Sym(u32),
    Ty(Ty),
    /// The place of an argument of the function.
    Arg(u32),
}

/// How a block ends.
#[derive(Clone, Copy, PartialEq, Eq, Debug)]
pub enum Kind {
    /// It goes to its one successor.
    Plain,
    /// It goes to the first successor where the control is true, else to the second.
    If,
    /// It goes to the first of two successors.
    First,
    Ret,
    Exit,
}

/// The successor that an `If` is expected to take.
#[derive(Clone, Copy, PartialEq, Eq, Debug)]
pub enum Likely {
    No,
    First,
    Second,
}

/// Where a value is.
#[derive(Clone, Copy, PartialEq, Eq, Debug)]
pub enum Loc {
    Reg(u8),
    Slot(u32),
    /// The word that edge moves use to exchange values.
    Swap,
}
