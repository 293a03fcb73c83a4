//! Runs of the meaning of functions, followed on a machine: what it is that a machine follows them, and that it follows all of them
//! where it follows each block. Both machines take it from here.
#![tactic(auto)]

ghost use Rattle.bk_run_laws.specs.Bounds.{BoundsAreSpent};

/// A law: where each step pays for so many blocks, and so many more may be open, a bound of blocks is spent in at least its quotient
/// of steps.
pub fn bounds_are_spent()
    ensures { BoundsAreSpent }
{}
