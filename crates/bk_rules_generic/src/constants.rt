// Constants in trees.
ghost use Rattle.std.specs.Prelude.{◌≡◌, IfOk};
ghost use Rattle.bk_rules_generic.specs.Families.{const, const_at, make_const, truth_at, make_truth};

use bk_ops::Family;
use bk_rule::make::{make_with, node_at, node_with, op};
use bk_rule::{Build, Expr, Pattern};
use std::alloc::{AllocError, Global};

/// `(Constw [c])`, c a variable.
pub(crate) fn constant(alloc: Global, w: u8, c: u32) -> Result<Pattern, AllocError>
    ensures { IfOk result (λ p. p ≡ const w c) }
{
    node_with(alloc, op(Family::Const, w, 0), c, [])
}

/// `(Constw [k])`, k a number.
pub(crate) fn constant_at(alloc: Global, w: u8, k: i64) -> Result<Pattern, AllocError>
    ensures { IfOk result (λ p. p ≡ const_at w k) }
{
    node_at(alloc, op(Family::Const, w, 0), k, [])
}

/// `(Constw [int])` of a right tree.
pub(crate) fn make_constant(alloc: Global, w: u8, int: Expr) -> Result<Build, AllocError>
    ensures { IfOk result (λ t. t ≡ make_const w int) }
{
    make_with(alloc, op(Family::Const, w, 0), int, [])
}

/// `(ConstBool [k])`, k a number.
pub(crate) fn truth_at(alloc: Global, k: i64) -> Result<Pattern, AllocError>
    ensures { IfOk result (λ p. p ≡ truth_at k) }
{
    node_at(alloc, op(Family::ConstBool, 0, 0), k, [])
}

/// `(ConstBool [int])` of a right tree.
pub(crate) fn make_truth(alloc: Global, int: Expr) -> Result<Build, AllocError>
    ensures { IfOk result (λ t. t ≡ make_truth int) }
{
    make_with(alloc, op(Family::ConstBool, 0, 0), int, [])
}
