// Families of shifts, and the rotation.
ghost use Rattle.std.specs.Prelude.{◌≡◌, IfOk};
ghost use Rattle.bk_rules_dec64.specs.Families.{long_count, short_count, left_over, beyond, left, near_right, right, right_signed, below_64, rotate};

use crate::trees::{constant_at, high, low, pair, plain, shift, word};
use bk_ops::Family;
use bk_rule::make::{make, node, op, rule};
use bk_rule::{Build, Expr, Pattern, Rule};
use std::alloc::{AllocError, Global};

/// `(fwx64 x y) => (fwx32 x (Or32 (Zeromask H y) L y))`: a count with a bit in its high half is 2^32 - 1.
pub(crate) fn long_count(alloc: Global, f: Family, w: u8) -> Result<Rule, AllocError>
    ensures { IfOk result (λ r. r ≡ long_count f w) }
{
    let left = node(alloc, op(f, w, 64), [Pattern::Var(0), Pattern::Var(1)])?;
    let mask = plain(alloc, Family::Zeromask, high(alloc, 1)?)?;
    let count = word(alloc, Family::Or, mask, low(alloc, 1)?)?;
    Ok(rule(alloc, left, shift(alloc, f, w, Build::Var(0), count)?))
}

/// `(f64xw x y) => (f64x32 x (ZeroExtwto32 y))`.
pub(crate) fn short_count(alloc: Global, f: Family, w: u8) -> Result<Rule, AllocError>
    ensures { IfOk result (λ r. r ≡ short_count f w) }
{
    let left = node(alloc, op(f, 64, w), [Pattern::Var(0), Pattern::Var(1)])?;
    let count = make(alloc, op(Family::ZeroExt, w, 32), [Build::Var(1)])?;
    Ok(rule(alloc, left, shift(alloc, f, 64, Build::Var(0), count)?))
}

/// `(Sub32 (Const32 [32]) s)`: the shift that brings one half's bits into the other.
fn left_over(alloc: Global) -> Result<Build, AllocError>
    ensures { IfOk result (λ t. t ≡ left_over) }
{
    let bits = constant_at(alloc, Expr::Number(32))?;
    word(alloc, Family::Sub, bits, Build::Var(1))
}

/// `(Sub32 s (Const32 [32]))`: the shift of one half within the other, where s is 32 or more.
fn beyond(alloc: Global) -> Result<Build, AllocError>
    ensures { IfOk result (λ t. t ≡ beyond) }
{
    let bits = constant_at(alloc, Expr::Number(32))?;
    word(alloc, Family::Sub, Build::Var(1), bits)
}

/// `(Lsh64x32 x s) => (Int64Make (Or32 (Or32 (Lsh32x32 H x s) (Rsh32Ux32 L x (Sub32 (Const32 [32]) s)))
/// (Lsh32x32 L x (Sub32 s (Const32 [32])))) (Lsh32x32 L x s))`.
pub(crate) fn left(alloc: Global) -> Result<Rule, AllocError>
    ensures { IfOk result (λ r. r ≡ left) }
{
    let args = [Pattern::Var(0), Pattern::Var(1)];
    let tree = node(alloc, op(Family::Lsh, 64, 32), args)?;
    let own = shift(alloc, Family::Lsh, 32, high(alloc, 0)?, Build::Var(1))?;
    let carried = shift(alloc, Family::RshU, 32, low(alloc, 0)?, left_over(alloc)?)?;
    let far = shift(alloc, Family::Lsh, 32, low(alloc, 0)?, beyond(alloc)?)?;
    let near = word(alloc, Family::Or, own, carried)?;
    let upper = word(alloc, Family::Or, near, far)?;
    let lower = shift(alloc, Family::Lsh, 32, low(alloc, 0)?, Build::Var(1))?;
    Ok(rule(alloc, tree, pair(alloc, upper, lower)?))
}

/// The low half of a shift right as far as it does not reach beyond the high half:
/// `(Or32 (Rsh32Ux32 L x s) (Lsh32x32 H x (Sub32 (Const32 [32]) s)))`.
fn near_right(alloc: Global) -> Result<Build, AllocError>
    ensures { IfOk result (λ t. t ≡ near_right) }
{
    let own = shift(alloc, Family::RshU, 32, low(alloc, 0)?, Build::Var(1))?;
    let carried = shift(alloc, Family::Lsh, 32, high(alloc, 0)?, left_over(alloc)?)?;
    word(alloc, Family::Or, own, carried)
}

/// `(Rsh64Ux32 x s) => (Int64Make (Rsh32Ux32 H x s) (Or32 (Or32 (Rsh32Ux32 L x s)
/// (Lsh32x32 H x (Sub32 (Const32 [32]) s))) (Rsh32Ux32 H x (Sub32 s (Const32 [32])))))`.
pub(crate) fn right(alloc: Global) -> Result<Rule, AllocError>
    ensures { IfOk result (λ r. r ≡ right) }
{
    let args = [Pattern::Var(0), Pattern::Var(1)];
    let tree = node(alloc, op(Family::RshU, 64, 32), args)?;
    let upper = shift(alloc, Family::RshU, 32, high(alloc, 0)?, Build::Var(1))?;
    let far = shift(alloc, Family::RshU, 32, high(alloc, 0)?, beyond(alloc)?)?;
    let lower = word(alloc, Family::Or, near_right(alloc)?, far)?;
    Ok(rule(alloc, tree, pair(alloc, upper, lower)?))
}

/// `(Rsh64x32 x s) => (Int64Make (Rsh32x32 H x s) (Or32 (Or32 (Rsh32Ux32 L x s)
/// (Lsh32x32 H x (Sub32 (Const32 [32]) s))) (And32 (Rsh32x32 H x (Sub32 s (Const32 [32])))
/// (Zeromask (Rsh32Ux32 s (Const32 [5]))))))`.
pub(crate) fn right_signed(alloc: Global) -> Result<Rule, AllocError>
    ensures { IfOk result (λ r. r ≡ right_signed) }
{
    let args = [Pattern::Var(0), Pattern::Var(1)];
    let tree = node(alloc, op(Family::Rsh, 64, 32), args)?;
    let upper = shift(alloc, Family::Rsh, 32, high(alloc, 0)?, Build::Var(1))?;
    let far = shift(alloc, Family::Rsh, 32, high(alloc, 0)?, beyond(alloc)?)?;
    let five = constant_at(alloc, Expr::Number(5))?;
    let above = shift(alloc, Family::RshU, 32, Build::Var(1), five)?;
    let mask = plain(alloc, Family::Zeromask, above)?;
    let masked = word(alloc, Family::And, far, mask)?;
    let lower = word(alloc, Family::Or, near_right(alloc)?, masked)?;
    Ok(rule(alloc, tree, pair(alloc, upper, lower)?))
}

/// `(And32 x (Const32 [63]))`.
fn below_64(alloc: Global, x: Build) -> Result<Build, AllocError>
    ensures { IfOk result (λ t. t ≡ below_64 x) }
{
    let mask = constant_at(alloc, Expr::Number(63))?;
    word(alloc, Family::And, x, mask)
}

/// `(RotateLeft64 x k) => (Or64 (Lsh64x32 x (And32 k (Const32 [63]))) (Rsh64Ux32 x (And32 (Neg32 k) (Const32 [63]))))`.
pub(crate) fn rotate(alloc: Global) -> Result<Rule, AllocError>
    ensures { IfOk result (λ r. r ≡ rotate) }
{
    let args = [Pattern::Var(0), Pattern::Var(1)];
    let tree = node(alloc, op(Family::RotateLeft, 64, 0), args)?;
    let up = below_64(alloc, Build::Var(1))?;
    let left = shift(alloc, Family::Lsh, 64, Build::Var(0), up)?;
    let turned = make(alloc, op(Family::Neg, 32, 0), [Build::Var(1)])?;
    let down = below_64(alloc, turned)?;
    let right = shift(alloc, Family::RshU, 64, Build::Var(0), down)?;
    Ok(rule(
        alloc,
        tree,
        make(alloc, op(Family::Or, 64, 0), [left, right])?,
    ))
}
