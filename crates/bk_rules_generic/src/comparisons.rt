// Families of comparisons and truth values.
ghost use Rattle.std.specs.Prelude.{◌≡◌, IfOk};
ghost use Rattle.bk_rules_generic.specs.Families.{compare, compare_same, not_const, not_of, not_compare, not_order, truth_unit, truth_absorb};

use crate::constants::{constant, make_truth, truth_at};
use bk_ops::Family;
use bk_rule::make::{call, make, node, node_with, op, rule};
use bk_rule::{Build, Expr, Fun, Pattern, Rule};
use std::alloc::{AllocError, Global};

/// `(f (Const [c]) (Const [d])) => (ConstBool [c g d])`.
pub(crate) fn compare(alloc: Global, f: Family, g: Fun, w: u8) -> Result<Rule, AllocError>
    ensures { IfOk result (λ r. r ≡ compare f g w) }
{
    let args = [constant(alloc, w, 0)?, constant(alloc, w, 1)?];
    let left = node(alloc, op(f, w, 0), args)?;
    let int = call(alloc, g, [Expr::Var(0), Expr::Var(1)])?;
    Ok(rule(alloc, left, make_truth(alloc, int)?))
}

/// `(f x x) => (ConstBool [k])`.
pub(crate) fn compare_same(alloc: Global, f: Family, k: i64, w: u8) -> Result<Rule, AllocError>
    ensures { IfOk result (λ r. r ≡ compare_same f k w) }
{
    let left = node(alloc, op(f, w, 0), [Pattern::Var(0), Pattern::Var(0)])?;
    Ok(rule(alloc, left, make_truth(alloc, Expr::Number(k))?))
}

/// `(Not (ConstBool [c])) => (ConstBool [1-c])`.
pub(crate) fn not_const(alloc: Global) -> Result<Rule, AllocError>
    ensures { IfOk result (λ r. r ≡ not_const) }
{
    let truth = node_with(alloc, op(Family::ConstBool, 0, 0), 0, [])?;
    let left = node(alloc, op(Family::Not, 0, 0), [truth])?;
    let int = call(alloc, Fun::Sub, [Expr::Number(1), Expr::Var(0)])?;
    Ok(rule(alloc, left, make_truth(alloc, int)?))
}

/// `(Not (f x y))`.
fn not_of(alloc: Global, f: Family, w: u8) -> Result<Pattern, AllocError>
    ensures { IfOk result (λ p. p ≡ not_of f w) }
{
    let args = [Pattern::Var(0), Pattern::Var(1)];
    let compared = node(alloc, op(f, w, 0), args)?;
    node(alloc, op(Family::Not, 0, 0), [compared])
}

/// `(Not (f x y)) => (g x y)`.
pub(crate) fn not_compare(alloc: Global, f: Family, g: Family, w: u8) -> Result<Rule, AllocError>
    ensures { IfOk result (λ r. r ≡ not_compare f g w) }
{
    let left = not_of(alloc, f, w)?;
    let args = [Build::Var(0), Build::Var(1)];
    Ok(rule(alloc, left, make(alloc, op(g, w, 0), args)?))
}

/// `(Not (f x y)) => (g y x)`.
pub(crate) fn not_order(alloc: Global, f: Family, g: Family, w: u8) -> Result<Rule, AllocError>
    ensures { IfOk result (λ r. r ≡ not_order f g w) }
{
    let left = not_of(alloc, f, w)?;
    let args = [Build::Var(1), Build::Var(0)];
    Ok(rule(alloc, left, make(alloc, op(g, w, 0), args)?))
}

/// `(f (ConstBool [k]) x) => x`.
pub(crate) fn truth_unit(alloc: Global, f: Family, k: i64) -> Result<Rule, AllocError>
    ensures { IfOk result (λ r. r ≡ truth_unit f k) }
{
    let args = [truth_at(alloc, k)?, Pattern::Var(0)];
    let left = node(alloc, op(f, 0, 0), args)?;
    Ok(rule(alloc, left, Build::Var(0)))
}

/// `(f (ConstBool [k]) _) => (ConstBool [k])`.
pub(crate) fn truth_absorb(alloc: Global, f: Family, k: i64) -> Result<Rule, AllocError>
    ensures { IfOk result (λ r. r ≡ truth_absorb f k) }
{
    let args = [truth_at(alloc, k)?, Pattern::Any];
    let left = node(alloc, op(f, 0, 0), args)?;
    Ok(rule(alloc, left, make_truth(alloc, Expr::Number(k))?))
}
