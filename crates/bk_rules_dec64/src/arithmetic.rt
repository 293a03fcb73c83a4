// Families of halves, constants, sums, products and bits.
ghost use Rattle.std.specs.Prelude.{◌≡◌, IfOk};
ghost use Rattle.bk_rules_dec64.specs.Families.{high_of_pair, low_of_pair, constant, sum, each, complement, negate, product};

use crate::trees::{constant_at, high, low, pair, whole, word};
use bk_ops::Family;
use bk_rule::make::{call, make, make_with, node, node_with, op, rule};
use bk_rule::{Build, Expr, Fun, Pattern, Rule};
use std::alloc::{AllocError, Global};

/// `(Int64Hi (Int64Make x _)) => x`.
pub(crate) fn high_of_pair(alloc: Global) -> Result<Rule, AllocError>
    ensures { IfOk result (λ r. r ≡ high_of_pair) }
{
    let args = [Pattern::Var(0), Pattern::Any];
    let halves = node(alloc, op(Family::Int64Make, 64, 0), args)?;
    let left = node(alloc, op(Family::Int64Hi, 64, 0), [halves])?;
    Ok(rule(alloc, left, Build::Var(0)))
}

/// `(Int64Lo (Int64Make _ y)) => y`.
pub(crate) fn low_of_pair(alloc: Global) -> Result<Rule, AllocError>
    ensures { IfOk result (λ r. r ≡ low_of_pair) }
{
    let args = [Pattern::Any, Pattern::Var(0)];
    let halves = node(alloc, op(Family::Int64Make, 64, 0), args)?;
    let left = node(alloc, op(Family::Int64Lo, 64, 0), [halves])?;
    Ok(rule(alloc, left, Build::Var(0)))
}

/// `(Const64 [c]) => (Int64Make (Const32 [c>>32]) (Const32 [c]))`.
pub(crate) fn constant(alloc: Global) -> Result<Rule, AllocError>
    ensures { IfOk result (λ r. r ≡ constant) }
{
    let left = node_with(alloc, op(Family::Const, 64, 0), 0, [])?;
    let above = call(alloc, Fun::Shr, [Expr::Var(0), Expr::Number(32)])?;
    let high = constant_at(alloc, above)?;
    let right = pair(alloc, high, constant_at(alloc, Expr::Var(0))?)?;
    Ok(rule(alloc, left, right))
}

/// `(f64 x y) => (Int64Make (g H x H y L x L y) (f32 L x L y))`.
pub(crate) fn sum(alloc: Global, f: Family, g: Family) -> Result<Rule, AllocError>
    ensures { IfOk result (λ r. r ≡ sum f g) }
{
    let left = whole(alloc, f)?;
    let halves = [
        high(alloc, 0)?,
        high(alloc, 1)?,
        low(alloc, 0)?,
        low(alloc, 1)?,
    ];
    let upper = make(alloc, op(g, 32, 0), halves)?;
    let lower = word(alloc, f, low(alloc, 0)?, low(alloc, 1)?)?;
    Ok(rule(alloc, left, pair(alloc, upper, lower)?))
}

/// `(f64 x y) => (Int64Make (f32 H x H y) (f32 L x L y))`.
pub(crate) fn each(alloc: Global, f: Family) -> Result<Rule, AllocError>
    ensures { IfOk result (λ r. r ≡ each f) }
{
    let left = whole(alloc, f)?;
    let upper = word(alloc, f, high(alloc, 0)?, high(alloc, 1)?)?;
    let lower = word(alloc, f, low(alloc, 0)?, low(alloc, 1)?)?;
    Ok(rule(alloc, left, pair(alloc, upper, lower)?))
}

/// `(Com64 x) => (Int64Make (Com32 H x) (Com32 L x))`.
pub(crate) fn complement(alloc: Global) -> Result<Rule, AllocError>
    ensures { IfOk result (λ r. r ≡ complement) }
{
    let left = node(alloc, op(Family::Com, 64, 0), [Pattern::Var(0)])?;
    let upper = make(alloc, op(Family::Com, 32, 0), [high(alloc, 0)?])?;
    let lower = make(alloc, op(Family::Com, 32, 0), [low(alloc, 0)?])?;
    Ok(rule(alloc, left, pair(alloc, upper, lower)?))
}

/// `(Neg64 x) => (Sub64 (Const64 [0]) x)`.
pub(crate) fn negate(alloc: Global) -> Result<Rule, AllocError>
    ensures { IfOk result (λ r. r ≡ negate) }
{
    let left = node(alloc, op(Family::Neg, 64, 0), [Pattern::Var(0)])?;
    let zero = make_with(alloc, op(Family::Const, 64, 0), Expr::Number(0), [])?;
    let right = make(alloc, op(Family::Sub, 64, 0), [zero, Build::Var(0)])?;
    Ok(rule(alloc, left, right))
}

/// `(Mul64 x y) => (Int64Make (Add32 (Mul32 L x H y) (Add32 (Mul32 H x L y) (Hmul32u L x L y))) (Mul32 L x L y))`.
pub(crate) fn product(alloc: Global) -> Result<Rule, AllocError>
    ensures { IfOk result (λ r. r ≡ product) }
{
    let left = whole(alloc, Family::Mul)?;
    let first = word(alloc, Family::Mul, low(alloc, 0)?, high(alloc, 1)?)?;
    let second = word(alloc, Family::Mul, high(alloc, 0)?, low(alloc, 1)?)?;
    let carried = word(alloc, Family::Hmulu, low(alloc, 0)?, low(alloc, 1)?)?;
    let inner = word(alloc, Family::Add, second, carried)?;
    let upper = word(alloc, Family::Add, first, inner)?;
    let lower = word(alloc, Family::Mul, low(alloc, 0)?, low(alloc, 1)?)?;
    Ok(rule(alloc, left, pair(alloc, upper, lower)?))
}
