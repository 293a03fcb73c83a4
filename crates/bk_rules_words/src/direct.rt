// Families in which one machine op stands for one generic op.
ghost use Rattle.std.specs.Prelude.{◌≡◌, IfOk};
ghost use Rattle.bk_rules_words.specs.Families.{constant, nil, address, one, two, three, four, one_with, offset, not_nil};

use crate::trees::{constant_at, machine, node_beside, unit, unit_at};
use bk_ops::Family;
use bk_rule::make::{node, node_with, op, rule};
use bk_rule::{Build, Expr, Pattern, Rule};
use sqlite_items::Items;
use std::alloc::{AllocError, Global};

/// `(f [c]) => (k [c])`.
pub(crate) fn constant(alloc: Global, f: Family, k: Family, w: u8) -> Result<Rule, AllocError>
    ensures { IfOk result (λ r. r ≡ constant f k w) }
{
    let left = node_with(alloc, op(f, w, 0), 0, [])?;
    Ok(rule(alloc, left, constant_at(alloc, k, Expr::Var(0))?))
}

/// `(ConstNil) => (k [0])`.
pub(crate) fn nil(alloc: Global, k: Family) -> Result<Rule, AllocError>
    ensures { IfOk result (λ r. r ≡ nil k) }
{
    let left = node(alloc, op(Family::ConstNil, 0, 0), [])?;
    Ok(rule(alloc, left, constant_at(alloc, k, Expr::Number(0))?))
}

/// `(Addr {s} _) => (m {s})`.
pub(crate) fn address(alloc: Global, m: Family) -> Result<Rule, AllocError>
    ensures { IfOk result (λ r. r ≡ address m) }
{
    let left = node_beside(alloc, op(Family::Addr, 0, 0), 0, [Pattern::Any])?;
    let right = Build::Node {
        op: machine(m),
        ty: None,
        int: None,
        aux: Some(0),
        args: Items::new(alloc),
    };
    Ok(rule(alloc, left, right))
}

/// `(f x) => (m x)`.
pub(crate) fn one(alloc: Global, f: Family, m: Family, w: u8, v: u8) -> Result<Rule, AllocError>
    ensures { IfOk result (λ r. r ≡ one f m w v) }
{
    let left = node(alloc, op(f, w, v), [Pattern::Var(0)])?;
    Ok(rule(alloc, left, unit(alloc, m, [Build::Var(0)])?))
}

/// `(f x y) => (m x y)`.
pub(crate) fn two(alloc: Global, f: Family, m: Family, w: u8, v: u8) -> Result<Rule, AllocError>
    ensures { IfOk result (λ r. r ≡ two f m w v) }
{
    let left = node(alloc, op(f, w, v), [Pattern::Var(0), Pattern::Var(1)])?;
    let right = unit(alloc, m, [Build::Var(0), Build::Var(1)])?;
    Ok(rule(alloc, left, right))
}

/// `(f x y z) => (m x y z)`.
pub(crate) fn three(alloc: Global, f: Family, m: Family) -> Result<Rule, AllocError>
    ensures { IfOk result (λ r. r ≡ three f m) }
{
    let args = [Pattern::Var(0), Pattern::Var(1), Pattern::Var(2)];
    let left = node(alloc, op(f, 0, 0), args)?;
    let right = unit(alloc, m, [Build::Var(0), Build::Var(1), Build::Var(2)])?;
    Ok(rule(alloc, left, right))
}

/// `(f a b c d) => (m a b c d)`.
pub(crate) fn four(alloc: Global, f: Family, m: Family, w: u8) -> Result<Rule, AllocError>
    ensures { IfOk result (λ r. r ≡ four f m w) }
{
    let args = [
        Pattern::Var(0),
        Pattern::Var(1),
        Pattern::Var(2),
        Pattern::Var(3),
    ];
    let left = node(alloc, op(f, w, 0), args)?;
    let args = [Build::Var(0), Build::Var(1), Build::Var(2), Build::Var(3)];
    Ok(rule(alloc, left, unit(alloc, m, args)?))
}

/// `(f x) => (m [n] x)`.
pub(crate) fn one_with(
    alloc: Global,
    f: Family,
    m: Family,
    n: i64,
    w: u8,
) -> Result<Rule, AllocError>
    ensures { IfOk result (λ r. r ≡ one_with f m n w) }
{
    let left = node(alloc, op(f, w, 0), [Pattern::Var(0)])?;
    Ok(rule(alloc, left, unit_at(alloc, m, n, Build::Var(0))?))
}

/// `(OffPtr [c] p) => (m p (k [c]))`.
pub(crate) fn offset(alloc: Global, m: Family, k: Family) -> Result<Rule, AllocError>
    ensures { IfOk result (λ r. r ≡ offset m k) }
{
    let left = node_with(alloc, op(Family::OffPtr, 0, 0), 0, [Pattern::Var(1)])?;
    let args = [Build::Var(1), constant_at(alloc, k, Expr::Var(0))?];
    Ok(rule(alloc, left, unit(alloc, m, args)?))
}

/// `(IsNonNil p) => (m p (k [0]))`.
pub(crate) fn not_nil(alloc: Global, m: Family, k: Family) -> Result<Rule, AllocError>
    ensures { IfOk result (λ r. r ≡ not_nil m k) }
{
    let left = node(alloc, op(Family::IsNonNil, 0, 0), [Pattern::Var(0)])?;
    let args = [Build::Var(0), constant_at(alloc, k, Expr::Number(0))?];
    Ok(rule(alloc, left, unit(alloc, m, args)?))
}
