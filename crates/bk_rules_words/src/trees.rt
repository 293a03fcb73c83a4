// Parts of trees that many families share.
ghost use Rattle.std.specs.Prelude.{◌≡◌, IfOk};
ghost use Rattle.bk_rules_words.specs.Nodes.{machine, unit, unit_at, constant_at, wide, node_beside, sum, condition};
ghost use Rattle.bk_rule.specs.Trees.{rule_if};

use crate::lines::Fits;
use bk_ops::{Family, Op};
use bk_rule::make::{call, make, make_with, op};
use bk_rule::{Build, Expr, Fun, Pattern, Rule};
use sqlite_items::Items;
use std::alloc::{AllocError, Global};

/// The op without a width in its name.
pub(crate) fn machine(m: Family) -> Op
    ensures { result ≡ machine m }
{
    op(m, 0, 0)
}

/// `(m args)` of a right tree.
pub(crate) fn unit<const N: usize>(
    alloc: Global,
    m: Family,
    args: [Build; N],
) -> Result<Build, AllocError>
    ensures { IfOk result (λ t. t ≡ unit m args.entry) }
{
    make(alloc, machine(m), args)
}

/// `(m [n] x)` of a right tree.
pub(crate) fn unit_at(alloc: Global, m: Family, n: i64, x: Build) -> Result<Build, AllocError>
    ensures { IfOk result (λ t. t ≡ unit_at m n x) }
{
    make_with(alloc, machine(m), Expr::Number(n), [x])
}

/// `(k [int])` of a right tree.
pub(crate) fn constant_at(alloc: Global, k: Family, int: Expr) -> Result<Build, AllocError>
    ensures { IfOk result (λ t. t ≡ constant_at k int) }
{
    make_with(alloc, machine(k), int, [])
}

/// `(ewtov x)` of a right tree.
pub(crate) fn wide(alloc: Global, e: Family, w: u8, v: u8, x: Build) -> Result<Build, AllocError>
    ensures { IfOk result (λ t. t ≡ wide e w v x) }
{
    make(alloc, op(e, w, v), [x])
}

/// `(op {s} args)` of a left tree, s a variable.
pub(crate) fn node_beside<const N: usize>(
    alloc: Global,
    op: Op,
    s: u32,
    args: [Pattern; N],
) -> Result<Pattern, AllocError>
    ensures { IfOk result (λ p. p ≡ node_beside op s args.entry) }
{
    Ok(Pattern::Node {
        var: None,
        op,
        ty: None,
        int: None,
        aux: Some(s),
        args: Items::from_vec(Vec::from_array(alloc, args)?),
    })
}

/// The sum of two variables.
pub(crate) fn sum(alloc: Global, i: u32, j: u32) -> Result<Expr, AllocError>
    ensures { IfOk result (λ e. e ≡ sum i j) }
{
    call(alloc, Fun::Add, [Expr::Var(i), Expr::Var(j)])
}

/// That the number is one that fits.
pub(crate) fn condition(alloc: Global, fits: Fits, int: Expr) -> Result<Expr, AllocError>
    ensures { IfOk result (λ e. e ≡ condition fits int) }
{
    match fits {
        Fits::Is12 => call(alloc, Fun::Is12, [int]),
        Fits::ArmImm => call(alloc, Fun::ArmImm, [int]),
        Fits::Below(n) => call(alloc, Fun::Ult, [int, Expr::Number(n)]),
        Fits::FromOne(n) => {
            let rest = call(alloc, Fun::Sub, [int, Expr::Number(1)])?;
            call(alloc, Fun::Ult, [rest, Expr::Number(n)])
        }
    }
}

/// `left && conds => right`.
pub(crate) fn rule_where<const N: usize>(
    alloc: Global,
    left: Pattern,
    conds: [Expr; N],
    right: Build,
) -> Result<Rule, AllocError>
    ensures { IfOk result (λ r. r ≡ rule_if left conds.entry right) }
{
    let conds = Items::from_vec(Vec::from_array(alloc, conds)?);
    Ok(Rule { left, conds, right })
}
