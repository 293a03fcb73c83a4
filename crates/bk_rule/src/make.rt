// Trees of rules, made from the leaves up.
ghost use Rattle.std.specs.Prelude.{◌≡◌, IfOk, [], ◌∷◌};
ghost use Rattle.bk_rule.specs.Trees.{op, node, node_with, node_at, make, make_with, call, rule, rule_if};

use crate::{Build, Expr, Fun, IntPart, Pattern, Rule};
use bk_ops::{Family, Op};
use sqlite_items::Items;
use std::alloc::{AllocError, Global};

/// The op of this family with these widths.
pub fn op(family: Family, a: u8, b: u8) -> Op
    ensures { result ≡ op family a b }
{
    Op { family, a, b }
}

/// `(op args)` of a left tree.
pub fn node<const N: usize>(
    alloc: Global,
    op: Op,
    args: [Pattern; N],
) -> Result<Pattern, AllocError>
    ensures { IfOk result (λ p. p ≡ node op args.entry) }
{
    Ok(Pattern::Node {
        var: None,
        op,
        ty: None,
        int: None,
        aux: None,
        args: Items::from_vec(Vec::from_array(alloc, args)?),
    })
}

/// `(op [c] args)` of a left tree, c a variable.
pub fn node_with<const N: usize>(
    alloc: Global,
    op: Op,
    c: u32,
    args: [Pattern; N],
) -> Result<Pattern, AllocError>
    ensures { IfOk result (λ p. p ≡ node_with op c args.entry) }
{
    Ok(Pattern::Node {
        var: None,
        op,
        ty: None,
        int: Some(IntPart::Var(c)),
        aux: None,
        args: Items::from_vec(Vec::from_array(alloc, args)?),
    })
}

/// `(op [k] args)` of a left tree, k a number.
pub fn node_at<const N: usize>(
    alloc: Global,
    op: Op,
    k: i64,
    args: [Pattern; N],
) -> Result<Pattern, AllocError>
    ensures { IfOk result (λ p. p ≡ node_at op k args.entry) }
{
    Ok(Pattern::Node {
        var: None,
        op,
        ty: None,
        int: Some(IntPart::Number(k)),
        aux: None,
        args: Items::from_vec(Vec::from_array(alloc, args)?),
    })
}

/// `(op args)` of a right tree.
pub fn make<const N: usize>(alloc: Global, op: Op, args: [Build; N]) -> Result<Build, AllocError>
    ensures { IfOk result (λ t. t ≡ make op args.entry) }
{
    Ok(Build::Node {
        op,
        ty: None,
        int: None,
        aux: None,
        args: Items::from_vec(Vec::from_array(alloc, args)?),
    })
}

/// `(op [int] args)` of a right tree.
pub fn make_with<const N: usize>(
    alloc: Global,
    op: Op,
    int: Expr,
    args: [Build; N],
) -> Result<Build, AllocError>
    ensures { IfOk result (λ t. t ≡ make_with op int args.entry) }
{
    Ok(Build::Node {
        op,
        ty: None,
        int: Some(int),
        aux: None,
        args: Items::from_vec(Vec::from_array(alloc, args)?),
    })
}

/// A call of an operator or a function.
pub fn call<const N: usize>(alloc: Global, fun: Fun, args: [Expr; N]) -> Result<Expr, AllocError>
    ensures { IfOk result (λ e. e ≡ call fun args.entry) }
{
    Ok(Expr::Call {
        fun,
        args: Items::from_vec(Vec::from_array(alloc, args)?),
    })
}

/// `left => right`.
pub fn rule(alloc: Global, left: Pattern, right: Build) -> Rule
    ensures { result ≡ rule left right }
{
    Rule {
        left,
        conds: Items::new(alloc),
        right,
    }
}

/// `left && cond => right`.
pub fn rule_if(alloc: Global, left: Pattern, cond: Expr, right: Build) -> Result<Rule, AllocError>
    ensures { IfOk result (λ r. r ≡ rule_if left (cond ∷ []) right) }
{
    let conds = Items::from_vec(Vec::from_array(alloc, [cond])?);
    Ok(Rule { left, conds, right })
}
