// Families in which a constant stands beside the machine op.
ghost use Rattle.std.specs.Prelude.{◌≡◌, IfOk};
ghost use Rattle.bk_rules_words.specs.Families.{with_constant, immediate, negated};

use crate::lines::Fits;
use crate::trees::{condition, machine};
use bk_ops::Family;
use bk_rule::make::{call, make_with, node, node_with, rule_if};
use bk_rule::{Build, Expr, Fun, Pattern, Rule};
use std::alloc::{AllocError, Global};

/// `(m x (k [c]))`.
fn with_constant(alloc: Global, m: Family, k: Family) -> Result<Pattern, AllocError>
    ensures { IfOk result (λ p. p ≡ with_constant m k) }
{
    let args = [Pattern::Var(0), node_with(alloc, machine(k), 1, [])?];
    node(alloc, machine(m), args)
}

/// `(m x (k [c])) && fits(c) => (i [c] x)`.
pub(crate) fn immediate(
    alloc: Global,
    m: Family,
    k: Family,
    i: Family,
    fits: Fits,
) -> Result<Rule, AllocError>
    ensures { IfOk result (λ r. r ≡ immediate m k i fits) }
{
    let left = with_constant(alloc, m, k)?;
    let cond = condition(alloc, fits, Expr::Var(1))?;
    let right = make_with(alloc, machine(i), Expr::Var(1), [Build::Var(0)])?;
    rule_if(alloc, left, cond, right)
}

/// `(m x (k [c])) && fits(-c) => (i [-c] x)`.
pub(crate) fn negated(
    alloc: Global,
    m: Family,
    k: Family,
    i: Family,
    fits: Fits,
) -> Result<Rule, AllocError>
    ensures { IfOk result (λ r. r ≡ negated m k i fits) }
{
    let left = with_constant(alloc, m, k)?;
    let back = call(alloc, Fun::Neg, [Expr::Var(1)])?;
    let cond = condition(alloc, fits, back)?;
    let back = call(alloc, Fun::Neg, [Expr::Var(1)])?;
    let right = make_with(alloc, machine(i), back, [Build::Var(0)])?;
    rule_if(alloc, left, cond, right)
}
