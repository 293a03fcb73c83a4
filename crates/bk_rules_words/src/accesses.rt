// Families of loads, stores and checks.
ghost use Rattle.std.specs.Prelude.{◌≡◌, IfOk};
ghost use Rattle.bk_rules_words.specs.Families.{load, stored, store_bool, store, zero, move_bytes, panic, near, load_near, store_near, has_size};

use crate::lines::Fits;
use crate::trees::{condition, machine, node_beside, rule_where, sum, unit};
use bk_ops::Family;
use bk_rule::make::{call, make, make_with, node, node_with, op, rule, rule_if};
use bk_rule::{Build, Expr, Fun, Pattern, Rule};
use sqlite_items::Items;
use std::alloc::{AllocError, Global};

/// `size(t) == w`, t the first variable.
fn has_size(alloc: Global, w: u8) -> Result<Expr, AllocError>
    ensures { IfOk result (λ e. e ≡ has_size w) }
{
    let size = call(alloc, Fun::Size, [Expr::Var(0)])?;
    call(alloc, Fun::Eq, [size, Expr::Number(w as i64)])
}

/// `(Load <t> p m) && size(t) == w => (lw p m)`.
pub(crate) fn load(alloc: Global, l: Family, w: u8) -> Result<Rule, AllocError>
    ensures { IfOk result (λ r. r ≡ load l w) }
{
    let args = [Pattern::Var(1), Pattern::Var(2)];
    let left = Pattern::Node {
        var: None,
        op: op(Family::Load, 0, 0),
        ty: Some(0),
        int: None,
        aux: None,
        args: Items::from_vec(Vec::from_array(alloc, args)?),
    };
    let right = make(alloc, op(l, w, 0), [Build::Var(1), Build::Var(2)])?;
    rule_if(alloc, left, has_size(alloc, w)?, right)
}

/// `(Store {t} p x m)`.
fn stored(alloc: Global) -> Result<Pattern, AllocError>
    ensures { IfOk result (λ p. p ≡ stored) }
{
    let args = [Pattern::Var(1), Pattern::Var(2), Pattern::Var(3)];
    node_beside(alloc, op(Family::Store, 0, 0), 0, args)
}

/// `(Store {t} p x m) && isBool(t) => (m p x m)`.
pub(crate) fn store_bool(alloc: Global, m: Family) -> Result<Rule, AllocError>
    ensures { IfOk result (λ r. r ≡ store_bool m) }
{
    let left = stored(alloc)?;
    let cond = call(alloc, Fun::IsBool, [Expr::Var(0)])?;
    let args = [Build::Var(1), Build::Var(2), Build::Var(3)];
    rule_if(alloc, left, cond, unit(alloc, m, args)?)
}

/// `(Store {t} p x m) && isBool(t) == 0 && size(t) == w => (mw p x m)`.
pub(crate) fn store(alloc: Global, m: Family, w: u8) -> Result<Rule, AllocError>
    ensures { IfOk result (λ r. r ≡ store m w) }
{
    let left = stored(alloc)?;
    let truth = call(alloc, Fun::IsBool, [Expr::Var(0)])?;
    let no_bool = call(alloc, Fun::Eq, [truth, Expr::Number(0)])?;
    let size = has_size(alloc, w)?;
    let args = [Build::Var(1), Build::Var(2), Build::Var(3)];
    let right = make(alloc, op(m, w, 0), args)?;
    rule_where(alloc, left, [no_bool, size], right)
}

/// `(Zero [c] p m) => (z [c] p m)`.
pub(crate) fn zero(alloc: Global, z: Family) -> Result<Rule, AllocError>
    ensures { IfOk result (λ r. r ≡ zero z) }
{
    let args = [Pattern::Var(1), Pattern::Var(2)];
    let left = node_with(alloc, op(Family::Zero, 0, 0), 0, args)?;
    let args = [Build::Var(1), Build::Var(2)];
    let right = make_with(alloc, machine(z), Expr::Var(0), args)?;
    Ok(rule(alloc, left, right))
}

/// `(Move [c] p q m) => (v [c] p q m)`.
pub(crate) fn move_bytes(alloc: Global, v: Family) -> Result<Rule, AllocError>
    ensures { IfOk result (λ r. r ≡ move_bytes v) }
{
    let args = [Pattern::Var(1), Pattern::Var(2), Pattern::Var(3)];
    let left = node_with(alloc, op(Family::Move, 0, 0), 0, args)?;
    let args = [Build::Var(1), Build::Var(2), Build::Var(3)];
    let right = make_with(alloc, machine(v), Expr::Var(0), args)?;
    Ok(rule(alloc, left, right))
}

/// `(PanicBounds _ _ m) => (TRAP [2] m)`.
pub(crate) fn panic(alloc: Global) -> Result<Rule, AllocError>
    ensures { IfOk result (λ r. r ≡ panic) }
{
    let args = [Pattern::Any, Pattern::Any, Pattern::Var(0)];
    let left = node(alloc, op(Family::PanicBounds, 0, 0), args)?;
    let trap = op(Family::Trap, 0, 0);
    let right = make_with(alloc, trap, Expr::Number(2), [Build::Var(0)])?;
    Ok(rule(alloc, left, right))
}

/// `(i [c] p)`, c the second variable and p the third.
fn near(alloc: Global, i: Family) -> Result<Pattern, AllocError>
    ensures { IfOk result (λ p. p ≡ near i) }
{
    node_with(alloc, machine(i), 1, [Pattern::Var(2)])
}

/// `(lw [o] (i [c] p) m) && fits(o+c) => (lw [o+c] p m)`.
pub(crate) fn load_near(
    alloc: Global,
    l: Family,
    i: Family,
    fits: Fits,
    w: u8,
) -> Result<Rule, AllocError>
    ensures { IfOk result (λ r. r ≡ load_near l i fits w) }
{
    let args = [near(alloc, i)?, Pattern::Var(3)];
    let left = node_with(alloc, op(l, w, 0), 0, args)?;
    let cond = condition(alloc, fits, sum(alloc, 0, 1)?)?;
    let args = [Build::Var(2), Build::Var(3)];
    let right = make_with(alloc, op(l, w, 0), sum(alloc, 0, 1)?, args)?;
    rule_if(alloc, left, cond, right)
}

/// `(mw [o] (i [c] p) x m) && fits(o+c) => (mw [o+c] p x m)`.
pub(crate) fn store_near(
    alloc: Global,
    m: Family,
    i: Family,
    fits: Fits,
    w: u8,
) -> Result<Rule, AllocError>
    ensures { IfOk result (λ r. r ≡ store_near m i fits w) }
{
    let args = [near(alloc, i)?, Pattern::Var(3), Pattern::Var(4)];
    let left = node_with(alloc, op(m, w, 0), 0, args)?;
    let cond = condition(alloc, fits, sum(alloc, 0, 1)?)?;
    let args = [Build::Var(2), Build::Var(3), Build::Var(4)];
    let right = make_with(alloc, op(m, w, 0), sum(alloc, 0, 1)?, args)?;
    rule_if(alloc, left, cond, right)
}
