// Families of shifts, extensions, masks, pointers and choices.
ghost use Rattle.std.specs.Prelude.{◌≡◌, IfOk};
ghost use Rattle.bk_rules_generic.specs.Families.{shift_none, sign_const, low_bits, zero_const, trunc_const, trunc_ext, zero_mask, full_mask, sign_mask, no_offset, offset_twice, add_offset, select_first, select_second};

use crate::constants::{constant, constant_at, make_constant, truth_at};
use bk_ops::Family;
use bk_rule::make::{call, make_with, node, node_at, node_with, op, rule, rule_if};
use bk_rule::{Build, Expr, Fun, Pattern, Rule};
use std::alloc::{AllocError, Global};

/// `(fwxv x (Constv [0])) => x`.
pub(crate) fn shift_none(alloc: Global, f: Family, w: u8, v: u8) -> Result<Rule, AllocError>
    ensures { IfOk result (λ r. r ≡ shift_none f w v) }
{
    let args = [Pattern::Var(0), constant_at(alloc, v, 0)?];
    let left = node(alloc, op(f, w, v), args)?;
    Ok(rule(alloc, left, Build::Var(0)))
}

/// `(SignExtwtov (Constw [c])) => (Constv [c])`.
pub(crate) fn sign_const(alloc: Global, w: u8, v: u8) -> Result<Rule, AllocError>
    ensures { IfOk result (λ r. r ≡ sign_const w v) }
{
    let left = node(alloc, op(Family::SignExt, w, v), [constant(alloc, w, 0)?])?;
    Ok(rule(alloc, left, make_constant(alloc, v, Expr::Var(0))?))
}

/// The function that keeps the low w bits.
fn low_bits(w: u8) -> Fun
    ensures { result ≡ low_bits w }
{
    if w == 32 {
        Fun::Zext32
    } else if w == 16 {
        Fun::Zext16
    } else {
        Fun::Zext8
    }
}

/// `(ZeroExtwtov (Constw [c])) => (Constv [zextw(c)])`.
pub(crate) fn zero_const(alloc: Global, w: u8, v: u8) -> Result<Rule, AllocError>
    ensures { IfOk result (λ r. r ≡ zero_const w v) }
{
    let left = node(alloc, op(Family::ZeroExt, w, v), [constant(alloc, w, 0)?])?;
    let int = call(alloc, low_bits(w), [Expr::Var(0)])?;
    Ok(rule(alloc, left, make_constant(alloc, v, int)?))
}

/// `(Truncvtow (Constv [c])) => (Constw [c])`.
pub(crate) fn trunc_const(alloc: Global, w: u8, v: u8) -> Result<Rule, AllocError>
    ensures { IfOk result (λ r. r ≡ trunc_const w v) }
{
    let left = node(alloc, op(Family::Trunc, v, w), [constant(alloc, v, 0)?])?;
    Ok(rule(alloc, left, make_constant(alloc, w, Expr::Var(0))?))
}

/// `(Truncvtow (fwtov x)) => x`.
pub(crate) fn trunc_ext(alloc: Global, f: Family, w: u8, v: u8) -> Result<Rule, AllocError>
    ensures { IfOk result (λ r. r ≡ trunc_ext f w v) }
{
    let extended = node(alloc, op(f, w, v), [Pattern::Var(0)])?;
    let left = node(alloc, op(Family::Trunc, v, w), [extended])?;
    Ok(rule(alloc, left, Build::Var(0)))
}

/// `(Zeromask (Const32 [0])) => (Const32 [0])`.
pub(crate) fn zero_mask(alloc: Global) -> Result<Rule, AllocError>
    ensures { IfOk result (λ r. r ≡ zero_mask) }
{
    let left = node(
        alloc,
        op(Family::Zeromask, 0, 0),
        [constant_at(alloc, 32, 0)?],
    )?;
    Ok(rule(alloc, left, make_constant(alloc, 32, Expr::Number(0))?))
}

/// `(Zeromask (Const32 [c])) && c != 0 => (Const32 [-1])`.
pub(crate) fn full_mask(alloc: Global) -> Result<Rule, AllocError>
    ensures { IfOk result (λ r. r ≡ full_mask) }
{
    let left = node(alloc, op(Family::Zeromask, 0, 0), [constant(alloc, 32, 0)?])?;
    let cond = call(alloc, Fun::Ne, [Expr::Var(0), Expr::Number(0)])?;
    rule_if(
        alloc,
        left,
        cond,
        make_constant(alloc, 32, Expr::Number(-1))?,
    )
}

/// `(Signmask (Const32 [c])) => (Const32 [c>>63])`.
pub(crate) fn sign_mask(alloc: Global) -> Result<Rule, AllocError>
    ensures { IfOk result (λ r. r ≡ sign_mask) }
{
    let left = node(alloc, op(Family::Signmask, 0, 0), [constant(alloc, 32, 0)?])?;
    let int = call(alloc, Fun::Shr, [Expr::Var(0), Expr::Number(63)])?;
    Ok(rule(alloc, left, make_constant(alloc, 32, int)?))
}

/// `(OffPtr [0] p) => p`.
pub(crate) fn no_offset(alloc: Global) -> Result<Rule, AllocError>
    ensures { IfOk result (λ r. r ≡ no_offset) }
{
    let left = node_at(alloc, op(Family::OffPtr, 0, 0), 0, [Pattern::Var(0)])?;
    Ok(rule(alloc, left, Build::Var(0)))
}

/// `(OffPtr [c] (OffPtr [d] p)) => (OffPtr [c+d] p)`.
pub(crate) fn offset_twice(alloc: Global) -> Result<Rule, AllocError>
    ensures { IfOk result (λ r. r ≡ offset_twice) }
{
    let offset = op(Family::OffPtr, 0, 0);
    let inner = node_with(alloc, offset, 1, [Pattern::Var(2)])?;
    let left = node_with(alloc, offset, 0, [inner])?;
    let int = call(alloc, Fun::Add, [Expr::Var(0), Expr::Var(1)])?;
    let right = make_with(alloc, offset, int, [Build::Var(2)])?;
    Ok(rule(alloc, left, right))
}

/// `(AddPtr p (Constw [c])) => (OffPtr [c] p)`.
pub(crate) fn add_offset(alloc: Global, w: u8) -> Result<Rule, AllocError>
    ensures { IfOk result (λ r. r ≡ add_offset w) }
{
    let args = [Pattern::Var(0), constant(alloc, w, 1)?];
    let left = node(alloc, op(Family::AddPtr, 0, 0), args)?;
    let offset = op(Family::OffPtr, 0, 0);
    let right = make_with(alloc, offset, Expr::Var(1), [Build::Var(0)])?;
    Ok(rule(alloc, left, right))
}

/// `(CondSelect x _ (ConstBool [1])) => x`.
pub(crate) fn select_first(alloc: Global) -> Result<Rule, AllocError>
    ensures { IfOk result (λ r. r ≡ select_first) }
{
    let args = [Pattern::Var(0), Pattern::Any, truth_at(alloc, 1)?];
    let left = node(alloc, op(Family::CondSelect, 0, 0), args)?;
    Ok(rule(alloc, left, Build::Var(0)))
}

/// `(CondSelect _ x (ConstBool [0])) => x`.
pub(crate) fn select_second(alloc: Global) -> Result<Rule, AllocError>
    ensures { IfOk result (λ r. r ≡ select_second) }
{
    let args = [Pattern::Any, Pattern::Var(0), truth_at(alloc, 0)?];
    let left = node(alloc, op(Family::CondSelect, 0, 0), args)?;
    Ok(rule(alloc, left, Build::Var(0)))
}
