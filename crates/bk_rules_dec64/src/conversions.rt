// Families of extensions and truncations.
ghost use Rattle.std.specs.Prelude.{◌≡◌, IfOk};
ghost use Rattle.bk_rules_dec64.specs.Families.{sign_above, zero_above, extend, truncate_to_word, truncate};

use crate::trees::{constant_at, low, pair, plain};
use bk_ops::Family;
use bk_rule::make::{make, node, op, rule};
use bk_rule::{Build, Expr, Pattern, Rule};
use std::alloc::{AllocError, Global};

/// `(SignExt32to64 x) => (Int64Make (Signmask x) x)`.
pub(crate) fn sign_above(alloc: Global) -> Result<Rule, AllocError>
    ensures { IfOk result (λ r. r ≡ sign_above) }
{
    let left = node(alloc, op(Family::SignExt, 32, 64), [Pattern::Var(0)])?;
    let sign = plain(alloc, Family::Signmask, Build::Var(0))?;
    Ok(rule(alloc, left, pair(alloc, sign, Build::Var(0))?))
}

/// `(ZeroExt32to64 x) => (Int64Make (Const32 [0]) x)`.
pub(crate) fn zero_above(alloc: Global) -> Result<Rule, AllocError>
    ensures { IfOk result (λ r. r ≡ zero_above) }
{
    let left = node(alloc, op(Family::ZeroExt, 32, 64), [Pattern::Var(0)])?;
    let zero = constant_at(alloc, Expr::Number(0))?;
    Ok(rule(alloc, left, pair(alloc, zero, Build::Var(0))?))
}

/// `(fwto64 x) => (f32to64 (fwto32 x))`.
pub(crate) fn extend(alloc: Global, f: Family, w: u8) -> Result<Rule, AllocError>
    ensures { IfOk result (λ r. r ≡ extend f w) }
{
    let left = node(alloc, op(f, w, 64), [Pattern::Var(0)])?;
    let half = make(alloc, op(f, w, 32), [Build::Var(0)])?;
    Ok(rule(alloc, left, make(alloc, op(f, 32, 64), [half])?))
}

/// `(Trunc64to32 x) => (Int64Lo x)`.
pub(crate) fn truncate_to_word(alloc: Global) -> Result<Rule, AllocError>
    ensures { IfOk result (λ r. r ≡ truncate_to_word) }
{
    let left = node(alloc, op(Family::Trunc, 64, 32), [Pattern::Var(0)])?;
    Ok(rule(alloc, left, low(alloc, 0)?))
}

/// `(Trunc64tow x) => (Trunc32tow (Int64Lo x))`.
pub(crate) fn truncate(alloc: Global, w: u8) -> Result<Rule, AllocError>
    ensures { IfOk result (λ r. r ≡ truncate w) }
{
    let left = node(alloc, op(Family::Trunc, 64, w), [Pattern::Var(0)])?;
    let right = make(alloc, op(Family::Trunc, 32, w), [low(alloc, 0)?])?;
    Ok(rule(alloc, left, right))
}
