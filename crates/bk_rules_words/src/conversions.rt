// Families of extensions, masks and rotations.
ghost use Rattle.std.specs.Prelude.{◌≡◌, ◌≤◌, IfOk};
ghost use Rattle.bk_rules_words.specs.Families.{extend, truncate, sign_mask, zero_mask, rotate_half};

use crate::trees::{unit, unit_at, wide};
use bk_ops::{Family, RvOp};
use bk_rule::make::{node, op, rule};
use bk_rule::{Build, Pattern, Rule};
use std::alloc::{AllocError, Global};

/// `(fwtov x) => (m [64-w] (RVSLLI [64-w] x))`.
pub(crate) fn extend(alloc: Global, f: Family, m: Family, w: u8, v: u8) -> Result<Rule, AllocError>
    ensures { IfOk result (λ r. r ≡ extend f m w v) }
{
    let left = node(alloc, op(f, w, v), [Pattern::Var(0)])?;
    let count = 64u8.saturating_sub(w) as i64;
    let raised = unit_at(alloc, Family::Rv(RvOp::Slli), count, Build::Var(0))?;
    Ok(rule(alloc, left, unit_at(alloc, m, count, raised)?))
}

/// `(Truncwtov x) => x`.
pub(crate) fn truncate(alloc: Global, w: u8, v: u8) -> Result<Rule, AllocError>
    ensures { IfOk result (λ r. r ≡ truncate w v) }
{
    let left = node(alloc, op(Family::Trunc, w, v), [Pattern::Var(0)])?;
    Ok(rule(alloc, left, Build::Var(0)))
}

/// `(Signmask x) => (RVSRAI [63] (SignExt32to64 x))`.
pub(crate) fn sign_mask(alloc: Global) -> Result<Rule, AllocError>
    ensures { IfOk result (λ r. r ≡ sign_mask) }
{
    let left = node(alloc, op(Family::Signmask, 0, 0), [Pattern::Var(0)])?;
    let extended = wide(alloc, Family::SignExt, 32, 64, Build::Var(0))?;
    Ok(rule(
        alloc,
        left,
        unit_at(alloc, Family::Rv(RvOp::Srai), 63, extended)?,
    ))
}

/// `(Zeromask x) => (RVNEG (RVSNEZ (ZeroExt32to64 x)))`.
pub(crate) fn zero_mask(alloc: Global) -> Result<Rule, AllocError>
    ensures { IfOk result (λ r. r ≡ zero_mask) }
{
    let left = node(alloc, op(Family::Zeromask, 0, 0), [Pattern::Var(0)])?;
    let extended = wide(alloc, Family::ZeroExt, 32, 64, Build::Var(0))?;
    let truth = unit(alloc, Family::Rv(RvOp::Snez), [extended])?;
    Ok(rule(alloc, left, unit(alloc, Family::Rv(RvOp::Neg), [truth])?))
}

/// `(RotateLeft32 x k) => (RVOR (RVLSL x (RVANDI [31] k)) (RVLSR (ZeroExt32to64 x) (RVANDI [31] (RVNEG k))))`.
pub(crate) fn rotate_half(alloc: Global) -> Result<Rule, AllocError>
    ensures { IfOk result (λ r. r ≡ rotate_half) }
{
    let args = [Pattern::Var(0), Pattern::Var(1)];
    let left = node(alloc, op(Family::RotateLeft, 32, 0), args)?;
    let up = unit_at(alloc, Family::Rv(RvOp::Andi), 31, Build::Var(1))?;
    let raised = unit(alloc, Family::Rv(RvOp::Lsl), [Build::Var(0), up])?;
    let back = unit(alloc, Family::Rv(RvOp::Neg), [Build::Var(1)])?;
    let down = unit_at(alloc, Family::Rv(RvOp::Andi), 31, back)?;
    let low = wide(alloc, Family::ZeroExt, 32, 64, Build::Var(0))?;
    let lowered = unit(alloc, Family::Rv(RvOp::Lsr), [low, down])?;
    Ok(rule(
        alloc,
        left,
        unit(alloc, Family::Rv(RvOp::Or), [raised, lowered])?,
    ))
}
