// Families that take narrow numbers to wider ones first, and comparisons.
ghost use Rattle.std.specs.Prelude.{◌≡◌, IfOk};
ghost use Rattle.bk_rules_words.specs.Families.{compared, high, widen, widen_shift, widen_count, as_wide, shift_count, test, test_low, at_most, equal_bools};

use crate::trees::{unit, unit_at, wide};
use bk_ops::{Family, Op, RvOp};
use bk_rule::make::{make, node, op, rule};
use bk_rule::{Build, Pattern, Rule};
use std::alloc::{AllocError, Global};

/// `(f x y)`.
fn compared(alloc: Global, f: Op) -> Result<Pattern, AllocError>
    ensures { IfOk result (λ p. p ≡ compared f) }
{
    node(alloc, f, [Pattern::Var(0), Pattern::Var(1)])
}

/// `(f32 x y) => (m [32] (RVMUL (e32to64 x) (e32to64 y)))`.
pub(crate) fn high(alloc: Global, f: Family, e: Family, m: Family) -> Result<Rule, AllocError>
    ensures { IfOk result (λ r. r ≡ high f e m) }
{
    let left = compared(alloc, op(f, 32, 0))?;
    let args = [
        wide(alloc, e, 32, 64, Build::Var(0))?,
        wide(alloc, e, 32, 64, Build::Var(1))?,
    ];
    let product = unit(alloc, Family::Rv(RvOp::Mul), args)?;
    Ok(rule(alloc, left, unit_at(alloc, m, 32, product)?))
}

/// `(f x y) => (g (e x) (e y))`, e from the first width of f to that of g.
pub(crate) fn widen(alloc: Global, f: Op, g: Op, e: Family) -> Result<Rule, AllocError>
    ensures { IfOk result (λ r. r ≡ widen f g e) }
{
    let left = compared(alloc, f)?;
    let args = [
        wide(alloc, e, f.a, g.a, Build::Var(0))?,
        wide(alloc, e, f.a, g.a, Build::Var(1))?,
    ];
    Ok(rule(alloc, left, make(alloc, g, args)?))
}

/// `(f x y) => (g (e x) y)`, e from the first width of f to that of g.
pub(crate) fn widen_shift(alloc: Global, f: Op, g: Op, e: Family) -> Result<Rule, AllocError>
    ensures { IfOk result (λ r. r ≡ widen_shift f g e) }
{
    let left = compared(alloc, f)?;
    let args = [wide(alloc, e, f.a, g.a, Build::Var(0))?, Build::Var(1)];
    Ok(rule(alloc, left, make(alloc, g, args)?))
}

/// `(f x y) => (g x (ZeroExt y))`, from the second width of f to that of g.
pub(crate) fn widen_count(alloc: Global, f: Op, g: Op) -> Result<Rule, AllocError>
    ensures { IfOk result (λ r. r ≡ widen_count f g) }
{
    let left = compared(alloc, f)?;
    let count = wide(alloc, Family::ZeroExt, f.b, g.b, Build::Var(1))?;
    Ok(rule(alloc, left, make(alloc, g, [Build::Var(0), count])?))
}

/// `(f x y) => (g x y)`.
pub(crate) fn as_wide(alloc: Global, f: Op, g: Op) -> Result<Rule, AllocError>
    ensures { IfOk result (λ r. r ≡ as_wide f g) }
{
    let left = compared(alloc, f)?;
    let right = make(alloc, g, [Build::Var(0), Build::Var(1)])?;
    Ok(rule(alloc, left, right))
}

/// `(fwxv x y) => (m x (ZeroExtvto64 y))`.
pub(crate) fn shift_count(
    alloc: Global,
    f: Family,
    m: Family,
    w: u8,
    v: u8,
) -> Result<Rule, AllocError>
    ensures { IfOk result (λ r. r ≡ shift_count f m w v) }
{
    let left = compared(alloc, op(f, w, v))?;
    let count = wide(alloc, Family::ZeroExt, v, 64, Build::Var(1))?;
    Ok(rule(alloc, left, unit(alloc, m, [Build::Var(0), count])?))
}

/// `(f x y) => (m (RVXOR x y))`.
pub(crate) fn test(alloc: Global, f: Family, m: Family, w: u8) -> Result<Rule, AllocError>
    ensures { IfOk result (λ r. r ≡ test f m w) }
{
    let left = compared(alloc, op(f, w, 0))?;
    let args = [Build::Var(0), Build::Var(1)];
    let turned = unit(alloc, Family::Rv(RvOp::Xor), args)?;
    Ok(rule(alloc, left, unit(alloc, m, [turned])?))
}

/// `(fw x y) => (m (ZeroExtwto64 (RVXOR x y)))`.
pub(crate) fn test_low(alloc: Global, f: Family, m: Family, w: u8) -> Result<Rule, AllocError>
    ensures { IfOk result (λ r. r ≡ test_low f m w) }
{
    let left = compared(alloc, op(f, w, 0))?;
    let args = [Build::Var(0), Build::Var(1)];
    let turned = unit(alloc, Family::Rv(RvOp::Xor), args)?;
    let low = wide(alloc, Family::ZeroExt, w, 64, turned)?;
    Ok(rule(alloc, left, unit(alloc, m, [low])?))
}

/// `(f x y) => (RVXORI [1] (m y x))`.
pub(crate) fn at_most(alloc: Global, f: Family, m: Family, w: u8) -> Result<Rule, AllocError>
    ensures { IfOk result (λ r. r ≡ at_most f m w) }
{
    let left = compared(alloc, op(f, w, 0))?;
    let below = unit(alloc, m, [Build::Var(1), Build::Var(0)])?;
    let right = unit_at(alloc, Family::Rv(RvOp::Xori), 1, below)?;
    Ok(rule(alloc, left, right))
}

/// `(EqB x y) => (i [1] (m x y))`.
pub(crate) fn equal_bools(alloc: Global, m: Family, i: Family) -> Result<Rule, AllocError>
    ensures { IfOk result (λ r. r ≡ equal_bools m i) }
{
    let left = compared(alloc, op(Family::EqB, 0, 0))?;
    let turned = unit(alloc, m, [Build::Var(0), Build::Var(1)])?;
    Ok(rule(alloc, left, unit_at(alloc, i, 1, turned)?))
}
