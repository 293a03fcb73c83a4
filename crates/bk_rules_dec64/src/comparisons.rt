// Families of comparisons.
ghost use Rattle.std.specs.Prelude.{◌≡◌, IfOk};
ghost use Rattle.bk_rules_dec64.specs.Families.{test, order};

use crate::trees::{constant_at, high, low, whole, word};
use bk_ops::Family;
use bk_rule::make::{make, op, rule};
use bk_rule::{Expr, Rule};
use std::alloc::{AllocError, Global};

/// `(f64 x y) => (f32 (Or32 (Xor32 H x H y) (Xor32 L x L y)) (Const32 [0]))`.
pub(crate) fn test(alloc: Global, f: Family) -> Result<Rule, AllocError>
    ensures { IfOk result (λ r. r ≡ test f) }
{
    let left = whole(alloc, f)?;
    let upper = word(alloc, Family::Xor, high(alloc, 0)?, high(alloc, 1)?)?;
    let lower = word(alloc, Family::Xor, low(alloc, 0)?, low(alloc, 1)?)?;
    let unlike = word(alloc, Family::Or, upper, lower)?;
    let right = word(alloc, f, unlike, constant_at(alloc, Expr::Number(0))?)?;
    Ok(rule(alloc, left, right))
}

/// `(f64 x y) => (OrB (g32 H x H y) (AndB (Eq32 H x H y) (l32 L x L y)))`.
pub(crate) fn order(alloc: Global, f: Family, g: Family, l: Family) -> Result<Rule, AllocError>
    ensures { IfOk result (λ r. r ≡ order f g l) }
{
    let left = whole(alloc, f)?;
    let upper = word(alloc, g, high(alloc, 0)?, high(alloc, 1)?)?;
    let alike = word(alloc, Family::Eq, high(alloc, 0)?, high(alloc, 1)?)?;
    let lower = word(alloc, l, low(alloc, 0)?, low(alloc, 1)?)?;
    let tied = make(alloc, op(Family::AndB, 0, 0), [alike, lower])?;
    let right = make(alloc, op(Family::OrB, 0, 0), [upper, tied])?;
    Ok(rule(alloc, left, right))
}
