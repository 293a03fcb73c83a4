// The choice between two numbers of 64 bits.
ghost use Rattle.std.specs.Prelude.{◌≡◌, IfOk};
ghost use Rattle.bk_rules_dec64.specs.Families.{choose};

use crate::trees::{choice, chosen, high, low, pair};
use bk_rule::make::{call, rule_if};
use bk_rule::{Expr, Fun, Rule};
use std::alloc::{AllocError, Global};

/// `(CondSelect <t> x y c) && size(t) == 8 => (Int64Make (CondSelect <uint32> H x H y c) (CondSelect <uint32> L x L y c))`.
pub(crate) fn choose(alloc: Global) -> Result<Rule, AllocError>
    ensures { IfOk result (λ r. r ≡ choose) }
{
    let left = chosen(alloc)?;
    let size = call(alloc, Fun::Size, [Expr::Var(0)])?;
    let cond = call(alloc, Fun::Eq, [size, Expr::Number(8)])?;
    let upper = choice(alloc, high(alloc, 1)?, high(alloc, 2)?)?;
    let lower = choice(alloc, low(alloc, 1)?, low(alloc, 2)?)?;
    rule_if(alloc, left, cond, pair(alloc, upper, lower)?)
}
