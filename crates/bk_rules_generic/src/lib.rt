//! The generic list of rewrite rules: what holds on both targets.
#![tactic(auto)]

ghost use Rattle.std.specs.Prelude.{◌≡◌, IfOk};
ghost use Rattle.std.specs.List.{All};
ghost use Rattle.bk_ops.specs.declared.types.Target.{Target};
ghost use Rattle.bk_rule.specs.Sound.{SoundRule};
ghost use Rattle.bk_rules_generic.specs.Lines.{generic_list};

mod arithmetic;
mod comparisons;
mod constants;
mod conversions;
mod families;
mod lines;
mod list;

use bk_rule::{Memory, Rule};
use std::alloc::{AllocError, Global};

/// The generic rules, in the order in which they are tried. Each of them is sound on both targets.
pub fn generic_rules(alloc: Global) -> Result<Vec<Rule>, Memory>
    ensures list { IfOk result (λ rules. rules.items ≡ generic_list) }
    ensures sound { IfOk result (λ rules. (t : Target) → All (SoundRule t) rules.items) }
{
    Ok(all(alloc)?)
}

#[tactic(auto, unfolding(crate::specs::Lines::generic_list))]
fn all(alloc: Global) -> Result<Vec<Rule>, AllocError>
    ensures { IfOk result (λ rules. rules.items ≡ generic_list) }
{
    let mut rules = Vec::new(alloc);
    list::put_arithmetic(alloc, &mut rules)?;
    list::put_bits(alloc, &mut rules)?;
    list::put_comparisons(alloc, &mut rules)?;
    list::put_conversions(alloc, &mut rules)?;
    Ok(rules)
}
