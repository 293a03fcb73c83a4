//! The rewrite rules that take numbers of 64 bits apart: what halves of 32 bits do in place of the whole.
//! They are arm's, whose words have 32 bits.
#![tactic(auto)]

ghost use Rattle.std.specs.Prelude.{◌≡◌, IfOk};
ghost use Rattle.std.specs.List.{All};
ghost use Rattle.bk_ops.specs.declared.types.Target.TheVariants.{Arm};
ghost use Rattle.bk_rule.specs.Sound.{SoundRule};
ghost use Rattle.bk_rules_dec64.specs.Lines.{dec64_list};

mod arithmetic;
mod choices;
mod comparisons;
mod conversions;
mod families;
mod lines;
mod list;
mod shifts;
mod trees;

use bk_rule::{Memory, Rule};
use std::alloc::{AllocError, Global};

/// The rules that take numbers of 64 bits apart, in the order in which they are tried. Each of them is sound
/// on arm.
pub fn dec64_rules(alloc: Global) -> Result<Vec<Rule>, Memory>
    ensures list { IfOk result (λ rules. rules.items ≡ dec64_list) }
    ensures sound { IfOk result (λ rules. All (SoundRule Arm) rules.items) }
{
    Ok(all(alloc)?)
}

#[tactic(auto, unfolding(crate::specs::Lines::dec64_list))]
fn all(alloc: Global) -> Result<Vec<Rule>, AllocError>
    ensures { IfOk result (λ rules. rules.items ≡ dec64_list) }
{
    let mut rules = Vec::new(alloc);
    list::put_arithmetic(alloc, &mut rules)?;
    list::put_comparisons(alloc, &mut rules)?;
    list::put_conversions(alloc, &mut rules)?;
    list::put_shifts(alloc, &mut rules)?;
    Ok(rules)
}
