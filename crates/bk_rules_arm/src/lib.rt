//! The rewrite rules of arm: what its machine ops do in place of the generic ones.
#![tactic(auto)]

ghost use Rattle.std.specs.Prelude.{◌≡◌, IfOk};
ghost use Rattle.std.specs.List.{All};
ghost use Rattle.bk_ops.specs.declared.types.Target.TheVariants.{Arm};
ghost use Rattle.bk_rules_arm.specs.Lines.{arm_list};
ghost use Rattle.bk_rules_words.specs.Sound.{SoundInWords};

mod list;

use bk_rule::{Memory, Rule};
use std::alloc::{AllocError, Global};

/// The rules of arm, in the order in which they are tried. Each of them is sound there, over machine
/// words that hold narrow values in their low bits.
pub fn arm_rules(alloc: Global) -> Result<Vec<Rule>, Memory>
    ensures list { IfOk result (λ rules. rules.items ≡ arm_list) }
    ensures sound { IfOk result (λ rules. All (SoundInWords Arm) rules.items) }
{
    Ok(all(alloc)?)
}

#[tactic(auto, unfolding(crate::specs::Lines::arm_list))]
fn all(alloc: Global) -> Result<Vec<Rule>, AllocError>
    ensures { IfOk result (λ rules. rules.items ≡ arm_list) }
{
    let mut rules = Vec::new(alloc);
    list::put_arithmetic(alloc, &mut rules)?;
    list::put_shifts(alloc, &mut rules)?;
    list::put_comparisons(alloc, &mut rules)?;
    list::put_conversions(alloc, &mut rules)?;
    list::put_accesses(alloc, &mut rules)?;
    list::put_immediates(alloc, &mut rules)?;
    Ok(rules)
}
