//! The rewrite rules of riscv64: what its machine ops do in place of the generic ones.
#![tactic(auto)]

ghost use Rattle.std.specs.Prelude.{◌≡◌, IfOk};
ghost use Rattle.std.specs.List.{All};
ghost use Rattle.bk_ops.specs.declared.types.Target.TheVariants.{Riscv64};
ghost use Rattle.bk_rule.specs.WordSound.{SoundWordRule};
ghost use Rattle.bk_rules_rv.specs.Lines.{rv_list};

mod list;

use bk_rule::{Memory, Rule};
use std::alloc::{AllocError, Global};

/// The rules of riscv64, in the order in which they are tried. Each of them is sound there, over machine
/// words that hold narrow values in their low bits.
pub fn rv_rules(alloc: Global) -> Result<Vec<Rule>, Memory>
    ensures list { IfOk result (λ rules. rules.items ≡ rv_list) }
    ensures sound { IfOk result (λ rules. All (SoundWordRule Riscv64) rules.items) }
{
    Ok(all(alloc)?)
}

#[tactic(auto, unfolding(crate::specs::Lines::rv_list))]
fn all(alloc: Global) -> Result<Vec<Rule>, AllocError>
    ensures { IfOk result (λ rules. rules.items ≡ rv_list) }
{
    let mut rules = Vec::new(alloc);
    list::put_arithmetic(alloc, &mut rules)?;
    list::put_shifts(alloc, &mut rules)?;
    list::put_comparisons(alloc, &mut rules)?;
    list::put_conversions(alloc, &mut rules)?;
    list::put_accesses(alloc, &mut rules)?;
    list::put_immediates(alloc, &mut rules)?;
    Ok(rules)
}
