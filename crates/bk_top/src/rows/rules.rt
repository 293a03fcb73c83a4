//! `rules`.

ghost use Rattle.std.specs.Prelude.{◌≡◌, ◌++◌, IfOk, OnOk};
ghost use Rattle.bk_rule_text.specs.Layout.{rules_text};
ghost use Rattle.bk_top.specs.Listing.{listing};

use bk_func::Memory;
use bk_rule::Rule;
use bk_rule_text::print_rules;
use bk_rules_arm::arm_rules;
use bk_rules_dec64::dec64_rules;
use bk_rules_generic::generic_rules;
use bk_rules_rv::rv_rules;
use std::alloc::Global;

/// The lists of rewrite rules, each under its name.
#[tactic(auto, unfolding(crate::specs::Listing::listing))]
pub fn rules_listing(alloc: Global) -> Result<Vec<u8>, Memory>
    ensures { IfOk result (λ text. text.items ≡ listing) }
{
    let mut text = Vec::new(alloc);
    push_list(alloc, &mut text, "# generic\n", &generic_rules(alloc)?)?;
    push_list(alloc, &mut text, "# dec64\n", &dec64_rules(alloc)?)?;
    push_list(alloc, &mut text, "# arm\n", &arm_rules(alloc)?)?;
    push_list(alloc, &mut text, "# riscv64\n", &rv_rules(alloc)?)?;
    Ok(text)
}

/// Adds a list under its name.
fn push_list(alloc: Global, text: &mut Vec<u8>, name: &str, rules: &[Rule]) -> Result<(), Memory>
    ensures { OnOk result (text.new.items ≡ text.old.items ++ (name.now ++ rules_text rules.now)) }
{
    let lines = print_rules(alloc, rules)?;
    text.extend_from_slice(name.as_bytes())?;
    text.extend_from_slice(&lines)?;
    Ok(())
}
