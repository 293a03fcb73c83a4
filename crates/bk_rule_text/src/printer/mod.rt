//! The printer of rules.
ghost use Rattle.std.specs.Prelude.{◌≡◌, ◌++◌, ℕ, Bool, false, List, Ok, string_bytes, IfOk, OnOk};
ghost use Rattle.bk_rule_text.specs.Layout.{rule_text, rules_text};
ghost use Rattle.bk_rule_text.specs.Texts.{rules_of};

mod expr;
mod tree;
mod word;

use crate::printer::expr::write_conditions;
use crate::printer::tree::{write_build, write_pattern};
use bk_rule::{Memory, Rule};
use std::alloc::Global;
pub use word::{symbol, type_name};

/// Writes a rule and the end of its line.
#[tactic(auto, unfolding(crate::specs::Layout::rule_text))]
fn write_rule(alloc: Global, out: &mut String, rule: &Rule) -> Result<(), Memory>
    ensures { OnOk result (string_bytes out.new ≡ string_bytes out.old ++ rule_text rule.now) }
{
    write_pattern(alloc, out, &rule.left)?;
    write_conditions(out, rule.conds.as_slice())?;
    out.push_str(" => ")?;
    write_build(alloc, out, &rule.right)?;
    out.push_str("\n")?;
    Ok(())
}

#[tactic(auto, unfolding(crate::specs::Layout::rules_text))]
fn write_rules(alloc: Global, out: &mut String, rules: &[Rule]) -> Result<(), Memory>
    ensures { OnOk result (string_bytes out.new ≡ string_bytes out.old ++ rules_text rules.now) }
{
    for rule in rules {
        write_rule(alloc, out, rule)?;
    }
    Ok(())
}

/// Writes rules, one a line, with one space between parts.
///
/// A variable is `x` and its number, and one that names a node stands before its `:`. A use of an operator inside
/// another expression stands in round brackets. Rules that a text reads as are read back from what is written, also where
/// that text is one of extra rules.
pub fn print_rules(alloc: Global, rules: &[Rule]) -> Result<Vec<u8>, Memory>
    ensures text { IfOk result (λ text. text.items ≡ rules_text rules.now) }
    ensures again { IfOk result (λ text. (extra : Bool) (bytes : List ℕ) → rules_of extra bytes ≡ Ok rules.now → rules_of false text.items ≡ Ok rules.now) }
{
    let mut out = String::new(alloc);
    write_rules(alloc, &mut out, rules)?;
    Ok(out.into_bytes())
}
