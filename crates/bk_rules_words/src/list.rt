// Lists, line by line.
ghost use Rattle.std.specs.Prelude.{◌≡◌, ◌++◌, map, OnOk};
ghost use Rattle.std.specs.List.{flat_map};
ghost use Rattle.bk_rules_words.specs.Lines.{rules_of};

use crate::families::family;
use crate::lines::{Line, pairs};
use bk_rule::Rule;
use std::alloc::{AllocError, Global};

#[tactic(auto, unfolding(crate::specs::Lines::rules_of))]
fn put_line(alloc: Global, rules: &mut Vec<Rule>, line: Line) -> Result<(), AllocError>
    ensures { OnOk result (rules.new.items ≡ rules.old.items ++ rules_of line) }
{
    for pair in pairs(line.1) {
        rules.push(family(alloc, line.0, pair.0, pair.1)?)?;
    }
    Ok(())
}

/// The rules of each line, after those that are there.
pub fn put(alloc: Global, rules: &mut Vec<Rule>, lines: &[Line]) -> Result<(), AllocError>
    ensures { OnOk result (rules.new.items ≡ rules.old.items ++ flat_map rules_of lines.now) }
{
    for line in lines {
        put_line(alloc, rules, *line)?;
    }
    Ok(())
}
