//! The rules of a line.
ghost use Rattle.std.specs.Prelude.{◌≡◌, map, IfOk};
ghost use Rattle.std.specs.List.{list_all};
ghost use Rattle.bk_rule_text.specs.Rules.{numbers_from};
ghost use Rattle.bk_rule_text.specs.Texts.{is_skipped, rules_at, written, stands, rules_of_line};
ghost use Rattle.bk_rule_text.specs.Views.{bit_of, Reads, Gives};

use crate::errors::{Fault, Unread};
use crate::read::front::{behind, is_done};
use crate::read::group::{Bit, bits, count_of, expanded};
use crate::read::rule::rule;
use crate::stands::stands;
use bk_rule::Rule;
use std::alloc::{AllocError, Global};

/// Whether a line is blank or a comment.
fn is_skipped(line: &[u8]) -> bool
    ensures { result ≡ is_skipped line.now }
{
    is_done(line) || behind(line, b"#").is_some() || behind(line, b"//").is_some()
}

/// Reads the rules that these bits stand for at so many places.
fn rules_at(alloc: Global, bits: &[Bit], count: usize) -> Result<Vec<Rule>, Unread>
    ensures { Reads (λ rules. rules.items) result (rules_at (map bit_of bits.now) (numbers_from 0 count)) }
{
    let mut rules = Vec::new(alloc);
    for place in 0..count {
        let text = expanded(alloc, bits, place)?;
        let one = rule(alloc, &text)?;
        rules.push(one)?;
    }
    Ok(rules)
}

/// Reads the rules that a line stands for, one for each part of its groups, whatever their ops.
#[tactic(auto, unfolding(crate::specs::Texts::written))]
fn written(alloc: Global, line: &[u8]) -> Result<Vec<Rule>, Unread>
    ensures { Reads (λ rules. rules.items) result (written line.now) }
{
    let bits = bits(alloc, line)?;
    match count_of(&bits) {
        Some(count) => rules_at(alloc, &bits, count),
        None => Err(Unread::Syntax),
    }
}

/// Whether the ops of each rule stand as they may.
fn all_stand(alloc: Global, rules: &[Rule], extra: bool) -> Result<bool, AllocError>
    ensures { IfOk result (λ ok. ok ≡ list_all (stands extra) rules.now) }
{
    for rule in rules {
        if !stands(alloc, rule, extra)? {
            return Ok(false);
        }
    }
    Ok(true)
}

/// Reads the rules of a line. A line outside the grammar is told before one whose ops may not stand so.
#[tactic(auto, unfolding(crate::specs::Texts::rules_of_line))]
pub fn line_rules(alloc: Global, line: &[u8], extra: bool) -> Result<Vec<Rule>, Fault>
    ensures { Gives (λ rules. rules.items) result (rules_of_line extra line.now) }
{
    if is_skipped(line) {
        return Ok(Vec::new(alloc));
    }
    let rules = written(alloc, line)?;
    if all_stand(alloc, &rules, extra)? {
        Ok(rules)
    } else {
        Err(Fault::Op)
    }
}
