//! Texts of rules.
ghost use Rattle.std.specs.Prelude.{◌≡◌, ◌<◌, ◌≤◌, ◌∷◌, length};
ghost use Rattle.std.specs.List.{position_or_len};
ghost use Rattle.bk_rule_text.specs.Texts.{without_cr, is_lf, lines, at, at_line, rules_of_line, rules_of};
ghost use Rattle.bk_rule_text.specs.Views.{Answers};

use crate::errors::{Fault, RuleError};
use crate::read::line::line_rules;
use bk_rule::Rule;
use std::alloc::Global;

/// The line without the CR that it may end in.
#[tactic(auto, unfolding(crate::specs::Texts::without_cr))]
fn without_cr(line: &[u8]) -> &[u8]
    ensures { result.now ≡ without_cr line.now }
{
    match line.strip_suffix(b"\r") {
        Some(line) => line,
        None => line,
    }
}

/// How many bytes stand before the first LF.
fn line_len(text: &[u8]) -> usize
    ensures value { result ≡ position_or_len is_lf text.now }
    ensures within { result ≤ length text.now }
{
    text.iter()
        .position(|byte| *byte == b'\n')
        .unwrap_or(text.len())
}

/// The first line of a text without its LF, or CR and LF, and the text behind it. The last line may lack its LF.
fn split_line(text: &[u8]) -> (&[u8], &[u8])
    requires { 0 < length text.now }
    ensures split { lines text.now ≡ result.0.now ∷ lines result.1.now }
    ensures shorter { length result.1.now < length text.now }
{
    let end = line_len(text);
    if end == text.len() {
        (text, &[])
    } else {
        (without_cr(&text[..end]), &text[end + 1..])
    }
}

/// The refusal of the line with this number.
fn at(line: u64, fault: Fault) -> RuleError
    ensures { result ≡ at line fault }
{
    match fault {
        Fault::Syntax => RuleError::RuleSyntax { line },
        Fault::Op => RuleError::RuleOp { line },
        Fault::Memory => RuleError::Memory,
    }
}

/// Reads the rules of the line with this number.
fn rules_of_line(
    alloc: Global,
    number: u64,
    line: &[u8],
    extra: bool,
) -> Result<Vec<Rule>, RuleError>
    ensures { Answers (λ rules. rules.items) result (at_line number (rules_of_line extra line.now)) }
{
    match line_rules(alloc, line, extra) {
        Ok(rules) => Ok(rules),
        Err(fault) => Err(at(number, fault)),
    }
}

/// Reads the rules of a text, one a line, or one for each part of the groups of a line.
///
/// The first line at fault decides; on one line `RuleSyntax` stands before `RuleOp`. With `extra` the rules may name
/// only ops that both targets have, whose widths stand in their names or that are on bool, and all widths have to fit.
/// A line whose brackets stand more than 1,000 deep in one another is answered as want of memory.
pub fn read_rules(alloc: Global, bytes: &[u8], extra: bool) -> Result<Vec<Rule>, RuleError>
    ensures { Answers (λ rules. rules.items) result (rules_of extra bytes.now) }
{
    let mut rules = Vec::new(alloc);
    let mut rest = bytes;
    let mut number = 1u64;
    while !rest.is_empty() {
        let (line, next) = split_line(rest);
        let mut more = rules_of_line(alloc, number, line, extra)?;
        rules.append(&mut more)?;
        rest = next;
        number += 1;
    }
    Ok(rules)
}
