//! The extra rules.

ghost use Rattle.std.specs.Prelude.{◌≡◌, ◌≢◌, [], true, Ok, map, string_bytes, IfOk, IfErr, IfSome};
ghost use Rattle.bk_rule_text.specs.Texts.{rules_of};
ghost use Rattle.bk_top.specs.Answer.{AreExtra, IsExtraRefusal, IsRulesRefusal, stream};

use crate::refusal::Refusal;
use bk_io::{ReadError, Source, read_all};
use bk_rule::Rule;
use bk_rule_text::{RuleError, read_rules};
use std::alloc::Global;

/// The most bytes of the text of extra rules.
const RULES_LIMIT: usize = 65_536;

/// The rules that the source spells; none, and the source is not read, where the words name none.
pub fn extra_rules<X: Source>(
    alloc: Global,
    words: &[String],
    extra: &mut X,
) -> Result<Vec<Rule>, Refusal>
    ensures rules { IfOk result (λ rules. AreExtra (map string_bytes words.now) (X.left extra.old) rules.items) }
    ensures cause { IfErr result (λ refusal. (map string_bytes words.now ≢ []) × IsExtraRefusal (stream (X.left extra.old) (X.faults extra.old) (X.faults extra.new)) refusal) }
    ensures unread { map string_bytes words.now ≡ [] → extra.new ≡ extra.old }
{
    if words.is_empty() {
        return Ok(Vec::new(alloc));
    }
    let text = extra_text(alloc, extra)?;
    rules_of(alloc, &text)
}

/// The rules that a text spells.
fn rules_of(alloc: Global, text: &[u8]) -> Result<Vec<Rule>, Refusal>
    ensures rules { IfOk result (λ rules. rules_of true text.now ≡ Ok rules.items) }
    ensures cause { IfErr result (IsRulesRefusal text.now) }
{
    match read_rules(alloc, text, true) {
        Ok(rules) => Ok(rules),
        Err(RuleError::RuleSyntax { line }) => Err(Refusal::RuleSyntax { line }),
        Err(RuleError::RuleOp { line }) => Err(Refusal::RuleOp { line }),
        Err(RuleError::Memory) => Err(Refusal::Memory),
    }
}

fn extra_text<X: Source>(alloc: Global, extra: &mut X) -> Result<Vec<u8>, Refusal>
    ensures bytes { IfOk result (λ bytes. IfSome (X.left extra.old) (λ left. bytes.items ≡ left)) }
    ensures cause { IfErr result (IsExtraRefusal (stream (X.left extra.old) (X.faults extra.old) (X.faults extra.new))) }
{
    match read_all(alloc, extra, RULES_LIMIT) {
        Ok(bytes) => Ok(bytes),
        Err(ReadError::ReadFault) => Err(Refusal::ReadFault),
        Err(ReadError::TooLong) => Err(Refusal::ExtraTooLong),
        Err(ReadError::Memory) => Err(Refusal::Memory),
    }
}
