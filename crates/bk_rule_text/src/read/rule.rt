//! Rules.
ghost use Rattle.std.specs.Prelude.{◌≡◌, length};
ghost use Rattle.bk_rule_text.specs.Exprs.{expr_at};
ghost use Rattle.bk_rule_text.specs.Rules.{conditions, right_at, first_in_right, written_at, rule_at};
ghost use Rattle.bk_rule_text.specs.Views.{Reads};

use crate::errors::Unread;
use crate::read::build::build;
use crate::read::expr::expr;
use crate::read::front::{behind, is_done};
use crate::read::levels::Levels;
use crate::read::names::{Names, Scope};
use crate::read::pattern::left;
use crate::read::whole::{whole, whole_rule};
use bk_rule::{Build, Expr, Pattern, Rule};
use sqlite_items::Items;
use std::alloc::Global;

/// Reads the conditions, as many as stand here, each behind `&&`.
fn conditions<'t>(
    alloc: Global,
    scope: &Scope,
    levels: Levels,
    text: &'t [u8],
) -> Result<(Items<Expr>, &'t [u8]), Unread>
    ensures { Reads (λ x. (x.0, x.1.now)) result (conditions (expr_at scope.now levels.left) (length text.now) text.now) }
{
    let mut conds = Vec::new(alloc);
    let mut rest = text;
    for turn in 0..text.len() {
        let Some(inside) = behind(rest, b"&&") else {
            return Ok((Items::from_vec(conds), rest));
        };
        let (cond, next) = expr(alloc, scope, levels, inside)?;
        conds.push(cond)?;
        rest = next;
    }
    Ok((Items::from_vec(conds), rest))
}

/// Reads the right tree behind `=>`, which ends the rule.
#[tactic(auto, unfolding(crate::specs::Rules::right_at))]
fn right(alloc: Global, scope: &Scope, levels: Levels, text: &[u8]) -> Result<Build, Unread>
    ensures { Reads (λ right. right) result (right_at scope.now levels.left text.now) }
{
    let Some(inside) = behind(text, b"=>") else {
        return Err(Unread::Syntax);
    };
    let (right, rest) = build(alloc, scope, levels, inside)?;
    if is_done(rest) {
        Ok(right)
    } else {
        Err(Unread::Syntax)
    }
}

/// The first variable that a right tree may name: not the one that names the root of the left tree.
fn first_in_right(left: &Pattern) -> usize
    ensures { result ≡ first_in_right left.now }
{
    match left {
        Pattern::Node { var: Some(_), .. } => 1,
        _ => 0,
    }
}

/// Reads `sexpr [&& conditions] => sexpr`.
#[tactic(auto, unfolding(crate::specs::Rules::written_at))]
fn written(alloc: Global, text: &[u8]) -> Result<Rule, Unread>
    ensures { Reads (λ rule. rule) result (written_at text.now) }
{
    let levels = Levels::of(text.len());
    let mut names = Names::new(alloc);
    let (left, rest) = left(alloc, &mut names, levels, text)?;
    let all = Scope {
        names: &names,
        first: 0,
    };
    let (conds, rest) = conditions(alloc, &all, levels, rest)?;
    let inner = Scope {
        names: &names,
        first: first_in_right(&left),
    };
    let right = right(alloc, &inner, levels, rest)?;
    Ok(Rule { left, conds, right })
}

/// Reads a rule without groups.
#[tactic(auto, unfolding(crate::specs::Rules::rule_at))]
pub fn rule(alloc: Global, text: &[u8]) -> Result<Rule, Unread>
    ensures { Reads (λ rule. rule) result (rule_at text.now) }
{
    match whole(text) {
        Some((from, to)) => Ok(whole_rule(alloc, from, to)?),
        None => written(alloc, text),
    }
}
