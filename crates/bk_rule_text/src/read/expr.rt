//! Expressions.
ghost use Rattle.std.specs.Prelude.{◌≡◌, codes, length};
ghost use Rattle.std.specs.Option.{option_map};
ghost use Rattle.bk_rule_text.specs.Front.{closed};
ghost use Rattle.bk_rule_text.specs.Words.{variable_at};
ghost use Rattle.bk_rule_text.specs.Exprs.{expr_at, operator_at, chain, level_at, tighter_at, whole_at, operand_at, operand_in, literal_at, prefixed_at, opened_at, function_at, one_at, two_at, of_type_at, about_variable_at, uses_at};
ghost use Rattle.bk_rule_text.specs.Views.{Reads};

use crate::errors::Unread;
use crate::read::front::{after, behind, skip_blanks};
use crate::read::levels::Levels;
use crate::read::names::Scope;
use crate::read::number::{begins_number, number};
use crate::read::operator::{Level, Operands, function_named, operands_of, operator, prefix};
use crate::read::word::{name, run, variable};
use bk_rule::{Expr, Fun, make};
use std::alloc::Global;

/// Reads an expression, and gives the text behind it.
#[tactic(auto, unfolding(crate::specs::Exprs::expr_at))]
pub fn expr<'t>(
    alloc: Global,
    scope: &Scope,
    levels: Levels,
    text: &'t [u8],
) -> Result<(Expr, &'t [u8]), Unread>
    ensures { Reads (λ x. (x.0, x.1.now)) result (expr_at scope.now levels.left text.now) }
{
    chain(alloc, scope, levels, Level::Comparison, text)
}

/// Reads operands with the operators of this level between them, which group from the left.
#[cycle(expr)]
#[tactic(auto, unfolding(crate::specs::Exprs::chained))]
fn chain<'t>(
    alloc: Global,
    scope: &Scope,
    levels: Levels,
    level: Level,
    text: &'t [u8],
) -> Result<(Expr, &'t [u8]), Unread>
    ensures { Reads (λ x. (x.0, x.1.now)) result (level_at (operand_at scope.now levels.left) level text.now) }
{
    let (left, rest) = tighter(alloc, scope, levels, level, text)?;
    chain_on(alloc, scope, levels, level, left, rest)
}

/// Reads the operators of this level and their right operands, whose first left operand was read.
#[cycle(expr)]
fn chain_on<'t>(
    alloc: Global,
    scope: &Scope,
    levels: Levels,
    level: Level,
    left: Expr,
    text: &'t [u8],
) -> Result<(Expr, &'t [u8]), Unread>
    ensures { Reads (λ x. (x.0, x.1.now)) result (chain (operator_at level) (tighter_at (operand_at scope.now levels.left) level) (length text.now) left text.now) }
{
    let mut whole = left;
    let mut rest = text;
    for turn in 0..text.len() {
        let Some((fun, next)) = operator(level, rest) else {
            return Ok((whole, rest));
        };
        let (right, next) = tighter(alloc, scope, levels, level, next)?;
        whole = make::call(alloc, fun, [whole, right])?;
        rest = next;
    }
    Ok((whole, rest))
}

/// Reads an operand of an operator of this level.
#[cycle(expr)]
fn tighter<'t>(
    alloc: Global,
    scope: &Scope,
    levels: Levels,
    level: Level,
    text: &'t [u8],
) -> Result<(Expr, &'t [u8]), Unread>
    ensures { Reads (λ x. (x.0, x.1.now)) result (tighter_at (operand_at scope.now levels.left) level text.now) }
{
    match level {
        Level::Product => operand(alloc, scope, levels, text),
        Level::Sum => chain(alloc, scope, levels, Level::Product, text),
        Level::Comparison => chain(alloc, scope, levels, Level::Sum, text),
    }
}

/// Reads an operand of the tightest operators.
#[cycle(expr)]
fn operand<'t>(
    alloc: Global,
    scope: &Scope,
    levels: Levels,
    text: &'t [u8],
) -> Result<(Expr, &'t [u8]), Unread>
    ensures { Reads (λ x. (x.0, x.1.now)) result (operand_at scope.now levels.left text.now) }
{
    let inner = levels.inner()?;
    operand_in(alloc, scope, inner, skip_blanks(text))
}

/// Reads a number, an operator before its operand, an expression in brackets, a call of a function, or a variable.
#[cycle(expr)]
#[tactic(auto, unfolding(crate::specs::Exprs::operand_in))]
fn operand_in<'t>(
    alloc: Global,
    scope: &Scope,
    inner: Levels,
    text: &'t [u8],
) -> Result<(Expr, &'t [u8]), Unread>
    ensures { Reads (λ x. (x.0, x.1.now)) result (operand_in scope.now (operand_at scope.now inner.left) text.now) }
{
    if begins_number(text) {
        return literal(text);
    }
    if let Some((fun, rest)) = prefix(text) {
        return prefixed(alloc, scope, inner, fun, rest);
    }
    if let Some(rest) = after(text, b"(") {
        return bracketed(alloc, scope, inner, rest);
    }
    match opened(text) {
        Some((name, rest)) => function(alloc, scope, inner, name, rest),
        None => about_variable(alloc, scope, text),
    }
}

#[tactic(auto, unfolding(crate::specs::Exprs::literal_at))]
fn literal(text: &[u8]) -> Result<(Expr, &[u8]), Unread>
    ensures { Reads (λ x. (x.0, x.1.now)) result (literal_at text.now) }
{
    match number(text) {
        Some((number, rest)) => Ok((Expr::Number(number), rest)),
        None => Err(Unread::Syntax),
    }
}

/// Reads the operand of an operator that stands before it.
#[cycle(expr)]
#[tactic(auto, unfolding(crate::specs::Exprs::prefixed_at))]
fn prefixed<'t>(
    alloc: Global,
    scope: &Scope,
    levels: Levels,
    fun: Fun,
    text: &'t [u8],
) -> Result<(Expr, &'t [u8]), Unread>
    ensures { Reads (λ x. (x.0, x.1.now)) result (prefixed_at (operand_at scope.now levels.left) fun text.now) }
{
    let (inner, rest) = operand(alloc, scope, levels, text)?;
    Ok((make::call(alloc, fun, [inner])?, rest))
}

/// Reads an expression and the bracket that closes it.
#[cycle(expr)]
#[tactic(auto, unfolding(crate::specs::Front::closed))]
fn bracketed<'t>(
    alloc: Global,
    scope: &Scope,
    levels: Levels,
    text: &'t [u8],
) -> Result<(Expr, &'t [u8]), Unread>
    ensures { Reads (λ x. (x.0, x.1.now)) result (closed (codes ")") (whole_at (operand_at scope.now levels.left)) text.now) }
{
    let (inner, rest) = chain(alloc, scope, levels, Level::Comparison, text)?;
    match behind(rest, b")") {
        Some(rest) => Ok((inner, rest)),
        None => Err(Unread::Syntax),
    }
}

/// The name of a function, and the text behind the bracket that it opens.
#[tactic(auto, unfolding(crate::specs::Exprs::opened_at, crate::specs::Front::closed))]
fn opened(text: &[u8]) -> Option<(&[u8], &[u8])>
    ensures { option_map (λ x. (x.0.now, x.1.now)) result ≡ opened_at text.now }
{
    let (name, rest) = name(text)?;
    Some((name, behind(rest, b"(")?))
}

/// Reads what a function is given, and the bracket that closes it.
#[cycle(expr)]
#[tactic(auto, unfolding(crate::specs::Exprs::function_at))]
fn function<'t>(
    alloc: Global,
    scope: &Scope,
    levels: Levels,
    name: &[u8],
    text: &'t [u8],
) -> Result<(Expr, &'t [u8]), Unread>
    ensures { Reads (λ x. (x.0, x.1.now)) result (function_at scope.now (whole_at (operand_at scope.now levels.left)) name.now text.now) }
{
    let Some(fun) = function_named(name) else {
        return Err(Unread::Syntax);
    };
    match operands_of(fun) {
        Operands::One => one(alloc, scope, levels, fun, text),
        Operands::Two => two(alloc, scope, levels, fun, text),
        Operands::Type => of_type(alloc, scope, fun, text),
    }
}

/// Reads an expression, and the bracket that closes it.
#[cycle(expr)]
#[tactic(auto, unfolding(crate::specs::Exprs::one_at))]
fn one<'t>(
    alloc: Global,
    scope: &Scope,
    levels: Levels,
    fun: Fun,
    text: &'t [u8],
) -> Result<(Expr, &'t [u8]), Unread>
    ensures { Reads (λ x. (x.0, x.1.now)) result (one_at (whole_at (operand_at scope.now levels.left)) fun text.now) }
{
    let (inner, rest) = bracketed(alloc, scope, levels, text)?;
    Ok((make::call(alloc, fun, [inner])?, rest))
}

/// Reads two expressions with a comma between them, and the bracket that closes them.
#[cycle(expr)]
#[tactic(auto, unfolding(crate::specs::Exprs::two_at, crate::specs::Front::closed))]
fn two<'t>(
    alloc: Global,
    scope: &Scope,
    levels: Levels,
    fun: Fun,
    text: &'t [u8],
) -> Result<(Expr, &'t [u8]), Unread>
    ensures { Reads (λ x. (x.0, x.1.now)) result (two_at (whole_at (operand_at scope.now levels.left)) fun text.now) }
{
    let (first, rest) = chain(alloc, scope, levels, Level::Comparison, text)?;
    let Some(rest) = behind(rest, b",") else {
        return Err(Unread::Syntax);
    };
    let (second, rest) = bracketed(alloc, scope, levels, rest)?;
    Ok((make::call(alloc, fun, [first, second])?, rest))
}

/// Reads the variable of a type, and the bracket that closes it.
#[tactic(auto, unfolding(crate::specs::Exprs::of_type_at))]
fn of_type<'t>(
    alloc: Global,
    scope: &Scope,
    fun: Fun,
    text: &'t [u8],
) -> Result<(Expr, &'t [u8]), Unread>
    ensures { Reads (λ x. (x.0, x.1.now)) result (of_type_at scope.now fun text.now) }
{
    let Some((name, rest)) = closed_variable(text) else {
        return Err(Unread::Syntax);
    };
    let number = scope.number(name)?;
    Ok((make::call(alloc, fun, [Expr::Var(number)])?, rest))
}

/// A variable, and the text behind the bracket that closes it.
#[tactic(auto, unfolding(crate::specs::Front::closed))]
fn closed_variable(text: &[u8]) -> Option<(&[u8], &[u8])>
    ensures { option_map (λ x. (x.0.now, x.1.now)) result ≡ closed (codes ")") variable_at text.now }
{
    let (name, rest) = variable(text)?;
    Some((name, behind(rest, b")")?))
}

/// Reads `x.Uses` or a variable.
#[tactic(auto, unfolding(crate::specs::Exprs::about_variable_at))]
fn about_variable<'t>(
    alloc: Global,
    scope: &Scope,
    text: &'t [u8],
) -> Result<(Expr, &'t [u8]), Unread>
    ensures { Reads (λ x. (x.0, x.1.now)) result (about_variable_at scope.now text.now) }
{
    let Some((name, rest)) = variable(text) else {
        return Err(Unread::Syntax);
    };
    let number = scope.number(name)?;
    match uses(rest) {
        Some(rest) => Ok((make::call(alloc, Fun::Uses, [Expr::Var(number)])?, rest)),
        None => Ok((Expr::Var(number), rest)),
    }
}

/// The text behind `.Uses`, before which no blank stands.
#[tactic(auto, unfolding(crate::specs::Exprs::uses_at))]
fn uses(text: &[u8]) -> Option<&[u8]>
    ensures { option_map (λ x. x.now) result ≡ uses_at text.now }
{
    let (word, rest) = run(after(text, b".")?);
    if word == b"Uses".as_slice() {
        Some(rest)
    } else {
        None
    }
}
