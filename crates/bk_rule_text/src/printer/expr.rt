//! Expressions and conditions.
ghost use Rattle.std.specs.Prelude.{◌≡◌, ◌++◌, map, codes, string_bytes, OnOk};
ghost use Rattle.bk_rule_text.specs.Layout.{is_prefix, is_infix, is_operation, expr_text, inner_text, call_text, one_text, function_text, separator, joined, conditions_text};

use crate::printer::word::symbol;
use bk_rule::{Expr, Fun};
use std::alloc::AllocError;

/// Whether this is an operator that stands before its operand.
#[tactic(auto, unfolding(crate::specs::Layout::is_prefix))]
fn is_prefix(fun: Fun) -> bool
    ensures { result ≡ is_prefix fun }
{
    matches!(fun, Fun::Neg | Fun::Com)
}

/// Whether this is an operator that stands between its operands.
#[tactic(auto, unfolding(crate::specs::Layout::is_infix))]
fn is_infix(fun: Fun) -> bool
    ensures { result ≡ is_infix fun }
{
    match fun {
        Fun::Mul | Fun::Shl | Fun::Shr | Fun::And => true,
        Fun::Add | Fun::Sub | Fun::Or | Fun::Xor => true,
        Fun::Eq | Fun::Ne | Fun::Lt | Fun::Le => true,
        _ => false,
    }
}

/// Whether the expression is a use of an operator.
#[tactic(auto, unfolding(crate::specs::Layout::operates))]
fn is_operation(expr: &Expr) -> bool
    ensures { result ≡ is_operation expr.now }
{
    match expr {
        Expr::Number(_) | Expr::Var(_) => false,
        Expr::Call { fun, args } => match args.len() {
            1 => is_prefix(*fun),
            2 => is_infix(*fun),
            _ => false,
        },
    }
}

/// Writes an expression.
#[cycle(expr)]
#[tactic(auto, unfolding(crate::specs::Layout::variable))]
pub fn write_expr(out: &mut String, expr: &Expr) -> Result<(), AllocError>
    ensures { OnOk result (string_bytes out.new ≡ string_bytes out.old ++ expr_text expr.now) }
{
    match expr {
        Expr::Number(number) => write!(out, "{number}"),
        Expr::Var(variable) => write!(out, "x{variable}"),
        Expr::Call { fun, args } => write_call(out, *fun, args.as_slice()),
    }
}

/// Writes an expression inside another one.
#[cycle(expr)]
fn write_inner(out: &mut String, expr: &Expr) -> Result<(), AllocError>
    ensures { OnOk result (string_bytes out.new ≡ string_bytes out.old ++ inner_text expr.now) }
{
    if !is_operation(expr) {
        return write_expr(out, expr);
    }
    out.push_str("(")?;
    write_expr(out, expr)?;
    out.push_str(")")
}

/// Writes a call.
#[cycle(expr)]
fn write_call(out: &mut String, fun: Fun, args: &[Expr]) -> Result<(), AllocError>
    ensures { OnOk result (string_bytes out.new ≡ string_bytes out.old ++ call_text fun (map inner_text args.now)) }
{
    match args {
        [x] => write_one(out, fun, x),
        [x, y] => {
            if !is_infix(fun) {
                return write_function(out, fun, args);
            }
            write_inner(out, x)?;
            write_spaced(out, symbol(fun))?;
            write_inner(out, y)
        }
        _ => write_function(out, fun, args),
    }
}

/// Writes a call of one operand.
#[cycle(expr)]
#[tactic(auto, unfolding(crate::specs::Layout::one_text, crate::specs::Layout::is_uses))]
fn write_one(out: &mut String, fun: Fun, x: &Expr) -> Result<(), AllocError>
    ensures { OnOk result (string_bytes out.new ≡ string_bytes out.old ++ one_text fun (inner_text x.now)) }
{
    if is_prefix(fun) {
        write_prefix(out, symbol(fun))?;
        write_inner(out, x)
    } else if fun == Fun::Uses {
        write_inner(out, x)?;
        out.push_str(".Uses")
    } else {
        out.push_str(symbol(fun))?;
        out.push_str("(")?;
        write_inner(out, x)?;
        out.push_str(")")
    }
}

/// What stands before the operand at a place.
#[tactic(auto, unfolding(crate::specs::Layout::separator))]
fn separator(place: usize) -> &'static str
    ensures { result.now ≡ separator place }
{
    if place == 0 { "" } else { "," }
}

/// Writes operands.
#[cycle(expr)]
#[tactic(auto, unfolding(crate::specs::Layout::joined))]
fn write_joined(out: &mut String, args: &[Expr]) -> Result<(), AllocError>
    ensures { OnOk result (string_bytes out.new ≡ string_bytes out.old ++ joined 0 (map inner_text args.now)) }
{
    for (place, arg) in args.iter().enumerate() {
        out.push_str(separator(place))?;
        write_inner(out, arg)?;
    }
    Ok(())
}

/// Writes a call of a function.
#[cycle(expr)]
#[tactic(auto, unfolding(crate::specs::Layout::function_text))]
fn write_function(out: &mut String, fun: Fun, args: &[Expr]) -> Result<(), AllocError>
    ensures { OnOk result (string_bytes out.new ≡ string_bytes out.old ++ function_text fun (map inner_text args.now)) }
{
    out.push_str(symbol(fun))?;
    out.push_str("(")?;
    write_joined(out, args)?;
    out.push_str(")")
}

fn write_prefix(out: &mut String, text: &str) -> Result<(), AllocError>
    ensures { OnOk result (string_bytes out.new ≡ string_bytes out.old ++ (text.now ++ codes " ")) }
{
    write!(out, "{text} ")
}

fn write_spaced(out: &mut String, text: &str) -> Result<(), AllocError>
    ensures { OnOk result (string_bytes out.new ≡ string_bytes out.old ++ (codes " " ++ (text.now ++ codes " "))) }
{
    write!(out, " {text} ")
}

/// Writes conditions, each behind ` && `.
#[tactic(auto, unfolding(crate::specs::Layout::conditions_text))]
pub fn write_conditions(out: &mut String, conds: &[Expr]) -> Result<(), AllocError>
    ensures { OnOk result (string_bytes out.new ≡ string_bytes out.old ++ conditions_text conds.now) }
{
    for cond in conds {
        out.push_str(" && ")?;
        write_expr(out, cond)?;
    }
    Ok(())
}
