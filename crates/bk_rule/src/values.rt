// The values of expressions and conditions under bindings.
ghost use Rattle.std.specs.Prelude.{◌≡◌, slice_get};
ghost use Rattle.bk_rule.specs.Bindings.{int_in, type_in, value_in, bound_env};
ghost use Rattle.bk_rule.specs.Expressions.{asks, on_one, on_two, unary, binary, at_variable, of_variable, variable_of, is_bool, expr_value, is_true, hold_each, wrap};

use crate::numbers::{binary, unary};
use crate::{Bound, Expr, Fun, Rule};
use bk_func::{Func, uses};
use bk_num::sext;
use bk_ops::{Target, Ty, size};

/// What the expression gives under the bindings of its rule at a value of the function, None where it
/// has no value: a `log2` of what is no power of two.
///
/// A variable that is not bound to what its place asks for counts as 0, or as a type of no size. A call
/// of a function with another count of operands than its own has no value.
pub fn aux_value(func: &Func, expr: &Expr, binds: &[Bound], target: Target) -> Option<i64>
    ensures { result ≡ expr_value target (bound_env func.now binds.now) expr.now }
{
    match expr {
        Expr::Number(number) => Some(*number),
        Expr::Var(variable) => Some(int_of(binds, *variable)),
        Expr::Call { fun, args } => match args.as_slice() {
            [x] => {
                if asks(*fun) {
                    about(func, *fun, x, binds, target)
                } else {
                    on_one(*fun, aux_value(func, x, binds, target))
                }
            }
            [x, y] => on_two(
                *fun,
                aux_value(func, x, binds, target),
                aux_value(func, y, binds, target),
            ),
            _ => None,
        },
    }
}

#[tactic(auto, using(crate::proofs::Equations::condition_holds, crate::proofs::Equations::condition_fails, crate::proofs::Equations::conditions_end))]
/// Whether each condition of the rule has a value other than 0 under the bindings.
pub fn holds(func: &Func, rule: &Rule, binds: &[Bound], target: Target) -> bool
    ensures { result ≡ hold_each target (bound_env func.now binds.now) rule.now.conds }
{
    for condition in rule.conds.as_slice() {
        if !is_true(aux_value(func, condition, binds, target)) {
            return false;
        }
    }
    true
}

fn is_true(value: Option<i64>) -> bool
    ensures { result ≡ is_true value }
{
    match value {
        Some(number) => number != 0,
        None => false,
    }
}

/// Whether the function is one of what a variable stands for, not of its number.
fn asks(fun: Fun) -> bool
    ensures { result ≡ asks fun }
{
    matches!(fun, Fun::Size | Fun::IsBool | Fun::Uses)
}

fn on_one(fun: Fun, x: Option<i64>) -> Option<i64>
    ensures { result ≡ on_one x (unary fun) }
{
    unary(fun, x?)
}

fn on_two(fun: Fun, x: Option<i64>, y: Option<i64>) -> Option<i64>
    ensures { result ≡ on_two x y (binary fun) }
{
    binary(fun, x?, y?)
}

/// A function of what a variable stands for.
fn about(func: &Func, fun: Fun, expr: &Expr, binds: &[Bound], target: Target) -> Option<i64>
    ensures { result ≡ at_variable (variable_of expr.now) (of_variable target (bound_env func.now binds.now) fun) }
{
    match expr {
        Expr::Var(variable) => of_variable(func, fun, *variable, binds, target),
        _ => None,
    }
}

fn of_variable(func: &Func, fun: Fun, variable: u32, binds: &[Bound], target: Target) -> Option<i64>
    ensures { result ≡ of_variable target (bound_env func.now binds.now) fun variable }
{
    match fun {
        Fun::Size => Some(size(type_of(binds, variable), target) as i64),
        Fun::IsBool => Some(if type_of(binds, variable) == Ty::Bool {
            1
        } else {
            0
        }),
        Fun::Uses => Some(sext(64, uses(func, value_of(binds, variable)))),
        _ => None,
    }
}

fn int_of(binds: &[Bound], variable: u32) -> i64
    ensures { result ≡ int_in (slice_get binds.now variable) }
{
    match binds.get(variable as usize) {
        Some(Bound::Int(number)) => *number,
        _ => 0,
    }
}

fn type_of(binds: &[Bound], variable: u32) -> Ty
    ensures { result ≡ type_in (slice_get binds.now variable) }
{
    match binds.get(variable as usize) {
        Some(Bound::Ty(ty)) => *ty,
        _ => Ty::Void,
    }
}

fn value_of(binds: &[Bound], variable: u32) -> u32
    ensures { result ≡ value_in (slice_get binds.now variable) }
{
    match binds.get(variable as usize) {
        Some(Bound::Value(id)) => *id,
        _ => 0,
    }
}
