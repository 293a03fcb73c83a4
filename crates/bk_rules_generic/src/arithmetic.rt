// Families of sums, products, quotients and bits.
ghost use Rattle.std.specs.Prelude.{◌≡◌, IfOk};
ghost use Rattle.bk_rules_generic.specs.Families.{fold, fold_one, unit, absorb, cancel, same, twice, turn, sub_const, add_twice, add_neg, mul_power, div_one, div_power, mod_power};

use crate::constants::{constant, constant_at, make_constant};
use bk_ops::Family;
use bk_rule::make::{call, make, node, op, rule, rule_if};
use bk_rule::{Build, Expr, Fun, Pattern, Rule};
use std::alloc::{AllocError, Global};

/// `(f (Const [c]) (Const [d])) => (Const [c g d])`.
pub(crate) fn fold(alloc: Global, f: Family, g: Fun, w: u8) -> Result<Rule, AllocError>
    ensures { IfOk result (λ r. r ≡ fold f g w) }
{
    let args = [constant(alloc, w, 0)?, constant(alloc, w, 1)?];
    let left = node(alloc, op(f, w, 0), args)?;
    let int = call(alloc, g, [Expr::Var(0), Expr::Var(1)])?;
    Ok(rule(alloc, left, make_constant(alloc, w, int)?))
}

/// `(f (Const [c])) => (Const [g c])`.
pub(crate) fn fold_one(alloc: Global, f: Family, g: Fun, w: u8) -> Result<Rule, AllocError>
    ensures { IfOk result (λ r. r ≡ fold_one f g w) }
{
    let left = node(alloc, op(f, w, 0), [constant(alloc, w, 0)?])?;
    let int = call(alloc, g, [Expr::Var(0)])?;
    Ok(rule(alloc, left, make_constant(alloc, w, int)?))
}

/// `(f (Const [k]) x) => x`.
pub(crate) fn unit(alloc: Global, f: Family, k: i64, w: u8) -> Result<Rule, AllocError>
    ensures { IfOk result (λ r. r ≡ unit f k w) }
{
    let args = [constant_at(alloc, w, k)?, Pattern::Var(0)];
    let left = node(alloc, op(f, w, 0), args)?;
    Ok(rule(alloc, left, Build::Var(0)))
}

/// `(f (Const [k]) _) => (Const [k])`.
pub(crate) fn absorb(alloc: Global, f: Family, k: i64, w: u8) -> Result<Rule, AllocError>
    ensures { IfOk result (λ r. r ≡ absorb f k w) }
{
    let args = [constant_at(alloc, w, k)?, Pattern::Any];
    let left = node(alloc, op(f, w, 0), args)?;
    Ok(rule(alloc, left, make_constant(alloc, w, Expr::Number(k))?))
}

/// `(f x x) => (Const [0])`.
pub(crate) fn cancel(alloc: Global, f: Family, w: u8) -> Result<Rule, AllocError>
    ensures { IfOk result (λ r. r ≡ cancel f w) }
{
    let left = node(alloc, op(f, w, 0), [Pattern::Var(0), Pattern::Var(0)])?;
    Ok(rule(alloc, left, make_constant(alloc, w, Expr::Number(0))?))
}

/// `(f x x) => x`.
pub(crate) fn same(alloc: Global, f: Family, w: u8) -> Result<Rule, AllocError>
    ensures { IfOk result (λ r. r ≡ same f w) }
{
    let left = node(alloc, op(f, w, 0), [Pattern::Var(0), Pattern::Var(0)])?;
    Ok(rule(alloc, left, Build::Var(0)))
}

/// `(f (f x)) => x`.
pub(crate) fn twice(alloc: Global, f: Family, w: u8) -> Result<Rule, AllocError>
    ensures { IfOk result (λ r. r ≡ twice f w) }
{
    let inner = node(alloc, op(f, w, 0), [Pattern::Var(0)])?;
    let left = node(alloc, op(f, w, 0), [inner])?;
    Ok(rule(alloc, left, Build::Var(0)))
}

/// `(f (Const [-1]) x) => (g x)`.
pub(crate) fn turn(alloc: Global, f: Family, g: Family, w: u8) -> Result<Rule, AllocError>
    ensures { IfOk result (λ r. r ≡ turn f g w) }
{
    let args = [constant_at(alloc, w, -1)?, Pattern::Var(0)];
    let left = node(alloc, op(f, w, 0), args)?;
    Ok(rule(alloc, left, make(alloc, op(g, w, 0), [Build::Var(0)])?))
}

/// `(Sub x (Const [c])) => (Add (Const [-c]) x)`.
pub(crate) fn sub_const(alloc: Global, w: u8) -> Result<Rule, AllocError>
    ensures { IfOk result (λ r. r ≡ sub_const w) }
{
    let args = [Pattern::Var(0), constant(alloc, w, 1)?];
    let left = node(alloc, op(Family::Sub, w, 0), args)?;
    let int = call(alloc, Fun::Neg, [Expr::Var(1)])?;
    let args = [make_constant(alloc, w, int)?, Build::Var(0)];
    Ok(rule(alloc, left, make(alloc, op(Family::Add, w, 0), args)?))
}

/// `(Add (Const [c]) (Add (Const [d]) x)) => (Add (Const [c+d]) x)`.
pub(crate) fn add_twice(alloc: Global, w: u8) -> Result<Rule, AllocError>
    ensures { IfOk result (λ r. r ≡ add_twice w) }
{
    let add = op(Family::Add, w, 0);
    let args = [constant(alloc, w, 1)?, Pattern::Var(2)];
    let args = [constant(alloc, w, 0)?, node(alloc, add, args)?];
    let left = node(alloc, add, args)?;
    let int = call(alloc, Fun::Add, [Expr::Var(0), Expr::Var(1)])?;
    let args = [make_constant(alloc, w, int)?, Build::Var(2)];
    Ok(rule(alloc, left, make(alloc, add, args)?))
}

/// `(Add x (Neg y)) => (Sub x y)`.
pub(crate) fn add_neg(alloc: Global, w: u8) -> Result<Rule, AllocError>
    ensures { IfOk result (λ r. r ≡ add_neg w) }
{
    let negated = node(alloc, op(Family::Neg, w, 0), [Pattern::Var(1)])?;
    let left = node(alloc, op(Family::Add, w, 0), [Pattern::Var(0), negated])?;
    let args = [Build::Var(0), Build::Var(1)];
    Ok(rule(alloc, left, make(alloc, op(Family::Sub, w, 0), args)?))
}

/// `(Mul (Const [c]) x) && isPowerOfTwo(c) => (Lshx32 x (Const32 [log2(c)]))`.
pub(crate) fn mul_power(alloc: Global, w: u8) -> Result<Rule, AllocError>
    ensures { IfOk result (λ r. r ≡ mul_power w) }
{
    let args = [constant(alloc, w, 0)?, Pattern::Var(1)];
    let left = node(alloc, op(Family::Mul, w, 0), args)?;
    let cond = call(alloc, Fun::IsPowerOfTwo, [Expr::Var(0)])?;
    let exponent = call(alloc, Fun::Log2, [Expr::Var(0)])?;
    let args = [Build::Var(1), make_constant(alloc, 32, exponent)?];
    rule_if(
        alloc,
        left,
        cond,
        make(alloc, op(Family::Lsh, w, 32), args)?,
    )
}

/// `(Div x (Const [1])) => x`.
pub(crate) fn div_one(alloc: Global, w: u8) -> Result<Rule, AllocError>
    ensures { IfOk result (λ r. r ≡ div_one w) }
{
    let args = [Pattern::Var(0), constant_at(alloc, w, 1)?];
    let left = node(alloc, op(Family::Div, w, 0), args)?;
    Ok(rule(alloc, left, Build::Var(0)))
}

/// `(Divu x (Const [c])) && isPowerOfTwo(c) => (RshUx32 x (Const32 [log2(c)]))`.
pub(crate) fn div_power(alloc: Global, w: u8) -> Result<Rule, AllocError>
    ensures { IfOk result (λ r. r ≡ div_power w) }
{
    let args = [Pattern::Var(0), constant(alloc, w, 1)?];
    let left = node(alloc, op(Family::Divu, w, 0), args)?;
    let cond = call(alloc, Fun::IsPowerOfTwo, [Expr::Var(1)])?;
    let exponent = call(alloc, Fun::Log2, [Expr::Var(1)])?;
    let args = [Build::Var(0), make_constant(alloc, 32, exponent)?];
    rule_if(
        alloc,
        left,
        cond,
        make(alloc, op(Family::RshU, w, 32), args)?,
    )
}

/// `(Modu x (Const [c])) && isPowerOfTwo(c) => (And x (Const [c-1]))`.
pub(crate) fn mod_power(alloc: Global, w: u8) -> Result<Rule, AllocError>
    ensures { IfOk result (λ r. r ≡ mod_power w) }
{
    let args = [Pattern::Var(0), constant(alloc, w, 1)?];
    let left = node(alloc, op(Family::Modu, w, 0), args)?;
    let cond = call(alloc, Fun::IsPowerOfTwo, [Expr::Var(1)])?;
    let mask = call(alloc, Fun::Sub, [Expr::Var(1), Expr::Number(1)])?;
    let args = [Build::Var(0), make_constant(alloc, w, mask)?];
    rule_if(alloc, left, cond, make(alloc, op(Family::And, w, 0), args)?)
}
