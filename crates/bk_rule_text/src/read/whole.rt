//! Rules that replace an op alone: `(Op ...) => (Op2 ...)`.
ghost use Rattle.std.specs.Prelude.{◌≡◌, ◌≤◌, map, IfOk};
ghost use Rattle.std.specs.Option.{option_map};
ghost use Rattle.bk_ops.specs.Table.{info_of};
ghost use Rattle.bk_rule.specs.Trees.{var, named};
ghost use Rattle.bk_rule_text.specs.Rules.{whole_op_at, whole_at, fixed, count_or_none, int_of, made_int, aux_of, first_argument, numbers_from, whole_rule};

use crate::read::front::{behind, is_done};
use crate::read::pattern::{NO_OP, op};
use bk_ops::{AuxKind, Op, op_info};
use bk_rule::{Build, Expr, IntPart, Pattern, Rule};
use sqlite_items::Items;
use std::alloc::{AllocError, Global};

/// `(Op ...)`, and the text behind it.
#[tactic(auto, unfolding(crate::specs::Rules::whole_op_at))]
fn whole_op(text: &[u8]) -> Option<(Op, &[u8])>
    ensures { option_map (λ x. (x.0, x.1.now)) result ≡ whole_op_at text.now }
{
    let (op, rest) = op(behind(text, b"(")?)?;
    let rest = behind(behind(rest, b"...")?, b")")?;
    Some((op, rest))
}

/// The ops of `(Op ...) => (Op2 ...)`.
#[tactic(auto, unfolding(crate::specs::Rules::whole_at))]
pub fn whole(text: &[u8]) -> Option<(Op, Op)>
    ensures { result ≡ whole_at text.now }
{
    let (from, rest) = whole_op(text)?;
    let (to, rest) = whole_op(behind(rest, b"=>")?)?;
    if is_done(rest) {
        Some((from, to))
    } else {
        None
    }
}

/// The op, if it has a fixed count of arguments.
#[tactic(auto, unfolding(crate::specs::Rules::fixed))]
fn fixed(op: Op) -> Op
    ensures { result ≡ fixed op }
{
    match op_info(op).arity {
        Some(_) => op,
        None => NO_OP,
    }
}

/// How many arguments the op has.
fn count_of(op: Op) -> u8
    ensures { result ≡ count_or_none (info_of op).arity }
{
    op_info(op).arity.unwrap_or(0)
}

/// The variable of an op's AuxInt.
fn int_of(kind: AuxKind) -> Option<IntPart>
    ensures { result ≡ int_of kind }
{
    match kind {
        AuxKind::Int => Some(IntPart::Var(0)),
        AuxKind::None | AuxKind::Name | AuxKind::Ty => None,
    }
}

/// The same on the right side.
fn made_int(kind: AuxKind) -> Option<Expr>
    ensures { result ≡ made_int kind }
{
    match kind {
        AuxKind::Int => Some(Expr::Var(0)),
        AuxKind::None | AuxKind::Name | AuxKind::Ty => None,
    }
}

/// The variable of what an op has in braces.
fn aux_of(kind: AuxKind) -> Option<u32>
    ensures { result ≡ aux_of kind }
{
    match kind {
        AuxKind::Name | AuxKind::Ty => Some(0),
        AuxKind::None | AuxKind::Int => None,
    }
}

/// The number of the variable of the first argument.
fn first_argument(kind: AuxKind) -> u32
    ensures value { result ≡ first_argument kind }
    ensures within { result ≤ 1 }
{
    match kind {
        AuxKind::None => 0,
        AuxKind::Int | AuxKind::Name | AuxKind::Ty => 1,
    }
}

/// So many variables from this number on.
fn patterns(alloc: Global, first: u32, count: u8) -> Result<Items<Pattern>, AllocError>
    requires { first ≤ 1 }
    ensures { IfOk result (λ args. args ≡ map var (numbers_from first count)) }
{
    let mut args = Vec::with_capacity(alloc, usize::from(count))?;
    for place in 0..count {
        args.push(Pattern::Var(first + u32::from(place)))?;
    }
    Ok(Items::from_vec(args))
}

/// The same on the right side.
fn builds(alloc: Global, first: u32, count: u8) -> Result<Items<Build>, AllocError>
    requires { first ≤ 1 }
    ensures { IfOk result (λ args. args ≡ map named (numbers_from first count)) }
{
    let mut args = Vec::with_capacity(alloc, usize::from(count))?;
    for place in 0..count {
        args.push(Build::Var(first + u32::from(place)))?;
    }
    Ok(Items::from_vec(args))
}

/// The rule that replaces an op by another, whose parts are those of the first.
#[tactic(auto, unfolding(crate::specs::Rules::whole_rule, crate::specs::Rules::arguments))]
pub fn whole_rule(alloc: Global, from: Op, to: Op) -> Result<Rule, AllocError>
    ensures { IfOk result (λ rule. rule ≡ whole_rule from to) }
{
    let kind = op_info(from).aux;
    let first = first_argument(kind);
    let left = Pattern::Node {
        var: None,
        op: fixed(from),
        ty: None,
        int: int_of(kind),
        aux: aux_of(kind),
        args: patterns(alloc, first, count_of(from))?,
    };
    let right = Build::Node {
        op: fixed(to),
        ty: None,
        int: made_int(kind),
        aux: aux_of(kind),
        args: builds(alloc, first, count_of(from))?,
    };
    Ok(Rule {
        left,
        conds: Items::new(alloc),
        right,
    })
}
