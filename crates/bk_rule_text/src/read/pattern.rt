//! Left trees.
ghost use Rattle.std.specs.Prelude.{◌≡◌, codes, length};
ghost use Rattle.std.specs.Option.{option_map};
ghost use Rattle.bk_ops.specs.Reading.{read as op_in_table};
ghost use Rattle.bk_rule_text.specs.Front.{closed};
ghost use Rattle.bk_rule_text.specs.Numbers.{number_at};
ghost use Rattle.bk_rule_text.specs.Words.{variable_at};
ghost use Rattle.bk_rule_text.specs.Patterns.{op_of, op_at, marked_at, int_at, int_part_at, front_at, node_at, patterns_at, named_node_at, variable_or_node_at, pattern_at, pattern_in, is_node, left_at};
ghost use Rattle.bk_rule_text.specs.Views.{Reads};

use crate::errors::Unread;
use crate::read::front::{behind, skip_blanks};
use crate::read::levels::Levels;
use crate::read::names::Names;
use crate::read::number::{begins_number, number};
use crate::read::word::{any, name, variable};
use bk_ops::{Family, Op, op_of_name};
use bk_rule::{IntPart, Pattern};
use sqlite_items::Items;
use std::alloc::Global;

/// What an op in no table is read as: `Copy`, which no rule may have either.
pub const NO_OP: Op = Op {
    family: Family::Copy,
    a: 0,
    b: 0,
};

/// A node up to its arguments.
#[derive(Clone, Copy)]
struct Front {
    op: Op,
    ty: Option<u32>,
    int: Option<IntPart>,
    aux: Option<u32>,
}

/// The op of this name, where one has it.
fn op_in_table(name: &[u8]) -> Option<Op>
    ensures { result ≡ op_in_table name.now }
{
    op_of_name(name)
}

/// The op of this name.
#[tactic(auto, unfolding(crate::specs::Patterns::op_of))]
pub fn op_named(name: &[u8]) -> Op
    ensures { result ≡ op_of name.now }
{
    match op_in_table(name) {
        Some(op) => op,
        None => NO_OP,
    }
}

/// The op that stands here, and the text behind it.
#[tactic(auto, unfolding(crate::specs::Patterns::op_at))]
pub fn op(text: &[u8]) -> Option<(Op, &[u8])>
    ensures { option_map (λ x. (x.0, x.1.now)) result ≡ op_at text.now }
{
    let (name, rest) = name(text)?;
    Some((op_named(name), rest))
}

/// A variable, and the text behind the mark that closes it.
#[tactic(auto, unfolding(crate::specs::Front::closed))]
pub fn closed<'t>(text: &'t [u8], close: &[u8]) -> Option<(&'t [u8], &'t [u8])>
    ensures { option_map (λ x. (x.0.now, x.1.now)) result ≡ closed close.now variable_at text.now }
{
    let (name, rest) = variable(text)?;
    Some((name, behind(rest, close)?))
}

/// Reads a variable between these marks, where the first of them stands.
#[tactic(auto, unfolding(crate::specs::Patterns::marked_at))]
fn marked<'a>(
    names: &mut Names<'a>,
    opening: &[u8],
    closing: &[u8],
    text: &'a [u8],
) -> Result<(Option<u32>, &'a [u8]), Unread>
    ensures { Reads (λ x. (x.0, names.new, x.1.now)) result (marked_at opening.now closing.now names.old text.now) }
{
    let Some(inside) = behind(text, opening) else {
        return Ok((None, text));
    };
    let Some((name, rest)) = closed(inside, closing) else {
        return Err(Unread::Syntax);
    };
    Ok((Some(names.number(name)?), rest))
}

/// A number, and the text behind the bracket that closes it.
#[tactic(auto, unfolding(crate::specs::Front::closed))]
fn closed_number(text: &[u8]) -> Option<(i64, &[u8])>
    ensures { option_map (λ x. (x.0, x.1.now)) result ≡ closed (codes "]") number_at text.now }
{
    let (number, rest) = number(text)?;
    Some((number, behind(rest, b"]")?))
}

/// Reads a number or a variable, and the bracket that closes it.
#[tactic(auto, unfolding(crate::specs::Patterns::int_at))]
fn int<'a>(names: &mut Names<'a>, text: &'a [u8]) -> Result<(Option<IntPart>, &'a [u8]), Unread>
    ensures { Reads (λ x. (x.0, names.new, x.1.now)) result (int_at names.old text.now) }
{
    if begins_number(text) {
        let Some((number, rest)) = closed_number(text) else {
            return Err(Unread::Syntax);
        };
        return Ok((Some(IntPart::Number(number)), rest));
    }
    let Some((name, rest)) = closed(text, b"]") else {
        return Err(Unread::Syntax);
    };
    Ok((Some(IntPart::Var(names.number(name)?)), rest))
}

/// Reads the AuxInt, where one stands.
#[tactic(auto, unfolding(crate::specs::Patterns::int_part_at))]
fn int_part<'a>(
    names: &mut Names<'a>,
    text: &'a [u8],
) -> Result<(Option<IntPart>, &'a [u8]), Unread>
    ensures { Reads (λ x. (x.0, names.new, x.1.now)) result (int_part_at names.old text.now) }
{
    match behind(text, b"[") {
        Some(inside) => int(names, skip_blanks(inside)),
        None => Ok((None, text)),
    }
}

/// Reads a node up to its arguments, its bracket being open.
#[tactic(auto, unfolding(crate::specs::Patterns::front_at))]
fn head<'a>(names: &mut Names<'a>, text: &'a [u8]) -> Result<(Front, &'a [u8]), Unread>
    ensures { Reads (λ x. (x.0, names.new, x.1.now)) result (front_at names.old text.now) }
{
    let Some((op, rest)) = op(text) else {
        return Err(Unread::Syntax);
    };
    let (ty, rest) = marked(names, b"<", b">", rest)?;
    let (int, rest) = int_part(names, rest)?;
    let (aux, rest) = marked(names, b"{", b"}", rest)?;
    Ok((Front { op, ty, int, aux }, rest))
}

/// Reads a node, whose bracket is open.
#[cycle(pattern)]
#[tactic(auto, unfolding(crate::specs::Patterns::node_at))]
fn node<'a>(
    alloc: Global,
    names: &mut Names<'a>,
    levels: Levels,
    var: Option<u32>,
    text: &'a [u8],
) -> Result<(Pattern, &'a [u8]), Unread>
    ensures { Reads (λ x. (x.0, names.new, x.1.now)) result (node_at (pattern_at levels.left) var names.old text.now) }
{
    let (Front { op, ty, int, aux }, rest) = head(names, text)?;
    let (args, rest) = patterns(alloc, names, levels, rest)?;
    Ok((
        Pattern::Node {
            var,
            op,
            ty,
            int,
            aux,
            args,
        },
        rest,
    ))
}

/// Reads arguments and the bracket that closes them.
#[cycle(pattern)]
fn patterns<'a>(
    alloc: Global,
    names: &mut Names<'a>,
    levels: Levels,
    text: &'a [u8],
) -> Result<(Items<Pattern>, &'a [u8]), Unread>
    ensures { Reads (λ x. (x.0, names.new, x.1.now)) result (patterns_at (pattern_at levels.left) (length text.now) names.old text.now) }
{
    let mut args = Vec::new(alloc);
    let mut rest = text;
    for turn in 0..text.len() {
        if let Some(rest) = behind(rest, b")") {
            return Ok((Items::from_vec(args), rest));
        }
        let (arg, next) = pattern(alloc, names, levels, rest)?;
        args.push(arg)?;
        rest = next;
    }
    Err(Unread::Syntax)
}

/// Reads the node that a variable names.
#[cycle(pattern)]
#[tactic(auto, unfolding(crate::specs::Patterns::named_node_at))]
fn named_node<'a>(
    alloc: Global,
    names: &mut Names<'a>,
    levels: Levels,
    var: u32,
    text: &'a [u8],
) -> Result<(Pattern, &'a [u8]), Unread>
    ensures { Reads (λ x. (x.0, names.new, x.1.now)) result (named_node_at (pattern_at levels.left) var names.old text.now) }
{
    match behind(text, b"(") {
        Some(rest) => node(alloc, names, levels, Some(var), rest),
        None => Err(Unread::Syntax),
    }
}

/// Reads a variable, or the node that it names.
#[cycle(pattern)]
#[tactic(auto, unfolding(crate::specs::Patterns::variable_or_node_at))]
fn variable_or_node<'a>(
    alloc: Global,
    names: &mut Names<'a>,
    levels: Levels,
    text: &'a [u8],
) -> Result<(Pattern, &'a [u8]), Unread>
    ensures { Reads (λ x. (x.0, names.new, x.1.now)) result (variable_or_node_at (pattern_at levels.left) names.old text.now) }
{
    let Some((name, rest)) = variable(text) else {
        return Err(Unread::Syntax);
    };
    let var = names.number(name)?;
    match behind(rest, b":") {
        Some(rest) => named_node(alloc, names, levels, var, rest),
        None => Ok((Pattern::Var(var), rest)),
    }
}

/// Reads a left tree, and gives the text behind it.
#[cycle(pattern)]
fn pattern<'a>(
    alloc: Global,
    names: &mut Names<'a>,
    levels: Levels,
    text: &'a [u8],
) -> Result<(Pattern, &'a [u8]), Unread>
    ensures { Reads (λ x. (x.0, names.new, x.1.now)) result (pattern_at levels.left names.old text.now) }
{
    let inner = levels.inner()?;
    pattern_in(alloc, names, inner, text)
}

/// Reads `_`, a node, or a variable and the node that it names.
#[cycle(pattern)]
#[tactic(auto, unfolding(crate::specs::Patterns::pattern_in))]
fn pattern_in<'a>(
    alloc: Global,
    names: &mut Names<'a>,
    inner: Levels,
    text: &'a [u8],
) -> Result<(Pattern, &'a [u8]), Unread>
    ensures { Reads (λ x. (x.0, names.new, x.1.now)) result (pattern_in (pattern_at inner.left) names.old text.now) }
{
    if let Some(rest) = any(text) {
        return Ok((Pattern::Any, rest));
    }
    match behind(text, b"(") {
        Some(rest) => node(alloc, names, inner, None, rest),
        None => variable_or_node(alloc, names, inner, text),
    }
}

fn is_node(pattern: &Pattern) -> bool
    ensures { result ≡ is_node pattern.now }
{
    matches!(pattern, Pattern::Node { .. })
}

/// Reads the left tree of a rule, which is a node.
#[tactic(auto, unfolding(crate::specs::Patterns::left_at))]
pub fn left<'a>(
    alloc: Global,
    names: &mut Names<'a>,
    levels: Levels,
    text: &'a [u8],
) -> Result<(Pattern, &'a [u8]), Unread>
    ensures { Reads (λ x. (x.0, names.new, x.1.now)) result (left_at levels.left names.old text.now) }
{
    let (left, rest) = pattern(alloc, names, levels, text)?;
    if is_node(&left) {
        Ok((left, rest))
    } else {
        Err(Unread::Syntax)
    }
}
