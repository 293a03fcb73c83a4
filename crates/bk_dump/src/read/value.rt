//! Lines of values.
ghost use Rattle.std.specs.Prelude.{◌≡◌, codes, IfOk};
ghost use Rattle.std.specs.Option.{option_map};
ghost use Rattle.bk_ops.specs.Reading.{read as op_named};
ghost use Rattle.bk_dump.specs.Blocks.{mark_of};
ghost use Rattle.bk_dump.specs.Values.{is_written, op_at, ungrouped, left_at, head_at, groups_at, value_at};

use crate::read::beside::beside;
use crate::read::end::groups;
use crate::read::mention::Mention;
use crate::read::name::word;
use crate::read::number::{few_numbers, numbered};
use crate::read::part::{behind, group, skip_blanks};
use crate::read::types::value_type;
use bk_ops::{Family, Op, Ty, op_of_name};
use smallvec::SmallVec;
use std::alloc::{AllocError, Global};
use std::marker::Model;

/// The line `vN = OP <type> {aux} [int] args`.
#[derive(Drop)]
pub struct ValueLine<'a> {
    pub id: u32,
    pub op: Op,
    pub ty: Ty,
    pub args: SmallVec<u32, 4>,
    /// The AuxInt, 0 where the op has none.
    pub int: i64,
    pub mention: Mention<'a>,
}

impl<'a> Model for ValueLine<'a> {
    ghost use Rattle.bk_dump.specs.Trees.{ValueTree};

    ghost Value = { ValueTree };

    ghost view = { λ v. record { id = v.id; op = v.op; ty = v.ty; args = v.args.items; int = v.int; mention = v.mention } };
}

/// Whether texts name ops of this family: machine ops and the ops of words stand in no text.
#[tactic(auto, unfolding(crate::specs::Values::is_written))]
fn is_written(family: Family) -> bool
    ensures { result ≡ is_written family }
{
    match family {
        Family::ArgWord
        | Family::ArgReg
        | Family::ResWord
        | Family::ResReg
        | Family::OutWord
        | Family::RetWord
        | Family::RetRegs
        | Family::Call
        | Family::CallRegs
        | Family::Trap => false,
        Family::Arm(_) | Family::Rv(_) => false,
        _ => true,
    }
}

/// The op of this name.
fn op_named(name: &[u8]) -> Option<Op>
    ensures { result ≡ op_named name.now }
{
    op_of_name(name)
}

/// The op that stands here, and the text behind it.
#[tactic(auto, unfolding(crate::specs::Values::op_at))]
fn op(text: &[u8]) -> Option<(Op, &[u8])>
    ensures { option_map (λ x. (x.0, x.1.now)) result ≡ op_at text.now }
{
    let (name, rest) = word(text);
    let op = op_named(name)?;
    if is_written(op.family) {
        Some((op, rest))
    } else {
        None
    }
}

/// The text behind a group, where one stands.
#[tactic(auto, unfolding(crate::specs::Values::ungrouped))]
fn ungrouped(text: &[u8]) -> &[u8]
    ensures { result.now ≡ ungrouped text.now }
{
    match group(text) {
        Some((_, rest)) => rest,
        None => text,
    }
}

/// The number of a value that is made here, and the text behind the `=`. A group may stand between them.
#[tactic(auto, unfolding(crate::specs::Values::left_at))]
fn left(line: &[u8]) -> Option<(u32, &[u8])>
    ensures { option_map (λ x. (x.0, x.1.now)) result ≡ left_at line.now }
{
    let (id, rest) = numbered(skip_blanks(line), b"v")?;
    Some((id, behind(ungrouped(rest), b"=")?))
}

/// The line up to its arguments, of which none is read yet, and the text behind.
#[tactic(auto, unfolding(crate::specs::Values::head_at))]
fn head(alloc: Global, line: &[u8]) -> Option<(ValueLine<'_>, &[u8])>
    ensures { option_map (λ x. (x.0, x.1.now)) result ≡ head_at line.now }
{
    let (id, rest) = left(line)?;
    let (op, rest) = op(rest)?;
    let (ty, rest) = value_type(rest)?;
    let (mention, int, rest) = beside(op, rest)?;
    Some((
        ValueLine {
            id,
            op,
            ty,
            args: SmallVec::new(alloc),
            int,
            mention,
        },
        rest,
    ))
}

/// Reads a value's line.
#[tactic(auto, unfolding(crate::specs::Values::value_at))]
pub fn value_line(alloc: Global, line: &[u8]) -> Result<Option<ValueLine<'_>>, AllocError>
    ensures { IfOk result (λ read. read ≡ value_at line.now) }
{
    let Some((mut value, rest)) = head(alloc, line) else {
        return Ok(None);
    };
    let (args, rest) = few_numbers(alloc, rest, b"v")?;
    if groups(rest).is_none() {
        return Ok(None);
    }
    value.args = args;
    Ok(Some(value))
}
