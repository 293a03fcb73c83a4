// The names of ops.
ghost use Rattle.std.specs.Prelude.{◌≡◌, ◌↔◌, Some, ◌<◌, length, position, IfSome, IfOk, string_bytes};
ghost use Rattle.bk_ops.specs.Reading.{begins_width, front, back, width_at, is_spelt, family_of, read};
ghost use Rattle.bk_ops.specs.Names.{digits, spelled, name_of, HasName};
ghost use Rattle.bk_ops.specs.Table.{is_op};
ghost use Rattle.bk_ops.specs.declared.table.Op.{Op};

use crate::table::row_of;
use crate::index::families;
use crate::{Family, Memory, Op};
use std::alloc::Global;

/// The digits of a number that a name has, none at 0.
#[tactic(auto, unfolding(crate::specs::Names::digits))]
fn digits(n: u8) -> &'static str
    ensures { result.now ≡ digits n }
{
    match n {
        1 => "1",
        2 => "2",
        4 => "4",
        8 => "8",
        16 => "16",
        32 => "32",
        64 => "64",
        _ => "",
    }
}

/// The name of the op, empty where no name has its family with its widths.
#[tactic(auto, unfolding(crate::specs::Names::name_of, crate::specs::Names::spelled, crate::specs::Table::is_op))]
pub fn op_name(alloc: Global, op: Op) -> Result<String, Memory>
    ensures { IfOk result (λ name. string_bytes name ≡ name_of op) }
{
    let mut name = String::new(alloc);
    let row = row_of(op);
    if row.widths.allow(op.a, op.b) {
        name.push_str(row.head)?;
        name.push_str(digits(op.a))?;
        name.push_str(row.tail)?;
        name.push_str(digits(op.b))?;
    }
    Ok(name)
}

#[tactic(auto, unfolding(crate::specs::Reading::begins_width))]
/// A digit from 1 to 9: the first byte of a width, and no byte of a head or a tail.
fn begins_width(c: u8) -> bool
    ensures { result ≡ begins_width c }
{
    49 <= c && c <= 57
}

/// Where the first width begins.
fn first_width(text: &[u8]) -> Option<usize>
    ensures at { result ≡ position begins_width text.now }
    ensures within { IfSome result (λ at. at < length text.now) }
{
    text.iter().position(|c| begins_width(*c))
}

/// The text before the first width, and the text from there on.
#[tactic(auto, unfolding(crate::specs::Reading::front, crate::specs::Reading::back))]
fn split_letters(text: &[u8]) -> (&[u8], &[u8])
    ensures front { result.0.now ≡ front text.now }
    ensures back { result.1.now ≡ back text.now }
{
    match first_width(text) {
        Some(at) => text.split_at(at),
        None => (text, &[]),
    }
}

/// The width at the front of the text, 0 where there is none, and the text behind it.
#[tactic(auto, unfolding(crate::specs::Reading::width_at))]
fn split_width(text: &[u8]) -> (u8, &[u8])
    ensures width { result.0 ≡ (width_at text.now).0 }
    ensures rest { result.1.now ≡ (width_at text.now).1 }
{
    match text {
        [b'1', b'6', rest @ ..] => (16, rest),
        [b'3', b'2', rest @ ..] => (32, rest),
        [b'6', b'4', rest @ ..] => (64, rest),
        [b'1', rest @ ..] => (1, rest),
        [b'2', rest @ ..] => (2, rest),
        [b'4', rest @ ..] => (4, rest),
        [b'8', rest @ ..] => (8, rest),
        _ => (0, text),
    }
}

/// Whether the family's names have this head and this tail.
#[tactic(auto, unfolding(crate::specs::Reading::is_spelt))]
fn is_spelt(op: Op, head: &[u8], tail: &[u8]) -> bool
    ensures { result ≡ is_spelt op.a op.b head.now tail.now op.family }
{
    let row = row_of(op);
    row.head.as_bytes() == head && row.tail.as_bytes() == tail
}

/// The family whose names have this head and this tail.
#[tactic(auto, unfolding(crate::specs::Reading::family_of))]
fn family_of(a: u8, b: u8, head: &[u8], tail: &[u8]) -> Option<Family>
    ensures { result ≡ family_of a b head.now tail.now }
{
    families(head.len()).iter().copied().find(|family| {
        let family = *family;
        is_spelt(Op { family, a, b }, head, tail)
    })
}

#[tactic(auto, unfolding(crate::specs::Reading::read, crate::specs::Table::is_op))]
fn read(name: &[u8]) -> Option<Op>
    ensures { result ≡ read name.now }
{
    let (head, rest) = split_letters(name);
    let (a, rest) = split_width(rest);
    let (tail, rest) = split_letters(rest);
    let (b, rest) = split_width(rest);
    let family = family_of(a, b, head, tail)?;
    let op = Op { family, a, b };
    if rest.is_empty() && row_of(op).widths.allow(a, b) {
        Some(op)
    } else {
        None
    }
}

/// The op of this name, None exactly for a name that no op has.
pub fn op_of_name(name: &[u8]) -> Option<Op>
    ensures { (o : Op) → (result ≡ Some o) ↔ HasName o name.now }
{
    read(name)
}
