//! Groups, as in `(64|32|16|8)`, and the rules that they stand for.
ghost use Rattle.std.specs.Prelude.{◌≡◌, ◌≤◌, ◌++◌, [], length, map, slice_index_or, IfOk, OnOk};
ghost use Rattle.std.specs.List.{list_all};
ghost use Rattle.std.specs.Option.{option_map};
ghost use Rattle.bk_rule_text.specs.Groups.{is_part_byte, part_len, part_at, parts_at, group_at, bit_at, bits, first_count, has_count, count_of, bytes_at, expanded};
ghost use Rattle.bk_rule_text.specs.Views.{bit_of};

use crate::read::front::after;
use std::alloc::{AllocError, Global};

/// A bit of a line.
#[derive(Drop)]
pub enum Bit<'a> {
    /// A byte that stands for itself.
    Byte(u8),
    /// The parts of a group.
    Group(Vec<&'a [u8]>),
}

/// A letter or a digit.
#[tactic(auto, unfolding(crate::specs::Groups::is_part_byte))]
fn is_part_byte(byte: u8) -> bool
    ensures { result ≡ is_part_byte byte }
{
    byte.is_ascii_alphanumeric()
}

/// How many letters and digits the text begins with.
fn part_len(text: &[u8]) -> usize
    ensures value { result ≡ part_len text.now }
    ensures within { result ≤ length text.now }
{
    text.iter()
        .position(|byte| !is_part_byte(*byte))
        .unwrap_or(text.len())
}

/// A part of a group, and the text behind it.
#[tactic(auto, unfolding(crate::specs::Groups::part_at))]
fn part(text: &[u8]) -> Option<(&[u8], &[u8])>
    ensures { option_map (λ x. (x.0.now, x.1.now)) result ≡ part_at text.now }
{
    let len = part_len(text);
    if len == 0 {
        None
    } else {
        Some(text.split_at(len))
    }
}

/// Parts with `|` between them up to the bracket that closes them, and the text behind it.
fn parts<'a>(alloc: Global, text: &'a [u8]) -> Result<Option<(Vec<&'a [u8]>, &'a [u8])>, AllocError>
    ensures { IfOk result (λ found. option_map (λ x. (map (λ part. part.now) x.0.items, x.1.now)) found ≡ parts_at (length text.now) text.now) }
{
    let mut parts = Vec::new(alloc);
    let mut rest = text;
    for turn in 0..text.len() {
        let Some((found, next)) = part(rest) else {
            return Ok(None);
        };
        parts.push(found)?;
        if let Some(next) = after(next, b")") {
            return Ok(Some((parts, next)));
        }
        let Some(next) = after(next, b"|") else {
            return Ok(None);
        };
        rest = next;
    }
    Ok(None)
}

/// The parts of the group that stands here, and the text behind it. A group has two parts or more.
#[tactic(auto, unfolding(crate::specs::Groups::group_at))]
fn group<'a>(alloc: Global, text: &'a [u8]) -> Result<Option<(Vec<&'a [u8]>, &'a [u8])>, AllocError>
    ensures { IfOk result (λ found. option_map (λ x. (map (λ part. part.now) x.0.items, x.1.now)) found ≡ group_at text.now) }
{
    let Some(inside) = after(text, b"(") else {
        return Ok(None);
    };
    match parts(alloc, inside)? {
        Some((parts, rest)) if parts.len() != 1 => Ok(Some((parts, rest))),
        _ => Ok(None),
    }
}

/// The bit that begins a text, whose first byte and the bytes behind it are these, and the text behind it.
fn next_bit<'a>(
    alloc: Global,
    text: &'a [u8],
    first: u8,
    rest: &'a [u8],
) -> Result<(Bit<'a>, &'a [u8]), AllocError>
    ensures { IfOk result (λ x. (bit_of x.0, x.1.now) ≡ bit_at (group_at text.now) first rest.now) }
{
    match group(alloc, text)? {
        Some((parts, rest)) => Ok((Bit::Group(parts), rest)),
        None => Ok((Bit::Byte(first), rest)),
    }
}

/// The bits of a line.
#[tactic(auto, unfolding(crate::specs::Groups::bits))]
pub fn bits(alloc: Global, line: &[u8]) -> Result<Vec<Bit<'_>>, AllocError>
    ensures { IfOk result (λ found. map bit_of found.items ≡ bits line.now) }
{
    let mut bits = Vec::new(alloc);
    let mut rest = line;
    for turn in 0..line.len() {
        let Some((first, behind)) = rest.split_first() else {
            return Ok(bits);
        };
        let (bit, next) = next_bit(alloc, rest, *first, behind)?;
        bits.push(bit)?;
        rest = next;
    }
    Ok(bits)
}

/// The count of the parts of the first group, 1 where there is none.
fn first_count(bits: &[Bit]) -> usize
    ensures { result ≡ first_count (map bit_of bits.now) }
{
    for bit in bits {
        if let Bit::Group(parts) = bit {
            return parts.len();
        }
    }
    1
}

/// Whether a bit is a group of so many parts, or a byte.
fn has_count(bit: &Bit, count: usize) -> bool
    ensures { result ≡ has_count count (bit_of bit.now) }
{
    match bit {
        Bit::Byte(_) => true,
        Bit::Group(parts) => parts.len() == count,
    }
}

/// Whether all groups have so many parts.
fn all_have(bits: &[Bit], count: usize) -> bool
    ensures { result ≡ list_all (λ bit. has_count count (bit_of bit)) bits.now }
{
    bits.iter().all(|bit| has_count(bit, count))
}

/// How many rules a line with these bits stands for, None where its groups have different numbers of parts.
#[tactic(auto, unfolding(crate::specs::Groups::count_of))]
pub fn count_of(bits: &[Bit]) -> Option<usize>
    ensures { result ≡ count_of (map bit_of bits.now) }
{
    let count = first_count(bits);
    if all_have(bits, count) {
        Some(count)
    } else {
        None
    }
}

/// What a group stands for in the rule at this place.
fn part_of<'a>(parts: &[&'a [u8]], place: usize) -> &'a [u8]
    ensures { result.now ≡ slice_index_or (map (λ part. part.now) parts.now) place [] }
{
    match parts.get(place) {
        Some(part) => part,
        None => &[],
    }
}

/// Writes what a bit stands for in the rule at this place.
fn write_bit(text: &mut Vec<u8>, bit: &Bit, place: usize) -> Result<(), AllocError>
    ensures { OnOk result (text.new.items ≡ text.old.items ++ bytes_at place (bit_of bit.now)) }
{
    match bit {
        Bit::Byte(byte) => Ok(text.push(*byte)?),
        Bit::Group(parts) => text.extend_from_slice(part_of(parts, place)),
    }
}

/// The text of the rule at this place, of those that the line stands for.
pub fn expanded(alloc: Global, bits: &[Bit], place: usize) -> Result<Vec<u8>, AllocError>
    ensures { IfOk result (λ text. text.items ≡ expanded place (map bit_of bits.now)) }
{
    let mut text = Vec::new(alloc);
    for bit in bits {
        write_bit(&mut text, bit, place)?;
    }
    Ok(text)
}
