//! Lines that declare a variable.
ghost use Rattle.std.specs.Prelude.{◌≡◌, ◌≤◌, length};
ghost use Rattle.std.specs.Option.{option_map};
ghost use Rattle.bk_dump.specs.Headers.{is_hex_byte, hex_len, are_pairs, digits_to_end, hex_at, var_name_at, var_at};

use crate::read::name::name;
use crate::read::number::decimal;
use crate::read::part::{behind, is_done, skip_blanks};
use std::marker::Model;

/// The line `var NAME SIZE` or `var NAME SIZE = HEX`. Contracts see its texts as lists.
#[derive(Drop)]
pub struct VarLine<'a> {
    pub name: &'a str,
    /// A size past 2^64 counts as 2^64.
    pub size: u128,
    /// Pairs of hexadecimal digits, one for each of the first bytes.
    pub hex: &'a [u8],
}

impl<'a> Model for VarLine<'a> {
    ghost use Rattle.bk_dump.specs.Trees.{VarTree};

    ghost Value = { VarTree };

    ghost view = { λ v. record { name = v.name.now; size = v.size; hex = v.hex.now } };
}

/// A hexadecimal digit.
#[tactic(auto, unfolding(crate::specs::Headers::is_hex_byte))]
fn is_hex_byte(byte: u8) -> bool
    ensures { result ≡ is_hex_byte byte }
{
    byte.is_ascii_hexdigit()
}

/// How many hexadecimal digits the text begins with.
fn hex_len(text: &[u8]) -> usize
    ensures value { result ≡ hex_len text.now }
    ensures within { result ≤ length text.now }
{
    text.iter()
        .position(|byte| !is_hex_byte(*byte))
        .unwrap_or(text.len())
}

/// Whether so many digits are pairs, at least one and at most one for each byte.
fn are_pairs(digits: usize, size: u128) -> bool
    ensures { result ≡ are_pairs digits size }
{
    digits > 0 && digits % 2 == 0 && (digits / 2) as u128 <= size
}

/// The hexadecimal digits to the end of the line, at most two for each of `size` bytes.
#[tactic(auto, unfolding(crate::specs::Headers::digits_to_end))]
fn digits_to_end(text: &[u8], size: u128) -> Option<&[u8]>
    ensures { option_map (λ x. x.now) result ≡ digits_to_end size text.now }
{
    let len = hex_len(text);
    if !are_pairs(len, size) {
        return None;
    }
    let (hex, rest) = text.split_at(len);
    if is_done(rest) { Some(hex) } else { None }
}

/// The hexadecimal digits behind a `=`; none where no `=` stands.
#[tactic(auto, unfolding(crate::specs::Headers::hex_at))]
fn hex_part(text: &[u8], size: u128) -> Option<&[u8]>
    ensures { option_map (λ x. x.now) result ≡ hex_at size text.now }
{
    match behind(text, b"=") {
        Some(rest) => digits_to_end(skip_blanks(rest), size),
        None if is_done(text) => Some(&[]),
        None => None,
    }
}

/// The name behind `var`, and the text behind it.
#[tactic(auto, unfolding(crate::specs::Headers::var_name_at))]
fn var_name(line: &[u8]) -> Option<(&str, &[u8])>
    ensures { option_map (λ x. (x.0.now, x.1.now)) result ≡ var_name_at line.now }
{
    let (word, rest) = name(line)?;
    if word == "var" { name(rest) } else { None }
}

/// Reads a variable's line.
#[tactic(auto, unfolding(crate::specs::Headers::var_at))]
pub fn var_line(line: &[u8]) -> Option<VarLine<'_>>
    ensures { result ≡ var_at line.now }
{
    let (name, rest) = var_name(line)?;
    let (size, rest) = decimal(skip_blanks(rest))?;
    let hex = hex_part(rest, size)?;
    Some(VarLine { name, size, hex })
}
