//! What a call of a function begins with: its stack, and the numbers that words give to its arguments.

ghost use Rattle.std.specs.Prelude.{◌≡◌, ◌≤◌, ◌↔◌, ℕ, map, string_bytes, IfOk, IfSome, IfNone, IsTrue};
ghost use Rattle.bk_top.specs.Arguments.{own_stack, FitsBits, IsTruth, FitsType, GivesOne, Gives, DoNotFit};

use crate::command::number::argument_of;
use bk_num::residue;
use bk_ops::{Target, Ty, width};
use std::alloc::{AllocError, Global};

/// The bytes of stack that a call begins with.
#[tactic(auto, unfolding(crate::specs::Arguments::own_stack))]
pub fn own_stack() -> u64
    ensures value { result ≡ own_stack }
    ensures few { result ≤ 1048576 }
{
    65_536
}

/// Whether w bits spell a number, without a sign or with one.
fn fits_bits(w: u32, number: i128) -> bool
    requires { (1 ≤ w) × (w ≤ 64) }
    ensures { IsTrue result ↔ FitsBits w number }
{
    if number < 0 {
        number.unsigned_abs() <= 1u128 << (w - 1)
    } else {
        number.unsigned_abs() < 1u128 << w
    }
}

fn is_truth(number: i128) -> bool
    ensures { IsTrue result ↔ IsTruth number }
{
    number == 0 || number == 1
}

/// Whether a number is one of a type of machine words.
fn fits(target: Target, ty: Ty, number: i128) -> bool
    ensures { IsTrue result ↔ FitsType target ty number }
{
    if ty == Ty::Bool {
        return is_truth(number);
    }
    let width = width(ty, target);
    width != 0 && fits_bits(width, number)
}

/// The number that a word spells, modulo 2 to the width of the type that it fits.
fn number_for(target: Target, ty: Ty, word: &String) -> Option<u64>
    ensures found { IfSome result (λ n. GivesOne target ty (string_bytes word.now) n) }
    ensures none { IfNone result ((n : ℕ) → GivesOne target ty (string_bytes word.now) n → ⊥) }
{
    let number = argument_of(word)?;
    if fits(target, ty, number) {
        Some(residue(width(ty, target), number))
    } else {
        None
    }
}

/// The numbers that words give, one for each type; None where the counts differ or one does not fit.
pub fn numbers_for(
    alloc: Global,
    target: Target,
    types: &[Ty],
    words: &[String],
) -> Result<Option<Vec<u64>>, AllocError>
    ensures found { IfOk result (λ read. IfSome read (λ numbers. Gives target types.now (map string_bytes words.now) numbers.items)) }
    ensures none { IfOk result (λ read. IfNone read (DoNotFit target types.now (map string_bytes words.now))) }
{
    if types.len() != words.len() {
        return Ok(None);
    }
    let mut numbers = Vec::new(alloc);
    for (place, ty) in types.iter().enumerate() {
        let Some(number) = number_for(target, *ty, &words[place]) else {
            return Ok(None);
        };
        numbers.push(number)?;
    }
    Ok(Some(numbers))
}
