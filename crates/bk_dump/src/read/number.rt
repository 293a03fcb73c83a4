//! Numbers at the front of a line's text.
ghost use Rattle.std.specs.Prelude.{◌≡◌, ◌≤◌, ◌^◌, length, min, IfOk, IfSome};
ghost use Rattle.std.specs.Option.{option_map};
ghost use Rattle.std.specs.Str.Parse.{digits_value, AllDigits};
ghost use Rattle.bk_dump.specs.Words.{digits_len, digits_at, decimal_at, number_at, next_number_at, numbers_at};

use crate::read::part::{after, behind_blanks, skip_blanks};
use smallvec::SmallVec;
use std::alloc::{AllocError, Global};

/// How many digits the text begins with.
fn digits_len(text: &[u8]) -> usize
    ensures value { result ≡ digits_len text.now }
    ensures within { result ≤ length text.now }
{
    text.iter()
        .position(|byte| !byte.is_ascii_digit())
        .unwrap_or(text.len())
}

/// The value of a list of digits; from 2^64 on it counts as 2^64.
fn value(digits: &[u8]) -> u128
    requires { AllDigits 10 digits.now }
    ensures { result ≡ min (digits_value 10 digits.now) (2 ^ 64) }
{
    let mut value = 0u128;
    for digit in digits {
        value = (value * 10 + u128::from(*digit - b'0')).min(1 << 64);
    }
    value
}

/// A decimal number without leading zeros and the text behind it. From 2^64 on it counts as 2^64.
#[tactic(auto, unfolding(crate::specs::Words::decimal_at, crate::specs::Words::digits_at))]
pub fn decimal(text: &[u8]) -> Option<(u128, &[u8])>
    ensures value { option_map (λ x. (x.0, x.1.now)) result ≡ decimal_at text.now }
    ensures within { IfSome result (λ x. x.0 ≤ 2 ^ 64) }
{
    let len = digits_len(text);
    if len == 0 || (text[0] == b'0' && len > 1) {
        return None;
    }
    let (digits, rest) = text.split_at(len);
    Some((value(digits), rest))
}

/// The number of a value or a block, as in `v12` or `b3` with their letters, and the text behind it.
/// A number past 2^32 - 1 counts as 2^32 - 1.
#[tactic(auto, unfolding(crate::specs::Words::number_at))]
pub fn numbered<'a>(text: &'a [u8], letter: &[u8]) -> Option<(u32, &'a [u8])>
    ensures { option_map (λ x. (x.0, x.1.now)) result ≡ number_at letter.now text.now }
{
    let (number, rest) = decimal(after(text, letter)?)?;
    Some((number.min(u128::from(u32::MAX)) as u32, rest))
}

/// A number behind blanks, and the text behind it.
#[tactic(auto, unfolding(crate::specs::Words::next_number_at))]
fn next_numbered<'a>(text: &'a [u8], letter: &[u8]) -> Option<(u32, &'a [u8])>
    ensures { option_map (λ x. (x.0, x.1.now)) result ≡ next_number_at letter.now text.now }
{
    numbered(behind_blanks(text)?, letter)
}

/// Numbers with blanks between them, as many as stand here, and the text behind them.
#[tactic(auto, unfolding(crate::specs::Words::numbers_at))]
pub fn numbers<'a>(
    alloc: Global,
    text: &'a [u8],
    letter: &[u8],
) -> Result<(Vec<u32>, &'a [u8]), AllocError>
    ensures { IfOk result (λ x. (x.0.items, x.1.now) ≡ numbers_at letter.now text.now) }
{
    let mut numbers = Vec::new(alloc);
    let Some((first, behind)) = numbered(skip_blanks(text), letter) else {
        return Ok((numbers, text));
    };
    numbers.push(first)?;
    let mut rest = behind;
    while let Some((number, next)) = next_numbered(rest, letter) {
        numbers.push(number)?;
        rest = next;
    }
    Ok((numbers, rest))
}

/// The same numbers in a vector that holds few of them in place.
#[tactic(auto, unfolding(crate::specs::Words::numbers_at))]
pub fn few_numbers<'a>(
    alloc: Global,
    text: &'a [u8],
    letter: &[u8],
) -> Result<(SmallVec<u32, 4>, &'a [u8]), AllocError>
    ensures { IfOk result (λ x. (x.0.items, x.1.now) ≡ numbers_at letter.now text.now) }
{
    let mut numbers = SmallVec::new(alloc);
    let Some((first, behind)) = numbered(skip_blanks(text), letter) else {
        return Ok((numbers, text));
    };
    numbers.push(first)?;
    let mut rest = behind;
    while let Some((number, next)) = next_numbered(rest, letter) {
        numbers.push(number)?;
        rest = next;
    }
    Ok((numbers, rest))
}
