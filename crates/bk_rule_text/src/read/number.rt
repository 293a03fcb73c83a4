//! Numbers at the front of a line's text.
ghost use Rattle.std.specs.Prelude.{◌≡◌, ◌≤◌, ◌^◌, length, min, IfSome};
ghost use Rattle.std.specs.Option.{option_map};
ghost use Rattle.std.specs.Str.Parse.{digits_value, AllDigits};
ghost use Rattle.bk_rule_text.specs.Numbers.{digits_len, digits_at, decimal_at, begins_digit, sign_at, begins_number, natural_at, negative_at, number_at};

use crate::read::front::{after, skip_blanks};
use crate::read::word::begins_word;

/// How many digits the text begins with.
fn digits_len(text: &[u8]) -> usize
    ensures value { result ≡ digits_len text.now }
    ensures within { result ≤ length text.now }
{
    text.iter()
        .position(|byte| !byte.is_ascii_digit())
        .unwrap_or(text.len())
}

/// The value of a list of digits; from 2^64 on it counts as 2^64.
fn value(digits: &[u8]) -> u128
    requires { AllDigits 10 digits.now }
    ensures { result ≡ min (digits_value 10 digits.now) (2 ^ 64) }
{
    let mut value = 0u128;
    for digit in digits {
        value = (value * 10 + u128::from(*digit - b'0')).min(1 << 64);
    }
    value
}

/// A decimal number without leading zeros, behind which no letter or `_` stands, and the text behind it. From 2^64 on it
/// counts as 2^64.
#[tactic(auto, unfolding(crate::specs::Numbers::decimal_at, crate::specs::Numbers::digits_at))]
fn decimal(text: &[u8]) -> Option<(u128, &[u8])>
    ensures value { option_map (λ x. (x.0, x.1.now)) result ≡ decimal_at text.now }
    ensures within { IfSome result (λ x. x.0 ≤ 2 ^ 64) }
{
    let len = digits_len(text);
    if len == 0 || (text[0] == b'0' && len > 1) {
        return None;
    }
    let (digits, rest) = text.split_at(len);
    if begins_word(rest) {
        return None;
    }
    Some((value(digits), rest))
}

/// Whether a digit stands here.
fn begins_digit(text: &[u8]) -> bool
    ensures { result ≡ begins_digit text.now }
{
    match text.first() {
        Some(first) => first.is_ascii_digit(),
        None => false,
    }
}

/// The text behind a `-` that stands right before a digit, and so is part of the number.
#[tactic(auto, unfolding(crate::specs::Numbers::sign_at))]
fn sign(text: &[u8]) -> Option<&[u8]>
    ensures { option_map (λ x. x.now) result ≡ sign_at text.now }
{
    let rest = after(text, b"-")?;
    if begins_digit(rest) { Some(rest) } else { None }
}

/// Whether a number begins here: a digit, or a `-` right before one.
#[tactic(auto, unfolding(crate::specs::Numbers::begins_number))]
pub fn begins_number(text: &[u8]) -> bool
    ensures { result ≡ begins_number text.now }
{
    begins_digit(text) || sign(text).is_some()
}

/// A number from 0 to 2^63 - 1, and the text behind it.
#[tactic(auto, unfolding(crate::specs::Numbers::natural_at))]
fn natural(text: &[u8]) -> Option<(i64, &[u8])>
    ensures { option_map (λ x. (x.0, x.1.now)) result ≡ natural_at text.now }
{
    let (number, rest) = decimal(text)?;
    if number < 1 << 63 {
        Some((number as i64, rest))
    } else {
        None
    }
}

/// A number from -2^63 to -1, whose `-` was read, and the text behind it. `-0` is none.
#[tactic(auto, unfolding(crate::specs::Numbers::negative_at))]
fn negative(text: &[u8]) -> Option<(i64, &[u8])>
    ensures { option_map (λ x. (x.0, x.1.now)) result ≡ negative_at text.now }
{
    let (number, rest) = decimal(text)?;
    if number == 0 || number > 1 << 63 {
        None
    } else {
        Some((-((number - 1) as i64) - 1, rest))
    }
}

/// A number, and the text behind it. A `-` right before a digit is part of it.
#[tactic(auto, unfolding(crate::specs::Numbers::number_at))]
pub fn number(text: &[u8]) -> Option<(i64, &[u8])>
    ensures { option_map (λ x. (x.0, x.1.now)) result ≡ number_at text.now }
{
    let text = skip_blanks(text);
    match sign(text) {
        Some(rest) => negative(rest),
        None => natural(text),
    }
}
