//! What stands beside the arguments of a value: braces and square brackets.
ghost use Rattle.std.specs.Prelude.{◌≡◌, ◌≤◌, ◌^◌};
ghost use Rattle.std.specs.Option.{option_map};
ghost use Rattle.bk_dump.specs.Words.{name_at};
ghost use Rattle.bk_dump.specs.Types.{one_type_at};
ghost use Rattle.bk_dump.specs.Values.{braces_of, in_braces, aux_call_at, callee_at, braces_at, square_of, constants_of, kept, natural_at, negative_at, int_at, truth_at, in_square, square_at, square_first, braces_first, beside_at};

use crate::read::mention::Mention;
use crate::read::name::{name, word};
use crate::read::number::decimal;
use crate::read::part::{after, behind, skip_blanks};
use crate::read::types::one_type;
use bk_func::Aux;
use bk_ops::{Family, Op, Ty};

/// What an op has in braces.
#[derive(Clone, Copy)]
pub enum Braces {
    Nothing,
    Type,
    Name,
    Callee,
    /// A name that may be left out and means nothing.
    Ignored,
}

/// What an op has in square brackets.
#[derive(Clone, Copy)]
pub enum Square {
    Nothing,
    Number,
    /// A number, `true` or `false`.
    Truth,
    /// A number that may be left out and means nothing.
    Ignored,
    /// The same of a number, `true` or `false`.
    IgnoredTruth,
}

#[tactic(auto, unfolding(crate::specs::Values::braces_of))]
fn braces_of(family: Family) -> Braces
    ensures { result ≡ braces_of family }
{
    match family {
        Family::Arg | Family::Addr => Braces::Name,
        Family::StaticLECall => Braces::Callee,
        Family::Store => Braces::Type,
        Family::Zero | Family::Move => Braces::Ignored,
        _ => Braces::Nothing,
    }
}

#[tactic(auto, unfolding(crate::specs::Values::square_of))]
fn square_of(family: Family) -> Square
    ensures { result ≡ square_of family }
{
    match family {
        Family::Const
        | Family::OffPtr
        | Family::Zero
        | Family::Move
        | Family::PanicBounds
        | Family::SelectN => Square::Number,
        Family::ConstBool => Square::Truth,
        Family::StaticLECall => Square::Ignored,
        Family::Lsh | Family::Rsh | Family::RshU | Family::Div | Family::Mod =>
            Square::IgnoredTruth,
        _ => Square::Nothing,
    }
}

/// The type in braces, and the text behind them.
#[tactic(auto, unfolding(crate::specs::Values::in_braces))]
fn type_in_braces(text: &[u8]) -> Option<(Ty, &[u8])>
    ensures { option_map (λ x. (x.0, x.1.now)) result ≡ in_braces one_type_at text.now }
{
    let (ty, rest) = one_type(behind(text, b"{")?)?;
    Some((ty, behind(rest, b"}")?))
}

/// The name in braces, and the text behind them.
#[tactic(auto, unfolding(crate::specs::Values::in_braces))]
fn name_in_braces(text: &[u8]) -> Option<(&str, &[u8])>
    ensures { option_map (λ x. (x.0.now, x.1.now)) result ≡ in_braces name_at text.now }
{
    let (name, rest) = name(behind(text, b"{")?)?;
    Some((name, behind(rest, b"}")?))
}

/// The callee in `AuxCall{NAME}`, and the text behind it.
#[tactic(auto, unfolding(crate::specs::Values::aux_call_at))]
fn aux_call(text: &[u8]) -> Option<(&str, &[u8])>
    ensures { option_map (λ x. (x.0.now, x.1.now)) result ≡ aux_call_at text.now }
{
    let (word, rest) = name(text)?;
    if word == "AuxCall" {
        name_in_braces(rest)
    } else {
        None
    }
}

/// The callee in `{AuxCall{NAME}}`, and the text behind it.
#[tactic(auto, unfolding(crate::specs::Values::in_braces))]
fn aux_call_in_braces(text: &[u8]) -> Option<(&str, &[u8])>
    ensures { option_map (λ x. (x.0.now, x.1.now)) result ≡ in_braces aux_call_at text.now }
{
    let (name, rest) = aux_call(behind(text, b"{")?)?;
    Some((name, behind(rest, b"}")?))
}

/// The callee in `{NAME}` or `{AuxCall{NAME}}`, and the text behind it.
#[tactic(auto, unfolding(crate::specs::Values::callee_at))]
fn callee(text: &[u8]) -> Option<(&str, &[u8])>
    ensures { option_map (λ x. (x.0.now, x.1.now)) result ≡ callee_at text.now }
{
    match aux_call_in_braces(text) {
        Some(found) => Some(found),
        None => name_in_braces(text),
    }
}

/// What the braces hold, and the text behind them.
#[tactic(auto, unfolding(crate::specs::Values::braces_at))]
fn braces_part(kind: Braces, text: &[u8]) -> Option<(Mention<'_>, &[u8])>
    ensures { option_map (λ x. (x.0, x.1.now)) result ≡ braces_at kind text.now }
{
    match kind {
        Braces::Nothing => Some((Mention::nothing(), text)),
        Braces::Type => {
            let (ty, rest) = type_in_braces(text)?;
            Some((Mention::of_type(ty), rest))
        }
        Braces::Name => {
            let (name, rest) = name_in_braces(text)?;
            Some((Mention::of_name(name), rest))
        }
        Braces::Callee => {
            let (name, rest) = callee(text)?;
            Some((Mention::of_name(name), rest))
        }
        Braces::Ignored => {
            if behind(text, b"{").is_none() {
                return Some((Mention::nothing(), text));
            }
            let (_, rest) = name_in_braces(text)?;
            Some((Mention::nothing(), rest))
        }
    }
}

/// 2^W where the op is a constant of W bits, else 0.
#[tactic(auto, unfolding(crate::specs::Values::constants_of))]
fn constants_of(op: Op) -> u128
    ensures value { result ≡ constants_of op.family op.a }
    ensures within { result ≤ 2 ^ 64 }
{
    match op.family {
        Family::Const => match op.a {
            8 => 1 << 8,
            16 => 1 << 16,
            32 => 1 << 32,
            64 => 1 << 64,
            _ => 0,
        },
        _ => 0,
    }
}

/// A number from 0 on as an op keeps it: one of `all` from the half of `all` on has `all` taken off.
#[tactic(auto, unfolding(crate::specs::Values::kept))]
fn kept(all: u128, number: u128) -> Option<i64>
    requires all { all ≤ 2 ^ 64 }
    requires number { number ≤ 2 ^ 64 }
    ensures { result ≡ kept all number }
{
    if number < all && all <= 2 * number {
        Some(-((all - 1 - number) as i64) - 1)
    } else if number < 1 << 63 {
        Some(number as i64)
    } else {
        None
    }
}

/// A number from 0 on as an op keeps it, and the text behind it.
#[tactic(auto, unfolding(crate::specs::Values::natural_at))]
fn natural(all: u128, text: &[u8]) -> Option<(i64, &[u8])>
    requires { all ≤ 2 ^ 64 }
    ensures { option_map (λ x. (x.0, x.1.now)) result ≡ natural_at all text.now }
{
    let (number, rest) = decimal(text)?;
    Some((kept(all, number)?, rest))
}

/// A number below 0 behind its `-`, and the text behind it; `-0` is none.
#[tactic(auto, unfolding(crate::specs::Values::negative_at))]
fn negative(text: &[u8]) -> Option<(i64, &[u8])>
    ensures { option_map (λ x. (x.0, x.1.now)) result ≡ negative_at text.now }
{
    let (distance, rest) = decimal(text)?;
    if distance == 0 || distance > 1 << 63 {
        return None;
    }
    Some((-((distance - 1) as i64) - 1, rest))
}

/// The number that stands here, as the op keeps it, and the text behind it.
#[tactic(auto, unfolding(crate::specs::Values::int_at))]
fn int(all: u128, text: &[u8]) -> Option<(i64, &[u8])>
    requires { all ≤ 2 ^ 64 }
    ensures { option_map (λ x. (x.0, x.1.now)) result ≡ int_at all text.now }
{
    let text = skip_blanks(text);
    match after(text, b"-") {
        Some(rest) => negative(rest),
        None => natural(all, text),
    }
}

/// `true` as 1, `false` as 0 or a number, and the text behind it.
#[tactic(auto, unfolding(crate::specs::Values::truth_at))]
fn truth(all: u128, text: &[u8]) -> Option<(i64, &[u8])>
    requires { all ≤ 2 ^ 64 }
    ensures { option_map (λ x. (x.0, x.1.now)) result ≡ truth_at all text.now }
{
    let (word, rest) = word(text);
    if word == b"true".as_slice() {
        Some((1, rest))
    } else if word == b"false".as_slice() {
        Some((0, rest))
    } else {
        int(all, text)
    }
}

/// The number in square brackets, and the text behind them.
#[tactic(auto, unfolding(crate::specs::Values::in_square))]
fn int_in_square(all: u128, text: &[u8]) -> Option<(i64, &[u8])>
    requires { all ≤ 2 ^ 64 }
    ensures { option_map (λ x. (x.0, x.1.now)) result ≡ in_square (int_at all) text.now }
{
    let (int, rest) = int(all, behind(text, b"[")?)?;
    Some((int, behind(rest, b"]")?))
}

/// The number, `true` or `false` in square brackets, and the text behind them.
#[tactic(auto, unfolding(crate::specs::Values::in_square))]
fn truth_in_square(all: u128, text: &[u8]) -> Option<(i64, &[u8])>
    requires { all ≤ 2 ^ 64 }
    ensures { option_map (λ x. (x.0, x.1.now)) result ≡ in_square (truth_at all) text.now }
{
    let (int, rest) = truth(all, behind(text, b"[")?)?;
    Some((int, behind(rest, b"]")?))
}

/// What the square brackets hold, 0 where it means nothing, and the text behind them.
#[tactic(auto, unfolding(crate::specs::Values::square_at))]
fn square_part(kind: Square, all: u128, text: &[u8]) -> Option<(i64, &[u8])>
    requires { all ≤ 2 ^ 64 }
    ensures { option_map (λ x. (x.0, x.1.now)) result ≡ square_at kind all text.now }
{
    match kind {
        Square::Nothing => Some((0, text)),
        Square::Number => int_in_square(all, text),
        Square::Truth => truth_in_square(all, text),
        Square::Ignored => {
            if behind(text, b"[").is_none() {
                return Some((0, text));
            }
            let (_, rest) = int_in_square(all, text)?;
            Some((0, rest))
        }
        Square::IgnoredTruth => {
            if behind(text, b"[").is_none() {
                return Some((0, text));
            }
            let (_, rest) = truth_in_square(all, text)?;
            Some((0, rest))
        }
    }
}

/// Square brackets, then braces, and the text behind them.
#[tactic(auto, unfolding(crate::specs::Values::square_first))]
fn square_first(op: Op, text: &[u8]) -> Option<(Mention<'_>, i64, &[u8])>
    ensures { option_map (λ x. ((x.0, x.1), x.2.now)) result ≡ square_first op text.now }
{
    let (int, rest) = square_part(square_of(op.family), constants_of(op), text)?;
    let (mention, rest) = braces_part(braces_of(op.family), rest)?;
    Some((mention, int, rest))
}

/// Braces, then square brackets, and the text behind them.
#[tactic(auto, unfolding(crate::specs::Values::braces_first))]
fn braces_first(op: Op, text: &[u8]) -> Option<(Mention<'_>, i64, &[u8])>
    ensures { option_map (λ x. ((x.0, x.1), x.2.now)) result ≡ braces_first op text.now }
{
    let (mention, rest) = braces_part(braces_of(op.family), text)?;
    let (int, rest) = square_part(square_of(op.family), constants_of(op), rest)?;
    Some((mention, int, rest))
}

/// What stands beside the arguments, braces and square brackets in either order, and the text behind it.
#[tactic(auto, unfolding(crate::specs::Values::beside_at))]
pub fn beside(op: Op, text: &[u8]) -> Option<(Mention<'_>, i64, &[u8])>
    ensures { option_map (λ x. ((x.0, x.1), x.2.now)) result ≡ beside_at op text.now }
{
    if behind(text, b"[").is_some() {
        square_first(op, text)
    } else {
        braces_first(op, text)
    }
}
