//! Operators and functions of expressions.
ghost use Rattle.std.specs.Prelude.{◌≡◌};
ghost use Rattle.std.specs.List.{find};
ghost use Rattle.std.specs.Option.{option_map, is_some};
ghost use Rattle.std.specs.Str.{bytes_eq};
ghost use Rattle.bk_rule_text.specs.Front.{after, or_else};
ghost use Rattle.bk_rule_text.specs.Layout.{symbol};
ghost use Rattle.bk_rule_text.specs.Exprs.{products, sums, comparisons, prefixes, functions, first_of, symbol_at, and_at, operator_at, function_named, operands_of};

use crate::printer::symbol;
use crate::read::front::{after, skip_blanks};
use bk_rule::Fun;

/// How tightly operators bind.
#[derive(Clone, Copy, PartialEq, Eq, Debug)]
pub enum Level {
    /// `*`, `<<`, `>>` and `&`.
    Product,
    /// `+`, `-`, `|` and `^`.
    Sum,
    /// `==`, `!=`, `<=` and `<`.
    Comparison,
}

/// What a function is given.
#[derive(Clone, Copy, PartialEq, Eq, Debug)]
pub enum Operands {
    One,
    Two,
    /// The variable of a type.
    Type,
}

const PRODUCTS: [Fun; 3] = [Fun::Mul, Fun::Shl, Fun::Shr];

const SUMS: [Fun; 4] = [Fun::Add, Fun::Sub, Fun::Or, Fun::Xor];

/// `<=` stands before `<`, with which it begins.
const COMPARISONS: [Fun; 4] = [Fun::Eq, Fun::Ne, Fun::Le, Fun::Lt];

const PREFIXES: [Fun; 2] = [Fun::Neg, Fun::Com];

const FUNCTIONS: [Fun; 11] = [
    Fun::IsPowerOfTwo,
    Fun::Log2,
    Fun::Ult,
    Fun::Ule,
    Fun::Zext8,
    Fun::Zext16,
    Fun::Zext32,
    Fun::Is12,
    Fun::ArmImm,
    Fun::Size,
    Fun::IsBool,
];

#[tactic(auto, unfolding(crate::specs::Exprs::products))]
fn products() -> &'static [Fun]
    ensures { result.now ≡ products }
{
    &PRODUCTS
}

#[tactic(auto, unfolding(crate::specs::Exprs::sums))]
fn sums() -> &'static [Fun]
    ensures { result.now ≡ sums }
{
    &SUMS
}

#[tactic(auto, unfolding(crate::specs::Exprs::comparisons))]
fn comparisons() -> &'static [Fun]
    ensures { result.now ≡ comparisons }
{
    &COMPARISONS
}

#[tactic(auto, unfolding(crate::specs::Exprs::prefixes))]
fn prefixes() -> &'static [Fun]
    ensures { result.now ≡ prefixes }
{
    &PREFIXES
}

#[tactic(auto, unfolding(crate::specs::Exprs::functions))]
fn functions() -> &'static [Fun]
    ensures { result.now ≡ functions }
{
    &FUNCTIONS
}

/// Whether the text begins with the symbol.
fn begins_with(text: &[u8], fun: Fun) -> bool
    ensures { result ≡ is_some (after (symbol fun) text.now) }
{
    after(text, symbol(fun).as_bytes()).is_some()
}

/// The first of these whose symbol stands here.
#[tactic(auto, unfolding(crate::specs::Exprs::first_of))]
fn first_of(funs: &[Fun], text: &[u8]) -> Option<Fun>
    ensures { result ≡ first_of funs.now text.now }
{
    funs.iter().copied().find(|fun| begins_with(text, *fun))
}

/// The first of these whose symbol stands here, and the text behind it.
#[tactic(auto, unfolding(crate::specs::Exprs::symbol_at))]
fn behind_symbol<'a>(funs: &[Fun], text: &'a [u8]) -> Option<(Fun, &'a [u8])>
    ensures { option_map (λ x. (x.0, x.1.now)) result ≡ symbol_at funs.now text.now }
{
    let fun = first_of(funs, text)?;
    Some((fun, after(text, symbol(fun).as_bytes())?))
}

/// `&`, where it is not the first byte of `&&`, and the text behind it.
#[tactic(auto, unfolding(crate::specs::Exprs::and_at))]
fn single_and(text: &[u8]) -> Option<(Fun, &[u8])>
    ensures { option_map (λ x. (x.0, x.1.now)) result ≡ and_at text.now }
{
    let rest = after(text, b"&")?;
    if after(rest, b"&").is_some() {
        None
    } else {
        Some((Fun::And, rest))
    }
}

/// An operator that binds most tightly, and the text behind it.
fn product(text: &[u8]) -> Option<(Fun, &[u8])>
    ensures { option_map (λ x. (x.0, x.1.now)) result ≡ or_else (symbol_at products text.now) (and_at text.now) }
{
    match behind_symbol(products(), text) {
        Some(found) => Some(found),
        None => single_and(text),
    }
}

/// The operator of this level that stands here, and the text behind it.
#[tactic(auto, unfolding(crate::specs::Exprs::operator_at))]
pub fn operator(level: Level, text: &[u8]) -> Option<(Fun, &[u8])>
    ensures { option_map (λ x. (x.0, x.1.now)) result ≡ operator_at level text.now }
{
    let text = skip_blanks(text);
    match level {
        Level::Product => product(text),
        Level::Sum => behind_symbol(sums(), text),
        Level::Comparison => behind_symbol(comparisons(), text),
    }
}

/// The operator before its operand that stands here, and the text behind it.
pub fn prefix(text: &[u8]) -> Option<(Fun, &[u8])>
    ensures { option_map (λ x. (x.0, x.1.now)) result ≡ symbol_at prefixes text.now }
{
    behind_symbol(prefixes(), text)
}

/// Whether this is the function's name.
fn is_named(fun: Fun, name: &[u8]) -> bool
    ensures { result ≡ bytes_eq (symbol fun) name.now }
{
    symbol(fun).as_bytes() == name
}

/// The function of this name.
#[tactic(auto, unfolding(crate::specs::Exprs::function_named))]
pub fn function_named(name: &[u8]) -> Option<Fun>
    ensures { result ≡ function_named name.now }
{
    functions().iter().copied().find(|fun| is_named(*fun, name))
}

/// What a function is given.
#[tactic(auto, unfolding(crate::specs::Exprs::operands_of))]
pub fn operands_of(fun: Fun) -> Operands
    ensures { result ≡ operands_of fun }
{
    match fun {
        Fun::Ult | Fun::Ule => Operands::Two,
        Fun::Size | Fun::IsBool => Operands::Type,
        _ => Operands::One,
    }
}
