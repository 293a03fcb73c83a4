//! Words, names and variables at the front of a line's text.
ghost use Rattle.std.specs.Prelude.{◌≡◌, ◌≤◌, length};
ghost use Rattle.std.specs.List.{prefix_len, find};
ghost use Rattle.std.specs.Option.{option_map};
ghost use Rattle.std.specs.Str.{bytes_eq};
ghost use Rattle.bk_rule_text.specs.Layout.{type_name};
ghost use Rattle.bk_rule_text.specs.Words.{is_word_byte, run_at, word_at, begins_word, begins_name, name_at, types, type_of_name, variable_at, any_at};

use crate::printer::type_name;
use crate::read::front::skip_blanks;
use bk_ops::Ty;

/// The types that a rule can name.
const TYPES: [Ty; 15] = [
    Ty::Bool,
    Ty::Int8,
    Ty::Uint8,
    Ty::Int16,
    Ty::Uint16,
    Ty::Int32,
    Ty::Uint32,
    Ty::Int64,
    Ty::Uint64,
    Ty::Int,
    Ty::Uint,
    Ty::Uintptr,
    Ty::Ptr,
    Ty::Mem,
    Ty::Void,
];

/// A letter, a digit or `_`.
#[tactic(auto, unfolding(crate::specs::Words::is_word_byte))]
fn is_word_byte(byte: u8) -> bool
    ensures { result ≡ is_word_byte byte }
{
    byte.is_ascii_alphanumeric() || byte == b'_'
}

/// How many bytes of words the text begins with.
fn run_len(text: &[u8]) -> usize
    ensures value { result ≡ prefix_len is_word_byte text.now }
    ensures within { result ≤ length text.now }
{
    text.iter()
        .position(|byte| !is_word_byte(*byte))
        .unwrap_or(text.len())
}

/// The bytes of words that the text begins with, as many as stand there, and the text behind them.
#[tactic(auto, unfolding(crate::specs::Words::run_at))]
pub fn run(text: &[u8]) -> (&[u8], &[u8])
    ensures { (result.0.now, result.1.now) ≡ run_at text.now }
{
    text.split_at(run_len(text))
}

/// The same, where blanks may stand before them.
#[tactic(auto, unfolding(crate::specs::Words::word_at))]
pub fn word(text: &[u8]) -> (&[u8], &[u8])
    ensures { (result.0.now, result.1.now) ≡ word_at text.now }
{
    run(skip_blanks(text))
}

/// Whether a byte of words stands here.
#[tactic(auto, unfolding(crate::specs::Words::begins_word))]
pub fn begins_word(text: &[u8]) -> bool
    ensures { result ≡ begins_word text.now }
{
    match text.first() {
        Some(first) => is_word_byte(*first),
        None => false,
    }
}

/// Whether a word is a name: whether it begins with a letter.
#[tactic(auto, unfolding(crate::specs::Words::begins_name))]
fn begins_name(word: &[u8]) -> bool
    ensures { result ≡ begins_name word.now }
{
    match word.first() {
        Some(first) => first.is_ascii_alphabetic(),
        None => false,
    }
}

/// The name of an op, a function, a type or a variable, and the text behind it.
#[tactic(auto, unfolding(crate::specs::Words::name_at))]
pub fn name(text: &[u8]) -> Option<(&[u8], &[u8])>
    ensures { option_map (λ x. (x.0.now, x.1.now)) result ≡ name_at text.now }
{
    let (name, rest) = word(text);
    if begins_name(name) {
        Some((name, rest))
    } else {
        None
    }
}

#[tactic(auto, unfolding(crate::specs::Words::types))]
fn types() -> &'static [Ty]
    ensures { result.now ≡ types }
{
    &TYPES
}

/// Whether this is the type's name.
fn is_named(ty: Ty, name: &[u8]) -> bool
    ensures { result ≡ bytes_eq (type_name ty) name.now }
{
    type_name(ty).as_bytes() == name
}

/// The type of this name.
#[tactic(auto, unfolding(crate::specs::Words::type_of_name))]
pub fn type_of_name(name: &[u8]) -> Option<Ty>
    ensures { result ≡ type_of_name name.now }
{
    types().iter().copied().find(|ty| is_named(*ty, name))
}

/// The name of a variable, which is no type's name, and the text behind it.
#[tactic(auto, unfolding(crate::specs::Words::variable_at))]
pub fn variable(text: &[u8]) -> Option<(&[u8], &[u8])>
    ensures { option_map (λ x. (x.0.now, x.1.now)) result ≡ variable_at text.now }
{
    let (name, rest) = name(text)?;
    if type_of_name(name).is_some() {
        None
    } else {
        Some((name, rest))
    }
}

/// The text behind the word `_`.
#[tactic(auto, unfolding(crate::specs::Words::any_at))]
pub fn any(text: &[u8]) -> Option<&[u8]>
    ensures { option_map (λ x. x.now) result ≡ any_at text.now }
{
    let (word, rest) = word(text);
    if word == b"_".as_slice() {
        Some(rest)
    } else {
        None
    }
}
