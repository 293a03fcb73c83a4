//! Types at the front of a line's text.
ghost use Rattle.std.specs.Prelude.{◌≡◌};
ghost use Rattle.std.specs.List.{find};
ghost use Rattle.std.specs.Option.{option_map};
ghost use Rattle.std.specs.Str.{bytes_eq};
ghost use Rattle.bk_dump.specs.Front.{every};
ghost use Rattle.bk_dump.specs.Print.{type_name};
ghost use Rattle.bk_dump.specs.Types.{word_types, is_pointer, word_type, named_type, place_type_at, one_type_at, next_type_at, memory_at, is_word_type, list_at, value_type_at};

use crate::print::part::type_name;
use crate::read::name::plain_name;
use crate::read::part::behind;
use bk_ops::Ty;

/// The types of machine words.
const WORD_TYPES: [Ty; 13] = [
    Ty::Bool,
    Ty::Int8,
    Ty::Uint8,
    Ty::Int16,
    Ty::Uint16,
    Ty::Int32,
    Ty::Uint32,
    Ty::Int64,
    Ty::Uint64,
    Ty::Int,
    Ty::Uint,
    Ty::Uintptr,
    Ty::Ptr,
];

#[tactic(auto, unfolding(crate::specs::Types::word_types))]
fn word_types() -> &'static [Ty]
    ensures { result.now ≡ word_types }
{
    &WORD_TYPES
}

/// Whether this is the type's name.
fn is_named(ty: Ty, name: &[u8]) -> bool
    ensures { result ≡ bytes_eq (type_name ty) name.now }
{
    type_name(ty).as_bytes() == name
}

/// Whether the name stands for a pointer without being its type's name: `*` with any name does.
#[tactic(auto, unfolding(crate::specs::Types::is_pointer))]
fn is_pointer(name: &[u8]) -> bool
    ensures { result ≡ is_pointer name.now }
{
    name == b"unsafe.Pointer".as_slice() || (name.len() > 1 && name[0] == b'*')
}

/// The type of a machine word with this name.
fn word_type_named(name: &[u8]) -> Option<Ty>
    ensures { result ≡ find (λ t. bytes_eq (type_name t) name.now) word_types }
{
    word_types().iter().copied().find(|ty| is_named(*ty, name))
}

/// The type of a machine word that this name stands for.
#[tactic(auto, unfolding(crate::specs::Types::word_type))]
fn word_type(name: &[u8]) -> Option<Ty>
    ensures { result ≡ word_type name.now }
{
    if is_pointer(name) {
        Some(Ty::Ptr)
    } else {
        word_type_named(name)
    }
}

/// The type that this name stands for, `mem` and `void` among them.
#[tactic(auto, unfolding(crate::specs::Types::named_type))]
fn named_type(name: &[u8]) -> Option<Ty>
    ensures { result ≡ named_type name.now }
{
    if name == b"mem".as_slice() {
        Some(Ty::Mem)
    } else if name == b"void".as_slice() {
        Some(Ty::Void)
    } else {
        word_type(name)
    }
}

/// The type of an argument or a result, and the text behind it.
#[tactic(auto, unfolding(crate::specs::Types::place_type_at))]
pub fn place_type(text: &[u8]) -> Option<(Ty, &[u8])>
    ensures { option_map (λ x. (x.0, x.1.now)) result ≡ place_type_at text.now }
{
    let (name, rest) = plain_name(text)?;
    Some((word_type(name.as_bytes())?, rest))
}

/// A type of one name, and the text behind it.
#[tactic(auto, unfolding(crate::specs::Types::one_type_at))]
pub fn one_type(text: &[u8]) -> Option<(Ty, &[u8])>
    ensures { option_map (λ x. (x.0, x.1.now)) result ≡ one_type_at text.now }
{
    let (name, rest) = plain_name(text)?;
    Some((named_type(name.as_bytes())?, rest))
}

/// The type of a machine word behind a comma, and the text behind it.
#[tactic(auto, unfolding(crate::specs::Types::next_type_at))]
pub fn next_type(text: &[u8]) -> Option<(Ty, &[u8])>
    ensures { option_map (λ x. (x.0, x.1.now)) result ≡ next_type_at text.now }
{
    place_type(behind(text, b",")?)
}

/// The text behind `, mem >`.
#[tactic(auto, unfolding(crate::specs::Types::memory_at))]
fn behind_memory(text: &[u8]) -> Option<&[u8]>
    ensures { option_map (λ x. x.now) result ≡ memory_at text.now }
{
    let (name, rest) = plain_name(behind(text, b",")?)?;
    if name == "mem" {
        behind(rest, b">")
    } else {
        None
    }
}

/// Whether a value of this type is a machine word.
fn is_word_type(ty: Ty) -> bool
    ensures { result ≡ is_word_type ty }
{
    match ty {
        Ty::Mem | Ty::Void | Ty::Tuple => false,
        _ => true,
    }
}

/// The text behind as many types as stand behind commas.
fn behind_types(text: &[u8]) -> &[u8]
    ensures { result.now ≡ (every next_type_at text.now).1 }
{
    let mut rest = text;
    while let Some((_ty, next)) = next_type(rest) {
        rest = next;
    }
    rest
}

/// The rest of a list of types behind its first: types of words, then `mem`. Then the text behind its `>`.
#[tactic(auto, unfolding(crate::specs::Types::list_at))]
fn list_type(first: Ty, text: &[u8]) -> Option<(Ty, &[u8])>
    ensures { option_map (λ x. (x.0, x.1.now)) result ≡ list_at first text.now }
{
    if !is_word_type(first) {
        return None;
    }
    Some((Ty::Tuple, behind_memory(behind_types(text))?))
}

/// The type of a value: `<T>`, or a list `<T, T, mem>`, which is `Tuple`. Then the text behind it.
#[tactic(auto, unfolding(crate::specs::Types::value_type_at))]
pub fn value_type(text: &[u8]) -> Option<(Ty, &[u8])>
    ensures { option_map (λ x. (x.0, x.1.now)) result ≡ value_type_at text.now }
{
    let (first, text) = one_type(behind(text, b"<")?)?;
    match behind(text, b">") {
        Some(rest) => Some((first, rest)),
        None => list_type(first, text),
    }
}
