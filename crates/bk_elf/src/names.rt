// Reading the names of a file's symbols.
ghost use Rattle.std.specs.Prelude.{◌≡◌, ◌==◌, ◌&&◌, not, length, map, drop, slice_range, ◌≤◌, take, option_map, IfOk, IsTrue};
ghost use Rattle.std.specs.List.{list_all, flat_map};
ghost use Rattle.std.specs.Ordering.{nat_cmp, on};
ghost use Rattle.std.specs.Cmp.Lexicographic.{slice_cmp};
ghost use Rattle.std.specs.BTreeSet.{IsFromIterResult};
ghost use Rattle.std.specs.Str.{bytes_eq, is_utf8, IsUtf8};
ghost use Rattle.bk_elf.specs.Lists.{has_zero};
ghost use Rattle.bk_elf.specs.Tables.{ended};
ghost use Rattle.bk_elf.specs.Contents.{name_bytes};
ghost use Rattle.bk_elf.specs.Loading.{after_name, name_end, names_at, are_distinct, symbol_of, symbols_of};

use crate::Symbol;
use crate::symbols::Entry;
use std::alloc::{AllocError, Global};
use std::collections::BTreeSet;

/// The names that begin at the places in their section, which has `size` bytes.
#[tactic(auto, using(crate::proofs::Naming::names_more, crate::proofs::Naming::names_end))]
pub(crate) fn names<'b>(
    alloc: Global,
    strtab: &'b [u8],
    size: u64,
    places: &[u64],
) -> Result<Vec<&'b [u8]>, AllocError>
    ensures { IfOk result (λ names. map (λ n. n.now) names.items ≡ names_at strtab.now size places.now) }
{
    let mut names = Vec::with_capacity(alloc, places.len())?;
    for k in 0..places.len() {
        let end = name_end(size, &places[k + 1..]);
        names.push(between(strtab, places[k], end))?;
    }
    Ok(names)
}

/// Where a name ends that these follow.
fn name_end(size: u64, places: &[u64]) -> u64
    ensures { result ≡ name_end size places.now }
{
    match places {
        [] => size.saturating_sub(1),
        [next, ..] => next.saturating_sub(1),
    }
}

/// The bytes from one place to another, as far as there are such.
fn between(bytes: &[u8], from: u64, to: u64) -> &[u8]
    ensures { result.now ≡ slice_range bytes.now from to }
{
    let to = to.min(bytes.len() as u64) as usize;
    if from < to as u64 {
        &bytes[from as usize..to]
    } else {
        &[]
    }
}

/// Whether no two names are equal.
#[tactic(auto, using(crate::proofs::Naming::distinct_names))]
pub(crate) fn are_distinct(alloc: Global, names: &[&[u8]]) -> Result<bool, AllocError>
    ensures { IfOk result (λ b. b ≡ are_distinct (map (λ n. n.now) names.now)) }
{
    let set = set_of(alloc, names)?;
    Ok(set.len() == names.len())
}

fn set_of<'b>(alloc: Global, names: &[&'b [u8]]) -> Result<BTreeSet<&'b [u8]>, AllocError>
    ensures { IfOk result (IsFromIterResult (on (λ n. n.now) (slice_cmp nat_cmp)) names.now) }
{
    let mut set = BTreeSet::new(alloc);
    for name in names {
        set.insert(*name)?;
    }
    Ok(set)
}

/// Whether the section is a 0 and the names, each ended by a 0.
#[tactic(auto, using(crate::proofs::Naming::ended_cons, crate::proofs::Naming::ended_nil))]
pub(crate) fn are_ended(strtab: &[u8], names: &[&[u8]]) -> bool
    ensures { result ≡ bytes_eq strtab.now (name_bytes (map (λ n. n.now) names.now)) }
{
    match strtab.split_first() {
        Some((first, rest)) => *first == 0 && follow(rest, names),
        None => false,
    }
}

/// Whether the bytes are the names, each ended by a 0.
#[tactic(auto, using(crate::proofs::Naming::follow_more, crate::proofs::Naming::follow_none, crate::proofs::Naming::follow_end))]
fn follow(bytes: &[u8], names: &[&[u8]]) -> bool
    ensures { result ≡ bytes_eq bytes.now (flat_map ended (map (λ n. n.now) names.now)) }
{
    let mut rest = bytes;
    for name in names {
        match after_name(rest, *name) {
            Some(more) => rest = more,
            None => return false,
        }
    }
    rest.is_empty()
}

/// The bytes after a name and the 0 that ends it, if they begin so.
#[tactic(auto, unfolding(crate::specs::Loading::after_name))]
fn after_name<'b>(bytes: &'b [u8], name: &[u8]) -> Option<&'b [u8]>
    ensures { option_map (λ b. b.now) result ≡ after_name bytes.now name.now }
{
    let end = name.len();
    if end < bytes.len() && bytes[end] == 0 && is_prefix(bytes, name) {
        Some(&bytes[end + 1..])
    } else {
        None
    }
}

fn is_prefix(bytes: &[u8], name: &[u8]) -> bool
    requires { length name.now ≤ length bytes.now }
    ensures { result ≡ bytes_eq (take (length name.now) bytes.now) name.now }
{
    bytes.starts_with(name)
}

/// Whether each name is a text without a 0.
#[tactic(auto, using(crate::proofs::Naming::texts_more, crate::proofs::Naming::texts_fail, crate::proofs::Naming::texts_end))]
pub(crate) fn are_texts(names: &[&[u8]]) -> bool
    ensures { result ≡ list_all (λ n. not (has_zero n) && is_utf8 n) (map (λ n. n.now) names.now) }
{
    for name in names {
        if !is_text(*name) {
            return false;
        }
    }
    true
}

fn is_text(name: &[u8]) -> bool
    ensures { result ≡ (not (has_zero name.now) && is_utf8 name.now) }
{
    !has_zero(name) && is_utf8(name)
}

fn is_utf8(name: &[u8]) -> bool
    ensures { result ≡ is_utf8 name.now }
{
    std::str::from_utf8(name).is_ok()
}

fn has_zero(bytes: &[u8]) -> bool
    ensures { result ≡ has_zero bytes.now }
{
    bytes.iter().any(|b| *b == 0)
}

/// The symbols with their names.
#[tactic(auto, using(crate::proofs::Naming::symbols_more, crate::proofs::Naming::symbols_end))]
pub(crate) fn symbols(
    alloc: Global,
    entries: &[Entry],
    names: &[&[u8]],
) -> Result<Vec<Symbol>, AllocError>
    requires same { length entries.now ≡ length names.now }
    requires texts { IsTrue (list_all (λ n. not (has_zero n) && is_utf8 n) (map (λ n. n.now) names.now)) }
    ensures { IfOk result (λ symbols. symbols.items ≡ symbols_of entries.now (map (λ n. n.now) names.now)) }
{
    let mut symbols = Vec::with_capacity(alloc, names.len())?;
    for k in 0..names.len() {
        symbols.push(symbol(alloc, entries[k], names[k])?)?;
    }
    Ok(symbols)
}

/// A symbol with its name; of its address and size the low 32 bits.
fn symbol(alloc: Global, entry: Entry, name: &[u8]) -> Result<Symbol, AllocError>
    requires { IsUtf8 name.now }
    ensures { IfOk result (λ s. s ≡ symbol_of entry name.now) }
{
    let Ok(text) = std::str::from_utf8(name) else {
        unreachable!()
    };
    let name = String::from_str(alloc, text)?;
    Ok(Symbol {
        name,
        func: entry.func,
        address: (entry.address % (1 << 32)) as u32,
        size: (entry.size % (1 << 32)) as u32,
    })
}
