// Reading the symbols of a file.
ghost use Rattle.std.specs.Prelude.{◌≡◌, ◌+◌, ◌-◌, ◌*◌, ◌/◌, ◌≤◌, nat_lt, length, map, IfOk};
ghost use Rattle.std.specs.List.{list_all};
ghost use Rattle.bk_elf.specs.Lists.{each, rises_from};
ghost use Rattle.bk_elf.specs.Tables.{class_of};
ghost use Rattle.bk_elf.specs.Loading.{entry_at, is_code, is_entry, are_places, begin_at_one};

use crate::fields::{Width, first_fault, number_at};
use crate::numbers::rises_from;
use crate::signatures::is_function;
use crate::tables::{TEXT_ADDRESS, class_of, symbol_entry};
use bk_ops::Target;
use std::alloc::{AllocError, Global};

/// A symbol as it reads, and where its name begins.
#[derive(Clone, Copy)]
pub(crate) struct Entry {
    pub(crate) name: u64,
    pub(crate) func: bool,
    pub(crate) address: u64,
    pub(crate) size: u64,
}

/// The symbol that the bytes begin with.
#[tactic(auto, unfolding(crate::specs::Loading::entry_at))]
fn entry_at(target: Target, bytes: &[u8]) -> Entry
    requires { (class_of target).st_entsize ≤ length bytes.now }
    ensures { result ≡ entry_at target bytes.now }
{
    let class = class_of(target);
    Entry {
        name: number_at(bytes, 0, Width::Word),
        func: is_function(target, bytes),
        address: number_at(bytes, class.st_value, class.address),
        size: number_at(bytes, class.st_size, class.address),
    }
}

/// Whether the bytes begin with the symbol of a function in a text of `size` bytes, or of a variable.
#[tactic(auto, unfolding(crate::specs::Loading::is_entry))]
fn is_entry(target: Target, size: u64, bytes: &[u8]) -> bool
    requires { (class_of target).st_entsize ≤ length bytes.now }
    ensures { result ≡ is_entry target size bytes.now }
{
    let entry = entry_at(target, bytes);
    let fields = symbol_entry(target, entry.name, entry.func, entry.address, entry.size);
    first_fault(bytes, 0, &fields).is_none() && (!entry.func || is_code(size, entry.address))
}

/// Whether a word of a text of `size` bytes stands at the address.
fn is_code(size: u64, address: u64) -> bool
    ensures { result ≡ is_code size address }
{
    address % 4 == 0 && TEXT_ADDRESS <= address && address - TEXT_ADDRESS < size
}

/// The first `count` symbols that the bytes hold.
#[tactic(auto, using(crate::proofs::Steps::each_more, crate::proofs::Steps::each_end, std::proofs::lemmas::List::take_rest))]
pub(crate) fn entries(
    alloc: Global,
    target: Target,
    count: usize,
    bytes: &[u8],
) -> Result<Vec<Entry>, AllocError>
    requires { count * (class_of target).st_entsize ≤ length bytes.now }
    ensures { IfOk result (λ entries. entries.items ≡ each (entry_at target) (class_of target).st_entsize count bytes.now) }
{
    let size = class_of(target).st_entsize;
    let mut entries = Vec::with_capacity(alloc, count)?;
    for k in 0..count {
        entries.push(entry_at(target, &bytes[size * k..]))?;
    }
    Ok(entries)
}

/// Whether the first `count` symbols are each that of a function in a text of `text` bytes, or of a variable.
#[tactic(auto, using(crate::proofs::Signing::all_more, crate::proofs::Signing::all_fails, crate::proofs::Signing::all_end, std::proofs::lemmas::List::take_rest))]
pub(crate) fn are_entries(target: Target, text: u64, count: usize, bytes: &[u8]) -> bool
    requires { count * (class_of target).st_entsize ≤ length bytes.now }
    ensures { result ≡ list_all (λ b. b) (each (is_entry target text) (class_of target).st_entsize count bytes.now) }
{
    let size = class_of(target).st_entsize;
    for k in 0..count {
        if !is_entry(target, text, &bytes[size * k..]) {
            return false;
        }
    }
    true
}

/// Where the symbols' names begin.
pub(crate) fn places(alloc: Global, entries: &[Entry]) -> Result<Vec<u64>, AllocError>
    ensures { IfOk result (λ places. places.items ≡ map (λ e. e.name) entries.now) }
{
    entries.iter().map(|entry| entry.name).collect(alloc)
}

/// Whether the first name begins at 1, each other one after the one before it, and all in a section of this size.
pub(crate) fn are_places(size: u64, places: &[u64]) -> bool
    ensures { result ≡ are_places size places.now }
{
    begin_at_one(places) && are_below(size, places)
}

fn begin_at_one(places: &[u64]) -> bool
    ensures { result ≡ begin_at_one places.now }
{
    match places {
        [] => true,
        [first, rest @ ..] => *first == 1 && rises_from(1, rest),
    }
}

fn are_below(size: u64, places: &[u64]) -> bool
    ensures { result ≡ list_all (λ p. nat_lt p size) places.now }
{
    places.iter().all(|place| *place < size)
}
