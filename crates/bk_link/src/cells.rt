// The cells of the areas: which keys they hold, and the addresses of these.
ghost use Rattle.std.specs.Prelude.{◌≡◌, ◌≢◌, ℕ, ◌+◌, ◌*◌, ◌^◌, ◌<◌, ◌≤◌, length, map, count_by, nat_lt, IfOk, slice_index, if◌then◌else◌, ◌==◌};
ghost use Rattle.std.specs.List.{All, AllPairs};
ghost use Rattle.bk_piece.specs.Filled.{area, word_of};
ghost use Rattle.bk_piece.specs.Rising.{Rise, full, keys_in};
ghost use Rattle.bk_link.specs.Addresses.{symbol_address, constant_address, find_in};
ghost use Rattle.bk_link.specs.Conditions.{AreLow, AreTables, IsLow};

use crate::sites::Site;
use bk_piece::Handle;
use std::alloc::{AllocError, Global};

/// Where the pool begins.
const POOL_BASE: u32 = 33_554_432;

/// The bytes of a constant.
const CONSTANT_SIZE: u32 = 8;

/// The words of an area.
pub(crate) fn area(words: &[Vec<u64>], place: usize) -> &[u64]
    requires { place < length words.now }
    ensures { result.now ≡ area (map (λ w. w.items) words.now) place }
{
    &words[place]
}

/// The word of a handle's cell, which holds a key.
#[tactic(auto, using(crate::proofs::Filling::within_areas))]
pub(crate) fn word_of(words: &[Vec<u64>], handle: Handle) -> u64
    requires { word_of (map (λ w. w.items) words.now) handle ≢ 0 }
    ensures { result ≡ word_of (map (λ w. w.items) words.now) handle }
{
    words[handle.area as usize][handle.cell as usize]
}

/// How many cells hold a key.
pub(crate) fn count_keys(words: &[u64]) -> usize
    ensures value { result ≡ length (full words.now) }
    ensures most { result ≤ length words.now }
{
    let mut count = 0;
    for word in words {
        if *word > 0 {
            count += 1;
        }
    }
    count
}

/// The keys of an area in rising order.
pub(crate) fn sorted_keys(alloc: Global, words: &[u64]) -> Result<Vec<u64>, AllocError>
    requires { AllPairs (λ x y. x ≢ y) (full words.now) }
    ensures { IfOk result (λ keys. keys.items ≡ keys_in words.now) }
{
    let mut keys = full(alloc, words)?;
    keys.sort_unstable();
    Ok(keys)
}

/// The words of the cells that hold a key.
pub(crate) fn full(alloc: Global, words: &[u64]) -> Result<Vec<u64>, AllocError>
    ensures { IfOk result (λ keys. keys.items ≡ full words.now) }
{
    let mut keys = Vec::new(alloc);
    for word in words {
        if *word > 0 {
            keys.push(*word)?;
        }
    }
    Ok(keys)
}

/// The codes of types in rising order.
#[tactic(auto, using(crate::proofs::Keyed::narrow_codes))]
pub(crate) fn type_codes(alloc: Global, words: &[u64]) -> Result<Vec<u32>, AllocError>
    requires differ { AllPairs (λ x y. x ≢ y) (full words.now) }
    requires codes { All (λ w. w ≤ 13) words.now }
    ensures { IfOk result (λ codes. codes.items ≡ keys_in words.now) }
{
    let keys = sorted_keys(alloc, words)?;
    narrowed(alloc, &keys)
}

/// Numbers that fit a `u32`.
fn narrowed(alloc: Global, numbers: &[u64]) -> Result<Vec<u32>, AllocError>
    requires { (k : ℕ) → slice_index numbers.now k < 2 ^ 32 }
    ensures { IfOk result (λ narrow. narrow.items ≡ numbers.now) }
{
    let mut narrow = Vec::with_capacity(alloc, numbers.len())?;
    for number in numbers {
        narrow.push(*number as u32)?;
    }
    Ok(narrow)
}

/// The address of what each cell of the areas of symbols and of constants holds.
#[derive(Drop)]
pub struct Addresses {
    symbols: Vec<u32>,
    constants: Vec<u32>,
}

impl Addresses {
    pub(crate) fn new(
        alloc: Global,
        sites: &[Site],
        pool: &[u64],
        words: &[Vec<u64>],
    ) -> Result<Addresses, AllocError>
        requires areas { length words.now ≡ 3 }
        requires low { All IsLow sites.now }
        requires room { 8 * length pool.now ≤ 16777216 }
        requires rising { Rise pool.now }
        ensures symbols { IfOk result (λ a. a.symbols.items ≡ map (symbol_address sites.now) (area (map (λ w. w.items) words.now) 0)) }
        ensures constants { IfOk result (λ a. a.constants.items ≡ map (constant_address pool.now) (area (map (λ w. w.items) words.now) 2)) }
        ensures tables { IfOk result AreTables }
    {
        Ok(Addresses {
            symbols: symbol_addresses(alloc, sites, area(words, 0))?,
            constants: constant_addresses(alloc, pool, area(words, 2))?,
        })
    }

    /// The address of a handle's key.
    pub(crate) fn find(&self, handle: Handle) -> u64
        requires cell { handle.cell < (if handle.area == 2 then length self.now.constants.items else length self.now.symbols.items) }
        requires tables { AreTables self.now }
        ensures value { result ≡ find_in self.now handle }
        ensures low { result < 2 ^ 31 }
    {
        let addresses = if handle.area == 2 {
            &self.constants
        } else {
            &self.symbols
        };
        u64::from(addresses[handle.cell as usize])
    }
}

/// The address of what each cell of the symbols' area holds.
fn symbol_addresses(alloc: Global, sites: &[Site], words: &[u64]) -> Result<Vec<u32>, AllocError>
    requires { All IsLow sites.now }
    ensures value { IfOk result (λ addresses. addresses.items ≡ map (symbol_address sites.now) words.now) }
    ensures low { IfOk result (λ addresses. AreLow addresses.items) }
{
    let mut addresses = Vec::with_capacity(alloc, words.len())?;
    for word in words {
        addresses.push(symbol_address(sites, *word))?;
    }
    Ok(addresses)
}

/// The address of a symbol, whose name's number is one less than its key; 0 for a cell that holds none.
fn symbol_address(sites: &[Site], word: u64) -> u32
    requires { All IsLow sites.now }
    ensures value { result ≡ symbol_address sites.now word }
    ensures low { result < 2 ^ 31 }
{
    if word == 0 {
        return 0;
    }
    match sites.get((word - 1) as usize) {
        Some(site) => site.address,
        None => 0,
    }
}

/// The address of what each cell of the constants' area holds.
fn constant_addresses(alloc: Global, pool: &[u64], words: &[u64]) -> Result<Vec<u32>, AllocError>
    requires room { 8 * length pool.now ≤ 16777216 }
    requires rising { Rise pool.now }
    ensures value { IfOk result (λ addresses. addresses.items ≡ map (constant_address pool.now) words.now) }
    ensures low { IfOk result (λ addresses. AreLow addresses.items) }
{
    let mut addresses = Vec::with_capacity(alloc, words.len())?;
    for word in words {
        addresses.push(constant_address(pool, *word))?;
    }
    Ok(addresses)
}

/// The address of a constant of the pool.
fn constant_address(pool: &[u64], word: u64) -> u32
    requires room { 8 * length pool.now ≤ 16777216 }
    requires rising { Rise pool.now }
    ensures value { result ≡ constant_address pool.now word }
    ensures low { result < 2 ^ 31 }
{
    POOL_BASE + CONSTANT_SIZE * count_below(pool, word) as u32
}

/// How many constants of a rising pool are below a number.
fn count_below(pool: &[u64], word: u64) -> usize
    requires { Rise pool.now }
    ensures value { result ≡ count_by (λ c. nat_lt c word) pool.now }
    ensures most { result ≤ length pool.now }
{
    match pool.binary_search(&word) {
        Ok(place) => place,
        Err(place) => place,
    }
}
