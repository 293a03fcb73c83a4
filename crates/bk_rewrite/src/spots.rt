// Values by their numbers.
ghost use Rattle.std.specs.Prelude.{◌≡◌, ℕ, ◌↔◌, IsTrue, MatchOption, Some};
ghost use Rattle.std.specs.Option.{option_copied};
ghost use Rattle.bk_rewrite.specs.Places.{value_at, StandsAmong, StandsIn, StandsAt, HasNumbers};
ghost use Rattle.bk_func.specs.Numbers.{value_of};

use crate::applying::count_values;
use bk_func::{Block, Func, Value, greatest_value};
use std::alloc::{AllocError, Global};
use std::collections::BTreeMap;

/// Where a value stands: the place of its block, and its place in the block.
#[derive(Clone, Copy)]
pub(crate) struct Spot {
    pub(crate) block: usize,
    pub(crate) place: usize,
}

/// Where the values of a function stand, by number. What it says is looked up, so that it may be out of
/// date; then the function is searched.
#[derive(Drop)]
pub(crate) struct Spots {
    /// By number, where the numbers are not many more than the values.
    near: Vec<Option<Spot>>,
    /// Those of all others.
    far: BTreeMap<u32, Spot>,
}

impl Spots {
    pub(crate) fn new(alloc: Global, func: &Func) -> Result<Spots, AllocError> {
        let mut spots = Spots {
            near: vec![in alloc; None; near_count(func)]?,
            far: BTreeMap::new(alloc),
        };
        for (block, each) in func.blocks.iter().enumerate() {
            spots.note_block(&each.values, block)?;
        }
        Ok(spots)
    }

    fn note_block(&mut self, values: &[Value], block: usize) -> Result<(), AllocError> {
        for (place, value) in values.iter().enumerate() {
            self.note(value.id, Spot { block, place })?;
        }
        Ok(())
    }

    /// Notes where the value with this number stands.
    pub(crate) fn note(&mut self, id: u32, spot: Spot) -> Result<(), AllocError> {
        let count = self.near.len();
        if let Some(entry) = self.near.get_mut(id as usize) {
            *entry = Some(spot);
        } else if count > 0 && id as usize == count {
            self.near.push(Some(spot))?;
        } else {
            self.far.insert(id, spot)?;
        }
        Ok(())
    }

    fn noted(&self, id: u32) -> Option<Spot> {
        match self.near.get(id as usize) {
            Some(spot) => *spot,
            None => self.far.get(&id).copied(),
        }
    }

    /// Where the value with this number stands.
    pub(crate) fn spot(&self, func: &Func, id: u32) -> Option<Spot>
        ensures { MatchOption result ((b p : ℕ) → ¬ StandsAt func.now id b p) (λ s. StandsAt func.now id s.block s.place) }
    {
        match self.noted(id) {
            Some(spot) if has_id(func, spot, id) => Some(spot),
            _ => first_spot(func, id),
        }
    }

    /// The value with this number.
    pub(crate) fn find<'a>(&self, func: &'a Func, id: u32) -> Option<&'a Value>
        ensures stands { MatchOption result ((b p : ℕ) → ¬ StandsAt func.now id b p) (λ v. (b : ℕ) × (p : ℕ) × (value_at func.now b p ≡ Some v.now) × (v.now.id ≡ id)) }
        ensures named { HasNumbers func.now → option_copied result ≡ value_of func.now id }
    {
        match self.spot(func, id) {
            Some(spot) => value_at(func, spot),
            None => None,
        }
    }
}

/// How many numbers have an entry of their own: all up to the greatest, or none where that is far above the
/// count of values.
fn near_count(func: &Func) -> usize {
    let greatest = greatest_value(func) as usize;
    if greatest / 4 <= count_values(&func.blocks) {
        greatest + 1
    } else {
        0
    }
}

pub(crate) fn value_at(func: &Func, spot: Spot) -> Option<&Value>
    ensures { option_copied result ≡ value_at func.now spot.block spot.place }
{
    let block = func.blocks.get(spot.block)?;
    block.values.get(spot.place)
}

/// Whether a value with this number stands there.
fn has_id(func: &Func, spot: Spot, id: u32) -> bool
    ensures { IsTrue result ↔ StandsAt func.now id spot.block spot.place }
{
    match value_at(func, spot) {
        Some(value) => value.id == id,
        None => false,
    }
}

/// Where the first value with this number stands.
pub(crate) fn first_spot(func: &Func, id: u32) -> Option<Spot>
    ensures { MatchOption result ((b p : ℕ) → ¬ StandsAt func.now id b p) (λ s. StandsAt func.now id s.block s.place) }
{
    search(&func.blocks, id)
}

fn search(blocks: &[Block], id: u32) -> Option<Spot>
    ensures { MatchOption result ((b p : ℕ) → ¬ StandsIn blocks.now id b p) (λ s. StandsIn blocks.now id s.block s.place) }
{
    for (block, each) in blocks.iter().enumerate() {
        if let Some(place) = place_in(&each.values, id) {
            return Some(Spot { block, place });
        }
    }
    None
}

fn place_in(values: &[Value], id: u32) -> Option<usize>
    ensures { MatchOption result ((p : ℕ) → ¬ StandsAmong values.now id p) (λ p. StandsAmong values.now id p) }
{
    for (place, value) in values.iter().enumerate() {
        if value.id == id {
            return Some(place);
        }
    }
    None
}
