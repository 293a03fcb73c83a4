// The values that are live where blocks begin, in rows.
ghost use Rattle.std.specs.Prelude.{◌≡◌, ◌++◌, ◌∷◌, [], IfErr, IfOk, OnOk, length, map, replicate, slice_index_or};
ghost use Rattle.bk_live.specs.Rows.{AddsFound, HasNot, IsRising, StandsIn, distance_in, values_of, with_live};
ghost use Rattle.bk_live.specs.Search.{Marks};

use crate::search::Search;
use std::alloc::{AllocError, Global};
use std::marker::Model;

/// A value that is live at a place.
#[derive(Clone, Copy, Drop)]
pub struct LiveValue {
    pub value: u32,
    /// How many scheduled places its next use is on.
    pub distance: u32,
}

/// For each block the values that are live at its start.
#[derive(Drop)]
pub(crate) struct Rows {
    rows: Vec<Vec<LiveValue>>,
}

impl Model for Rows {
    ghost use Rattle.std.specs.Prelude.{List, map};
    ghost use Rattle.bk_live.specs.declared.rows.LiveValue.{LiveValue};

    ghost Value = { List (List LiveValue) };

    ghost view = { λ r. map (λ l. l.items) r.rows.items };
}

impl Rows {
    /// Empty rows, this many.
    pub(crate) fn new(alloc: Global, count: usize) -> Result<Rows, AllocError>
        ensures { IfOk result (λ rows. rows ≡ replicate count []) }
    {
        let mut rows = Vec::with_capacity(alloc, count)?;
        for _ in 0..count {
            rows.push(Vec::new(alloc))?;
        }
        Ok(Rows { rows })
    }

    /// Adds the value to the rows of all places that the search has reached.
    pub(crate) fn add_all(&mut self, value: u32, search: &Search) -> Result<(), AllocError>
        requires { Marks search.now.distances.items search.now.reached.items }
        ensures { OnOk result (AddsFound value search.now self.old self.new) }
    {
        for place in &search.reached {
            self.add(*place, value, search.distance(*place))?;
        }
        Ok(())
    }

    /// Adds the value to a row, if there are such a row and a distance.
    fn add(&mut self, place: usize, value: u32, distance: Option<u64>) -> Result<(), AllocError>
        ensures { OnOk result (self.new ≡ with_live self.old place value distance) }
    {
        let Some(distance) = distance else {
            return Ok(());
        };
        let distance = short(distance)?;
        let count = self.rows.len();
        if count <= place {
            return Ok(());
        }
        self.rows[place].push(LiveValue { value, distance })?;
        Ok(())
    }

    /// The row of the block at this place.
    pub(crate) fn row(&self, place: usize) -> &[LiveValue]
        ensures { result.now ≡ slice_index_or self.now place [] }
    {
        match self.rows.get(place) {
            Some(row) => row,
            None => &[],
        }
    }

    /// How many places on the next use of the value is from the start of the block at this place, if it is live there.
    pub(crate) fn distance(&self, place: usize, value: u32) -> Option<u32>
        requires { IsRising (slice_index_or self.now place []) }
        ensures { result ≡ distance_in (slice_index_or self.now place []) value }
    {
        let row = self.row(place);
        match search(row, value) {
            Ok(index) => Some(row[index].distance),
            Err(_) => None,
        }
    }

    /// The values in each row.
    pub(crate) fn values(&self, alloc: Global) -> Result<Vec<Vec<u32>>, AllocError>
        ensures { IfOk result (λ rows. map (λ r. r.items) rows.items ≡ map values_of self.now) }
    {
        let mut rows = Vec::with_capacity(alloc, self.rows.len())?;
        for row in &self.rows {
            rows.push(values_of(alloc, row)?)?;
        }
        Ok(rows)
    }
}

fn values_of(alloc: Global, row: &[LiveValue]) -> Result<Vec<u32>, AllocError>
    ensures { IfOk result (λ values. values.items ≡ values_of row.now) }
{
    let mut values = Vec::with_capacity(alloc, row.len())?;
    for live in row {
        values.push(live.value)?;
    }
    Ok(values)
}

/// Where the value stands in a row, or where it would.
fn search(row: &[LiveValue], value: u32) -> Result<usize, usize>
    requires { IsRising row.now }
    ensures found { IfOk result (StandsIn row.now value) }
    ensures absent { IfErr result (λ at. HasNot row.now value) }
{
    row.binary_search_by_key(&value, |live| live.value)
}

/// The distance in 32 bits: no function with as many places has room.
fn short(distance: u64) -> Result<u32, AllocError>
    ensures { IfOk result (λ short. short ≡ distance) }
{
    match u32::try_from(distance) {
        Ok(short) => Ok(short),
        Err(_) => Err(AllocError),
    }
}
