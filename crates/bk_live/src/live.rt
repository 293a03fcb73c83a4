// The values that are live where blocks begin.
ghost use Rattle.std.specs.Prelude.{◌≡◌, ◌↔◌, ℕ, List, IfOk, OnOk, length, map};
ghost use Rattle.std.specs.BTreeMap.{get};
ghost use Rattle.std.specs.List.{Contains};
ghost use Rattle.std.specs.Map.{keys_of};
ghost use Rattle.std.specs.Ordering.{nat_cmp};
ghost use Rattle.bk_live.specs.declared.search.Start.{Start as StartRecord};
ghost use Rattle.bk_live.specs.Adds.{Adds};
ghost use Rattle.bk_live.specs.Counts.{AreCounts};
ghost use Rattle.bk_live.specs.Homes.{AreHomes, ArePlaces, home, place, IsBehind};
ghost use Rattle.bk_live.specs.Live.{IsOrdered, AreLive};
ghost use Rattle.bk_live.specs.Prepared.{FoundFor, Gives, IsStartOf, home_or, listed_at, start_of};
ghost use Rattle.bk_live.specs.Rows.{AddsFound, AreRising, HasRows};
ghost use Rattle.bk_live.specs.Search.{Finds, IsReady};
ghost use Rattle.bk_live.specs.Table.{AreNextUses};
ghost use Rattle.bk_live.specs.Uses.{AreUses};

use crate::counts::{Counts, steps_between};
use crate::edges::Edges;
use crate::homes::{Homes, Spot};
use crate::rows::Rows;
use crate::search::{Roads, Search, Start};
use crate::table::Table;
use crate::uses::{Scope, Use};
use bk_func::{Func, Memory};
use std::alloc::{AllocError, Global};
use std::collections::BTreeMap;

/// For each block, in list order, the numbers of the values that are live at its start, rising and memory values
/// included. The orders list the values of each block, in block order.
pub fn live_in(alloc: Global, func: &Func, orders: &[Vec<u32>]) -> Result<Vec<Vec<u32>>, Memory>
    ensures { IsOrdered func.now (map (λ o. o.items) orders.now) → IfOk result (λ rows. AreLive func.now (map (λ o. o.items) orders.now) (map (λ r. r.items) rows.items)) }
{
    let table = Table::new(alloc, func, orders)?;
    let values = table.live.values(alloc)?;
    Ok(values)
}

/// What the searches for live values go by: where values stand, the edges back, and how far it is through each block.
#[derive(Drop)]
struct Ways<'a> {
    homes: &'a Homes,
    edges: &'a Edges,
    lengths: &'a [u64],
}

impl<'a> Ways<'a> {
    /// The roads back from the uses of a value. None leads into the block in which it stands.
    fn roads(&self, value: u32) -> Roads<'a>
        ensures edges { result.edges.now ≡ self.now.edges.now }
        ensures lengths { result.lengths.now ≡ self.now.lengths.now }
        ensures avoided { result.avoided ≡ home_or (home self.now.homes.now value) (length self.now.edges.now) }
    {
        Roads {
            edges: self.edges,
            lengths: self.lengths,
            avoided: home_of(self.homes, value, self.edges.len()),
        }
    }
}

/// For each block the values that are live at its start, with their distances.
pub(crate) fn live_rows(
    alloc: Global,
    func: &Func,
    scope: &Scope,
    counts: &Counts,
    uses: &[Use],
) -> Result<Rows, AllocError>
    ensures rising { IfOk result AreRising }
    ensures live { (os : List (List ℕ)) → IsOrdered func.now os → AreHomes os (home scope.now.homes) → ArePlaces func.now.blocks (place scope.now.places) → AreCounts func.now os counts.now → AreUses os (home scope.now.homes) (place scope.now.places) func.now.blocks uses.now → IfOk result (λ rows. AreNextUses func.now os rows) }
{
    let starts = starts(alloc, &scope.homes, counts, uses)?;
    let edges = Edges::backwards(alloc, &func.blocks, &scope.places)?;
    let lengths = counts.lengths(alloc)?;
    let ways = Ways {
        homes: &scope.homes,
        edges: &edges,
        lengths: &lengths,
    };
    let rows = reached_rows(alloc, &ways, &starts)?;
    Ok(rows)
}

/// For each place the values whose starts lead to it, by rising number.
fn reached_rows(
    alloc: Global,
    ways: &Ways,
    starts: &BTreeMap<u32, Vec<Start>>,
) -> Result<Rows, AllocError>
    ensures { IfOk result (HasRows (λ n. FoundFor (home ways.now.homes.now) ways.now.edges.now ways.now.lengths.now (listed_at (get nat_cmp starts.now n)) n) (length ways.now.edges.now) (keys_of starts.now.entries)) }
{
    let mut search = Search::new(alloc, ways.edges.len())?;
    let mut rows = Rows::new(alloc, ways.edges.len())?;
    for (value, begun) in starts {
        add_reached(&mut search, &mut rows, ways, *value, begun)?;
    }
    Ok(rows)
}

/// Adds the value to the rows of all places that its starts lead to.
fn add_reached(
    search: &mut Search,
    rows: &mut Rows,
    ways: &Ways,
    value: u32,
    begun: &[Start],
) -> Result<(), AllocError>
    requires { IsReady (length ways.now.edges.now) search.old }
    ensures finds { OnOk result (Finds (FoundFor (home ways.now.homes.now) ways.now.edges.now ways.now.lengths.now begun.now value) (length ways.now.edges.now) search.new) }
    ensures adds { OnOk result (AddsFound value search.new rows.old rows.new) }
{
    let roads = ways.roads(value);
    search.clear();
    search.spread(&roads, begun)?;
    rows.add_all(value, search)?;
    Ok(())
}

/// The place of the block in which the value stands, or `none`.
fn home_of(homes: &Homes, number: u32, none: usize) -> usize
    ensures { result ≡ home_or (home homes.now number) none }
{
    match homes.find(number) {
        Some(home) => home.block,
        None => none,
    }
}

/// For each number the blocks in which it is used before it is defined, and how far the uses are from their starts.
fn starts(
    alloc: Global,
    homes: &Homes,
    counts: &Counts,
    uses: &[Use],
) -> Result<BTreeMap<u32, Vec<Start>>, AllocError>
    ensures { IfOk result (λ starts. (n : ℕ) (s : StartRecord) → Contains (listed_at (get nat_cmp starts n)) s ↔ IsStartOf (home homes.now) counts.now uses.now n s) }
{
    let mut starts = BTreeMap::new(alloc);
    for used in uses {
        note(alloc, homes, counts, &mut starts, *used)?;
    }
    Ok(starts)
}

/// Notes where a search from the use starts, unless the value is defined before in the block.
fn note(
    alloc: Global,
    homes: &Homes,
    counts: &Counts,
    starts: &mut BTreeMap<u32, Vec<Start>>,
    used: Use,
) -> Result<(), AllocError>
    ensures { OnOk result (Adds (λ (e : ℕ × StartRecord). Contains (listed_at (get nat_cmp starts.old e.0)) e.1) (Gives counts.now (IsBehind (home homes.now)) 0 used) (λ (e : ℕ × StartRecord). Contains (listed_at (get nat_cmp starts.new e.0)) e.1)) }
{
    if homes.is_behind(used.value, used.spot) {
        return Ok(());
    }
    add_start(alloc, starts, used.value, start_of(counts, used.spot))?;
    Ok(())
}

/// Where a search from a use at the spot starts.
fn start_of(counts: &Counts, spot: Spot) -> Start
    ensures { result ≡ start_of counts.now spot }
{
    let before = counts.at(spot.block, spot.entry).unwrap_or(0);
    Start {
        place: spot.block,
        distance: steps_between(0, before),
    }
}

fn add_start(
    alloc: Global,
    starts: &mut BTreeMap<u32, Vec<Start>>,
    number: u32,
    start: Start,
) -> Result<(), AllocError>
    ensures { OnOk result (Adds (λ (e : ℕ × StartRecord). Contains (listed_at (get nat_cmp starts.old e.0)) e.1) (λ (e : ℕ × StartRecord). (number ≡ e.0) × (start ≡ e.1)) (λ (e : ℕ × StartRecord). Contains (listed_at (get nat_cmp starts.new e.0)) e.1)) }
{
    let mut list = take_list(alloc, starts, number);
    list.push(start)?;
    starts.insert(number, list)?;
    Ok(())
}

/// Takes the list of the number out, an empty one if there is none.
fn take_list(alloc: Global, starts: &mut BTreeMap<u32, Vec<Start>>, number: u32) -> Vec<Start>
    ensures list { result.items ≡ listed_at (get nat_cmp starts.old number) }
    ensures others { (n : ℕ) → (number ≡ n → ⊥) → get nat_cmp starts.new n ≡ get nat_cmp starts.old n }
{
    match starts.remove(&number) {
        Some(list) => list,
        None => Vec::new(alloc),
    }
}
