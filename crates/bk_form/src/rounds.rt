// Values that come before themselves.
ghost use Rattle.std.specs.Prelude.{◌≡◌, ◌↔◌, ◌<◌, ℕ, IfOk, IsTrue, MatchBool, slice_index, true};
ghost use Rattle.std.specs.List.{All};
ghost use Rattle.bk_func.specs.Records.{BlockRecord, ValueRecord};
ghost use Rattle.bk_func.specs.Form.Before.{Precedes};
ghost use Rattle.bk_func.specs.Form.Text.{HasBlock, HasValue};
ghost use Rattle.bk_places.specs.Search.{Leads};
ghost use Rattle.bk_form.specs.Finds.{Finds, FindsIn};
ghost use Rattle.bk_form.specs.Orders.{IsOrder, Settles};
ghost use Rattle.bk_form.specs.Walks.{IsFlow};

use crate::Place;
use crate::flow::Flow;
use bk_func::{Block, Value};
use bk_places::{Edges, Search};
use std::alloc::{AllocError, Global};

/// The first value that has to come before itself, by edges from values to those that they come before.
pub(crate) fn first_round(
    alloc: Global,
    flow: &Flow,
    edges: &Edges,
) -> Result<Option<Place>, AllocError>
    requires flow { IsFlow flow.now }
    requires order { IsOrder flow.now.scope.func.now edges.now }
    ensures { IfOk result (Finds (λ b. Unit {0}) (λ b v. ¬ Precedes flow.now.scope.func.now b v v) flow.now.scope.func.now) }
{
    let ranks = settled_ranks(alloc, edges)?;
    let func = flow.scope.func;
    let blocks: &[Block] = &func.blocks;
    for block in blocks {
        let fault = round_in(alloc, flow, edges, &ranks, block)?;
        if fault.is_some() {
            return Ok(fault);
        }
    }
    Ok(None)
}

/// The first value of the block that has to come before itself.
fn round_in(
    alloc: Global,
    flow: &Flow,
    edges: &Edges,
    ranks: &[usize],
    block: &Block,
) -> Result<Option<Place>, AllocError>
    requires flow { IsFlow flow.now }
    requires order { IsOrder flow.now.scope.func.now edges.now }
    requires ranks { Settles edges.now ranks.now }
    requires block { HasBlock flow.now.scope.func.now block.now }
    ensures { IfOk result (FindsIn (λ b. Unit {0}) (λ b v. ¬ Precedes flow.now.scope.func.now b v v) block.now) }
{
    for value in &block.values {
        let round = comes_round(alloc, flow, edges, ranks, value)?;
        if round {
            return Ok(Some(Place::Value(value.id)));
        }
    }
    Ok(None)
}

/// Whether the value has to come before itself. A search is made only where it has no rank.
fn comes_round(
    alloc: Global,
    flow: &Flow,
    edges: &Edges,
    ranks: &[usize],
    value: &Value,
) -> Result<bool, AllocError>
    requires flow { IsFlow flow.now }
    requires order { IsOrder flow.now.scope.func.now edges.now }
    requires ranks { Settles edges.now ranks.now }
    ensures { IfOk result (λ round. (b : BlockRecord) → HasValue flow.now.scope.func.now b value.now → MatchBool round (Precedes flow.now.scope.func.now b value.now value.now) (¬ Precedes flow.now.scope.func.now b value.now value.now)) }
{
    let found = flow.scope.numbers.value(value.id);
    let Some(place) = found else { return Ok(false) };
    let settled = rank(ranks, place);
    if settled > 0 {
        return Ok(false);
    }
    leads_back(alloc, edges, place)
}

/// Whether edges lead from the place back to it.
fn leads_back(alloc: Global, edges: &Edges, place: usize) -> Result<bool, AllocError>
    ensures { IfOk result (λ back. IsTrue back ↔ Leads edges.now place place) }
{
    let nowhere = edges.len();
    let mut search = Search::new(alloc, nowhere)?;
    let starts = edges.behind(place);
    for start in starts {
        search.extend(edges, nowhere, *start, place)?;
    }
    Ok(search.is_reached(place))
}

/// The ranks, or none at all.
fn settled_ranks(alloc: Global, edges: &Edges) -> Result<Vec<usize>, AllocError>
    ensures { IfOk result (λ ranks. Settles edges.now ranks.items) }
{
    let ranks = ranks(alloc, edges)?;
    let settled = settles(edges, &ranks);
    if settled {
        return Ok(ranks);
    }
    Ok(Vec::new(alloc))
}

/// Whether each edge to a place with a rank leads from one with a lower rank.
fn settles(edges: &Edges, ranks: &[usize]) -> bool
    ensures { result ≡ true → Settles edges.now ranks.now }
{
    for place in 0..edges.len() {
        let low = rank(ranks, place);
        let above = all_above(ranks, low, edges.behind(place));
        if !above {
            return false;
        }
    }
    true
}

/// Whether each of the places that has a rank has one above this, which is one.
fn all_above(ranks: &[usize], low: usize, places: &[usize]) -> bool
    ensures { result ≡ true → All (λ p. 0 < slice_index ranks.now p → (0 < low × low < slice_index ranks.now p)) places.now }
{
    for place in places {
        let high = rank(ranks, *place);
        let rises = rises(low, high);
        if !rises {
            return false;
        }
    }
    true
}

/// Whether the high rank, if it is one, is above the low one, which is one then.
fn rises(low: usize, high: usize) -> bool
    ensures { result ≡ true → 0 < high → (0 < low × low < high) }
{
    high == 0 || (low != 0 && low < high)
}

fn rank(ranks: &[usize], place: usize) -> usize
    ensures { result ≡ slice_index ranks.now place }
{
    ranks.get(place).copied().unwrap_or(0)
}

/// The places one by one, each once all before it are gone: the count of steps is its rank. Places that wait for each
/// other, and those behind them, get none: 0.
fn ranks(alloc: Global, edges: &Edges) -> Result<Vec<usize>, AllocError> {
    let mut waits = waits(alloc, edges)?;
    let mut ranks = vec![in alloc; 0usize; edges.len()]?;
    let mut ready = Vec::new(alloc);
    for (place, count) in waits.iter().enumerate() {
        if *count == 0 {
            ready.push(place)?;
        }
    }
    for step in 0..edges.len() {
        let Some(place) = ready.get(step).copied() else {
            break
        };
        if let Some(rank) = ranks.get_mut(place) {
            *rank = step.saturating_add(1);
        }
        for next in edges.behind(place) {
            release(&mut waits, &mut ready, *next)?;
        }
    }
    Ok(ranks)
}

/// For each place how many edges lead to it.
fn waits(alloc: Global, edges: &Edges) -> Result<Vec<u64>, AllocError> {
    let mut waits = vec![in alloc; 0u64; edges.len()]?;
    for place in 0..edges.len() {
        for next in edges.behind(place) {
            if let Some(count) = waits.get_mut(*next) {
                *count = count.wrapping_add(1);
            }
        }
    }
    Ok(waits)
}

/// One place less stands before this one, which is ready when none is left.
fn release(waits: &mut Vec<u64>, ready: &mut Vec<usize>, place: usize) -> Result<(), AllocError> {
    if let Some(count) = waits.get_mut(place) {
        *count = count.wrapping_sub(1);
        if *count == 0 {
            ready.push(place)?;
        }
    }
    Ok(())
}
