// The states of blocks as chains.
ghost use Rattle.std.specs.Prelude.{◌≡◌, ◌↔◌, ◌<◌, ℕ, [], IfOk, OnOk, IsTrue, length, MatchOption, None, replicate, Some, slice_index_or};
ghost use Rattle.std.specs.List.{Contains, slice_get};
ghost use Rattle.bk_func.specs.Records.{BlockRecord};
ghost use Rattle.bk_form.specs.Chains.{AreBefores, AreChains, AreFirsts, AreHomes, AreLinks, AreNamed, IsBefore, IsChainAt, IsClosedBy};
ghost use Rattle.bk_form.specs.Walks.{IsFlow};

use crate::flow::Flow;
use bk_func::Block;
use bk_places::{Edges, Search, entry, reversed};
use std::alloc::{AllocError, Global};

/// The states of a block: none, one chain, or neither.
#[derive(Clone, Copy)]
pub(crate) enum Chain {
    Empty,
    Linked { first: usize, last: usize },
    Broken,
}

/// How states follow each other, by place.
#[derive(Drop)]
struct Links {
    /// For each state the one of its block that it names.
    befores: Vec<Option<usize>>,
    /// Behind each state those of its block that name it.
    after: Edges,
    /// For each state the one that names none of its block and leads to it.
    firsts: Vec<Option<usize>>,
}

/// The states of each block, given for each state the place of its block, and for each value that of the state that
/// it names.
pub(crate) fn chains(
    alloc: Global,
    flow: &Flow,
    homes: &[Option<usize>],
    names: &[Option<usize>],
) -> Result<Vec<Chain>, AllocError>
    requires flow { IsFlow flow.now }
    requires homes { AreHomes flow.now.scope.func.now homes.now }
    requires names { AreNamed flow.now.scope.func.now names.now }
    ensures { IfOk result (λ chains. AreChains flow.now.scope.func.now chains.items) }
{
    let links = Links::new(alloc, homes, names)?;
    let func = flow.scope.func;
    let blocks: &[Block] = &func.blocks;
    let count = blocks.len();
    let members = reversed(alloc, count, homes)?;
    let mut chains = Vec::with_capacity(alloc, count)?;
    for at in 0..count {
        let places = members.behind(at);
        let chain = links.chain(places);
        chains.push(chain)?;
    }
    Ok(chains)
}

impl Links {
    fn new(
        alloc: Global,
        homes: &[Option<usize>],
        names: &[Option<usize>],
    ) -> Result<Links, AllocError>
        ensures befores { IfOk result (λ links. AreBefores homes.now names.now links.befores.items) }
        ensures links { IfOk result AreLinks }
    {
        let befores = befores(alloc, homes, names)?;
        let after = reversed(alloc, befores.len(), &befores)?;
        let firsts = firsts(alloc, &befores, &after)?;
        Ok(Links {
            befores,
            after,
            firsts,
        })
    }

    /// The chain of the states at these places, which are those of a block.
    fn chain(&self, places: &[usize]) -> Chain
        requires links { AreLinks self.now }
        requires closed { IsClosedBy self.now.befores.items places.now }
        requires within { (p : ℕ) → Contains places.now p → p < length self.now.after }
        ensures { IsChainAt self.now.befores.items places.now result }
    {
        let Some(place) = places.get(0).copied() else {
            return Chain::Empty
        };
        let found = entry(&self.firsts, place);
        let Some(first) = found else {
            return Chain::Broken
        };
        let are_from = self.are_from(first, places);
        if !are_from {
            return Chain::Broken;
        }
        let is_line = self.is_line(places);
        if !is_line {
            return Chain::Broken;
        }
        let end = self.last(places);
        let Some(last) = end else {
            return Chain::Broken
        };
        Chain::Linked { first, last }
    }

    /// Whether this first state leads to each of the places.
    fn are_from(&self, first: usize, places: &[usize]) -> bool
        ensures { IsTrue result ↔ ((p : ℕ) → Contains places.now p → slice_index_or self.now.firsts.items p None ≡ Some first) }
    {
        for place in places {
            let is_from = self.is_from(first, *place);
            if !is_from {
                return false;
            }
        }
        true
    }

    fn is_from(&self, first: usize, place: usize) -> bool
        ensures { IsTrue result ↔ (slice_index_or self.now.firsts.items place None ≡ Some first) }
    {
        entry(&self.firsts, place) == Some(first)
    }

    /// Whether each of the states is the first of those that name the same state.
    fn is_line(&self, places: &[usize]) -> bool
        ensures { IsTrue result ↔ ((p q : ℕ) → Contains places.now p → slice_index_or self.now.befores.items p None ≡ Some q → slice_get (slice_index_or self.now.after q []) 0 ≡ Some p) }
    {
        for place in places {
            let is_next = self.is_next(*place);
            if !is_next {
                return false;
            }
        }
        true
    }

    /// Whether the state is the first of those that name the same state, if it names one of its block.
    fn is_next(&self, place: usize) -> bool
        ensures { IsTrue result ↔ ((q : ℕ) → slice_index_or self.now.befores.items place None ≡ Some q → slice_get (slice_index_or self.now.after q []) 0 ≡ Some place) }
    {
        let named = entry(&self.befores, place);
        let Some(before) = named else { return true };
        let next = self.after.behind(before).get(0).copied();
        next == Some(place)
    }

    /// Whether no state names this one.
    fn is_last(&self, place: usize) -> bool
        ensures { IsTrue result ↔ (slice_index_or self.now.after place [] ≡ []) }
    {
        let next = self.after.behind(place).get(0).copied();
        next.is_none()
    }

    /// The first of the states that none of them names.
    fn last(&self, places: &[usize]) -> Option<usize>
        ensures { MatchOption result ((p : ℕ) → Contains places.now p → ¬ (slice_index_or self.now.after p [] ≡ [])) (λ p. Contains places.now p × (slice_index_or self.now.after p [] ≡ [])) }
    {
        for place in places {
            let is_last = self.is_last(*place);
            if is_last {
                return Some(*place);
            }
        }
        None
    }
}

/// For each state the one of its block that it names.
fn befores(
    alloc: Global,
    homes: &[Option<usize>],
    names: &[Option<usize>],
) -> Result<Vec<Option<usize>>, AllocError>
    ensures { IfOk result (λ befores. AreBefores homes.now names.now befores.items) }
{
    let mut befores = Vec::with_capacity(alloc, homes.len())?;
    for place in 0..homes.len() {
        let before = before(homes, names, place);
        befores.push(before)?;
    }
    Ok(befores)
}

/// The state that the state at the place names, where both stand in one block.
fn before(homes: &[Option<usize>], names: &[Option<usize>], place: usize) -> Option<usize>
    ensures { (q : ℕ) → (result ≡ Some q) ↔ IsBefore homes.now names.now place q }
{
    let home = entry(homes, place);
    let named = entry(names, place);
    let Some(name) = named else { return None };
    if home.is_none() {
        return None;
    }
    let other = entry(homes, name);
    if other == home { named } else { None }
}

/// For each place one that has none before it and leads to the place.
fn firsts(
    alloc: Global,
    befores: &[Option<usize>],
    after: &Edges,
) -> Result<Vec<Option<usize>>, AllocError>
    requires { length after.now ≡ length befores.now }
    ensures { IfOk result (λ firsts. AreFirsts befores.now after.now firsts.items) }
{
    let nowhere = after.len();
    let mut search = Search::new(alloc, nowhere)?;
    for place in 0..befores.len() {
        let before = entry(befores, place);
        let is_later = before.is_some();
        if is_later {
            continue;
        }
        search.extend(after, nowhere, place, place)?;
    }
    Ok(search.labels)
}
