// The states that walks carry from block to block.
ghost use Rattle.std.specs.Prelude.{◌≡◌, ◌↔◌, ℕ, [], IfOk, IsTrue, OnOk, cond, length, None, false, slice_index_or};
ghost use Rattle.std.specs.List.{slice_get};
ghost use Rattle.bk_form.specs.Carried.{AreDiffering, AreFirstStates, AreIncoming, AreOpen, Gathers, is_open, out_of, source_of, unmarked};
ghost use Rattle.bk_form.specs.Chains.{AreChains};
ghost use Rattle.bk_form.specs.Walks.{IsFlow, IsRow};

use crate::chains::Chain;
use crate::flow::Flow;
use crate::reach::Row;
use bk_places::{Edges, Search, entry};
use std::alloc::{AllocError, Global};

/// For each block that is reached the state on all walks to it.
pub(crate) fn first_states(
    alloc: Global,
    flow: &Flow,
    chains: &[Chain],
    reached: &Row,
) -> Result<Vec<Option<usize>>, AllocError>
    requires flow { IsFlow flow.now }
    requires chains { AreChains flow.now.scope.func.now chains.now }
    requires reached { IsRow flow.now.edges (length flow.now.edges) reached.now }
    ensures { IfOk result (λ states. AreFirstStates flow.now.scope.func.now states.items) }
{
    let through = open_edges(alloc, &flow.edges, chains)?;
    let incoming = incoming(alloc, &flow.edges, &through, chains, reached)?;
    let differing = differing(alloc, &flow.edges, chains, reached, &incoming)?;
    let nowhere = through.len();
    let mut torn = Search::new(alloc, nowhere)?;
    torn.extend_all(&through, nowhere, &differing, 0)?;
    states_of(alloc, &incoming, &torn.labels)
}

/// What walks leave the block at this place with, given what they lead to it with.
pub(crate) fn outgoing(chains: &[Chain], at: usize, state: Option<usize>) -> Option<usize>
    ensures { result ≡ out_of (slice_get chains.now at) state }
{
    match chains.get(at).copied() {
        Some(Chain::Linked { last, .. }) => Some(last),
        Some(Chain::Empty) => state,
        _ => None,
    }
}

/// The states that are noted, but for those at marked places.
fn states_of(
    alloc: Global,
    noted: &[Option<usize>],
    marks: &[Option<usize>],
) -> Result<Vec<Option<usize>>, AllocError>
    ensures { IfOk result (λ states. (p : ℕ) → slice_index_or states.items p None ≡ unmarked (slice_index_or marks.now p None) (slice_index_or noted.now p None)) }
{
    let mut states = Vec::with_capacity(alloc, noted.len())?;
    for place in 0..noted.len() {
        let mark = entry(marks, place);
        let found = entry(noted, place);
        let state = unmarked(mark, found);
        states.push(state)?;
    }
    Ok(states)
}

/// The state, if there is no mark.
fn unmarked(mark: Option<usize>, state: Option<usize>) -> Option<usize>
    ensures { result ≡ unmarked mark state }
{
    match mark {
        Some(_) => None,
        None => state,
    }
}

/// The edges that lead on from blocks without states.
fn open_edges(alloc: Global, edges: &Edges, chains: &[Chain]) -> Result<Edges, AllocError>
    ensures { IfOk result (AreOpen edges.now chains.now) }
{
    let mut through = Edges::with_capacity(alloc, edges.len())?;
    for at in 0..edges.len() {
        let behind = open_behind(edges, chains, at);
        let places = Vec::from_slice(alloc, behind)?;
        through.push(places)?;
    }
    Ok(through)
}

/// The places behind a block without states.
fn open_behind<'a>(edges: &'a Edges, chains: &[Chain], at: usize) -> &'a [usize]
    ensures { result.now ≡ cond (is_open (slice_get chains.now at)) (slice_index_or edges.now at []) [] }
{
    match chains.get(at).copied() {
        Some(Chain::Empty) => edges.behind(at),
        _ => &[],
    }
}

/// For each block a state that some walk leads to it with.
fn incoming(
    alloc: Global,
    edges: &Edges,
    through: &Edges,
    chains: &[Chain],
    reached: &Row,
) -> Result<Vec<Option<usize>>, AllocError>
    requires { length through.now ≡ length edges.now }
    ensures { IfOk result (λ states. AreIncoming edges.now through.now chains.now reached.now states.items) }
{
    let nowhere = edges.len();
    let mut search = Search::new(alloc, nowhere)?;
    for at in 0..edges.len() {
        let source = source(chains, reached, at);
        let Some(last) = source else { continue };
        search.extend_all(through, nowhere, edges.behind(at), last)?;
    }
    Ok(search.labels)
}

/// The last state of the block at this place, if it is reached and has one.
fn source(chains: &[Chain], reached: &Row, at: usize) -> Option<usize>
    ensures { result ≡ source_of (slice_get chains.now at) (slice_index_or reached.now at false) }
{
    let is_reached = reached.has(at);
    match chains.get(at).copied() {
        Some(Chain::Linked { last, .. }) if is_reached => Some(last),
        _ => None,
    }
}

/// The places to which an edge leads along which walks carry something else than what is noted there, and the
/// first place, at which walks begin.
fn differing(
    alloc: Global,
    edges: &Edges,
    chains: &[Chain],
    reached: &Row,
    noted: &[Option<usize>],
) -> Result<Vec<usize>, AllocError>
    ensures { IfOk result (λ places. AreDiffering edges.now chains.now reached.now noted.now places.items) }
{
    let mut places = Vec::new(alloc);
    places.push(0)?;
    for at in 0..edges.len() {
        let is_reached = reached.has(at);
        if !is_reached {
            continue;
        }
        let state = outgoing(chains, at, entry(noted, at));
        push_differing(&mut places, noted, edges.behind(at), state)?;
    }
    Ok(places)
}

/// Adds the places at which something else is noted.
fn push_differing(
    differing: &mut Vec<usize>,
    noted: &[Option<usize>],
    places: &[usize],
    state: Option<usize>,
) -> Result<(), AllocError>
    ensures { OnOk result (Gathers (λ y. ¬ (slice_index_or noted.now y None ≡ state)) places.now differing.old.items differing.new.items) }
{
    for place in places {
        let is_noted = is_noted(noted, *place, state);
        if is_noted {
            continue;
        }
        differing.push(*place)?;
    }
    Ok(())
}

/// Whether this is noted at the place.
fn is_noted(noted: &[Option<usize>], place: usize, state: Option<usize>) -> bool
    ensures { IsTrue result ↔ (slice_index_or noted.now place None ≡ state) }
{
    entry(noted, place) == state
}
