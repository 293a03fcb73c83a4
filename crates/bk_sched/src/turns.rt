// Places in turn: each after those from which edges lead to it, the least score first.
ghost use Rattle.std.specs.Prelude.{◌≡◌, ℕ, ◌+◌, ◌-◌, ◌<◌, ◌≤◌, ◌↔◌, IsTrue, IfOk, OnOk, length, slice_index, slice_set};
ghost use Rattle.std.specs.List.{All, range_with_len};
ghost use Rattle.bk_places.specs.Counts.{count_in, total_in};
ghost use Rattle.bk_sched.specs.Turns.{AreReady, Released, StaysWithin, Turned};

use bk_places::Edges;
use std::alloc::{AllocError, Global};
use std::collections::BTreeSet;

/// The turn of a place: by its score, then by itself.
#[derive(Clone, Copy, PartialEq, Eq, PartialOrd, Ord)]
pub(crate) struct Turn {
    pub(crate) score: u32,
    pub(crate) place: usize,
}

/// The places in turn, given the score of each, and edges from places to those that come after them. Places that come
/// before themselves are left out, and what comes after them.
pub(crate) fn in_turn(
    alloc: Global,
    scores: &[u32],
    after: &Edges,
) -> Result<Vec<usize>, AllocError>
    requires size { length after.now ≡ length scores.now }
    requires within { StaysWithin after.now }
    ensures { IfOk result (λ order. Turned scores.now after.now (range_with_len 0 (length scores.now)) order.items) }
{
    let mut waits = count_waits(alloc, after)?;
    let mut ready = ready_places(alloc, scores, &waits)?;
    let mut order = Vec::with_capacity(alloc, scores.len())?;
    while let Some(next) = ready.pop_first() {
        order.push(next.place)?;
        release(scores, after.behind(next.place), &mut waits, &mut ready)?;
    }
    Ok(order)
}

/// How many edges lead to each place.
fn count_waits(alloc: Global, after: &Edges) -> Result<Vec<u64>, AllocError>
    requires { StaysWithin after.now }
    ensures size { IfOk result (λ waits. length waits.items ≡ length after.now) }
    ensures counts { IfOk result (λ waits. (p : ℕ) → slice_index waits.items p ≡ total_in after.now p) }
{
    let mut waits = vec![in alloc; 0u64; after.len()]?;
    for place in 0..after.len() {
        add_waits(&mut waits, after.behind(place))?;
    }
    Ok(waits)
}

fn add_waits(waits: &mut [u64], places: &[usize]) -> Result<(), AllocError>
    requires { All (λ p. p < length waits.old) places.now }
    ensures size { length waits.new ≡ length waits.old }
    ensures counts { OnOk result ((p : ℕ) → slice_index waits.new p ≡ slice_index waits.old p + count_in p places.now) }
{
    for place in places {
        match waits[*place].checked_add(1) {
            Some(more) => waits[*place] = more,
            None => return Err(AllocError),
        }
    }
    Ok(())
}

/// The places to which no edge leads.
fn ready_places(alloc: Global, scores: &[u32], waits: &[u64]) -> Result<BTreeSet<Turn>, AllocError>
    requires { length waits.now ≡ length scores.now }
    ensures { IfOk result (λ ready. AreReady scores.now waits.now (length scores.now) ready) }
{
    let mut ready = BTreeSet::new(alloc);
    for (place, score) in scores.iter().enumerate() {
        if waits[place] == 0 {
            let score = *score;
            ready.insert(Turn { score, place })?;
        }
    }
    Ok(ready)
}

/// One edge less leads to each of the places; those to which none leads any more are ready.
fn release(
    scores: &[u32],
    places: &[usize],
    waits: &mut [u64],
    ready: &mut BTreeSet<Turn>,
) -> Result<(), AllocError>
    requires size { length waits.old ≡ length scores.now }
    requires within { All (λ p. p < length waits.old) places.now }
    requires enough { (p : ℕ) → count_in p places.now ≤ slice_index waits.old p }
    ensures size { length waits.new ≡ length waits.old }
    ensures waits { OnOk result ((p : ℕ) → slice_index waits.new p + count_in p places.now ≡ slice_index waits.old p) }
    ensures ready { OnOk result (Released scores.now places.now waits.new ready.old ready.new) }
{
    for place in places {
        let place = *place;
        if end_wait(waits, place) {
            let score = scores[place];
            ready.insert(Turn { score, place })?;
        }
    }
    Ok(())
}

/// One edge less leads to the place; whether that was the last.
fn end_wait(waits: &mut [u64], place: usize) -> bool
    requires within { place < length waits.old }
    requires some { 0 < slice_index waits.old place }
    ensures waits { waits.new ≡ slice_set waits.old place (slice_index waits.old place - 1) }
    ensures last { IsTrue result ↔ (slice_index waits.old place ≡ 1) }
{
    waits[place] -= 1;
    waits[place] == 0
}
