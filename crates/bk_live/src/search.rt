// Searches along edges for the least distances.
ghost use Rattle.std.specs.Prelude.{◌≡◌, ◌↔◌, ◌⊎◌, [], ℕ, ◌+◌, ◌<◌, List, IsTrue, IfOk, IfSome, IfNone, OnOk, Some, None, length, slice_index_or, slice_set};
ghost use Rattle.std.specs.BinaryHeap.{heap_items};
ghost use Rattle.std.specs.List.{Contains};
ghost use Rattle.bk_live.specs.declared.search.Start.{Start as StartRecord};
ghost use Rattle.bk_live.specs.Edges.{IsEdge};
ghost use Rattle.bk_live.specs.Search.{length_at, distance, more_listed, Found, Finds, HasUpTo, IsClear, Marks, Moves, Reaches, Spreading, Waits};

use crate::edges::Edges;
use std::alloc::{AllocError, Global};
use std::cmp::Reverse;
use std::collections::BinaryHeap;

/// A place from which a search goes, with its distance.
#[derive(Clone, Copy, Drop)]
pub(crate) struct Start {
    pub(crate) place: usize,
    pub(crate) distance: u64,
}

/// The edges that a search goes along. Each adds the length of the place that it leads to, 0 for places past the list;
/// none leads to the place `avoided`.
#[derive(Drop)]
pub(crate) struct Roads<'a> {
    pub(crate) edges: &'a Edges,
    pub(crate) lengths: &'a [u64],
    pub(crate) avoided: usize,
}

impl<'a> Roads<'a> {
    /// The length of the place, if roads lead to it.
    fn length(&self, place: usize) -> Option<u64>
        ensures { result ≡ length_at self.now.lengths.now self.now.avoided place }
    {
        if place == self.avoided {
            return None;
        }
        Some(self.lengths.get(place).copied().unwrap_or(0))
    }
}

/// The least distances of places from several starts.
#[derive(Drop)]
pub(crate) struct Search {
    pub(crate) distances: Vec<Option<u64>>,
    /// The places that have a distance, in the order in which they were reached.
    pub(crate) reached: Vec<usize>,
    /// The places whose distance has changed since they were left, the nearest first.
    pub(crate) queue: BinaryHeap<Reverse<(u64, usize)>>,
}

impl Search {
    /// Nothing is reached yet.
    pub(crate) fn new(alloc: Global, places: usize) -> Result<Search, AllocError>
        ensures { IfOk result (IsClear places) }
    {
        Ok(Search {
            distances: vec![in alloc; None; places]?,
            reached: Vec::new(alloc),
            queue: BinaryHeap::new(alloc),
        })
    }

    /// Nothing is reached any more.
    pub(crate) fn clear(&mut self)
        requires marks { Marks self.old.distances.items self.old.reached.items }
        requires queue { heap_items self.old.queue ≡ [] }
        ensures { IsClear (length self.old.distances.items) self.new }
    {
        for index in 0..self.reached.len() {
            let place = self.reached[index];
            self.forget(place);
        }
        self.reached.clear();
    }

    fn forget(&mut self, place: usize)
        ensures distances { self.new.distances.items ≡ slice_set self.old.distances.items place None }
        ensures reached { self.new.reached.items ≡ self.old.reached.items }
        ensures queue { heap_items self.new.queue ≡ heap_items self.old.queue }
    {
        if place < self.distances.len() {
            self.distances[place] = None;
        }
    }

    /// The distance of the place, if it is reached.
    pub(crate) fn distance(&self, place: usize) -> Option<u64>
        ensures { result ≡ distance self.now place }
    {
        self.distances.get(place).copied().unwrap_or(None)
    }

    /// Finds the distances of all places that the roads lead to from the starts.
    pub(crate) fn spread(&mut self, roads: &Roads, starts: &[Start]) -> Result<(), AllocError>
        requires { IsClear (length roads.now.edges.now) self.old }
        ensures { OnOk result (Finds (Found roads.now.edges.now roads.now.lengths.now roads.now.avoided starts.now) (length roads.now.edges.now) self.new) }
    {
        self.begin(starts)?;
        for _ in 0..u64::MAX {
            let Some((distance, place)) = self.pop() else {
                return Ok(());
            };
            self.turn(roads, place, distance)?;
        }
        Err(AllocError)
    }

    /// The nearest place that waits, with its distance.
    fn pop(&mut self) -> Option<(u64, usize)>
        ensures some { IfSome result (λ x. (p d : ℕ) → Waits self.old p d → ((p ≡ x.1) × (d ≡ x.0)) ⊎ Waits self.new p d) }
        ensures none { IfNone result ((heap_items self.old.queue ≡ []) × (heap_items self.new.queue ≡ [])) }
        ensures distances { self.new.distances.items ≡ self.old.distances.items }
        ensures reached { self.new.reached.items ≡ self.old.reached.items }
    {
        match self.queue.pop() {
            Some(nearest) => Some(nearest.0),
            None => None,
        }
    }

    /// Leaves a place that waited with this distance, unless it has another one by now.
    fn turn(&mut self, roads: &Roads, place: usize, distance: u64) -> Result<(), AllocError>
        requires { Marks self.old.distances.items self.old.reached.items }
        ensures { OnOk result ((starts : List StartRecord) → Spreading roads.now.edges.now roads.now.lengths.now roads.now.avoided starts self.old.distances.items self.old.reached.items (λ p d. ((p ≡ place) × (d ≡ distance)) ⊎ Waits self.old p d) → Spreading roads.now.edges.now roads.now.lengths.now roads.now.avoided starts self.new.distances.items self.new.reached.items (Waits self.new)) }
    {
        if !self.is_at(place, distance) {
            return Ok(());
        }
        self.leave(roads, place, distance)?;
        Ok(())
    }

    fn is_at(&self, place: usize, distance: u64) -> bool
        ensures { IsTrue result ↔ (slice_index_or self.now.distances.items place None ≡ Some distance) }
    {
        match self.distance(place) {
            Some(now) => now == distance,
            None => false,
        }
    }

    /// Reaches the starts.
    fn begin(&mut self, starts: &[Start]) -> Result<(), AllocError>
        requires { Marks self.old.distances.items self.old.reached.items }
        ensures marks { OnOk result (Marks self.new.distances.items self.new.reached.items) }
        ensures moves { OnOk result (Moves (λ p d. (s : Start) × Contains starts.now s × (s.place ≡ p) × (s.distance ≡ d)) self.old.distances.items (Waits self.old) self.new.distances.items (Waits self.new)) }
        ensures near { OnOk result ((s : Start) → Contains starts.now s → s.place < length self.old.distances.items → HasUpTo self.new.distances.items s.place s.distance) }
    {
        for start in starts {
            self.near(start.place, start.distance)?;
        }
        Ok(())
    }

    /// Goes on from a place with this distance.
    fn leave(&mut self, roads: &Roads, place: usize, distance: u64) -> Result<(), AllocError>
        requires { Marks self.old.distances.items self.old.reached.items }
        ensures marks { OnOk result (Marks self.new.distances.items self.new.reached.items) }
        ensures moves { OnOk result (Moves (λ q d. IsEdge roads.now.edges.now place q × Reaches roads.now.lengths.now roads.now.avoided distance q d) self.old.distances.items (Waits self.old) self.new.distances.items (Waits self.new)) }
        ensures near { OnOk result ((q w : ℕ) → IsEdge roads.now.edges.now place q → q < length self.old.distances.items → length_at roads.now.lengths.now roads.now.avoided q ≡ Some w → HasUpTo self.new.distances.items q (distance + w)) }
    {
        for next in roads.edges.behind(place) {
            self.step(roads, *next, distance)?;
        }
        Ok(())
    }

    /// Goes to a place from one with this distance.
    fn step(&mut self, roads: &Roads, next: usize, distance: u64) -> Result<(), AllocError>
        requires { Marks self.old.distances.items self.old.reached.items }
        ensures marks { OnOk result (Marks self.new.distances.items self.new.reached.items) }
        ensures moves { OnOk result (Moves (λ q d. (q ≡ next) × Reaches roads.now.lengths.now roads.now.avoided distance q d) self.old.distances.items (Waits self.old) self.new.distances.items (Waits self.new)) }
        ensures near { OnOk result ((w : ℕ) → next < length self.old.distances.items → length_at roads.now.lengths.now roads.now.avoided next ≡ Some w → HasUpTo self.new.distances.items next (distance + w)) }
    {
        let Some(length) = roads.length(next) else {
            return Ok(());
        };
        let Some(sum) = distance.checked_add(length) else {
            return Err(AllocError);
        };
        self.near(next, sum)
    }

    /// Gives the place the distance, if there is such a place and it has none that is as small.
    fn near(&mut self, place: usize, distance: u64) -> Result<(), AllocError>
        requires { Marks self.old.distances.items self.old.reached.items }
        ensures marks { OnOk result (Marks self.new.distances.items self.new.reached.items) }
        ensures moves { OnOk result (Moves (λ p d. (p ≡ place) × (d ≡ distance)) self.old.distances.items (Waits self.old) self.new.distances.items (Waits self.new)) }
        ensures near { OnOk result (place < length self.old.distances.items → HasUpTo self.new.distances.items place distance) }
    {
        if !self.is_nearer(place, distance) {
            return Ok(());
        }
        self.list(place)?;
        self.queue.push(Reverse((distance, place)))?;
        self.distances[place] = Some(distance);
        Ok(())
    }

    /// Whether there is such a place, and the distance is smaller than any that it has.
    fn is_nearer(&self, place: usize, distance: u64) -> bool
        ensures { IsTrue result ↔ (place < length self.now.distances.items) × ((before : ℕ) → slice_index_or self.now.distances.items place None ≡ Some before → distance < before) }
    {
        if place >= self.distances.len() {
            return false;
        }
        match self.distances[place] {
            Some(before) => distance < before,
            None => true,
        }
    }

    /// Lists the place, if it has no distance yet.
    fn list(&mut self, place: usize) -> Result<(), AllocError>
        ensures distances { self.new.distances.items ≡ self.old.distances.items }
        ensures reached { OnOk result (self.new.reached.items ≡ more_listed (slice_index_or self.old.distances.items place None) self.old.reached.items place) }
        ensures queue { heap_items self.new.queue ≡ heap_items self.old.queue }
    {
        if self.distance(place).is_none() {
            self.reached.push(place)?;
        }
        Ok(())
    }
}
