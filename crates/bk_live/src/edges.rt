// Edges between the places of blocks.
ghost use Rattle.std.specs.Prelude.{◌≡◌, ℕ, IfOk, OnOk, [], length, map, replicate, slice_index_or, Some};
ghost use Rattle.bk_live.specs.Edges.{AddsEdges, AreBackward, IsNamed, onward};
ghost use Rattle.bk_live.specs.Homes.{place};

use crate::places::Places;
use bk_func::Block;
use std::alloc::{AllocError, Global};
use std::marker::Model;

/// The places behind each place, in lists.
#[derive(Drop)]
pub(crate) struct Edges {
    lists: Vec<Vec<usize>>,
}

impl Model for Edges {
    ghost use Rattle.std.specs.Prelude.{List, ℕ, map};

    ghost Value = { List (List ℕ) };

    ghost view = { λ e. map (λ l. l.items) e.lists.items };
}

impl Edges {
    /// No edges between this many places.
    fn new(alloc: Global, places: usize) -> Result<Edges, AllocError>
        ensures { IfOk result (λ edges. edges ≡ replicate places []) }
    {
        let mut lists = Vec::with_capacity(alloc, places)?;
        for _ in 0..places {
            lists.push(Vec::new(alloc))?;
        }
        Ok(Edges { lists })
    }

    /// From the place of each block to those of its predecessors.
    pub(crate) fn backwards(
        alloc: Global,
        blocks: &[Block],
        places: &Places,
    ) -> Result<Edges, AllocError>
        ensures { IfOk result (AreBackward blocks.now (place places.now)) }
    {
        let mut edges = Edges::new(alloc, blocks.len())?;
        for (place, block) in blocks.iter().enumerate() {
            edges.add_all(places, &block.succs, place)?;
        }
        Ok(edges)
    }

    /// From the place of each block to those of its successors.
    pub(crate) fn onwards(
        alloc: Global,
        blocks: &[Block],
        places: &Places,
    ) -> Result<Edges, AllocError>
        ensures { IfOk result (λ edges. edges ≡ map (onward (place places.now)) blocks.now) }
    {
        let mut lists = Vec::with_capacity(alloc, blocks.len())?;
        for block in blocks {
            lists.push(places.find_all(alloc, &block.succs)?)?;
        }
        Ok(Edges { lists })
    }

    /// An edge from each of the blocks with these numbers.
    fn add_all(&mut self, places: &Places, numbers: &[u32], to: usize) -> Result<(), AllocError>
        ensures { OnOk result (AddsEdges (λ e. IsNamed (place places.now) numbers.now e.0 × (e.1 ≡ to)) self.old self.new) }
    {
        for number in numbers {
            self.add(places.find(*number), to)?;
        }
        Ok(())
    }

    /// One more edge, if there is a place that it comes from.
    fn add(&mut self, from: Option<usize>, to: usize) -> Result<(), AllocError>
        ensures { OnOk result (AddsEdges (λ e. (from ≡ Some e.0) × (e.1 ≡ to)) self.old self.new) }
    {
        let Some(from) = from else { return Ok(()) };
        let places = self.lists.len();
        if places <= from {
            return Ok(());
        }
        self.lists[from].push(to)?;
        Ok(())
    }

    /// The count of places.
    pub(crate) fn len(&self) -> usize
        ensures { result ≡ length self.now }
    {
        self.lists.len()
    }

    /// The places behind this one.
    pub(crate) fn behind(&self, place: usize) -> &[usize]
        ensures { result.now ≡ slice_index_or self.now place [] }
    {
        match self.lists.get(place) {
            Some(list) => list,
            None => &[],
        }
    }
}
