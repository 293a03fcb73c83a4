// Edges between places.
ghost use Rattle.std.specs.Prelude.{◌≡◌, ◌++◌, ◌∷◌, [], None, IfOk, OnOk, length, replicate, slice_index_or, slice_set};
ghost use Rattle.bk_places.specs.Search.{Reverses, with_edge};

use std::alloc::{AllocError, Global};
use std::marker::Model;

/// The places behind each place, in lists.
#[derive(Drop)]
pub struct Edges {
    lists: Vec<Vec<usize>>,
}

impl Model for Edges {
    ghost use Rattle.std.specs.Prelude.{List, ℕ, map};

    ghost Value = { List (List ℕ) };

    ghost view = { λ e. map (λ l. l.items) e.lists.items };
}

impl Edges {
    /// No edges between this many places.
    pub fn new(alloc: Global, places: usize) -> Result<Edges, AllocError>
        ensures { IfOk result (λ edges. edges ≡ replicate places []) }
    {
        let mut lists = Vec::with_capacity(alloc, places)?;
        for _ in 0..places {
            lists.push(Vec::new(alloc))?;
        }
        Ok(Edges { lists })
    }

    /// No places, with room for this many.
    pub fn with_capacity(alloc: Global, places: usize) -> Result<Edges, AllocError>
        ensures { IfOk result (λ edges. edges ≡ []) }
    {
        Ok(Edges {
            lists: Vec::with_capacity(alloc, places)?,
        })
    }

    /// One more edge; nothing where there is no such place.
    pub fn add(&mut self, from: usize, to: usize) -> Result<(), AllocError>
        ensures { OnOk result (self.new ≡ slice_set self.old from (slice_index_or self.old from [] ++ to ∷ [])) }
    {
        let places = self.lists.len();
        if places <= from {
            return Ok(());
        }
        self.lists[from].push(to)?;
        Ok(())
    }

    /// One more edge, if there is a place that it comes from.
    pub fn add_from(&mut self, from: Option<usize>, to: usize) -> Result<(), AllocError>
        ensures { OnOk result (self.new ≡ with_edge self.old from to) }
    {
        let Some(from) = from else { return Ok(()) };
        self.add(from, to)
    }

    /// One more place, with those behind it.
    pub fn push(&mut self, behind: Vec<usize>) -> Result<(), AllocError>
        ensures { OnOk result (self.new ≡ self.old ++ behind.items ∷ []) }
    {
        self.lists.push(behind)?;
        Ok(())
    }

    /// The count of places.
    pub fn len(&self) -> usize
        ensures { result ≡ length self.now }
    {
        self.lists.len()
    }

    /// The places behind this one.
    pub fn behind(&self, place: usize) -> &[usize]
        ensures { result.now ≡ slice_index_or self.now place [] }
    {
        match self.lists.get(place) {
            Some(list) => list,
            None => &[],
        }
    }
}

/// Behind each place those of which it is the key.
pub fn reversed(alloc: Global, places: usize, keys: &[Option<usize>]) -> Result<Edges, AllocError>
    ensures size { IfOk result (λ edges. length edges ≡ places) }
    ensures edges { IfOk result (Reverses keys.now) }
{
    let mut edges = Edges::new(alloc, places)?;
    for (place, key) in keys.iter().enumerate() {
        edges.add_from(*key, place)?;
    }
    Ok(edges)
}

/// What the list has at the place; nothing past its end.
pub fn entry(list: &[Option<usize>], place: usize) -> Option<usize>
    ensures { result ≡ slice_index_or list.now place None }
{
    list.get(place).copied().unwrap_or(None)
}
