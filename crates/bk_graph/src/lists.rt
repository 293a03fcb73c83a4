// Lists of places.
ghost use Rattle.std.specs.Prelude.{◌≡◌, ◌++◌, ◌∷◌, [], IfOk, OnOk, slice_index_or};

use crate::graph::Edge;
use std::alloc::{AllocError, Global};
use std::marker::Model;

/// For each of several places a list of places.
#[derive(Drop)]
pub(crate) struct Lists {
    lists: Vec<Vec<usize>>,
}

impl Model for Lists {
    ghost use Rattle.std.specs.Prelude.{List, ℕ, map};

    ghost Value = { List (List ℕ) };

    ghost view = { λ l. map (λ xs. xs.items) l.lists.items };
}

impl Lists {
    /// No lists, with room for this many.
    pub(crate) fn with_capacity(alloc: Global, count: usize) -> Result<Lists, AllocError>
        ensures { IfOk result (λ lists. lists ≡ []) }
    {
        Ok(Lists {
            lists: Vec::with_capacity(alloc, count)?,
        })
    }

    /// One more list.
    pub(crate) fn push(&mut self, list: Vec<usize>) -> Result<(), AllocError>
        ensures { OnOk result (self.new ≡ self.old ++ list.items ∷ []) }
    {
        self.lists.push(list)?;
        Ok(())
    }

    /// The list of this place, an empty one past the last.
    pub(crate) fn of(&self, place: usize) -> &[usize]
        ensures { result.now ≡ slice_index_or self.now place [] }
    {
        match self.lists.get(place) {
            Some(list) => list,
            None => &[],
        }
    }
}

/// For each of several places a list of edges.
#[derive(Drop)]
pub(crate) struct EdgeLists {
    lists: Vec<Vec<Edge>>,
}

impl Model for EdgeLists {
    ghost use Rattle.std.specs.Prelude.{List, map};
    ghost use Rattle.bk_graph.specs.declared.graph.Edge.{Edge};

    ghost Value = { List (List Edge) };

    ghost view = { λ l. map (λ es. es.items) l.lists.items };
}

impl EdgeLists {
    /// No lists, with room for this many.
    pub(crate) fn with_capacity(alloc: Global, count: usize) -> Result<EdgeLists, AllocError>
        ensures { IfOk result (λ lists. lists ≡ []) }
    {
        Ok(EdgeLists {
            lists: Vec::with_capacity(alloc, count)?,
        })
    }

    /// One more list.
    pub(crate) fn push(&mut self, list: Vec<Edge>) -> Result<(), AllocError>
        ensures { OnOk result (self.new ≡ self.old ++ list.items ∷ []) }
    {
        self.lists.push(list)?;
        Ok(())
    }

    /// The list of this place, an empty one past the last.
    pub(crate) fn of(&self, place: usize) -> &[Edge]
        ensures { result.now ≡ slice_index_or self.now place [] }
    {
        match self.lists.get(place) {
            Some(list) => list,
            None => &[],
        }
    }
}
