// The search for the blocks to which edges lead from the entry.
ghost use Rattle.std.specs.Prelude.{◌≡◌, ℕ, ◌<◌, ◌&&◌, ◌||◌, true, false, length, IfOk, Some, slice_get, slice_index_or, slice_set};
ghost use Rattle.bk_graph.specs.declared.graph.Edge.{Edge};
ghost use Rattle.bk_graph.specs.Facts.{edge_stays};
ghost use Rattle.bk_graph.specs.Reads.{facts, tables_in};
ghost use Rattle.bk_graph.specs.Settling.{enters, IsFound, IsShut};
ghost use Rattle.bk_graph.specs.Tables.{edges_to};

use crate::graph::Edge;
use crate::settled::Settled;
use std::alloc::{AllocError, Global};

impl<'a> Settled<'a> {
    /// The blocks to which edges that stay lead from the entry. A look at all blocks that finds none more ends the search, and
    /// each one before has found some.
    pub(crate) fn search(&self, alloc: Global) -> Result<Vec<bool>, AllocError>
        ensures found { IfOk result (λ found. IsFound (tables_in self.now) (facts self.now) found.items) }
        ensures last { IfOk result (λ found. (b : ℕ) → b < length (tables_in self.now).blocks → IsShut (tables_in self.now) (facts self.now) found.items b) }
    {
        let mut found = self.first_found(alloc)?;
        for _ in 0..=self.graph.blocks.len() {
            self.look_back(&mut found);
            if !self.look_on(&mut found) {
                return Ok(found);
            }
        }
        Err(AllocError)
    }

    /// The entry.
    fn first_found(&self, alloc: Global) -> Result<Vec<bool>, AllocError>
        ensures { IfOk result (λ found. IsFound (tables_in self.now) (facts self.now) found.items) }
    {
        let mut found = vec![in alloc; false; self.graph.blocks.len()]?;
        mark_first(&mut found);
        Ok(found)
    }

    /// Looks at the blocks from the last to the first.
    fn look_back(&self, found: &mut [bool])
        requires { IsFound (tables_in self.now) (facts self.now) found.old }
        ensures { IsFound (tables_in self.now) (facts self.now) found.new }
    {
        let count = self.graph.blocks.len();
        for step in 0..count {
            self.look_at(found, count - 1 - step);
        }
    }

    /// Looks at all blocks; whether some were found. Where none were, no edge leads on.
    fn look_on(&self, found: &mut [bool]) -> bool
        requires { IsFound (tables_in self.now) (facts self.now) found.old }
        ensures found { IsFound (tables_in self.now) (facts self.now) found.new }
        ensures none { result ≡ false → (found.new ≡ found.old) × ((b : ℕ) → b < length (tables_in self.now).blocks → IsShut (tables_in self.now) (facts self.now) found.old b) }
    {
        let mut changed = false;
        for block in 0..self.graph.blocks.len() {
            let more = self.look_at(found, block);
            changed = either(changed, more);
        }
        changed
    }

    /// Finds the block, if an edge leads to it from one that is found; whether it is new.
    fn look_at(&self, found: &mut [bool], block: usize) -> bool
        requires found { IsFound (tables_in self.now) (facts self.now) found.old }
        requires within { block < length (tables_in self.now).blocks }
        ensures found { IsFound (tables_in self.now) (facts self.now) found.new }
        ensures none { result ≡ false → (found.new ≡ found.old) × IsShut (tables_in self.now) (facts self.now) found.old block }
    {
        if found[block] || !self.is_entered(found, block) {
            return false;
        }
        found[block] = true;
        true
    }

    /// Whether an edge leads to the block from one that is found.
    fn is_entered(&self, found: &[bool], block: usize) -> bool
        ensures yes { result ≡ true → (k : ℕ) × (e : Edge) × (slice_get (edges_to (tables_in self.now) block) k ≡ Some e) × (enters (facts self.now) found.now e ≡ true) }
        ensures no { result ≡ false → (k : ℕ) (e : Edge) → slice_get (edges_to (tables_in self.now) block) k ≡ Some e → enters (facts self.now) found.now e ≡ false }
    {
        let edges = self.graph.edges_to(block);
        for edge in edges {
            if self.enters(found, *edge) {
                return true;
            }
        }
        false
    }

    fn enters(&self, found: &[bool], edge: Edge) -> bool
        ensures { result ≡ enters (facts self.now) found.now edge }
    {
        found.get(edge.from).copied().unwrap_or(false) && self.has_edge(edge)
    }

    /// Whether an edge leads to the block.
    pub(crate) fn is_led_to(&self, block: usize) -> bool
        ensures { result ≡ false → (k : ℕ) (e : Edge) → slice_get (edges_to (tables_in self.now) block) k ≡ Some e → edge_stays (facts self.now) e ≡ false }
    {
        let edges = self.graph.edges_to(block);
        for edge in edges {
            if self.has_edge(*edge) {
                return true;
            }
        }
        false
    }
}

#[tactic(auto, using(crate::proofs::Standing::past_set))]
fn mark_first(found: &mut Vec<bool>)
    ensures { found.new.items ≡ slice_set found.old.items 0 true }
{
    if found.len() > 0 {
        found[0] = true;
    }
}

pub(crate) fn either(first: bool, second: bool) -> bool
    ensures { result ≡ (first || second) }
{
    first || second
}
