// What values stand for: each yields to another one or stands for itself.
ghost use Rattle.std.specs.Prelude.{◌≡◌, ◌≢◌, ◌<◌, ℕ, length, slice_index_or, slice_set, IfOk};
ghost use Rattle.bk_graph.specs.Roots.{IsTree, root_of, relabelled};

use std::alloc::{AllocError, Global};
use std::marker::Model;

/// For each value the place of what it stands for.
#[derive(Drop)]
pub(crate) struct Roots {
    /// For each value the place of the one that it yields to, its own where it stays.
    above: Vec<usize>,
}

impl Model for Roots {
    ghost use Rattle.std.specs.Prelude.{List, ℕ};
    ghost use Rattle.bk_graph.specs.Roots.{IsTree, roots};

    ghost Value = { List ℕ };

    ghost view = { λ r. roots r.above.items };

    ghost invariant = { λ r. IsTree r.above.items };
}

impl Roots {
    /// Each value stands for itself.
    pub(crate) fn new(alloc: Global, count: usize) -> Result<Roots, AllocError>
        ensures size { IfOk result (λ roots. length roots ≡ count) }
        ensures own { IfOk result (λ roots. (p : ℕ) → root_of roots p ≡ p) }
    {
        let mut above = Vec::with_capacity(alloc, count)?;
        for place in 0..count {
            above.push(place)?;
        }
        Ok(Roots { above })
    }

    /// What the value at this place stands for.
    pub(crate) fn root(&self, place: usize) -> usize
        ensures { result ≡ root_of self.now place }
    {
        let mut at = place;
        for _step in 0..self.above.len() {
            let next = above(&self.above, at);
            if next == at {
                return at;
            }
            at = next;
        }
        at
    }

    /// The same, and the way there becomes shorter.
    pub(crate) fn find(&mut self, place: usize) -> usize
        ensures root { result ≡ root_of self.old place }
        ensures same { self.new ≡ self.old }
    {
        let root = self.root(place);
        let mut at = place;
        for _step in 0..self.above.len() {
            let next = above(&self.above, at);
            if next == at {
                return root;
            }
            set_above(&mut self.above, at, root);
            at = next;
        }
        root
    }

    /// The ways from all values become short.
    pub(crate) fn straighten(&mut self)
        ensures { self.new ≡ self.old }
    {
        for place in 0..self.above.len() {
            self.find(place);
        }
    }

    /// What stands for the one value, which stands for itself, now stands for the other.
    pub(crate) fn put(&mut self, from: usize, to: usize)
        requires from { root_of self.old from ≡ from }
        requires to { root_of self.old to ≡ to }
        requires apart { from ≢ to }
        requires there { from < length self.old }
        requires within { to < length self.old }
        ensures size { length self.new ≡ length self.old }
        ensures each { (p : ℕ) → p < length self.old → root_of self.new p ≡ relabelled from to (root_of self.old p) }
    {
        set_above(&mut self.above, from, to);
    }
}

/// What the value at this place yields to.
fn above(above: &[usize], place: usize) -> usize
    ensures { result ≡ root_of above.now place }
{
    above.get(place).copied().unwrap_or(place)
}

#[tactic(auto, using(crate::proofs::Standing::past_set))]
fn set_above(above: &mut Vec<usize>, place: usize, other: usize)
    ensures { above.new.items ≡ slice_set above.old.items place other }
{
    if place < above.len() {
        above[place] = other;
    }
}
