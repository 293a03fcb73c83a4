// What the rules on branches, unreached blocks, copies, nil checks and phis make of a function.
ghost use Rattle.std.specs.Prelude.{◌≡◌, ◌≢◌, ℕ, ◌<◌, ◌≤◌, ◌||◌, true, false, length, replicate, IfOk, IfSome, None, Some, slice_get};
ghost use Rattle.bk_graph.specs.declared.graph.Edge.{Edge};
ghost use Rattle.bk_graph.specs.Cleaned.{goes_at, IsPhiDone, IsBranchDone, IsSound, IsClosed};
ghost use Rattle.bk_graph.specs.Facts.{edge_stays};
ghost use Rattle.bk_graph.specs.Known.{Way};
ghost use Rattle.bk_graph.specs.Reads.{facts, tables_in, IsRight, Steps};
ghost use Rattle.bk_graph.specs.Settling.{tables, IsOther, TakesOne, root_over};
ghost use Rattle.bk_graph.specs.Tables.{edges_to, args_of};

use crate::copies::{bypass, passed_roots};
use crate::graph::{Edge, Graph};
use crate::reads::is_phi;
use crate::search::either;
use crate::settled::Settled;
use std::alloc::{AllocError, Global};

impl<'a> Settled<'a> {
    /// The function after the rules. A look at all of it that changes nothing ends the work, and each one before has changed
    /// something.
    pub(crate) fn new(alloc: Global, graph: &'a Graph<'a>) -> Result<Settled<'a>, AllocError>
        requires { length graph.now.edges ≡ length graph.now.blocks.now }
        ensures graph { IfOk result (λ settled. settled.graph.now ≡ graph.now) }
        ensures right { IfOk result IsRight }
        ensures sound { IfOk result (λ settled. IsSound (tables graph.now) (facts settled)) }
        ensures closed { IfOk result (λ settled. IsClosed (tables graph.now) (facts settled)) }
    {
        let mut settled = Settled::begun(alloc, graph)?;
        for _ in 0..=settled.limit() {
            settled.hurry();
            if !settled.sweep(alloc)? {
                return Ok(settled);
            }
        }
        Err(AllocError)
    }

    /// The function in which only copies and nil checks have yielded.
    fn begun(alloc: Global, graph: &'a Graph<'a>) -> Result<Settled<'a>, AllocError>
        requires { length graph.now.edges ≡ length graph.now.blocks.now }
        ensures graph { IfOk result (λ settled. settled.graph.now ≡ graph.now) }
        ensures right { IfOk result IsRight }
    {
        let roots = passed_roots(alloc, graph)?;
        let taken = untaken(alloc, graph.blocks.len())?;
        let reached = vec![in alloc; true; graph.blocks.len()]?;
        Ok(Settled {
            graph,
            taken,
            reached,
            roots,
        })
    }

    /// How often something can be decided, left or yield.
    fn limit(&self) -> usize {
        let blocks = self.graph.blocks.len();
        self.graph
            .nodes
            .len()
            .saturating_add(blocks)
            .saturating_add(blocks)
    }

    /// Looks at all of it; whether something changed. Where nothing did, no rule applies.
    fn sweep(&mut self, alloc: Global) -> Result<bool, AllocError>
        requires { IsRight self.old }
        ensures step { Steps self.old self.new }
        ensures sound { IfOk result (λ changed. changed ≡ false → IsSound (tables_in self.new) (facts self.new)) }
        ensures closed { IfOk result (λ changed. changed ≡ false → IsClosed (tables_in self.new) (facts self.new)) }
    {
        let left = self.prune(alloc)?;
        let yielded = self.sweep_phis();
        let decided = self.sweep_branches();
        let changed = either(yielded, decided);
        Ok(either(left, changed))
    }

    /// Leaves the blocks to which no edges lead from the entry; whether there were some.
    fn prune(&mut self, alloc: Global) -> Result<bool, AllocError>
        requires { IsRight self.old }
        ensures step { Steps self.old self.new }
        ensures none { IfOk result (λ left. left ≡ false → (facts self.new ≡ facts self.old) × ((b : ℕ) → (facts self.old).reached b ≡ true → Way (tables_in self.old) (edge_stays (facts self.old)) b)) }
    {
        let found = self.search(alloc)?;
        let all = are_equal(&found, &self.reached);
        self.reached = found;
        Ok(!all)
    }

    /// Looks at all phis; whether one yielded.
    fn sweep_phis(&mut self) -> bool
        requires { IsRight self.old }
        ensures step { Steps self.old self.new }
        ensures none { result ≡ false → (facts self.new ≡ facts self.old) × ((p : ℕ) → p < length (tables_in self.old).nodes → IsPhiDone (tables_in self.old) (facts self.old) p) }
    {
        let mut changed = false;
        for place in 0..self.graph.nodes.len() {
            let more = self.attempt_phi(place);
            changed = either(changed, more);
        }
        changed
    }

    /// Looks at all branches; whether one was decided.
    fn sweep_branches(&mut self) -> bool
        requires { IsRight self.old }
        ensures step { Steps self.old self.new }
        ensures none { result ≡ false → (facts self.new ≡ facts self.old) × ((b : ℕ) → b < length (tables_in self.old).blocks → IsBranchDone (tables_in self.old) (facts self.old) b) }
    {
        let mut changed = false;
        for block in 0..self.graph.blocks.len() {
            let more = self.attempt_branch(block);
            changed = either(changed, more);
        }
        changed
    }

    /// Looks at all blocks in both directions, so that what is decided in one block is known in the next.
    fn hurry(&mut self)
        requires { IsRight self.old }
        ensures { Steps self.old self.new }
    {
        let count = self.graph.blocks.len();
        self.roots.straighten();
        for block in 0..count {
            self.visit(block);
        }
        self.roots.straighten();
        for step in 0..count {
            self.visit(count - 1 - step);
        }
        self.roots.straighten();
    }

    /// Leaves the block, if no edge leads to it, else looks at its phis and its branch.
    fn visit(&mut self, block: usize)
        requires { IsRight self.old }
        ensures { Steps self.old self.new }
    {
        if !self.is_reached(block) || self.attempt_leave(block) {
            return;
        }
        self.visit_phis(block);
        self.attempt_branch(block);
    }

    fn visit_phis(&mut self, block: usize)
        requires { IsRight self.old }
        ensures { Steps self.old self.new }
    {
        let first = self.graph.offset(block);
        let end = self.graph.offset(block.saturating_add(1));
        for place in first..end {
            self.attempt_phi(place);
        }
    }

    /// Leaves the block, if no edge leads to it. The entry stays.
    fn attempt_leave(&mut self, block: usize) -> bool
        requires { IsRight self.old }
        ensures { Steps self.old self.new }
    {
        if block == 0 || self.reached.len() <= block || self.is_led_to(block) {
            return false;
        }
        self.leave(block);
        true
    }

    fn leave(&mut self, block: usize)
        requires right { IsRight self.old }
        requires later { block ≢ 0 }
        requires within { block < length self.old.reached.items }
        requires alone { (k : ℕ) (e : Edge) → slice_get (edges_to (tables_in self.old) block) k ≡ Some e → edge_stays (facts self.old) e ≡ false }
        ensures { Steps self.old self.new }
    {
        self.reached[block] = false;
    }

    /// Decides the block, if it is reached and goes to one successor alone; whether that is new.
    fn attempt_branch(&mut self, block: usize) -> bool
        requires { IsRight self.old }
        ensures step { Steps self.old self.new }
        ensures none { result ≡ false → (facts self.new ≡ facts self.old) × IsBranchDone (tables_in self.old) (facts self.old) block }
    {
        if !self.is_reached(block) || self.taken_by(block).is_some() {
            return false;
        }
        match self.goes_at(block) {
            Some(taken) => {
                self.decide(block, taken);
                true
            }
            None => false,
        }
    }

    /// The block goes to its successor at this place alone.
    fn decide(&mut self, block: usize, taken: usize)
        requires right { IsRight self.old }
        requires open { (facts self.old).taken block ≡ None }
        requires goes { goes_at (tables_in self.old) (facts self.old).root block (slice_get (tables_in self.old).blocks block) ≡ Some taken }
        ensures { Steps self.old self.new }
    {
        if block < self.taken.len() {
            self.taken[block] = Some(taken);
        }
    }

    /// Makes the phi at this place yield, if its block is reached and it takes one value besides itself; whether it did.
    fn attempt_phi(&mut self, place: usize) -> bool
        requires { IsRight self.old }
        ensures step { Steps self.old self.new }
        ensures none { result ≡ false → (facts self.new ≡ facts self.old) × IsPhiDone (tables_in self.old) (facts self.old) place }
    {
        match self.one_taken(place) {
            Some(other) => {
                self.yield_to(place, other);
                true
            }
            None => false,
        }
    }

    fn yield_to(&mut self, place: usize, other: usize)
        requires right { IsRight self.old }
        requires one { TakesOne (tables_in self.old) (facts self.old) place other }
        ensures { Steps self.old self.new }
    {
        bypass(&mut self.roots, place, other);
    }

    /// The one value that the phi at this place takes besides itself, if it stands for itself and its block is reached.
    fn one_taken(&self, place: usize) -> Option<usize>
        requires { IsRight self.now }
        ensures some { IfSome result (TakesOne (tables_in self.now) (facts self.now) place) }
        ensures none { result ≡ None → IsPhiDone (tables_in self.now) (facts self.now) place }
    {
        let Some(node) = self.graph.nodes.get(place) else {
            return None;
        };
        let value = node.value;
        if !is_phi(value.op.family) || !self.is_reached(node.block) || self.root(place) != place {
            return None;
        }
        let other = self.one_other(
            self.graph.edges_to(node.block),
            self.graph.args_of(place),
            place,
        );
        self.if_value(other)
    }

    /// The place, if it is that of a value.
    fn if_value(&self, place: Option<usize>) -> Option<usize>
        ensures some { IfSome result (λ value. (place ≡ Some value) × (value < length (tables_in self.now).nodes)) }
        ensures none { result ≡ None → (p : ℕ) → place ≡ Some p → length (tables_in self.now).nodes ≤ p }
    {
        match place {
            Some(value) if value < self.graph.nodes.len() => Some(value),
            _ => None,
        }
    }

    /// The one root of these values besides `own`, if there is one alone; those whose edges are gone do not count.
    fn one_other(&self, edges: &[Edge], args: &[usize], own: usize) -> Option<usize>
        ensures some { IfSome result (IsOther (facts self.now) edges.now args.now own) }
        ensures none { result ≡ None → (other : ℕ) → ¬ IsOther (facts self.now) edges.now args.now own other }
    {
        let mut found = own;
        for (place, arg) in args.iter().enumerate() {
            let root = self.root_over(edges, place, *arg, own);
            if root != own {
                if found == own {
                    found = root;
                } else if found != root {
                    return None;
                }
            }
        }
        if found == own { None } else { Some(found) }
    }

    /// What stands for the argument, if the edge at the place stays, else `own`.
    fn root_over(&self, edges: &[Edge], place: usize, arg: usize, own: usize) -> usize
        ensures { result ≡ root_over (facts self.now) edges.now own place arg }
    {
        if self.has_edge_at(edges, place) {
            self.root(arg)
        } else {
            own
        }
    }
}

/// So many times none.
fn untaken(alloc: Global, count: usize) -> Result<Vec<Option<usize>>, AllocError>
    ensures { IfOk result (λ taken. taken.items ≡ replicate count None) }
{
    let mut taken = Vec::with_capacity(alloc, count)?;
    for _place in 0..count {
        taken.push(None)?;
    }
    Ok(taken)
}

/// Whether the lists are equal.
fn are_equal(first: &[bool], second: &[bool]) -> bool
    ensures { result ≡ true → first.now ≡ second.now }
{
    if first.len() != second.len() {
        return false;
    }
    for (place, item) in first.iter().enumerate() {
        if second[place] != *item {
            return false;
        }
    }
    true
}
