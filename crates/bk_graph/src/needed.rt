// Which values are needed from a control, a nil check or a memory value.
ghost use Rattle.std.specs.Prelude.{◌≡◌, ℕ, ◌<◌, ◌||◌, true, false, length, IfOk, Some, slice_get, slice_index_or, ◌↔◌};
ghost use Rattle.bk_graph.specs.Cleaned.{takes, IsNeeded};
ghost use Rattle.bk_graph.specs.Kinds.{is_memory, stays};
ghost use Rattle.bk_graph.specs.Marks.{marked, AreMarked, IsControlDone, IsOwnDone, AreArgsDone, IsValueDone};
ghost use Rattle.bk_graph.specs.Nodes.{NodeRecord};
ghost use Rattle.bk_graph.specs.Reads.{facts, tables_in, IsRight};
ghost use Rattle.bk_graph.specs.Tables.{args_of};

use crate::reads::{is_check, is_phi};
use crate::search::either;
use crate::settled::Settled;
use bk_func::Value;
use bk_ops::{Family, Ty};
use std::alloc::{AllocError, Global};

/// For each value whether it is needed in the settled function.
#[derive(Drop)]
pub(crate) struct Needed<'a> {
    settled: &'a Settled<'a>,
    pub(crate) needed: Vec<bool>,
}

impl<'a> Needed<'a> {
    /// The needed values. A look at all of them that finds none more ends the work, and each one before has found some.
    pub(crate) fn new(alloc: Global, settled: &'a Settled<'a>) -> Result<Needed<'a>, AllocError>
        requires { IsRight settled.now }
        ensures { IfOk result (λ needed. (p : ℕ) → p < length (tables_in settled.now).nodes → (marked needed.needed.items p ≡ true) ↔ IsNeeded (tables_in settled.now) (facts settled.now) p) }
    {
        let count = settled.graph.nodes.len();
        let mut needed = Needed {
            settled,
            needed: vec![in alloc; false; count]?,
        };
        for _ in 0..=count {
            needed.look_back();
            if !needed.look_on() {
                return Ok(needed);
            }
        }
        Err(AllocError)
    }

    pub(crate) fn has(&self, place: usize) -> bool
        ensures { result ≡ marked self.now.needed.items place }
    {
        self.needed.get(place).copied().unwrap_or(false)
    }

    /// Looks at the controls, and at the values from the last to the first.
    fn look_back(&mut self)
        requires marks { AreMarked (tables_in self.old.settled.now) (facts self.old.settled.now) self.old.needed.items }
        ensures settled { self.new.settled.now ≡ self.old.settled.now }
        ensures marks { AreMarked (tables_in self.new.settled.now) (facts self.new.settled.now) self.new.needed.items }
    {
        self.look_at_controls();
        let count = self.settled.graph.nodes.len();
        for step in 0..count {
            self.look_at(count - 1 - step);
        }
    }

    /// Looks at all controls and values; whether one is newly needed.
    fn look_on(&mut self) -> bool
        requires marks { AreMarked (tables_in self.old.settled.now) (facts self.old.settled.now) self.old.needed.items }
        ensures settled { self.new.settled.now ≡ self.old.settled.now }
        ensures marks { AreMarked (tables_in self.new.settled.now) (facts self.new.settled.now) self.new.needed.items }
        ensures none { result ≡ false → (self.new.needed.items ≡ self.old.needed.items)
            × ((b : ℕ) → b < length (tables_in self.old.settled.now).blocks → IsControlDone (tables_in self.old.settled.now) (facts self.old.settled.now) self.old.needed.items b)
            × ((p : ℕ) → p < length (tables_in self.old.settled.now).nodes → IsValueDone (tables_in self.old.settled.now) (facts self.old.settled.now) self.old.needed.items p) }
    {
        let controls = self.look_at_controls();
        let values = self.look_at_values();
        either(controls, values)
    }

    fn look_at_controls(&mut self) -> bool
        requires marks { AreMarked (tables_in self.old.settled.now) (facts self.old.settled.now) self.old.needed.items }
        ensures settled { self.new.settled.now ≡ self.old.settled.now }
        ensures marks { AreMarked (tables_in self.new.settled.now) (facts self.new.settled.now) self.new.needed.items }
        ensures none { result ≡ false → (self.new.needed.items ≡ self.old.needed.items)
            × ((b : ℕ) → b < length (tables_in self.old.settled.now).blocks → IsControlDone (tables_in self.old.settled.now) (facts self.old.settled.now) self.old.needed.items b) }
    {
        let mut changed = false;
        for block in 0..self.settled.graph.blocks.len() {
            let more = self.mark_control(block);
            changed = either(changed, more);
        }
        changed
    }

    fn look_at_values(&mut self) -> bool
        requires marks { AreMarked (tables_in self.old.settled.now) (facts self.old.settled.now) self.old.needed.items }
        ensures settled { self.new.settled.now ≡ self.old.settled.now }
        ensures marks { AreMarked (tables_in self.new.settled.now) (facts self.new.settled.now) self.new.needed.items }
        ensures none { result ≡ false → (self.new.needed.items ≡ self.old.needed.items)
            × ((p : ℕ) → p < length (tables_in self.old.settled.now).nodes → IsValueDone (tables_in self.old.settled.now) (facts self.old.settled.now) self.old.needed.items p) }
    {
        let mut changed = false;
        for place in 0..self.settled.graph.nodes.len() {
            let more = self.look_at(place);
            changed = either(changed, more);
        }
        changed
    }

    /// Marks the value, if it is needed by itself, and what it takes, if it is needed.
    fn look_at(&mut self, place: usize) -> bool
        requires marks { AreMarked (tables_in self.old.settled.now) (facts self.old.settled.now) self.old.needed.items }
        ensures settled { self.new.settled.now ≡ self.old.settled.now }
        ensures marks { AreMarked (tables_in self.new.settled.now) (facts self.new.settled.now) self.new.needed.items }
        ensures none { result ≡ false → (self.new.needed.items ≡ self.old.needed.items) × IsValueDone (tables_in self.old.settled.now) (facts self.old.settled.now) self.old.needed.items place }
    {
        let own = self.mark_own(place);
        let args = self.mark_args(place);
        either(own, args)
    }

    /// Marks the control of the block, if it is reached and keeps it.
    fn mark_control(&mut self, block: usize) -> bool
        requires marks { AreMarked (tables_in self.old.settled.now) (facts self.old.settled.now) self.old.needed.items }
        ensures settled { self.new.settled.now ≡ self.old.settled.now }
        ensures marks { AreMarked (tables_in self.new.settled.now) (facts self.new.settled.now) self.new.needed.items }
        ensures none { result ≡ false → (self.new.needed.items ≡ self.old.needed.items) × IsControlDone (tables_in self.old.settled.now) (facts self.old.settled.now) self.old.needed.items block }
    {
        let settled = self.settled;
        if !settled.is_reached(block) || settled.taken_by(block).is_some() {
            return false;
        }
        match settled.graph.control_of(block) {
            Some(control) => self.mark(settled.root(control)),
            None => false,
        }
    }

    /// Marks the value, if it is a nil check or a memory value of a reached block.
    fn mark_own(&mut self, place: usize) -> bool
        requires marks { AreMarked (tables_in self.old.settled.now) (facts self.old.settled.now) self.old.needed.items }
        ensures settled { self.new.settled.now ≡ self.old.settled.now }
        ensures marks { AreMarked (tables_in self.new.settled.now) (facts self.new.settled.now) self.new.needed.items }
        ensures none { result ≡ false → (self.new.needed.items ≡ self.old.needed.items) × IsOwnDone (tables_in self.old.settled.now) (facts self.old.settled.now) self.old.needed.items place }
    {
        let settled = self.settled;
        let Some(node) = settled.graph.nodes.get(place) else {
            return false;
        };
        if settled.is_reached(node.block) && stays(node.value) {
            self.mark(place)
        } else {
            false
        }
    }

    /// Marks what the value takes, if it is needed.
    fn mark_args(&mut self, place: usize) -> bool
        requires marks { AreMarked (tables_in self.old.settled.now) (facts self.old.settled.now) self.old.needed.items }
        ensures settled { self.new.settled.now ≡ self.old.settled.now }
        ensures marks { AreMarked (tables_in self.new.settled.now) (facts self.new.settled.now) self.new.needed.items }
        ensures none { result ≡ false → (self.new.needed.items ≡ self.old.needed.items) × AreArgsDone (tables_in self.old.settled.now) (facts self.old.settled.now) self.old.needed.items place }
    {
        if !self.has(place) {
            return false;
        }
        let settled = self.settled;
        let args = settled.graph.args_of(place);
        let mut changed = false;
        for (index, arg) in args.iter().enumerate() {
            let more = self.mark_arg(place, index, *arg);
            changed = either(changed, more);
        }
        changed
    }

    /// Marks what stands for the argument of the needed value, if that takes it.
    fn mark_arg(&mut self, place: usize, index: usize, arg: usize) -> bool
        requires needed { marked self.old.needed.items place ≡ true }
        requires arg { slice_get (args_of (tables_in self.old.settled.now) place) index ≡ Some arg }
        requires marks { AreMarked (tables_in self.old.settled.now) (facts self.old.settled.now) self.old.needed.items }
        ensures settled { self.new.settled.now ≡ self.old.settled.now }
        ensures marks { AreMarked (tables_in self.new.settled.now) (facts self.new.settled.now) self.new.needed.items }
        ensures needed { marked self.new.needed.items place ≡ true }
        ensures none { result ≡ false → (self.new.needed.items ≡ self.old.needed.items)
            × ((n : NodeRecord) → slice_get (tables_in self.old.settled.now).nodes place ≡ Some n → takes (tables_in self.old.settled.now) (facts self.old.settled.now) n index ≡ true → (facts self.old.settled.now).root arg < length (tables_in self.old.settled.now).nodes → marked self.old.needed.items ((facts self.old.settled.now).root arg) ≡ true) }
    {
        let settled = self.settled;
        let Some(node) = settled.graph.nodes.get(place) else {
            return false;
        };
        let value = node.value;
        if !is_phi(value.op.family)
            || settled.has_edge_at(settled.graph.edges_to(node.block), index)
        {
            self.mark(settled.root(arg))
        } else {
            false
        }
    }

    /// Marks the value; whether that is new.
    fn mark(&mut self, place: usize) -> bool
        requires needed { IsNeeded (tables_in self.old.settled.now) (facts self.old.settled.now) place }
        requires marks { AreMarked (tables_in self.old.settled.now) (facts self.old.settled.now) self.old.needed.items }
        ensures settled { self.new.settled.now ≡ self.old.settled.now }
        ensures marks { AreMarked (tables_in self.new.settled.now) (facts self.new.settled.now) self.new.needed.items }
        ensures kept { (p : ℕ) → marked self.old.needed.items p ≡ true → marked self.new.needed.items p ≡ true }
        ensures none { result ≡ false → (self.new.needed.items ≡ self.old.needed.items) × (place < length (tables_in self.old.settled.now).nodes → marked self.old.needed.items place ≡ true) }
    {
        if self.needed.len() <= place || self.needed[place] {
            return false;
        }
        self.needed[place] = true;
        true
    }
}

/// Whether the value is a nil check, or a memory value other than a phi.
fn stays(value: &Value) -> bool
    ensures { result ≡ stays value.now.op.family value.now.ty }
{
    match value.op.family {
        Family::Phi | Family::Copy | Family::MakeResult => false,
        Family::StaticLECall => true,
        family => is_check(family) || is_memory(value.ty),
    }
}

fn is_memory(ty: Ty) -> bool
    ensures { result ≡ is_memory ty }
{
    match ty {
        Ty::Mem => true,
        _ => false,
    }
}
