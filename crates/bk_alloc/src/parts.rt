// The blocks in layout order: what registers hold where each begins and ends, and what is done in it.
ghost use Rattle.std.specs.Prelude.{◌≡◌, ◌≤◌, ◌==◌, ◌++◌, [], ◌∷◌, length, map, min, option_copied, IfOk, OnOk};
ghost use Rattle.std.specs.List.{find, fold, position_or_len};
ghost use Rattle.std.specs.Option.{option_to_list};
ghost use Rattle.bk_live.specs.Table.{next_in};
ghost use Rattle.bk_alloc.specs.Blocks.{allot, before_plan, edge_from, is_before, part_from, part_named, with_part};
ghost use Rattle.bk_alloc.specs.Placement.{laid_out, registers_of};
ghost use Rattle.bk_alloc.specs.Places.{AreFirst};
ghost use Rattle.bk_alloc.specs.Plans.{ArePlans};

use crate::acts::Act;
use crate::places::{first_places, note};
use crate::plan::{Phi, Plan, Plans};
use crate::registers::Registers;
use crate::walk::{begin, go_on};
use bk_live::Table;
use bk_ops::Target;
use std::alloc::{AllocError, Global};
use std::collections::BTreeMap;
use std::marker::Model;

/// A block with its values in registers.
#[derive(Drop)]
pub struct Part {
    pub(crate) plan: Plan,
    /// What registers hold where the block begins, behind its phis.
    pub(crate) first: Registers,
    /// What registers hold where the block ends.
    pub(crate) last: Registers,
    pub(crate) acts: Vec<Act>,
    /// For each predecessor by number the first place of an edge from it.
    edges: BTreeMap<u32, usize>,
    /// For each phi by number its first place.
    phis: BTreeMap<u32, usize>,
}

impl Model for Part {
    ghost use Rattle.bk_alloc.specs.Blocks.{PartRecord};
    ghost use Rattle.bk_alloc.specs.Places.{AreFirst};
    ghost use Rattle.bk_alloc.specs.Seen.{seen};

    ghost Value = { PartRecord };

    ghost view = { λ p. record { plan = p.plan; first = p.first; last = p.last; acts = seen p.acts.items } };

    ghost invariant = { λ p. AreFirst (λ n. n) p.plan.preds p.edges × AreFirst (λ x. x.value) p.plan.phis p.phis };
}

/// Blocks in layout order.
#[derive(Drop)]
pub struct Parts {
    pub(crate) parts: Vec<Part>,
    /// For each number of a block its first place among the parts.
    places: BTreeMap<u32, usize>,
}

impl Model for Parts {
    ghost use Rattle.std.specs.Prelude.{List};
    ghost use Rattle.bk_alloc.specs.Blocks.{PartRecord};
    ghost use Rattle.bk_alloc.specs.Places.{AreFirst};

    ghost Value = { List PartRecord };

    ghost view = { λ p. p.parts.items };

    ghost invariant = { λ p. AreFirst (λ q. q.plan.id) p.parts.items p.places };
}

/// The registers of a target.
pub(crate) fn register_count(target: Target) -> usize
    ensures is { result ≡ length (registers_of target) }
    ensures few { result ≤ 32 }
{
    match target {
        Target::Arm => 11,
        Target::Riscv64 => 25,
    }
}

/// Puts the values of each block into registers, in layout order.
pub(crate) fn allot(
    alloc: Global,
    table: &Table,
    plans: &Plans,
    layout: &[u32],
    target: Target,
) -> Result<Parts, AllocError>
    requires { ArePlans plans.now }
    ensures { IfOk result (λ parts. parts ≡ allot (next_in table.now) (length (registers_of target)) (laid_out plans.now.blocks.now layout.now (map (λ o. o.items) plans.now.orders.now))) }
{
    let mut parts = Parts {
        parts: Vec::new(alloc),
        places: BTreeMap::new(alloc),
    };
    for number in layout {
        let plan = plans.plan(alloc, *number)?;
        parts.add_planned(alloc, table, plan, target)?;
    }
    Ok(parts)
}

impl Parts {
    /// Adds a block behind the others, if there is one.
    fn add_planned(
        &mut self,
        alloc: Global,
        table: &Table,
        plan: Option<Plan>,
        target: Target,
    ) -> Result<(), AllocError>
        ensures { OnOk result (self.new ≡ fold (with_part (next_in table.now) (length (registers_of target))) self.old (option_to_list plan)) }
    {
        match plan {
            Some(plan) => self.add(alloc, table, plan, target),
            None => Ok(()),
        }
    }

    /// Adds a block behind the others.
    fn add(
        &mut self,
        alloc: Global,
        table: &Table,
        plan: Plan,
        target: Target,
    ) -> Result<(), AllocError>
        ensures { OnOk result (self.new ≡ with_part (next_in table.now) (length (registers_of target)) self.old plan) }
    {
        let mut registers = self.before(alloc, &plan.preds, target)?;
        begin(table, &plan, &mut registers);
        let part = make_part(alloc, table, plan, registers)?;
        self.push(part)
    }

    fn push(&mut self, part: Part) -> Result<(), AllocError>
        ensures { OnOk result (self.new ≡ self.old ++ part ∷ []) }
    {
        let place = self.count();
        self.parts.reserve(1)?;
        note(&mut self.places, part.id(), place)?;
        self.parts.push_reserved(part);
        Ok(())
    }

    /// What registers hold at the end of the predecessor that is first in the layout; without one they hold nothing.
    fn before(&self, alloc: Global, preds: &[u32], target: Target) -> Result<Registers, AllocError>
        ensures { IfOk result (λ registers. registers ≡ before_plan (length (registers_of target)) self.now preds.now) }
    {
        match self.first_of(preds) {
            Some(part) => part.last.copy(),
            None => Registers::new(alloc, register_count(target)),
        }
    }

    fn count(&self) -> usize
        ensures { result ≡ length self.now }
    {
        self.parts.len()
    }

    /// The first of the blocks with these numbers.
    fn first_of(&self, numbers: &[u32]) -> Option<&Part>
        ensures { option_copied result ≡ find (is_before numbers.now) self.now }
    {
        self.parts.get(self.first_place(numbers))
    }

    /// The first place at which one of the blocks with these numbers stands, or the count of blocks.
    fn first_place(&self, numbers: &[u32]) -> usize
        ensures { result ≡ position_or_len (is_before numbers.now) self.now }
    {
        let mut first = self.count();
        for number in numbers {
            first = self.lesser_place(first, *number);
        }
        first
    }

    /// The lesser of a place and the first place of the block with this number.
    fn lesser_place(&self, first: usize, number: u32) -> usize
        requires { first ≤ length self.now }
        ensures { result ≡ min first (position_or_len (λ p. p.plan.id == number) self.now) }
    {
        match self.places.get(&number).copied() {
            Some(place) => first.min(place),
            None => first,
        }
    }

    /// The first block with this number.
    pub(crate) fn find(&self, number: u32) -> Option<&Part>
        ensures { option_copied result ≡ part_named self.now number }
    {
        match self.places.get(&number).copied() {
            Some(place) => self.parts.get(place),
            None => None,
        }
    }
}

/// Does what is left of a block whose phis are in registers.
fn make_part(alloc: Global, table: &Table, plan: Plan, first: Registers) -> Result<Part, AllocError>
    ensures { IfOk result (λ part. part ≡ part_from (next_in table.now) plan first) }
{
    let mut last = first.copy()?;
    let mut acts = Vec::new(alloc);
    go_on(alloc, table, &plan, &mut last, &mut acts)?;
    Ok(Part {
        edges: first_places(alloc, &plan.preds)?,
        phis: phi_places(alloc, &plan.phis)?,
        plan,
        first,
        last,
        acts,
    })
}

/// The first place of each number of a phi.
fn phi_places(alloc: Global, phis: &[Phi]) -> Result<BTreeMap<u32, usize>, AllocError>
    ensures { IfOk result (AreFirst (λ p. p.value) phis.now) }
{
    let mut places = BTreeMap::new(alloc);
    for (place, phi) in phis.iter().enumerate() {
        note(&mut places, phi.value, place)?;
    }
    Ok(places)
}

impl Part {
    fn id(&self) -> u32
        ensures { result ≡ self.now.plan.id }
    {
        self.plan.id
    }

    fn plan_phis(&self) -> &[Phi]
        ensures { result.now ≡ self.now.plan.phis }
    {
        &self.plan.phis
    }

    /// The first phi with this number.
    pub(crate) fn phi(&self, value: u32) -> Option<&Phi>
        ensures { option_copied result ≡ find (λ p. p.value == value) self.now.plan.phis }
    {
        match self.phis.get(&value).copied() {
            Some(place) => self.plan_phis().get(place),
            None => None,
        }
    }

    /// The first place of an edge from the block with this number, or the count of edges.
    pub(crate) fn edge_from(&self, number: u32) -> usize
        ensures { result ≡ edge_from number self.now }
    {
        let place = self.edges.get(&number).copied();
        place.unwrap_or(self.edge_count())
    }

    fn edge_count(&self) -> usize
        ensures { result ≡ length self.now.plan.preds }
    {
        self.plan.preds.len()
    }
}
