// The slots of values.
ghost use Rattle.std.specs.Prelude.{◌≡◌, ◌==◌, [], ◌∷◌, flat_map, length, map, position, IfOk, OnOk};
ghost use Rattle.std.specs.BTreeSet.{IsOrdered};
ghost use Rattle.std.specs.Ordering.{nat_cmp};
ghost use Rattle.bk_alloc.specs.Blocks.{end_moves, in_slot};
ghost use Rattle.bk_alloc.specs.Homes.{Gathers};
ghost use Rattle.bk_alloc.specs.Placing as spec;
ghost use Rattle.bk_alloc.specs.Seen.{seen, seen_act};

use crate::acts::Act;
use crate::parts::Part;
use crate::places::first_places;
use crate::plan::Phi;
use crate::registers::Registers;
use bk_func::Loc;
use std::alloc::{AllocError, Global};
use std::collections::{BTreeMap, BTreeSet};
use std::marker::Model;

/// The values that have slots, by rising number.
#[derive(Drop)]
pub struct Homes {
    values: Vec<u32>,
    places: BTreeMap<u32, usize>,
}

impl Model for Homes {
    ghost use Rattle.std.specs.Prelude.{ℕ, ◌<◌, ◌^◌, List, length};
    ghost use Rattle.bk_alloc.specs.Places.{AreFirst};

    ghost Value = { List ℕ };

    ghost view = { λ h. h.values.items };

    ghost invariant = { λ h. AreFirst (λ v. v) h.values.items h.places × length h.values.items < 2 ^ 32 };
}

impl Homes {
    /// Slots for the values that are loaded or that moves take from a slot, and for the phis that begin in theirs. `ends`
    /// has the moves at the end of each block.
    pub(crate) fn new(
        alloc: Global,
        parts: &[Part],
        ends: &[Vec<(Loc, Loc)>],
    ) -> Result<Homes, AllocError>
        requires { map (λ moves. moves.items) ends.now ≡ map (end_moves parts.now) parts.now }
        ensures { IfOk result (spec.AreHomes parts.now) }
    {
        let mut values = BTreeSet::new(alloc);
        add_parts(&mut values, parts)?;
        add_ends(&mut values, ends)?;
        let homes = rising(alloc, &values)?;
        Ok(homes)
    }

    /// The count of slots.
    pub(crate) fn count(&self) -> u32
        ensures { result ≡ length self.now }
    {
        self.values.len() as u32
    }

    /// The slot of a value, if it has one.
    pub(crate) fn find(&self, value: u32) -> Option<u32>
        ensures { result ≡ position (λ v. v == value) self.now }
    {
        match self.places.get(&value).copied() {
            Some(place) => Some(place as u32),
            None => None,
        }
    }

    /// The slot of a value, or the count of slots.
    pub(crate) fn slot_of(&self, value: u32) -> u32
        ensures { result ≡ spec.slot_of self.now value }
    {
        self.find(value).unwrap_or(self.count())
    }
}

/// The values in rising order, with their places.
fn rising(alloc: Global, set: &BTreeSet<u32>) -> Result<Homes, AllocError>
    ensures values { IfOk result (λ homes. homes ≡ set.now.keys) }
    ensures ordered { IsOrdered nat_cmp set.now }
{
    let mut values = Vec::new(alloc);
    for value in set.iter() {
        values.push(*value)?;
    }
    if values.len() > u32::MAX as usize {
        return Err(AllocError);
    }
    let places = first_places(alloc, &values)?;
    Ok(Homes { values, places })
}

fn add_parts(values: &mut BTreeSet<u32>, parts: &[Part]) -> Result<(), AllocError>
    ensures { OnOk result (Gathers values.old values.new (flat_map spec.slots_in parts.now)) }
{
    for part in parts {
        add_part(values, part)?;
    }
    Ok(())
}

fn add_part(values: &mut BTreeSet<u32>, part: &Part) -> Result<(), AllocError>
    ensures { OnOk result (Gathers values.old values.new (spec.slots_in part.now)) }
{
    add_acts(values, &part.acts)?;
    add_phis(values, &part.first, &part.plan.phis)
}

fn add_acts(values: &mut BTreeSet<u32>, acts: &[Act]) -> Result<(), AllocError>
    ensures { OnOk result (Gathers values.old values.new (flat_map spec.values_loaded (seen acts.now))) }
{
    for act in acts {
        add_act(values, act)?;
    }
    Ok(())
}

fn add_act(values: &mut BTreeSet<u32>, act: &Act) -> Result<(), AllocError>
    ensures { OnOk result (Gathers values.old values.new (spec.values_loaded (seen_act act.now))) }
{
    match act {
        Act::Load { value, .. } => {
            values.insert(*value)?;
            Ok(())
        }
        Act::MoveAll { moves } => add_sources(values, moves),
        _ => Ok(()),
    }
}

fn add_phis(values: &mut BTreeSet<u32>, first: &Registers, phis: &[Phi]) -> Result<(), AllocError>
    ensures { OnOk result (Gathers values.old values.new (flat_map (λ x. in_slot first.now x.value) phis.now)) }
{
    for phi in phis {
        add_phi(values, first, phi)?;
    }
    Ok(())
}

fn add_phi(values: &mut BTreeSet<u32>, first: &Registers, phi: &Phi) -> Result<(), AllocError>
    ensures { OnOk result (Gathers values.old values.new (in_slot first.now phi.now.value)) }
{
    if !first.holds(phi.value) {
        values.insert(phi.value)?;
    }
    Ok(())
}

fn add_ends(values: &mut BTreeSet<u32>, ends: &[Vec<(Loc, Loc)>]) -> Result<(), AllocError>
    ensures { OnOk result (Gathers values.old values.new (flat_map spec.slot_sources (map (λ moves. moves.items) ends.now))) }
{
    for moves in ends {
        add_sources(values, moves)?;
    }
    Ok(())
}

/// Adds the values that moves take from their slots.
fn add_sources(values: &mut BTreeSet<u32>, moves: &[(Loc, Loc)]) -> Result<(), AllocError>
    ensures { OnOk result (Gathers values.old values.new (spec.slot_sources moves.now)) }
{
    for edge in moves {
        add_source(values, edge.0, edge.1)?;
    }
    Ok(())
}

fn add_source(values: &mut BTreeSet<u32>, from: Loc, to: Loc) -> Result<(), AllocError>
    ensures { OnOk result (Gathers values.old values.new (spec.slot_sources ((from, to) ∷ []))) }
{
    if !is_same(from, to) {
        if let Loc::Slot(value) = from {
            values.insert(value)?;
        }
    }
    Ok(())
}

/// The two places are one.
pub(crate) fn is_same(from: Loc, to: Loc) -> bool
    ensures { result ≡ spec.is_same from to }
{
    match (from, to) {
        (Loc::Reg(one), Loc::Reg(other)) => one == other,
        (Loc::Slot(one), Loc::Slot(other)) => one == other,
        (Loc::Swap, Loc::Swap) => true,
        _ => false,
    }
}
