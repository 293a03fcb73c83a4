// The order of values inside their block.
ghost use Rattle.std.specs.Prelude.{◌≡◌, ◌↔◌, ◌<◌, ◌⊎◌, ℕ, [], IfOk, IsTrue, OnOk, Some, length, replicate};
ghost use Rattle.std.specs.List.{Contains, slice_get};
ghost use Rattle.bk_func.specs.Form.Before.{Precedes, IsLoad, IsNilCheck, IsResult};
ghost use Rattle.bk_func.specs.Form.Parts.{IsValueNumber};
ghost use Rattle.bk_func.specs.Form.Text.{IsPhi};
ghost use Rattle.bk_places.specs.Order.{Adds, AreEnds, Follows, HasRole, IsAsked, IsLastBefore, end_of, IsRightBefore, IsWithin};
ghost use Rattle.bk_places.specs.Search.{IsEdge, Marks, IsClear};
ghost use Rattle.bk_form.specs.Arranged.{AreLists, AreTakes, IsNextAt, PlaysAt, TakesTo};
ghost use Rattle.bk_form.specs.Chains.{AreHomes, AreNamed};
ghost use Rattle.bk_form.specs.Finds.{Finds};
ghost use Rattle.bk_form.specs.Groups.{AreGroupsOf, AreListed};
ghost use Rattle.bk_form.specs.Places.{NodeRecord, nodes_of};
ghost use Rattle.bk_form.specs.Walks.{IsFlow};

use crate::Place;
use crate::flow::{Flow, is_home};
use crate::groups::groups_of;
use crate::places::Node;
use crate::rounds::first_round;
use bk_func::Value;
use bk_ops::Family;
use bk_places::{Edges, Lists, Role, has_role, members, order_edges};
use std::alloc::{AllocError, Global};

/// The first value that has to come before itself, given for each state the place of its block, and for each value
/// that of the state that it names.
pub(crate) fn first_fault(
    alloc: Global,
    flow: &Flow,
    homes: &[Option<usize>],
    names: &[Option<usize>],
) -> Result<Option<Place>, AllocError>
    requires flow { IsFlow flow.now }
    requires homes { AreHomes flow.now.scope.func.now homes.now }
    requires names { AreNamed flow.now.scope.func.now names.now }
    ensures { IfOk result (Finds (λ b. Unit {0}) (λ b v. ¬ Precedes flow.now.scope.func.now b v v) flow.now.scope.func.now) }
{
    let takes = takes(alloc, flow)?;
    let groups = groups_of(alloc, flow, names)?;
    let lists = list_members(alloc, flow, homes, &groups)?;
    let edges = order_edges(alloc, &takes, &lists, takes.len())?;
    first_round(alloc, flow, &edges)
}

/// Behind the place of each value those of the values of its block that it takes.
fn takes(alloc: Global, flow: &Flow) -> Result<Edges, AllocError>
    requires { IsFlow flow.now }
    ensures { IfOk result (AreTakes flow.now.scope.func.now) }
{
    let mut takes = Edges::with_capacity(alloc, flow.nodes.len())?;
    for node in &flow.nodes {
        let taken = taken(alloc, flow, node)?;
        takes.push(taken)?;
    }
    Ok(takes)
}

/// The places of the values of its block that the value takes. A phi takes its arguments on the way in.
fn taken(alloc: Global, flow: &Flow, node: &Node) -> Result<Vec<usize>, AllocError>
    requires flow { IsFlow flow.now }
    requires node { Contains (nodes_of flow.now.scope.func.now) node.now }
    ensures { IfOk result (λ places. (q : ℕ) → Contains places.items q ↔ TakesTo flow.now.scope.func.now node.now q) }
{
    let value = node.value;
    if is_phi(value) {
        return Ok(Vec::new(alloc));
    }
    places_in(alloc, flow, node.home, value.args.as_slice())
}

fn is_phi(value: &Value) -> bool
    ensures { IsTrue result ↔ IsPhi value.now }
{
    match value.op.family {
        Family::Phi => true,
        _ => false,
    }
}

/// The places of the values with these numbers that stand in the block.
fn places_in(alloc: Global, flow: &Flow, home: usize, ids: &[u32]) -> Result<Vec<usize>, AllocError>
    requires flow { IsFlow flow.now }
    requires ids { (n : ℕ) → Contains ids.now n → IsValueNumber flow.now.scope.func.now n }
    ensures { IfOk result (λ places. (q : ℕ) → Contains places.items q ↔ ((o : NodeRecord) × (slice_get (nodes_of flow.now.scope.func.now) q ≡ Some o) × (home ≡ o.home) × Contains ids.now o.value.id)) }
{
    let mut places = Vec::new(alloc);
    for id in ids {
        let place = place_in(flow, home, *id);
        push_place(&mut places, place)?;
    }
    Ok(places)
}

/// The place of the value with the number, if it stands in the block.
fn place_in(flow: &Flow, home: usize, id: u32) -> Option<usize>
    requires flow { IsFlow flow.now }
    requires number { IsValueNumber flow.now.scope.func.now id }
    ensures { (q : ℕ) → (result ≡ Some q) ↔ ((o : NodeRecord) × (slice_get (nodes_of flow.now.scope.func.now) q ≡ Some o) × (home ≡ o.home) × (o.value.id ≡ id)) }
{
    let found = flow.scope.numbers.value(id);
    let Some(place) = found else { return None };
    if is_home(flow, home, place) {
        Some(place)
    } else {
        None
    }
}

/// Adds the place, if there is one.
fn push_place(places: &mut Vec<usize>, place: Option<usize>) -> Result<(), AllocError>
    ensures { OnOk result ((q : ℕ) → Contains places.new.items q ↔ (Contains places.old.items q ⊎ (place ≡ Some q))) }
{
    let Some(place) = place else { return Ok(()) };
    places.push(place)?;
    Ok(())
}

/// The members of each group by what they do.
fn list_members(
    alloc: Global,
    flow: &Flow,
    homes: &[Option<usize>],
    groups: &[Option<usize>],
) -> Result<Lists, AllocError>
    requires flow { IsFlow flow.now }
    requires homes { AreHomes flow.now.scope.func.now homes.now }
    requires groups { AreGroupsOf flow.now.scope.func.now groups.now }
    ensures { IfOk result (AreLists flow.now.scope.func.now groups.now) }
{
    let checks = players(alloc, flow, groups, Role::Check)?;
    let loads = players(alloc, flow, groups, Role::Load)?;
    let users = players(alloc, flow, groups, Role::User)?;
    let nexts = nexts(alloc, flow, homes, groups)?;
    Ok(Lists {
        checks,
        loads,
        users,
        nexts,
    })
}

/// The members of each group with this role.
fn players(
    alloc: Global,
    flow: &Flow,
    groups: &[Option<usize>],
    role: Role,
) -> Result<Edges, AllocError>
    requires flow { IsFlow flow.now }
    requires groups { AreGroupsOf flow.now.scope.func.now groups.now }
    ensures { IfOk result (AreListed flow.now.scope.func.now groups.now (PlaysAt role)) }
{
    let mut picked = Vec::with_capacity(alloc, flow.nodes.len())?;
    for node in &flow.nodes {
        let plays = has_role(node.value, role);
        picked.push(plays)?;
    }
    members(alloc, groups, &picked, groups.len())
}

/// The states of each group.
fn nexts(
    alloc: Global,
    flow: &Flow,
    homes: &[Option<usize>],
    groups: &[Option<usize>],
) -> Result<Edges, AllocError>
    requires flow { IsFlow flow.now }
    requires homes { AreHomes flow.now.scope.func.now homes.now }
    requires groups { AreGroupsOf flow.now.scope.func.now groups.now }
    ensures { IfOk result (AreListed flow.now.scope.func.now groups.now (IsNextAt flow.now.scope.func.now)) }
{
    let mut picked = Vec::with_capacity(alloc, homes.len())?;
    for home in homes {
        let is_state = home.is_some();
        picked.push(is_state)?;
    }
    members(alloc, groups, &picked, groups.len())
}
