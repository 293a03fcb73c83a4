// The order of values inside their block, by places.
ghost use Rattle.std.specs.Prelude.{◌≡◌, ◌↔◌, ◌<◌, ◌⊎◌, ℕ, IfOk, IsTrue, None, OnOk, Some, length, slice_index_or};
ghost use Rattle.std.specs.List.{Contains};
ghost use Rattle.std.specs.Ordering.{nat_cmp};
ghost use Rattle.std.specs.BTreeMap.{get};
ghost use Rattle.bk_func.specs.Form.Text.{IsPhi};
ghost use Rattle.bk_places.specs.Order.{HasRole};
ghost use Rattle.bk_sched.specs.Arranged.{AreListed, AreLists, AreTakes, IsNext, IsOrder};
ghost use Rattle.bk_sched.specs.Named.{ArePlaces};
ghost use Rattle.bk_places.specs.Named.{place_in};
ghost use Rattle.bk_sched.specs.Order.{HasOwnNumbers};

use crate::named::names;
use crate::places::Places;
use crate::score::is_state;
use bk_func::{Block, Value};
use bk_ops::Family;
use bk_places::{Edges, Lists, Role, has_role, members, order_edges};
use std::alloc::{AllocError, Global};

/// Behind the place of each value those of values that come after it, so that all order follows.
pub(crate) fn order_of(alloc: Global, block: &Block) -> Result<Edges, AllocError>
    requires { HasOwnNumbers block.now }
    ensures { IfOk result (IsOrder block.now) }
{
    let places = Places::new(alloc, block)?;
    let states = places.numbers.len();
    let takes = takes(alloc, block, &places)?;
    let names = names(alloc, block, &places)?;
    let lists = list_members(alloc, block, &names, states)?;
    order_edges(alloc, &takes, &lists, states)
}

/// Behind the place of each value those of the values of its block that it takes.
fn takes(alloc: Global, block: &Block, places: &Places) -> Result<Edges, AllocError>
    requires own { HasOwnNumbers block.now }
    requires places { ArePlaces block.now.values places.now }
    ensures { IfOk result (AreTakes block.now.values) }
{
    let count = block.values.len();
    let mut takes = Edges::with_capacity(alloc, count)?;
    for value in &block.values {
        let taken = taken(alloc, places, value, count)?;
        takes.push(taken)?;
    }
    Ok(takes)
}

/// The places below `count` of what the value takes. A phi takes its arguments on the way in.
fn taken(
    alloc: Global,
    places: &Places,
    value: &Value,
    count: usize,
) -> Result<Vec<usize>, AllocError>
    requires { (n : ℕ) → get nat_cmp places.now.by_number n ≡ place_in places.now.numbers.items n }
    ensures { IfOk result (λ taken. (q : ℕ) → Contains taken.items q ↔ (q < count × ¬ IsPhi value.now × ((n : ℕ) × Contains value.now.args n × (place_in places.now.numbers.items n ≡ Some q)))) }
{
    if is_phi(value) {
        return Ok(Vec::new(alloc));
    }
    places_below(alloc, places, value.args.as_slice(), count)
}

fn is_phi(value: &Value) -> bool
    ensures { IsTrue result ↔ IsPhi value.now }
{
    value.op.family == Family::Phi
}

/// The places below `count` of the numbers.
fn places_below(
    alloc: Global,
    places: &Places,
    ids: &[u32],
    count: usize,
) -> Result<Vec<usize>, AllocError>
    requires { (n : ℕ) → get nat_cmp places.now.by_number n ≡ place_in places.now.numbers.items n }
    ensures { IfOk result (λ below. (q : ℕ) → Contains below.items q ↔ (q < count × ((n : ℕ) × Contains ids.now n × (place_in places.now.numbers.items n ≡ Some q)))) }
{
    let mut below = Vec::new(alloc);
    for id in ids {
        let place = places.place(*id);
        push_below(&mut below, place, count)?;
    }
    Ok(below)
}

/// Adds the place, if there is one and it is below `count`.
fn push_below(places: &mut Vec<usize>, place: Option<usize>, count: usize) -> Result<(), AllocError>
    ensures { OnOk result ((q : ℕ) → Contains places.new.items q ↔ (Contains places.old.items q ⊎ (q < count × (place ≡ Some q)))) }
{
    let Some(place) = place else { return Ok(()) };
    if place < count {
        places.push(place)?;
    }
    Ok(())
}

/// The values that name each of so many states, by what they do.
fn list_members(
    alloc: Global,
    block: &Block,
    names: &[Option<usize>],
    states: usize,
) -> Result<Lists, AllocError>
    requires size { length names.now ≡ length block.now.values }
    requires names { (p g : ℕ) → slice_index_or names.now p None ≡ Some g → g < states }
    ensures { IfOk result (AreLists block.now.values names.now) }
{
    let checks = players(alloc, block, names, states, Role::Check)?;
    let loads = players(alloc, block, names, states, Role::Load)?;
    let users = players(alloc, block, names, states, Role::User)?;
    let nexts = nexts(alloc, block, names, states)?;
    Ok(Lists {
        checks,
        loads,
        users,
        nexts,
    })
}

/// The values with this role that name each of so many states.
fn players(
    alloc: Global,
    block: &Block,
    names: &[Option<usize>],
    states: usize,
    role: Role,
) -> Result<Edges, AllocError>
    requires size { length names.now ≡ length block.now.values }
    requires names { (p g : ℕ) → slice_index_or names.now p None ≡ Some g → g < states }
    ensures { IfOk result (AreListed block.now.values names.now (HasRole role)) }
{
    let mut picked = Vec::with_capacity(alloc, block.values.len())?;
    for value in &block.values {
        let plays = has_role(value, role);
        picked.push(plays)?;
    }
    members(alloc, names, &picked, states)
}

/// The memory values that follow each of so many states.
fn nexts(
    alloc: Global,
    block: &Block,
    names: &[Option<usize>],
    states: usize,
) -> Result<Edges, AllocError>
    requires size { length names.now ≡ length block.now.values }
    requires names { (p g : ℕ) → slice_index_or names.now p None ≡ Some g → g < states }
    ensures { IfOk result (AreListed block.now.values names.now IsNext) }
{
    let mut picked = Vec::with_capacity(alloc, block.values.len())?;
    for value in &block.values {
        let is_next = is_state(value);
        picked.push(is_next)?;
    }
    members(alloc, names, &picked, states)
}
