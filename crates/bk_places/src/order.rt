// The order inside a block, by places.
ghost use Rattle.std.specs.Prelude.{◌≡◌, ◌<◌, ℕ, [], IfOk, OnOk, length, replicate};
ghost use Rattle.std.specs.List.{Contains};
ghost use Rattle.bk_places.specs.Order.{Adds, AreEnds, Follows, IsAsked, IsLastBefore, IsRightBefore, IsWithin, end_of};
ghost use Rattle.bk_places.specs.Search.{IsClear, Marks};

use crate::edges::Edges;
use crate::search::Search;
use std::alloc::{AllocError, Global};

/// For each group of values that name one state the places of its members by what they do, in order.
#[derive(Drop)]
pub struct Lists {
    pub checks: Edges,
    pub loads: Edges,
    pub users: Edges,
    /// The memory values that follow the state.
    pub nexts: Edges,
}

/// Edges from values to those that come right after them, given the members of so many groups.
pub fn order_edges(
    alloc: Global,
    takes: &Edges,
    lists: &Lists,
    groups: usize,
) -> Result<Edges, AllocError>
    requires takes { IsWithin (length takes.now) takes.now }
    requires checks { IsWithin (length takes.now) lists.now.checks }
    requires users { IsWithin (length takes.now) lists.now.users }
    ensures { IfOk result (Adds (replicate (length takes.now) []) (IsRightBefore takes.now lists.now groups)) }
{
    let count = takes.len();
    let mut edges = Edges::new(alloc, count)?;
    for place in 0..count {
        add_before(&mut edges, takes.behind(place), place)?;
    }
    let mut search = Search::new(alloc, count)?;
    for group in 0..groups {
        add_group(&mut edges, &mut search, takes, lists, group)?;
    }
    Ok(edges)
}

/// Puts each of the places before this one.
fn add_before(edges: &mut Edges, places: &[usize], to: usize) -> Result<(), AllocError>
    requires { (p : ℕ) → Contains places.now p → p < length edges.old }
    ensures { OnOk result (Adds edges.old (λ p q. Contains places.now p × (q ≡ to)) edges.new) }
{
    for place in places {
        edges.add(*place, to)?;
    }
    Ok(())
}

/// The order of the members of the group.
fn add_group(
    edges: &mut Edges,
    search: &mut Search,
    takes: &Edges,
    lists: &Lists,
    group: usize,
) -> Result<(), AllocError>
    requires size { length edges.old ≡ length takes.now }
    requires clear { IsClear (length takes.now) search.old }
    requires checks { IsWithin (length takes.now) lists.now.checks }
    requires users { IsWithin (length takes.now) lists.now.users }
    ensures clear { OnOk result (IsClear (length takes.now) search.new) }
    ensures edges { OnOk result (Adds edges.old (IsAsked takes.now lists.now group) edges.new) }
{
    let checks = lists.checks.behind(group);
    add_states(edges, lists.users.behind(group), lists.nexts.behind(group))?;
    add_line(edges, checks)?;
    add_loads(edges, search, takes, checks, lists.loads.behind(group))?;
    Ok(())
}

/// Puts each user of the state before each next state.
fn add_states(edges: &mut Edges, users: &[usize], nexts: &[usize]) -> Result<(), AllocError>
    requires { (p : ℕ) → Contains users.now p → p < length edges.old }
    ensures { OnOk result (Adds edges.old (λ p q. Contains users.now p × Contains nexts.now q) edges.new) }
{
    for next in nexts {
        add_before(edges, users, *next)?;
    }
    Ok(())
}

/// Puts each place of the list before the next.
fn add_line(edges: &mut Edges, places: &[usize]) -> Result<(), AllocError>
    requires { (p : ℕ) → Contains places.now p → p < length edges.old }
    ensures { OnOk result (Adds edges.old (Follows places.now) edges.new) }
{
    for index in 1..places.len() {
        edges.add(places[index - 1], places[index])?;
    }
    Ok(())
}

/// Puts before each load the last check that comes before the first that needs the load.
fn add_loads(
    edges: &mut Edges,
    search: &mut Search,
    takes: &Edges,
    checks: &[usize],
    loads: &[usize],
) -> Result<(), AllocError>
    requires clear { IsClear (length takes.now) search.old }
    requires within { (p : ℕ) → Contains checks.now p → p < length edges.old }
    ensures clear { OnOk result (IsClear (length takes.now) search.new) }
    ensures edges { OnOk result (Adds edges.old (λ p q. Contains loads.now q × IsLastBefore takes.now checks.now p q) edges.new) }
{
    if loads.is_empty() {
        return Ok(());
    }
    meet(search, takes, checks)?;
    put_loads(edges, search, takes, checks, loads)?;
    search.clear();
    Ok(())
}

/// Searches for what each of the checks needs, one after the other; labels are their indices.
fn meet(search: &mut Search, takes: &Edges, checks: &[usize]) -> Result<(), AllocError>
    requires { IsClear (length takes.now) search.old }
    ensures size { OnOk result (length search.new.labels.items ≡ length takes.now) }
    ensures marks { OnOk result (Marks search.new.labels.items search.new.reached.items) }
    ensures ends { OnOk result (AreEnds takes.now checks.now search.new.labels.items) }
{
    for (index, check) in checks.iter().enumerate() {
        search.extend(takes, takes.len(), *check, index)?;
    }
    Ok(())
}

/// The same of each load, once it is known which checks need it.
fn put_loads(
    edges: &mut Edges,
    search: &Search,
    takes: &Edges,
    checks: &[usize],
    loads: &[usize],
) -> Result<(), AllocError>
    requires ends { AreEnds takes.now checks.now search.now.labels.items }
    requires within { (p : ℕ) → Contains checks.now p → p < length edges.old }
    ensures { OnOk result (Adds edges.old (λ p q. Contains loads.now q × IsLastBefore takes.now checks.now p q) edges.new) }
{
    for load in loads {
        put_load(edges, search, takes, checks, *load)?;
    }
    Ok(())
}

fn put_load(
    edges: &mut Edges,
    search: &Search,
    takes: &Edges,
    checks: &[usize],
    load: usize,
) -> Result<(), AllocError>
    requires ends { AreEnds takes.now checks.now search.now.labels.items }
    requires within { (p : ℕ) → Contains checks.now p → p < length edges.old }
    ensures { OnOk result (Adds edges.old (λ p q. (q ≡ load) × IsLastBefore takes.now checks.now p q) edges.new) }
{
    let end = end_of(search.label(load), checks.len());
    if end == 0 {
        return Ok(());
    }
    edges.add(checks[end - 1], load)?;
    Ok(())
}

fn end_of(label: Option<usize>, end: usize) -> usize
    ensures { result ≡ end_of label end }
{
    label.unwrap_or(end)
}
