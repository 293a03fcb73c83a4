// Places with one key, as groups.
ghost use Rattle.std.specs.Prelude.{◌≡◌, ◌<◌, ℕ, IfOk, OnOk, None, Some, false, if◌then◌else◌, length, slice_index_or};
ghost use Rattle.std.specs.List.{slice_get};
ghost use Rattle.std.specs.BTreeMap.{get};
ghost use Rattle.bk_places.specs.Order.{AreMembers};
ghost use Rattle.bk_form.specs.Edges.{edge_cmp};
ghost use Rattle.bk_form.specs.Chains.{AreNamed};
ghost use Rattle.bk_form.specs.Groups.{AreGroups, AreGroupsOf, group_in, grouped, key_of};
ghost use Rattle.bk_form.specs.Places.{NodeRecord, nodes_of};
ghost use Rattle.bk_form.specs.Walks.{IsFlow};

use crate::flow::Flow;
use bk_places::entry;
use std::alloc::{AllocError, Global};
use std::collections::BTreeMap;

/// What the places of a group have in common.
pub(crate) type Key = (usize, usize);

/// For each place with a key its group: the first place with this key.
pub(crate) fn groups(alloc: Global, keys: &[Option<Key>]) -> Result<Vec<Option<usize>>, AllocError>
    ensures { IfOk result (λ groups. AreGroups keys.now groups.items) }
{
    let mut firsts = BTreeMap::new(alloc);
    let mut groups = Vec::with_capacity(alloc, keys.len())?;
    for (place, key) in keys.iter().enumerate() {
        let group = group_of(&mut firsts, *key, place)?;
        groups.push(group)?;
    }
    Ok(groups)
}

/// The group of the key, if there is a key: this place where no place had it before.
fn group_of(
    firsts: &mut BTreeMap<Key, usize>,
    key: Option<Key>,
    place: usize,
) -> Result<Option<usize>, AllocError>
    ensures group { IfOk result (λ group. group ≡ group_in firsts.old key place) }
    ensures firsts { OnOk result ((k : ℕ × ℕ) → get edge_cmp firsts.new k ≡ grouped firsts.old key place k) }
{
    let Some(key) = key else { return Ok(None) };
    let group = firsts.get(&key).copied().unwrap_or(place);
    firsts.insert(key, group)?;
    Ok(Some(group))
}

/// For each value that names a state its group: the first value of its block that names the state.
pub(crate) fn groups_of(
    alloc: Global,
    flow: &Flow,
    names: &[Option<usize>],
) -> Result<Vec<Option<usize>>, AllocError>
    requires flow { IsFlow flow.now }
    requires names { AreNamed flow.now.scope.func.now names.now }
    ensures { IfOk result (λ groups. AreGroupsOf flow.now.scope.func.now groups.items) }
{
    let keys = keys(alloc, flow, names)?;
    groups(alloc, &keys)
}

/// For each value its block and the state that it names.
fn keys(alloc: Global, flow: &Flow, names: &[Option<usize>]) -> Result<Vec<Option<Key>>, AllocError>
    requires { IsFlow flow.now }
    ensures size { IfOk result (λ keys. length keys.items ≡ length (nodes_of flow.now.scope.func.now)) }
    ensures each { IfOk result (λ keys. (p : ℕ) (m : NodeRecord) → slice_get (nodes_of flow.now.scope.func.now) p ≡ Some m → slice_index_or keys.items p None ≡ key_of m.home (slice_index_or names.now p None)) }
{
    let mut keys = Vec::with_capacity(alloc, flow.nodes.len())?;
    for (place, node) in flow.nodes.iter().enumerate() {
        let key = key_of(node.home, entry(names, place));
        keys.push(key)?;
    }
    Ok(keys)
}

fn key_of(home: usize, state: Option<usize>) -> Option<Key>
    ensures { result ≡ key_of home state }
{
    match state {
        Some(state) => Some((home, state)),
        None => None,
    }
}
