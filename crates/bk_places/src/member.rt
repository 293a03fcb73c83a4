// The members of groups.
ghost use Rattle.std.specs.Prelude.{◌≡◌, ◌<◌, ℕ, IfOk, None, Some, false, if◌then◌else◌, length, slice_index_or};
ghost use Rattle.bk_places.specs.Order.{AreMembers};

use crate::edges::{Edges, entry};
use std::alloc::{AllocError, Global};

/// For each of so many groups its places that are chosen, in order.
pub fn members(
    alloc: Global,
    groups: &[Option<usize>],
    chosen: &[bool],
    count: usize,
) -> Result<Edges, AllocError>
    requires { (p g : ℕ) → slice_index_or groups.now p None ≡ Some g → g < count }
    ensures { IfOk result (AreMembers count groups.now chosen.now (length groups.now)) }
{
    let mut members = Edges::new(alloc, count)?;
    for place in 0..groups.len() {
        let group = chosen_group(groups, chosen, place);
        members.add_from(group, place)?;
    }
    Ok(members)
}

/// The group of the place, if it is chosen.
fn chosen_group(groups: &[Option<usize>], chosen: &[bool], place: usize) -> Option<usize>
    ensures { result ≡ (if slice_index_or chosen.now place false then slice_index_or groups.now place None else None) }
{
    if is_chosen(chosen, place) {
        entry(groups, place)
    } else {
        None
    }
}

fn is_chosen(chosen: &[bool], place: usize) -> bool
    ensures { result ≡ slice_index_or chosen.now place false }
{
    chosen.get(place).copied().unwrap_or(false)
}
