// The first places of numbers in lists.
ghost use Rattle.std.specs.Prelude.{◌≡◌, ℕ, OnErr, OnOk, IfOk};
ghost use Rattle.std.specs.BTreeMap.{get};
ghost use Rattle.std.specs.Ordering.{nat_cmp};
ghost use Rattle.bk_alloc.specs.Places.{AreFirst, Notes};

use std::alloc::{AllocError, Global};
use std::collections::BTreeMap;

/// Notes the place of a number, unless it has one.
pub(crate) fn note(
    places: &mut BTreeMap<u32, usize>,
    number: u32,
    place: usize,
) -> Result<(), AllocError>
    ensures ok { OnOk result (Notes places.old places.new number place) }
    ensures err { OnErr result ((n : ℕ) → get nat_cmp places.new n ≡ get nat_cmp places.old n) }
{
    let first = places.get(&number).copied().unwrap_or(place);
    places.insert(number, first)?;
    Ok(())
}

/// The first place of each of the numbers.
pub(crate) fn first_places(
    alloc: Global,
    numbers: &[u32],
) -> Result<BTreeMap<u32, usize>, AllocError>
    ensures { IfOk result (λ places. AreFirst (λ n. n) numbers.now places) }
{
    let mut places = BTreeMap::new(alloc);
    for (place, number) in numbers.iter().enumerate() {
        note(&mut places, *number, place)?;
    }
    Ok(places)
}
