// The first places of numbers.
ghost use Rattle.std.specs.Prelude.{◌≡◌, ℕ, IfOk};
ghost use Rattle.std.specs.Ordering.{nat_cmp};
ghost use Rattle.std.specs.BTreeMap.{get};
ghost use Rattle.bk_places.specs.Named.{place_in};

use std::alloc::{AllocError, Global};
use std::collections::BTreeMap;

/// The first place of each number.
pub fn first_places(alloc: Global, numbers: &[usize]) -> Result<BTreeMap<usize, usize>, AllocError>
    ensures { IfOk result (λ places. (n : ℕ) → get nat_cmp places n ≡ place_in numbers.now n) }
{
    let mut places = BTreeMap::new(alloc);
    for (place, number) in numbers.iter().enumerate() {
        if places.get(number).is_none() {
            places.insert(*number, place)?;
        }
    }
    Ok(places)
}
