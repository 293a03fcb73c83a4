// Uses in a set, and lesser distances.
ghost use Rattle.std.specs.Prelude.{◌≡◌, ◌↔◌, ℕ, IfOk};
ghost use Rattle.std.specs.List.{Contains};
ghost use Rattle.std.specs.List.Sorted.{IsStrictlySortedBy};
ghost use Rattle.bk_live.specs.Seen.{lesser};
ghost use Rattle.bk_live.specs.Table.{use_cmp, use_key};
ghost use Rattle.bk_live.specs.Uses.{use_at};

use crate::uses::Use;
use std::alloc::{AllocError, Global};
use std::collections::BTreeSet;

/// The lesser of two distances, where there are any.
pub(crate) fn lesser(first: Option<u32>, second: Option<u32>) -> Option<u32>
    ensures { result ≡ lesser first second }
{
    match (first, second) {
        (Some(one), Some(two)) if two < one => second,
        (None, _) => second,
        _ => first,
    }
}

/// The uses: the value, the place of the block, and how many entries of its order come before.
pub(crate) fn set_of(
    alloc: Global,
    uses: &[Use],
) -> Result<BTreeSet<(u32, usize, usize)>, AllocError>
    ensures ordered { IfOk result (λ set. IsStrictlySortedBy use_cmp set.keys) }
    ensures uses { IfOk result (λ set. (n i k : ℕ) → Contains set.keys (use_key n i k) ↔ Contains uses.now (use_at n i k)) }
{
    let mut set = BTreeSet::new(alloc);
    for used in uses {
        set.insert((used.value, used.spot.block, used.spot.entry))?;
    }
    Ok(set)
}
