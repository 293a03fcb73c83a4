// The order in which workers claim the functions of a package.
ghost use Rattle.std.specs.Prelude.{◌≡◌, ◌++◌, [], ◌∷◌, map, IfOk, OnOk};
ghost use Rattle.bk_dump.specs.ClaimOrder.{IsClaimOrder, ranked_from, place_of, ranked};

use bk_func::{Func, Memory, Package};
use std::alloc::{AllocError, Global};
use std::cmp::Reverse;

/// The places of a package's functions: the longest functions first, by the count of values in the text,
/// and functions of one length in package order.
///
/// More than 2^32 functions have no such list, which counts as want of memory.
pub fn claim_order(alloc: Global, pkg: &Package) -> Result<Vec<u32>, Memory>
    ensures { IfOk result (λ order. IsClaimOrder pkg.now.funcs order.items) }
{
    let mut ranked = ranked(alloc, &pkg.funcs)?;
    ranked.sort()?;
    let order = places(alloc, &ranked)?;
    Ok(order)
}

/// Each function's count of values and its place.
fn ranked(alloc: Global, funcs: &[Func]) -> Result<Vec<(Reverse<u32>, u32)>, Memory>
    ensures { IfOk result (λ ranked. ranked.items ≡ ranked_from 0 funcs.now) }
{
    let mut ranked = Vec::with_capacity(alloc, funcs.len())?;
    for (place, func) in funcs.iter().enumerate() {
        let place = u32::try_from(place).map_err(|_| Memory)?;
        push_ranked(&mut ranked, func.given, place)?;
    }
    Ok(ranked)
}

fn push_ranked(
    list: &mut Vec<(Reverse<u32>, u32)>,
    given: u32,
    place: u32,
) -> Result<(), AllocError>
    ensures { OnOk result (list.new.items ≡ list.old.items ++ ranked given place ∷ []) }
{
    list.push((Reverse(given), place))?;
    Ok(())
}

fn places(alloc: Global, ranked: &[(Reverse<u32>, u32)]) -> Result<Vec<u32>, AllocError>
    ensures { IfOk result (λ places. places.items ≡ map place_of ranked.now) }
{
    let mut places = Vec::with_capacity(alloc, ranked.len())?;
    for (_, place) in ranked {
        places.push(*place)?;
    }
    Ok(places)
}
