// The moves that are left, and which of their destinations are free.
ghost use Rattle.std.specs.Prelude.{◌≡◌, ◌+◌, [], IfOk, OnOk, IsSome};
ghost use Rattle.std.specs.List.{All};
ghost use Rattle.std.specs.Map.{count_at};
ghost use Rattle.std.specs.Ordering.{nat_cmp};
ghost use Rattle.std.specs.BTreeMap.{get};
ghost use Rattle.bk_shuffle.specs.Sequence as spec;
ghost use Rattle.bk_shuffle.specs.Left.{GoesToAPlace, AreLeft, AreCounts, AreFree, AreKnown, AreOthers, IsLeastFree, Steps, taker, takers};

use bk_func::Loc;
use std::alloc::AllocError;
use std::collections::{BTreeMap, BTreeSet};

/// The place in the order of places: registers, then slots, then the swap word.
fn place_of(loc: Loc) -> u64
    ensures { result ≡ spec.place_of loc }
{
    match loc {
        Loc::Reg(number) => u64::from(number),
        Loc::Slot(number) => 256 + u64::from(number),
        Loc::Swap => 4_294_967_552,
    }
}

/// Puts the moves under the places of their destinations, which are all free yet.
pub(crate) fn gather(
    moves: &[(Loc, Loc)],
    left: &mut BTreeMap<u64, (Loc, Loc)>,
    free: &mut BTreeSet<u64>,
) -> Result<(), AllocError>
    requires places { All GoesToAPlace moves.now }
    requires none { left.old.entries ≡ [] }
    requires none_free { free.old.keys ≡ [] }
    ensures entries { OnOk result (left.new.entries ≡ spec.by_place moves.now) }
    ensures left { OnOk result (AreLeft left.new) }
    ensures free { OnOk result (AreFree free.new left.new (λ p. 0)) }
{
    for edge in moves {
        let place = place_of(edge.1);
        left.insert(place, *edge)?;
        free.insert(place)?;
    }
    Ok(())
}

/// Counts how many moves take from each place to another one, which is not free then.
pub(crate) fn count_takers(
    left: &BTreeMap<u64, (Loc, Loc)>,
    counts: &mut BTreeMap<u64, u64>,
    free: &mut BTreeSet<u64>,
) -> Result<(), AllocError>
    requires none { counts.old.entries ≡ [] }
    requires free { AreFree free.old left.now (λ p. 0) }
    ensures counts { OnOk result (AreCounts counts.new (takers left.now)) }
    ensures free { OnOk result (AreFree free.new left.now (takers left.now)) }
{
    for edge in left.values() {
        let from = place_of(edge.0);
        if from != place_of(edge.1) {
            let Some(count) = count_of(counts, from).checked_add(1) else {
                return Err(AllocError);
            };
            counts.insert(from, count)?;
            free.remove(&from);
        }
    }
    Ok(())
}

fn count_of(counts: &BTreeMap<u64, u64>, place: u64) -> u64
    ensures { result ≡ count_at (get nat_cmp counts.now) place }
{
    counts.get(&place).copied().unwrap_or(0)
}

/// The pair that is done next, if moves are left.
pub(crate) fn step(
    left: &mut BTreeMap<u64, (Loc, Loc)>,
    counts: &mut BTreeMap<u64, u64>,
    free: &mut BTreeSet<u64>,
) -> Result<Option<(Loc, Loc)>, AllocError>
    requires { AreKnown left.old counts.old free.old }
    ensures known { IfOk result (λ pair. IsSome pair → AreKnown left.new counts.new free.new) }
    ensures steps { IfOk result (λ pair. Steps left.old pair left.new) }
{
    match free.pop_first() {
        Some(place) => finish(left, counts, free, place),
        None => exchange(left, counts, free),
    }
}

/// Does the move to a free place.
fn finish(
    left: &mut BTreeMap<u64, (Loc, Loc)>,
    counts: &mut BTreeMap<u64, u64>,
    free: &mut BTreeSet<u64>,
    place: u64,
) -> Result<Option<(Loc, Loc)>, AllocError>
    requires left { AreLeft left.old }
    requires counts { AreCounts counts.old (takers left.old) }
    requires least { IsLeastFree left.old place }
    requires others { AreOthers free.old left.old place }
    ensures known { IfOk result (λ pair. IsSome pair → AreKnown left.new counts.new free.new) }
    ensures steps { IfOk result (λ pair. Steps left.old pair left.new) }
{
    let Some(edge) = left.remove(&place) else {
        return Ok(None);
    };
    release(left, counts, free, edge)?;
    Ok(Some(edge))
}

/// Moves the source of the first move to the swap word, from which it is taken then.
fn exchange(
    left: &mut BTreeMap<u64, (Loc, Loc)>,
    counts: &mut BTreeMap<u64, u64>,
    free: &mut BTreeSet<u64>,
) -> Result<Option<(Loc, Loc)>, AllocError>
    requires known { AreKnown left.old counts.old free.old }
    requires none { free.old.keys ≡ [] }
    ensures known { IfOk result (λ pair. IsSome pair → AreKnown left.new counts.new free.new) }
    ensures steps { IfOk result (λ pair. Steps left.old pair left.new) }
{
    let Some(first) = left.pop_first() else {
        return Ok(None);
    };
    let edge = first.1;
    left.insert(first.0, (Loc::Swap, edge.1))?;
    release(left, counts, free, edge)?;
    Ok(Some((edge.0, Loc::Swap)))
}

/// One move less takes from the source of the move that is done; where that was the last, the source is free.
fn release(
    left: &BTreeMap<u64, (Loc, Loc)>,
    counts: &mut BTreeMap<u64, u64>,
    free: &mut BTreeSet<u64>,
    edge: (Loc, Loc),
) -> Result<(), AllocError>
    requires left { AreLeft left.now }
    requires counts { AreCounts counts.old (λ p. takers left.now p + taker edge p) }
    requires free { AreFree free.old left.now (λ p. takers left.now p + taker edge p) }
    ensures counts { OnOk result (AreCounts counts.new (takers left.now)) }
    ensures free { OnOk result (AreFree free.new left.now (takers left.now)) }
{
    let from = place_of(edge.0);
    if from == place_of(edge.1) {
        return Ok(());
    }
    let rest = count_of(counts, from).saturating_sub(1);
    counts.insert(from, rest)?;
    if rest == 0 && left.contains_key(&from) {
        free.insert(from)?;
    }
    Ok(())
}
