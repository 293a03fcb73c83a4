// Moves that are to be done at once, as moves that are done one after the other.
ghost use Rattle.std.specs.Prelude.{◌≡◌, ℕ, ◌+◌, ◌==◌, List, length, IfOk};
ghost use Rattle.std.specs.List.{All, IsDistinct};
ghost use Rattle.bk_shuffle.specs.Sequence.{sequence_of};
ghost use Rattle.bk_shuffle.specs.Left.{GoesToAPlace};
ghost use Rattle.bk_shuffle.specs.AtOnce.{destinations, DoAll};
ghost use Rattle.bk_shuffle.specs.Cycles.{AreHeads};

use crate::left::{count_takers, gather, step};
use bk_func::{Loc, Memory};
use std::alloc::{AllocError, Global};
use std::collections::{BTreeMap, BTreeSet};

/// The moves of an edge, pairs of a source and a destination, in the order in which they are done one after the other.
///
/// While moves are left, the least destination that is no source of another one is done, registers before
/// slots; where there is none, the source of the least destination goes to the swap word.
pub fn sequence(alloc: Global, moves: &[(Loc, Loc)]) -> Result<Vec<(Loc, Loc)>, Memory>
    requires places { All GoesToAPlace moves.now }
    requires apart { IsDistinct (λ p q. p == q) (destinations moves.now) }
    ensures pairs { IfOk result (λ pairs. pairs.items ≡ sequence_of moves.now) }
    ensures once { IfOk result (λ pairs. DoAll moves.now pairs.items) }
    ensures count { IfOk result (λ pairs. (heads : List ℕ) → AreHeads moves.now heads → length pairs.items ≡ length moves.now + length heads) }
{
    Ok(in_turn(alloc, moves)?)
}

fn in_turn(alloc: Global, moves: &[(Loc, Loc)]) -> Result<Vec<(Loc, Loc)>, AllocError>
    requires places { All GoesToAPlace moves.now }
    requires apart { IsDistinct (λ p q. p == q) (destinations moves.now) }
    ensures pairs { IfOk result (λ pairs. pairs.items ≡ sequence_of moves.now) }
    ensures once { IfOk result (λ pairs. DoAll moves.now pairs.items) }
    ensures count { IfOk result (λ pairs. (heads : List ℕ) → AreHeads moves.now heads → length pairs.items ≡ length moves.now + length heads) }
{
    let mut left = BTreeMap::new(alloc);
    let mut counts = BTreeMap::new(alloc);
    let mut free = BTreeSet::new(alloc);
    gather(moves, &mut left, &mut free)?;
    count_takers(&left, &mut counts, &mut free)?;
    let mut pairs = Vec::new(alloc);
    for turn in 0..moves.len() * 2 {
        match step(&mut left, &mut counts, &mut free)? {
            Some(pair) => pairs.push(pair)?,
            None => return Ok(pairs),
        }
    }
    Ok(pairs)
}
