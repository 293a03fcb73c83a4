// What workers made, put to the places of the functions.
ghost use Rattle.std.specs.Prelude.{◌≡◌, ◌<◌, ◌+◌, ◌++◌, ◌∷◌, [], IfOk, List, None, OnOk, Option, Some, length, map, slice_set};
ghost use Rattle.std.specs.List.{All, filter};
ghost use Rattle.bk_work.specs.declared.items.Done.{Done};
ghost use Rattle.bk_work.specs.Package.{refusal};
ghost use Rattle.bk_work.specs.Placed.{AreEnds, AreFirsts, ArePlaced, is_open, refused_by};

use crate::items::Done;
use crate::listed::put;
use crate::refusals::{Cause, Refusal};
use bk_func::{Func, Memory};
use bk_piece::{Key, Piece};
use std::alloc::{AllocError, Global};

/// Puts what became of each function to its place.
pub(crate) fn placed(
    slots: Vec<Option<Done>>,
    items: Vec<(u64, u32, Done)>,
) -> Result<Vec<Option<Done>>, Memory>
    ensures placed { IfOk result (λ after. ArePlaced items.items slots.items after.items) }
    ensures long { IfOk result (λ after. length after.items ≡ length slots.items) }
{
    let mut after = slots;
    for (_, func, done) in items {
        put_at(&mut after, func as usize, done)?;
    }
    Ok(after)
}

/// Each function of a claim has a place.
fn put_at(slots: &mut Vec<Option<Done>>, place: usize, done: Done) -> Result<(), Memory>
    ensures within { OnOk result (place < length slots.old.items) }
    ensures put { OnOk result (slots.new.items ≡ slice_set slots.old.items place (Some done)) }
{
    if place < slots.len() {
        slots[place] = Some(done);
        Ok(())
    } else {
        Err(Memory)
    }
}

/// Places at which nothing is yet.
pub(crate) fn empty(alloc: Global, count: usize) -> Result<Vec<Option<Done>>, AllocError>
    ensures long { IfOk result (λ slots. length slots.items ≡ count) }
    ensures empty { IfOk result (λ slots. All (λ s. s ≡ None) slots.items) }
{
    let mut slots = Vec::with_capacity(alloc, count)?;
    for place in 0..count {
        put(&mut slots, None)?;
    }
    Ok(slots)
}

/// What the first round made of the functions of a package, in package order.
#[derive(Drop)]
pub(crate) struct Firsts {
    /// Those that are lowered, each with its keys.
    pub(crate) lowered: Vec<(Func, Vec<Key>)>,
    /// Of each function why it is refused, if it is.
    pub(crate) causes: Vec<Option<Cause>>,
}

impl Firsts {
    pub(crate) fn new(alloc: Global, slots: Vec<Option<Done>>) -> Result<Firsts, Memory>
        ensures { IfOk result (λ it. AreFirsts slots.items it.lowered.items it.causes.items) }
    {
        let mut firsts = Firsts {
            lowered: Vec::new(alloc),
            causes: Vec::new(alloc),
        };
        for slot in slots {
            firsts.note(slot)?;
        }
        Ok(firsts)
    }

    /// Notes what the first round made of the next function.
    fn note(&mut self, slot: Option<Done>) -> Result<(), Memory>
        ensures { (before : List (Option Done)) → AreFirsts before self.old.lowered.items self.old.causes.items → OnOk result (AreFirsts (before ++ slot ∷ []) self.new.lowered.items self.new.causes.items) }
    {
        match slot {
            Some(Done::Lowered(func, keys)) => self.note_lowered(func, keys),
            Some(Done::Refused(cause)) => Ok(put(&mut self.causes, Some(cause))?),
            _ => Err(Memory),
        }
    }

    fn note_lowered(&mut self, func: Func, keys: Vec<Key>) -> Result<(), Memory>
        ensures lowered { OnOk result (self.new.lowered.items ≡ self.old.lowered.items ++ (func, keys) ∷ []) }
        ensures causes { OnOk result (self.new.causes.items ≡ self.old.causes.items ++ None ∷ []) }
    {
        put(&mut self.lowered, (func, keys))?;
        Ok(put(&mut self.causes, None)?)
    }

    /// Those of these functions that are lowered, in the same order.
    pub(crate) fn left(&self, alloc: Global, order: &[u32]) -> Result<Vec<u32>, AllocError>
        ensures { IfOk result (λ left. left.items ≡ filter (is_open self.now.causes.items) order.now) }
    {
        let mut left = Vec::new(alloc);
        for place in order {
            if is_open(&self.causes, *place) {
                left.push(*place)?;
            }
        }
        Ok(left)
    }

    /// The refused functions at their places.
    pub(crate) fn refused(&self, alloc: Global) -> Result<Vec<Option<Done>>, AllocError>
        ensures { IfOk result (λ slots. slots.items ≡ refused_by self.now.causes.items) }
    {
        let mut slots = Vec::with_capacity(alloc, self.causes.len())?;
        for cause in &self.causes {
            put(&mut slots, cause.map(Done::Refused))?;
        }
        Ok(slots)
    }
}

fn is_open(causes: &[Option<Cause>], place: u32) -> bool
    ensures { result ≡ is_open causes.now place }
{
    match causes.get(place as usize) {
        Some(None) => true,
        Some(Some(_)) => false,
        None => false,
    }
}

/// What both rounds made of the functions of a package, in package order.
#[derive(Drop)]
pub(crate) struct Ends {
    pub(crate) pieces: Vec<Piece>,
    pub(crate) refusals: Vec<Refusal>,
}

impl Ends {
    pub(crate) fn new(alloc: Global, slots: Vec<Option<Done>>) -> Result<Ends, Memory>
        ensures { IfOk result (λ it. AreEnds 0 slots.items it.pieces.items it.refusals.items) }
    {
        let mut ends = Ends {
            pieces: Vec::new(alloc),
            refusals: Vec::new(alloc),
        };
        for slot in slots {
            ends.note(slot)?;
        }
        Ok(ends)
    }

    /// Notes what became of the next function.
    fn note(&mut self, slot: Option<Done>) -> Result<(), Memory>
        ensures { (before : List (Option Done)) → AreEnds 0 before self.old.pieces.items self.old.refusals.items → OnOk result (AreEnds 0 (before ++ slot ∷ []) self.new.pieces.items self.new.refusals.items) }
    {
        match slot {
            Some(Done::Ready(piece)) => Ok(put(&mut self.pieces, piece)?),
            Some(Done::Refused(cause)) => Ok(self.note_refused(cause)?),
            _ => Err(Memory),
        }
    }

    /// Each function before has a piece, or it is refused.
    fn note_refused(&mut self, cause: Cause) -> Result<(), AllocError>
        ensures refusals { OnOk result (self.new.refusals.items ≡ self.old.refusals.items ++ refusal (length self.old.pieces.items + length self.old.refusals.items) cause ∷ []) }
        ensures pieces { self.new.pieces.items ≡ self.old.pieces.items }
    {
        let place = self.pieces.len() as u128 + self.refusals.len() as u128;
        match u32::try_from(place) {
            Ok(func) => put(&mut self.refusals, Refusal { func, cause }),
            Err(_) => Err(AllocError),
        }
    }
}
