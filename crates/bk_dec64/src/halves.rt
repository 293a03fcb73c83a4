// The halves of several numbers.
ghost use Rattle.std.specs.Prelude.{◌≡◌, ◌+◌, ◌++◌, ◌∷◌, [], IfOk, OnOk, length, slice_get, if◌then◌else◌};
ghost use Rattle.bk_func.specs.Words.{is_double};
ghost use Rattle.bk_dec64.specs.Halves.{made, half, halves_in, numbers, phi_number, half_of_phi, parts, in_words, word_at};
ghost use Rattle.bk_dec64.specs.Words.{double_at, listed_words, parts_of, words_of};

use crate::growth::Growth;
use bk_func::{count_words, words_of_type};
use bk_ops::{Family, Target, Ty};
use smallvec::SmallVec;
use std::alloc::{AllocError, Global};

/// The number of a block, and those of its predecessors.
#[derive(Clone, Copy)]
pub(crate) struct Home<'a> {
    pub(crate) block: u32,
    pub(crate) preds: &'a [u32],
}

/// Whether a number of the type is of 64 bits.
pub(crate) fn is_double(ty: Ty) -> bool
    ensures { result ≡ is_double Target.Arm ty }
{
    words_of_type(Target::Arm, ty) == 2
}

/// The first word of the number at this place, where numbers have these types.
pub(crate) fn word_at(types: &[Ty], place: usize) -> Result<u32, AllocError>
    ensures { IfOk result (λ word. word ≡ word_at types.now place) }
{
    let before = &types[..place.min(types.len())];
    match u32::try_from(count_words(Target::Arm, before)) {
        Ok(word) => Ok(word),
        Err(_) => Err(AllocError),
    }
}

/// Makes a half of a phi with these arguments, and gives its number.
pub(crate) fn half_of_phi(
    alloc: Global,
    family: Family,
    home: &Home,
    args: &[u32],
    growth: &mut Growth,
) -> Result<u32, AllocError>
    ensures made { OnOk result (growth.new.made.items ≡ growth.old.made.items ++ half_of_phi family home.now.block growth.old.next home.now.preds.now args.now) }
    ensures next { OnOk result (growth.new.next ≡ phi_number family growth.old.next home.now.preds.now args.now + 1) }
    ensures number { IfOk result (λ n. n ≡ phi_number family growth.old.next home.now.preds.now args.now) }
{
    let halves = halves_in(alloc, family, home.preds, args, growth)?;
    growth.phi(home.block, halves)
}

/// Makes the halves of these numbers, each in its block, and gives their numbers.
fn halves_in(
    alloc: Global,
    family: Family,
    blocks: &[u32],
    args: &[u32],
    growth: &mut Growth,
) -> Result<SmallVec<u32, 4>, AllocError>
    ensures made { OnOk result (growth.new.made.items ≡ growth.old.made.items ++ halves_in family growth.old.next blocks.now args.now) }
    ensures next { OnOk result (growth.new.next ≡ growth.old.next + length (halves_in family growth.old.next blocks.now args.now)) }
    ensures numbers { IfOk result (λ xs. xs.items ≡ numbers (halves_in family growth.old.next blocks.now args.now)) }
{
    let mut halves = SmallVec::new(alloc);
    for place in 0..blocks.len().min(args.len()) {
        let half = growth.half(alloc, blocks[place], family, args[place])?;
        halves.push(half)?;
    }
    Ok(halves)
}

/// Makes the halves of those of these numbers that are of 64 bits by their types, and gives the numbers with their halves
/// in their places.
pub(crate) fn in_words(
    alloc: Global,
    block: u32,
    types: &[Ty],
    args: &[u32],
    growth: &mut Growth,
) -> Result<SmallVec<u32, 4>, AllocError>
    ensures made { OnOk result (growth.new.made.items ≡ growth.old.made.items ++ parts block growth.old.next types.now args.now) }
    ensures next { OnOk result (growth.new.next ≡ growth.old.next + length (parts block growth.old.next types.now args.now)) }
    ensures words { IfOk result (λ words. words.items ≡ in_words growth.old.next types.now args.now) }
{
    let mut words = SmallVec::new(alloc);
    for (place, arg) in args.iter().enumerate() {
        let one = words_of(alloc, block, double_at(types, place), *arg, growth)?;
        push_words(&mut words, one)?;
    }
    Ok(words)
}

/// The one word of a number, or its two.
#[derive(Clone, Copy)]
pub enum Words {
    One(u32),
    /// The low half, and the high one.
    Two(u32, u32),
}

/// Whether the type at a place is one of 64 bits.
fn double_at(types: &[Ty], place: usize) -> bool
    ensures { result ≡ double_at types.now place }
{
    match types.get(place) {
        Some(ty) => is_double(*ty),
        None => false,
    }
}

/// Makes the halves of a number of 64 bits.
fn words_of(
    alloc: Global,
    block: u32,
    is_double: bool,
    of: u32,
    growth: &mut Growth,
) -> Result<Words, AllocError>
    ensures made { OnOk result (growth.new.made.items ≡ growth.old.made.items ++ parts_of is_double block growth.old.next of) }
    ensures next { OnOk result (growth.new.next ≡ growth.old.next + length (parts_of is_double block growth.old.next of)) }
    ensures words { IfOk result (λ words. words ≡ words_of is_double growth.old.next of) }
{
    if !is_double {
        return Ok(Words::One(of));
    }
    let low = growth.half(alloc, block, Family::Int64Lo, of)?;
    let high = growth.half(alloc, block, Family::Int64Hi, of)?;
    Ok(Words::Two(low, high))
}

fn push_words(list: &mut SmallVec<u32, 4>, words: Words) -> Result<(), AllocError>
    ensures { OnOk result (list.new.items ≡ list.old.items ++ listed_words words) }
{
    match words {
        Words::One(word) => list.push(word)?,
        Words::Two(low, high) => {
            list.push(low)?;
            list.push(high)?;
        }
    }
    Ok(())
}
