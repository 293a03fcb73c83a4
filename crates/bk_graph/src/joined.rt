// Whether the blocks of a function are joined: each number is that of one block, and predecessors and successors agree.
ghost use Rattle.std.specs.Prelude.{◌≡◌, ◌<◌, ◌≤◌, ◌+◌, ◌*◌, ◌^◌, ◌==◌, ℕ, true, length, IfOk, IsTrue, Some, All};
ghost use Rattle.std.specs.List.{list_any, slice_get};
ghost use Rattle.bk_func.specs.Edits.{greatest_block};
ghost use Rattle.bk_func.specs.Records.{BlockRecord};
ghost use Rattle.bk_graph.specs.Joined.{IsJoined};
ghost use Rattle.bk_graph.specs.Joining.{AgreesAt, Leads, Follows};
ghost use Rattle.bk_graph.specs.Named.{AreFirsts, block_ids};

use crate::places::Places;
use bk_func::{Block, Func, Memory, greatest_block};
use std::alloc::Global;

/// Whether the blocks of the function are joined, as `layout` and `split_critical` ask. The answer yes is sure; a function in
/// form has it.
pub fn is_joined(alloc: Global, func: &Func) -> Result<bool, Memory>
    ensures { IfOk result (λ joined. IsTrue joined → IsJoined func.now) }
{
    if !has_room(func) {
        return Ok(false);
    }
    let places = Places::of_blocks(alloc, &func.blocks)?;
    let joined = agree(&func.blocks, &places);
    Ok(joined)
}

/// Whether as many blocks as there are edges have numbers of 32 bits.
fn has_room(func: &Func) -> bool
    ensures { IsTrue result → greatest_block func.now + length func.now.blocks * 2 < 2 ^ 32 }
{
    let blocks = func.blocks.len() as u64;
    blocks < 0x1_0000_0000 && u64::from(greatest_block(func)) + blocks * 2 < 0x1_0000_0000
}

/// Whether each block has a number of its own and edges that agree.
fn agree(blocks: &[Block], places: &Places) -> bool
    requires { AreFirsts (block_ids blocks.now) places.now }
    ensures { IsTrue result → (p : ℕ) (b : BlockRecord) → slice_get blocks.now p ≡ Some b → AgreesAt blocks.now p b }
{
    for (place, block) in blocks.iter().enumerate() {
        if !agrees(blocks, places, place, block) {
            return false;
        }
    }
    true
}

/// Whether the block stands where its number is found, and its edges agree.
fn agrees(blocks: &[Block], places: &Places, place: usize, block: &Block) -> bool
    requires { AreFirsts (block_ids blocks.now) places.now }
    ensures { IsTrue result → AgreesAt blocks.now place block.now }
{
    places.find(block.id) == Some(place)
        && block.succs.len() <= 2
        && lead(blocks, places, block.id, &block.succs)
        && follow(blocks, places, block.id, &block.preds)
}

/// Whether each of these blocks is there, and the block with this number is among its predecessors.
fn lead(blocks: &[Block], places: &Places, from: u32, succs: &[u32]) -> bool
    requires { AreFirsts (block_ids blocks.now) places.now }
    ensures { IsTrue result → All (Leads blocks.now from) succs.now }
{
    for succ in succs {
        if !leads(blocks, places, from, *succ) {
            return false;
        }
    }
    true
}

fn leads(blocks: &[Block], places: &Places, from: u32, to: u32) -> bool
    requires { AreFirsts (block_ids blocks.now) places.now }
    ensures { IsTrue result → Leads blocks.now from to }
{
    let Some(place) = places.find(to) else {
        return false;
    };
    match blocks.get(place) {
        Some(block) => has_number(&block.preds, from),
        None => false,
    }
}

/// Whether each of these blocks is there, and the block with this number is among its successors.
fn follow(blocks: &[Block], places: &Places, to: u32, preds: &[u32]) -> bool
    requires { AreFirsts (block_ids blocks.now) places.now }
    ensures { IsTrue result → All (Follows blocks.now to) preds.now }
{
    for pred in preds {
        if !follows(blocks, places, to, *pred) {
            return false;
        }
    }
    true
}

fn follows(blocks: &[Block], places: &Places, to: u32, from: u32) -> bool
    requires { AreFirsts (block_ids blocks.now) places.now }
    ensures { IsTrue result → Follows blocks.now to from }
{
    let Some(place) = places.find(from) else {
        return false;
    };
    match blocks.get(place) {
        Some(block) => has_number(&block.succs, to),
        None => false,
    }
}

fn has_number(numbers: &[u32], number: u32) -> bool
    ensures { result ≡ list_any (λ n. n == number) numbers.now }
{
    numbers.iter().any(|it| *it == number)
}
