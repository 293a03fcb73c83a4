// Edits of a function.
ghost use Rattle.std.specs.Prelude.{◌≡◌, ◌+◌, ◌-◌, ◌%◌, ◌^◌, ◌<◌, ◌==◌, map, max, fold, sum_by, position, length, slice_index, Some, IsSome, IfSome, IfOk, OnOk, OnErr};
ghost use Rattle.std.specs.List.{find};
ghost use Rattle.bk_func.specs.Edits.{greatest_value, greatest_block, place_of, change_block, with_value, value_of, added, control_uses, value_uses, block_uses, uses_of, renamed, renamed_control, renamed_value, renamed_block, replaced, nth_place, successor_in, rank_in, between, with_succ, with_pred, through, split, IsEdge};

use crate::{Aux, Block, Func, Kind, Likely, Memory, Value};
use bk_ops::{Op, Ty};
use smallvec::SmallVec;
use std::alloc::{AllocError, Global};

/// The place of the block with this number, the first such; None where there is none.
pub fn block_place(func: &Func, id: u32) -> Option<usize>
    ensures { result ≡ place_of func.now id }
{
    place(&func.blocks, id)
}

fn place(blocks: &[Block], id: u32) -> Option<usize>
    ensures { result ≡ position (λ b. b.id == id) blocks.now }
{
    blocks.iter().position(|block| block.id == id)
}

/// The greatest number of a value, 0 where there is none.
pub fn greatest_value(func: &Func) -> u32
    ensures { result ≡ greatest_value func.now }
{
    func.blocks
        .iter()
        .fold(0, |greatest, block| greatest_in(&block.values, greatest))
}

fn greatest_in(values: &[Value], least: u32) -> u32
    ensures { result ≡ fold (λ g v. max g v.id) least values.now }
{
    values
        .iter()
        .fold(least, |greatest, value| greatest.max(value.id))
}

/// The greatest number of a block, 0 where there is none.
pub fn greatest_block(func: &Func) -> u32
    ensures { result ≡ greatest_block func.now }
{
    func.blocks
        .iter()
        .fold(0, |greatest, block| greatest.max(block.id))
}

/// How many argument places and controls name the value, modulo 2^64.
pub fn uses(func: &Func, id: u32) -> u64
    ensures { result ≡ uses_of func.now id % 2 ^ 64 }
{
    count_blocks(&func.blocks, id)
}

#[tactic(auto, using(crate::proofs::Counts::counted, crate::proofs::Counts::counted_all))]
fn count_blocks(blocks: &[Block], id: u32) -> u64
    ensures { result ≡ sum_by (block_uses id) blocks.now % 2 ^ 64 }
{
    let mut uses = 0u64;
    for block in blocks {
        uses = uses.wrapping_add(count_block(block, id));
    }
    uses
}

#[tactic(auto, using(crate::proofs::Counts::both))]
fn count_block(block: &Block, id: u32) -> u64
    ensures { result ≡ block_uses id block.now % 2 ^ 64 }
{
    count_control(block.control, id).wrapping_add(count_values(&block.values, id))
}

fn count_control(control: Option<u32>, id: u32) -> u64
    ensures { result ≡ control_uses id control }
{
    match control {
        Some(control) if control == id => 1,
        _ => 0,
    }
}

#[tactic(auto, using(crate::proofs::Counts::counted, crate::proofs::Counts::counted_all))]
fn count_values(values: &[Value], id: u32) -> u64
    ensures { result ≡ sum_by (value_uses id) values.now % 2 ^ 64 }
{
    let mut uses = 0u64;
    for value in values {
        uses = uses.wrapping_add(count_value(value, id));
    }
    uses
}

fn count_value(value: &Value, id: u32) -> u64
    ensures { result ≡ value_uses id value.now % 2 ^ 64 }
{
    value
        .args
        .as_slice()
        .iter()
        .filter(|arg| **arg == id)
        .count() as u64
}

/// Puts `new` in place of `old` at each argument and control.
pub fn replace(func: &mut Func, old: u32, new: u32)
    ensures { func.new ≡ replaced func.old old new }
{
    replace_in_blocks(&mut func.blocks, old, new);
}

#[tactic(auto, using(crate::proofs::Counts::mapped))]
fn replace_in_blocks(blocks: &mut [Block], old: u32, new: u32)
    ensures { blocks.new ≡ map (renamed_block old new) blocks.old }
{
    for block in blocks.iter_mut() {
        replace_in_block(block, old, new);
    }
}

fn replace_in_block(block: &mut Block, old: u32, new: u32)
    ensures { block.new ≡ renamed_block old new block.old }
{
    if block.control == Some(old) {
        block.control = Some(new);
    }
    replace_in_values(&mut block.values, old, new);
}

#[tactic(auto, using(crate::proofs::Counts::mapped))]
fn replace_in_values(values: &mut [Value], old: u32, new: u32)
    ensures { values.new ≡ map (renamed_value old new) values.old }
{
    for value in values.iter_mut() {
        replace_in_value(value, old, new);
    }
}

fn replace_in_value(value: &mut Value, old: u32, new: u32)
    ensures { value.new ≡ renamed_value old new value.old }
{
    replace_in_args(value.args.as_mut_slice(), old, new);
}

#[tactic(auto, using(crate::proofs::Counts::mapped))]
fn replace_in_args(args: &mut [u32], old: u32, new: u32)
    ensures { args.new ≡ map (renamed old new) args.old }
{
    for arg in args.iter_mut() {
        *arg = rename(*arg, old, new);
    }
}

fn rename(id: u32, old: u32, new: u32) -> u32
    ensures { result ≡ renamed old new id }
{
    if id == old { new } else { id }
}

/// Puts a value last in a block, under the number after the greatest, and gives that number.
///
/// After a refusal the function is as before.
#[allow(clippy::too_many_arguments)]
pub fn add_value(
    alloc: Global,
    func: &mut Func,
    block: u32,
    op: Op,
    ty: Ty,
    args: &[u32],
    int: i64,
    aux: Aux,
) -> Result<u32, Memory>
    requires there { IsSome (place_of func.old block) }
    requires room { greatest_value func.old < 2 ^ 32 - 1 }
    ensures ok { OnOk result (func.new ≡ added func.old block (value_of (greatest_value func.old + 1) op ty args.now int aux)) }
    ensures number { IfOk result (λ id. id ≡ greatest_value func.old + 1) }
    ensures err { OnErr result (func.new ≡ func.old) }
{
    let id = greatest_value(func) + 1;
    let value = Value {
        id,
        op,
        ty,
        args: SmallVec::from_slice(alloc, args)?,
        int,
        aux,
    };
    push_value(&mut func.blocks, block, value)?;
    Ok(id)
}

/// Puts the value last in the block with this number.
#[tactic(auto, using(crate::proofs::Blocks::changed_at, crate::proofs::Blocks::kept_at))]
fn push_value(blocks: &mut [Block], id: u32, value: Value) -> Result<(), AllocError>
    requires { IsSome (position (λ b. b.id == id) blocks.old) }
    ensures ok { OnOk result (blocks.new ≡ change_block id (with_value value) blocks.old) }
    ensures err { OnErr result (blocks.new ≡ blocks.old) }
{
    let Some(place) = place(blocks, id) else {
        unreachable!()
    };
    let block = &mut blocks[place];
    push_last(block, value)
}

fn push_last(block: &mut Block, value: Value) -> Result<(), AllocError>
    ensures ok { OnOk result (block.new ≡ with_value value block.old) }
    ensures err { OnErr result (block.new ≡ block.old) }
{
    block.values.push(value)?;
    Ok(())
}

/// Puts an empty block on the edge from the block `from` to its successor at `index`, and gives its
/// number, the one after the greatest. The block is last in the list.
///
/// After a refusal the function is as before.
pub fn split_edge(alloc: Global, func: &mut Func, from: u32, index: usize) -> Result<u32, Memory>
    requires there { IsEdge func.old from index }
    requires room { greatest_block func.old < 2 ^ 32 - 1 }
    ensures ok { OnOk result (func.new ≡ split func.old from index) }
    ensures number { IfOk result (λ id. id ≡ greatest_block func.old + 1) }
    ensures err { OnErr result (func.new ≡ func.old) }
{
    let id = greatest_block(func) + 1;
    let (to, rank) = edge(&func.blocks, from, index);
    let block = block_between(alloc, id, from, to)?;
    func.blocks.reserve(1)?;
    redirect(&mut func.blocks, from, index, to, rank, id);
    func.blocks.push_reserved(block);
    Ok(id)
}

/// The successor at `index` of the block `from`, and how many edges before it go there too.
fn edge(blocks: &[Block], from: u32, index: usize) -> (u32, usize)
    requires there { IsSome (position (λ b. b.id == from) blocks.now) }
    requires within { IfSome (find (λ b. b.id == from) blocks.now) (λ b. index < length b.succs) }
    requires successor { IsSome (position (λ b. b.id == successor_in (find (λ b. b.id == from) blocks.now) index) blocks.now) }
    ensures to { result.0 ≡ successor_in (find (λ b. b.id == from) blocks.now) index }
    ensures rank { result.1 ≡ rank_in (find (λ b. b.id == from) blocks.now) index }
    ensures there { IsSome (position (λ b. b.id == result.0) blocks.now) }
{
    let Some(place) = place(blocks, from) else {
        unreachable!()
    };
    let block = &blocks[place];
    edge_at(block, index)
}

fn edge_at(block: &Block, index: usize) -> (u32, usize)
    requires { index < length block.now.succs }
    ensures to { result.0 ≡ slice_index block.now.succs index }
    ensures rank { result.1 ≡ rank_in (Some block.now) index }
{
    let to = block.succs[index];
    (
        to,
        block.succs[..index]
            .iter()
            .filter(|succ| **succ == to)
            .count(),
    )
}

/// Makes the edge from `from` to `to`, of this rank, go to the block `id`, and come to `to` from there.
fn redirect(blocks: &mut [Block], from: u32, index: usize, to: u32, rank: usize, id: u32)
    requires there { IsSome (position (λ b. b.id == from) blocks.old) }
    requires within { IfSome (find (λ b. b.id == from) blocks.old) (λ b. index < length b.succs) }
    requires successor { IsSome (position (λ b. b.id == to) blocks.old) }
    ensures { blocks.new ≡ change_block to (with_pred from id rank) (change_block from (with_succ index id) blocks.old) }
{
    set_succ(blocks, from, index, id);
    set_pred(blocks, to, from, rank, id);
}

fn block_between(alloc: Global, id: u32, from: u32, to: u32) -> Result<Block, AllocError>
    ensures { IfOk result (λ block. block ≡ between id from to) }
{
    let mut preds = Vec::with_capacity(alloc, 1)?;
    preds.push(from)?;
    let mut succs = Vec::with_capacity(alloc, 1)?;
    succs.push(to)?;
    Ok(Block {
        id,
        kind: Kind::Plain,
        control: None,
        preds,
        succs,
        likely: Likely::No,
        values: Vec::new(alloc),
    })
}

/// Makes `id` the successor at `index` of the block `from`.
#[tactic(auto, using(crate::proofs::Blocks::changed_at))]
fn set_succ(blocks: &mut [Block], from: u32, index: usize, id: u32)
    requires there { IsSome (position (λ b. b.id == from) blocks.old) }
    requires within { IfSome (find (λ b. b.id == from) blocks.old) (λ b. index < length b.succs) }
    ensures { blocks.new ≡ change_block from (with_succ index id) blocks.old }
{
    let Some(place) = place(blocks, from) else {
        unreachable!()
    };
    let block = &mut blocks[place];
    put_succ(block, index, id);
}

fn put_succ(block: &mut Block, index: usize, id: u32)
    requires { index < length block.old.succs }
    ensures { block.new ≡ with_succ index id block.old }
{
    block.succs[index] = id;
}

/// Makes `id` the predecessor of the block `to` in place of the `from` that `rank` others stand before.
#[tactic(auto, using(crate::proofs::Blocks::changed_at))]
fn set_pred(blocks: &mut [Block], to: u32, from: u32, rank: usize, id: u32)
    requires { IsSome (position (λ b. b.id == to) blocks.old) }
    ensures { blocks.new ≡ change_block to (with_pred from id rank) blocks.old }
{
    let Some(place) = place(blocks, to) else {
        unreachable!()
    };
    let block = &mut blocks[place];
    put_pred(block, from, rank, id);
}

#[tactic(auto, using(crate::proofs::Places::set_past))]
fn put_pred(block: &mut Block, from: u32, rank: usize, id: u32)
    ensures { block.new ≡ with_pred from id rank block.old }
{
    let place = nth_place(&block.preds, from, rank);
    if place < block.preds.len() {
        block.preds[place] = id;
    }
}

/// The place of the `number` that `rank` others stand before, the length where there is none.
#[tactic(auto, using(crate::proofs::Places::place_rules))]
fn nth_place(numbers: &[u32], number: u32, rank: usize) -> usize
    ensures { result ≡ nth_place number rank numbers.now }
{
    let mut left = rank;
    for (place, other) in numbers.iter().enumerate() {
        if *other == number {
            if left == 0 {
                return place;
            }
            left -= 1;
        }
    }
    numbers.len()
}
