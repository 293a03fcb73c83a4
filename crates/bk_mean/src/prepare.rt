// Functions made ready to run.
ghost use Rattle.std.specs.Prelude.{◌≡◌, ℕ, ◌+◌, ◌++◌, ◌^◌, ◌<◌, ◌≤◌, ◌==◌, if◌then◌else◌, IfOk, OnOk, List, [], ◌∷◌, get_or, length, map, flat_map, take, count_by, position, slice_index};
ghost use Rattle.std.specs.List.{All, filter_map};
ghost use Rattle.bk_func.specs.Records.{ValueRecord, FuncRecord, PackageRecord};
ghost use Rattle.bk_func.specs.Edits.{nth_place, block_of};
ghost use Rattle.bk_func.specs.Numbers.{room, origin_of as meant_origin};
ghost use Rattle.bk_func.specs.Effects.{is_phi as meant_phi};
ghost use Rattle.bk_func.specs.Meaning.{without_memory as meant_without};
ghost use Rattle.bk_mean.specs.Numbering.{IsNumbering, place_in};
ghost use Rattle.bk_mean.specs.Memories.{taken_place, taken_places, all_taken, IsArranged};
ghost use Rattle.bk_mean.specs.Symbols.{IsNaming};
ghost use Rattle.bk_mean.specs.Ready.{IsReady, IsReadyValue, AreReadyValues, IsReadyBlock, AreReadyBlocks, IsReadyEdge, StandsAt, KeepsResults, call_place, kept_by as meant_kept, phis_from, control_place, nth_in};

use crate::arrange::arrange;
use crate::numbering::Numbering;
use crate::ready::{Edge, Kept, Ready, ReadyBlock, ReadyValue};
use crate::role::{Origin, natural, origin_of};
use crate::states::{due, local};
use crate::symbols::Symbols;
use bk_func::{Block, Func, Value};
use bk_ops::{Family, is_word_call};
use smallvec::SmallVec;
use std::alloc::{AllocError, Global};

/// Makes a function ready to run.
pub(crate) fn prepare(alloc: Global, symbols: &Symbols, func: &Func) -> Result<Ready, AllocError>
    ensures { IfOk result (λ ready. (p : PackageRecord) → IsNaming p symbols.now → IsReady p func.now ready) }
{
    let numbering = Numbering::new(alloc, func)?;
    let values = ready_values(alloc, symbols, &numbering, &func.blocks)?;
    let kept = kept_results(alloc, &numbering, &func.blocks)?;
    let blocks = ready_blocks(alloc, &numbering, func)?;
    Ok(Ready {
        values,
        kept,
        blocks,
    })
}

fn ready_values(
    alloc: Global,
    symbols: &Symbols,
    numbering: &Numbering,
    blocks: &[Block],
) -> Result<Vec<ReadyValue>, AllocError>
    ensures { IfOk result (λ values. (p : PackageRecord) (f : FuncRecord) → IsNaming p symbols.now → IsNumbering f numbering.now → AreReadyValues p f (flat_map (λ b. b.values) blocks.now) values.items) }
{
    let mut list = Vec::with_capacity(alloc, numbering.count())?;
    for block in blocks {
        add_values(alloc, &mut list, symbols, numbering, &block.values)?;
    }
    Ok(list)
}

fn add_values(
    alloc: Global,
    list: &mut Vec<ReadyValue>,
    symbols: &Symbols,
    numbering: &Numbering,
    values: &[Value],
) -> Result<(), AllocError>
    ensures { OnOk result ((p : PackageRecord) (f : FuncRecord) → IsNaming p symbols.now → IsNumbering f numbering.now → (before : List ValueRecord) → AreReadyValues p f before list.old.items → AreReadyValues p f (before ++ values.now) list.new.items) }
{
    for value in values {
        list.push(ready_value(alloc, symbols, numbering, value)?)?;
    }
    Ok(())
}

fn ready_value(
    alloc: Global,
    symbols: &Symbols,
    numbering: &Numbering,
    value: &Value,
) -> Result<ReadyValue, AllocError>
    ensures { IfOk result (λ ready. (p : PackageRecord) (f : FuncRecord) → IsNaming p symbols.now → IsNumbering f numbering.now → IsReadyValue p f value.now ready) }
{
    Ok(ReadyValue {
        args: arg_places(alloc, numbering, value.args.as_slice())?,
        address: symbols.address(value.aux),
        callee: symbols.callee(value.aux),
        on_words: is_word_call(value.op.family),
        gives_results: value.op.family == Family::MakeResult,
    })
}

fn arg_places(
    alloc: Global,
    numbering: &Numbering,
    args: &[u32],
) -> Result<SmallVec<usize, 4>, AllocError>
    ensures { IfOk result (λ places. (f : FuncRecord) → IsNumbering f numbering.now → places.items ≡ map (place_in f) args.now) }
{
    let mut places = SmallVec::new(alloc);
    for arg in args {
        places.push(numbering.place(*arg))?;
    }
    Ok(places)
}

fn ready_blocks(
    alloc: Global,
    numbering: &Numbering,
    func: &Func,
) -> Result<Vec<ReadyBlock>, AllocError>
    requires { IsNumbering func.now numbering.now }
    ensures { IfOk result (λ blocks. AreReadyBlocks func.now func.now.blocks (length func.now.blocks) blocks.items) }
{
    let mut list = Vec::with_capacity(alloc, func.blocks.len())?;
    let mut first = 0usize;
    for block in &func.blocks {
        list.push(ready_block(alloc, numbering, func, block, first)?)?;
        first = end(block, first);
    }
    Ok(list)
}

/// The place after the last value of a block.
fn end(block: &Block, first: usize) -> usize
    requires { first + length block.now.values < 2 ^ 63 }
    ensures { result ≡ first + length block.now.values }
{
    first + block.values.len()
}

fn ready_block(
    alloc: Global,
    numbering: &Numbering,
    func: &Func,
    block: &Block,
    first: usize,
) -> Result<ReadyBlock, AllocError>
    requires numbering { IsNumbering func.now numbering.now }
    requires stands { StandsAt func.now first block.now }
    requires within { first + length block.now.values ≤ room func.now }
    ensures { IfOk result (λ ready. IsReadyBlock func.now first block.now ready) }
{
    let order = order(alloc, numbering, first, &block.values)?;
    let phis = phis(alloc, &block.values)?;
    let control = control(numbering, block.control);
    let edge = edge_at(numbering, func, block, 0);
    let other = edge_at(numbering, func, block, 1);
    Ok(ReadyBlock {
        first,
        order,
        phis,
        control,
        edge,
        other,
    })
}

fn control(numbering: &Numbering, control: Option<u32>) -> usize
    ensures { (f : FuncRecord) → IsNumbering f numbering.now → result ≡ control_place f control }
{
    match control {
        Some(id) => numbering.place(id),
        None => numbering.count(),
    }
}

/// The order in which the values of a block are done.
fn order(
    alloc: Global,
    numbering: &Numbering,
    first: usize,
    values: &[Value],
) -> Result<Vec<usize>, AllocError>
    requires { first + length values.now < 2 ^ 63 }
    ensures within { IfOk result (λ order. All (λ k. k < length values.now) order.items) }
    ensures arranged { IfOk result (λ order. IsArranged numbering.now first values.now order.items) }
{
    let due = due(alloc, numbering, first, values)?;
    let takes = takes(alloc, numbering, first, values)?;
    arrange(alloc, &due, &takes)
}

/// For each value the places in the block of those values of the block that it takes.
fn takes(
    alloc: Global,
    numbering: &Numbering,
    first: usize,
    values: &[Value],
) -> Result<Vec<SmallVec<usize, 4>>, AllocError>
    ensures { IfOk result (λ takes. map (λ t. t.items) takes.items ≡ all_taken numbering.now first values.now) }
{
    let mut takes = Vec::with_capacity(alloc, values.len())?;
    for value in values {
        takes.push(taken_by(alloc, numbering, first, values, value)?)?;
    }
    Ok(takes)
}

/// What a value takes; a phi takes nothing.
fn taken_by(
    alloc: Global,
    numbering: &Numbering,
    first: usize,
    values: &[Value],
    value: &Value,
) -> Result<SmallVec<usize, 4>, AllocError>
    ensures { IfOk result (λ taken. taken.items ≡ taken_places numbering.now first values.now value.now) }
{
    let mut taken = SmallVec::new(alloc);
    if !is_phi(value) {
        add_taken(&mut taken, numbering, first, values, value.args.as_slice())?;
    }
    Ok(taken)
}

fn add_taken(
    taken: &mut SmallVec<usize, 4>,
    numbering: &Numbering,
    first: usize,
    values: &[Value],
    args: &[u32],
) -> Result<(), AllocError>
    ensures { OnOk result (taken.new.items ≡ taken.old.items ++ filter_map (taken_place numbering.now first values.now) args.now) }
{
    for arg in args {
        if let Some(local) = taken_at(numbering, first, values, *arg) {
            taken.push(local)?;
        }
    }
    Ok(())
}

/// The place in the block of the value with this number, if it stands there.
fn taken_at(numbering: &Numbering, first: usize, values: &[Value], arg: u32) -> Option<usize>
    ensures { result ≡ taken_place numbering.now first values.now arg }
{
    local(first, values, numbering.find(arg)?)
}

fn phis(alloc: Global, values: &[Value]) -> Result<Vec<usize>, AllocError>
    ensures { IfOk result (λ phis. phis.items ≡ phis_from 0 values.now) }
{
    let mut phis = Vec::new(alloc);
    for (local, value) in values.iter().enumerate() {
        if is_phi(value) {
            phis.push(local)?;
        }
    }
    Ok(phis)
}

fn is_phi(value: &Value) -> bool
    ensures { result ≡ meant_phi (meant_origin value.now.op.family) }
{
    value.op.family == Family::Phi
}

/// The arguments without memory, which is the last.
pub(crate) fn without_memory(args: &[usize]) -> &[usize]
    ensures { result.now ≡ meant_without args.now }
{
    if args.is_empty() {
        args
    } else {
        &args[..args.len() - 1]
    }
}

/// The edge from a block to its successor at the index.
fn edge_at(numbering: &Numbering, func: &Func, block: &Block, index: usize) -> Edge
    ensures { IsNumbering func.now numbering.now → IsReadyEdge func.now block.now index result }
{
    let to = number_at(&block.succs, index);
    let rank = rank(&block.succs, index, to);
    let found = numbering.block(to);
    Edge {
        block: found,
        place: edge_place(func, found, block.id, rank),
    }
}

/// The place of an edge from a block among the predecessors of the block that it leads to, if that is
/// there.
fn edge_place(func: &Func, found: Option<usize>, from: u32, rank: usize) -> usize
    ensures { (id : ℕ) → found ≡ position (λ b. b.id == id) func.now.blocks → result ≡ nth_in from rank (block_of func.now id) }
{
    match found {
        Some(place) => match func.blocks.get(place) {
            Some(block) => nth(&block.preds, from, rank),
            None => 0,
        },
        None => 0,
    }
}

/// The number at a place, 0 past the end.
fn number_at(numbers: &[u32], place: usize) -> u32
    ensures { result ≡ slice_index numbers.now place }
{
    match numbers.get(place) {
        Some(number) => *number,
        None => 0,
    }
}

/// How many successors before the one at the index are the same.
fn rank(succs: &[u32], index: usize, to: u32) -> usize
    ensures { result ≡ count_by (λ s. s == to) (take index succs.now) }
{
    let end = index.min(succs.len());
    succs[..end].iter().filter(|succ| **succ == to).count()
}

/// The place of the number that as many others of its kind stand before, else the length.
#[tactic(auto, using(bk_func::proofs::Places::place_rules))]
fn nth(numbers: &[u32], number: u32, rank: usize) -> usize
    ensures { result ≡ nth_place number rank numbers.now }
{
    let mut left = rank;
    for (place, other) in numbers.iter().enumerate() {
        if *other == number {
            if left == 0 {
                return place;
            }
            left -= 1;
        }
    }
    numbers.len()
}

/// What is kept of the results of each value that is a call.
fn kept_results(
    alloc: Global,
    numbering: &Numbering,
    blocks: &[Block],
) -> Result<Vec<Vec<Kept>>, AllocError>
    ensures length { IfOk result (λ kept. length kept.items ≡ length numbering.now.roots.items) }
    ensures results { IfOk result (λ kept. (f : FuncRecord) → IsNumbering f numbering.now → KeepsResults f (flat_map (λ b. b.values) blocks.now) (map (λ v. v.items) kept.items)) }
{
    let mut kept = none_kept(alloc, numbering.count())?;
    for block in blocks {
        keep_results(&mut kept, numbering, &block.values)?;
    }
    Ok(kept)
}

fn none_kept(alloc: Global, count: usize) -> Result<Vec<Vec<Kept>>, AllocError>
    ensures length { IfOk result (λ kept. length kept.items ≡ count) }
    ensures none { IfOk result (λ kept. (k : ℕ) → get_or (map (λ v. v.items) kept.items) k [] ≡ []) }
{
    let mut kept = Vec::with_capacity(alloc, count)?;
    for _ in 0..count {
        kept.push(Vec::new(alloc))?;
    }
    Ok(kept)
}

/// Each result goes to the call that it is of.
fn keep_results(
    kept: &mut [Vec<Kept>],
    numbering: &Numbering,
    values: &[Value],
) -> Result<(), AllocError>
    ensures length { length kept.new ≡ length kept.old }
    ensures results { OnOk result ((f : FuncRecord) → IsNumbering f numbering.now → (before : List ValueRecord) → length kept.old ≡ room f → KeepsResults f before (map (λ v. v.items) kept.old) → KeepsResults f (before ++ values.now) (map (λ v. v.items) kept.new)) }
{
    for value in values {
        if let Some(call) = call_of(numbering, value) {
            keep(kept, call, kept_by(numbering, value))?;
        }
    }
    Ok(())
}

/// What a value keeps of the results of its call.
fn kept_by(numbering: &Numbering, value: &Value) -> Kept
    ensures { (f : FuncRecord) → IsNumbering f numbering.now → result ≡ meant_kept f value.now }
{
    Kept {
        index: natural(value.int),
        place: numbering.place(value.id),
        family: value.op.family,
        ty: value.ty,
    }
}

/// The place of the call that the value is a result of.
fn call_of(numbering: &Numbering, value: &Value) -> Option<usize>
    ensures { (f : FuncRecord) → IsNumbering f numbering.now → result ≡ call_place f value.now }
{
    match origin_of(value.op.family) {
        Origin::Result => numbering.find(value.args.as_slice().first().copied()?),
        _ => None,
    }
}

fn keep(kept: &mut [Vec<Kept>], call: usize, one: Kept) -> Result<(), AllocError>
    ensures length { length kept.new ≡ length kept.old }
    ensures kept { OnOk result ((k : ℕ) → k < length kept.old → get_or (map (λ v. v.items) kept.new) k [] ≡ get_or (map (λ v. v.items) kept.old) k [] ++ (if call == k then one ∷ [] else [])) }
{
    if call < kept.len() {
        kept[call].push(one)?;
    }
    Ok(())
}
