// The function that the settled rules leave.
ghost use Rattle.std.specs.Prelude.{◌≡◌, ◌++◌, ◌∷◌, [], ◌&&◌, ◌||◌, not, if◌then◌else◌, Some, None, option_map, slice_get, slice_index_or, IfOk, OnOk};
ghost use Rattle.bk_graph.specs.Clean.{is_phi};
ghost use Rattle.bk_graph.specs.Nodes.{or_past};
ghost use Rattle.bk_graph.specs.Facts.{edge_stays};
ghost use Rattle.bk_graph.specs.Known.{stays_there};
ghost use Rattle.bk_graph.specs.Marks.{marked};
ghost use Rattle.bk_graph.specs.Reads.{facts, tables_in};
ghost use Rattle.bk_graph.specs.Rebuilt.{number_at, standing, behind, only, kept_preds, kept_args, kept_value, kept_values, kept_control, ended, kept_block, kept_blocks, rebuilt};

use crate::graph::{Edge, or_past};
use crate::needed::Needed;
use crate::reads::is_phi;
use crate::settled::Settled;
use bk_func::{Block, Func, Kind, Likely, Memory, Value, copy_sig};
use smallvec::SmallVec;
use std::alloc::{AllocError, Global};

/// The function with the blocks, edges and values that stay, in their order.
pub(crate) fn rebuilt(
    alloc: Global,
    func: &Func,
    settled: &Settled,
    needed: &Needed,
) -> Result<Func, Memory>
    ensures { IfOk result (λ left. left ≡ rebuilt (tables_in settled.now) (facts settled.now) (marked needed.now.needed.items) func.now) }
{
    let sig = copy_sig(alloc, &func.sig)?;
    let blocks = kept_blocks(alloc, settled, needed, &func.blocks)?;
    Ok(Func {
        name: func.name,
        sig,
        blocks,
        given: func.given,
    })
}

/// The reached blocks.
fn kept_blocks(
    alloc: Global,
    settled: &Settled,
    needed: &Needed,
    blocks: &[Block],
) -> Result<Vec<Block>, AllocError>
    ensures { IfOk result (λ kept. kept.items ≡ kept_blocks (tables_in settled.now) (facts settled.now) (marked needed.now.needed.items) blocks.now) }
{
    let mut kept = Vec::new(alloc);
    for (place, block) in blocks.iter().enumerate() {
        push_block(alloc, &mut kept, settled, needed, place, block)?;
    }
    Ok(kept)
}

/// Keeps the block, if it is reached.
fn push_block(
    alloc: Global,
    kept: &mut Vec<Block>,
    settled: &Settled,
    needed: &Needed,
    place: usize,
    block: &Block,
) -> Result<(), AllocError>
    ensures { OnOk result (kept.new.items ≡ kept.old.items ++ (if (facts settled.now).reached place then kept_block (tables_in settled.now) (facts settled.now) (marked needed.now.needed.items) place block.now ∷ [] else [])) }
{
    if !settled.is_reached(place) {
        return Ok(());
    }
    kept.push(kept_block(alloc, settled, needed, place, block)?)?;
    Ok(())
}

/// A block with the edges and values that stay.
fn kept_block(
    alloc: Global,
    settled: &Settled,
    needed: &Needed,
    place: usize,
    block: &Block,
) -> Result<Block, AllocError>
    ensures { IfOk result (λ kept. kept ≡ kept_block (tables_in settled.now) (facts settled.now) (marked needed.now.needed.items) place block.now) }
{
    let edges = settled.graph.edges_to(place);
    let first = settled.graph.offset(place);
    let preds = kept_preds(alloc, settled, edges, &block.preds)?;
    let values = kept_values(alloc, settled, needed, first, &block.values, edges)?;
    match settled.taken_by(place) {
        Some(index) => Ok(Block {
            id: block.id,
            kind: Kind::Plain,
            control: None,
            preds,
            succs: only(alloc, block.succs.get(index).copied())?,
            likely: Likely::No,
            values,
        }),
        None => Ok(Block {
            id: block.id,
            kind: block.kind,
            control: kept_control(settled, settled.graph.control_of(place), block.control),
            preds,
            succs: copied(alloc, &block.succs)?,
            likely: block.likely,
            values,
        }),
    }
}

/// The one number, if there is one.
fn only(alloc: Global, number: Option<u32>) -> Result<Vec<u32>, AllocError>
    ensures { IfOk result (λ numbers. numbers.items ≡ only number) }
{
    let mut numbers = Vec::new(alloc);
    if let Some(number) = number {
        numbers.push(number)?;
    }
    Ok(numbers)
}

fn copied(alloc: Global, numbers: &[u32]) -> Result<Vec<u32>, AllocError>
    ensures { IfOk result (λ copy. copy.items ≡ numbers.now) }
{
    Vec::from_slice(alloc, numbers)
}

/// The predecessors whose edges stay.
fn kept_preds(
    alloc: Global,
    settled: &Settled,
    edges: &[Edge],
    preds: &[u32],
) -> Result<Vec<u32>, AllocError>
    ensures { IfOk result (λ kept. kept.items ≡ kept_preds (facts settled.now) edges.now preds.now) }
{
    let mut kept = Vec::new(alloc);
    for (place, pred) in preds.iter().enumerate() {
        let stays = settled.has_edge_at(edges, place);
        push_if(&mut kept, stays, *pred)?;
    }
    Ok(kept)
}

fn push_if(kept: &mut Vec<u32>, stays: bool, number: u32) -> Result<(), AllocError>
    ensures { OnOk result (kept.new.items ≡ kept.old.items ++ (if stays then number ∷ [] else [])) }
{
    if stays {
        kept.push(number)?;
    }
    Ok(())
}

/// The control under the number of what stands for it.
fn kept_control(settled: &Settled, place: Option<usize>, control: Option<u32>) -> Option<u32>
    ensures { result ≡ kept_control (tables_in settled.now) (facts settled.now) place control }
{
    match (place, control) {
        (Some(place), Some(number)) => Some(standing(settled, place, number)),
        _ => control,
    }
}

/// The number of what stands for the value at the place, which has this number.
fn standing(settled: &Settled, place: usize, number: u32) -> u32
    ensures { result ≡ standing (tables_in settled.now) (facts settled.now) place number }
{
    number_at(settled, settled.root(place)).unwrap_or(number)
}

/// The number of the value at this place.
fn number_at(settled: &Settled, place: usize) -> Option<u32>
    ensures { result ≡ number_at (tables_in settled.now) place }
{
    match settled.graph.nodes.get(place) {
        Some(node) => {
            let value = node.value;
            Some(value.id)
        }
        None => None,
    }
}

/// The needed values of a block, the first of which has this place.
fn kept_values(
    alloc: Global,
    settled: &Settled,
    needed: &Needed,
    first: usize,
    values: &[Value],
    edges: &[Edge],
) -> Result<Vec<Value>, AllocError>
    ensures { IfOk result (λ kept. kept.items ≡ kept_values (tables_in settled.now) (facts settled.now) (marked needed.now.needed.items) edges.now first values.now) }
{
    let mut kept = Vec::new(alloc);
    for (index, value) in values.iter().enumerate() {
        let place = behind(first, index);
        push_value(alloc, &mut kept, settled, needed, place, value, edges)?;
    }
    Ok(kept)
}

/// The place that lies so far behind this one.
#[tactic(auto, unfolding(crate::specs::Rebuilt::behind))]
fn behind(place: usize, count: usize) -> usize
    ensures { result ≡ behind place count }
{
    place.saturating_add(count)
}

/// Keeps the value at this place, if it is needed.
fn push_value(
    alloc: Global,
    kept: &mut Vec<Value>,
    settled: &Settled,
    needed: &Needed,
    place: usize,
    value: &Value,
    edges: &[Edge],
) -> Result<(), AllocError>
    ensures { OnOk result (kept.new.items ≡ kept.old.items ++ (if marked needed.now.needed.items place then kept_value (tables_in settled.now) (facts settled.now) edges.now place value.now ∷ [] else [])) }
{
    if !needed.has(place) {
        return Ok(());
    }
    kept.push(kept_value(alloc, settled, place, value, edges)?)?;
    Ok(())
}

/// A value with the arguments that stay, each as the value that stands for it.
fn kept_value(
    alloc: Global,
    settled: &Settled,
    place: usize,
    value: &Value,
    edges: &[Edge],
) -> Result<Value, AllocError>
    ensures { IfOk result (λ kept. kept ≡ kept_value (tables_in settled.now) (facts settled.now) edges.now place value.now) }
{
    let places = settled.graph.args_of(place);
    let is_phi = is_phi(value.op.family);
    let args = kept_args(alloc, settled, is_phi, edges, places, value.args.as_slice())?;
    Ok(Value {
        id: value.id,
        op: value.op,
        ty: value.ty,
        args,
        int: value.int,
        aux: value.aux,
    })
}

/// The arguments that stay, which have these places.
fn kept_args(
    alloc: Global,
    settled: &Settled,
    is_phi: bool,
    edges: &[Edge],
    places: &[usize],
    args: &[u32],
) -> Result<SmallVec<u32, 4>, AllocError>
    ensures { IfOk result (λ kept. kept.items ≡ kept_args (tables_in settled.now) (facts settled.now) is_phi edges.now places.now args.now) }
{
    let mut kept = SmallVec::new(alloc);
    for (index, arg) in args.iter().enumerate() {
        let stays = arg_stays(settled, is_phi, edges, index);
        push_arg(&mut kept, stays, kept_arg(settled, places, index, *arg))?;
    }
    Ok(kept)
}

/// Whether the argument at this place stays.
fn arg_stays(settled: &Settled, is_phi: bool, edges: &[Edge], place: usize) -> bool
    ensures { result ≡ (not is_phi || stays_there (edge_stays (facts settled.now)) (slice_get edges.now place)) }
{
    !is_phi || settled.has_edge_at(edges, place)
}

/// The number of what stands for the argument at this index, the value at its place having this number.
fn kept_arg(settled: &Settled, places: &[usize], index: usize, number: u32) -> u32
    ensures { result ≡ standing (tables_in settled.now) (facts settled.now) (or_past (slice_get places.now index)) number }
{
    let place = or_past(places.get(index).copied());
    standing(settled, place, number)
}

fn push_arg(kept: &mut SmallVec<u32, 4>, stays: bool, number: u32) -> Result<(), AllocError>
    ensures { OnOk result (kept.new.items ≡ kept.old.items ++ (if stays then number ∷ [] else [])) }
{
    if stays {
        kept.push(number)?;
    }
    Ok(())
}
