// A function's blocks and values by place, with the edges and arguments between them.
ghost use Rattle.std.specs.Prelude.{◌≡◌, ◌+◌, ◌-◌, ◌^◌, ◌++◌, [], map, min, length, slice_get, slice_index_or, slice_set, None, IfOk, OnOk};
ghost use Rattle.bk_func.specs.Edits.{nth_place};
ghost use Rattle.bk_graph.specs.Graphs.{IsGraphOf};
ghost use Rattle.bk_graph.specs.Nodes.{node_at, nodes_from, offsets_from, value_ids, place_by, control_by, or_past, nth_succ, edges_behind, edge_lists, AreCounts, succ_places, arg_places, control_places};

use crate::lists::{EdgeLists, Lists};
use crate::places::Places;
use bk_func::{Block, Func, Value};
use std::alloc::{AllocError, Global};
use std::marker::Model;

/// A value and the place of its block.
#[derive(Drop)]
pub(crate) struct Node<'a> {
    pub(crate) block: usize,
    pub(crate) value: &'a Value,
}

impl<'a> Model for Node<'a> {
    ghost use Rattle.bk_graph.specs.Nodes.{NodeRecord};

    ghost Value = { NodeRecord };

    ghost view = { λ n. record { block = n.block; value = n.value.now } };
}

/// An edge: the place of the block that it leaves, and its place among that block's successors.
#[derive(Clone, Copy)]
pub(crate) struct Edge {
    pub(crate) from: usize,
    pub(crate) index: usize,
}

/// A function by places. A number that names nothing has a place past the last.
#[derive(Drop)]
pub(crate) struct Graph<'a> {
    pub(crate) blocks: &'a [Block],
    /// The values in list order.
    pub(crate) nodes: Vec<Node<'a>>,
    /// For each block the place of its first value, and last the count of values.
    pub(crate) offsets: Vec<usize>,
    /// For each block the places of its successors.
    pub(crate) succs: Lists,
    /// For each block the edges to it, in the order of its predecessors.
    pub(crate) edges: EdgeLists,
    /// For each value the places of its arguments.
    pub(crate) args: Lists,
    /// For each block the place of its control.
    pub(crate) controls: Vec<Option<usize>>,
}

impl<'a> Graph<'a> {
    /// The tables of the function.
    pub(crate) fn new(alloc: Global, func: &'a Func) -> Result<Graph<'a>, AllocError>
        ensures { IfOk result (IsGraphOf func.now.blocks) }
    {
        let blocks: &'a [Block] = &func.blocks;
        let mut nodes = Vec::new(alloc);
        let offsets = list_nodes(alloc, &mut nodes, blocks)?;
        let block_places = Places::of_blocks(alloc, blocks)?;
        let value_places = Places::new(alloc, &value_ids(alloc, &nodes)?)?;
        let succs = all_succs(alloc, blocks, &block_places)?;
        let edges = all_edges(alloc, blocks, &block_places)?;
        let args = all_args(alloc, &nodes, &value_places)?;
        let controls = controls(alloc, blocks, &value_places)?;
        Ok(Graph {
            blocks,
            nodes,
            offsets,
            succs,
            edges,
            args,
            controls,
        })
    }

    /// The place of a block's first value, or behind the last value.
    pub(crate) fn offset(&self, block: usize) -> usize
        ensures { result ≡ slice_index_or self.now.offsets.items block (length self.now.nodes.items) }
    {
        self.offsets.get(block).copied().unwrap_or(self.nodes.len())
    }

    /// The edges to a block, in the order of its predecessors.
    pub(crate) fn edges_to(&self, block: usize) -> &[Edge]
        ensures { result.now ≡ slice_index_or self.now.edges block [] }
    {
        self.edges.of(block)
    }

    /// The places of a value's arguments.
    pub(crate) fn args_of(&self, value: usize) -> &[usize]
        ensures { result.now ≡ slice_index_or self.now.args value [] }
    {
        self.args.of(value)
    }

    /// The places of a block's successors.
    pub(crate) fn succs_of(&self, block: usize) -> &[usize]
        ensures { result.now ≡ slice_index_or self.now.succs block [] }
    {
        self.succs.of(block)
    }

    /// The place of a block's control.
    pub(crate) fn control_of(&self, block: usize) -> Option<usize>
        ensures { result ≡ slice_index_or self.now.controls.items block None }
    {
        self.controls.get(block).copied().unwrap_or(None)
    }
}

/// Lists the values of the blocks, and gives for each block how many values stand before its own, and last how many
/// there are.
#[tactic(auto, unfolding(crate::specs::Nodes::nodes_from, crate::specs::Nodes::offsets_from))]
fn list_nodes<'a>(
    alloc: Global,
    nodes: &mut Vec<Node<'a>>,
    blocks: &'a [Block],
) -> Result<Vec<usize>, AllocError>
    ensures nodes { OnOk result (nodes.new.items ≡ nodes.old.items ++ nodes_from 0 blocks.now) }
    ensures offsets { IfOk result (λ offsets. offsets.items ≡ offsets_from (length nodes.old.items) blocks.now) }
{
    let mut offsets = Vec::new(alloc);
    for (place, block) in blocks.iter().enumerate() {
        offsets.push(nodes.len())?;
        push_nodes(nodes, place, &block.values)?;
    }
    offsets.push(nodes.len())?;
    Ok(offsets)
}

fn push_nodes<'a>(
    nodes: &mut Vec<Node<'a>>,
    block: usize,
    values: &'a [Value],
) -> Result<(), AllocError>
    ensures { OnOk result (nodes.new.items ≡ nodes.old.items ++ map (node_at block) values.now) }
{
    for value in values {
        nodes.push(Node { block, value })?;
    }
    Ok(())
}

fn value_ids(alloc: Global, nodes: &[Node]) -> Result<Vec<u32>, AllocError>
    ensures { IfOk result (λ ids. ids.items ≡ value_ids nodes.now) }
{
    let mut ids = Vec::with_capacity(alloc, nodes.len())?;
    for node in nodes {
        let value = node.value;
        ids.push(value.id)?;
    }
    Ok(ids)
}

/// The places of these numbers.
fn places_of(alloc: Global, places: &Places, numbers: &[u32]) -> Result<Vec<usize>, AllocError>
    ensures { IfOk result (λ found. found.items ≡ map (place_by places.now) numbers.now) }
{
    let mut found = Vec::with_capacity(alloc, numbers.len())?;
    for number in numbers {
        found.push(place_or_past(places, *number))?;
    }
    Ok(found)
}

/// The place of the number, a place past the last where it names nothing.
fn place_or_past(places: &Places, number: u32) -> usize
    ensures { result ≡ place_by places.now number }
{
    or_past(places.find(number))
}

/// The place, one past every list where there is none.
#[tactic(auto, unfolding(crate::specs::Nodes::or_past))]
pub(crate) fn or_past(place: Option<usize>) -> usize
    ensures { result ≡ or_past place }
{
    place.unwrap_or(usize::MAX)
}

fn all_succs(alloc: Global, blocks: &[Block], places: &Places) -> Result<Lists, AllocError>
    ensures { IfOk result (λ succs. succs ≡ succ_places (place_by places.now) blocks.now) }
{
    let mut succs = Lists::with_capacity(alloc, blocks.len())?;
    for block in blocks {
        succs.push(places_of(alloc, places, &block.succs)?)?;
    }
    Ok(succs)
}

fn all_args(alloc: Global, nodes: &[Node], places: &Places) -> Result<Lists, AllocError>
    ensures { IfOk result (λ args. args ≡ arg_places (place_by places.now) nodes.now) }
{
    let mut args = Lists::with_capacity(alloc, nodes.len())?;
    for node in nodes {
        let value = node.value;
        args.push(places_of(alloc, places, value.args.as_slice())?)?;
    }
    Ok(args)
}

fn controls(
    alloc: Global,
    blocks: &[Block],
    places: &Places,
) -> Result<Vec<Option<usize>>, AllocError>
    ensures { IfOk result (λ controls. controls.items ≡ control_places (control_by places.now) blocks.now) }
{
    let mut controls = Vec::with_capacity(alloc, blocks.len())?;
    for block in blocks {
        controls.push(control_place(places, block.control))?;
    }
    Ok(controls)
}

fn control_place(places: &Places, control: Option<u32>) -> Option<usize>
    ensures { result ≡ control_by places.now control }
{
    match control {
        Some(number) => places.find(number),
        None => None,
    }
}

fn all_edges(alloc: Global, blocks: &[Block], places: &Places) -> Result<EdgeLists, AllocError>
    ensures { IfOk result (λ edges. edges ≡ edge_lists (place_by places.now) blocks.now) }
{
    let mut edges = EdgeLists::with_capacity(alloc, blocks.len())?;
    let mut ranks = vec![in alloc; 0; blocks.len()]?;
    for block in blocks {
        let preds = places_of(alloc, places, &block.preds)?;
        edges.push(edges_to(alloc, blocks, &mut ranks, block.id, &preds)?)?;
        clear(&mut ranks, &preds);
    }
    Ok(edges)
}

/// The edges to a block from these predecessors. `ranks` counts the edges from each, and begins with zeros.
fn edges_to(
    alloc: Global,
    blocks: &[Block],
    ranks: &mut [usize],
    to: u32,
    preds: &[usize],
) -> Result<Vec<Edge>, AllocError>
    requires size { length ranks.old ≡ length blocks.now }
    requires none { AreCounts ranks.old [] }
    ensures edges { IfOk result (λ edges. edges.items ≡ edges_behind blocks.now to [] preds.now) }
    ensures size { length ranks.new ≡ length ranks.old }
    ensures ranks { OnOk result (AreCounts ranks.new preds.now) }
{
    let mut edges = Vec::with_capacity(alloc, preds.len())?;
    for from in preds {
        let rank = next_rank(ranks, *from);
        edges.push(Edge {
            from: *from,
            index: nth_succ(blocks, *from, to, rank),
        })?;
    }
    Ok(edges)
}

/// How many edges were counted from the block before this one.
#[tactic(auto, using(bk_func::proofs::Places::set_past))]
fn next_rank(ranks: &mut [usize], from: usize) -> usize
    ensures rank { result ≡ slice_index_or ranks.old from 0 }
    ensures ranks { ranks.new ≡ slice_set ranks.old from (min (slice_index_or ranks.old from 0 + 1) (2 ^ 64 - 1)) }
{
    if ranks.len() <= from {
        return 0;
    }
    let rank = ranks[from];
    ranks[from] = rank.saturating_add(1);
    rank
}

/// No edges are counted from these places.
fn clear(ranks: &mut [usize], places: &[usize])
    requires { AreCounts ranks.old places.now }
    ensures size { length ranks.new ≡ length ranks.old }
    ensures none { AreCounts ranks.new [] }
{
    for place in places {
        put_zero(ranks, *place);
    }
}

#[tactic(auto, using(bk_func::proofs::Places::set_past))]
fn put_zero(ranks: &mut [usize], place: usize)
    ensures { ranks.new ≡ slice_set ranks.old place 0 }
{
    if place < ranks.len() {
        ranks[place] = 0;
    }
}

/// The place of the successor `to` that `rank` others stand before; the length where there is none.
fn nth_succ(blocks: &[Block], from: usize, to: u32, rank: usize) -> usize
    ensures { result ≡ nth_succ (slice_get blocks.now from) to rank }
{
    match blocks.get(from) {
        Some(block) => nth_place(&block.succs, to, rank),
        None => 0,
    }
}

#[tactic(auto, using(bk_func::proofs::Places::place_rules))]
fn nth_place(numbers: &[u32], number: u32, rank: usize) -> usize
    ensures { result ≡ nth_place number rank numbers.now }
{
    let mut left = rank;
    for (place, other) in numbers.iter().enumerate() {
        if *other == number {
            if left == 0 {
                return place;
            }
            left -= 1;
        }
    }
    numbers.len()
}
