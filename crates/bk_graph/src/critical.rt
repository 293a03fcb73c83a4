// Critical edges.
ghost use Rattle.std.specs.Prelude.{◌≡◌, ◌+◌, ◌<◌, ◌^◌, ◌++◌, ◌∷◌, [], ◌==◌, if◌then◌else◌, length, option_copied, IfOk, OnOk, OnErr};
ghost use Rattle.std.specs.List.{find};
ghost use Rattle.bk_func.specs.Edits.{greatest_block};
ghost use Rattle.bk_graph.specs.Critical.{has_several, edge_at, edges_from, critical_in, critical_edges, split_each, without_critical, AreEdges};
ghost use Rattle.bk_graph.specs.Joined.{IsJoined};
ghost use Rattle.bk_graph.specs.Named.{AreFirsts, block_ids};

use crate::places::Places;
use bk_func::{Block, Func, Memory, copy_func, split_edge};
use std::alloc::{AllocError, Global};
use std::marker::Model;

/// An edge: the number of the block that it leaves, and its place among that block's successors.
#[derive(Drop)]
struct Edge {
    from: u32,
    index: usize,
}

impl Model for Edge {
    ghost use Rattle.bk_graph.specs.Critical.{EdgeRecord};

    ghost Value = { EdgeRecord };

    ghost view = { λ e. record { from = e.from; index = e.index } };
}

/// Puts an empty block on each edge from a block with several successors to one with several predecessors, in block
/// and successor order. The new blocks are last in the list.
///
/// After a refusal the function is as before.
pub fn split_critical(alloc: Global, func: &mut Func) -> Result<(), Memory>
    requires { IsJoined func.old }
    ensures ok { OnOk result (func.new ≡ without_critical func.old) }
    ensures err { OnErr result (func.new ≡ func.old) }
{
    let edges = critical_edges(alloc, func)?;
    let mut split = copy_func(alloc, func)?;
    split_each(alloc, &mut split, &edges)?;
    *func = split;
    Ok(())
}

/// Puts an empty block on each of the edges, one after the other.
fn split_each(alloc: Global, func: &mut Func, edges: &[Edge]) -> Result<(), Memory>
    requires edges { AreEdges func.old edges.now }
    requires room { greatest_block func.old + length edges.now < 2 ^ 32 }
    ensures { OnOk result (func.new ≡ split_each func.old edges.now) }
{
    for edge in edges {
        split_edge(alloc, func, edge.from, edge.index)?;
    }
    Ok(())
}

/// The critical edges, in block and successor order.
fn critical_edges(alloc: Global, func: &Func) -> Result<Vec<Edge>, AllocError>
    ensures { IfOk result (λ edges. edges.items ≡ critical_edges func.now) }
{
    let places = Places::of_blocks(alloc, &func.blocks)?;
    let mut edges = Vec::new(alloc);
    for block in &func.blocks {
        push_critical(&mut edges, &func.blocks, &places, block)?;
    }
    Ok(edges)
}

/// Lists the critical edges of a block.
fn push_critical(
    edges: &mut Vec<Edge>,
    blocks: &[Block],
    places: &Places,
    block: &Block,
) -> Result<(), AllocError>
    requires { AreFirsts (block_ids blocks.now) places.now }
    ensures { OnOk result (edges.new.items ≡ edges.old.items ++ critical_in blocks.now block.now) }
{
    if block.succs.len() <= 1 {
        return Ok(());
    }
    push_to_several(edges, blocks, places, block.id, &block.succs)
}

/// Lists the edges from a block to those of its successors that have several predecessors.
fn push_to_several(
    edges: &mut Vec<Edge>,
    blocks: &[Block],
    places: &Places,
    from: u32,
    succs: &[u32],
) -> Result<(), AllocError>
    requires { AreFirsts (block_ids blocks.now) places.now }
    ensures { OnOk result (edges.new.items ≡ edges.old.items ++ edges_from blocks.now from 0 succs.now) }
{
    for (index, succ) in succs.iter().enumerate() {
        let is_critical = has_several(block_named(blocks, places, *succ));
        push_if(edges, is_critical, from, index)?;
    }
    Ok(())
}

fn push_if(
    edges: &mut Vec<Edge>,
    is_critical: bool,
    from: u32,
    index: usize,
) -> Result<(), AllocError>
    ensures { OnOk result (edges.new.items ≡ edges.old.items ++ (if is_critical then edge_at from index ∷ [] else [])) }
{
    if is_critical {
        edges.push(Edge { from, index })?;
    }
    Ok(())
}

/// Whether there is a block and it has several predecessors.
fn has_several(block: Option<&Block>) -> bool
    ensures { result ≡ has_several (option_copied block.entry) }
{
    match block {
        Some(block) => block.preds.len() > 1,
        None => false,
    }
}

/// The first block with this number.
fn block_named<'a>(blocks: &'a [Block], places: &Places, number: u32) -> Option<&'a Block>
    requires { AreFirsts (block_ids blocks.now) places.now }
    ensures { option_copied result ≡ find (λ b. b.id == number) blocks.now }
{
    match places.find(number) {
        Some(place) => blocks.get(place),
        None => None,
    }
}
