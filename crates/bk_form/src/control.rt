// Kinds of blocks, and edges.
ghost use Rattle.std.specs.Prelude.{◌≡◌, ◌↔◌, ◌<◌, ◌++◌, ◌||◌, ℕ, [], IsTrue, IfOk, OnOk, MatchBool, Some};
ghost use Rattle.std.specs.List.{flat_map, list_any, slice_get};
ghost use Rattle.std.specs.BTreeSet.{contains};
ghost use Rattle.std.specs.Ordering.{nat_cmp};
ghost use Rattle.bk_func.specs.Form.Parts.{FitsKind, KeepsControl};
ghost use Rattle.bk_func.specs.Form.Text.{IsEntry};
ghost use Rattle.bk_func.specs.Records.{BlockRecord};
ghost use Rattle.bk_form.specs.Finds.{Finds};
ghost use Rattle.bk_form.specs.Edges.{edges_from, edges_to, all_from, all_to, times, count_in, touches, tears, is_torn};

use crate::Place;
use bk_func::{Block, Func, Kind};
use std::alloc::{AllocError, Global};
use std::collections::{BTreeMap, BTreeSet};

/// The numbers of the blocks that an edge leads from and to.
type Edge = (u32, u32);

/// The first block in text order whose edges, control or kind are at fault.
pub(crate) fn first_fault(alloc: Global, func: &Func) -> Result<Option<Place>, AllocError>
    ensures { IfOk result (Finds (KeepsControl func.now) (λ b v. Unit {0}) func.now) }
{
    let from = edges_from(alloc, &func.blocks)?;
    let to = edges_to(alloc, &func.blocks)?;
    let torn = torn_blocks(alloc, &from, &to)?;
    Ok(first_broken(func, &torn))
}

fn first_broken(func: &Func, torn: &BTreeSet<u32>) -> Option<Place>
    requires { (id : ℕ) → contains nat_cmp torn.now id ≡ is_torn (all_from func.now) (all_to func.now) id }
    ensures { Finds (KeepsControl func.now) (λ b v. Unit {0}) func.now result }
{
    for (place, block) in func.blocks.iter().enumerate() {
        if !is_kept(func, torn, place, block) {
            return Some(Place::Block(block.id));
        }
    }
    None
}

/// Whether the kind, the control and the edges of the block at this place are in order, where the entry
/// has no predecessor or is this block.
fn is_kept(func: &Func, torn: &BTreeSet<u32>, place: usize, block: &Block) -> bool
    requires torn { (id : ℕ) → contains nat_cmp torn.now id ≡ is_torn (all_from func.now) (all_to func.now) id }
    requires block { slice_get func.now.blocks place ≡ Some block.now }
    requires entry { 0 < place → (b : BlockRecord) → IsEntry func.now b → b.preds ≡ [] }
    ensures { MatchBool result (KeepsControl func.now block.now) (¬ KeepsControl func.now block.now) }
{
    (place != 0 || block.preds.is_empty()) && fits_kind(block) && !torn.contains(&block.id)
}

/// Whether the successors and the control are those of the block's kind.
fn fits_kind(block: &Block) -> bool
    ensures { IsTrue result ↔ FitsKind block.now.kind block.now.succs block.now.control }
{
    match block.kind {
        Kind::Plain => block.succs.len() == 1 && block.control.is_none(),
        Kind::If => block.succs.len() == 2 && block.control.is_some(),
        Kind::First => block.succs.len() == 2 && block.control.is_none(),
        Kind::Ret | Kind::Exit => block.succs.is_empty() && block.control.is_some(),
    }
}

/// The edges by the successors of blocks.
fn edges_from(alloc: Global, blocks: &[Block]) -> Result<Vec<Edge>, AllocError>
    ensures { IfOk result (λ edges. edges.items ≡ flat_map edges_from blocks.now) }
{
    let mut edges = Vec::new(alloc);
    for block in blocks {
        push_from(&mut edges, block)?;
    }
    Ok(edges)
}

fn push_from(edges: &mut Vec<Edge>, block: &Block) -> Result<(), AllocError>
    ensures { OnOk result (edges.new.items ≡ edges.old.items ++ edges_from block.now) }
{
    for succ in &block.succs {
        edges.push((block.id, *succ))?;
    }
    Ok(())
}

/// The edges by the predecessors of blocks.
fn edges_to(alloc: Global, blocks: &[Block]) -> Result<Vec<Edge>, AllocError>
    ensures { IfOk result (λ edges. edges.items ≡ flat_map edges_to blocks.now) }
{
    let mut edges = Vec::new(alloc);
    for block in blocks {
        push_to(&mut edges, block)?;
    }
    Ok(edges)
}

fn push_to(edges: &mut Vec<Edge>, block: &Block) -> Result<(), AllocError>
    ensures { OnOk result (edges.new.items ≡ edges.old.items ++ edges_to block.now) }
{
    for pred in &block.preds {
        edges.push((*pred, block.id))?;
    }
    Ok(())
}

/// How many times each edge is listed.
fn counts(alloc: Global, edges: &[Edge]) -> Result<BTreeMap<Edge, usize>, AllocError>
    ensures { IfOk result (λ counts. (e : ℕ × ℕ) → count_in counts e ≡ times edges.now e) }
{
    let mut counts = BTreeMap::new(alloc);
    for edge in edges {
        let count = count_of(&counts, *edge);
        counts.insert(*edge, count + 1)?;
    }
    Ok(counts)
}

fn count_of(counts: &BTreeMap<Edge, usize>, edge: Edge) -> usize
    ensures { result ≡ count_in counts.now edge }
{
    counts.get(&edge).copied().unwrap_or(0)
}

/// The numbers of the blocks at the ends of an edge that is not listed as often on both sides.
fn torn_blocks(alloc: Global, from: &[Edge], to: &[Edge]) -> Result<BTreeSet<u32>, AllocError>
    ensures { IfOk result (λ torn. (id : ℕ) → contains nat_cmp torn id ≡ is_torn from.now to.now id) }
{
    let counts_from = counts(alloc, from)?;
    let counts_to = counts(alloc, to)?;
    let mut torn = BTreeSet::new(alloc);
    tear(&mut torn, from, &counts_from, &counts_to)?;
    tear(&mut torn, to, &counts_from, &counts_to)?;
    Ok(torn)
}

/// Adds the ends of those of the edges that the two sides do not count alike.
fn tear(
    torn: &mut BTreeSet<u32>,
    edges: &[Edge],
    counts_from: &BTreeMap<Edge, usize>,
    counts_to: &BTreeMap<Edge, usize>,
) -> Result<(), AllocError>
    ensures { OnOk result ((id : ℕ) → contains nat_cmp torn.new id ≡ (contains nat_cmp torn.old id || list_any (tears (count_in counts_from.now) (count_in counts_to.now) id) edges.now)) }
{
    for edge in edges {
        if count_of(counts_from, *edge) != count_of(counts_to, *edge) {
            add_ends(torn, *edge)?;
        }
    }
    Ok(())
}

fn add_ends(torn: &mut BTreeSet<u32>, edge: Edge) -> Result<(), AllocError>
    ensures { OnOk result ((id : ℕ) → contains nat_cmp torn.new id ≡ (contains nat_cmp torn.old id || touches id edge)) }
{
    torn.insert(edge.0)?;
    torn.insert(edge.1)?;
    Ok(())
}
