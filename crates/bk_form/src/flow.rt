// The values of a function by place, and the edges between its blocks.
ghost use Rattle.std.specs.Prelude.{◌≡◌, ◌↔◌, ◌++◌, ◌∷◌, [], IfOk, IsTrue, OnOk, Some, option_map};
ghost use Rattle.std.specs.List.{filter_map, slice_get};
ghost use Rattle.std.specs.Option.{option_and_then};
ghost use Rattle.bk_func.specs.Form.{Keeps};
ghost use Rattle.bk_func.specs.declared.form.FormKind.TheVariants.{Missing};
ghost use Rattle.bk_form.specs.Names.{IsScope, measure};
ghost use Rattle.bk_form.specs.Numbers.{NumbersOf, block_ids, block_named, sole};
ghost use Rattle.bk_form.specs.Places.{NodeRecord, node_named, nodes_of};
ghost use Rattle.bk_form.specs.Walks.{IsFlow, block_edges};

use crate::names::Scope;
use crate::numbers::Numbers;
use crate::places::{Node, nodes};
use bk_func::{Block, Func};
use bk_places::Edges;
use std::alloc::{AllocError, Global};

/// A function whose numbers name one thing each, by places: its values, and the places behind each block.
#[derive(Drop)]
pub(crate) struct Flow<'a> {
    pub(crate) scope: Scope<'a>,
    pub(crate) nodes: Vec<Node<'a>>,
    pub(crate) edges: Edges,
}

impl<'a> Flow<'a> {
    pub(crate) fn new(alloc: Global, scope: Scope<'a>) -> Result<Flow<'a>, AllocError>
        requires scope { IsScope scope }
        requires named { Keeps (measure scope) scope.func.now Missing }
        ensures flow { IfOk result IsFlow }
        ensures scope { IfOk result (λ flow. flow.scope ≡ scope.entry) }
    {
        let func = scope.func;
        let blocks: &'a [Block] = &func.blocks;
        let nodes = nodes(alloc, blocks)?;
        let edges = block_edges(alloc, func, scope.numbers)?;
        Ok(Flow {
            scope,
            nodes,
            edges,
        })
    }

    /// The place of the block in which the value with this number stands.
    pub(crate) fn home(&self, id: u32) -> Option<usize>
        requires { IsFlow self.now }
        ensures { result ≡ option_map (λ node. node.home) (node_named self.now.scope.func.now id) }
    {
        let place = self.scope.numbers.value(id)?;
        let node = self.nodes.get(place)?;
        Some(node.home)
    }

    /// The place of the block with this number, if there is a number.
    pub(crate) fn place_of(&self, block: Option<u32>) -> Option<usize>
        requires { IsFlow self.now }
        ensures { result ≡ option_and_then (sole (block_ids self.now.scope.func.now)) block }
    {
        self.scope.numbers.block(block?)
    }
}

/// Whether the value at the place stands in the block.
pub(crate) fn is_home(flow: &Flow, home: usize, place: usize) -> bool
    requires { IsFlow flow.now }
    ensures { IsTrue result ↔ ((o : NodeRecord) × (slice_get (nodes_of flow.now.scope.func.now) place ≡ Some o) × (home ≡ o.home)) }
{
    match flow.nodes.get(place) {
        Some(node) => home == node.home,
        None => false,
    }
}

/// For the place of each block those of its successors.
fn block_edges(alloc: Global, func: &Func, numbers: &Numbers) -> Result<Edges, AllocError>
    requires { NumbersOf func.now numbers.now }
    ensures { IfOk result (λ edges. edges ≡ block_edges func.now) }
{
    let mut edges = Edges::with_capacity(alloc, func.blocks.len())?;
    for block in &func.blocks {
        let succs: &[u32] = &block.succs;
        let places = block_places(alloc, numbers, succs)?;
        edges.push(places)?;
    }
    Ok(edges)
}

/// The places of the blocks with these numbers.
fn block_places(alloc: Global, numbers: &Numbers, ids: &[u32]) -> Result<Vec<usize>, AllocError>
    ensures { IfOk result (λ places. places.items ≡ filter_map (block_named numbers.now) ids.now) }
{
    let mut places = Vec::with_capacity(alloc, ids.len())?;
    for id in ids {
        push_place(&mut places, numbers, *id)?;
    }
    Ok(places)
}

/// Adds the place of the block with this number, if there is one.
fn push_place(places: &mut Vec<usize>, numbers: &Numbers, id: u32) -> Result<(), AllocError>
    ensures { OnOk result (places.new.items ≡ places.old.items ++ filter_map (block_named numbers.now) (id ∷ [])) }
{
    let Some(place) = numbers.block(id) else {
        return Ok(())
    };
    places.push(place)?;
    Ok(())
}
