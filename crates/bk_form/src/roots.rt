// What copies of memory stand for.
ghost use Rattle.std.specs.Prelude.{◌≡◌, ◌↔◌, ℕ, IfOk, OnOk, IsTrue, length, MatchOption, None, replicate};
ghost use Rattle.bk_places.specs.Search.{Marks};
ghost use Rattle.bk_form.specs.Places.{nodes_of};
ghost use Rattle.bk_form.specs.Roots.{AreCopies, AreRoots, Copies};
ghost use Rattle.bk_form.specs.Walks.{IsFlow};

use crate::flow::Flow;
use bk_func::Value;
use bk_places::{Edges, Search, copies_memory};
use std::alloc::{AllocError, Global};

/// For each value the place of the one that it stands for: itself, or of a copy of memory what it copies in the
/// end. Copies of each other stand for none.
pub(crate) fn roots(alloc: Global, flow: &Flow) -> Result<Vec<Option<usize>>, AllocError>
    requires { IsFlow flow.now }
    ensures { IfOk result (λ roots. AreRoots flow.now.scope.func.now roots.items) }
{
    let copies = copies(alloc, flow)?;
    let mut search = Search::new(alloc, copies.len())?;
    sow(&mut search, flow, &copies)?;
    Ok(search.labels)
}

/// Searches from each value that is no copy, with its place as the label.
fn sow(search: &mut Search, flow: &Flow, copies: &Edges) -> Result<(), AllocError>
    requires flow { IsFlow flow.now }
    requires copies { AreCopies flow.now.scope.func.now (length (nodes_of flow.now.scope.func.now)) copies.now }
    requires marks { Marks search.old.labels.items search.old.reached.items }
    requires none { search.old.labels.items ≡ replicate (length copies.now) None }
    ensures { OnOk result (AreRoots flow.now.scope.func.now search.new.labels.items) }
{
    let nowhere = copies.len();
    for (place, node) in flow.nodes.iter().enumerate() {
        let is_copy = copies_memory(node.value);
        if is_copy {
            continue;
        }
        search.extend(copies, nowhere, place, place)?;
    }
    Ok(())
}

/// Behind the place of each value those of its copies.
fn copies(alloc: Global, flow: &Flow) -> Result<Edges, AllocError>
    requires { IsFlow flow.now }
    ensures { IfOk result (λ edges. AreCopies flow.now.scope.func.now (length (nodes_of flow.now.scope.func.now)) edges) }
{
    let mut edges = Edges::new(alloc, flow.nodes.len())?;
    for (place, node) in flow.nodes.iter().enumerate() {
        let source = copied(flow, node.value);
        edges.add_from(source, place)?;
    }
    Ok(edges)
}

/// The place of what the value copies, where it copies memory.
fn copied(flow: &Flow, value: &Value) -> Option<usize>
    requires { IsFlow flow.now }
    ensures { MatchOption result ((p : ℕ) → ¬ Copies flow.now.scope.func.now value.now p) (λ q. (p : ℕ) → Copies flow.now.scope.func.now value.now p ↔ (p ≡ q)) }
{
    if !copies_memory(value) {
        return None;
    }
    let args = value.args.as_slice();
    let first = args.get(0).copied();
    let id = first?;
    let place = flow.scope.numbers.value(id);
    place
}
