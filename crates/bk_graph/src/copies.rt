// What copies and nil checks stand for.
ghost use Rattle.std.specs.Prelude.{◌≡◌, ℕ, ◌<◌, ◌+◌, length, slice_get, IfOk, IfSome, Some, None};
ghost use Rattle.bk_graph.specs.Roots.{root_of};
ghost use Rattle.bk_graph.specs.Settling.{tables, is_passed_at, if_below, first_of, ArePassed, Yields};

use crate::graph::Graph;
use crate::reads::is_passed;
use crate::roots::Roots;
use std::alloc::{AllocError, Global};

/// The roots where only copies and nil checks have yielded, to what they take first.
pub(crate) fn passed_roots(alloc: Global, graph: &Graph) -> Result<Roots, AllocError>
    ensures { IfOk result (λ roots. ArePassed (tables graph.now) roots (length graph.now.nodes.items)) }
{
    let mut roots = Roots::new(alloc, graph.nodes.len())?;
    for place in 0..graph.nodes.len() {
        pass(graph, &mut roots, place);
    }
    Ok(roots)
}

/// The copy or nil check at this place yields.
fn pass(graph: &Graph, roots: &mut Roots, place: usize)
    requires roots { ArePassed (tables graph.now) roots.old place }
    requires within { place < length graph.now.nodes.items }
    ensures { ArePassed (tables graph.now) roots.new (place + 1) }
{
    match first_of(graph, place) {
        Some(first) => {
            let root = roots.find(first);
            bypass(roots, place, root);
        }
        None => {}
    }
}

/// What stands for the one value, which stands for itself, now stands for the other, which does so too.
pub(crate) fn bypass(roots: &mut Roots, place: usize, other: usize)
    requires own { root_of roots.old place ≡ place }
    requires root { root_of roots.old other ≡ other }
    requires there { place < length roots.old }
    requires within { other < length roots.old }
    ensures { Yields roots.old roots.new place other }
{
    if place != other {
        roots.put(place, other);
    }
}

/// The place of the value that the copy or nil check at this place takes first.
fn first_of(graph: &Graph, place: usize) -> Option<usize>
    ensures { result ≡ first_of (tables graph.now) place }
{
    if !is_passed_at(graph, place) {
        return None;
    }
    if_below(graph.nodes.len(), graph.args_of(place).first().copied())
}

/// The place, if it is below the count.
fn if_below(count: usize, place: Option<usize>) -> Option<usize>
    ensures { result ≡ if_below count place }
{
    match place {
        Some(place) if place < count => Some(place),
        _ => None,
    }
}

/// Whether a use of the value at this place becomes a use of its first argument.
fn is_passed_at(graph: &Graph, place: usize) -> bool
    ensures { result ≡ is_passed_at (slice_get graph.now.nodes.items place) }
{
    match graph.nodes.get(place) {
        Some(node) => {
            let value = node.value;
            is_passed(value.op.family)
        }
        None => false,
    }
}
