// What is settled of blocks, edges and values, and what ops say of values.
ghost use Rattle.std.specs.Prelude.{◌≡◌, ◌<◌, ◌&&◌, IfSome, length, slice_get};
ghost use Rattle.bk_graph.specs.Clean.{is_phi, place_taken};
ghost use Rattle.bk_graph.specs.Cleaned.{truth_at, goes_if, goes_at};
ghost use Rattle.bk_graph.specs.Facts.{goes_to, edge_stays};
ghost use Rattle.bk_graph.specs.Kinds.{is_check, is_passed, truth_of};
ghost use Rattle.bk_graph.specs.Known.{stays_there};
ghost use Rattle.bk_graph.specs.Reads.{facts, tables_in};

use crate::graph::Edge;
use crate::settled::Settled;
use bk_func::Kind;
use bk_ops::{ArmOp, Family, RvOp};

impl<'a> Settled<'a> {
    /// The place of the value that stands for the one at this place.
    pub(crate) fn root(&self, place: usize) -> usize
        ensures { result ≡ (facts self.now).root place }
    {
        self.roots.root(place)
    }

    pub(crate) fn is_reached(&self, block: usize) -> bool
        ensures { result ≡ (facts self.now).reached block }
    {
        self.reached.get(block).copied().unwrap_or(false)
    }

    /// The place of the one successor that the block goes to, where it is decided.
    pub(crate) fn taken_by(&self, block: usize) -> Option<usize>
        ensures { result ≡ (facts self.now).taken block }
    {
        self.taken.get(block).copied().unwrap_or(None)
    }

    /// Whether the block, if it is reached, goes to its successor at this place.
    fn goes(&self, block: usize, index: usize) -> bool
        ensures { result ≡ goes_to ((facts self.now).taken block) index }
    {
        match self.taken_by(block) {
            Some(taken) => taken == index,
            None => true,
        }
    }

    /// Whether the edge stays: its block is reached and goes there.
    pub(crate) fn has_edge(&self, edge: Edge) -> bool
        ensures { result ≡ edge_stays (facts self.now) edge }
    {
        self.is_reached(edge.from) && self.goes(edge.from, edge.index)
    }

    /// Whether there is an edge at the place and it stays.
    pub(crate) fn has_edge_at(&self, edges: &[Edge], place: usize) -> bool
        ensures { result ≡ stays_there (edge_stays (facts self.now)) (slice_get edges.now place) }
    {
        match edges.get(place) {
            Some(edge) => self.has_edge(*edge),
            None => false,
        }
    }

    /// The place of the successor to which the block goes alone, by its kind and its control.
    pub(crate) fn goes_at(&self, block: usize) -> Option<usize>
        ensures { result ≡ goes_at (tables_in self.now) (facts self.now).root block (slice_get (tables_in self.now).blocks block) }
    {
        match self.graph.blocks.get(block) {
            Some(it) => match it.kind {
                Kind::First => Some(0),
                Kind::If => self.goes_if(self.graph.control_of(block)),
                _ => None,
            },
            None => None,
        }
    }

    fn goes_if(&self, control: Option<usize>) -> Option<usize>
        ensures { result ≡ goes_if (tables_in self.now) (facts self.now).root control }
    {
        let control = control?;
        let int = self.truth_at(self.root(control))?;
        Some(place_taken(int))
    }

    /// The number of the truth value at this place, if it is a constant.
    fn truth_at(&self, place: usize) -> Option<i64>
        ensures { result ≡ truth_at (slice_get (tables_in self.now).nodes place) }
    {
        match self.graph.nodes.get(place) {
            Some(node) => {
                let value = node.value;
                truth_of(value.op.family, value.int)
            }
            None => None,
        }
    }
}

/// The number beside a constant truth value.
fn truth_of(family: Family, int: i64) -> Option<i64>
    ensures { result ≡ truth_of family int }
{
    match family {
        Family::ConstBool => Some(int),
        _ => None,
    }
}

/// The place of the successor that a truth value takes.
fn place_taken(int: i64) -> usize
    ensures { result ≡ place_taken int }
{
    if int == 0 { 1 } else { 0 }
}

pub(crate) fn is_phi(family: Family) -> bool
    ensures { result ≡ is_phi family }
{
    match family {
        Family::Phi => true,
        _ => false,
    }
}

pub(crate) fn is_check(family: Family) -> bool
    ensures { result ≡ is_check family }
{
    match family {
        Family::NilCheck | Family::Arm(ArmOp::Nil) | Family::Rv(RvOp::Nil) => true,
        _ => false,
    }
}

/// Whether a use of such a value becomes a use of its first argument.
pub(crate) fn is_passed(family: Family) -> bool
    ensures { result ≡ is_passed family }
{
    match family {
        Family::Copy => true,
        _ => is_check(family),
    }
}
