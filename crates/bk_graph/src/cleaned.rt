// Clean.
ghost use Rattle.std.specs.Prelude.{◌≡◌, ℕ, ◌<◌, length, IfOk, OnOk, OnErr};
ghost use Rattle.bk_graph.specs.Cleaned.{IsSound, IsClosed, IsCleaned};
ghost use Rattle.bk_graph.specs.Graphs.{IsGraphOf};
ghost use Rattle.bk_graph.specs.Reads.{facts, tables_in, IsRight};

use crate::graph::Graph;
use crate::needed::Needed;
use crate::rebuilt::rebuilt;
use crate::settled::Settled;
use bk_func::{Func, Memory};
use std::alloc::Global;

/// Cleans a function. These rules are repeated until none applies:
///
/// - `First` becomes `Plain` to its first successor, and an `If` on `ConstBool` becomes `Plain` to the one that it
///   takes. The edge that is not taken goes, with its arguments of phis.
/// - A block that no walk from the entry leads to goes.
/// - A use of a copy or of a nil check becomes a use of its first argument.
/// - A use of a phi that takes one value besides itself becomes a use of that value.
/// - A value goes that no control, nil check or memory value other than a phi needs.
///
/// What stays keeps its number and its order. After a refusal the function is as before.
pub fn clean(alloc: Global, func: &mut Func) -> Result<(), Memory>
    ensures cleaned { OnOk result (IsCleaned func.old func.new) }
    ensures err { OnErr result (func.new ≡ func.old) }
{
    let next = cleaned(alloc, func)?;
    *func = next;
    Ok(())
}

fn cleaned(alloc: Global, func: &Func) -> Result<Func, Memory>
    ensures { IfOk result (IsCleaned func.now) }
{
    let graph = Graph::new(alloc, func)?;
    cleaned_graph(alloc, func, &graph)
}

fn cleaned_graph(alloc: Global, func: &Func, graph: &Graph) -> Result<Func, Memory>
    requires { IsGraphOf func.now.blocks graph.now }
    ensures { IfOk result (IsCleaned func.now) }
{
    let settled = Settled::new(alloc, graph)?;
    cleaned_rest(alloc, func, &settled)
}

fn cleaned_rest(alloc: Global, func: &Func, settled: &Settled) -> Result<Func, Memory>
    requires graph { IsGraphOf func.now.blocks settled.now.graph.now }
    requires right { IsRight settled.now }
    requires sound { IsSound (tables_in settled.now) (facts settled.now) }
    requires closed { IsClosed (tables_in settled.now) (facts settled.now) }
    ensures { IfOk result (IsCleaned func.now) }
{
    let needed = Needed::new(alloc, settled)?;
    let left = rebuilt(alloc, func, settled, &needed)?;
    Ok(left)
}
