// The whole allocation.
ghost use Rattle.std.specs.Prelude.{◌≡◌, map, IfOk};
ghost use Rattle.bk_callees.specs.Callees.{AreCallees};
ghost use Rattle.bk_live.specs.Live.{AllNextUses, IsOrdered};
ghost use Rattle.bk_alloc.specs.Blocks.{Next};
ghost use Rattle.bk_alloc.specs.Placement.{allotted, IsPlacement, IsPlacing};

use crate::edges::all_end_moves;
use crate::homes::Homes;
use crate::outgoing::outgoing;
use crate::parts::{Parts, allot};
use crate::plan::Plans;
use crate::steps::{Names, placed_blocks};
use bk_callees::Callees;
use bk_func::{Func, Memory, Package, Placed, PlacedBlock};
use bk_live::Table;
use bk_ops::Target;
use std::alloc::{AllocError, Global};

/// The function with its values in registers and slots: linear scan over the blocks in the order of the layout, as in Go's
/// `regalloc`.
///
/// Registers are taken in order, R0 to R9 and R12 on arm, X5 to X26 and X28 to X30 on riscv64; where none is open, the
/// value leaves whose next use is farthest. `orders` has the schedule of each block, in block order. The placement is the
/// one by the next uses of the function in these orders.
///
/// A word beyond the eighth of those that pass in registers, phis of one number, a signature of more words than a u32
/// counts, and a call of a name that the package does not have are answered as want of memory; no function in word form has
/// them.
pub fn allocate(
    alloc: Global,
    func: &Func,
    pkg: &Package,
    layout: &[u32],
    orders: &[Vec<u32>],
    target: Target,
) -> Result<Placed, Memory>
    ensures { (next : Next) → IsOrdered func.now (map (λ o. o.items) orders.now) → AllNextUses func.now (map (λ o. o.items) orders.now) next → IfOk result (IsPlacement next target pkg.now func.now layout.now (map (λ o. o.items) orders.now)) }
{
    let callees = Callees::new(alloc, pkg)?;
    allocate_by(alloc, func, pkg, &callees, layout, orders, target)
}

/// The same by the callees of the package, which serve any count of functions.
pub fn allocate_by(
    alloc: Global,
    func: &Func,
    pkg: &Package,
    callees: &Callees,
    layout: &[u32],
    orders: &[Vec<u32>],
    target: Target,
) -> Result<Placed, Memory>
    requires { AreCallees pkg.now callees.now }
    ensures { (next : Next) → IsOrdered func.now (map (λ o. o.items) orders.now) → AllNextUses func.now (map (λ o. o.items) orders.now) next → IfOk result (IsPlacement next target pkg.now func.now layout.now (map (λ o. o.items) orders.now)) }
{
    let parts = allotted(alloc, func, layout, orders, target)?;
    let (blocks, slots) = place(alloc, &parts, target)?;
    let out = outgoing(func, pkg, callees, target)?;
    Ok(Placed { blocks, slots, out })
}

/// The blocks with their values in registers.
fn allotted(
    alloc: Global,
    func: &Func,
    layout: &[u32],
    orders: &[Vec<u32>],
    target: Target,
) -> Result<Parts, Memory>
    ensures { (next : Next) → IsOrdered func.now (map (λ o. o.items) orders.now) → AllNextUses func.now (map (λ o. o.items) orders.now) next → IfOk result (λ parts. parts ≡ allotted next target func.now layout.now (map (λ o. o.items) orders.now)) }
{
    let table = Table::new(alloc, func, orders)?;
    let plans = Plans::new(alloc, &func.blocks, orders)?;
    let parts = allot(alloc, &table, &plans, layout, target)?;
    Ok(parts)
}

/// The placed blocks, and the count of slots.
fn place(
    alloc: Global,
    parts: &Parts,
    target: Target,
) -> Result<(Vec<PlacedBlock>, u32), AllocError>
    ensures { IfOk result (λ placed. IsPlacing target parts.now placed.0.items placed.1) }
{
    let ends = all_end_moves(alloc, parts)?;
    let homes = Homes::new(alloc, &parts.parts, &ends)?;
    let slots = homes.count();
    let names = Names::new(target, homes);
    let blocks = placed_blocks(alloc, &names, &parts.parts, &ends)?;
    Ok((blocks, slots))
}
