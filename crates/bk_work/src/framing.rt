// A lowered function in registers and slots, in its frame.
ghost use Rattle.std.specs.Prelude.{◌≡◌, ◌≤◌, ◌<◌, ◌+◌, ℕ, false, length, map, IfErr, IfOk, IsOk, OnOk};
ghost use Rattle.bk_callees.specs.Callees.{AreCallees};
ghost use Rattle.bk_calls.specs.Frame.{frame_bytes, need};
ghost use Rattle.bk_func.specs.Limits.{most_frame};
ghost use Rattle.bk_graph.specs.Critical.{without_critical};
ghost use Rattle.bk_graph.specs.Joined.{IsJoined};
ghost use Rattle.bk_sched.specs.Schedule.{IsSchedule};
ghost use Rattle.bk_work.specs.Each.{Each};
ghost use Rattle.bk_work.specs.Framed.{IsFramed, IsPlaced, IsTooDeep};
ghost use Rattle.bk_work.specs.Stops.{IfRefused};

use crate::listed::put;
use crate::refusals::{Cause, Stop};
use bk_alloc::allocate_by;
use bk_callees::Callees;
use bk_calls::frame_of;
use bk_func::{
    Block, Func, MOST_IN_SIGNATURE, MOST_VALUES_MADE, Memory, Package, Placed, Sig, copy_func,
};
use bk_graph::{is_joined, layout, split_critical};
use bk_ops::Target;
use bk_sched::{has_own_numbers, schedule};
use std::alloc::Global;
use std::marker::Model;

/// A function whose values have places, and the bytes of its frame.
#[derive(Drop)]
pub struct Framed {
    /// The function with a block of its own on each edge that needs one for its moves.
    pub(crate) func: Func,
    pub(crate) placed: Placed,
    pub(crate) frame: u32,
}

impl Model for Framed {
    ghost use Rattle.bk_work.specs.Framed.{FramedRecord};

    ghost Value = { FramedRecord };

    ghost view = { λ it. record { func = it.func; placed = it.placed; frame = it.frame } };
}

/// Gives the values of a lowered function their places, and the function its frame: the steps in their order.
pub(crate) fn in_frame(
    alloc: Global,
    pkg: &Package,
    callees: &Callees,
    target: Target,
    func: &Func,
) -> Result<Framed, Stop>
    requires { AreCallees pkg.now callees.now }
    ensures framed { IfOk result (IsFramed pkg.now target func.now) }
    ensures cause { IfErr result (λ stop. IfRefused stop (λ cause. (bytes : ℕ) × IsTooDeep pkg.now target func.now bytes × (cause ≡ Cause.Frame bytes))) }
{
    // Moves stand where a block is entered from one block alone, or left to one alone.
    let func = split(alloc, func)?;
    // Places go by the order of blocks and of the values in them.
    let placed = placed(alloc, pkg, callees, target, &func)?;
    // The frame has a word for each slot.
    let frame = frame(&func, &placed, target)?;
    Ok(Framed {
        func,
        placed,
        frame,
    })
}

/// The function with an empty block on each critical edge.
fn split(alloc: Global, func: &Func) -> Result<Func, Memory>
    ensures { IfOk result (λ split. split ≡ without_critical func.now) }
{
    let mut split = copy_func(alloc, func)?;
    ask_joined(alloc, &split)?;
    split_critical(alloc, &mut split)?;
    Ok(split)
}

/// Functions in form are joined, and the steps before keep edges so: each of them stands at both of its ends.
fn ask_joined(alloc: Global, func: &Func) -> Result<(), Memory>
    ensures { OnOk result (IsJoined func.now) }
{
    if is_joined(alloc, func)? {
        Ok(())
    } else {
        Err(Memory)
    }
}

fn placed(
    alloc: Global,
    pkg: &Package,
    callees: &Callees,
    target: Target,
    func: &Func,
) -> Result<Placed, Memory>
    requires { AreCallees pkg.now callees.now }
    ensures { IfOk result (IsPlaced pkg.now target func.now) }
{
    ask_joined(alloc, func)?;
    let layout = layout(alloc, func)?;
    let orders = orders(alloc, &func.blocks)?;
    allocate_by(alloc, func, pkg, callees, &layout, &orders, target)
}

/// The order of each block's values, in block order.
fn orders(alloc: Global, blocks: &[Block]) -> Result<Vec<Vec<u32>>, Memory>
    ensures { IfOk result (λ orders. Each IsSchedule blocks.now (map (λ o. o.items) orders.items)) }
{
    let mut orders = Vec::with_capacity(alloc, blocks.len())?;
    for block in blocks {
        let order = order(alloc, block)?;
        put(&mut orders, order)?;
    }
    Ok(orders)
}

/// A text has no number twice, and a step gives values the numbers after the greatest.
fn order(alloc: Global, block: &Block) -> Result<Vec<u32>, Memory>
    ensures { IfOk result (λ order. IsSchedule block.now order.items) }
{
    if has_own_numbers(alloc, block)? {
        schedule(alloc, block)
    } else {
        Err(Memory)
    }
}

/// The most words of a callee's signature: two for each argument and result.
const OUT_LIMIT: u32 = 2 * MOST_IN_SIGNATURE as u32;

/// The most slots: one for each value.
const SLOT_LIMIT: u32 = MOST_VALUES_MADE as u32;

/// The bytes of the frame. A package keeps the limits on signatures, and rewriting that on values.
fn frame(func: &Func, placed: &Placed, target: Target) -> Result<u32, Stop>
    ensures bytes { IfOk result (λ frame. frame ≡ frame_bytes target placed.now.out placed.now.slots) }
    ensures within { IsOk result → need target placed.now.out placed.now.slots func.now.sig ≤ most_frame }
    ensures cause { IfErr result (λ stop. IfRefused stop (λ cause. (cause ≡ Cause.Frame (need target placed.now.out placed.now.slots func.now.sig)) × (most_frame < need target placed.now.out placed.now.slots func.now.sig))) }
{
    if placed.out > OUT_LIMIT || placed.slots > SLOT_LIMIT || is_long(&func.sig) {
        return Err(Stop::Memory);
    }
    Ok(frame_of(placed.out, placed.slots, &func.sig, target)?)
}

fn is_long(sig: &Sig) -> bool
    ensures { result ≡ false → length sig.now.args + length sig.now.results ≤ 64 }
{
    let args = sig.args.len();
    args > MOST_IN_SIGNATURE || sig.results.len() > MOST_IN_SIGNATURE - args
}
