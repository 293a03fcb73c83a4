// The lines of the steps and the ends of blocks.
ghost use Rattle.std.specs.Prelude.{◌≡◌, ◌++◌, ◌≤◌, ◌^◌, map, flat_map, option_map, OnOk};
ghost use Rattle.bk_func.specs.Steps.{seen_step};
ghost use Rattle.bk_emit.specs.Blocks as spec;
ghost use Rattle.bk_emit.specs.Code.{value_lines, step_lines, block_lines};
ghost use Rattle.bk_emit.specs.Tables.{look, seen};

use crate::lines::Line;
use crate::machine::Machine;
use crate::table::{Entry, Regs};
use bk_func::{Kind, Loc, PlacedBlock, Step};
use std::alloc::AllocError;
use std::collections::BTreeMap;

/// A frame: its bytes, the words for the arguments and results of calls, and its slots behind them.
#[derive(Clone, Copy)]
pub struct Frame {
    pub bytes: u32,
    pub out: u32,
    pub slots: u32,
}

/// The offset of a slot: those begin behind the words of calls.
fn slot_offset<M: Machine>(frame: Frame, slot: u32) -> u64
    ensures value { result ≡ spec.slot_offset M.forms frame slot }
    ensures bound { result ≤ 2 ^ 40 }
{
    u64::from(M::word_bytes()) * (u64::from(frame.out) + u64::from(slot))
}

/// A register, or a word of the frame.
#[derive(Clone, Copy)]
pub enum Spot {
    Register(u8),
    Word(u32),
}

/// Where a value is: the word for exchanges stands behind the slots.
fn spot_of(frame: Frame, loc: Loc) -> Spot
    ensures { result ≡ spec.spot_of frame loc }
{
    match loc {
        Loc::Reg(reg) => Spot::Register(reg),
        Loc::Slot(slot) => Spot::Word(slot),
        Loc::Swap => Spot::Word(frame.slots),
    }
}

/// Adds a move of an edge.
fn put_move<M: Machine>(
    lines: &mut Vec<Line>,
    frame: Frame,
    from: Loc,
    to: Loc,
) -> Result<(), AllocError>
    ensures { OnOk result (lines.new.items ≡ lines.old.items ++ spec.move_lines M.forms frame from to) }
{
    match (spot_of(frame, from), spot_of(frame, to)) {
        (Spot::Register(a), Spot::Register(d)) => M::put_copy(lines, d, a),
        (Spot::Word(a), Spot::Register(d)) => M::put_load(lines, d, slot_offset::<M>(frame, a)),
        (Spot::Register(a), Spot::Word(d)) => M::put_store(lines, a, slot_offset::<M>(frame, d)),
        (Spot::Word(a), Spot::Word(d)) => {
            M::put_load(lines, M::scratch(), slot_offset::<M>(frame, a))?;
            M::put_store(lines, M::scratch(), slot_offset::<M>(frame, d))
        }
    }
}

/// The registers of a unit.
fn regs_of(args: &[u8], place: Option<u8>) -> Regs
    ensures { result ≡ spec.regs_of args.now place }
{
    Regs {
        d: place.unwrap_or(0),
        a: reg_at(args, 0),
        b: reg_at(args, 1),
        c: reg_at(args, 2),
        e: reg_at(args, 3),
    }
}

fn reg_at(args: &[u8], place: usize) -> u8
    ensures { result ≡ spec.reg_at args.now place }
{
    args.get(place).copied().unwrap_or(0)
}

/// Adds the steps of a block.
fn put_steps<M: Machine>(
    lines: &mut Vec<Line>,
    steps: &[Step],
    frame: Frame,
    entries: &BTreeMap<u32, Entry<'_>>,
) -> Result<(), AllocError>
    ensures { OnOk result (lines.new.items ≡ lines.old.items ++ flat_map (step_lines M.forms frame (look entries.now)) (map seen_step steps.now)) }
{
    for step in steps {
        put_step::<M>(lines, step, frame, entries)?;
    }
    Ok(())
}

fn put_step<M: Machine>(
    lines: &mut Vec<Line>,
    step: &Step,
    frame: Frame,
    entries: &BTreeMap<u32, Entry<'_>>,
) -> Result<(), AllocError>
    ensures { OnOk result (lines.new.items ≡ lines.old.items ++ step_lines M.forms frame (look entries.now) (seen_step step.now)) }
{
    match step {
        Step::Load { reg, slot } => M::put_load(lines, *reg, slot_offset::<M>(frame, *slot)),
        Step::Store { reg, slot } => M::put_store(lines, *reg, slot_offset::<M>(frame, *slot)),
        Step::Do {
            value,
            args,
            result: place,
        } => {
            let regs = regs_of(args.as_slice(), *place);
            put_value::<M>(lines, entries.get(value).copied(), regs, frame)
        }
        Step::Move { from, to } => put_move::<M>(lines, frame, *from, *to),
    }
}

/// Adds the unit of a value.
fn put_value<M: Machine>(
    lines: &mut Vec<Line>,
    entry: Option<Entry<'_>>,
    regs: Regs,
    frame: Frame,
) -> Result<(), AllocError>
    ensures { OnOk result (lines.new.items ≡ lines.old.items ++ value_lines M.forms frame regs (option_map seen entry.entry)) }
{
    match entry {
        Some(entry) => M::put_unit(lines, entry, regs, frame.bytes),
        None => Ok(()),
    }
}

/// Adds the code of a block, behind which `next` stands.
pub(crate) fn put_block<M: Machine>(
    lines: &mut Vec<Line>,
    block: &PlacedBlock,
    next: Option<u32>,
    frame: Frame,
    entries: &BTreeMap<u32, Entry<'_>>,
) -> Result<(), AllocError>
    ensures { OnOk result (lines.new.items ≡ lines.old.items ++ block_lines M.forms frame (look entries.now) block.now next) }
{
    put_steps::<M>(lines, &block.steps, frame, entries)?;
    put_end::<M>(lines, block, next, frame)
}

/// Adds the end of a block.
fn put_end<M: Machine>(
    lines: &mut Vec<Line>,
    block: &PlacedBlock,
    next: Option<u32>,
    frame: Frame,
) -> Result<(), AllocError>
    ensures { OnOk result (lines.new.items ≡ lines.old.items ++ spec.block_end M.forms block.now next frame.bytes) }
{
    match block.kind {
        Kind::Plain | Kind::First => put_jump(lines, block.succs.first().copied(), next),
        Kind::If => put_if::<M>(lines, block.control.unwrap_or(0), &block.succs, next),
        Kind::Ret => M::put_leave(lines, frame.bytes),
        Kind::Exit => M::put_exit(lines),
    }
}

/// Adds a jump to a block that is not the next.
fn put_jump(lines: &mut Vec<Line>, target: Option<u32>, next: Option<u32>) -> Result<(), AllocError>
    ensures { OnOk result (lines.new.items ≡ lines.old.items ++ spec.jump target next) }
{
    match target {
        Some(target) => {
            if next != Some(target) {
                lines.push(Line::Jump(target))?;
            }
            Ok(())
        }
        None => Ok(()),
    }
}

/// Adds a branch on the low bit of the control.
fn put_if<M: Machine>(
    lines: &mut Vec<Line>,
    control: u8,
    succs: &[u32],
    next: Option<u32>,
) -> Result<(), AllocError>
    ensures { OnOk result (lines.new.items ≡ lines.old.items ++ spec.branch M.forms control succs.now next) }
{
    match succs {
        [first, second] => {
            M::put_test(lines, control)?;
            put_branch(lines, *first, *second, next)
        }
        _ => Ok(()),
    }
}

fn put_branch(
    lines: &mut Vec<Line>,
    first: u32,
    second: u32,
    next: Option<u32>,
) -> Result<(), AllocError>
    ensures { OnOk result (lines.new.items ≡ lines.old.items ++ spec.branch_to first second next) }
{
    if next == Some(first) {
        lines.push(Line::Branch(false, second))?;
        Ok(())
    } else {
        lines.push(Line::Branch(true, first))?;
        put_jump(lines, Some(second), next)
    }
}
