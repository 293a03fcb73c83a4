// What a function begins and ends with, copies between registers, and the test of a bit.
ghost use Rattle.std.specs.Prelude.{◌≡◌, ◌++◌, ◌-◌, ◌≤◌, ◌^◌, map, OnOk};
ghost use Rattle.bk_rv_emit.specs.Blocks as spec;
ghost use Rattle.bk_rv_emit.specs.Lines.{inst};

use crate::lines::put;
use crate::units::{SCRATCH, STACK, lower, upper};
use crate::words::{put_load_by, put_store_by};
use bk_emit::Line;
use bk_rv_isa::{BranchOp, ImmediateOp, Inst, RegisterOp};
use std::alloc::AllocError;

/// The register of the return address, and that of the bound of the stack.
const RETURN: u8 = 1;

const BOUND: u8 = 27;

/// The most bytes of a frame that one instruction adds and takes away.
const SHORT: u32 = 2040;

/// Adds what a function begins with: trap 5 where the frame exceeds the stack that is left, else the frame is made and the
/// return address saved.
pub(crate) fn put_entry(lines: &mut Vec<Line>, bytes: u32) -> Result<(), AllocError>
    ensures { OnOk result (lines.new.items ≡ lines.old.items ++ map inst (spec.entry bytes)) }
{
    put_below(lines, bytes)?;
    put_guard(lines)?;
    put_store_by(lines, SCRATCH, RETURN, saved_offset(bytes))
}

/// The offset of the word that keeps the return address.
fn saved_offset(bytes: u32) -> u64
    ensures value { result ≡ bytes - 8 }
    ensures bound { result ≤ 2 ^ 40 }
{
    u64::from(bytes).saturating_sub(8)
}

/// Adds where the stack pointer goes.
fn put_below(lines: &mut Vec<Line>, bytes: u32) -> Result<(), AllocError>
    ensures { OnOk result (lines.new.items ≡ lines.old.items ++ map inst (spec.below bytes)) }
{
    let count = i64::from(bytes);
    if bytes <= SHORT {
        return put(
            lines,
            &[Inst::OpImm(ImmediateOp::Addi, SCRATCH, STACK, -count)],
        );
    }
    let insts = [
        Inst::Lui(SCRATCH, upper(count)),
        Inst::OpImm(ImmediateOp::Addi, SCRATCH, SCRATCH, lower(count)),
        Inst::Op(RegisterOp::Sub, SCRATCH, STACK, SCRATCH),
    ];
    put(lines, &insts)
}

/// Adds trap 5 where the stack pointer would go below the bound, else it goes there.
fn put_guard(lines: &mut Vec<Line>) -> Result<(), AllocError>
    ensures { OnOk result (lines.new.items ≡ lines.old.items ++ map inst spec.guard) }
{
    let insts = [
        Inst::Branch(BranchOp::Bgeu, SCRATCH, BOUND, 12),
        Inst::OpImm(ImmediateOp::Addi, SCRATCH, 0, 5),
        Inst::Ebreak,
        Inst::OpImm(ImmediateOp::Addi, STACK, SCRATCH, 0),
    ];
    put(lines, &insts)
}

/// Adds the return from a frame of so many bytes: the return address is loaded and the frame given back.
pub(crate) fn put_leave(lines: &mut Vec<Line>, bytes: u32) -> Result<(), AllocError>
    ensures { OnOk result (lines.new.items ≡ lines.old.items ++ map inst (spec.leave bytes)) }
{
    put_load_by(lines, SCRATCH, RETURN, saved_offset(bytes))?;
    put_above(lines, bytes)?;
    put(lines, &[Inst::Jalr(0, RETURN, 0)])
}

/// Adds that the frame is given back.
fn put_above(lines: &mut Vec<Line>, bytes: u32) -> Result<(), AllocError>
    ensures { OnOk result (lines.new.items ≡ lines.old.items ++ map inst (spec.above bytes)) }
{
    let count = i64::from(bytes);
    if bytes <= SHORT {
        return put(
            lines,
            &[Inst::OpImm(ImmediateOp::Addi, STACK, STACK, count)],
        );
    }
    let insts = [
        Inst::Lui(SCRATCH, upper(count)),
        Inst::OpImm(ImmediateOp::Addi, SCRATCH, SCRATCH, lower(count)),
        Inst::Op(RegisterOp::Add, STACK, STACK, SCRATCH),
    ];
    put(lines, &insts)
}

/// Adds the copy of a register to another one.
pub(crate) fn put_copy(lines: &mut Vec<Line>, to: u8, from: u8) -> Result<(), AllocError>
    ensures { OnOk result (lines.new.items ≡ lines.old.items ++ map inst (spec.copy to from)) }
{
    put(lines, &[Inst::OpImm(ImmediateOp::Addi, to, from, 0)])
}

/// Adds the test of the low bit of a register.
pub(crate) fn put_test(lines: &mut Vec<Line>, control: u8) -> Result<(), AllocError>
    ensures { OnOk result (lines.new.items ≡ lines.old.items ++ map inst (spec.test control)) }
{
    put(
        lines,
        &[Inst::OpImm(ImmediateOp::Andi, SCRATCH, control, 1)],
    )
}
