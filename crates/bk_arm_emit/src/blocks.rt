// What a function begins with and how it returns, and what stands before a branch.
ghost use Rattle.std.specs.Prelude.{◌≡◌, ◌++◌, ◌-◌, map, OnOk};
ghost use Rattle.bk_arm_emit.specs.Blocks as spec;
ghost use Rattle.bk_arm_emit.specs.Lines.{inst};

use crate::insts::{byte, compute, copy, plain, skip, test, trap};
use crate::lines::put;
use crate::units::SCRATCH;
use crate::words::{STACK, put_load_by, put_number, put_store_by};
use bk_arm_isa::{Condition, DataOp, Inst, TestOp};
use bk_emit::Line;
use std::alloc::AllocError;

/// The register of the bound of the stack, and that of the return address.
const BOUND: u8 = 10;

const RETURN: u8 = 14;

/// Adds what a function begins with: trap 5 where the frame exceeds the stack that is left, else the frame is made and the
/// return address saved.
#[tactic(auto, using(crate::proofs::Pieces::three_put))]
pub(crate) fn put_entry(lines: &mut Vec<Line>, frame: u32) -> Result<(), AllocError>
    ensures { OnOk result (lines.new.items ≡ lines.old.items ++ map inst (spec.entry frame)) }
{
    put_number(lines, SCRATCH, u64::from(frame))?;
    put_guard(lines)?;
    put_store_by(lines, SCRATCH, RETURN, saved_offset(frame))
}

/// The offset of the word that keeps the return address.
fn saved_offset(frame: u32) -> u64
    ensures { result ≡ frame - 4 }
{
    u64::from(frame).saturating_sub(4)
}

/// Adds trap 5 where the stack pointer would go below the bound, else it goes there.
fn put_guard(lines: &mut Vec<Line>) -> Result<(), AllocError>
    ensures { OnOk result (lines.new.items ≡ lines.old.items ++ map inst spec.guard) }
{
    let insts = [
        compute(DataOp::Sub, SCRATCH, STACK, plain(SCRATCH)),
        test(TestOp::Cmp, SCRATCH, plain(BOUND)),
        skip(Condition::Cs),
        trap(5),
        copy(STACK, plain(SCRATCH)),
    ];
    put(lines, &insts)
}

/// Adds the return: the return address is loaded and the frame given back.
#[tactic(auto, using(crate::proofs::Pieces::three_put))]
pub(crate) fn put_leave(lines: &mut Vec<Line>, frame: u32) -> Result<(), AllocError>
    ensures { OnOk result (lines.new.items ≡ lines.old.items ++ map inst (spec.leave frame)) }
{
    put_load_by(lines, SCRATCH, RETURN, saved_offset(frame))?;
    put_number(lines, SCRATCH, u64::from(frame))?;
    put_back(lines)
}

/// Adds that the frame is given back, and that the function returns.
fn put_back(lines: &mut Vec<Line>) -> Result<(), AllocError>
    ensures { OnOk result (lines.new.items ≡ lines.old.items ++ map inst spec.back) }
{
    let back = Inst::Bx {
        condition: Condition::Al,
        rm: RETURN,
    };
    put(
        lines,
        &[compute(DataOp::Add, STACK, STACK, plain(SCRATCH)), back],
    )
}

/// Adds the copy of a register to another one.
pub(crate) fn put_copy(lines: &mut Vec<Line>, to: u8, from: u8) -> Result<(), AllocError>
    ensures { OnOk result (lines.new.items ≡ lines.old.items ++ map inst (spec.copy_to to from)) }
{
    put(lines, &[copy(to, plain(from))])
}

/// Adds a test of the low bit of a register.
pub(crate) fn put_test(lines: &mut Vec<Line>, control: u8) -> Result<(), AllocError>
    ensures { OnOk result (lines.new.items ≡ lines.old.items ++ map inst (spec.bit_test control)) }
{
    put(lines, &[test(TestOp::Tst, control, byte(1))])
}
