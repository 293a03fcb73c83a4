// Numbers in registers, and words of the frame, near the stack pointer and far from it.
ghost use Rattle.std.specs.Prelude.{◌≡◌, ◌++◌, ◌∷◌, [], ◌≤◌, ◌^◌, map, OnOk};
ghost use Rattle.bk_arm_emit.specs.Insts.{number};
ghost use Rattle.bk_arm_emit.specs.Lines.{inst};
ghost use Rattle.bk_arm_emit.specs.Words as spec;

use crate::insts::{compute, load, plain, store};
use crate::lines::put;
use bk_arm_isa::{Condition, DataOp, Inst};
use bk_emit::Line;
use std::alloc::AllocError;

/// The stack pointer.
pub(crate) const STACK: u8 = 13;

/// The register that is free between the entry and the return: it held the return address.
const FREE: u8 = 14;

/// The least offset that a load or a store doesn't reach from the stack pointer.
const FAR: u64 = 4096;

/// Adds that the low 32 bits of a number go to a register.
pub(crate) fn put_number(lines: &mut Vec<Line>, reg: u8, low: u64) -> Result<(), AllocError>
    ensures { OnOk result (lines.new.items ≡ lines.old.items ++ map inst (number reg low)) }
{
    let high = low / 0x1_0000 % 0x1_0000;
    let movw = Inst::Movw {
        condition: Condition::Al,
        rd: reg,
        imm16: (low % 0x1_0000) as u16,
    };
    if high == 0 {
        return put(lines, &[movw]);
    }
    let movt = Inst::Movt {
        condition: Condition::Al,
        rd: reg,
        imm16: high as u16,
    };
    put(lines, &[movw, movt])
}

/// Adds that a register takes the address of a far word.
#[tactic(auto, using(crate::proofs::Pieces::two_put))]
fn put_far(lines: &mut Vec<Line>, reg: u8, offset: u64) -> Result<(), AllocError>
    ensures { OnOk result (lines.new.items ≡ lines.old.items ++ map inst (spec.far reg offset)) }
{
    put_number(lines, reg, offset)?;
    put(lines, &[compute(DataOp::Add, reg, reg, plain(STACK))])
}

/// Adds the load of a register from the word at this offset from the stack pointer.
pub(crate) fn put_load(lines: &mut Vec<Line>, reg: u8, offset: u64) -> Result<(), AllocError>
    ensures { OnOk result (lines.new.items ≡ lines.old.items ++ map inst (spec.load_at reg offset)) }
{
    put_load_by(lines, FREE, reg, offset)
}

/// Adds the store of a register to the word at this offset from the stack pointer.
pub(crate) fn put_store(lines: &mut Vec<Line>, reg: u8, offset: u64) -> Result<(), AllocError>
    ensures { OnOk result (lines.new.items ≡ lines.old.items ++ map inst (spec.store_at reg offset)) }
{
    put_store_by(lines, FREE, reg, offset)
}

/// Adds the load of a register; `by` takes the address of a far word.
#[tactic(auto, using(crate::proofs::Pieces::two_put))]
pub(crate) fn put_load_by(
    lines: &mut Vec<Line>,
    by: u8,
    reg: u8,
    offset: u64,
) -> Result<(), AllocError>
    ensures { OnOk result (lines.new.items ≡ lines.old.items ++ map inst (spec.load_by by reg offset)) }
{
    if offset < FAR {
        return put(lines, &[load(4, reg, STACK, offset)]);
    }
    put_far(lines, by, offset)?;
    put(lines, &[load(4, reg, by, 0)])
}

/// Adds the store of a register; `by` takes the address of a far word.
#[tactic(auto, using(crate::proofs::Pieces::two_put))]
pub(crate) fn put_store_by(
    lines: &mut Vec<Line>,
    by: u8,
    reg: u8,
    offset: u64,
) -> Result<(), AllocError>
    ensures { OnOk result (lines.new.items ≡ lines.old.items ++ map inst (spec.store_by by reg offset)) }
{
    if offset < FAR {
        return put(lines, &[store(4, reg, STACK, offset)]);
    }
    put_far(lines, by, offset)?;
    put(lines, &[store(4, reg, by, 0)])
}
