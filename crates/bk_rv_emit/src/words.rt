// Words of the frame, near the stack pointer and far from it.
ghost use Rattle.std.specs.Prelude.{◌≡◌, ◌++◌, ◌≤◌, ◌^◌, map, OnOk};
ghost use Rattle.bk_rv_emit.specs.Lines.{inst};
ghost use Rattle.bk_rv_emit.specs.Words as spec;

use crate::lines::put;
use crate::units::{STACK, lower, upper};
use bk_emit::Line;
use bk_rv_isa::{Inst, LoadOp, RegisterOp, StoreOp};
use std::alloc::AllocError;

/// The least offset that a load or a store doesn't reach from the stack pointer.
const FAR: u64 = 2048;

/// The register that is free between the entry and the return: it held the return address.
const FREE: u8 = 1;

/// Adds the load of a register from the word at this offset from the stack pointer.
pub(crate) fn put_load(lines: &mut Vec<Line>, reg: u8, offset: u64) -> Result<(), AllocError>
    requires { offset ≤ 2 ^ 40 }
    ensures { OnOk result (lines.new.items ≡ lines.old.items ++ map inst (spec.load_at reg offset)) }
{
    put_load_by(lines, FREE, reg, offset)
}

/// Adds the store of a register to the word at this offset from the stack pointer.
pub(crate) fn put_store(lines: &mut Vec<Line>, reg: u8, offset: u64) -> Result<(), AllocError>
    requires { offset ≤ 2 ^ 40 }
    ensures { OnOk result (lines.new.items ≡ lines.old.items ++ map inst (spec.store_at reg offset)) }
{
    put_store_by(lines, FREE, reg, offset)
}

/// Adds the load of a register; `by` takes part of the address of a far word.
pub(crate) fn put_load_by(
    lines: &mut Vec<Line>,
    by: u8,
    reg: u8,
    offset: u64,
) -> Result<(), AllocError>
    requires { offset ≤ 2 ^ 40 }
    ensures { OnOk result (lines.new.items ≡ lines.old.items ++ map inst (spec.load_by by reg offset)) }
{
    let near = offset as i64;
    if offset < FAR {
        return put(lines, &[Inst::Load(LoadOp::Ld, reg, STACK, near)]);
    }
    let insts = [
        Inst::Lui(by, upper(near)),
        Inst::Op(RegisterOp::Add, by, by, STACK),
        Inst::Load(LoadOp::Ld, reg, by, lower(near)),
    ];
    put(lines, &insts)
}

/// Adds the store of a register; `by` takes part of the address of a far word.
pub(crate) fn put_store_by(
    lines: &mut Vec<Line>,
    by: u8,
    reg: u8,
    offset: u64,
) -> Result<(), AllocError>
    requires { offset ≤ 2 ^ 40 }
    ensures { OnOk result (lines.new.items ≡ lines.old.items ++ map inst (spec.store_by by reg offset)) }
{
    let near = offset as i64;
    if offset < FAR {
        return put(lines, &[Inst::Store(StoreOp::Sd, reg, STACK, near)]);
    }
    let insts = [
        Inst::Lui(by, upper(near)),
        Inst::Op(RegisterOp::Add, by, by, STACK),
        Inst::Store(StoreOp::Sd, reg, by, lower(near)),
    ];
    put(lines, &insts)
}
