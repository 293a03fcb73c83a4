// The machine arm, and the piece of a function for it.
ghost use Rattle.std.specs.Prelude.{◌≡◌, IfOk};
ghost use Rattle.bk_arm_emit.specs.Code.{arm, IsPiece};

use crate::{blocks, insts, lines, units, words, written};
use bk_emit::{Branch, Entry, Handle, Line, Machine, Memory, Piece, Regs};
use bk_func::{Func, Placed};
use std::alloc::{AllocError, Global};

/// The machine arm.
pub struct Arm;

impl Machine for Arm {
    ghost forms = { arm };

    fn word_bytes() -> u8 {
        4
    }

    fn scratch() -> u8 {
        units::SCRATCH
    }

    fn put_entry(lines: &mut Vec<Line>, frame: u32) -> Result<(), AllocError> {
        blocks::put_entry(lines, frame)
    }

    fn put_leave(lines: &mut Vec<Line>, frame: u32) -> Result<(), AllocError> {
        blocks::put_leave(lines, frame)
    }

    fn put_load(lines: &mut Vec<Line>, reg: u8, offset: u64) -> Result<(), AllocError> {
        words::put_load(lines, reg, offset)
    }

    fn put_store(lines: &mut Vec<Line>, reg: u8, offset: u64) -> Result<(), AllocError> {
        words::put_store(lines, reg, offset)
    }

    fn put_copy(lines: &mut Vec<Line>, to: u8, from: u8) -> Result<(), AllocError> {
        blocks::put_copy(lines, to, from)
    }

    fn put_unit(
        lines: &mut Vec<Line>,
        entry: Entry<'_>,
        regs: Regs,
        frame: u32,
    ) -> Result<(), AllocError> {
        let value = entry.value;
        units::put_unit(lines, value.op, regs, value.int, entry.handle, frame)
    }

    fn put_test(lines: &mut Vec<Line>, control: u8) -> Result<(), AllocError> {
        blocks::put_test(lines, control)
    }

    fn put_exit(lines: &mut Vec<Line>) -> Result<(), AllocError> {
        lines::put(lines, &[insts::trap(6)])
    }

    fn sizes(alloc: Global, branches: &[Branch], lines: u32) -> Result<Vec<u8>, Memory> {
        Ok(written::sizes_of(alloc, branches)?)
    }

    fn put_jump(code: &mut Vec<u32>, size: u8, distance: i64) -> Result<(), AllocError> {
        written::put_jump(code, distance)
    }

    fn put_branch(
        code: &mut Vec<u32>,
        bit: bool,
        size: u8,
        distance: i64,
    ) -> Result<(), AllocError> {
        written::put_branch(code, bit, distance)
    }
}

/// The code of a function whose values have places, in a frame of so many bytes.
///
/// `keys` are the handles of the function's keys, in the order in which `keys_of` lists them. An instruction whose fields
/// don't fit has the word of UDF 0, at which the machine faults. Code of more than 2^32 words is answered as want of memory.
pub fn emit(
    alloc: Global,
    func: &Func,
    placed: &Placed,
    frame: u32,
    keys: &[Handle],
) -> Result<Piece, Memory>
    ensures { IfOk result (IsPiece func.now placed.now frame keys.now) }
{
    bk_emit::emit::<Arm>(alloc, func, placed, frame, keys)
}
