// Machines, by what their code is made of.
ghost use Rattle.std.specs.Prelude.{◌≡◌, ◌≤◌, ◌≤ℤ◌, ◌++◌, ◌^◌, pos, neg_ℤ, IfOk, OnOk};
ghost use Rattle.bk_fixup.specs.Sizes.{AreBranches};
ghost use Rattle.bk_emit.specs.Forms.{Forms};
ghost use Rattle.bk_emit.specs.Tables.{seen};

use crate::lines::Line;
use crate::table::{Entry, Regs};
use bk_fixup::Branch;
use bk_func::Memory;
use std::alloc::{AllocError, Global};

/// A machine that code is made for. An offset counts bytes from the stack pointer.
pub trait Machine {
    // What its code is made of.
    ghost forms: { Forms };

    /// The bytes of a word of the frame.
    fn word_bytes() -> u8
        ensures value { result ≡ forms.word }
        ensures bound { result ≤ 8 };

    /// The register that is free inside a unit.
    fn scratch() -> u8
        ensures { result ≡ forms.scratch };

    /// Adds what a function begins with, in a frame of so many bytes.
    fn put_entry(lines: &mut Vec<Line>, frame: u32) -> Result<(), AllocError>
        ensures { OnOk result (lines.new.items ≡ lines.old.items ++ forms.entry frame) };

    /// Adds the return from a frame of so many bytes.
    fn put_leave(lines: &mut Vec<Line>, frame: u32) -> Result<(), AllocError>
        ensures { OnOk result (lines.new.items ≡ lines.old.items ++ forms.leave frame) };

    /// Adds the load of a register from the word at this offset.
    fn put_load(lines: &mut Vec<Line>, reg: u8, offset: u64) -> Result<(), AllocError>
        requires { offset ≤ 2 ^ 40 }
        ensures { OnOk result (lines.new.items ≡ lines.old.items ++ forms.load reg offset) };

    /// Adds the store of a register to the word at this offset.
    fn put_store(lines: &mut Vec<Line>, reg: u8, offset: u64) -> Result<(), AllocError>
        requires { offset ≤ 2 ^ 40 }
        ensures { OnOk result (lines.new.items ≡ lines.old.items ++ forms.store reg offset) };

    /// Adds the copy of register `from` to register `to`.
    fn put_copy(lines: &mut Vec<Line>, to: u8, from: u8) -> Result<(), AllocError>
        ensures { OnOk result (lines.new.items ≡ lines.old.items ++ forms.copy to from) };

    /// Adds the unit of a value with these registers, in a frame of so many bytes.
    fn put_unit(
        lines: &mut Vec<Line>,
        entry: Entry<'_>,
        regs: Regs,
        frame: u32,
    ) -> Result<(), AllocError>
        ensures { OnOk result (lines.new.items ≡ lines.old.items ++ forms.unit (seen entry.entry) regs frame) };

    /// Adds a test of the low bit of a register, for the branch behind it.
    fn put_test(lines: &mut Vec<Line>, control: u8) -> Result<(), AllocError>
        ensures { OnOk result (lines.new.items ≡ lines.old.items ++ forms.test control) };

    /// Adds the end of a program.
    fn put_exit(lines: &mut Vec<Line>) -> Result<(), AllocError>
        ensures { OnOk result (lines.new.items ≡ lines.old.items ++ forms.exit) };

    /// The sizes in words of branches among so many lines.
    fn sizes(alloc: Global, branches: &[Branch], lines: u32) -> Result<Vec<u8>, Memory>
        requires { AreBranches branches.now lines }
        ensures { IfOk result (λ sizes. forms.sized branches.now sizes.items) };

    /// Adds the words of a jump of this size over a distance in bytes.
    fn put_jump(code: &mut Vec<u32>, size: u8, distance: i64) -> Result<(), AllocError>
        requires { neg_ℤ (pos (2 ^ 40)) ≤ℤ distance }
        ensures { OnOk result (code.new.items ≡ code.old.items ++ forms.jump size distance) };

    /// Adds the words of a branch of this size, where the bit that was tested is `bit`, over a distance in bytes.
    fn put_branch(code: &mut Vec<u32>, bit: bool, size: u8, distance: i64) -> Result<(), AllocError>
        requires { neg_ℤ (pos (2 ^ 40)) ≤ℤ distance }
        ensures { OnOk result (code.new.items ≡ code.old.items ++ forms.branch bit size distance) };
}
