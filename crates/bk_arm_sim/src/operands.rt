//! Registers and second operands.
ghost use Rattle.std.specs.Prelude.{◌≡◌, ◌<◌, ◌^◌, ℕ, slice_index};
ghost use Rattle.bk_arm_isa.specs.Operands.{reg, operand, test_flags};

use crate::arithmetic::{inverted, shifted};
use crate::status::{logic_flags, sum_flags};
use bk_arm_isa::{Flags, Operand2, Shift, TestOp};

/// A register.
pub fn reg(regs: &[u64], k: u8) -> u32
    requires { (k : ℕ) → slice_index regs.now k < 2 ^ 32 }
    ensures { result ≡ reg regs.now k }
{
    match regs.get(k as usize) {
        Some(n) => *n as u32,
        None => 0,
    }
}

/// The second operand of data processing.
pub fn operand(regs: &[u64], operand2: Operand2) -> u32
    requires { (k : ℕ) → slice_index regs.now k < 2 ^ 32 }
    ensures { result ≡ operand regs.now operand2 }
{
    match operand2 {
        Operand2::Immediate { imm8, rotation } => {
            shifted(Shift::Ror, imm8 as u32, 2 * rotation as u32)
        }
        Operand2::ShiftImmediate { rm, shift, imm5 } => shifted(shift, reg(regs, rm), imm5 as u32),
        Operand2::ShiftRegister { rm, shift, rs } => {
            shifted(shift, reg(regs, rm), reg(regs, rs) % 256)
        }
    }
}

/// The flags after a test.
pub fn test_flags(op: TestOp, x: u32, y: u32, flags: Flags) -> Flags
    ensures { result ≡ test_flags op x y flags }
{
    match op {
        TestOp::Tst => logic_flags(x & y, flags),
        TestOp::Teq => logic_flags(x ^ y, flags),
        TestOp::Cmp => sum_flags(x, inverted(y), true),
        TestOp::Cmn => sum_flags(x, y, false),
    }
}
