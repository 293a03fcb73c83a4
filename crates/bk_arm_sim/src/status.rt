//! Flags and conditions.
ghost use Rattle.std.specs.Prelude.{◌≡◌, ◌<◌, ◌^◌, ◌+ℤ◌, pos, not};
ghost use Rattle.bk_num.specs.Word.{signed, fits_signed};
ghost use Rattle.bk_arm_isa.specs.Operands.{is_signed_ge, passes, bit, sum_flags, logic_flags};
ghost use Rattle.bk_arm_isa.specs.Machine.{condition_of};
ghost use Rattle.bk_arm_sim.specs.Status.{flags_of};

use crate::arithmetic::sum;
use bk_arm_isa::{Condition, Flags, Inst};
use bk_num::sext;

/// The flags of a number.
pub fn unpack(flags: u8) -> Flags
    ensures { result ≡ flags_of flags }
{
    Flags {
        negative: flags / 8 % 2 == 1,
        zero: flags / 4 % 2 == 1,
        carry: flags / 2 % 2 == 1,
        overflow: flags % 2 == 1,
    }
}

/// The number of the flags.
pub fn pack(flags: Flags) -> u8
    ensures value { flags_of result ≡ flags }
    ensures fits { result < 2 ^ 4 }
{
    flags.negative as u8 * 8 + flags.zero as u8 * 4 + flags.carry as u8 * 2 + flags.overflow as u8
}

fn is_signed_ge(flags: Flags) -> bool
    ensures { result ≡ is_signed_ge flags }
{
    flags.negative == flags.overflow
}

/// Whether an instruction under the condition is executed.
pub fn passes(condition: Condition, flags: Flags) -> bool
    ensures { result ≡ passes condition flags }
{
    match condition {
        Condition::Eq => flags.zero,
        Condition::Ne => !flags.zero,
        Condition::Cs => flags.carry,
        Condition::Cc => !flags.carry,
        Condition::Mi => flags.negative,
        Condition::Pl => !flags.negative,
        Condition::Vs => flags.overflow,
        Condition::Vc => !flags.overflow,
        Condition::Hi => flags.carry && !flags.zero,
        Condition::Ls => !flags.carry || flags.zero,
        Condition::Ge => is_signed_ge(flags),
        Condition::Lt => !is_signed_ge(flags),
        Condition::Gt => !flags.zero && is_signed_ge(flags),
        Condition::Le => flags.zero || !is_signed_ge(flags),
        Condition::Al => true,
    }
}

/// The condition of an instruction; UDF has none.
pub fn condition(inst: Inst) -> Condition
    ensures { result ≡ condition_of inst }
{
    match inst {
        Inst::Data { condition, .. }
        | Inst::Move { condition, .. }
        | Inst::Test { condition, .. }
        | Inst::Movw { condition, .. }
        | Inst::Movt { condition, .. }
        | Inst::Mul { condition, .. }
        | Inst::Mls { condition, .. }
        | Inst::Umull { condition, .. }
        | Inst::Smull { condition, .. }
        | Inst::Sdiv { condition, .. }
        | Inst::Udiv { condition, .. }
        | Inst::Clz { condition, .. }
        | Inst::Rbit { condition, .. }
        | Inst::Sxtb { condition, .. }
        | Inst::Sxth { condition, .. }
        | Inst::Uxtb { condition, .. }
        | Inst::Uxth { condition, .. }
        | Inst::Ldr { condition, .. }
        | Inst::Str { condition, .. }
        | Inst::Ldrb { condition, .. }
        | Inst::Strb { condition, .. }
        | Inst::Ldrh { condition, .. }
        | Inst::Strh { condition, .. }
        | Inst::B { condition, .. }
        | Inst::Bl { condition, .. }
        | Inst::Bx { condition, .. } => condition,
        Inst::Udf { .. } => Condition::Al,
    }
}

// Whether the signed sum does not fit 32 bits.
fn overflows(x: u32, y: u32, carry: bool) -> bool
    ensures { result ≡ not (fits_signed 32 ((signed 32 x +ℤ signed 32 y) +ℤ pos (bit carry))) }
{
    let total = sext(32, x as u64) + sext(32, y as u64) + carry as i64;
    total < -0x8000_0000 || total >= 0x8000_0000
}

/// The flags of a sum with a carry.
pub fn sum_flags(x: u32, y: u32, carry: bool) -> Flags
    ensures { result ≡ sum_flags x y carry }
{
    let result = sum(x, y, carry);
    Flags {
        negative: result >= 1 << 31,
        zero: result == 0,
        carry: x as u64 + y as u64 + carry as u64 >= 1 << 32,
        overflow: overflows(x, y, carry),
    }
}

/// The flags of a bitwise result, beside the carry and overflow from before.
pub fn logic_flags(bits: u32, flags: Flags) -> Flags
    ensures { result ≡ logic_flags bits flags }
{
    Flags {
        negative: bits >= 1 << 31,
        zero: bits == 0,
        carry: flags.carry,
        overflow: flags.overflow,
    }
}
