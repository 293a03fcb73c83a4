// Instructions under no condition, and those that stand for fields that fit none.
ghost use Rattle.std.specs.Prelude.{◌≡◌, ◌+◌, ◌≤◌, ◌<◌, ◌^◌, Some};
ghost use Rattle.bk_arm_emit.specs.Insts as spec;

use bk_arm_isa::{Condition, DataOp, Inst, MoveOp, Operand2, Shift, TestOp};
use bk_num::{residue, rotl};

const ALWAYS: Condition = Condition::Al;

/// An instruction at which the machine faults.
pub(crate) fn fault() -> Inst
    ensures { result ≡ spec.fault }
{
    Inst::Udf { imm16: 0 }
}

/// A register as the second operand.
pub(crate) fn plain(rm: u8) -> Operand2
    ensures { result ≡ spec.plain rm }
{
    Operand2::ShiftImmediate {
        rm,
        shift: Shift::Lsl,
        imm5: 0,
    }
}

/// A number below 256 as the second operand.
pub(crate) fn byte(imm8: u8) -> Operand2
    ensures { result ≡ spec.byte imm8 }
{
    Operand2::Immediate { imm8, rotation: 0 }
}

/// Data processing into a register.
pub(crate) fn compute(op: DataOp, rd: u8, rn: u8, operand2: Operand2) -> Inst
    ensures { result ≡ spec.compute op rd rn operand2 }
{
    Inst::Data {
        condition: ALWAYS,
        op,
        rd,
        rn,
        operand2,
    }
}

/// Data processing into the flags.
pub(crate) fn test(op: TestOp, rn: u8, operand2: Operand2) -> Inst
    ensures { result ≡ spec.test op rn operand2 }
{
    Inst::Test {
        condition: ALWAYS,
        op,
        rn,
        operand2,
    }
}

/// A move into a register.
pub(crate) fn copy(rd: u8, operand2: Operand2) -> Inst
    ensures { result ≡ spec.copy rd operand2 }
{
    copy_if(ALWAYS, rd, operand2)
}

/// A move into a register where a condition holds.
pub(crate) fn copy_if(condition: Condition, rd: u8, operand2: Operand2) -> Inst
    ensures { result ≡ spec.copy_if condition rd operand2 }
{
    Inst::Move {
        condition,
        op: MoveOp::Mov,
        rd,
        operand2,
    }
}

/// A branch over the next instruction where a condition holds.
pub(crate) fn skip(condition: Condition) -> Inst
    ensures { result ≡ spec.skip condition }
{
    Inst::B {
        condition,
        imm24: 0,
    }
}

/// A register and a number of 32 bits.
pub(crate) fn with_number(op: DataOp, rd: u8, rn: u8, number: i64) -> Inst
    ensures { result ≡ spec.with_number op rd rn number }
{
    match immediate(number) {
        Some(operand2) => compute(op, rd, rn, operand2),
        None => fault(),
    }
}

/// A number of 32 bits as an immediate with the least rotation.
fn immediate(number: i64) -> Option<Operand2>
    ensures { result ≡ spec.immediate number }
{
    immediate_from(16, 0, residue(32, i128::from(number)))
}

/// The immediate that is a number, with the least of so many rotations from one on.
#[tactic(auto, unfolding(crate::specs::Insts::immediate_from))]
fn immediate_from(count: u8, rotation: u8, number: u64) -> Option<Operand2>
    requires { count + rotation ≤ 16 }
    ensures { result ≡ spec.immediate_from count rotation number }
{
    if count == 0 {
        return None;
    }
    let turned = rotl(32, number, 2 * u64::from(rotation));
    if turned < 256 {
        Some(Operand2::Immediate {
            imm8: turned as u8,
            rotation,
        })
    } else {
        immediate_from(count - 1, rotation + 1, number)
    }
}

/// A number, at most `most`, which stands for those that are above it or negative.
pub(crate) fn capped(most: u64, int: i64) -> u64
    ensures value { result ≡ spec.capped most int }
    ensures bound { result ≤ most }
{
    if int < 0 || int.cast_unsigned() > most {
        most
    } else {
        int.cast_unsigned()
    }
}

/// A register shifted by a count.
pub(crate) fn by_count(shift: Shift, rm: u8, count: i64) -> Operand2
    ensures { result ≡ spec.by_count shift rm count }
{
    Operand2::ShiftImmediate {
        rm,
        shift,
        imm5: capped(32, count) as u8,
    }
}

/// The load of 4, 2 or 1 bytes.
pub(crate) fn load(width: u8, rt: u8, rn: u8, offset: u64) -> Inst
    ensures { result ≡ spec.load width rt rn offset }
{
    let condition = ALWAYS;
    if width == 4 && offset < 4096 {
        Inst::Ldr {
            condition,
            rt,
            rn,
            imm12: offset as u16,
        }
    } else if width == 2 && offset < 256 {
        Inst::Ldrh {
            condition,
            rt,
            rn,
            imm8: offset as u8,
        }
    } else if width == 1 && offset < 4096 {
        Inst::Ldrb {
            condition,
            rt,
            rn,
            imm12: offset as u16,
        }
    } else {
        fault()
    }
}

/// The store of 4, 2 or 1 bytes.
pub(crate) fn store(width: u8, rt: u8, rn: u8, offset: u64) -> Inst
    ensures { result ≡ spec.store width rt rn offset }
{
    let condition = ALWAYS;
    if width == 4 && offset < 4096 {
        Inst::Str {
            condition,
            rt,
            rn,
            imm12: offset as u16,
        }
    } else if width == 2 && offset < 256 {
        Inst::Strh {
            condition,
            rt,
            rn,
            imm8: offset as u8,
        }
    } else if width == 1 && offset < 4096 {
        Inst::Strb {
            condition,
            rt,
            rn,
            imm12: offset as u16,
        }
    } else {
        fault()
    }
}

/// A trap with a number.
pub(crate) fn trap(number: i64) -> Inst
    ensures { result ≡ spec.trap number }
{
    let imm16 = if number >= 0 && number < 0x1_0000 {
        number as u16
    } else {
        0
    };
    Inst::Udf { imm16 }
}
