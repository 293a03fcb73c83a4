//! The words of each format.
ghost use Rattle.std.specs.Prelude.{◌≡◌, ◌<◌, ◌+◌, ◌-◌, ◌^◌, if◌then◌else◌, nat_lt, Some, None};
ghost use Rattle.bk_num.specs.Word.{fits_signed, residue};
ghost use Rattle.bk_arm_isa.specs.Encoding.{condition_number, data_opcode, move_opcode, test_opcode, shift_number, is_amount, takes, placed, processed, compared, wide, memory, half, branch, undefined};

use crate::{Condition, DataOp, MoveOp, Operand2, Shift, TestOp};
use bk_num::residue;

pub(crate) fn data_opcode(op: DataOp) -> u32
    ensures { result ≡ data_opcode op }
{
    match op {
        DataOp::And => 0,
        DataOp::Eor => 1,
        DataOp::Sub => 2,
        DataOp::Rsb => 3,
        DataOp::Add => 4,
        DataOp::Adc => 5,
        DataOp::Sbc => 6,
        DataOp::Rsc => 7,
        DataOp::Orr => 12,
        DataOp::Bic => 14,
    }
}

pub(crate) fn move_opcode(op: MoveOp) -> u32
    ensures { result ≡ move_opcode op }
{
    match op {
        MoveOp::Mov => 13,
        MoveOp::Mvn => 15,
    }
}

fn test_opcode(op: TestOp) -> u32
    ensures { result ≡ test_opcode op }
{
    match op {
        TestOp::Tst => 8,
        TestOp::Teq => 9,
        TestOp::Cmp => 10,
        TestOp::Cmn => 11,
    }
}

fn condition_number(condition: Condition) -> u32
    ensures { result ≡ condition_number condition }
{
    condition as u32
}

fn shift_number(shift: Shift) -> u32
    ensures { result ≡ shift_number shift }
{
    shift as u32
}

// The base word with a condition, and with registers at bits 16, 12, 8 and 0.
pub(crate) fn word(condition: Condition, base: u32, r16: u8, r12: u8, r8: u8, r0: u8) -> Option<u32>
    requires { base < 2 ^ 28 }
    ensures { result ≡ placed condition base r16 r12 r8 r0 }
{
    if r16 >= 15 || r12 >= 15 || r8 >= 15 || r0 >= 15 {
        return None;
    }
    let registers = ((r16 as u32) << 16) + ((r12 as u32) << 12) + ((r8 as u32) << 8) + r0 as u32;
    Some((condition_number(condition) << 28) + base + registers)
}

// Data processing by an opcode with the bit S after it.
pub(crate) fn data(
    condition: Condition,
    opcode: u32,
    rn: u8,
    rd: u8,
    operand2: Operand2,
) -> Option<u32>
    requires { opcode < 32 }
    ensures { result ≡ processed condition opcode rn rd operand2 }
{
    let base = opcode << 20;
    match operand2 {
        Operand2::Immediate { imm8, rotation } => {
            if rotation >= 16 {
                return None;
            }
            let field = ((rotation as u32) << 8) + imm8 as u32;
            word(condition, base + (1 << 25) + field, rn, rd, 0, 0)
        }
        Operand2::ShiftImmediate { rm, shift, imm5 } => {
            if !is_amount(shift, imm5) {
                return None;
            }
            let field = ((imm5 as u32) << 7) + (shift_number(shift) << 5);
            word(condition, base + field, rn, rd, 0, rm)
        }
        Operand2::ShiftRegister { rm, shift, rs } => {
            let field = (1 << 4) + (shift_number(shift) << 5);
            word(condition, base + field, rn, rd, rs, rm)
        }
    }
}

fn is_amount(shift: Shift, imm5: u8) -> bool
    ensures { result ≡ is_amount shift imm5 }
{
    imm5 < 32 && (imm5 > 0 || shift == Shift::Lsl)
}

// TST, TEQ, CMP and CMN, which have S set.
pub(crate) fn test(condition: Condition, op: TestOp, rn: u8, operand2: Operand2) -> Option<u32>
    ensures { result ≡ compared condition op rn operand2 }
{
    if !takes(op, operand2) {
        return None;
    }
    data(condition, test_opcode(op) * 2 + 1, rn, 0, operand2)
}

fn takes(op: TestOp, operand2: Operand2) -> bool
    ensures { result ≡ takes op operand2 }
{
    match op {
        TestOp::Tst | TestOp::Teq => match operand2 {
            Operand2::Immediate { imm8: _, rotation } => rotation == 0,
            Operand2::ShiftImmediate { rm: _, shift, imm5 } => shift == Shift::Lsl && imm5 == 0,
            Operand2::ShiftRegister { .. } => false,
        },
        TestOp::Cmp | TestOp::Cmn => true,
    }
}

// MOVW and MOVT.
pub(crate) fn wide(condition: Condition, base: u32, rd: u8, imm16: u16) -> Option<u32>
    requires { base < 2 ^ 27 }
    ensures { result ≡ wide condition base rd imm16 }
{
    let imm16 = imm16 as u32;
    let field = ((imm16 >> 12) << 16) + imm16 % 4096;
    word(condition, base + field, 0, rd, 0, 0)
}

// LDR, STR, LDRB and STRB.
pub(crate) fn memory(condition: Condition, base: u32, rt: u8, rn: u8, imm12: u16) -> Option<u32>
    requires { base < 2 ^ 27 }
    ensures { result ≡ memory condition base rt rn imm12 }
{
    if imm12 >= 4096 {
        return None;
    }
    word(condition, base + imm12 as u32, rn, rt, 0, 0)
}

// LDRH and STRH.
pub(crate) fn half(condition: Condition, base: u32, rt: u8, rn: u8, imm8: u8) -> Option<u32>
    requires { base < 2 ^ 27 }
    ensures { result ≡ half condition base rt rn imm8 }
{
    let imm8 = imm8 as u32;
    let field = ((imm8 >> 4) << 8) + imm8 % 16;
    word(condition, base + field, rn, rt, 0, 0)
}

// B and BL.
pub(crate) fn branch(condition: Condition, base: u32, imm24: i32) -> Option<u32>
    requires { base < 2 ^ 28 - 2 ^ 24 }
    ensures { result ≡ branch condition base imm24 }
{
    if imm24 < -0x80_0000 || imm24 >= 0x80_0000 {
        return None;
    }
    let field = residue(24, imm24 as i128) as u32;
    word(condition, base + field, 0, 0, 0, 0)
}

// UDF, under condition 14 alone.
pub(crate) fn undefined(imm16: u16) -> u32
    ensures { Some result ≡ undefined imm16 }
{
    let imm16 = imm16 as u32;
    0xe7f0_00f0 + ((imm16 >> 4) << 8) + imm16 % 16
}
