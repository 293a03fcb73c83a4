//! The words of the classes of instructions whose fields stand alike.
ghost use Rattle.std.specs.Prelude.{◌≡◌, true};
ghost use Rattle.bk_arm_isa.specs.Encoding.{encoding};
ghost use Rattle.bk_arm_isa.specs.Classes.{is_processing, is_product, is_access};

use crate::Inst;
use crate::write::{data, data_opcode, half, memory, move_opcode, test, wide, word};

// Data processing, and moves of 16 bits.
pub(crate) fn processing(inst: Inst) -> Option<u32>
    requires { is_processing inst ≡ true }
    ensures { result ≡ encoding inst }
{
    match inst {
        Inst::Data {
            condition,
            op,
            rd,
            rn,
            operand2,
        } => { data(condition, data_opcode(op) * 2, rn, rd, operand2) }
        Inst::Move {
            condition,
            op,
            rd,
            operand2,
        } => { data(condition, move_opcode(op) * 2, 0, rd, operand2) }
        Inst::Test {
            condition,
            op,
            rn,
            operand2,
        } => test(condition, op, rn, operand2),
        Inst::Movw {
            condition,
            rd,
            imm16,
        } => wide(condition, 0x0300_0000, rd, imm16),
        Inst::Movt {
            condition,
            rd,
            imm16,
        } => wide(condition, 0x0340_0000, rd, imm16),
        _ => unreachable!(),
    }
}

// Products and quotients.
pub(crate) fn product(inst: Inst) -> Option<u32>
    requires { is_product inst ≡ true }
    ensures { result ≡ encoding inst }
{
    match inst {
        Inst::Mul {
            condition,
            rd,
            rn,
            rm,
        } => word(condition, 0x0000_0090, rd, 0, rm, rn),
        Inst::Mls {
            condition,
            rd,
            rn,
            rm,
            ra,
        } => word(condition, 0x0060_0090, rd, ra, rm, rn),
        Inst::Umull {
            condition,
            rd_lo,
            rd_hi,
            rn,
            rm,
        } => { word(condition, 0x0080_0090, rd_hi, rd_lo, rm, rn) }
        Inst::Smull {
            condition,
            rd_lo,
            rd_hi,
            rn,
            rm,
        } => { word(condition, 0x00c0_0090, rd_hi, rd_lo, rm, rn) }
        Inst::Sdiv {
            condition,
            rd,
            rn,
            rm,
        } => word(condition, 0x0710_f010, rd, 0, rm, rn),
        Inst::Udiv {
            condition,
            rd,
            rn,
            rm,
        } => word(condition, 0x0730_f010, rd, 0, rm, rn),
        _ => unreachable!(),
    }
}

// Loads and stores.
pub(crate) fn access(inst: Inst) -> Option<u32>
    requires { is_access inst ≡ true }
    ensures { result ≡ encoding inst }
{
    match inst {
        Inst::Ldr {
            condition,
            rt,
            rn,
            imm12,
        } => memory(condition, 0x0590_0000, rt, rn, imm12),
        Inst::Str {
            condition,
            rt,
            rn,
            imm12,
        } => memory(condition, 0x0580_0000, rt, rn, imm12),
        Inst::Ldrb {
            condition,
            rt,
            rn,
            imm12,
        } => memory(condition, 0x05d0_0000, rt, rn, imm12),
        Inst::Strb {
            condition,
            rt,
            rn,
            imm12,
        } => memory(condition, 0x05c0_0000, rt, rn, imm12),
        Inst::Ldrh {
            condition,
            rt,
            rn,
            imm8,
        } => half(condition, 0x01d0_00b0, rt, rn, imm8),
        Inst::Strh {
            condition,
            rt,
            rn,
            imm8,
        } => half(condition, 0x01c0_00b0, rt, rn, imm8),
        _ => unreachable!(),
    }
}
