ghost use Rattle.std.specs.Prelude.{◌≡◌, ◌↔◌, ◌<◌, ◌%◌, ◌/◌, ◌^◌, Some};
ghost use Rattle.bk_rv_isa.specs.Encoding.{funct3, rd, rs1, rs2, i_immediate, s_immediate, b_immediate, u_immediate, j_immediate, register_op, immediate_op, shift_op, load_op, store_op, branch_op, op_imm, encoding, decoding_by, decoding};

use crate::inst::{BranchOp, ImmediateOp, Inst, LoadOp, RegisterOp, ShiftOp, StoreOp};
use bk_num::sext;

fn funct3(word: u32) -> u32
    ensures { result ≡ funct3 word }
{
    (word >> 12) % 8
}

fn rd(word: u32) -> u8
    ensures { result ≡ rd word }
{
    ((word >> 7) % 32) as u8
}

fn rs1(word: u32) -> u8
    ensures { result ≡ rs1 word }
{
    ((word >> 15) % 32) as u8
}

fn rs2(word: u32) -> u8
    ensures { result ≡ rs2 word }
{
    ((word >> 20) % 32) as u8
}

fn i_immediate(word: u32) -> i64
    ensures { result ≡ i_immediate word }
{
    sext(12, (word >> 20) as u64)
}

fn s_immediate(word: u32) -> i64
    ensures { result ≡ s_immediate word }
{
    sext(12, ((word >> 25) * 32 + (word >> 7) % 32) as u64)
}

fn b_immediate(word: u32) -> i64
    ensures { result ≡ b_immediate word }
{
    let high = (word >> 31) * 4096 + (word >> 7) % 2 * 2048;
    sext(
        13,
        (high + (word >> 25) % 64 * 32 + (word >> 8) % 16 * 2) as u64,
    )
}

fn u_immediate(word: u32) -> i64
    ensures { result ≡ u_immediate word }
{
    sext(20, (word >> 12) as u64)
}

fn j_immediate(word: u32) -> i64
    ensures { result ≡ j_immediate word }
{
    let high = (word >> 31) * 1_048_576 + (word >> 12) % 256 * 4096;
    sext(
        21,
        (high + (word >> 20) % 2 * 2048 + (word >> 21) % 1024 * 2) as u64,
    )
}

// The row of opcode 0x33 with these fields.
#[tactic(auto, unfolding(crate::specs::Encoding::register_op))]
fn register_op(funct3: u32, funct7: u32) -> Option<RegisterOp>
    ensures { result ≡ register_op funct3 funct7 }
{
    match (funct7, funct3) {
        (0, 0) => Some(RegisterOp::Add),
        (32, 0) => Some(RegisterOp::Sub),
        (0, 1) => Some(RegisterOp::Sll),
        (0, 2) => Some(RegisterOp::Slt),
        (0, 3) => Some(RegisterOp::Sltu),
        (0, 4) => Some(RegisterOp::Xor),
        (0, 5) => Some(RegisterOp::Srl),
        (32, 5) => Some(RegisterOp::Sra),
        (0, 6) => Some(RegisterOp::Or),
        (0, 7) => Some(RegisterOp::And),
        (1, 0) => Some(RegisterOp::Mul),
        (1, 1) => Some(RegisterOp::Mulh),
        (1, 2) => Some(RegisterOp::Mulhsu),
        (1, 3) => Some(RegisterOp::Mulhu),
        (1, 4) => Some(RegisterOp::Div),
        (1, 5) => Some(RegisterOp::Divu),
        (1, 6) => Some(RegisterOp::Rem),
        (1, 7) => Some(RegisterOp::Remu),
        _ => None,
    }
}

#[tactic(auto, unfolding(crate::specs::Encoding::immediate_op))]
fn immediate_op(funct3: u32) -> Option<ImmediateOp>
    ensures { result ≡ immediate_op funct3 }
{
    match funct3 {
        0 => Some(ImmediateOp::Addi),
        2 => Some(ImmediateOp::Slti),
        3 => Some(ImmediateOp::Sltiu),
        4 => Some(ImmediateOp::Xori),
        6 => Some(ImmediateOp::Ori),
        7 => Some(ImmediateOp::Andi),
        _ => None,
    }
}

#[tactic(auto, unfolding(crate::specs::Encoding::shift_op))]
fn shift_op(funct3: u32, funct6: u32) -> Option<ShiftOp>
    ensures { result ≡ shift_op funct3 funct6 }
{
    match (funct6, funct3) {
        (0, 1) => Some(ShiftOp::Slli),
        (0, 5) => Some(ShiftOp::Srli),
        (16, 5) => Some(ShiftOp::Srai),
        _ => None,
    }
}

#[tactic(auto, unfolding(crate::specs::Encoding::load_op))]
fn load_op(funct3: u32) -> Option<LoadOp>
    ensures { result ≡ load_op funct3 }
{
    match funct3 {
        0 => Some(LoadOp::Lb),
        1 => Some(LoadOp::Lh),
        2 => Some(LoadOp::Lw),
        3 => Some(LoadOp::Ld),
        4 => Some(LoadOp::Lbu),
        5 => Some(LoadOp::Lhu),
        6 => Some(LoadOp::Lwu),
        _ => None,
    }
}

#[tactic(auto, unfolding(crate::specs::Encoding::store_op))]
fn store_op(funct3: u32) -> Option<StoreOp>
    ensures { result ≡ store_op funct3 }
{
    match funct3 {
        0 => Some(StoreOp::Sb),
        1 => Some(StoreOp::Sh),
        2 => Some(StoreOp::Sw),
        3 => Some(StoreOp::Sd),
        _ => None,
    }
}

#[tactic(auto, unfolding(crate::specs::Encoding::branch_op))]
fn branch_op(funct3: u32) -> Option<BranchOp>
    ensures { result ≡ branch_op funct3 }
{
    match funct3 {
        0 => Some(BranchOp::Beq),
        1 => Some(BranchOp::Bne),
        4 => Some(BranchOp::Blt),
        5 => Some(BranchOp::Bge),
        6 => Some(BranchOp::Bltu),
        7 => Some(BranchOp::Bgeu),
        _ => None,
    }
}

// Opcode 0x13: the rows of funct3 1 and 5 shift.
fn op_imm(word: u32) -> Option<Inst>
    ensures { result ≡ op_imm word }
{
    if funct3(word) % 4 == 1 {
        let op = shift_op(funct3(word), word >> 26)?;
        Some(Inst::Shift(op, rd(word), rs1(word), ((word >> 20) % 64) as u8))
    } else {
        let op = immediate_op(funct3(word))?;
        Some(Inst::OpImm(op, rd(word), rs1(word), i_immediate(word)))
    }
}

// The instruction of a word with this opcode.
fn by_opcode(opcode: u32, word: u32) -> Option<Inst>
    ensures { result ≡ decoding_by opcode word }
{
    match opcode {
        0x33 => {
            let op = register_op(funct3(word), word >> 25)?;
            Some(Inst::Op(op, rd(word), rs1(word), rs2(word)))
        }
        0x13 => op_imm(word),
        0x1b if funct3(word) == 0 => Some(Inst::Addiw(rd(word), rs1(word), i_immediate(word))),
        0x03 => {
            let op = load_op(funct3(word))?;
            Some(Inst::Load(op, rd(word), rs1(word), i_immediate(word)))
        }
        0x23 => {
            let op = store_op(funct3(word))?;
            Some(Inst::Store(op, rs2(word), rs1(word), s_immediate(word)))
        }
        0x63 => {
            let op = branch_op(funct3(word))?;
            Some(Inst::Branch(op, rs1(word), rs2(word), b_immediate(word)))
        }
        0x37 => Some(Inst::Lui(rd(word), u_immediate(word))),
        0x17 => Some(Inst::Auipc(rd(word), u_immediate(word))),
        0x6f => Some(Inst::Jal(rd(word), j_immediate(word))),
        0x67 if funct3(word) == 0 => Some(Inst::Jalr(rd(word), rs1(word), i_immediate(word))),
        0x73 if word == 0x0010_0073 => Some(Inst::Ebreak),
        _ => None,
    }
}

/// The instruction of a word, none exactly for a word outside the table.
#[tactic(auto, unfolding(crate::specs::Encoding::decoding))]
pub fn decode(word: u32) -> Option<Inst>
    ensures value { result ≡ decoding word }
    ensures inverse { (i : Inst) → result ≡ Some i ↔ encoding i ≡ Some word }
{
    by_opcode(word % 128, word)
}
