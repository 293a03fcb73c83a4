//! The instruction of a word.
//!
//! The fields are read by the group that the word's opcode names. Any word is read as some
//! instruction so; it is in the table where that instruction has this word.
ghost use Rattle.std.specs.Prelude.{◌≡◌, ◌<◌, ◌/◌, ◌%◌, ◌^◌};
ghost use Rattle.bk_arm_isa.specs.Decoding.{data_group_at, group_at, condition_of, data_op_of, move_op_of, test_op_of, shift_of, field, operand2_of, data_of, move_of, test_of, wide_of, multiply_of, miscellaneous_of, memory_of, half_of, media_of, branch_of, reading, decoding};

use crate::{Condition, DataOp, Inst, MoveOp, Operand2, Shift, TestOp, encode};
use bk_num::sext;

// The groups of instructions that have their fields in one place (section A5.1).
#[derive(Clone, Copy, PartialEq, Eq, Debug)]
enum Group {
    Data,
    Move,
    Test,
    Wide,
    Multiply,
    Miscellaneous,
    Memory,
    Half,
    Media,
    Branch,
}

// The instruction of a word, if it has one.
#[tactic(auto, unfolding(crate::specs::Decoding::decoding))]
pub(crate) fn decode(word: u32) -> Option<Inst>
    ensures { result ≡ decoding word }
{
    let inst = inst(word);
    if encode(inst) == Some(word) {
        Some(inst)
    } else {
        None
    }
}

// The fields of a word, with no look at its fixed bits and at limits.
#[tactic(auto, unfolding(crate::specs::Decoding::reading))]
fn inst(word: u32) -> Inst
    ensures { result ≡ reading word }
{
    match word_group(word) {
        Group::Data => data(word),
        Group::Move => moved(word),
        Group::Test => test(word),
        Group::Wide => wide(word),
        Group::Multiply => multiply(word),
        Group::Miscellaneous => miscellaneous(word),
        Group::Memory => memory(word),
        Group::Half => half(word),
        Group::Media => media(word),
        Group::Branch => branch(word),
    }
}

fn word_group(word: u32) -> Group
    ensures { result ≡ group_at (word / 2 ^ 20 % 256) (word / 2 ^ 4 % 16) }
{
    let opcode = (word >> 20) % 256;
    match (opcode / 32, (word >> 4) % 16) {
        (0, 9) => Group::Multiply,
        (0, 11) => Group::Half,
        (0, _) | (1, _) => data_group(opcode),
        (2, _) => Group::Memory,
        (3, _) => Group::Media,
        _ => Group::Branch,
    }
}

fn data_group(opcode: u32) -> Group
    ensures { result ≡ data_group_at opcode }
{
    if opcode / 8 % 4 == 2 {
        match (opcode % 2, opcode / 32) {
            (1, _) => Group::Test,
            (_, 0) => Group::Miscellaneous,
            _ => Group::Wide,
        }
    } else if opcode / 2 % 16 == 13 || opcode / 2 % 16 == 15 {
        Group::Move
    } else {
        Group::Data
    }
}

fn field(word: u32, at: u32) -> u8
    requires { at < 32 }
    ensures { result ≡ field word at }
{
    ((word >> at) % 16) as u8
}

fn condition(word: u32) -> Condition
    ensures { result ≡ condition_of (word / 2 ^ 28) }
{
    match word >> 28 {
        0 => Condition::Eq,
        1 => Condition::Ne,
        2 => Condition::Cs,
        3 => Condition::Cc,
        4 => Condition::Mi,
        5 => Condition::Pl,
        6 => Condition::Vs,
        7 => Condition::Vc,
        8 => Condition::Hi,
        9 => Condition::Ls,
        10 => Condition::Ge,
        11 => Condition::Lt,
        12 => Condition::Gt,
        13 => Condition::Le,
        _ => Condition::Al,
    }
}

fn data_op(opcode: u32) -> DataOp
    ensures { result ≡ data_op_of opcode }
{
    match opcode {
        0 => DataOp::And,
        1 => DataOp::Eor,
        2 => DataOp::Sub,
        3 => DataOp::Rsb,
        4 => DataOp::Add,
        5 => DataOp::Adc,
        6 => DataOp::Sbc,
        7 => DataOp::Rsc,
        12 => DataOp::Orr,
        _ => DataOp::Bic,
    }
}

fn move_op(opcode: u32) -> MoveOp
    ensures { result ≡ move_op_of opcode }
{
    match opcode {
        13 => MoveOp::Mov,
        _ => MoveOp::Mvn,
    }
}

fn test_op(opcode: u32) -> TestOp
    ensures { result ≡ test_op_of opcode }
{
    match opcode {
        8 => TestOp::Tst,
        9 => TestOp::Teq,
        10 => TestOp::Cmp,
        _ => TestOp::Cmn,
    }
}

fn shift(number: u32) -> Shift
    ensures { result ≡ shift_of number }
{
    match number {
        0 => Shift::Lsl,
        1 => Shift::Lsr,
        2 => Shift::Asr,
        _ => Shift::Ror,
    }
}

fn operand2(word: u32) -> Operand2
    ensures { result ≡ operand2_of word }
{
    if (word >> 25) % 2 == 1 {
        return Operand2::Immediate {
            imm8: (word % 256) as u8,
            rotation: field(word, 8),
        };
    }
    let shift = shift((word >> 5) % 4);
    if (word >> 4) % 2 == 1 {
        Operand2::ShiftRegister {
            rm: field(word, 0),
            shift,
            rs: field(word, 8),
        }
    } else {
        Operand2::ShiftImmediate {
            rm: field(word, 0),
            shift,
            imm5: ((word >> 7) % 32) as u8,
        }
    }
}

fn data(word: u32) -> Inst
    ensures { result ≡ data_of word }
{
    let (condition, op) = (condition(word), data_op((word >> 21) % 16));
    Inst::Data {
        condition,
        op,
        rd: field(word, 12),
        rn: field(word, 16),
        operand2: operand2(word),
    }
}

fn moved(word: u32) -> Inst
    ensures { result ≡ move_of word }
{
    let (condition, op) = (condition(word), move_op((word >> 21) % 16));
    Inst::Move {
        condition,
        op,
        rd: field(word, 12),
        operand2: operand2(word),
    }
}

fn test(word: u32) -> Inst
    ensures { result ≡ test_of word }
{
    let (condition, op) = (condition(word), test_op((word >> 21) % 16));
    Inst::Test {
        condition,
        op,
        rn: field(word, 16),
        operand2: operand2(word),
    }
}

fn wide(word: u32) -> Inst
    ensures { result ≡ wide_of word }
{
    let (condition, rd) = (condition(word), field(word, 12));
    let imm16 = ((word >> 16) % 16 * 4096 + word % 4096) as u16;
    if (word >> 22) % 2 == 0 {
        Inst::Movw {
            condition,
            rd,
            imm16,
        }
    } else {
        Inst::Movt {
            condition,
            rd,
            imm16,
        }
    }
}

fn multiply(word: u32) -> Inst
    ensures { result ≡ multiply_of word }
{
    let condition = condition(word);
    let (high, low) = (field(word, 16), field(word, 12));
    let (rm, rn) = (field(word, 8), field(word, 0));
    match (word >> 20) % 16 {
        0 => Inst::Mul {
            condition,
            rd: high,
            rn,
            rm,
        },
        6 => Inst::Mls {
            condition,
            rd: high,
            rn,
            rm,
            ra: low,
        },
        8 => Inst::Umull {
            condition,
            rd_lo: low,
            rd_hi: high,
            rn,
            rm,
        },
        _ => Inst::Smull {
            condition,
            rd_lo: low,
            rd_hi: high,
            rn,
            rm,
        },
    }
}

fn miscellaneous(word: u32) -> Inst
    ensures { result ≡ miscellaneous_of word }
{
    let (condition, rm) = (condition(word), field(word, 0));
    if (word >> 22) % 2 == 0 {
        Inst::Bx { condition, rm }
    } else {
        Inst::Clz {
            condition,
            rd: field(word, 12),
            rm,
        }
    }
}

fn memory(word: u32) -> Inst
    ensures { result ≡ memory_of word }
{
    let condition = condition(word);
    let (rt, rn, imm12) = (field(word, 12), field(word, 16), (word % 4096) as u16);
    match (word >> 20) % 8 {
        0 => Inst::Str {
            condition,
            rt,
            rn,
            imm12,
        },
        1 => Inst::Ldr {
            condition,
            rt,
            rn,
            imm12,
        },
        4 => Inst::Strb {
            condition,
            rt,
            rn,
            imm12,
        },
        _ => Inst::Ldrb {
            condition,
            rt,
            rn,
            imm12,
        },
    }
}

fn half(word: u32) -> Inst
    ensures { result ≡ half_of word }
{
    let condition = condition(word);
    let (rt, rn, imm8) = (
        field(word, 12),
        field(word, 16),
        field(word, 8) * 16 + field(word, 0),
    );
    if (word >> 20) % 2 == 0 {
        Inst::Strh {
            condition,
            rt,
            rn,
            imm8,
        }
    } else {
        Inst::Ldrh {
            condition,
            rt,
            rn,
            imm8,
        }
    }
}

fn media(word: u32) -> Inst
    ensures { result ≡ media_of word }
{
    let condition = condition(word);
    let (rd, rm) = (field(word, 12), field(word, 0));
    match (word >> 20) % 32 {
        0x11 => Inst::Sdiv {
            condition,
            rd: field(word, 16),
            rn: field(word, 0),
            rm: field(word, 8),
        },
        0x13 => Inst::Udiv {
            condition,
            rd: field(word, 16),
            rn: field(word, 0),
            rm: field(word, 8),
        },
        0x0a => Inst::Sxtb { condition, rd, rm },
        0x0b => Inst::Sxth { condition, rd, rm },
        0x0e => Inst::Uxtb { condition, rd, rm },
        0x0f => {
            if (word >> 6) % 2 == 0 {
                Inst::Rbit { condition, rd, rm }
            } else {
                Inst::Uxth { condition, rd, rm }
            }
        }
        _ => Inst::Udf {
            imm16: ((word >> 8) % 4096 * 16 + word % 16) as u16,
        },
    }
}

fn branch(word: u32) -> Inst
    ensures { result ≡ branch_of word }
{
    let (condition, imm24) = (condition(word), sext(24, word as u64) as i32);
    if (word >> 24) % 2 == 0 {
        Inst::B { condition, imm24 }
    } else {
        Inst::Bl { condition, imm24 }
    }
}
