//! Instructions of the A32 set of ARMv7-A and their words.
//!
//! The encodings and the names of the fields are those of the ARM Architecture Reference Manual,
//! ARMv7-A and ARMv7-R edition, chapter A5 and section A8.8. Only the instructions of `Inst` are in
//! the table: R15 is no operand, and the flags are written by TST, TEQ, CMP and CMN alone.
#![tactic(auto)]

ghost use Rattle.std.specs.Prelude.{◌≡◌, ◌↔◌, Some};
ghost use Rattle.bk_arm_isa.specs.declared.Inst.{Inst};
ghost use Rattle.bk_arm_isa.specs.Encoding.{encoding};
ghost use Rattle.bk_arm_isa.specs.Decoding.{decoding};

mod flags;
mod laws;
mod read;
mod words;
mod write;

pub use bk_machine::Stop;
pub use flags::Flags;
pub use laws::{a_stop_changes_nothing, conditions_compare, memory_keeps_its_bytes, one_word_each};

/// The condition field of an instruction (section A8.3).
#[derive(Clone, Copy, PartialEq, Eq, Debug)]
pub enum Condition {
    Eq,
    Ne,
    Cs,
    Cc,
    Mi,
    Pl,
    Vs,
    Vc,
    Hi,
    Ls,
    Ge,
    Lt,
    Gt,
    Le,
    Al,
}

/// Data processing of two operands into a register, which leaves the flags alone.
#[derive(Clone, Copy, PartialEq, Eq, Debug)]
pub enum DataOp {
    And,
    Eor,
    Sub,
    Rsb,
    Add,
    Adc,
    Sbc,
    Rsc,
    Orr,
    Bic,
}

/// Data processing of one operand into a register, which leaves the flags alone.
#[derive(Clone, Copy, PartialEq, Eq, Debug)]
pub enum MoveOp {
    Mov,
    Mvn,
}

/// Data processing of two operands into the flags.
#[derive(Clone, Copy, PartialEq, Eq, Debug)]
pub enum TestOp {
    Tst,
    Teq,
    Cmp,
    Cmn,
}

/// The kind of a shift (section A8.4.1).
#[derive(Clone, Copy, PartialEq, Eq, Debug)]
pub enum Shift {
    Lsl,
    Lsr,
    Asr,
    Ror,
}

/// The second operand of data processing.
#[derive(Clone, Copy, PartialEq, Eq, Debug)]
pub enum Operand2 {
    /// `imm8` rotated right by twice `rotation`, which is below 16 (section A5.2.4).
    Immediate { imm8: u8, rotation: u8 },
    /// `rm` shifted by `imm5`, from 1 to 31, or by LSL 0, which is `rm` itself.
    ShiftImmediate { rm: u8, shift: Shift, imm5: u8 },
    /// `rm` shifted by the low byte of `rs`.
    ShiftRegister { rm: u8, shift: Shift, rs: u8 },
}

/// An instruction.
///
/// Registers are numbers from 0 to 14. The memory instructions add their immediate to `rn`.
#[derive(Clone, Copy, PartialEq, Eq, Debug)]
pub enum Inst {
    Data {
        condition: Condition,
        op: DataOp,
        rd: u8,
        rn: u8,
        operand2: Operand2,
    },
    Move {
        condition: Condition,
        op: MoveOp,
        rd: u8,
        operand2: Operand2,
    },
    /// TST and TEQ take an immediate of rotation 0 or a register that is not shifted.
    Test {
        condition: Condition,
        op: TestOp,
        rn: u8,
        operand2: Operand2,
    },
    Movw {
        condition: Condition,
        rd: u8,
        imm16: u16,
    },
    Movt {
        condition: Condition,
        rd: u8,
        imm16: u16,
    },
    Mul {
        condition: Condition,
        rd: u8,
        rn: u8,
        rm: u8,
    },
    /// `ra` less the product of `rn` and `rm`.
    Mls {
        condition: Condition,
        rd: u8,
        rn: u8,
        rm: u8,
        ra: u8,
    },
    Umull {
        condition: Condition,
        rd_lo: u8,
        rd_hi: u8,
        rn: u8,
        rm: u8,
    },
    Smull {
        condition: Condition,
        rd_lo: u8,
        rd_hi: u8,
        rn: u8,
        rm: u8,
    },
    Sdiv {
        condition: Condition,
        rd: u8,
        rn: u8,
        rm: u8,
    },
    Udiv {
        condition: Condition,
        rd: u8,
        rn: u8,
        rm: u8,
    },
    Clz {
        condition: Condition,
        rd: u8,
        rm: u8,
    },
    Rbit {
        condition: Condition,
        rd: u8,
        rm: u8,
    },
    Sxtb {
        condition: Condition,
        rd: u8,
        rm: u8,
    },
    Sxth {
        condition: Condition,
        rd: u8,
        rm: u8,
    },
    Uxtb {
        condition: Condition,
        rd: u8,
        rm: u8,
    },
    Uxth {
        condition: Condition,
        rd: u8,
        rm: u8,
    },
    Ldr {
        condition: Condition,
        rt: u8,
        rn: u8,
        imm12: u16,
    },
    Str {
        condition: Condition,
        rt: u8,
        rn: u8,
        imm12: u16,
    },
    Ldrb {
        condition: Condition,
        rt: u8,
        rn: u8,
        imm12: u16,
    },
    Strb {
        condition: Condition,
        rt: u8,
        rn: u8,
        imm12: u16,
    },
    Ldrh {
        condition: Condition,
        rt: u8,
        rn: u8,
        imm8: u8,
    },
    Strh {
        condition: Condition,
        rt: u8,
        rn: u8,
        imm8: u8,
    },
    /// A branch by `imm24` words, counted from 8 bytes past the instruction.
    B {
        condition: Condition,
        imm24: i32,
    },
    /// The same, with the return address in R14.
    Bl {
        condition: Condition,
        imm24: i32,
    },
    Bx {
        condition: Condition,
        rm: u8,
    },
    /// Permanently undefined; it has no condition.
    Udf {
        imm16: u16,
    },
}

/// The word of an instruction, or None where a field does not fit.
pub fn encode(inst: Inst) -> Option<u32>
    ensures { result ≡ encoding inst }
{
    match inst {
        Inst::Data { .. }
        | Inst::Move { .. }
        | Inst::Test { .. }
        | Inst::Movw { .. }
        | Inst::Movt { .. } => words::processing(inst),
        Inst::Mul { .. }
        | Inst::Mls { .. }
        | Inst::Umull { .. }
        | Inst::Smull { .. }
        | Inst::Sdiv { .. }
        | Inst::Udiv { .. } => words::product(inst),
        Inst::Ldr { .. }
        | Inst::Str { .. }
        | Inst::Ldrb { .. }
        | Inst::Strb { .. }
        | Inst::Ldrh { .. }
        | Inst::Strh { .. } => words::access(inst),
        Inst::Clz { condition, rd, rm } => write::word(condition, 0x016f_0f10, 0, rd, 0, rm),
        Inst::Rbit { condition, rd, rm } => write::word(condition, 0x06ff_0f30, 0, rd, 0, rm),
        Inst::Sxtb { condition, rd, rm } => write::word(condition, 0x06af_0070, 0, rd, 0, rm),
        Inst::Sxth { condition, rd, rm } => write::word(condition, 0x06bf_0070, 0, rd, 0, rm),
        Inst::Uxtb { condition, rd, rm } => write::word(condition, 0x06ef_0070, 0, rd, 0, rm),
        Inst::Uxth { condition, rd, rm } => write::word(condition, 0x06ff_0070, 0, rd, 0, rm),
        Inst::B { condition, imm24 } => write::branch(condition, 0x0a00_0000, imm24),
        Inst::Bl { condition, imm24 } => write::branch(condition, 0x0b00_0000, imm24),
        Inst::Bx { condition, rm } => write::word(condition, 0x012f_ff10, 0, 0, 0, rm),
        Inst::Udf { imm16 } => Some(write::undefined(imm16)),
    }
}

/// The instruction of a word, or None for a word outside the table.
pub fn decode(word: u32) -> Option<Inst>
    ensures value { result ≡ decoding word }
    ensures inverse { (i : Inst) → result ≡ Some i ↔ encoding i ≡ Some word }
{
    read::decode(word)
}
