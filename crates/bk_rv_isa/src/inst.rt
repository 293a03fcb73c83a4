/// The rows of opcode OP: an operation on two registers.
#[derive(Clone, Copy, PartialEq, Eq, Debug)]
pub enum RegisterOp {
    Add,
    Sub,
    Sll,
    Slt,
    Sltu,
    Xor,
    Srl,
    Sra,
    Or,
    And,
    Mul,
    Mulh,
    Mulhsu,
    Mulhu,
    Div,
    Divu,
    Rem,
    Remu,
}

/// The rows of opcode OP-IMM with a signed immediate of 12 bits.
#[derive(Clone, Copy, PartialEq, Eq, Debug)]
pub enum ImmediateOp {
    Addi,
    Slti,
    Sltiu,
    Xori,
    Ori,
    Andi,
}

/// The rows of opcode OP-IMM that shift by a count of six bits.
#[derive(Clone, Copy, PartialEq, Eq, Debug)]
pub enum ShiftOp {
    Slli,
    Srli,
    Srai,
}

/// The rows of opcode LOAD.
#[derive(Clone, Copy, PartialEq, Eq, Debug)]
pub enum LoadOp {
    Lb,
    Lh,
    Lw,
    Ld,
    Lbu,
    Lhu,
    Lwu,
}

/// The rows of opcode STORE.
#[derive(Clone, Copy, PartialEq, Eq, Debug)]
pub enum StoreOp {
    Sb,
    Sh,
    Sw,
    Sd,
}

/// The rows of opcode BRANCH.
#[derive(Clone, Copy, PartialEq, Eq, Debug)]
pub enum BranchOp {
    Beq,
    Bne,
    Blt,
    Bge,
    Bltu,
    Bgeu,
}

/// An instruction, by its major opcode. Registers are numbers from 0 to 31, offsets count bytes.
#[derive(Clone, Copy, PartialEq, Eq, Debug)]
pub enum Inst {
    /// Opcode 0x33: the destination and the two sources.
    Op(RegisterOp, u8, u8, u8),
    /// Opcode 0x13: the destination, the source and the immediate, -2,048 to 2,047.
    OpImm(ImmediateOp, u8, u8, i64),
    /// Opcode 0x13: the destination, the source and the count, 0 to 63.
    Shift(ShiftOp, u8, u8, u8),
    /// ADDIW, opcode 0x1b: the destination, the source and the immediate, -2,048 to 2,047.
    Addiw(u8, u8, i64),
    /// Opcode 0x03: the destination, the base and the offset, -2,048 to 2,047.
    Load(LoadOp, u8, u8, i64),
    /// Opcode 0x23: the source, the base and the offset, -2,048 to 2,047.
    Store(StoreOp, u8, u8, i64),
    /// Opcode 0x63: the two sources and the offset, even, -4,096 to 4,094.
    Branch(BranchOp, u8, u8, i64),
    /// LUI, opcode 0x37: the destination and the upper immediate, -524,288 to 524,287.
    Lui(u8, i64),
    /// AUIPC, opcode 0x17: the destination and the upper immediate, -524,288 to 524,287.
    Auipc(u8, i64),
    /// JAL, opcode 0x6f: the destination and the offset, even, -1,048,576 to 1,048,574.
    Jal(u8, i64),
    /// JALR, opcode 0x67: the destination, the base and the offset, -2,048 to 2,047.
    Jalr(u8, u8, i64),
    /// EBREAK, the word 0x00100073.
    Ebreak,
}
