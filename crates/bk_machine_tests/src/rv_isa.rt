use bk_rv_isa::*;

// Words as LLVM's assembler writes them: each row with its edges.
#[test]
fn each_row(rt: HostRuntime) {
    for (word, inst) in &ROWS {
        assert_eq!(rt; encode(*inst), Some(*word), "{inst:?}");
        assert_eq!(rt; decode(*word), Some(*inst), "{word:08x}");
    }
}

// One bit off a row, rows of other extensions, and rows that are left out.
#[test]
fn other_words(rt: HostRuntime) {
    for word in OTHERS {
        assert_eq!(rt; decode(word), None, "{word:08x}");
    }
}

const ROWS: [(u32, Inst); 108] = [
    (0xff010f93, Inst::OpImm(ImmediateOp::Addi, 31, 2, -16)),
    (0x01bff663, Inst::Branch(BranchOp::Bgeu, 31, 27, 12)),
    (0x00500f93, Inst::OpImm(ImmediateOp::Addi, 31, 0, 5)),
    (0x00100073, Inst::Ebreak),
    (0x000f8113, Inst::OpImm(ImmediateOp::Addi, 2, 31, 0)),
    (0x00113423, Inst::Store(StoreOp::Sd, 1, 2, 8)),
    (0x01013283, Inst::Load(LoadOp::Ld, 5, 2, 16)),
    (0x01813303, Inst::Load(LoadOp::Ld, 6, 2, 24)),
    (0x006282b3, Inst::Op(RegisterOp::Add, 5, 5, 6)),
    (0x02513023, Inst::Store(StoreOp::Sd, 5, 2, 32)),
    (0x00813083, Inst::Load(LoadOp::Ld, 1, 2, 8)),
    (0x01010113, Inst::OpImm(ImmediateOp::Addi, 2, 2, 16)),
    (0x00008067, Inst::Jalr(0, 1, 0)),
    (0x000f8033, Inst::Op(RegisterOp::Add, 0, 31, 0)),
    (0x41f00fb3, Inst::Op(RegisterOp::Sub, 31, 0, 31)),
    (0x004110b3, Inst::Op(RegisterOp::Sll, 1, 2, 4)),
    (0x01542833, Inst::Op(RegisterOp::Slt, 16, 8, 21)),
    (0x000fb033, Inst::Op(RegisterOp::Sltu, 0, 31, 0)),
    (0x01f04fb3, Inst::Op(RegisterOp::Xor, 31, 0, 31)),
    (0x004150b3, Inst::Op(RegisterOp::Srl, 1, 2, 4)),
    (0x41545833, Inst::Op(RegisterOp::Sra, 16, 8, 21)),
    (0x000fe033, Inst::Op(RegisterOp::Or, 0, 31, 0)),
    (0x01f07fb3, Inst::Op(RegisterOp::And, 31, 0, 31)),
    (0x024100b3, Inst::Op(RegisterOp::Mul, 1, 2, 4)),
    (0x03541833, Inst::Op(RegisterOp::Mulh, 16, 8, 21)),
    (0x020fa033, Inst::Op(RegisterOp::Mulhsu, 0, 31, 0)),
    (0x03f03fb3, Inst::Op(RegisterOp::Mulhu, 31, 0, 31)),
    (0x024140b3, Inst::Op(RegisterOp::Div, 1, 2, 4)),
    (0x03545833, Inst::Op(RegisterOp::Divu, 16, 8, 21)),
    (0x020fe033, Inst::Op(RegisterOp::Rem, 0, 31, 0)),
    (0x03f07fb3, Inst::Op(RegisterOp::Remu, 31, 0, 31)),
    (0xfff10f93, Inst::OpImm(ImmediateOp::Addi, 31, 2, -1)),
    (0x00010f93, Inst::OpImm(ImmediateOp::Addi, 31, 2, 0)),
    (0x7ff10f93, Inst::OpImm(ImmediateOp::Addi, 31, 2, 2047)),
    (0x800fa013, Inst::OpImm(ImmediateOp::Slti, 0, 31, -2048)),
    (0x7fffa013, Inst::OpImm(ImmediateOp::Slti, 0, 31, 2047)),
    (0xfff8b293, Inst::OpImm(ImmediateOp::Sltiu, 5, 17, -1)),
    (0x0008b293, Inst::OpImm(ImmediateOp::Sltiu, 5, 17, 0)),
    (0x7ff8b293, Inst::OpImm(ImmediateOp::Sltiu, 5, 17, 2047)),
    (0xff08b293, Inst::OpImm(ImmediateOp::Sltiu, 5, 17, -16)),
    (0x80014f93, Inst::OpImm(ImmediateOp::Xori, 31, 2, -2048)),
    (0x7ff14f93, Inst::OpImm(ImmediateOp::Xori, 31, 2, 2047)),
    (0xffffe013, Inst::OpImm(ImmediateOp::Ori, 0, 31, -1)),
    (0x000fe013, Inst::OpImm(ImmediateOp::Ori, 0, 31, 0)),
    (0x7fffe013, Inst::OpImm(ImmediateOp::Ori, 0, 31, 2047)),
    (0xff0fe013, Inst::OpImm(ImmediateOp::Ori, 0, 31, -16)),
    (0x8008f293, Inst::OpImm(ImmediateOp::Andi, 5, 17, -2048)),
    (0x7ff8f293, Inst::OpImm(ImmediateOp::Andi, 5, 17, 2047)),
    (0x000b1493, Inst::Shift(ShiftOp::Slli, 9, 22, 0)),
    (0x01fb1493, Inst::Shift(ShiftOp::Slli, 9, 22, 31)),
    (0x020b1493, Inst::Shift(ShiftOp::Slli, 9, 22, 32)),
    (0x03fb1493, Inst::Shift(ShiftOp::Slli, 9, 22, 63)),
    (0x000b5493, Inst::Shift(ShiftOp::Srli, 9, 22, 0)),
    (0x01fb5493, Inst::Shift(ShiftOp::Srli, 9, 22, 31)),
    (0x020b5493, Inst::Shift(ShiftOp::Srli, 9, 22, 32)),
    (0x03fb5493, Inst::Shift(ShiftOp::Srli, 9, 22, 63)),
    (0x400b5493, Inst::Shift(ShiftOp::Srai, 9, 22, 0)),
    (0x41fb5493, Inst::Shift(ShiftOp::Srai, 9, 22, 31)),
    (0x420b5493, Inst::Shift(ShiftOp::Srai, 9, 22, 32)),
    (0x43fb5493, Inst::Shift(ShiftOp::Srai, 9, 22, 63)),
    (0x00008f9b, Inst::Addiw(31, 1, 0)),
    (0x80008f9b, Inst::Addiw(31, 1, -2048)),
    (0x7ff08f9b, Inst::Addiw(31, 1, 2047)),
    (0x800f8083, Inst::Load(LoadOp::Lb, 1, 31, -2048)),
    (0x7fff1103, Inst::Load(LoadOp::Lh, 2, 30, 2047)),
    (0x010ea183, Inst::Load(LoadOp::Lw, 3, 29, 16)),
    (0xfffea183, Inst::Load(LoadOp::Lw, 3, 29, -1)),
    (0x800e3203, Inst::Load(LoadOp::Ld, 4, 28, -2048)),
    (0x7ffdc283, Inst::Load(LoadOp::Lbu, 5, 27, 2047)),
    (0x010d5303, Inst::Load(LoadOp::Lhu, 6, 26, 16)),
    (0xfffd5303, Inst::Load(LoadOp::Lhu, 6, 26, -1)),
    (0x800ce383, Inst::Load(LoadOp::Lwu, 7, 25, -2048)),
    (0x801f8023, Inst::Store(StoreOp::Sb, 1, 31, -2048)),
    (0x001f8fa3, Inst::Store(StoreOp::Sb, 1, 31, 31)),
    (0x7e2f1fa3, Inst::Store(StoreOp::Sh, 2, 30, 2047)),
    (0x022f1023, Inst::Store(StoreOp::Sh, 2, 30, 32)),
    (0xfe3eafa3, Inst::Store(StoreOp::Sw, 3, 29, -1)),
    (0x004e3423, Inst::Store(StoreOp::Sd, 4, 28, 8)),
    (0xfe4e3023, Inst::Store(StoreOp::Sd, 4, 28, -32)),
    (0x800f8063, Inst::Branch(BranchOp::Beq, 31, 0, -4096)),
    (0x7e1f1fe3, Inst::Branch(BranchOp::Bne, 30, 1, 4094)),
    (0x002ec0e3, Inst::Branch(BranchOp::Blt, 29, 2, 2048)),
    (0xfe2ecfe3, Inst::Branch(BranchOp::Blt, 29, 2, -2)),
    (0x003e5f63, Inst::Branch(BranchOp::Bge, 28, 3, 30)),
    (0x023e5063, Inst::Branch(BranchOp::Bge, 28, 3, 32)),
    (0x7e4def63, Inst::Branch(BranchOp::Bltu, 27, 4, 2046)),
    (0x805d70e3, Inst::Branch(BranchOp::Bgeu, 26, 5, -2048)),
    (0x005d7663, Inst::Branch(BranchOp::Bgeu, 26, 5, 12)),
    (0x000002b7, Inst::Lui(5, 0)),
    (0x000012b7, Inst::Lui(5, 1)),
    (0x7ffff2b7, Inst::Lui(5, 524287)),
    (0xffffffb7, Inst::Lui(31, -1)),
    (0x80000fb7, Inst::Lui(31, -524288)),
    (0x00000297, Inst::Auipc(5, 0)),
    (0x7ffff297, Inst::Auipc(5, 524287)),
    (0xffffff97, Inst::Auipc(31, -1)),
    (0x80000097, Inst::Auipc(1, -524288)),
    (0x000000ef, Inst::Jal(1, 0)),
    (0xfffff0ef, Inst::Jal(1, -2)),
    (0x7fe000ef, Inst::Jal(1, 2046)),
    (0x001000ef, Inst::Jal(1, 2048)),
    (0x000010ef, Inst::Jal(1, 4096)),
    (0x7ffff0ef, Inst::Jal(1, 1048574)),
    (0x800000ef, Inst::Jal(1, -1048576)),
    (0x800ff06f, Inst::Jal(0, -4096)),
    (0x000f80e7, Inst::Jalr(1, 31, 0)),
    (0x800f80e7, Inst::Jalr(1, 31, -2048)),
    (0x7fff80e7, Inst::Jalr(1, 31, 2047)),
];

const OTHERS: [u32; 46] = [
    0x00000000, 0xffffffff, 0x00000073, 0x00200073, 0x00100173, 0x00108073, 0x00101073, 0x00100072,
    0x00100071, 0x0010109b, 0x0010509b, 0x4010509b, 0x0020103b, 0x002080bb, 0x0000000f, 0x0000100f,
    0x04208033, 0x40209033, 0x4020a033, 0x4020c033, 0x4020e033, 0x4020f033, 0x06208033, 0x80208033,
    0x04109113, 0x40109113, 0x08105113, 0x44105113, 0x80005113, 0x00007003, 0x0000f083, 0x00104023,
    0x00107023, 0x0020a063, 0x0020b063, 0x00009067, 0x0000f067, 0x00000032, 0x00000034, 0x0020802f,
    0x00302007, 0x00302027, 0x0000002f, 0x0000006b, 0x00000057, 0x00000043,
];

fn agree(inst: Inst, word: u32) -> bool {
    encode(inst) == Some(word) && decode(word) == Some(inst)
}

// The manual's fields: registers, then the immediates of each format as numbers in two's complement.
fn rd(k: u8) -> u32 {
    (k as u32) << 7
}

fn rs1(k: u8) -> u32 {
    (k as u32) << 15
}

fn rs2(k: u8) -> u32 {
    (k as u32) << 20
}

fn split(imm: u32) -> u32 {
    (imm >> 5) << 25 | (imm & 31) << 7
}

fn branch(imm: u32) -> u32 {
    (imm >> 12) << 31 | (imm >> 5 & 63) << 25 | (imm >> 1 & 15) << 8 | (imm >> 11 & 1) << 7
}

fn jump(imm: u32) -> u32 {
    (imm >> 20) << 31 | (imm >> 1 & 1023) << 21 | (imm >> 11 & 1) << 20 | (imm >> 12 & 255) << 12
}

const REGISTERS: [(u8, u8, u8); 5] = [(0, 0, 0), (31, 0, 0), (0, 31, 0), (0, 0, 31), (31, 31, 31)];

const PAST: [(u8, u8, u8); 3] = [(32, 0, 0), (0, 32, 0), (0, 0, 32)];

const IMMEDIATES: [(i64, u32); 5] = [(-2048, 0x800), (-1, 0xfff), (0, 0), (1, 1), (2047, 0x7ff)];

const BRANCHES: [(i64, u32); 6] = [
    (-4096, 0x1000),
    (-2, 0x1ffe),
    (0, 0),
    (2, 2),
    (2048, 0x800),
    (4094, 0xffe),
];

const UPPERS: [(i64, u32); 5] = [
    (-524_288, 0x80000),
    (-1, 0xfffff),
    (0, 0),
    (1, 1),
    (524_287, 0x7ffff),
];

const JUMPS: [(i64, u32); 7] = [
    (-1_048_576, 0x10_0000),
    (-2, 0x1f_fffe),
    (0, 0),
    (2, 2),
    (2048, 0x800),
    (4096, 0x1000),
    (1_048_574, 0xf_fffe),
];

#[test]
fn each_register_and_count(rt: HostRuntime) {
    for (op, row) in REGISTER_ROWS {
        for (d, a, b) in REGISTERS {
            let word = row | rd(d) | rs1(a) | rs2(b);
            assert!(rt; agree(Inst::Op(op, d, a, b), word), "{op:?} {word:08x}");
        }
        for (d, a, b) in PAST {
            assert_eq!(rt; encode(Inst::Op(op, d, a, b)), None, "{op:?} {d} {a} {b}");
        }
    }
    for (op, row) in SHIFT_ROWS {
        for (d, a, count) in [(0, 0, 0), (31, 0, 1), (0, 31, 31), (31, 31, 32), (5, 6, 63)] {
            let word = row | rd(d) | rs1(a) | rs2(count);
            assert!(rt;
                agree(Inst::Shift(op, d, a, count), word),
                "{op:?} {word:08x}"
            );
        }
        for (d, a, count) in [(32, 0, 0), (0, 32, 0), (0, 0, 64)] {
            assert_eq!(rt;
                encode(Inst::Shift(op, d, a, count)),
                None,
                "{op:?} {d} {a} {count}"
            );
        }
    }
}

#[test]
fn each_immediate(rt: HostRuntime) {
    for (d, a, _) in REGISTERS {
        for (imm, field) in IMMEDIATES {
            let low = rd(d) | rs1(a) | field << 20;
            for (op, row) in IMMEDIATE_ROWS {
                assert!(rt;
                    agree(Inst::OpImm(op, d, a, imm), row | low),
                    "{op:?} {low:08x}"
                );
            }
            for (op, row) in LOAD_ROWS {
                assert!(rt;
                    agree(Inst::Load(op, d, a, imm), row | low),
                    "{op:?} {low:08x}"
                );
            }
            for (op, row) in STORE_ROWS {
                let word = row | rs1(a) | rs2(d) | split(field);
                assert!(rt;
                    agree(Inst::Store(op, d, a, imm), word),
                    "{op:?} {word:08x}"
                );
            }
            assert!(rt;
                agree(Inst::Addiw(d, a, imm), 0x1b | low),
                "addiw {low:08x}"
            );
            assert!(rt; agree(Inst::Jalr(d, a, imm), 0x67 | low), "jalr {low:08x}");
        }
        for (imm, field) in BRANCHES {
            for (op, row) in BRANCH_ROWS {
                let word = row | rs1(d) | rs2(a) | branch(field);
                assert!(rt;
                    agree(Inst::Branch(op, d, a, imm), word),
                    "{op:?} {word:08x}"
                );
            }
        }
        for (imm, field) in UPPERS {
            assert!(rt;
                agree(Inst::Lui(d, imm), 0x37 | rd(d) | field << 12),
                "lui {imm}"
            );
            assert!(rt;
                agree(Inst::Auipc(d, imm), 0x17 | rd(d) | field << 12),
                "auipc {imm}"
            );
        }
        for (imm, field) in JUMPS {
            assert!(rt;
                agree(Inst::Jal(d, imm), 0x6f | rd(d) | jump(field)),
                "jal {imm}"
            );
        }
    }
}

// One past each edge.
#[test]
fn past_each_edge(rt: HostRuntime) {
    for (d, a, imm) in [(32, 0, 0), (0, 32, 0), (0, 0, 2048), (0, 0, -2049)] {
        for (op, _) in IMMEDIATE_ROWS {
            assert_eq!(rt;
                encode(Inst::OpImm(op, d, a, imm)),
                None,
                "{op:?} {d} {a} {imm}"
            );
        }
        for (op, _) in LOAD_ROWS {
            assert_eq!(rt;
                encode(Inst::Load(op, d, a, imm)),
                None,
                "{op:?} {d} {a} {imm}"
            );
        }
        for (op, _) in STORE_ROWS {
            assert_eq!(rt;
                encode(Inst::Store(op, d, a, imm)),
                None,
                "{op:?} {d} {a} {imm}"
            );
        }
        assert_eq!(rt; encode(Inst::Addiw(d, a, imm)), None, "addiw {d} {a} {imm}");
        assert_eq!(rt; encode(Inst::Jalr(d, a, imm)), None, "jalr {d} {a} {imm}");
    }
    for (a, b, offset) in [
        (32, 0, 0),
        (0, 32, 0),
        (0, 0, 4096),
        (0, 0, -4098),
        (0, 0, 1),
        (0, 0, -1),
    ] {
        for (op, _) in BRANCH_ROWS {
            assert_eq!(rt;
                encode(Inst::Branch(op, a, b, offset)),
                None,
                "{op:?} {a} {b} {offset}"
            );
        }
    }
    for (d, imm) in [(32, 0), (0, 524_288), (0, -524_289)] {
        assert_eq!(rt; encode(Inst::Lui(d, imm)), None, "lui {d} {imm}");
        assert_eq!(rt; encode(Inst::Auipc(d, imm)), None, "auipc {d} {imm}");
    }
    for (d, offset) in [
        (32, 0),
        (0, 1_048_576),
        (0, -1_048_578),
        (0, 1),
        (0, 1_048_575),
    ] {
        assert_eq!(rt; encode(Inst::Jal(d, offset)), None, "jal {d} {offset}");
    }
}

// A word of each row, and the bits that can be turned so that the word is one of the table again.
#[test]
fn one_bit_off(rt: HostRuntime) {
    for (word, bits) in NEIGHBOURS {
        for bit in 0..32u32 {
            let other = word ^ (1 << bit);
            match decode(other) {
                Some(inst) => {
                    assert!(rt; bits >> bit & 1 == 1, "{word:08x} bit {bit} is {inst:?}");
                    assert_eq!(rt; encode(inst), Some(other), "{word:08x} bit {bit}");
                }
                None => assert!(rt; bits >> bit & 1 == 0, "{word:08x} bit {bit} is none"),
            }
        }
    }
}

// The words of the rows with all fields 0, and which words of the neighbours are in the table: by the manual's chapter of
// tables, in agreement with LLVM's disassembler.
const REGISTER_ROWS: [(RegisterOp, u32); 18] = [
    (RegisterOp::Add, 0x00000033),
    (RegisterOp::Sub, 0x40000033),
    (RegisterOp::Sll, 0x00001033),
    (RegisterOp::Slt, 0x00002033),
    (RegisterOp::Sltu, 0x00003033),
    (RegisterOp::Xor, 0x00004033),
    (RegisterOp::Srl, 0x00005033),
    (RegisterOp::Sra, 0x40005033),
    (RegisterOp::Or, 0x00006033),
    (RegisterOp::And, 0x00007033),
    (RegisterOp::Mul, 0x02000033),
    (RegisterOp::Mulh, 0x02001033),
    (RegisterOp::Mulhsu, 0x02002033),
    (RegisterOp::Mulhu, 0x02003033),
    (RegisterOp::Div, 0x02004033),
    (RegisterOp::Divu, 0x02005033),
    (RegisterOp::Rem, 0x02006033),
    (RegisterOp::Remu, 0x02007033),
];

const IMMEDIATE_ROWS: [(ImmediateOp, u32); 6] = [
    (ImmediateOp::Addi, 0x00000013),
    (ImmediateOp::Slti, 0x00002013),
    (ImmediateOp::Sltiu, 0x00003013),
    (ImmediateOp::Xori, 0x00004013),
    (ImmediateOp::Ori, 0x00006013),
    (ImmediateOp::Andi, 0x00007013),
];

const SHIFT_ROWS: [(ShiftOp, u32); 3] = [
    (ShiftOp::Slli, 0x00001013),
    (ShiftOp::Srli, 0x00005013),
    (ShiftOp::Srai, 0x40005013),
];

const LOAD_ROWS: [(LoadOp, u32); 7] = [
    (LoadOp::Lb, 0x00000003),
    (LoadOp::Lh, 0x00001003),
    (LoadOp::Lw, 0x00002003),
    (LoadOp::Ld, 0x00003003),
    (LoadOp::Lbu, 0x00004003),
    (LoadOp::Lhu, 0x00005003),
    (LoadOp::Lwu, 0x00006003),
];

const STORE_ROWS: [(StoreOp, u32); 4] = [
    (StoreOp::Sb, 0x00000023),
    (StoreOp::Sh, 0x00001023),
    (StoreOp::Sw, 0x00002023),
    (StoreOp::Sd, 0x00003023),
];

const BRANCH_ROWS: [(BranchOp, u32); 6] = [
    (BranchOp::Beq, 0x00000063),
    (BranchOp::Bne, 0x00001063),
    (BranchOp::Blt, 0x00004063),
    (BranchOp::Bge, 0x00005063),
    (BranchOp::Bltu, 0x00006063),
    (BranchOp::Bgeu, 0x00007063),
];

const NEIGHBOURS: [(u32, u32); 50] = [
    (0x007302b3, 0x43ffffb4),
    (0x407302b3, 0x41ff8fb4),
    (0x007312b3, 0x03ffffb4),
    (0x007322b3, 0x03ffffb4),
    (0x007332b3, 0x03ffffb4),
    (0x007342b3, 0x03ffffa4),
    (0x007352b3, 0x43ffffa4),
    (0x407352b3, 0x41ff8fa4),
    (0x007362b3, 0x03ffffa4),
    (0x007372b3, 0x03ffffa4),
    (0x027302b3, 0x03ffffb4),
    (0x027312b3, 0x03ffffb4),
    (0x027322b3, 0x03ffffb4),
    (0x027332b3, 0x03ffffb4),
    (0x027342b3, 0x03ffffa4),
    (0x027352b3, 0x03ffffa4),
    (0x027362b3, 0x03ffffa4),
    (0x027372b3, 0x03ffffa4),
    (0x12330293, 0xffffef9c),
    (0x12332293, 0xffffff94),
    (0x12333293, 0xffffdf94),
    (0x12334293, 0xffffef94),
    (0x12336293, 0xffffff94),
    (0x12337293, 0xffffdf84),
    (0x00931293, 0x03ffffb4),
    (0x00935293, 0x43ffffb4),
    (0x40935293, 0x43ffbfb4),
    (0x1233029b, 0xffff8f88),
    (0x12330283, 0xffffffb0),
    (0x12331283, 0xffffffa0),
    (0x12332283, 0xffffffb0),
    (0x12333283, 0xffffbfb0),
    (0x12334283, 0xffffff90),
    (0x12335283, 0xffffdf80),
    (0x12336283, 0xffffef90),
    (0x00730223, 0xffffbff0),
    (0x00731223, 0xffffbff0),
    (0x00732223, 0xffffbfb0),
    (0x00733223, 0xffffbfb0),
    (0x00730263, 0xffffdfc4),
    (0x00731263, 0xffffdfc0),
    (0x00734263, 0xffffff80),
    (0x00735263, 0xffffff80),
    (0x00736263, 0xffffbf80),
    (0x00737263, 0xffffbf80),
    (0x123452b7, 0xffffffa0),
    (0x12345297, 0xffffffa0),
    (0x123452ef, 0xffffff80),
    (0x123302e7, 0xffff8f8c),
    (0x00100073, 0x00000050),
];
