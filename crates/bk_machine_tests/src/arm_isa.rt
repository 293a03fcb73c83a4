ghost use Rattle.std.specs.Prelude.{◌<◌};

use bk_arm_isa::Condition::*;
use bk_arm_isa::DataOp::*;
use bk_arm_isa::MoveOp::*;
use bk_arm_isa::Shift::*;
use bk_arm_isa::TestOp::*;
use bk_arm_isa::*;

fn immediate(imm8: u8, rotation: u8) -> Operand2 {
    Operand2::Immediate { imm8, rotation }
}

fn shifted(rm: u8, shift: Shift, imm5: u8) -> Operand2 {
    Operand2::ShiftImmediate { rm, shift, imm5 }
}

fn shifted_by(rm: u8, shift: Shift, rs: u8) -> Operand2 {
    Operand2::ShiftRegister { rm, shift, rs }
}

fn data(condition: Condition, op: DataOp, rd: u8, rn: u8, operand2: Operand2) -> Inst {
    Inst::Data {
        condition,
        op,
        rd,
        rn,
        operand2,
    }
}

fn moved(condition: Condition, op: MoveOp, rd: u8, operand2: Operand2) -> Inst {
    Inst::Move {
        condition,
        op,
        rd,
        operand2,
    }
}

fn test(condition: Condition, op: TestOp, rn: u8, operand2: Operand2) -> Inst {
    Inst::Test {
        condition,
        op,
        rn,
        operand2,
    }
}

fn movw(condition: Condition, rd: u8, imm16: u16) -> Inst {
    Inst::Movw {
        condition,
        rd,
        imm16,
    }
}

fn movt(condition: Condition, rd: u8, imm16: u16) -> Inst {
    Inst::Movt {
        condition,
        rd,
        imm16,
    }
}

fn mul(condition: Condition, rd: u8, rn: u8, rm: u8) -> Inst {
    Inst::Mul {
        condition,
        rd,
        rn,
        rm,
    }
}

fn sdiv(condition: Condition, rd: u8, rn: u8, rm: u8) -> Inst {
    Inst::Sdiv {
        condition,
        rd,
        rn,
        rm,
    }
}

fn udiv(condition: Condition, rd: u8, rn: u8, rm: u8) -> Inst {
    Inst::Udiv {
        condition,
        rd,
        rn,
        rm,
    }
}

fn mls(condition: Condition, rd: u8, rn: u8, rm: u8, ra: u8) -> Inst {
    Inst::Mls {
        condition,
        rd,
        rn,
        rm,
        ra,
    }
}

fn umull(condition: Condition, rd_lo: u8, rd_hi: u8, rn: u8, rm: u8) -> Inst {
    Inst::Umull {
        condition,
        rd_lo,
        rd_hi,
        rn,
        rm,
    }
}

fn smull(condition: Condition, rd_lo: u8, rd_hi: u8, rn: u8, rm: u8) -> Inst {
    Inst::Smull {
        condition,
        rd_lo,
        rd_hi,
        rn,
        rm,
    }
}

fn clz(condition: Condition, rd: u8, rm: u8) -> Inst {
    Inst::Clz { condition, rd, rm }
}

fn rbit(condition: Condition, rd: u8, rm: u8) -> Inst {
    Inst::Rbit { condition, rd, rm }
}

fn sxtb(condition: Condition, rd: u8, rm: u8) -> Inst {
    Inst::Sxtb { condition, rd, rm }
}

fn sxth(condition: Condition, rd: u8, rm: u8) -> Inst {
    Inst::Sxth { condition, rd, rm }
}

fn uxtb(condition: Condition, rd: u8, rm: u8) -> Inst {
    Inst::Uxtb { condition, rd, rm }
}

fn uxth(condition: Condition, rd: u8, rm: u8) -> Inst {
    Inst::Uxth { condition, rd, rm }
}

fn ldr(condition: Condition, rt: u8, rn: u8, imm12: u16) -> Inst {
    Inst::Ldr {
        condition,
        rt,
        rn,
        imm12,
    }
}

fn str(condition: Condition, rt: u8, rn: u8, imm12: u16) -> Inst {
    Inst::Str {
        condition,
        rt,
        rn,
        imm12,
    }
}

fn ldrb(condition: Condition, rt: u8, rn: u8, imm12: u16) -> Inst {
    Inst::Ldrb {
        condition,
        rt,
        rn,
        imm12,
    }
}

fn strb(condition: Condition, rt: u8, rn: u8, imm12: u16) -> Inst {
    Inst::Strb {
        condition,
        rt,
        rn,
        imm12,
    }
}

fn ldrh(condition: Condition, rt: u8, rn: u8, imm8: u8) -> Inst {
    Inst::Ldrh {
        condition,
        rt,
        rn,
        imm8,
    }
}

fn strh(condition: Condition, rt: u8, rn: u8, imm8: u8) -> Inst {
    Inst::Strh {
        condition,
        rt,
        rn,
        imm8,
    }
}

fn b(condition: Condition, imm24: i32) -> Inst {
    Inst::B { condition, imm24 }
}

fn bl(condition: Condition, imm24: i32) -> Inst {
    Inst::Bl { condition, imm24 }
}

fn bx(condition: Condition, rm: u8) -> Inst {
    Inst::Bx { condition, rm }
}

fn udf(imm16: u16) -> Inst {
    Inst::Udf { imm16 }
}

// Words with the instructions that an independent assembler reads them as; the first are a function.
fn table() -> [(u32, Inst); 88] {
    [
        (0xe300b008, movw(Al, 11, 8)),
        (0xe04db00b, data(Al, Sub, 11, 13, shifted(11, Lsl, 0))),
        (0xe15b000a, test(Al, Cmp, 11, shifted(10, Lsl, 0))),
        (0x2a000000, b(Cs, 0)),
        (0xe7f000f5, udf(5)),
        (0xe1a0d00b, moved(Al, Mov, 13, shifted(11, Lsl, 0))),
        (0xe58de004, str(Al, 14, 13, 4)),
        (0xe59d0008, ldr(Al, 0, 13, 8)),
        (0xe59d100c, ldr(Al, 1, 13, 12)),
        (0xe0800001, data(Al, Add, 0, 0, shifted(1, Lsl, 0))),
        (0xe58d0010, str(Al, 0, 13, 16)),
        (0xe59de004, ldr(Al, 14, 13, 4)),
        (0xe08dd00b, data(Al, Add, 13, 13, shifted(11, Lsl, 0))),
        (0xe12fff1e, bx(Al, 14)),
        (0xe0010002, data(Al, And, 0, 1, shifted(2, Lsl, 0))),
        (0x122de4ff, data(Ne, Eor, 14, 13, immediate(255, 4))),
        (0x2040ef8e, data(Cs, Sub, 14, 0, shifted(14, Lsl, 31))),
        (0x306e00ae, data(Cc, Rsb, 0, 14, shifted(14, Lsr, 1))),
        (0x40821fa3, data(Mi, Add, 1, 2, shifted(3, Lsr, 31))),
        (0x50a210c3, data(Pl, Adc, 1, 2, shifted(3, Asr, 1))),
        (0x60c21fc3, data(Vs, Sbc, 1, 2, shifted(3, Asr, 31))),
        (0x70e210e3, data(Vc, Rsc, 1, 2, shifted(3, Ror, 1))),
        (0x81821fe3, data(Hi, Orr, 1, 2, shifted(3, Ror, 31))),
        (0x91c21413, data(Ls, Bic, 1, 2, shifted_by(3, Lsl, 4))),
        (0xa08eee7e, data(Ge, Add, 14, 14, shifted_by(14, Ror, 14))),
        (0xb0800030, data(Lt, Add, 0, 0, shifted_by(0, Lsr, 0))),
        (0xc28000ff, data(Gt, Add, 0, 0, immediate(255, 0))),
        (0xd0800050, data(Le, Add, 0, 0, shifted_by(0, Asr, 0))),
        (0xe1a0e000, moved(Al, Mov, 14, shifted(0, Lsl, 0))),
        (0xe3e00000, moved(Al, Mvn, 0, immediate(0, 0))),
        (0x11e00e1e, moved(Ne, Mvn, 0, shifted_by(14, Lsl, 14))),
        (0xe1a00fce, moved(Al, Mov, 0, shifted(14, Asr, 31))),
        (0xe3100001, test(Al, Tst, 0, immediate(1, 0))),
        (0xe11e000e, test(Al, Tst, 14, shifted(14, Lsl, 0))),
        (0xe33100ff, test(Al, Teq, 1, immediate(255, 0))),
        (0x11310002, test(Ne, Teq, 1, shifted(2, Lsl, 0))),
        (0xe35e01ff, test(Al, Cmp, 14, immediate(255, 1))),
        (0xe1510312, test(Al, Cmp, 1, shifted_by(2, Lsl, 3))),
        (0xd1700fee, test(Le, Cmn, 0, shifted(14, Ror, 31))),
        (0xe30fefff, movw(Al, 14, 65535)),
        (0xe3000000, movw(Al, 0, 0)),
        (0x13481001, movt(Ne, 1, 32769)),
        (0xe00e0d90, mul(Al, 14, 0, 13)),
        (0x0000009e, mul(Eq, 0, 14, 0)),
        (0xe0614392, mls(Al, 1, 2, 3, 4)),
        (0xd06e0c9d, mls(Le, 14, 13, 12, 0)),
        (0xe0821493, umull(Al, 1, 2, 3, 4)),
        (0x1080ec9d, umull(Ne, 14, 0, 13, 12)),
        (0xe0c21493, smull(Al, 1, 2, 3, 4)),
        (0x00ce0e90, smull(Eq, 0, 14, 0, 14)),
        (0xe711f312, sdiv(Al, 1, 2, 3)),
        (0xc71ef01e, sdiv(Gt, 14, 14, 0)),
        (0xe731f312, udiv(Al, 1, 2, 3)),
        (0x4730fe10, udiv(Mi, 0, 0, 14)),
        (0xe16f1f12, clz(Al, 1, 2)),
        (0x116fef10, clz(Ne, 14, 0)),
        (0xe6ff1f32, rbit(Al, 1, 2)),
        (0x16ff0f3e, rbit(Ne, 0, 14)),
        (0xe6af1072, sxtb(Al, 1, 2)),
        (0x66afe070, sxtb(Vs, 14, 0)),
        (0xe6bf1072, sxth(Al, 1, 2)),
        (0x76bf007e, sxth(Vc, 0, 14)),
        (0xe6ef1072, uxtb(Al, 1, 2)),
        (0x86efe07e, uxtb(Hi, 14, 14)),
        (0xe6ff1072, uxth(Al, 1, 2)),
        (0x96ff0070, uxth(Ls, 0, 0)),
        (0xe59e0fff, ldr(Al, 0, 14, 4095)),
        (0x1590e000, ldr(Ne, 14, 0, 0)),
        (0xe58de800, str(Al, 14, 13, 2048)),
        (0x058e0fff, str(Eq, 0, 14, 4095)),
        (0xe5d21001, ldrb(Al, 1, 2, 1)),
        (0x05d0efff, ldrb(Eq, 14, 0, 4095)),
        (0xe5c21003, strb(Al, 1, 2, 3)),
        (0x15ce0000, strb(Ne, 0, 14, 0)),
        (0xe1d21fbf, ldrh(Al, 1, 2, 255)),
        (0x01d0e1b0, ldrh(Eq, 14, 0, 16)),
        (0xe1c210bf, strh(Al, 1, 2, 15)),
        (0x11ce0fb0, strh(Ne, 0, 14, 240)),
        (0xea000000, b(Al, 0)),
        (0x1a7fffff, b(Ne, 8388607)),
        (0xeb800000, bl(Al, -8388608)),
        (0x0bffffff, bl(Eq, -1)),
        (0x012fff10, bx(Eq, 0)),
        (0xe7ffffff, udf(65535)),
        (0xe7f000f0, udf(0)),
        (0xe7f001f0, udf(16)),
        (0xe3a00f01, moved(Al, Mov, 0, immediate(1, 15))),
        (0xe3a00100, moved(Al, Mov, 0, immediate(0, 1))),
    ]
}

// Words outside the table.
const REFUSED: [u32; 81] = [
    // No condition.
    0xf0010002, 0xfa000000, 0xf7f000f0, 0xffffffff,
    // The flags written.
    0xe0110002, 0xe1b0000e, 0xe01e0d90, 0xe0931492,
    // A test that does not write the flags.
    0xe100000a, 0xe1200000, 0xe1400000, 0xe1600000, 0xe3200000,
    // A field that should be zero.
    0xe15b100a, 0xe1a1d00b, 0xe1fe1000, 0xe00e1d90, 0xe1de100f,
    // R15 as an operand.
    0xe08f0001, 0xe080f001, 0xe080000f, 0xe0800f11, 0xe30ff008, 0xe300f008, 0xe59f0000, 0xe590f000,
    0xe12fff1f, 0xe00f0190, 0xe0000f90, 0xe000019f,
    // Shifts by 32 and RRX.
    0xe0010022, 0xe0010042, 0xe0010062,
    // TST and TEQ of a rotated immediate or a shifted register.
    0xe3100101, 0xe11e008e, 0xe11e002e, 0xe11e021e, 0xe3300f01, 0xe130008e,
    // MLA, UMAAL, UMLAL, SMLAL, MLS with S.
    0xe0200090, 0xe0400090, 0xe0a00090, 0xe0e00090, 0xe0700090,
    // Neighbours of SDIV and UDIV.
    0xe711e312, 0xe711f332, 0xe700f110, 0xe731e312,
    // Neighbours of CLZ and RBIT, and REV.
    0xe16e1f12, 0xe16f1e12, 0xe16f1f32, 0xe6fe1f32, 0xe6ff1e32, 0xe6bf1f32,
    // Extensions that rotate or add.
    0xe6af1472, 0xe6a11072, 0xe6bf1872, 0xe6e11072, 0xe6ff1c72,
    // Accesses by a register, with a negative offset, with write-back, of signed numbers or of two words.
    0xe7900001, 0xe5100004, 0xe15000b0, 0xe5b00000, 0xe4900004, 0xe1f000b0, 0xe19000b1, 0xe1d000d0,
    0xe1d000f0, 0xe1c000d0,
    // BLX, BXJ and neighbours of BX.
    0xe12fff3e, 0xe12fff2e, 0xe12eff1e, 0xe12fef1e,
    // UDF under a condition, and its neighbours.
    0x17f000f0, 0xe7f000e0, 0xe7e000f0,
    // NOP, STMDB, SVC, MCR, MRS.
    0xe320f000, 0xe92d4010, 0xef000000, 0xee070f15, 0xe10f0000,
];

#[test]
fn words_and_instructions(rt: HostRuntime) {
    for (word, inst) in table() {
        assert_eq!(rt; encode(inst), Some(word), "the word {word:#x}");
        assert_eq!(rt; decode(word), Some(inst), "the word {word:#x}");
    }
    for word in REFUSED {
        assert_eq!(rt; decode(word), None, "the word {word:#x}");
    }
}

fn agree(inst: Inst, word: u32) -> bool {
    encode(inst) == Some(word) && decode(word) == Some(inst)
}

const CONDITIONS: [Condition; 15] = [Eq, Ne, Cs, Cc, Mi, Pl, Vs, Vc, Hi, Ls, Ge, Lt, Gt, Le, Al];

// A register in the field that begins at the bit.
fn at(k: u8, bit: u32) -> u32
    requires { bit < 32 }
{
    (k as u32) << bit
}

const DATA: [(DataOp, u32); 10] = [
    (And, 0x0000_0000),
    (Eor, 0x0020_0000),
    (Sub, 0x0040_0000),
    (Rsb, 0x0060_0000),
    (Add, 0x0080_0000),
    (Adc, 0x00a0_0000),
    (Sbc, 0x00c0_0000),
    (Rsc, 0x00e0_0000),
    (Orr, 0x0180_0000),
    (Bic, 0x01c0_0000),
];

const MOVES: [(MoveOp, u32); 2] = [(Mov, 0x01a0_0000), (Mvn, 0x01e0_0000)];

const TESTS: [(TestOp, u32); 4] = [
    (Tst, 0x0110_0000),
    (Teq, 0x0130_0000),
    (Cmp, 0x0150_0000),
    (Cmn, 0x0170_0000),
];

// Second operands with the bits that spell them; TST and TEQ take the first four alone.
fn operands() -> [(Operand2, u32); 20] {
    [
        (immediate(0, 0), 0x0200_0000),
        (immediate(255, 0), 0x0200_00ff),
        (shifted(0, Lsl, 0), 0x000),
        (shifted(14, Lsl, 0), 0x00e),
        (immediate(0, 15), 0x0200_0f00),
        (immediate(255, 15), 0x0200_0fff),
        (immediate(1, 1), 0x0200_0101),
        (shifted(0, Lsl, 31), 0xf80),
        (shifted(14, Lsl, 1), 0x08e),
        (shifted(0, Lsr, 1), 0x0a0),
        (shifted(14, Lsr, 31), 0xfae),
        (shifted(0, Asr, 1), 0x0c0),
        (shifted(14, Asr, 31), 0xfce),
        (shifted(0, Ror, 1), 0x0e0),
        (shifted(14, Ror, 31), 0xfee),
        (shifted_by(0, Lsl, 0), 0x010),
        (shifted_by(14, Lsl, 14), 0xe1e),
        (shifted_by(0, Lsr, 14), 0xe30),
        (shifted_by(14, Asr, 0), 0x05e),
        (shifted_by(0, Ror, 14), 0xe70),
    ]
}

// One past an edge of a field each.
fn no_operands() -> [Operand2; 14] {
    [
        immediate(0, 16),
        immediate(255, 255),
        shifted(15, Lsl, 0),
        shifted(255, Lsl, 1),
        shifted(0, Lsl, 32),
        shifted(0, Lsr, 0),
        shifted(0, Lsr, 32),
        shifted(0, Asr, 0),
        shifted(0, Asr, 32),
        shifted(0, Ror, 0),
        shifted(0, Ror, 32),
        shifted_by(15, Lsl, 0),
        shifted_by(0, Ror, 15),
        shifted_by(0, Lsl, 255),
    ]
}

#[test]
fn each_field_of_data_processing(rt: HostRuntime) {
    for (number, condition) in CONDITIONS.iter().enumerate() {
        let high = (number as u32) << 28;
        for (d, n) in [(0, 0), (14, 0), (0, 14), (14, 13)] {
            for (place, (operand, bits)) in operands().iter().enumerate() {
                for (op, row) in DATA {
                    let word = high | row | at(d, 12) | at(n, 16) | *bits;
                    assert!(rt;
                        agree(data(*condition, op, d, n, *operand), word),
                        "{word:08x}"
                    );
                }
                for (op, row) in MOVES {
                    let word = high | row | at(d, 12) | *bits;
                    assert!(rt;
                        agree(moved(*condition, op, d, *operand), word),
                        "{word:08x}"
                    );
                }
                for (op, row) in TESTS {
                    let word = high | row | at(n, 16) | *bits;
                    let inst = test(*condition, op, n, *operand);
                    if place < 4 || op == Cmp || op == Cmn {
                        assert!(rt; agree(inst, word), "{word:08x}");
                    } else {
                        assert_eq!(rt; encode(inst), None, "{inst:?}");
                        assert_eq!(rt; decode(word), None, "{word:08x}");
                    }
                }
            }
        }
    }
}

#[test]
fn past_each_field_of_data_processing(rt: HostRuntime) {
    for operand in no_operands() {
        for (op, _) in DATA {
            assert_eq!(rt;
                encode(data(Al, op, 0, 0, operand)),
                None,
                "{op:?} {operand:?}"
            );
        }
        for (op, _) in MOVES {
            assert_eq!(rt;
                encode(moved(Al, op, 0, operand)),
                None,
                "{op:?} {operand:?}"
            );
        }
        for (op, _) in TESTS {
            assert_eq!(rt;
                encode(test(Al, op, 0, operand)),
                None,
                "{op:?} {operand:?}"
            );
        }
    }
    let plain = shifted(2, Lsl, 0);
    for (op, _) in DATA {
        assert_eq!(rt; encode(data(Al, op, 15, 0, plain)), None, "{op:?}");
        assert_eq!(rt; encode(data(Al, op, 0, 15, plain)), None, "{op:?}");
    }
    for (op, _) in MOVES {
        assert_eq!(rt; encode(moved(Al, op, 15, plain)), None, "{op:?}");
    }
    for (op, _) in TESTS {
        assert_eq!(rt; encode(test(Al, op, 15, plain)), None, "{op:?}");
    }
}

// The rows of two to four registers, with their words under condition 0.
fn products(condition: Condition, registers: [u8; 4]) -> [(Inst, u32); 12] {
    let [p, q, r, s] = registers;
    let two = at(p, 12) | at(q, 0);
    let three = at(p, 16) | at(q, 0) | at(r, 8);
    let long = at(p, 12) | at(q, 16) | at(r, 0) | at(s, 8);
    [
        (mul(condition, p, q, r), 0x0000_0090 | three),
        (sdiv(condition, p, q, r), 0x0710_f010 | three),
        (udiv(condition, p, q, r), 0x0730_f010 | three),
        (mls(condition, p, q, r, s), 0x0060_0090 | three | at(s, 12)),
        (umull(condition, p, q, r, s), 0x0080_0090 | long),
        (smull(condition, p, q, r, s), 0x00c0_0090 | long),
        (clz(condition, p, q), 0x016f_0f10 | two),
        (rbit(condition, p, q), 0x06ff_0f30 | two),
        (sxtb(condition, p, q), 0x06af_0070 | two),
        (sxth(condition, p, q), 0x06bf_0070 | two),
        (uxtb(condition, p, q), 0x06ef_0070 | two),
        (uxth(condition, p, q), 0x06ff_0070 | two),
    ]
}

// The rows with an immediate, each with its word under condition 0.
fn immediates(condition: Condition, t: u8, n: u8, k: usize) -> [(Inst, u32); 11]
    requires { k < 4 }
{
    let (imm16, wide) = WIDE[k];
    let (imm12, low) = LOW[k];
    let (imm8, split) = SPLIT[k];
    let (imm24, words) = WORDS[k];
    let base = at(t, 12) | at(n, 16);
    [
        (movw(condition, t, imm16), 0x0300_0000 | at(t, 12) | wide),
        (movt(condition, t, imm16), 0x0340_0000 | at(t, 12) | wide),
        (ldr(condition, t, n, imm12), 0x0590_0000 | base | low),
        (str(condition, t, n, imm12), 0x0580_0000 | base | low),
        (ldrb(condition, t, n, imm12), 0x05d0_0000 | base | low),
        (strb(condition, t, n, imm12), 0x05c0_0000 | base | low),
        (ldrh(condition, t, n, imm8), 0x01d0_00b0 | base | split),
        (strh(condition, t, n, imm8), 0x01c0_00b0 | base | split),
        (b(condition, imm24), 0x0a00_0000 | words),
        (bl(condition, imm24), 0x0b00_0000 | words),
        (bx(condition, t), 0x012f_ff10 | at(t, 0)),
    ]
}

const WIDE: [(u16, u32); 4] = [
    (0, 0),
    (0x0fff, 0x0fff),
    (0xf000, 0xf_0000),
    (0xffff, 0xf_0fff),
];

const LOW: [(u16, u32); 4] = [(0, 0), (1, 1), (0x800, 0x800), (0xfff, 0xfff)];

const SPLIT: [(u8, u32); 4] = [(0, 0), (0x0f, 0x00f), (0xf0, 0xf00), (0xff, 0xf0f)];

const WORDS: [(i32, u32); 4] = [
    (-8_388_608, 0x80_0000),
    (-1, 0xff_ffff),
    (0, 0),
    (8_388_607, 0x7f_ffff),
];

#[test]
fn each_other_field(rt: HostRuntime) {
    for (number, condition) in CONDITIONS.iter().enumerate() {
        let high = (number as u32) << 28;
        for registers in [
            [0, 0, 0, 0],
            [14, 0, 0, 0],
            [0, 14, 0, 0],
            [0, 0, 14, 0],
            [0, 0, 0, 14],
            [14, 13, 12, 11],
        ] {
            for (inst, row) in products(*condition, registers) {
                assert!(rt; agree(inst, high | row), "{inst:?}");
            }
        }
        for (t, n) in [(0, 0), (14, 0), (0, 14), (14, 13)] {
            for k in 0..4 {
                for (inst, row) in immediates(*condition, t, n, k) {
                    assert!(rt; agree(inst, high | row), "{inst:?}");
                }
            }
        }
    }
    for (imm16, word) in [
        (0, 0xe7f0_00f0),
        (15, 0xe7f0_00ff),
        (0xfff0, 0xe7ff_fff0),
        (0xffff, 0xe7ff_ffff),
    ] {
        assert!(rt; agree(udf(imm16), word), "{word:08x}");
    }
}

#[test]
fn past_each_other_field(rt: HostRuntime) {
    for (registers, from, to) in [
        ([15, 0, 0, 0], 0, 12),
        ([0, 15, 0, 0], 0, 12),
        ([0, 0, 15, 0], 0, 6),
        ([0, 0, 0, 15], 3, 6),
    ] {
        for (inst, _) in products(Al, registers).iter().take(to).skip(from) {
            assert_eq!(rt; encode(*inst), None, "{inst:?}");
        }
    }
    for inst in [
        movw(Al, 15, 0),
        movt(Al, 15, 0),
        ldr(Al, 15, 0, 0),
        ldr(Al, 0, 15, 0),
        ldr(Al, 0, 0, 4096),
        str(Al, 15, 0, 0),
        str(Al, 0, 15, 0),
        str(Al, 0, 0, 4096),
        ldrb(Al, 15, 0, 0),
        ldrb(Al, 0, 15, 0),
        ldrb(Al, 0, 0, 4096),
        strb(Al, 15, 0, 0),
        strb(Al, 0, 15, 0),
        strb(Al, 0, 0, 65_535),
        ldrh(Al, 15, 0, 0),
        ldrh(Al, 0, 15, 0),
        strh(Al, 15, 0, 0),
        strh(Al, 0, 15, 0),
        b(Al, 8_388_608),
        b(Al, -8_388_609),
        bl(Al, 8_388_608),
        bl(Al, -8_388_609),
        bx(Al, 15),
        bx(Al, 255),
    ] {
        assert_eq!(rt; encode(inst), None, "{inst:?}");
    }
}

// A word of each row, and the bits that can be turned so that the word is one of the table again.
#[test]
fn one_bit_off(rt: HostRuntime) {
    for (word, bits) in NEIGHBOURS {
        for bit in 0..32u32 {
            let other = word ^ (1 << bit);
            match decode(other) {
                Some(inst) => {
                    assert!(rt; bits >> bit & 1 == 1, "{word:08x} bit {bit} is {inst:?}");
                    assert_eq!(rt; encode(inst), Some(other), "{word:08x} bit {bit}");
                }
                None => assert!(rt; bits >> bit & 1 == 0, "{word:08x} bit {bit} is none"),
            }
        }
    }
}

// By the manual's fields; what is in the table is the row that LLVM's disassembler reads.
const NEIGHBOURS: [(u32, u32); 71] = [
    (0xe20563a5, 0xebefffff),
    (0xe0056003, 0xe2efff9f),
    (0xe22563a5, 0xeaefffff),
    (0xe0256003, 0xe2efff9f),
    (0xe24563a5, 0xebefffff),
    (0xe0456003, 0xe2efff9f),
    (0xe26563a5, 0xeaefffff),
    (0xe0656003, 0xe2efff9f),
    (0xe28563a5, 0xebefffff),
    (0xe0856003, 0xe3efff9f),
    (0xe0856483, 0xe3efffff),
    (0xe08564a3, 0xe3efffef),
    (0xe08564c3, 0xe3efffef),
    (0xe08564e3, 0xe3efffef),
    (0xe0856433, 0xe3efff7f),
    (0xe2a563a5, 0xeaefffff),
    (0xe0a56003, 0xe2efff9f),
    (0xe2c563a5, 0xebefffff),
    (0xe0c56003, 0xe3efff9f),
    (0xe2e563a5, 0xeaefffff),
    (0xe0e56003, 0xe2efff9f),
    (0xe31500a5, 0xe87f00ff),
    (0xe1150003, 0xe26f000f),
    (0xe33500a5, 0xe86f00ff),
    (0xe1350003, 0xe26f000f),
    (0xe35503a5, 0xea3f0fff),
    (0xe1550003, 0xe26f0f9f),
    (0xe1550483, 0xe22f0fef),
    (0xe15504a3, 0xe22f0fef),
    (0xe15504c3, 0xe22f0fef),
    (0xe15504e3, 0xe22f0fef),
    (0xe1550433, 0xe22f0f7f),
    (0xe37503a5, 0xea2f0fff),
    (0xe1750003, 0xe26f0f9f),
    (0xe38563a5, 0xebcfffff),
    (0xe1856003, 0xe74fff9f),
    (0xe3a063a5, 0xeb60ffff),
    (0xe1a06003, 0xe360ff9f),
    (0xe1a06483, 0xe360ffef),
    (0xe1a064a3, 0xe360ffef),
    (0xe1a064c3, 0xe360ffef),
    (0xe1a064e3, 0xe360ffef),
    (0xe1a06433, 0xe360ff7f),
    (0xe3c563a5, 0xebcfffff),
    (0xe1c56003, 0xe74fff9f),
    (0xe3e063a5, 0xeb60ffff),
    (0xe1e06003, 0xe360ff9f),
    (0xe3056123, 0xe9cfffff),
    (0xe3456123, 0xe9cfffff),
    (0xe0060493, 0xe28f0f9f),
    (0xe0662493, 0xe20fff9f),
    (0xe0865493, 0xe24fff9f),
    (0xe0c65493, 0xe24fff9f),
    (0xe716f413, 0xe02f0f0f),
    (0xe736f413, 0xe02f0f0f),
    (0xe16f6f13, 0xe000f00f),
    (0xe6ff6f33, 0xe000f00f),
    (0xe6af6073, 0xe050f00f),
    (0xe6bf6073, 0xe050f00f),
    (0xe6ef6073, 0xe050f00f),
    (0xe6ff6073, 0xe050f00f),
    (0xe5956123, 0xe05fffff),
    (0xe5856123, 0xe45fffff),
    (0xe5d56123, 0xe05fffff),
    (0xe5c56123, 0xe45fffff),
    (0xe1d561b5, 0xe41fff0f),
    (0xe1c561b5, 0xe61fff9f),
    (0xea123456, 0xe1ffffff),
    (0xeb123456, 0xe1ffffff),
    (0xe12fff13, 0xe000000f),
    (0xe7f123f4, 0x000fff0f),
];
