// The units of instructions of the ops.
ghost use Rattle.std.specs.Prelude.{◌≡◌, ◌+◌, ◌*◌, ◌/◌, ◌%◌, ◌^◌, ◌<◌, ◌≤◌, ◌++◌, ◌∷◌, [], map, OnOk};
ghost use Rattle.bk_arm_emit.specs.Lines.{inst};
ghost use Rattle.bk_arm_emit.specs.Units as spec;

use crate::insts::{
    by_count, byte, capped, compute, copy, copy_if, load, plain, skip, store, test, trap,
    with_number,
};
use crate::lines::{put, put_open};
use crate::words::{put_load, put_number, put_store};
use bk_arm_isa::{Condition, DataOp, Inst, MoveOp, Operand2, Shift, TestOp};
use bk_emit::{Handle, Line, Patch, Regs};
use bk_num::residue;
use bk_ops::{ArmOp, Family, Op};
use std::alloc::AllocError;

/// The register that is free inside a unit.
pub(crate) const SCRATCH: u8 = 11;

const ALWAYS: Condition = Condition::Al;

/// 256, which no byte holds: 1 rotated right by 24.
const BYTES_END: Operand2 = Operand2::Immediate {
    imm8: 1,
    rotation: 12,
};

/// Adds the unit of a value with this op.
#[tactic(auto, unfolding(crate::specs::Units::family_unit))]
pub(crate) fn put_unit(
    lines: &mut Vec<Line>,
    op: Op,
    regs: Regs,
    int: i64,
    handle: Option<Handle>,
    frame: u32,
) -> Result<(), AllocError>
    ensures { OnOk result (lines.new.items ≡ lines.old.items ++ spec.unit op regs int handle frame) }
{
    match op.family {
        Family::Arm(ArmOp::Const) => put_number(lines, regs.d, residue(32, i128::from(int))),
        Family::Arm(ArmOp::Addr) => put_addr(lines, regs.d, handle),
        Family::Arm(machine) => put_machine(lines, machine, op.a, regs, int),
        Family::ArgWord => put_load(lines, regs.d, word_offset(frame, int)),
        Family::RetWord => put_store(lines, regs.a, word_offset(frame, int)),
        Family::ResWord => put_load(lines, regs.d, word_offset(0, int)),
        Family::OutWord => put_store(lines, regs.a, word_offset(0, int)),
        Family::Call => put_call(lines, handle),
        Family::Trap => put(lines, &[trap(int)]),
        _ => Ok(()),
    }
}

/// The offset of the word with this number behind an offset.
fn word_offset(base: u32, int: i64) -> u64
    ensures { result ≡ spec.word_offset base int }
{
    residue(32, i128::from(base) + 4 * i128::from(int))
}

fn put_call(lines: &mut Vec<Line>, handle: Option<Handle>) -> Result<(), AllocError>
    ensures { OnOk result (lines.new.items ≡ lines.old.items ++ spec.call_unit handle) }
{
    let first = Inst::Bl {
        condition: ALWAYS,
        imm24: 0,
    };
    put_open(lines, Patch::Call, handle, first)
}

fn put_addr(lines: &mut Vec<Line>, rd: u8, handle: Option<Handle>) -> Result<(), AllocError>
    ensures { OnOk result (lines.new.items ≡ lines.old.items ++ spec.addr_unit rd handle) }
{
    let low = Inst::Movw {
        condition: ALWAYS,
        rd,
        imm16: 0,
    };
    let high = Inst::Movt {
        condition: ALWAYS,
        rd,
        imm16: 0,
    };
    put_open(lines, Patch::Addr, handle, low)?;
    put(lines, &[high])
}

/// Adds the unit of a machine op that waits for no address.
fn put_machine(
    lines: &mut Vec<Line>,
    op: ArmOp,
    width: u8,
    regs: Regs,
    int: i64,
) -> Result<(), AllocError>
    ensures { OnOk result (lines.new.items ≡ lines.old.items ++ map inst (spec.machine_unit op width regs int)) }
{
    match single(op, width, regs, int) {
        Some(one) => put(lines, &[one]),
        None => put_several(lines, op, regs, int),
    }
}

/// The instruction of an op that has one.
#[tactic(auto, unfolding(crate::specs::Units::single))]
fn single(op: ArmOp, width: u8, regs: Regs, int: i64) -> Option<Inst>
    ensures { result ≡ spec.single op width regs int }
{
    match op {
        ArmOp::Rsb0 => Some(compute(DataOp::Rsb, regs.d, regs.a, byte(0))),
        ArmOp::Addi => Some(with_number(DataOp::Add, regs.d, regs.a, int)),
        ArmOp::Subi => Some(with_number(DataOp::Sub, regs.d, regs.a, int)),
        ArmOp::Andi => Some(with_number(DataOp::And, regs.d, regs.a, int)),
        ArmOp::Eori => Some(with_number(DataOp::Eor, regs.d, regs.a, int)),
        ArmOp::Lsli => Some(copy(regs.d, by_count(Shift::Lsl, regs.a, int))),
        ArmOp::Lsri => Some(copy(regs.d, by_count(Shift::Lsr, regs.a, int))),
        ArmOp::Asri => Some(copy(regs.d, by_count(Shift::Asr, regs.a, int))),
        ArmOp::Load => Some(load(width, regs.d, regs.a, capped(4096, int))),
        ArmOp::Store => Some(store(width, regs.b, regs.a, capped(4096, int))),
        _ => named(op, regs),
    }
}

/// The instruction with the name of the op, or that of a half of a product.
#[tactic(auto, unfolding(crate::specs::Units::named))]
fn named(op: ArmOp, regs: Regs) -> Option<Inst>
    ensures { result ≡ spec.named op regs }
{
    let condition = ALWAYS;
    let Regs { d, a, b, .. } = regs;
    match op {
        ArmOp::Mul => Some(Inst::Mul {
            condition,
            rd: d,
            rn: a,
            rm: b,
        }),
        ArmOp::Smulh => Some(Inst::Smull {
            condition,
            rd_lo: SCRATCH,
            rd_hi: d,
            rn: a,
            rm: b,
        }),
        ArmOp::Umulh => Some(Inst::Umull {
            condition,
            rd_lo: SCRATCH,
            rd_hi: d,
            rn: a,
            rm: b,
        }),
        ArmOp::Sdiv => Some(signed_quotient(d, regs)),
        ArmOp::Udiv => Some(quotient(d, regs)),
        ArmOp::Mvn => Some(Inst::Move {
            condition,
            op: MoveOp::Mvn,
            rd: d,
            operand2: plain(a),
        }),
        ArmOp::Sxtb => Some(Inst::Sxtb {
            condition,
            rd: d,
            rm: a,
        }),
        ArmOp::Sxth => Some(Inst::Sxth {
            condition,
            rd: d,
            rm: a,
        }),
        ArmOp::Uxtb => Some(Inst::Uxtb {
            condition,
            rd: d,
            rm: a,
        }),
        ArmOp::Uxth => Some(Inst::Uxth {
            condition,
            rd: d,
            rm: a,
        }),
        _ => match data_op(op) {
            Some(op) => Some(compute(op, d, a, plain(b))),
            None => None,
        },
    }
}

/// The data processing of two registers with the name of the op.
#[tactic(auto, unfolding(crate::specs::Units::data_op))]
fn data_op(op: ArmOp) -> Option<DataOp>
    ensures { result ≡ spec.data_op op }
{
    match op {
        ArmOp::Add => Some(DataOp::Add),
        ArmOp::Sub => Some(DataOp::Sub),
        ArmOp::And => Some(DataOp::And),
        ArmOp::Orr => Some(DataOp::Orr),
        ArmOp::Eor => Some(DataOp::Eor),
        _ => None,
    }
}

/// Adds that a condition of two registers becomes 1 or 0.
fn put_set(lines: &mut Vec<Line>, condition: Condition, regs: Regs) -> Result<(), AllocError>
    ensures { OnOk result (lines.new.items ≡ lines.old.items ++ map inst (spec.set condition regs)) }
{
    let insts = [
        test(TestOp::Cmp, regs.a, plain(regs.b)),
        copy(regs.d, byte(0)),
        copy_if(condition, regs.d, byte(1)),
    ];
    put(lines, &insts)
}

/// Adds the unit of a machine op of several instructions.
#[tactic(auto, unfolding(crate::specs::Units::several))]
fn put_several(lines: &mut Vec<Line>, op: ArmOp, regs: Regs, int: i64) -> Result<(), AllocError>
    ensures { OnOk result (lines.new.items ≡ lines.old.items ++ map inst (spec.several op regs int)) }
{
    match op {
        ArmOp::Smod => put_remainder(lines, signed_quotient(SCRATCH, regs), regs),
        ArmOp::Umod => put_remainder(lines, quotient(SCRATCH, regs), regs),
        ArmOp::Lsl => put_shift(lines, Shift::Lsl, regs),
        ArmOp::Lsr => put_shift(lines, Shift::Lsr, regs),
        ArmOp::Asr => put_sign_shift(lines, regs),
        ArmOp::SetEq => put_set(lines, Condition::Eq, regs),
        ArmOp::SetNe => put_set(lines, Condition::Ne, regs),
        ArmOp::SetLt => put_set(lines, Condition::Lt, regs),
        ArmOp::SetLe => put_set(lines, Condition::Le, regs),
        ArmOp::SetLo => put_set(lines, Condition::Cc, regs),
        ArmOp::SetLs => put_set(lines, Condition::Ls, regs),
        ArmOp::Rotl => put_rotation(lines, regs),
        ArmOp::Zmask => put_mask(lines, regs),
        ArmOp::Ctz => put_trailing_zeros(lines, regs),
        ArmOp::Blen => put_length_in_bits(lines, regs),
        ArmOp::Sel => put_choice(lines, regs),
        ArmOp::AddHi => put_high_half(lines, TestOp::Cmn, DataOp::Adc, regs),
        ArmOp::SubHi => put_high_half(lines, TestOp::Cmp, DataOp::Sbc, regs),
        ArmOp::StoreB => put_store_bool(lines, regs, int),
        ArmOp::Zero => put_zeros(lines, regs, byte_count(int)),
        ArmOp::Move => put_chunks(lines, true, regs, byte_count(int)),
        ArmOp::Nil => put_nil_check(lines, regs.a),
        _ => Ok(()),
    }
}

/// The quotient of two signed numbers.
fn signed_quotient(rd: u8, regs: Regs) -> Inst
    ensures { result ≡ spec.signed_quotient rd regs }
{
    Inst::Sdiv {
        condition: ALWAYS,
        rd,
        rn: regs.a,
        rm: regs.b,
    }
}

/// The quotient of two numbers without a sign.
fn quotient(rd: u8, regs: Regs) -> Inst
    ensures { result ≡ spec.quotient rd regs }
{
    Inst::Udiv {
        condition: ALWAYS,
        rd,
        rn: regs.a,
        rm: regs.b,
    }
}

/// Adds the remainder of a quotient.
fn put_remainder(lines: &mut Vec<Line>, quotient: Inst, regs: Regs) -> Result<(), AllocError>
    ensures { OnOk result (lines.new.items ≡ lines.old.items ++ map inst (spec.remainder quotient regs)) }
{
    let rest = Inst::Mls {
        condition: ALWAYS,
        rd: regs.d,
        rn: SCRATCH,
        rm: regs.b,
        ra: regs.a,
    };
    put(lines, &[quotient, rest])
}

/// A shift that gives 0 at counts of 32 and above: the low byte counts, and counts of 256 and above are told apart.
fn put_shift(lines: &mut Vec<Line>, shift: Shift, regs: Regs) -> Result<(), AllocError>
    ensures { OnOk result (lines.new.items ≡ lines.old.items ++ map inst (spec.shift shift regs)) }
{
    let insts = [
        test(TestOp::Cmp, regs.b, BYTES_END),
        copy(regs.d, by_register(shift, regs.a, regs.b)),
        copy_if(Condition::Cs, regs.d, byte(0)),
    ];
    put(lines, &insts)
}

/// A shift that gives the sign fill at counts of 32 and above.
fn put_sign_shift(lines: &mut Vec<Line>, regs: Regs) -> Result<(), AllocError>
    ensures { OnOk result (lines.new.items ≡ lines.old.items ++ map inst (spec.sign_shift regs)) }
{
    let fill = Operand2::ShiftImmediate {
        rm: regs.d,
        shift: Shift::Asr,
        imm5: 31,
    };
    let insts = [
        test(TestOp::Cmp, regs.b, BYTES_END),
        copy(regs.d, by_register(Shift::Asr, regs.a, regs.b)),
        copy_if(Condition::Cs, regs.d, fill),
    ];
    put(lines, &insts)
}

/// A register shifted by another.
fn by_register(shift: Shift, rm: u8, rs: u8) -> Operand2
    ensures { result ≡ Operand2.ShiftRegister rm shift rs }
{
    Operand2::ShiftRegister { rm, shift, rs }
}

fn put_rotation(lines: &mut Vec<Line>, regs: Regs) -> Result<(), AllocError>
    ensures { OnOk result (lines.new.items ≡ lines.old.items ++ map inst (spec.rotation regs)) }
{
    let insts = [
        compute(DataOp::Rsb, SCRATCH, regs.b, byte(32)),
        copy(regs.d, by_register(Shift::Ror, regs.a, SCRATCH)),
    ];
    put(lines, &insts)
}

/// Adds all ones where the argument is not 0, else 0.
fn put_mask(lines: &mut Vec<Line>, regs: Regs) -> Result<(), AllocError>
    ensures { OnOk result (lines.new.items ≡ lines.old.items ++ map inst (spec.mask regs)) }
{
    let ones = Inst::Move {
        condition: Condition::Ne,
        op: MoveOp::Mvn,
        rd: regs.d,
        operand2: byte(0),
    };
    let insts = [
        test(TestOp::Cmp, regs.a, byte(0)),
        copy(regs.d, byte(0)),
        ones,
    ];
    put(lines, &insts)
}

fn put_trailing_zeros(lines: &mut Vec<Line>, regs: Regs) -> Result<(), AllocError>
    ensures { OnOk result (lines.new.items ≡ lines.old.items ++ map inst (spec.trailing_zeros regs)) }
{
    let turned = Inst::Rbit {
        condition: ALWAYS,
        rd: SCRATCH,
        rm: regs.a,
    };
    put(lines, &[turned, leading_zeros(regs.d, SCRATCH)])
}

fn put_length_in_bits(lines: &mut Vec<Line>, regs: Regs) -> Result<(), AllocError>
    ensures { OnOk result (lines.new.items ≡ lines.old.items ++ map inst (spec.length_in_bits regs)) }
{
    let insts = [
        leading_zeros(SCRATCH, regs.a),
        compute(DataOp::Rsb, regs.d, SCRATCH, byte(32)),
    ];
    put(lines, &insts)
}

fn leading_zeros(rd: u8, rm: u8) -> Inst
    ensures { result ≡ Inst.Clz Condition.Al rd rm }
{
    Inst::Clz {
        condition: ALWAYS,
        rd,
        rm,
    }
}

fn put_choice(lines: &mut Vec<Line>, regs: Regs) -> Result<(), AllocError>
    ensures { OnOk result (lines.new.items ≡ lines.old.items ++ map inst (spec.choice regs)) }
{
    let insts = [
        test(TestOp::Tst, regs.c, byte(1)),
        copy(SCRATCH, plain(regs.b)),
        copy_if(Condition::Ne, SCRATCH, plain(regs.a)),
        copy(regs.d, plain(SCRATCH)),
    ];
    put(lines, &insts)
}

/// Adds the high half of a sum or a difference.
fn put_high_half(
    lines: &mut Vec<Line>,
    low: TestOp,
    high: DataOp,
    regs: Regs,
) -> Result<(), AllocError>
    ensures { OnOk result (lines.new.items ≡ lines.old.items ++ map inst (spec.high_half low high regs)) }
{
    let insts = [
        test(low, regs.c, plain(regs.e)),
        compute(high, regs.d, regs.a, plain(regs.b)),
    ];
    put(lines, &insts)
}

fn put_store_bool(lines: &mut Vec<Line>, regs: Regs, int: i64) -> Result<(), AllocError>
    ensures { OnOk result (lines.new.items ≡ lines.old.items ++ map inst (spec.store_bool regs int)) }
{
    let insts = [
        compute(DataOp::And, SCRATCH, regs.b, byte(1)),
        store(1, SCRATCH, regs.a, capped(4096, int)),
    ];
    put(lines, &insts)
}

fn put_nil_check(lines: &mut Vec<Line>, a: u8) -> Result<(), AllocError>
    ensures { OnOk result (lines.new.items ≡ lines.old.items ++ map inst (spec.nil_check a)) }
{
    let insts = [test(TestOp::Cmp, a, byte(0)), skip(Condition::Ne), trap(1)];
    put(lines, &insts)
}

/// A count of bytes: none where it is negative.
fn byte_count(int: i64) -> u64
    ensures value { result ≡ spec.byte_count int }
    ensures bound { result ≤ 2 ^ 32 }
{
    if int < 0 {
        0
    } else {
        capped(0x1_0000_0000, int)
    }
}

/// Adds so many zeros.
#[tactic(auto, using(crate::proofs::Pieces::two_put))]
fn put_zeros(lines: &mut Vec<Line>, regs: Regs, bytes: u64) -> Result<(), AllocError>
    requires { bytes ≤ 2 ^ 32 }
    ensures { OnOk result (lines.new.items ≡ lines.old.items ++ map inst (spec.zeros regs bytes)) }
{
    if bytes == 0 {
        return Ok(());
    }
    let zero = Inst::Movw {
        condition: ALWAYS,
        rd: SCRATCH,
        imm16: 0,
    };
    put(lines, &[zero])?;
    put_chunks(lines, false, regs, bytes)
}

/// Adds zeros or a move of so many bytes, from offset 0 in the largest pieces that fit.
#[tactic(auto, using(crate::proofs::Pieces::three_put))]
fn put_chunks(
    lines: &mut Vec<Line>,
    is_move: bool,
    regs: Regs,
    bytes: u64,
) -> Result<(), AllocError>
    requires { bytes ≤ 2 ^ 32 }
    ensures { OnOk result (lines.new.items ≡ lines.old.items ++ map inst (spec.chunks is_move regs bytes)) }
{
    put_fours(lines, is_move, regs, bytes / 4)?;
    put_chunk_if(bytes % 4 >= 2, lines, is_move, regs, 2, bytes / 4 * 4)?;
    put_chunk_if(bytes % 2 == 1, lines, is_move, regs, 1, bytes / 2 * 2)
}

/// Adds so many pieces of four bytes.
#[tactic(auto, using(crate::proofs::Pieces::fours_more), unfolding(crate::specs::Units::fours))]
fn put_fours(lines: &mut Vec<Line>, is_move: bool, regs: Regs, count: u64) -> Result<(), AllocError>
    requires { count ≤ 2 ^ 30 }
    ensures { OnOk result (lines.new.items ≡ lines.old.items ++ map inst (spec.fours is_move regs count)) }
{
    for place in 0..count {
        put_chunk(lines, is_move, regs, 4, 4 * place)?;
    }
    Ok(())
}

fn put_chunk_if(
    there: bool,
    lines: &mut Vec<Line>,
    is_move: bool,
    regs: Regs,
    width: u8,
    offset: u64,
) -> Result<(), AllocError>
    ensures { OnOk result (lines.new.items ≡ lines.old.items ++ map inst (spec.chunk_if there is_move regs width offset)) }
{
    if there {
        put_chunk(lines, is_move, regs, width, offset)?;
    }
    Ok(())
}

fn put_chunk(
    lines: &mut Vec<Line>,
    is_move: bool,
    regs: Regs,
    width: u8,
    offset: u64,
) -> Result<(), AllocError>
    ensures { OnOk result (lines.new.items ≡ lines.old.items ++ map inst (spec.chunk is_move regs width offset)) }
{
    let put_at_a = store(width, SCRATCH, regs.a, offset);
    if is_move {
        put(lines, &[load(width, SCRATCH, regs.b, offset), put_at_a])
    } else {
        put(lines, &[put_at_a])
    }
}
