// The units of instructions of the ops.
ghost use Rattle.std.specs.Prelude.{◌≡◌, ◌+◌, ◌*◌, ◌/◌, ◌%◌, ◌^◌, ◌<◌, ◌≤◌, ◌++◌, ◌∷◌, [], map, OnOk};
ghost use Rattle.bk_rv_emit.specs.Numbers as numbers;
ghost use Rattle.bk_rv_emit.specs.Lines.{inst};
ghost use Rattle.bk_rv_emit.specs.Units as spec;

use crate::lines::{put, put_open};
use crate::words::{put_load, put_store};
use bk_emit::{Handle, Line, Patch, Regs};
use bk_num::{residue, sext};
use bk_ops::{Family, Op, RvOp};
use bk_rv_isa::{BranchOp, ImmediateOp, Inst, LoadOp, RegisterOp, ShiftOp, StoreOp};
use std::alloc::AllocError;

/// The register that is free inside a unit.
pub(crate) const SCRATCH: u8 = 31;

/// The stack pointer.
pub(crate) const STACK: u8 = 2;

/// Adds the unit of a value with this op.
#[tactic(auto, unfolding(crate::specs::Units::family_unit))]
pub(crate) fn put_unit(
    lines: &mut Vec<Line>,
    op: Op,
    regs: Regs,
    int: i64,
    handle: Option<Handle>,
    frame: u32,
) -> Result<(), AllocError>
    ensures { OnOk result (lines.new.items ≡ lines.old.items ++ spec.unit op regs int handle frame) }
{
    match op.family {
        Family::Rv(RvOp::Const) => put_const(lines, regs.d, int, handle),
        Family::Rv(RvOp::Addr) => put_addr(lines, regs.d, handle),
        Family::Rv(machine) => put_machine(lines, machine, op.a, regs, int),
        Family::ArgWord => put_load(lines, regs.d, word_offset(frame, int)),
        Family::RetWord => put_store(lines, regs.a, word_offset(frame, int)),
        Family::ResWord => put_load(lines, regs.d, word_offset(0, int)),
        Family::OutWord => put_store(lines, regs.a, word_offset(0, int)),
        Family::Call | Family::CallRegs => put_call(lines, handle),
        Family::Trap => put_trap(lines, int),
        _ => Ok(()),
    }
}

/// A number, at most `most`, which stands for those that are above it or negative.
fn capped(most: u64, int: i64) -> u64
    ensures value { result ≡ numbers.capped most int }
    ensures bound { result ≤ most }
{
    if int < 0 || int.cast_unsigned() > most {
        most
    } else {
        int.cast_unsigned()
    }
}

/// The offset of the word with this number behind an offset.
fn word_offset(base: u32, int: i64) -> u64
    ensures value { result ≡ spec.word_offset base int }
    ensures bound { result ≤ 2 ^ 40 }
{
    u64::from(base) + 8 * capped(0x1_0000_0000, int)
}

/// Adds a trap with this number.
pub(crate) fn put_trap(lines: &mut Vec<Line>, number: i64) -> Result<(), AllocError>
    ensures { OnOk result (lines.new.items ≡ lines.old.items ++ spec.trap number) }
{
    let number = Inst::OpImm(ImmediateOp::Addi, SCRATCH, 0, number);
    put(lines, &[number, Inst::Ebreak])
}

fn put_call(lines: &mut Vec<Line>, handle: Option<Handle>) -> Result<(), AllocError>
    ensures { OnOk result (lines.new.items ≡ lines.old.items ++ spec.call_unit handle) }
{
    let first = Inst::Auipc(SCRATCH, 0);
    put_open(lines, Patch::Call, handle, first, Inst::Jalr(1, SCRATCH, 0))
}

fn put_addr(lines: &mut Vec<Line>, d: u8, handle: Option<Handle>) -> Result<(), AllocError>
    ensures { OnOk result (lines.new.items ≡ lines.old.items ++ spec.addr_unit d handle) }
{
    let second = Inst::OpImm(ImmediateOp::Addi, d, d, 0);
    put_open(lines, Patch::Addr, handle, Inst::Lui(d, 0), second)
}

/// Adds a constant: of 12 bits, of 32 bits, or from the pool.
fn put_const(
    lines: &mut Vec<Line>,
    d: u8,
    int: i64,
    handle: Option<Handle>,
) -> Result<(), AllocError>
    ensures { OnOk result (lines.new.items ≡ lines.old.items ++ spec.const_unit d int handle) }
{
    if int >= -2048 && int < 2048 {
        put(lines, &[Inst::OpImm(ImmediateOp::Addi, d, 0, int)])
    } else if int >= -0x8000_0000 && int < 0x8000_0000 {
        put(
            lines,
            &[Inst::Lui(d, upper(int)), Inst::Addiw(d, d, lower(int))],
        )
    } else {
        let second = Inst::Load(LoadOp::Ld, d, d, 0);
        put_open(lines, Patch::Pool, handle, Inst::Lui(d, 0), second)
    }
}

/// The immediate of LUI or AUIPC that with `lower` makes a number of 32 bits.
pub(crate) fn upper(number: i64) -> i64
    ensures { result ≡ numbers.upper number }
{
    sext(20, (residue(32, i128::from(number)) + 2048) / 0x1000)
}

/// The low 12 bits of a number, with their sign.
pub(crate) fn lower(number: i64) -> i64
    ensures { result ≡ numbers.lower number }
{
    sext(12, residue(32, i128::from(number)))
}

/// Adds the unit of a machine op that waits for no address.
fn put_machine(
    lines: &mut Vec<Line>,
    op: RvOp,
    width: u8,
    regs: Regs,
    int: i64,
) -> Result<(), AllocError>
    ensures { OnOk result (lines.new.items ≡ lines.old.items ++ map inst (spec.machine_unit op width regs int)) }
{
    match single(op, width, regs, int) {
        Some(inst) => put(lines, &[inst]),
        None => put_several(lines, op, regs, int),
    }
}

/// The instruction of an op that has one.
#[tactic(auto, unfolding(crate::specs::Units::single))]
fn single(op: RvOp, width: u8, regs: Regs, int: i64) -> Option<Inst>
    ensures { result ≡ spec.single op width regs int }
{
    match op {
        RvOp::Neg => Some(Inst::Op(RegisterOp::Sub, regs.d, 0, regs.a)),
        RvOp::Seqz => Some(Inst::OpImm(ImmediateOp::Sltiu, regs.d, regs.a, 1)),
        RvOp::Snez => Some(Inst::Op(RegisterOp::Sltu, regs.d, 0, regs.a)),
        RvOp::Load => Some(Inst::Load(load_op(width), regs.d, regs.a, int)),
        RvOp::Store => Some(Inst::Store(store_op(width), regs.b, regs.a, int)),
        _ => named(op, regs, int),
    }
}

/// The instruction with the name of the op: of three registers, of two and an immediate, or of two and a count.
#[tactic(auto, unfolding(crate::specs::Units::named))]
fn named(op: RvOp, regs: Regs, int: i64) -> Option<Inst>
    ensures { result ≡ spec.named op regs int }
{
    match op {
        RvOp::Addi => Some(of_immediate(ImmediateOp::Addi, regs, int)),
        RvOp::Andi => Some(of_immediate(ImmediateOp::Andi, regs, int)),
        RvOp::Ori => Some(of_immediate(ImmediateOp::Ori, regs, int)),
        RvOp::Xori => Some(of_immediate(ImmediateOp::Xori, regs, int)),
        RvOp::Slli => Some(of_count(ShiftOp::Slli, regs, int)),
        RvOp::Srli => Some(of_count(ShiftOp::Srli, regs, int)),
        RvOp::Srai => Some(of_count(ShiftOp::Srai, regs, int)),
        _ => match register_op(op) {
            Some(op) => Some(Inst::Op(op, regs.d, regs.a, regs.b)),
            None => None,
        },
    }
}

fn of_immediate(op: ImmediateOp, regs: Regs, int: i64) -> Inst
    ensures { result ≡ spec.of_immediate op regs int }
{
    Inst::OpImm(op, regs.d, regs.a, int)
}

/// An instruction with a count; one that does not fit counts as 64, which no instruction holds.
fn of_count(op: ShiftOp, regs: Regs, int: i64) -> Inst
    ensures { result ≡ spec.of_count op regs int }
{
    Inst::Shift(op, regs.d, regs.a, capped(64, int) as u8)
}

/// The row of three registers with the name of the op.
#[tactic(auto, unfolding(crate::specs::Units::register_op))]
fn register_op(op: RvOp) -> Option<RegisterOp>
    ensures { result ≡ spec.register_op op }
{
    match op {
        RvOp::Add => Some(RegisterOp::Add),
        RvOp::Sub => Some(RegisterOp::Sub),
        RvOp::Mul => Some(RegisterOp::Mul),
        RvOp::And => Some(RegisterOp::And),
        RvOp::Or => Some(RegisterOp::Or),
        RvOp::Xor => Some(RegisterOp::Xor),
        RvOp::Mulh => Some(RegisterOp::Mulh),
        RvOp::Mulhu => Some(RegisterOp::Mulhu),
        RvOp::Div => Some(RegisterOp::Div),
        RvOp::Divu => Some(RegisterOp::Divu),
        RvOp::Rem => Some(RegisterOp::Rem),
        RvOp::Remu => Some(RegisterOp::Remu),
        RvOp::Slt => Some(RegisterOp::Slt),
        RvOp::Sltu => Some(RegisterOp::Sltu),
        _ => None,
    }
}

/// The load of so many bytes.
fn load_op(width: u8) -> LoadOp
    ensures { result ≡ spec.load_op width }
{
    match width {
        8 => LoadOp::Ld,
        4 => LoadOp::Lw,
        2 => LoadOp::Lhu,
        _ => LoadOp::Lbu,
    }
}

/// The store of so many bytes.
fn store_op(width: u8) -> StoreOp
    ensures { result ≡ spec.store_op width }
{
    match width {
        8 => StoreOp::Sd,
        4 => StoreOp::Sw,
        2 => StoreOp::Sh,
        _ => StoreOp::Sb,
    }
}

/// Adds the unit of a machine op of several instructions.
#[tactic(auto, unfolding(crate::specs::Units::several))]
fn put_several(lines: &mut Vec<Line>, op: RvOp, regs: Regs, int: i64) -> Result<(), AllocError>
    ensures { OnOk result (lines.new.items ≡ lines.old.items ++ map inst (spec.several op regs int)) }
{
    match op {
        RvOp::Lsl => put_shift(lines, RegisterOp::Sll, regs),
        RvOp::Lsr => put_shift(lines, RegisterOp::Srl, regs),
        RvOp::Asr => put_sign_shift(lines, regs),
        RvOp::Rotl => put_rotation(lines, regs),
        RvOp::Sel => put_choice(lines, regs),
        RvOp::StoreB => put_store_bool(lines, regs, int),
        RvOp::Zero => put_chunks(lines, false, regs, byte_count(int)),
        RvOp::Move => put_chunks(lines, true, regs, byte_count(int)),
        RvOp::Nil => put_nil_check(lines, regs.a),
        _ => Ok(()),
    }
}

/// A shift that gives 0 at counts of 64 and above.
fn put_shift(lines: &mut Vec<Line>, op: RegisterOp, regs: Regs) -> Result<(), AllocError>
    ensures { OnOk result (lines.new.items ≡ lines.old.items ++ map inst (spec.shift op regs)) }
{
    let insts = [
        Inst::OpImm(ImmediateOp::Sltiu, SCRATCH, regs.b, 64),
        Inst::Op(RegisterOp::Sub, SCRATCH, 0, SCRATCH),
        Inst::Op(op, regs.d, regs.a, regs.b),
        Inst::Op(RegisterOp::And, regs.d, regs.d, SCRATCH),
    ];
    put(lines, &insts)
}

/// A shift that gives the sign fill at counts of 64 and above.
fn put_sign_shift(lines: &mut Vec<Line>, regs: Regs) -> Result<(), AllocError>
    ensures { OnOk result (lines.new.items ≡ lines.old.items ++ map inst (spec.sign_shift regs)) }
{
    let insts = [
        Inst::OpImm(ImmediateOp::Sltiu, SCRATCH, regs.b, 64),
        Inst::OpImm(ImmediateOp::Addi, SCRATCH, SCRATCH, -1),
        Inst::Op(RegisterOp::Or, SCRATCH, SCRATCH, regs.b),
        Inst::Op(RegisterOp::Sra, regs.d, regs.a, SCRATCH),
    ];
    put(lines, &insts)
}

fn put_rotation(lines: &mut Vec<Line>, regs: Regs) -> Result<(), AllocError>
    ensures { OnOk result (lines.new.items ≡ lines.old.items ++ map inst (spec.rotation regs)) }
{
    let insts = [
        Inst::Op(RegisterOp::Sub, SCRATCH, 0, regs.b),
        Inst::Op(RegisterOp::Srl, SCRATCH, regs.a, SCRATCH),
        Inst::Op(RegisterOp::Sll, regs.d, regs.a, regs.b),
        Inst::Op(RegisterOp::Or, regs.d, regs.d, SCRATCH),
    ];
    put(lines, &insts)
}

fn put_choice(lines: &mut Vec<Line>, regs: Regs) -> Result<(), AllocError>
    ensures { OnOk result (lines.new.items ≡ lines.old.items ++ map inst (spec.choice regs)) }
{
    let insts = [
        Inst::OpImm(ImmediateOp::Andi, SCRATCH, regs.c, 1),
        Inst::Branch(BranchOp::Beq, SCRATCH, 0, 12),
        Inst::OpImm(ImmediateOp::Addi, SCRATCH, regs.a, 0),
        Inst::Jal(0, 8),
        Inst::OpImm(ImmediateOp::Addi, SCRATCH, regs.b, 0),
        Inst::OpImm(ImmediateOp::Addi, regs.d, SCRATCH, 0),
    ];
    put(lines, &insts)
}

fn put_store_bool(lines: &mut Vec<Line>, regs: Regs, int: i64) -> Result<(), AllocError>
    ensures { OnOk result (lines.new.items ≡ lines.old.items ++ map inst (spec.store_bool regs int)) }
{
    let insts = [
        Inst::OpImm(ImmediateOp::Andi, SCRATCH, regs.b, 1),
        Inst::Store(StoreOp::Sb, SCRATCH, regs.a, int),
    ];
    put(lines, &insts)
}

fn put_nil_check(lines: &mut Vec<Line>, a: u8) -> Result<(), AllocError>
    ensures { OnOk result (lines.new.items ≡ lines.old.items ++ map inst (spec.nil_check a)) }
{
    let insts = [
        Inst::Branch(BranchOp::Bne, a, 0, 12),
        Inst::OpImm(ImmediateOp::Addi, SCRATCH, 0, 1),
        Inst::Ebreak,
    ];
    put(lines, &insts)
}

/// A count of bytes: none where it is negative.
fn byte_count(int: i64) -> u64
    ensures value { result ≡ spec.byte_count int }
    ensures bound { result ≤ 2 ^ 32 }
{
    if int < 0 {
        0
    } else {
        capped(0x1_0000_0000, int)
    }
}

/// Adds zeros or a move of so many bytes, from offset 0 in the largest pieces that fit.
#[tactic(auto, using(crate::proofs::Chunks::chunks_put))]
fn put_chunks(
    lines: &mut Vec<Line>,
    is_move: bool,
    regs: Regs,
    bytes: u64,
) -> Result<(), AllocError>
    requires { bytes ≤ 2 ^ 32 }
    ensures { OnOk result (lines.new.items ≡ lines.old.items ++ map inst (spec.chunks is_move regs bytes)) }
{
    put_eights(lines, is_move, regs, bytes / 8)?;
    put_chunk_if(bytes % 8 >= 4, lines, is_move, regs, 4, bytes / 8 * 8)?;
    put_chunk_if(bytes % 4 >= 2, lines, is_move, regs, 2, bytes / 4 * 4)?;
    put_chunk_if(bytes % 2 == 1, lines, is_move, regs, 1, bytes / 2 * 2)
}

/// Adds so many pieces of eight bytes.
#[tactic(auto, using(crate::proofs::Chunks::eights_more), unfolding(crate::specs::Units::eights))]
fn put_eights(
    lines: &mut Vec<Line>,
    is_move: bool,
    regs: Regs,
    count: u64,
) -> Result<(), AllocError>
    requires { count ≤ 2 ^ 30 }
    ensures { OnOk result (lines.new.items ≡ lines.old.items ++ map inst (spec.eights is_move regs count)) }
{
    for place in 0..count {
        put_chunk(lines, is_move, regs, 8, 8 * place)?;
    }
    Ok(())
}

fn put_chunk_if(
    there: bool,
    lines: &mut Vec<Line>,
    is_move: bool,
    regs: Regs,
    width: u8,
    offset: u64,
) -> Result<(), AllocError>
    requires { offset ≤ 2 ^ 33 }
    ensures { OnOk result (lines.new.items ≡ lines.old.items ++ map inst (spec.chunk_if there is_move regs width offset)) }
{
    if there {
        put_chunk(lines, is_move, regs, width, offset)?;
    }
    Ok(())
}

fn put_chunk(
    lines: &mut Vec<Line>,
    is_move: bool,
    regs: Regs,
    width: u8,
    offset: u64,
) -> Result<(), AllocError>
    requires { offset ≤ 2 ^ 33 }
    ensures { OnOk result (lines.new.items ≡ lines.old.items ++ map inst (spec.chunk is_move regs width offset)) }
{
    let offset = offset as i64;
    if is_move {
        let load = Inst::Load(load_op(width), SCRATCH, regs.b, offset);
        put(
            lines,
            &[load, Inst::Store(store_op(width), SCRATCH, regs.a, offset)],
        )
    } else {
        put(lines, &[Inst::Store(store_op(width), 0, regs.a, offset)])
    }
}
