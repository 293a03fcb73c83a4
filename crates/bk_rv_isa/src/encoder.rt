ghost use Rattle.std.specs.Prelude.{◌≡◌, ◌≤◌, ◌<◌, ◌-◌, ◌*◌, ◌+◌, ◌^◌, ◌%◌, ◌==◌, ◌&&◌, nat_lt, if◌then◌else◌, Some, None};
ghost use Rattle.bk_num.specs.Word.{residue, fits_signed};
ghost use Rattle.bk_rv_isa.specs.Encoding.{register_funct3, register_funct7, immediate_funct3, shift_funct3, shift_funct6, load_funct3, store_funct3, branch_funct3, is_even_signed, r_type, i_type, s_type, b_type, u_type, j_type, encoding};

use crate::inst::{BranchOp, ImmediateOp, Inst, LoadOp, RegisterOp, ShiftOp, StoreOp};
use bk_num::residue;

fn register_funct3(op: RegisterOp) -> u32
    ensures value { result ≡ register_funct3 op }
    ensures bound { result < 8 }
{
    match op {
        RegisterOp::Add | RegisterOp::Sub | RegisterOp::Mul => 0,
        RegisterOp::Sll | RegisterOp::Mulh => 1,
        RegisterOp::Slt | RegisterOp::Mulhsu => 2,
        RegisterOp::Sltu | RegisterOp::Mulhu => 3,
        RegisterOp::Xor | RegisterOp::Div => 4,
        RegisterOp::Srl | RegisterOp::Sra | RegisterOp::Divu => 5,
        RegisterOp::Or | RegisterOp::Rem => 6,
        RegisterOp::And | RegisterOp::Remu => 7,
    }
}

fn register_funct7(op: RegisterOp) -> u32
    ensures value { result ≡ register_funct7 op }
    ensures bound { result < 128 }
{
    match op {
        RegisterOp::Add
        | RegisterOp::Sll
        | RegisterOp::Slt
        | RegisterOp::Sltu
        | RegisterOp::Xor
        | RegisterOp::Srl
        | RegisterOp::Or
        | RegisterOp::And => 0,
        RegisterOp::Sub | RegisterOp::Sra => 32,
        RegisterOp::Mul
        | RegisterOp::Mulh
        | RegisterOp::Mulhsu
        | RegisterOp::Mulhu
        | RegisterOp::Div
        | RegisterOp::Divu
        | RegisterOp::Rem
        | RegisterOp::Remu => 1,
    }
}

fn immediate_funct3(op: ImmediateOp) -> u32
    ensures value { result ≡ immediate_funct3 op }
    ensures bound { result < 8 }
{
    match op {
        ImmediateOp::Addi => 0,
        ImmediateOp::Slti => 2,
        ImmediateOp::Sltiu => 3,
        ImmediateOp::Xori => 4,
        ImmediateOp::Ori => 6,
        ImmediateOp::Andi => 7,
    }
}

fn shift_funct3(op: ShiftOp) -> u32
    ensures value { result ≡ shift_funct3 op }
    ensures bound { result < 8 }
{
    match op {
        ShiftOp::Slli => 1,
        ShiftOp::Srli | ShiftOp::Srai => 5,
    }
}

fn shift_funct6(op: ShiftOp) -> u32
    ensures value { result ≡ shift_funct6 op }
    ensures bound { result < 64 }
{
    match op {
        ShiftOp::Slli | ShiftOp::Srli => 0,
        ShiftOp::Srai => 16,
    }
}

fn load_funct3(op: LoadOp) -> u32
    ensures value { result ≡ load_funct3 op }
    ensures bound { result < 8 }
{
    match op {
        LoadOp::Lb => 0,
        LoadOp::Lh => 1,
        LoadOp::Lw => 2,
        LoadOp::Ld => 3,
        LoadOp::Lbu => 4,
        LoadOp::Lhu => 5,
        LoadOp::Lwu => 6,
    }
}

fn store_funct3(op: StoreOp) -> u32
    ensures value { result ≡ store_funct3 op }
    ensures bound { result < 8 }
{
    match op {
        StoreOp::Sb => 0,
        StoreOp::Sh => 1,
        StoreOp::Sw => 2,
        StoreOp::Sd => 3,
    }
}

fn branch_funct3(op: BranchOp) -> u32
    ensures value { result ≡ branch_funct3 op }
    ensures bound { result < 8 }
{
    match op {
        BranchOp::Beq => 0,
        BranchOp::Bne => 1,
        BranchOp::Blt => 4,
        BranchOp::Bge => 5,
        BranchOp::Bltu => 6,
        BranchOp::Bgeu => 7,
    }
}

// A signed number as a field of `width` bits.
fn signed_field(width: u32, value: i64) -> Option<u32>
    requires { (1 ≤ width) × (width ≤ 21) }
    ensures { result ≡ (if fits_signed width value then Some (residue width value) else None) }
{
    let half = 1i64 << (width - 1);
    if value >= half || value < -half {
        None
    } else {
        Some(residue(width, value as i128) as u32)
    }
}

// An even signed number as a field of `width` bits.
fn even_field(width: u32, value: i64) -> Option<u32>
    requires { (1 ≤ width) × (width ≤ 21) }
    ensures { result ≡ (if is_even_signed width value then Some (residue width value) else None) }
{
    let field = signed_field(width, value)?;
    if field % 2 == 0 { Some(field) } else { None }
}

fn r_type(op: RegisterOp, rd: u8, rs1: u8, rs2: u8) -> Option<u32>
    ensures { result ≡ (if nat_lt rd 32 && (nat_lt rs1 32 && nat_lt rs2 32) then Some (r_type 0x33 (register_funct3 op) (register_funct7 op) rd rs1 rs2) else None) }
{
    if rd >= 32 || rs1 >= 32 || rs2 >= 32 {
        return None;
    }
    let sources = ((rs2 as u32) << 20) + ((rs1 as u32) << 15);
    let functs = (register_funct7(op) << 25) + (register_funct3(op) << 12);
    Some(functs + sources + ((rd as u32) << 7) + 0x33)
}

fn i_type(opcode: u32, funct3: u32, rd: u8, rs1: u8, imm: i64) -> Option<u32>
    requires { (opcode < 128) × (funct3 < 8) }
    ensures { result ≡ (if nat_lt rd 32 && (nat_lt rs1 32 && fits_signed 12 imm) then Some (i_type opcode funct3 rd rs1 (residue 12 imm)) else None) }
{
    if rd >= 32 || rs1 >= 32 {
        return None;
    }
    let imm = signed_field(12, imm)?;
    Some((imm << 20) + ((rs1 as u32) << 15) + (funct3 << 12) + ((rd as u32) << 7) + opcode)
}

fn shift_type(op: ShiftOp, rd: u8, rs1: u8, count: u8) -> Option<u32>
    ensures { result ≡ (if nat_lt rd 32 && (nat_lt rs1 32 && nat_lt count 64) then Some (i_type 0x13 (shift_funct3 op) rd rs1 (shift_funct6 op * 2 ^ 6 + count)) else None) }
{
    if rd >= 32 || rs1 >= 32 || count >= 64 {
        return None;
    }
    let imm = (shift_funct6(op) << 6) + (count as u32);
    Some((imm << 20) + ((rs1 as u32) << 15) + (shift_funct3(op) << 12) + ((rd as u32) << 7) + 0x13)
}

fn s_type(op: StoreOp, src: u8, base: u8, offset: i64) -> Option<u32>
    ensures { result ≡ (if nat_lt src 32 && (nat_lt base 32 && fits_signed 12 offset) then Some (s_type 0x23 (store_funct3 op) base src (residue 12 offset)) else None) }
{
    if src >= 32 || base >= 32 {
        return None;
    }
    let imm = signed_field(12, offset)?;
    let registers = ((src as u32) << 20) + ((base as u32) << 15);
    Some(((imm >> 5) << 25) + registers + (store_funct3(op) << 12) + ((imm % 32) << 7) + 0x23)
}

fn b_type(op: BranchOp, rs1: u8, rs2: u8, offset: i64) -> Option<u32>
    ensures { result ≡ (if nat_lt rs1 32 && (nat_lt rs2 32 && is_even_signed 13 offset) then Some (b_type 0x63 (branch_funct3 op) rs1 rs2 (residue 13 offset)) else None) }
{
    if rs1 >= 32 || rs2 >= 32 {
        return None;
    }
    let imm = even_field(13, offset)?;
    let high = ((imm >> 12) << 31) + (((imm >> 5) % 64) << 25);
    let low = (((imm >> 1) % 16) << 8) + (((imm >> 11) % 2) << 7) + 0x63;
    Some(high + ((rs2 as u32) << 20) + ((rs1 as u32) << 15) + (branch_funct3(op) << 12) + low)
}

fn u_type(opcode: u32, rd: u8, imm: i64) -> Option<u32>
    requires { opcode < 128 }
    ensures { result ≡ (if nat_lt rd 32 && fits_signed 20 imm then Some (u_type opcode rd (residue 20 imm)) else None) }
{
    if rd >= 32 {
        return None;
    }
    let imm = signed_field(20, imm)?;
    Some((imm << 12) + ((rd as u32) << 7) + opcode)
}

fn j_type(rd: u8, offset: i64) -> Option<u32>
    ensures { result ≡ (if nat_lt rd 32 && is_even_signed 21 offset then Some (j_type 0x6f rd (residue 21 offset)) else None) }
{
    if rd >= 32 {
        return None;
    }
    let imm = even_field(21, offset)?;
    let high = ((imm >> 20) << 31) + (((imm >> 1) % 1024) << 21);
    let low = (((imm >> 11) % 2) << 20) + (((imm >> 12) % 256) << 12);
    Some(high + low + ((rd as u32) << 7) + 0x6f)
}

/// The word of an instruction, none exactly where a field does not fit.
pub fn encode(inst: Inst) -> Option<u32>
    ensures { result ≡ encoding inst }
{
    match inst {
        Inst::Op(op, rd, rs1, rs2) => r_type(op, rd, rs1, rs2),
        Inst::OpImm(op, rd, rs1, imm) => i_type(0x13, immediate_funct3(op), rd, rs1, imm),
        Inst::Shift(op, rd, rs1, count) => shift_type(op, rd, rs1, count),
        Inst::Addiw(rd, rs1, imm) => i_type(0x1b, 0, rd, rs1, imm),
        Inst::Load(op, rd, base, offset) => i_type(0x03, load_funct3(op), rd, base, offset),
        Inst::Store(op, src, base, offset) => s_type(op, src, base, offset),
        Inst::Branch(op, rs1, rs2, offset) => b_type(op, rs1, rs2, offset),
        Inst::Lui(rd, imm) => u_type(0x37, rd, imm),
        Inst::Auipc(rd, imm) => u_type(0x17, rd, imm),
        Inst::Jal(rd, offset) => j_type(rd, offset),
        Inst::Jalr(rd, base, offset) => i_type(0x67, 0, rd, base, offset),
        Inst::Ebreak => Some(0x0010_0073),
    }
}
