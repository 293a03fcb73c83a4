ghost use Rattle.std.specs.Prelude.{◌≡◌, ◌≤◌};
ghost use Rattle.bk_rv_isa.specs.declared.inst.RegisterOp.TheVariants.{Mulhsu};
ghost use Rattle.bk_rv_isa.specs.Machine.{plus, extended, register_result, immediate_result, shift_result, load_size, load_result, store_size, is_taken};

use bk_num::{divs, divu, hmul, rems, remu, residue, sar, sext, shl, shr};
use bk_rv_isa::{BranchOp, ImmediateOp, LoadOp, RegisterOp, ShiftOp, StoreOp};

/// A number and an offset, modulo 2^64.
pub fn plus(n: u64, offset: i128) -> u64
    ensures { result ≡ plus n offset }
{
    n.wrapping_add(residue(64, offset))
}

/// The low bits of a number, extended with their sign.
pub fn extended(width: u32, n: u64) -> u64
    requires { (1 ≤ width) × (width ≤ 64) }
    ensures { result ≡ extended width n }
{
    residue(64, sext(width, n) as i128)
}

fn high_half_mixed(x: u64, y: u64) -> u64
    ensures { result ≡ register_result Mulhsu x y }
{
    residue(64, (sext(64, x) as i128 * y as i128) >> 64)
}

/// What an operation on two registers gives.
pub fn register_result(op: RegisterOp, x: u64, y: u64) -> u64
    ensures { result ≡ register_result op x y }
{
    match op {
        RegisterOp::Add => x.wrapping_add(y),
        RegisterOp::Sub => residue(64, x as i128 - y as i128),
        RegisterOp::Sll => shl(64, x, y % 64),
        RegisterOp::Slt => (sext(64, x) < sext(64, y)) as u64,
        RegisterOp::Sltu => (x < y) as u64,
        RegisterOp::Xor => x ^ y,
        RegisterOp::Srl => shr(64, x, y % 64),
        RegisterOp::Sra => sar(64, x, y % 64),
        RegisterOp::Or => x | y,
        RegisterOp::And => x & y,
        RegisterOp::Mul => x.wrapping_mul(y),
        RegisterOp::Mulh => hmul(64, x, y, true),
        RegisterOp::Mulhsu => high_half_mixed(x, y),
        RegisterOp::Mulhu => hmul(64, x, y, false),
        RegisterOp::Div => divs(64, x, y, u64::MAX),
        RegisterOp::Divu => divu(64, x, y, u64::MAX),
        RegisterOp::Rem => rems(64, x, y),
        RegisterOp::Remu => remu(64, x, y),
    }
}

/// What an operation on a register and an immediate gives.
pub fn immediate_result(op: ImmediateOp, x: u64, imm: i64) -> u64
    ensures { result ≡ immediate_result op x imm }
{
    match op {
        ImmediateOp::Addi => plus(x, imm as i128),
        ImmediateOp::Slti => (sext(64, x) < imm) as u64,
        ImmediateOp::Sltiu => (x < residue(64, imm as i128)) as u64,
        ImmediateOp::Xori => x ^ residue(64, imm as i128),
        ImmediateOp::Ori => x | residue(64, imm as i128),
        ImmediateOp::Andi => x & residue(64, imm as i128),
    }
}

/// What a shift by a count gives.
pub fn shift_result(op: ShiftOp, x: u64, count: u8) -> u64
    ensures { result ≡ shift_result op x count }
{
    match op {
        ShiftOp::Slli => shl(64, x, count as u64),
        ShiftOp::Srli => shr(64, x, count as u64),
        ShiftOp::Srai => sar(64, x, count as u64),
    }
}

/// The bytes that a load reads.
pub fn load_size(op: LoadOp) -> usize
    ensures value { result ≡ load_size op }
    ensures some { 1 ≤ result }
    ensures bound { result ≤ 8 }
{
    match op {
        LoadOp::Lb | LoadOp::Lbu => 1,
        LoadOp::Lh | LoadOp::Lhu => 2,
        LoadOp::Lw | LoadOp::Lwu => 4,
        LoadOp::Ld => 8,
    }
}

/// What a loaded number gives.
pub fn load_result(op: LoadOp, n: u64) -> u64
    ensures { result ≡ load_result op n }
{
    match op {
        LoadOp::Lb => extended(8, n),
        LoadOp::Lh => extended(16, n),
        LoadOp::Lw => extended(32, n),
        LoadOp::Ld | LoadOp::Lbu | LoadOp::Lhu | LoadOp::Lwu => n,
    }
}

/// The bytes that a store writes.
pub fn store_size(op: StoreOp) -> usize
    ensures value { result ≡ store_size op }
    ensures some { 1 ≤ result }
    ensures bound { result ≤ 8 }
{
    match op {
        StoreOp::Sb => 1,
        StoreOp::Sh => 2,
        StoreOp::Sw => 4,
        StoreOp::Sd => 8,
    }
}

/// Whether a branch on two registers is taken.
pub fn is_taken(op: BranchOp, x: u64, y: u64) -> bool
    ensures { result ≡ is_taken op x y }
{
    match op {
        BranchOp::Beq => x == y,
        BranchOp::Bne => x != y,
        BranchOp::Blt => sext(64, x) < sext(64, y),
        BranchOp::Bge => sext(64, x) >= sext(64, y),
        BranchOp::Bltu => x < y,
        BranchOp::Bgeu => x >= y,
    }
}
