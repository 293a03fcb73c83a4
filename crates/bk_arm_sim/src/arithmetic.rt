//! What data processing gives, over words.
ghost use Rattle.std.specs.Prelude.{◌≡◌, ◌≤◌, ◌*◌, ◌-ℤ◌, pos};
ghost use Rattle.bk_num.specs.Word.{residue};
ghost use Rattle.bk_arm_isa.specs.Operands.{shifted, inverted, sum, data_result, move_result};
ghost use Rattle.bk_arm_isa.specs.Machine.{plus, extended, signed_quotient, quotient};

use bk_arm_isa::{DataOp, MoveOp, Shift};
use bk_num::{divs, divu, residue, rotl, sar, sext, shl, shr};

/// A number shifted or rotated by a count.
pub fn shifted(shift: Shift, x: u32, count: u32) -> u32
    ensures { result ≡ shifted shift x count }
{
    match shift {
        Shift::Lsl => shl(32, x as u64, count as u64) as u32,
        Shift::Lsr => shr(32, x as u64, count as u64) as u32,
        Shift::Asr => sar(32, x as u64, count as u64) as u32,
        Shift::Ror => rotl(32, x as u64, (32 - count % 32) as u64) as u32,
    }
}

/// Each bit turned.
pub fn inverted(x: u32) -> u32
    ensures { result ≡ inverted x }
{
    u32::MAX - x
}

/// The sum with a carry, modulo 2^32.
pub fn sum(x: u32, y: u32, carry: bool) -> u32
    ensures { result ≡ sum x y carry }
{
    ((x as u64 + y as u64 + carry as u64) % (1 << 32)) as u32
}

/// What data processing of two operands gives.
pub fn data_result(op: DataOp, x: u32, y: u32, carry: bool) -> u32
    ensures { result ≡ data_result op x y carry }
{
    match op {
        DataOp::And => x & y,
        DataOp::Eor => x ^ y,
        DataOp::Sub => sum(x, inverted(y), true),
        DataOp::Rsb => sum(inverted(x), y, true),
        DataOp::Add => sum(x, y, false),
        DataOp::Adc => sum(x, y, carry),
        DataOp::Sbc => sum(x, inverted(y), carry),
        DataOp::Rsc => sum(inverted(x), y, carry),
        DataOp::Orr => x | y,
        DataOp::Bic => x & inverted(y),
    }
}

/// What data processing of one operand gives.
pub fn move_result(op: MoveOp, y: u32) -> u32
    ensures { result ≡ move_result op y }
{
    match op {
        MoveOp::Mov => y,
        MoveOp::Mvn => inverted(y),
    }
}

/// A number and an offset, modulo 2^32.
pub fn plus(n: u32, offset: i64) -> u32
    ensures { result ≡ plus n offset }
{
    n.wrapping_add(residue(32, offset as i128) as u32)
}

/// The low bits of a number, extended with their sign.
pub fn extended(width: u32, n: u32) -> u32
    requires { (1 ≤ width) × (width ≤ 32) }
    ensures { result ≡ extended width n }
{
    residue(32, sext(width, n as u64) as i128) as u32
}

/// The signed quotient, 0 where the divisor is 0.
pub fn signed_quotient(x: u32, y: u32) -> u32
    ensures { result ≡ signed_quotient x y }
{
    divs(32, x as u64, y as u64, 0) as u32
}

/// The unsigned quotient, 0 where the divisor is 0.
pub fn quotient(x: u32, y: u32) -> u32
    ensures { result ≡ quotient x y }
{
    divu(32, x as u64, y as u64, 0) as u32
}

/// A number less a product, modulo 2^32.
pub fn product_from(n: u32, x: u32, y: u32) -> u32
    ensures { result ≡ residue 32 (pos n -ℤ pos (x * y)) }
{
    residue(32, n as i128 - x as i128 * y as i128) as u32
}
