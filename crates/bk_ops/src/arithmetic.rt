// Numbers of w bits: each call takes its numbers modulo 2^w.
#![tactic(auto, using(crate::proofs::Cut::cuts))]

ghost use Rattle.std.specs.Prelude.{◌≡◌, ◌+◌, ◌-◌, ◌*◌, ◌/◌, ◌%◌, ◌^◌, ◌≤◌, true, false, bit_and, bit_or, bit_xor, nat_lt, not, ◌==◌};
ghost use Rattle.std.specs.Int.Count.{count_trailing_zeros};
ghost use Rattle.bk_num.specs.Word.{residue, rotated, high_half};
ghost use Rattle.bk_ops.specs.Types.{word_width};
ghost use Rattle.bk_ops.specs.Arithmetic.{difference, complement, less, zero_mask, sign_mask, over_zero, quotient, quotient_unsigned, remainder, remainder_unsigned, shifted_left, shifted_signed, extended, bit_length, sum_with_carry, difference_with_borrow};

use crate::Target;
use bk_num::trunc;

/// The low w bits of an op's number.
pub(crate) fn low_bits(w: u32, int: i64) -> u64
    requires { (1 ≤ w) × (w ≤ 64) }
    ensures { result ≡ residue w int }
{
    bk_num::residue(w, int as i128)
}

/// The number with w ones.
pub(crate) fn ones(w: u32) -> u64
    requires { (1 ≤ w) × (w ≤ 64) }
    ensures { result ≡ 2 ^ w - 1 }
{
    trunc(w, u64::MAX)
}

pub(crate) fn add(w: u32, x: u64, y: u64) -> u64
    requires { (1 ≤ w) × (w ≤ 64) }
    ensures { result ≡ (x % 2 ^ w + y % 2 ^ w) % 2 ^ w }
{
    trunc(w, x.wrapping_add(y))
}

pub(crate) fn sub(w: u32, x: u64, y: u64) -> u64
    requires { (1 ≤ w) × (w ≤ 64) }
    ensures { result ≡ difference w (x % 2 ^ w) (y % 2 ^ w) }
{
    trunc(w, x.wrapping_sub(y))
}

pub(crate) fn mul(w: u32, x: u64, y: u64) -> u64
    requires { (1 ≤ w) × (w ≤ 64) }
    ensures { result ≡ x % 2 ^ w * (y % 2 ^ w) % 2 ^ w }
{
    trunc(w, x.wrapping_mul(y))
}

pub(crate) fn and(w: u32, x: u64, y: u64) -> u64
    requires { (1 ≤ w) × (w ≤ 64) }
    ensures { result ≡ bit_and (x % 2 ^ w) (y % 2 ^ w) }
{
    trunc(w, x) & trunc(w, y)
}

pub(crate) fn or(w: u32, x: u64, y: u64) -> u64
    requires { (1 ≤ w) × (w ≤ 64) }
    ensures { result ≡ bit_or (x % 2 ^ w) (y % 2 ^ w) }
{
    trunc(w, x) | trunc(w, y)
}

pub(crate) fn xor(w: u32, x: u64, y: u64) -> u64
    requires { (1 ≤ w) × (w ≤ 64) }
    ensures { result ≡ bit_xor (x % 2 ^ w) (y % 2 ^ w) }
{
    trunc(w, x) ^ trunc(w, y)
}

/// 0 - x.
pub(crate) fn neg(w: u32, x: u64) -> u64
    requires { (1 ≤ w) × (w ≤ 64) }
    ensures { result ≡ (2 ^ w - x % 2 ^ w) % 2 ^ w }
{
    trunc(w, x.wrapping_neg())
}

/// All bits turned.
pub(crate) fn com(w: u32, x: u64) -> u64
    requires { (1 ≤ w) × (w ≤ 64) }
    ensures { result ≡ complement w (x % 2 ^ w) }
{
    ones(w) - trunc(w, x)
}

/// Whether the numbers are equal.
pub(crate) fn equal(w: u32, x: u64, y: u64) -> bool
    requires { (1 ≤ w) × (w ≤ 64) }
    ensures { result ≡ (x % 2 ^ w == y % 2 ^ w) }
{
    trunc(w, x) == trunc(w, y)
}

/// x < y, as signed numbers.
pub(crate) fn is_less(w: u32, x: u64, y: u64) -> bool
    requires { (1 ≤ w) × (w ≤ 64) }
    ensures { result ≡ less w (x % 2 ^ w) (y % 2 ^ w) }
{
    bk_num::sext(w, trunc(w, x)) < bk_num::sext(w, trunc(w, y))
}

/// x < y, without signs.
pub(crate) fn is_below(w: u32, x: u64, y: u64) -> bool
    requires { (1 ≤ w) × (w ≤ 64) }
    ensures { result ≡ nat_lt (x % 2 ^ w) (y % 2 ^ w) }
{
    trunc(w, x) < trunc(w, y)
}

/// All ones where the number has a bit, else 0.
pub(crate) fn mask_of_bits(w: u32, x: u64) -> u64
    requires { (1 ≤ w) × (w ≤ 64) }
    ensures { result ≡ zero_mask w (x % 2 ^ w) }
{
    if trunc(w, x) == 0 { 0 } else { ones(w) }
}

/// All ones where the number is negative, else 0.
pub(crate) fn mask_of_sign(w: u32, x: u64) -> u64
    requires { (1 ≤ w) × (w ≤ 64) }
    ensures { result ≡ sign_mask w (x % 2 ^ w) }
{
    if trunc(w, x) < 1u64 << (w - 1) {
        0
    } else {
        ones(w)
    }
}

/// The quotient by zero.
fn by_zero(target: Target, w: u32) -> u64
    requires { (1 ≤ w) × (w ≤ 64) }
    ensures { result ≡ over_zero target w }
{
    match target {
        Target::Arm => 0,
        Target::Riscv64 => ones(w),
    }
}

pub(crate) fn div(target: Target, w: u32, x: u64, y: u64) -> u64
    requires { (1 ≤ w) × (w ≤ 64) }
    ensures { result ≡ quotient target w (x % 2 ^ w) (y % 2 ^ w) }
{
    bk_num::divs(w, trunc(w, x), trunc(w, y), by_zero(target, w))
}

pub(crate) fn div_unsigned(target: Target, w: u32, x: u64, y: u64) -> u64
    requires { (1 ≤ w) × (w ≤ 64) }
    ensures { result ≡ quotient_unsigned target w (x % 2 ^ w) (y % 2 ^ w) }
{
    bk_num::divu(w, x, y, by_zero(target, w))
}

pub(crate) fn rem(w: u32, x: u64, y: u64) -> u64
    requires { (1 ≤ w) × (w ≤ 64) }
    ensures { result ≡ remainder w (x % 2 ^ w) (y % 2 ^ w) }
{
    bk_num::rems(w, trunc(w, x), trunc(w, y))
}

pub(crate) fn rem_unsigned(w: u32, x: u64, y: u64) -> u64
    requires { (1 ≤ w) × (w ≤ 64) }
    ensures { result ≡ remainder_unsigned (x % 2 ^ w) (y % 2 ^ w) }
{
    bk_num::remu(w, x, y)
}

/// The high half of the product.
pub(crate) fn high(w: u32, x: u64, y: u64, signed: bool) -> u64
    requires { (1 ≤ w) × (w ≤ 64) }
    ensures { result ≡ high_half w (x % 2 ^ w) (y % 2 ^ w) signed }
{
    bk_num::hmul(w, trunc(w, x), trunc(w, y), signed)
}

/// `x` shifted left, 0 at counts of w and above.
pub(crate) fn shift_left(w: u32, x: u64, count: u64) -> u64
    requires { (1 ≤ w) × (w ≤ 64) }
    ensures { result ≡ shifted_left w (x % 2 ^ w) count }
{
    bk_num::shl(w, trunc(w, x), count)
}

/// `x` shifted right with its sign, the sign alone at counts of w and above.
pub(crate) fn shift_signed(w: u32, x: u64, count: u64) -> u64
    requires { (1 ≤ w) × (w ≤ 64) }
    ensures { result ≡ shifted_signed w (x % 2 ^ w) count }
{
    bk_num::sar(w, trunc(w, x), count)
}

/// `x` rotated left by `count` modulo w.
pub(crate) fn rotate(w: u32, x: u64, count: u64) -> u64
    requires { (1 ≤ w) × (w ≤ 64) }
    ensures { result ≡ rotated w (x % 2 ^ w) count }
{
    bk_num::rotl(w, trunc(w, x), count)
}

/// The number of v bits with the signed value of `x`.
pub(crate) fn extend(w: u32, v: u32, x: u64) -> u64
    requires from { (1 ≤ w) × (w ≤ 64) }
    requires to { (1 ≤ v) × (v ≤ 64) }
    ensures { result ≡ extended w v (x % 2 ^ w) }
{
    low_bits(v, bk_num::sext(w, trunc(w, x)))
}

/// The zeros below the word's lowest one.
pub(crate) fn trailing_zeros(target: Target, x: u64) -> u64
    ensures { result ≡ count_trailing_zeros (word_width target) (x % 2 ^ word_width target) }
{
    match target {
        Target::Arm => (trunc(32, x) as u32).trailing_zeros() as u64,
        Target::Riscv64 => x.trailing_zeros() as u64,
    }
}

/// How many bits the word takes without its leading zeros.
pub(crate) fn length_of_bits(target: Target, x: u64) -> u64
    ensures { result ≡ bit_length (word_width target) (x % 2 ^ word_width target) }
{
    match target {
        Target::Arm => 32 - (trunc(32, x) as u32).leading_zeros() as u64,
        Target::Riscv64 => 64 - x.leading_zeros() as u64,
    }
}

/// The bits of a machine word.
pub(crate) fn word_bits(target: Target) -> u32
    ensures { result ≡ word_width target }
{
    match target {
        Target::Arm => 32,
        Target::Riscv64 => 64,
    }
}

/// The carry of x + y.
fn carry(w: u32, x: u64, y: u64) -> u64
    requires { (1 ≤ w) × (w ≤ 64) }
    ensures { result ≡ (x % 2 ^ w + y % 2 ^ w) / 2 ^ w }
{
    ((trunc(w, x) as u128 + trunc(w, y) as u128) >> w) as u64
}

/// x + y, and the carry of c + d.
pub(crate) fn add_carry(w: u32, x: u64, y: u64, c: u64, d: u64) -> u64
    requires { (1 ≤ w) × (w ≤ 64) }
    ensures { result ≡ sum_with_carry w (x % 2 ^ w) (y % 2 ^ w) (c % 2 ^ w) (d % 2 ^ w) }
{
    add(w, add(w, x, y), carry(w, c, d))
}

/// x - y, less the borrow of c - d.
pub(crate) fn sub_borrow(w: u32, x: u64, y: u64, c: u64, d: u64) -> u64
    requires { (1 ≤ w) × (w ≤ 64) }
    ensures { result ≡ difference_with_borrow w (x % 2 ^ w) (y % 2 ^ w) (c % 2 ^ w) (d % 2 ^ w) }
{
    sub(w, sub(w, x, y), is_below(w, c, d) as u64)
}
