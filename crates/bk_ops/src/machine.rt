// The values of machine ops, over words of the target.
#![tactic(auto, using(crate::proofs::Cut::residue_again), unfolding(crate::specs::Formulas::arm_formula, crate::specs::Formulas::rv_formula))]

ghost use Rattle.std.specs.Prelude.{◌≡◌, ◌%◌, ◌^◌, ◌==◌, if◌then◌else◌, [], ◌∷◌};
ghost use Rattle.bk_ops.specs.Types.{word_width};
ghost use Rattle.bk_ops.specs.Formulas.{arm_formula, rv_formula};
ghost use Rattle.bk_ops.specs.Values.{valued};

use crate::arithmetic::{
    add, add_carry, and, com, div, div_unsigned, equal, extend, high, is_below, is_less,
    length_of_bits, low_bits, mask_of_bits, mul, neg, or, rem, rem_unsigned, rotate, shift_left,
    shift_signed, sub, sub_borrow, trailing_zeros, word_bits, xor,
};
use crate::{ArmOp, RvOp, Target};
use bk_num::{shr, trunc};

pub(crate) fn arm_nullary(op: ArmOp, int: i64, target: Target) -> Option<u64>
    ensures { result ≡ valued (arm_formula op (word_width target) int target) [] }
{
    match op {
        ArmOp::Const => Some(low_bits(word_bits(target), int)),
        _ => None,
    }
}

pub(crate) fn arm_unary(op: ArmOp, int: i64, x: u64, target: Target) -> Option<u64>
    ensures { result ≡ valued (arm_formula op (word_width target) int target) (x ∷ []) }
{
    let word = word_bits(target);
    match op {
        ArmOp::Rsb0 => Some(neg(word, x)),
        ArmOp::Mvn => Some(com(word, x)),
        ArmOp::Sxtb => Some(extend(8, word, x)),
        ArmOp::Sxth => Some(extend(16, word, x)),
        ArmOp::Uxtb => Some(trunc(8, x)),
        ArmOp::Uxth => Some(trunc(16, x)),
        ArmOp::Zmask => Some(mask_of_bits(word, x)),
        ArmOp::Ctz => Some(trailing_zeros(target, x)),
        ArmOp::Blen => Some(length_of_bits(target, x)),
        ArmOp::Addi => Some(add(word, x, low_bits(word, int))),
        ArmOp::Subi => Some(sub(word, x, low_bits(word, int))),
        ArmOp::Andi => Some(and(word, x, low_bits(word, int))),
        ArmOp::Eori => Some(xor(word, x, low_bits(word, int))),
        ArmOp::Lsli => Some(shift_left(word, x, low_bits(64, int))),
        ArmOp::Lsri => Some(shr(word, x, low_bits(64, int))),
        ArmOp::Asri => Some(shift_signed(word, x, low_bits(64, int))),
        _ => None,
    }
}

pub(crate) fn arm_binary(op: ArmOp, int: i64, x: u64, y: u64, target: Target) -> Option<u64>
    ensures { result ≡ valued (arm_formula op (word_width target) int target) (x ∷ y ∷ []) }
{
    let word = word_bits(target);
    match op {
        ArmOp::Add => Some(add(word, x, y)),
        ArmOp::Sub => Some(sub(word, x, y)),
        ArmOp::Mul => Some(mul(word, x, y)),
        ArmOp::And => Some(and(word, x, y)),
        ArmOp::Orr => Some(or(word, x, y)),
        ArmOp::Eor => Some(xor(word, x, y)),
        ArmOp::Smulh => Some(high(word, x, y, true)),
        ArmOp::Umulh => Some(high(word, x, y, false)),
        ArmOp::Sdiv => Some(div(target, word, x, y)),
        ArmOp::Udiv => Some(div_unsigned(target, word, x, y)),
        ArmOp::Smod => Some(rem(word, x, y)),
        ArmOp::Umod => Some(rem_unsigned(word, x, y)),
        ArmOp::Lsl => Some(shift_left(word, x, trunc(word, y))),
        ArmOp::Lsr => Some(shr(word, x, trunc(word, y))),
        ArmOp::Asr => Some(shift_signed(word, x, trunc(word, y))),
        ArmOp::SetEq => Some(equal(word, x, y) as u64),
        ArmOp::SetNe => Some(!equal(word, x, y) as u64),
        ArmOp::SetLt => Some(is_less(word, x, y) as u64),
        ArmOp::SetLe => Some(!is_less(word, y, x) as u64),
        ArmOp::SetLo => Some(is_below(word, x, y) as u64),
        ArmOp::SetLs => Some(!is_below(word, y, x) as u64),
        ArmOp::Rotl => Some(rotate(word, x, trunc(word, y))),
        _ => None,
    }
}

pub(crate) fn arm_ternary(
    op: ArmOp,
    int: i64,
    x: u64,
    y: u64,
    c: u64,
    target: Target,
) -> Option<u64>
    ensures { result ≡ valued (arm_formula op (word_width target) int target) (x ∷ y ∷ c ∷ []) }
{
    match op {
        ArmOp::Sel => Some(select(x, y, c, target)),
        _ => None,
    }
}

pub(crate) fn arm_quaternary(
    op: ArmOp,
    int: i64,
    x: u64,
    y: u64,
    c: u64,
    d: u64,
    target: Target,
) -> Option<u64>
    ensures { result ≡ valued (arm_formula op (word_width target) int target) (x ∷ y ∷ c ∷ d ∷ []) }
{
    let word = word_bits(target);
    match op {
        ArmOp::AddHi => Some(add_carry(word, x, y, c, d)),
        ArmOp::SubHi => Some(sub_borrow(word, x, y, c, d)),
        _ => None,
    }
}

/// The word `x` where `c` is odd, else `y`.
fn select(x: u64, y: u64, c: u64, target: Target) -> u64
    ensures { result ≡ (if c % 2 ^ 1 == 0 then y % 2 ^ word_width target else x % 2 ^ word_width target) }
{
    trunc(word_bits(target), if trunc(1, c) == 0 { y } else { x })
}

pub(crate) fn rv_nullary(op: RvOp, int: i64, target: Target) -> Option<u64>
    ensures { result ≡ valued (rv_formula op (word_width target) int target) [] }
{
    match op {
        RvOp::Const => Some(low_bits(word_bits(target), int)),
        _ => None,
    }
}

pub(crate) fn rv_unary(op: RvOp, int: i64, x: u64, target: Target) -> Option<u64>
    ensures { result ≡ valued (rv_formula op (word_width target) int target) (x ∷ []) }
{
    let word = word_bits(target);
    match op {
        RvOp::Neg => Some(neg(word, x)),
        RvOp::Seqz => Some(equal(word, x, 0) as u64),
        RvOp::Snez => Some(!equal(word, x, 0) as u64),
        RvOp::Addi => Some(add(word, x, low_bits(word, int))),
        RvOp::Andi => Some(and(word, x, low_bits(word, int))),
        RvOp::Ori => Some(or(word, x, low_bits(word, int))),
        RvOp::Xori => Some(xor(word, x, low_bits(word, int))),
        RvOp::Slli => Some(shift_left(word, x, low_bits(64, int))),
        RvOp::Srli => Some(shr(word, x, low_bits(64, int))),
        RvOp::Srai => Some(shift_signed(word, x, low_bits(64, int))),
        _ => None,
    }
}

pub(crate) fn rv_binary(op: RvOp, int: i64, x: u64, y: u64, target: Target) -> Option<u64>
    ensures { result ≡ valued (rv_formula op (word_width target) int target) (x ∷ y ∷ []) }
{
    let word = word_bits(target);
    match op {
        RvOp::Add => Some(add(word, x, y)),
        RvOp::Sub => Some(sub(word, x, y)),
        RvOp::Mul => Some(mul(word, x, y)),
        RvOp::And => Some(and(word, x, y)),
        RvOp::Or => Some(or(word, x, y)),
        RvOp::Xor => Some(xor(word, x, y)),
        RvOp::Mulh => Some(high(word, x, y, true)),
        RvOp::Mulhu => Some(high(word, x, y, false)),
        RvOp::Div => Some(div(target, word, x, y)),
        RvOp::Divu => Some(div_unsigned(target, word, x, y)),
        RvOp::Rem => Some(rem(word, x, y)),
        RvOp::Remu => Some(rem_unsigned(word, x, y)),
        RvOp::Slt => Some(is_less(word, x, y) as u64),
        RvOp::Sltu => Some(is_below(word, x, y) as u64),
        RvOp::Lsl => Some(shift_left(word, x, trunc(word, y))),
        RvOp::Lsr => Some(shr(word, x, trunc(word, y))),
        RvOp::Asr => Some(shift_signed(word, x, trunc(word, y))),
        RvOp::Rotl => Some(rotate(word, x, trunc(word, y))),
        _ => None,
    }
}

pub(crate) fn rv_ternary(op: RvOp, int: i64, x: u64, y: u64, c: u64, target: Target) -> Option<u64>
    ensures { result ≡ valued (rv_formula op (word_width target) int target) (x ∷ y ∷ c ∷ []) }
{
    match op {
        RvOp::Sel => Some(select(x, y, c, target)),
        _ => None,
    }
}
