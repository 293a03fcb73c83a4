// The values of generic ops.
#![tactic(auto, unfolding(crate::specs::Formulas::formula))]

ghost use Rattle.std.specs.Prelude.{◌≡◌, ◌≤◌, ◌↔◌, [], ◌∷◌, length, IsTrue, IsSome, Some};
ghost use Rattle.bk_ops.specs.Values.{op_value, pure_value, is_pure, IsSized, at_least_one};
ghost use Rattle.bk_ops.specs.Table.{is_op, info_of};

use crate::arithmetic::{
    add, add_carry, and, com, div, div_unsigned, equal, extend, high, is_below, is_less,
    length_of_bits, low_bits, mask_of_bits, mask_of_sign, mul, neg, or, rem, rem_unsigned, rotate,
    shift_left, shift_signed, sub, sub_borrow, trailing_zeros, word_bits, xor,
};
use crate::table::row_of;
use crate::{Family, Op, Target, machine};
use bk_num::{shr, trunc};

fn nullary(op: Op, int: i64, target: Target) -> Option<u64>
    requires { IsSized op }
    ensures { result ≡ op_value op int [] target }
{
    match op.family {
        Family::Const => Some(low_bits(op.a as u32, int)),
        Family::ConstBool => Some(low_bits(1, int)),
        Family::ConstNil | Family::Sp | Family::Sb => Some(0),
        Family::Arm(arm) => machine::arm_nullary(arm, int, target),
        Family::Rv(rv) => machine::rv_nullary(rv, int, target),
        _ => None,
    }
}

fn unary(op: Op, int: i64, x: u64, target: Target) -> Option<u64>
    requires { IsSized op }
    ensures { result ≡ op_value op int (x ∷ []) target }
{
    let (a, b) = (op.a as u32, op.b as u32);
    let word = word_bits(target);
    match op.family {
        Family::Neg => Some(neg(a, x)),
        Family::Com => Some(com(a, x)),
        Family::Not => Some(1 - trunc(1, x)),
        Family::IsNonNil => Some(!equal(word, x, 0) as u64),
        Family::SignExt => Some(extend(a, b, x)),
        Family::ZeroExt => Some(trunc(a, x)),
        Family::Trunc => Some(trunc(b, trunc(a, x))),
        Family::CvtBoolToUint8 => Some(trunc(1, x)),
        Family::Signmask => Some(mask_of_sign(32, x)),
        Family::Zeromask => Some(mask_of_bits(32, x)),
        Family::Ctz32 => Some(trailing_zeros(Target::Arm, x)),
        Family::BitLen32 => Some(length_of_bits(Target::Arm, x)),
        Family::OffPtr => Some(add(word, x, low_bits(word, int))),
        Family::Int64Hi => Some(x >> 32),
        Family::Int64Lo => Some(trunc(32, x)),
        Family::Copy => Some(x),
        Family::Arm(arm) => machine::arm_unary(arm, int, x, target),
        Family::Rv(rv) => machine::rv_unary(rv, int, x, target),
        _ => None,
    }
}

fn binary(op: Op, int: i64, x: u64, y: u64, target: Target) -> Option<u64>
    requires { IsSized op }
    ensures { result ≡ op_value op int (x ∷ y ∷ []) target }
{
    let (a, b) = (op.a as u32, op.b as u32);
    let word = word_bits(target);
    match op.family {
        Family::Add => Some(add(a, x, y)),
        Family::Sub => Some(sub(a, x, y)),
        Family::Mul => Some(mul(a, x, y)),
        Family::And => Some(and(a, x, y)),
        Family::Or => Some(or(a, x, y)),
        Family::Xor => Some(xor(a, x, y)),
        Family::Div => Some(div(target, a, x, y)),
        Family::Divu => Some(div_unsigned(target, a, x, y)),
        Family::Mod => Some(rem(a, x, y)),
        Family::Modu => Some(rem_unsigned(a, x, y)),
        Family::Hmul => Some(high(a, x, y, true)),
        Family::Hmulu => Some(high(a, x, y, false)),
        Family::Lsh => Some(shift_left(a, x, trunc(b, y))),
        Family::Rsh => Some(shift_signed(a, x, trunc(b, y))),
        Family::RshU => Some(shr(a, x, trunc(b, y))),
        Family::Eq => Some(equal(a, x, y) as u64),
        Family::Neq => Some(!equal(a, x, y) as u64),
        Family::Less => Some(is_less(a, x, y) as u64),
        Family::LessU => Some(is_below(a, x, y) as u64),
        Family::Leq => Some(!is_less(a, y, x) as u64),
        Family::LeqU => Some(!is_below(a, y, x) as u64),
        Family::EqB => Some(equal(1, x, y) as u64),
        Family::NeqB => Some(!equal(1, x, y) as u64),
        Family::AndB => Some(and(1, x, y)),
        Family::OrB => Some(or(1, x, y)),
        Family::EqPtr => Some(equal(word, x, y) as u64),
        Family::NeqPtr => Some(!equal(word, x, y) as u64),
        Family::IsInBounds => Some(is_below(word, x, y) as u64),
        Family::IsSliceInBounds => Some(!is_below(word, y, x) as u64),
        Family::RotateLeft => Some(rotate(a, x, trunc(word, y))),
        Family::AddPtr => Some(add(word, x, y)),
        Family::SubPtr => Some(sub(word, x, y)),
        Family::Int64Make => Some((trunc(32, x) << 32) + trunc(32, y)),
        Family::Arm(arm) => machine::arm_binary(arm, int, x, y, target),
        Family::Rv(rv) => machine::rv_binary(rv, int, x, y, target),
        _ => None,
    }
}

fn ternary(op: Op, int: i64, x: u64, y: u64, c: u64, target: Target) -> Option<u64>
    ensures { result ≡ op_value op int (x ∷ y ∷ c ∷ []) target }
{
    match op.family {
        Family::CondSelect => Some(if trunc(1, c) == 0 { y } else { x }),
        Family::Arm(arm) => machine::arm_ternary(arm, int, x, y, c, target),
        Family::Rv(rv) => machine::rv_ternary(rv, int, x, y, c, target),
        _ => None,
    }
}

#[tactic(auto, unfolding(crate::specs::Formulas::formula, crate::specs::Formulas::rv_formula))]
fn quaternary(op: Op, int: i64, x: u64, y: u64, c: u64, d: u64, target: Target) -> Option<u64>
    ensures { result ≡ op_value op int (x ∷ y ∷ c ∷ d ∷ []) target }
{
    match op.family {
        Family::AddHi32 => Some(add_carry(32, x, y, c, d)),
        Family::SubHi32 => Some(sub_borrow(32, x, y, c, d)),
        Family::Arm(arm) => machine::arm_quaternary(arm, int, x, y, c, d, target),
        _ => None,
    }
}

/// Whether some name has the op's family with these widths.
#[tactic(auto, unfolding(crate::specs::Table::is_op))]
pub(crate) fn is_named(op: Op) -> bool
    ensures is { result ≡ is_op op.family op.a op.b }
    ensures within { IsTrue result → (op.a ≤ 64) × (op.b ≤ 64) }
{
    row_of(op).widths.allow(op.a, op.b)
}

/// The op with a width of 1 for each that its name does not have: its value takes no notice of it.
fn sized(op: Op) -> Op
    requires { (op.a ≤ 64) × (op.b ≤ 64) }
    ensures sized { IsSized result }
    ensures same { result ≡ record { family = op.family; a = at_least_one op.a; b = at_least_one op.b } }
{
    Op {
        family: op.family,
        a: if op.a == 0 { 1 } else { op.a },
        b: if op.b == 0 { 1 } else { op.b },
    }
}

/// The value of the op at these arguments, of which there may be any count.
fn by_count(op: Op, int: i64, args: &[u64], target: Target) -> Option<u64>
    requires { IsSized op }
    ensures { result ≡ op_value op int args.now target }
{
    match args {
        [] => nullary(op, int, target),
        [x] => unary(op, int, *x, target),
        [x, y] => binary(op, int, *x, *y, target),
        [x, y, c] => ternary(op, int, *x, *y, *c, target),
        [x, y, c, d] => quaternary(op, int, *x, *y, *c, *d, target),
        _ => None,
    }
}

/// The value of the op at these arguments, each taken modulo 2 to the width of its place.
///
/// A quotient by zero is 0 on arm and all ones on riscv64.
#[tactic(auto, unfolding(crate::specs::Values::pure_value))]
pub fn eval_op(op: Op, int: i64, args: &[u64], target: Target) -> Option<u64>
    ensures value { result ≡ pure_value op int args.now target }

    // There is a value where the op neither takes nor gives memory, its value is not given otherwise, and the count of
    // arguments is that of the op table.
    ensures pure { IsSome result ↔ (IsTrue (is_pure op) × ((info_of op).arity ≡ Some (length args.now))) }
{
    if is_named(op) {
        by_count(sized(op), int, args, target)
    } else {
        None
    }
}
