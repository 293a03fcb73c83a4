// The operators and functions of expressions, over numbers of 64 bits.
ghost use Rattle.std.specs.Prelude.{◌≡◌, ◌<◌, ◌==◌, not};
ghost use Rattle.bk_num.specs.Word.{rotated};
ghost use Rattle.bk_rule.specs.Expressions.{word, wrap, truth, unary, binary, log2_of, rotated_byte, arm_immediate};

use crate::Fun;
use bk_num::{residue, rotl, sext, shl};

/// The bits of a number, without a sign.
pub(crate) fn word(x: i64) -> u64
    ensures { result ≡ word x }
{
    residue(64, x as i128)
}

fn wrap(n: u64) -> i64
    ensures { result ≡ wrap n }
{
    sext(64, n)
}

fn truth(test: bool) -> i64
    ensures { result ≡ truth test }
{
    if test { 1 } else { 0 }
}

/// The exponent of a power of two above 0.
#[tactic(auto, using(crate::proofs::Powers::no_log2_below_1))]
fn log2(x: i64) -> Option<i64>
    ensures { result ≡ log2_of x }
{
    if x <= 0 {
        return None;
    }
    let bits = x as u64;
    let exponent = bits.ilog2();
    if bits == 1 << exponent {
        Some(exponent as i64)
    } else {
        None
    }
}

/// A32's immediates: a byte rotated right by an even number.
#[tactic(auto, using(crate::proofs::Powers::next_byte, crate::proofs::Powers::some_byte))]
fn arm_immediate(n: u64) -> bool
    ensures { result ≡ arm_immediate n }
{
    for half in 0..16 {
        if rotl(32, n, 2 * half) < 256 {
            return true;
        }
    }
    false
}

/// A function of one number.
pub(crate) fn unary(fun: Fun, x: i64) -> Option<i64>
    ensures { result ≡ unary fun x }
{
    match fun {
        Fun::Neg => Some(wrap(0u64.wrapping_sub(word(x)))),
        Fun::Com => Some(wrap(u64::MAX - word(x))),
        Fun::IsPowerOfTwo => Some(truth(log2(x).is_some())),
        Fun::Log2 => log2(x),
        Fun::Zext8 => Some(residue(8, x as i128) as i64),
        Fun::Zext16 => Some(residue(16, x as i128) as i64),
        Fun::Zext32 => Some(residue(32, x as i128) as i64),
        Fun::Is12 => Some(truth(-2048 <= x && x < 2048)),
        Fun::ArmImm => Some(truth(arm_immediate(residue(32, x as i128)))),
        _ => None,
    }
}

/// An operator or a function of two numbers.
pub(crate) fn binary(fun: Fun, x: i64, y: i64) -> Option<i64>
    ensures { result ≡ binary fun x y }
{
    let (a, b) = (word(x), word(y));
    match fun {
        Fun::Mul => Some(wrap(a.wrapping_mul(b))),
        Fun::Shl => Some(wrap(shl(64, a, b.min(64)))),
        Fun::Shr => Some(x >> b.min(63)),
        Fun::And => Some(wrap(a & b)),
        Fun::Add => Some(wrap(a.wrapping_add(b))),
        Fun::Sub => Some(wrap(a.wrapping_sub(b))),
        Fun::Or => Some(wrap(a | b)),
        Fun::Xor => Some(wrap(a ^ b)),
        Fun::Eq => Some(truth(a == b)),
        Fun::Ne => Some(truth(a != b)),
        Fun::Lt => Some(truth(x < y)),
        Fun::Le => Some(truth(x <= y)),
        Fun::Ult => Some(truth(a < b)),
        Fun::Ule => Some(truth(a <= b)),
        _ => None,
    }
}
