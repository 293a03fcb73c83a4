// The ops that a target has no code for.
ghost use Rattle.std.specs.Prelude.{◌≡◌};
ghost use Rattle.bk_ops.specs.Refused.{has_no_code, is_refused};

use crate::eval::is_named;
use crate::{Family, Op, Target};

/// The most bytes that one op clears or copies.
const MOST_BYTES: i64 = 64;

fn has_no_code(op: Op, int: i64, target: Target) -> bool
    ensures { result ≡ has_no_code op.family target op.a int }
{
    match op.family {
        Family::Div | Family::Divu | Family::Mod | Family::Modu | Family::Hmul | Family::Hmulu => {
            target == Target::Arm && op.a == 64
        }
        Family::Ctz32
        | Family::BitLen32
        | Family::Int64Make
        | Family::Int64Hi
        | Family::Int64Lo
        | Family::AddHi32
        | Family::SubHi32 => target == Target::Riscv64,
        Family::Sp => true,
        Family::Zero | Family::Move => int < 0 || MOST_BYTES < int,
        _ => false,
    }
}

/// Whether the target has no code for the op with this number.
///
/// These are quotients, remainders and high halves of 64 bits on arm; counts of zeros, lengths in bits and numbers in
/// halves on riscv64; and on both `SP`, and the clearing or copying of fewer than 0 or more than 64 bytes.
#[tactic(auto, unfolding(crate::specs::Refused::is_refused))]
pub fn is_refused(op: Op, int: i64, target: Target) -> bool
    ensures { result ≡ is_refused op int target }
{
    is_named(op) && has_no_code(op, int, target)
}
