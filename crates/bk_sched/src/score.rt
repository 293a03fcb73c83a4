// The ranks of values: of those that are ready the one with the least is next.
ghost use Rattle.std.specs.Prelude.{◌≡◌, IfOk, map};
ghost use Rattle.bk_sched.specs.Order.{is_state as meant_state};
ghost use Rattle.bk_sched.specs.Schedule.{rank_of, score_by};

use bk_func::Value;
use bk_ops::{ArmOp, Family, RvOp, Ty, is_phi};
use std::alloc::{AllocError, Global};

/// The rank of each value.
pub(crate) fn ranks(alloc: Global, values: &[Value]) -> Result<Vec<u32>, AllocError>
    ensures { IfOk result (λ ranks. ranks.items ≡ map rank_of values.now) }
{
    let mut ranks = Vec::with_capacity(alloc, values.len())?;
    for value in values {
        ranks.push(rank(value))?;
    }
    Ok(ranks)
}

/// Phis come before all, then the least score.
fn rank(value: &Value) -> u32
    ensures { result ≡ rank_of value.now }
{
    if is_phi(value.op.family) {
        return 0;
    }
    u32::from(score(value)) + 1
}

fn score(value: &Value) -> u8
    ensures { result ≡ score_by value.now.op.family (meant_state value.now) }
{
    match value.op.family {
        Family::ArgReg | Family::ResReg => 0,
        Family::ArgWord => 1,
        Family::NilCheck | Family::Arm(ArmOp::Nil) | Family::Rv(RvOp::Nil) => 2,
        Family::ResWord => 3,
        _ if is_state(value) => 4,
        _ => 5,
    }
}

/// Whether the value gives a state of memory.
pub(crate) fn is_state(value: &Value) -> bool
    ensures { result ≡ meant_state value.now }
{
    match value.op.family {
        Family::Copy | Family::MakeResult => false,
        Family::StaticLECall => true,
        _ => value.ty == Ty::Mem,
    }
}
