// The words of branches.
ghost use Rattle.std.specs.Prelude.{◌≡◌, ◌++◌, ◌≤ℤ◌, ◌^◌, pos, neg_ℤ, IfOk, OnOk};
ghost use Rattle.bk_arm_emit.specs.Written as spec;

use crate::insts::fault;
use crate::lines::word_of;
use bk_arm_isa::{Condition, Inst};
use bk_emit::Branch;
use std::alloc::{AllocError, Global};

/// The sizes of branches: one word each.
pub(crate) fn sizes_of(alloc: Global, branches: &[Branch]) -> Result<Vec<u8>, AllocError>
    ensures { IfOk result (λ sizes. spec.AreSingle branches.now sizes.items) }
{
    vec![in alloc; 1; branches.len()]
}

/// Adds the word of a jump over a distance in bytes.
pub(crate) fn put_jump(code: &mut Vec<u32>, distance: i64) -> Result<(), AllocError>
    requires { neg_ℤ (pos (2 ^ 40)) ≤ℤ distance }
    ensures { OnOk result (code.new.items ≡ code.old.items ++ spec.jump_words distance) }
{
    code.push(word_of(branch_by(Condition::Al, distance)))?;
    Ok(())
}

/// Adds the word of a branch over a distance in bytes, where the bit that was tested is `bit`.
pub(crate) fn put_branch(code: &mut Vec<u32>, bit: bool, distance: i64) -> Result<(), AllocError>
    requires { neg_ℤ (pos (2 ^ 40)) ≤ℤ distance }
    ensures { OnOk result (code.new.items ≡ code.old.items ++ spec.branch_words bit distance) }
{
    code.push(word_of(branch_by(condition_of(bit), distance)))?;
    Ok(())
}

/// A branch over a distance in bytes.
fn branch_by(condition: Condition, distance: i64) -> Inst
    requires { neg_ℤ (pos (2 ^ 40)) ≤ℤ distance }
    ensures { result ≡ spec.branch_by condition distance }
{
    let steps = (distance - 8) / 4;
    if steps >= -0x80_0000 && steps < 0x80_0000 {
        Inst::B {
            condition,
            imm24: steps as i32,
        }
    } else {
        fault()
    }
}

/// The condition that the bit that was tested is so.
fn condition_of(bit: bool) -> Condition
    ensures { result ≡ spec.condition_of bit }
{
    if bit { Condition::Ne } else { Condition::Eq }
}
