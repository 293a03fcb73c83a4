// The words of jumps and branches.
ghost use Rattle.std.specs.Prelude.{◌≡◌, ◌++◌, ◌^◌, ◌≤ℤ◌, pos, neg_ℤ, map, OnOk};
ghost use Rattle.bk_rv_emit.specs.Lines as lines;
ghost use Rattle.bk_rv_emit.specs.Written as spec;

use crate::lines::word_of;
use crate::units::{SCRATCH, lower, upper};
use bk_rv_isa::{BranchOp, Inst};
use std::alloc::AllocError;

fn put_insts(code: &mut Vec<u32>, insts: &[Inst]) -> Result<(), AllocError>
    ensures { OnOk result (code.new.items ≡ code.old.items ++ map lines.word_of insts.now) }
{
    for inst in insts {
        code.push(word_of(*inst))?;
    }
    Ok(())
}

/// Adds a jump of one word, or of two by way of a register.
pub(crate) fn put_jump(code: &mut Vec<u32>, size: u8, distance: i64) -> Result<(), AllocError>
    ensures { OnOk result (code.new.items ≡ code.old.items ++ map lines.word_of (spec.jump_form size distance)) }
{
    if size == 1 {
        put_insts(code, &[Inst::Jal(0, distance)])
    } else {
        let first = Inst::Auipc(SCRATCH, upper(distance));
        put_insts(code, &[first, Inst::Jalr(0, SCRATCH, lower(distance))])
    }
}

/// Adds a branch of one word, or the opposite branch over a jump.
pub(crate) fn put_branch(
    code: &mut Vec<u32>,
    bit: bool,
    size: u8,
    distance: i64,
) -> Result<(), AllocError>
    requires { neg_ℤ (pos (2 ^ 40)) ≤ℤ distance }
    ensures { OnOk result (code.new.items ≡ code.old.items ++ map lines.word_of (spec.branch_form bit size distance)) }
{
    let rest = distance - 4;
    match size {
        1 => put_insts(code, &[branch_on(bit, distance)]),
        2 => put_insts(code, &[branch_on(!bit, 8), Inst::Jal(0, rest)]),
        _ => {
            let first = Inst::Auipc(SCRATCH, upper(rest));
            let second = Inst::Jalr(0, SCRATCH, lower(rest));
            put_insts(code, &[branch_on(!bit, 12), first, second])
        }
    }
}

/// The branch of one word where the bit in the scratch register is so.
fn branch_on(bit: bool, bytes: i64) -> Inst
    ensures { result ≡ spec.branch_on bit bytes }
{
    let op = if bit { BranchOp::Bne } else { BranchOp::Beq };
    Inst::Branch(op, SCRATCH, 0, bytes)
}
