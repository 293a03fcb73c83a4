// Lines of instructions.
ghost use Rattle.std.specs.Prelude.{◌≡◌, ◌++◌, ◌∷◌, [], map, OnOk};
ghost use Rattle.bk_emit.specs.Lines.{opening};
ghost use Rattle.bk_arm_emit.specs.Lines as spec;

use bk_arm_isa::{Inst, encode};
use bk_emit::{Handle, Line, Patch, opening};
use std::alloc::AllocError;

/// Adds instructions.
pub(crate) fn put(lines: &mut Vec<Line>, insts: &[Inst]) -> Result<(), AllocError>
    ensures { OnOk result (lines.new.items ≡ lines.old.items ++ map spec.inst insts.now) }
{
    for inst in insts {
        lines.push(Line::Word(word_of(*inst)))?;
    }
    Ok(())
}

/// Adds the first instruction of a unit that waits for the address of what a handle stands for.
pub(crate) fn put_open(
    lines: &mut Vec<Line>,
    patch: Patch,
    handle: Option<Handle>,
    inst: Inst,
) -> Result<(), AllocError>
    ensures { OnOk result (lines.new.items ≡ lines.old.items ++ opening patch handle (spec.word_of inst) ∷ []) }
{
    lines.push(opening(patch, handle, word_of(inst)))?;
    Ok(())
}

/// The word of an instruction, that of UDF 0 for one that has none.
#[tactic(auto, unfolding(crate::specs::Lines::word_of))]
pub(crate) fn word_of(inst: Inst) -> u32
    ensures { result ≡ spec.word_of inst }
{
    encode(inst).unwrap_or(0xe7f0_00f0)
}
