// Lines of instructions.
ghost use Rattle.std.specs.Prelude.{◌≡◌, ◌++◌, ◌∷◌, [], map, OnOk};
ghost use Rattle.bk_emit.specs.Lines.{opening};
ghost use Rattle.bk_rv_emit.specs.Lines as spec;

use bk_emit::{Handle, Line, Patch, opening};
use bk_rv_isa::{Inst, encode};
use std::alloc::AllocError;

/// Adds instructions.
pub(crate) fn put(lines: &mut Vec<Line>, insts: &[Inst]) -> Result<(), AllocError>
    ensures { OnOk result (lines.new.items ≡ lines.old.items ++ map spec.inst insts.now) }
{
    for inst in insts {
        lines.push(Line::Word(word_of(*inst)))?;
    }
    Ok(())
}

/// Adds a unit of two instructions that waits for the address of what a handle stands for.
pub(crate) fn put_open(
    lines: &mut Vec<Line>,
    patch: Patch,
    handle: Option<Handle>,
    first: Inst,
    second: Inst,
) -> Result<(), AllocError>
    ensures { OnOk result (lines.new.items ≡ lines.old.items ++ opening patch handle (spec.word_of first) ∷ spec.inst second ∷ []) }
{
    lines.push(opening(patch, handle, word_of(first)))?;
    lines.push(Line::Word(word_of(second)))?;
    Ok(())
}

/// The word of an instruction, 0 for one that has none.
#[tactic(auto, unfolding(crate::specs::Lines::word_of))]
pub(crate) fn word_of(inst: Inst) -> u32
    ensures { result ≡ spec.word_of inst }
{
    encode(inst).unwrap_or(0)
}
