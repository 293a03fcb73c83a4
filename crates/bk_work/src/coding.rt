// The code of a function in its frame.
ghost use Rattle.std.specs.Prelude.{IfOk};
ghost use Rattle.bk_work.specs.Package.{IsPiece};

use crate::framing::Framed;
use bk_func::Memory;
use bk_ops::Target;
use bk_piece::{Handle, Piece};
use std::alloc::Global;

/// The code, given a handle for each key of the function.
pub(crate) fn emit(
    alloc: Global,
    target: Target,
    it: &Framed,
    handles: &[Handle],
) -> Result<Piece, Memory>
    ensures { IfOk result (IsPiece target it.now.func it.now.placed it.now.frame handles.now) }
{
    match target {
        Target::Arm => bk_arm_emit::emit(alloc, &it.func, &it.placed, it.frame, handles),
        Target::Riscv64 => bk_rv_emit::emit(alloc, &it.func, &it.placed, it.frame, handles),
    }
}
