//! Laws of code: it does not depend on the cells of the table in which its keys stand.
#![tactic(auto)]

ghost use Rattle.std.specs.Prelude.{◌≡◌, ℕ, List, map};
ghost use Rattle.bk_func.specs.Records.{FuncRecord, PlacedRecord};
ghost use Rattle.bk_piece.specs.declared.Handle.{Handle};
ghost use Rattle.bk_piece.specs.Filled.{key_at, filled};
ghost use Rattle.bk_piece.specs.Pieces.{PieceRecord};
ghost use Rattle.bk_arm_emit.specs.Code as arm;
ghost use Rattle.bk_rv_emit.specs.Code as rv;

/// A law: where a function has a piece for arm with handles into one table, it has one with handles into another, in whose cells the
/// same keys stand, and the two are equal once keys stand for their handles.
pub fn arm_pieces_move()
    ensures { (w x : List (List ℕ)) (f : FuncRecord) (p : PlacedRecord) (bytes : ℕ) (hs js : List Handle) (piece : PieceRecord) → map (key_at w) hs ≡ map (key_at x) js → arm.IsPiece f p bytes hs piece → (other : PieceRecord) × arm.IsPiece f p bytes js other × (filled w piece ≡ filled x other) }
{}

/// A law: the same for riscv64.
pub fn rv_pieces_move()
    ensures { (w x : List (List ℕ)) (f : FuncRecord) (p : PlacedRecord) (bytes : ℕ) (hs js : List Handle) (piece : PieceRecord) → map (key_at w) hs ≡ map (key_at x) js → rv.IsPiece f p bytes hs piece → (other : PieceRecord) × rv.IsPiece f p bytes js other × (filled w piece ≡ filled x other) }
{}
