// The piece of a function.
ghost use Rattle.std.specs.Prelude.{◌≡◌, ℕ, IfOk};
ghost use Rattle.bk_emit.specs.Code.{AreWritten, IsPiece, function_lines, start_of, frame_of};
ghost use Rattle.bk_emit.specs.Tables.{look, line_of};

use crate::blocks::Frame;
use crate::layout::{Lines, places_of, widths_of};
use crate::machine::Machine;
use crate::table::Table;
use crate::written::{code_of, handles_of};
use bk_func::{Func, Memory, Placed};
use bk_piece::{Handle, Piece};
use std::alloc::{AllocError, Global};

/// The code for a machine of a function whose values have places, in a frame of so many bytes.
///
/// `keys` are the handles of the function's keys, in the order in which `keys_of` lists them. Code of more than 2^32 words is answered as want of memory.
pub fn emit<M: Machine>(
    alloc: Global,
    func: &Func,
    placed: &Placed,
    frame: u32,
    keys: &[Handle],
) -> Result<Piece, Memory>
    ensures { IfOk result (IsPiece M.forms func.now placed.now frame keys.now) }
{
    let table = Table::new(alloc, func, keys)?;
    let lines = lines_of::<M>(alloc, placed, frame, &table)?;
    let piece = piece_of::<M>(alloc, &lines, frame, table.types)?;
    Ok(piece)
}

fn lines_of<M: Machine>(
    alloc: Global,
    placed: &Placed,
    frame: u32,
    table: &Table<'_>,
) -> Result<Lines, AllocError>
    ensures lines { IfOk result (λ l. l.lines.items ≡ function_lines M.forms (frame_of placed.now frame) (look table.now.entries) placed.now.blocks) }
    ensures starts { IfOk result (λ l. (n : ℕ) → line_of l.starts n ≡ start_of M.forms (frame_of placed.now frame) (look table.now.entries) placed.now.blocks n) }
{
    let frame = Frame {
        bytes: frame,
        out: placed.out,
        slots: placed.slots,
    };
    Lines::new::<M>(alloc, &placed.blocks, frame, &table.entries)
}

fn piece_of<M: Machine>(
    alloc: Global,
    lines: &Lines,
    frame: u32,
    types: &[Handle],
) -> Result<Piece, Memory>
    ensures written { IfOk result (λ piece. AreWritten M.forms (line_of lines.now.starts) lines.now.lines.items piece.code piece.handles) }
    ensures types { IfOk result (λ piece. piece.types ≡ types.now) }
    ensures frame { IfOk result (λ piece. piece.frame ≡ frame) }
{
    let sizes = lines.sizes::<M>(alloc)?;
    let widths = widths_of(alloc, &lines.lines, &sizes)?;
    let places = places_of(alloc, &widths)?;
    let code = code_of::<M>(alloc, lines, &widths, &places)?;
    let handles = handles_of(alloc, &lines.lines, &widths)?;
    Ok(Piece {
        code,
        handles,
        types: types.to_vec(alloc)?,
        frame,
    })
}
