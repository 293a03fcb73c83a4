// Lines of code: words, and branches that have no size yet.
ghost use Rattle.std.specs.Prelude.{◌≡◌};
ghost use Rattle.bk_emit.specs.Lines.{opening};

use bk_piece::{Handle, Patch};

/// A line of code.
#[derive(Clone, Copy)]
pub enum Line {
    /// The word of an instruction.
    Word(u32),
    /// The first word of a unit that waits for an address.
    Open(Patch, Handle, u32),
    /// To the block with this number.
    Jump(u32),
    /// To the block with this number, where the bit that was tested is so.
    Branch(bool, u32),
}

/// The first word of a unit that waits for the address of what a handle stands for.
pub fn opening(patch: Patch, handle: Option<Handle>, word: u32) -> Line
    ensures { result ≡ opening patch handle word }
{
    match handle {
        Some(handle) => Line::Open(patch, handle, word),
        None => Line::Word(word),
    }
}
