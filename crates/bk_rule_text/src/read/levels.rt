//! How deep brackets may stand in one another.
ghost use Rattle.std.specs.Prelude.{◌≡◌, ◌+◌, IfOk, IfErr};

use crate::errors::Unread;

/// Brackets that stand deeper in one another than this are answered as want of memory, since the stack is memory too.
const DEEPEST: usize = 1_000;

/// The brackets that may still be opened inside those that are open.
#[derive(Clone, Copy)]
pub struct Levels {
    /// A line opens at most as many brackets as it has bytes.
    pub left: usize,
    /// What the stack has room for.
    room: usize,
}

impl Levels {
    /// The levels that a line of so many bytes can have.
    pub fn of(bytes: usize) -> Self
        ensures { result.left ≡ bytes }
    {
        Levels {
            left: bytes,
            room: DEEPEST,
        }
    }

    /// The levels inside one more bracket.
    pub fn inner(self) -> Result<Levels, Unread>
        ensures ok { IfOk result (λ levels. self.left ≡ levels.left + 1) }
        ensures memory { IfErr result (λ unread. unread ≡ Unread.Memory) }
    {
        if self.left == 0 || self.room == 0 {
            return Err(Unread::Memory);
        }
        Ok(Levels {
            left: self.left - 1,
            room: self.room - 1,
        })
    }
}
