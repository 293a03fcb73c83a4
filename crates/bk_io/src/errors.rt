//! What a read, a write or want of memory answers.

ghost use Rattle.std.specs.Prelude.{◌≡◌};
ghost use Rattle.bk_io.specs.declared.errors.ReadError.TheVariants.{Memory as MemoryRefused, ReadFault};

use std::alloc::AllocError;

/// A read or a write failed, and the object's count of faults rose.
#[derive(Clone, Copy, PartialEq, Eq, Debug)]
pub struct Failed;

/// Memory ran out.
#[derive(Clone, Copy, PartialEq, Eq, Debug)]
pub struct Memory;

impl From<AllocError> for Memory {
    fn from(_refused: AllocError) -> Memory {
        Memory
    }
}

/// Why a source was not read to its end.
#[derive(Clone, Copy, PartialEq, Eq, Debug)]
pub enum ReadError {
    /// A read failed.
    ReadFault,
    /// The source gave more bytes than the limit.
    TooLong,
    /// Memory ran out.
    Memory,
}

impl From<AllocError> for ReadError {
    ghost from_gives = { λ _ error. error ≡ MemoryRefused };

    fn from(_refused: AllocError) -> ReadError {
        ReadError::Memory
    }
}

impl From<Failed> for ReadError {
    ghost from_gives = { λ _ error. error ≡ ReadFault };

    fn from(_failed: Failed) -> ReadError {
        ReadError::ReadFault
    }
}
