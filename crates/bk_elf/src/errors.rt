// Why a file is no object.
ghost use Rattle.std.specs.Prelude.{◌≡◌};
ghost use Rattle.bk_elf.specs.declared.errors.LoadError.TheVariants as why;

use std::alloc::{AllocError, AllocFailed};
use thiserror::Error;

/// Why a file was not loaded. The first cause in this order is told, but for want of memory, which may come at any time.
#[derive(Clone, Copy, PartialEq, Eq, Debug, Drop, Error)]
pub enum LoadError {
    /// The first four bytes are not those of an ELF file.
    #[error("object: not ELF")]
    NotElf,
    /// The header's field at this byte is not that of an object.
    #[error("object: header {field}")]
    BadHeader { field: u32 },
    /// The section with this number is the first that is not as an object's.
    #[error("object: section {n}")]
    BadSection { n: u32 },
    /// The bytes end before the header does, or before the section headers do.
    #[error("object: truncated")]
    Truncated,
    #[error("object: memory")]
    Memory,
}

impl From<AllocError> for LoadError {
    ghost from_gives = { λ _ error. error ≡ why.Memory };

    fn from(_error: AllocError) -> Self {
        LoadError::Memory
    }
}

impl<T: Drop> From<AllocFailed<T>> for LoadError {
    ghost from_gives = { λ _ error. error ≡ why.Memory };

    fn from(_refused: AllocFailed<T>) -> Self {
        LoadError::Memory
    }
}
