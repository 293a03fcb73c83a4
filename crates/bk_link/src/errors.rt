// Why a package was not linked.
ghost use Rattle.std.specs.Prelude.{◌≡◌};
ghost use Rattle.bk_link.specs.declared.errors.LinkError.TheVariants as why;

use bk_ops::Memory;
use std::alloc::{AllocError, AllocFailed};
use thiserror::Error;

/// Why a package has no object.
#[derive(Clone, Copy, PartialEq, Eq, Debug, Drop, Error)]
pub enum LinkError {
    /// Text and pool together would have so many bytes, which are over the limit of 16,777,216.
    #[error("text {bytes}")]
    Text { bytes: u64 },
    #[error("memory")]
    Memory,
}

impl From<AllocError> for LinkError {
    ghost from_gives = { λ _ error. error ≡ why.Memory };

    fn from(_error: AllocError) -> Self {
        LinkError::Memory
    }
}

impl<T: Drop> From<AllocFailed<T>> for LinkError {
    ghost from_gives = { λ _ error. error ≡ why.Memory };

    fn from(_refused: AllocFailed<T>) -> Self {
        LinkError::Memory
    }
}

impl From<Memory> for LinkError {
    ghost from_gives = { λ _ error. error ≡ why.Memory };

    fn from(_error: Memory) -> Self {
        LinkError::Memory
    }
}
