// Why a function or a package is not compiled.
ghost use Rattle.std.specs.Prelude.{◌≡◌};
ghost use Rattle.bk_work.specs.Stops.{frame_stop, stop_of};
ghost use Rattle.bk_work.specs.declared.refusals.PackageError.TheVariants as why;
ghost use Rattle.bk_work.specs.declared.refusals.Stop.TheVariants as stops;

use bk_calls::FrameError;
use bk_func::{Memory, RewriteError};
use std::alloc::AllocError;

/// Why a function is not compiled.
#[derive(Clone, Copy, PartialEq, Eq, Debug)]
pub enum Cause {
    /// The target has no code for the value with this number, the least of those that it has none for.
    Construct(u32),
    /// Each of so many passes changed something, which is the limit.
    Passes(u64),
    /// The count of values passed the limit.
    Grown(u64),
    /// A call of the function needs so many bytes of the stack, more than the limit.
    Frame(u32),
}

/// A function that is not compiled, by its place in the package, and why.
#[derive(Clone, Copy, PartialEq, Eq, Debug)]
pub struct Refusal {
    pub func: u32,
    pub cause: Cause,
}

/// Why a package is not compiled.
#[derive(Drop, PartialEq, Eq, Debug)]
pub enum PackageError {
    /// All refused functions, in package order.
    Functions(Vec<Refusal>),
    /// Text and pool have so many bytes together, more than the limit.
    Text(u64),
    Memory,
}

/// Why the work on one function ended.
#[derive(Clone, Copy)]
pub(crate) enum Stop {
    Refused(Cause),
    Memory,
}

impl From<Memory> for Stop {
    ghost from_gives = { λ _ stop. stop ≡ stops.Memory };

    fn from(_memory: Memory) -> Stop {
        Stop::Memory
    }
}

impl From<AllocError> for Stop {
    ghost from_gives = { λ _ stop. stop ≡ stops.Memory };

    fn from(_error: AllocError) -> Stop {
        Stop::Memory
    }
}

impl From<RewriteError> for Stop {
    ghost from_gives = { λ error stop. stop ≡ stop_of error };

    fn from(error: RewriteError) -> Stop {
        match error {
            RewriteError::Passes { n } => Stop::Refused(Cause::Passes(n)),
            RewriteError::Grown { values } => Stop::Refused(Cause::Grown(values)),
            RewriteError::Memory => Stop::Memory,
        }
    }
}

impl From<FrameError> for Stop {
    ghost from_gives = { λ error stop. stop ≡ frame_stop error };

    fn from(error: FrameError) -> Stop {
        match error {
            FrameError::Frame { need } => Stop::Refused(Cause::Frame(need)),
        }
    }
}

impl From<Memory> for PackageError {
    ghost from_gives = { λ _ error. error ≡ why.Memory };

    fn from(_memory: Memory) -> PackageError {
        PackageError::Memory
    }
}

impl From<AllocError> for PackageError {
    ghost from_gives = { λ _ error. error ≡ why.Memory };

    fn from(_error: AllocError) -> PackageError {
        PackageError::Memory
    }
}
