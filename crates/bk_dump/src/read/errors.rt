//! Why a text is refused.
ghost use Rattle.std.specs.Prelude.{◌≡◌};

use bk_form::{FormKind, Place};
use std::alloc::{AllocError, AllocFailed};

/// The limits of a text.
#[derive(Clone, Copy, PartialEq, Eq, Debug)]
pub enum Which {
    /// 4,096 functions.
    Functions,
    /// 4,096 variables.
    Variables,
    /// 16,384 values in a function.
    Values,
    /// 4,096 blocks in a function.
    Blocks,
    /// Numbers of values and blocks are 1 to 2,147,483,647.
    Numbers,
    /// 64 arguments and results of a function together.
    Signature,
    /// 1,048,576 bytes of variables, each beginning at a multiple of 8.
    Window,
}

/// Why a text is no package. Lines are counted from 1.
#[derive(Drop, Debug)]
pub enum DumpError {
    /// The first line outside the grammar.
    Syntax {
        line: u64,
    },
    /// The first line past a limit.
    Limit {
        which: Which,
        line: u64,
    },
    /// The first line that declares a name or a number again.
    Duplicate {
        line: u64,
    },
    /// What the first reference that names nothing says: a name, or `v` or `b` and a number.
    Undefined {
        name: String,
    },
    /// The first function that is not in form, and where it is not.
    FormFault {
        func: String,
        kind: FormKind,
        place: Place,
    },
    Memory,
}

impl From<AllocError> for DumpError {
    ghost use Rattle.std.specs.Prelude.{◌≡◌};
    ghost use Rattle.bk_dump.specs.declared.read.errors.DumpError.TheVariants.{Memory};

    ghost from_gives = { λ _ e. e ≡ Memory };

    fn from(_error: AllocError) -> Self {
        DumpError::Memory
    }
}

impl<T: Drop> From<AllocFailed<T>> for DumpError {
    ghost use Rattle.std.specs.Prelude.{◌≡◌};
    ghost use Rattle.bk_dump.specs.declared.read.errors.DumpError.TheVariants.{Memory};

    ghost from_gives = { λ _ e. e ≡ Memory };

    fn from(_refused: AllocFailed<T>) -> Self {
        DumpError::Memory
    }
}

/// Why a line is refused.
#[derive(Clone, Copy, PartialEq, Eq, Debug)]
pub enum Fault {
    Syntax,
    Limit(Which),
    Duplicate,
}

/// Why a line was not read.
#[derive(Clone, Copy, PartialEq, Eq, Debug)]
pub(crate) enum LineError {
    Fault(Fault),
    Memory,
}

impl From<Fault> for LineError {
    ghost use Rattle.std.specs.Prelude.{◌≡◌};
    ghost use Rattle.bk_dump.specs.declared.read.errors.LineError.TheVariants as line_error;

    ghost from_gives = { λ f e. e ≡ line_error.Fault f };

    fn from(fault: Fault) -> Self {
        LineError::Fault(fault)
    }
}

impl From<AllocError> for LineError {
    ghost use Rattle.std.specs.Prelude.{◌≡◌};
    ghost use Rattle.bk_dump.specs.declared.read.errors.LineError.TheVariants.{Memory};

    ghost from_gives = { λ _ e. e ≡ Memory };

    fn from(_error: AllocError) -> Self {
        LineError::Memory
    }
}

impl<T: Drop> From<AllocFailed<T>> for LineError {
    ghost use Rattle.std.specs.Prelude.{◌≡◌};
    ghost use Rattle.bk_dump.specs.declared.read.errors.LineError.TheVariants.{Memory};

    ghost from_gives = { λ _ e. e ≡ Memory };

    fn from(_refused: AllocFailed<T>) -> Self {
        LineError::Memory
    }
}

/// Why references were not looked up.
#[derive(Drop, Debug)]
pub(crate) enum ReferenceError {
    /// What the first reference that names nothing says.
    Undefined(String),
    Memory,
}

impl From<AllocError> for ReferenceError {
    ghost use Rattle.std.specs.Prelude.{◌≡◌};
    ghost use Rattle.bk_dump.specs.declared.read.errors.ReferenceError.TheVariants.{Memory};

    ghost from_gives = { λ _ e. e ≡ Memory };

    fn from(_error: AllocError) -> Self {
        ReferenceError::Memory
    }
}

impl<T: Drop> From<AllocFailed<T>> for ReferenceError {
    ghost use Rattle.std.specs.Prelude.{◌≡◌};
    ghost use Rattle.bk_dump.specs.declared.read.errors.ReferenceError.TheVariants.{Memory};

    ghost from_gives = { λ _ e. e ≡ Memory };

    fn from(_refused: AllocFailed<T>) -> Self {
        ReferenceError::Memory
    }
}
