//! Why a text of rules is refused.
use std::alloc::{AllocError, AllocFailed};
use thiserror::Error;

/// Why a text gives no rules. Lines are counted from 1.
#[derive(Clone, Copy, PartialEq, Eq, Debug, Drop, Error)]
pub enum RuleError {
    /// The first line at fault is outside the grammar.
    #[error("line {line}: syntax")]
    RuleSyntax { line: u64 },
    /// The first line at fault is in the grammar, but an op does not stand as it may.
    #[error("line {line}: op")]
    RuleOp { line: u64 },
    #[error("memory")]
    Memory,
}

impl From<AllocError> for RuleError {
    ghost use Rattle.std.specs.Prelude.{◌≡◌};
    ghost use Rattle.bk_rule_text.specs.declared.errors.RuleError.TheVariants.{Memory};

    ghost from_gives = { λ _ e. e ≡ Memory };

    fn from(_error: AllocError) -> Self {
        RuleError::Memory
    }
}

/// Why a line gives no rules.
#[derive(Clone, Copy, PartialEq, Eq, Debug)]
pub(crate) enum Fault {
    Syntax,
    Op,
    Memory,
}

impl From<AllocError> for Fault {
    ghost use Rattle.std.specs.Prelude.{◌≡◌};
    ghost use Rattle.bk_rule_text.specs.declared.errors.Fault.TheVariants.{Memory};

    ghost from_gives = { λ _ e. e ≡ Memory };

    fn from(_error: AllocError) -> Self {
        Fault::Memory
    }
}

impl<T: Drop> From<AllocFailed<T>> for Fault {
    ghost use Rattle.std.specs.Prelude.{◌≡◌};
    ghost use Rattle.bk_rule_text.specs.declared.errors.Fault.TheVariants.{Memory};

    ghost from_gives = { λ _ e. e ≡ Memory };

    fn from(_refused: AllocFailed<T>) -> Self {
        Fault::Memory
    }
}

/// Why a part of a line was not read.
#[derive(Clone, Copy, PartialEq, Eq, Debug)]
pub(crate) enum Unread {
    /// It is outside the grammar.
    Syntax,
    Memory,
}

impl From<AllocError> for Unread {
    ghost use Rattle.std.specs.Prelude.{◌≡◌};
    ghost use Rattle.bk_rule_text.specs.declared.errors.Unread.TheVariants.{Memory};

    ghost from_gives = { λ _ e. e ≡ Memory };

    fn from(_error: AllocError) -> Self {
        Unread::Memory
    }
}

impl<T: Drop> From<AllocFailed<T>> for Unread {
    ghost use Rattle.std.specs.Prelude.{◌≡◌};
    ghost use Rattle.bk_rule_text.specs.declared.errors.Unread.TheVariants.{Memory};

    ghost from_gives = { λ _ e. e ≡ Memory };

    fn from(_refused: AllocFailed<T>) -> Self {
        Unread::Memory
    }
}

impl From<Unread> for Fault {
    ghost use Rattle.bk_rule_text.specs.Views.{Becomes};

    ghost from_gives = { Becomes };

    fn from(unread: Unread) -> Self {
        match unread {
            Unread::Syntax => Fault::Syntax,
            Unread::Memory => Fault::Memory,
        }
    }
}
