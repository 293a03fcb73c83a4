//! Why the program did not do what its words ask.

ghost use Rattle.std.specs.Prelude.{◌≡◌};
ghost use Rattle.bk_top.specs.Refusals.{status};
ghost use Rattle.bk_top.specs.declared.refusal.Refusal.TheVariants as why;

use bk_dump::Which;
use bk_elf::LoadError;
use bk_form::{FormKind, Place};
use bk_work::Cause;
use std::alloc::AllocError;

/// A function that is not compiled, and why.
#[derive(Drop, Debug)]
pub struct RefusedFunc {
    pub name: String,
    pub cause: Cause,
}

/// Why the program did not do what its words ask.
#[derive(Drop, Debug)]
pub enum Refusal {
    /// The words stand in no row.
    Words,
    /// A read failed.
    ReadFault,
    /// The input has more bytes than its limit.
    TooLong,
    /// The text of the extra rules has more bytes than its limit.
    ExtraTooLong,
    /// The first line of the extra rules outside the grammar.
    RuleSyntax {
        line: u64,
    },
    /// The first line of the extra rules whose ops may not stand so.
    RuleOp {
        line: u64,
    },
    /// The first line of the text outside the grammar.
    Syntax {
        line: u64,
    },
    /// The first line of the text past a limit.
    Limit {
        which: Which,
        line: u64,
    },
    /// The first line of the text that declares a name or a number again.
    Duplicate {
        line: u64,
    },
    /// What the first reference of the text that names nothing says.
    Undefined {
        name: String,
    },
    /// The first function that is not in form, and where it is not.
    FormFault {
        func: String,
        kind: FormKind,
        place: Place,
    },
    /// The functions that are not compiled, in package order.
    Functions(Vec<RefusedFunc>),
    /// The bytes of text and pool, which are more than the limit.
    Text {
        bytes: u64,
    },
    /// The input is no object.
    Object(LoadError),
    /// No function has the name.
    Function,
    /// The arguments do not fit the function.
    Arguments,
    /// A write failed.
    WriteFault,
    /// There was no memory.
    Memory,
}

impl From<AllocError> for Refusal {
    ghost from_gives = { λ _ refusal. refusal ≡ why.Memory };

    fn from(_error: AllocError) -> Refusal {
        Refusal::Memory
    }
}

/// The program's status after the refusal.
pub fn status(refusal: &Refusal) -> u8
    ensures { result ≡ status refusal.now }
{
    match refusal {
        Refusal::Functions(_) => 1,
        Refusal::Words => 2,
        Refusal::TooLong
        | Refusal::Syntax { .. }
        | Refusal::Limit { .. }
        | Refusal::Duplicate { .. }
        | Refusal::Undefined { .. }
        | Refusal::FormFault { .. } => 3,
        Refusal::ExtraTooLong | Refusal::RuleSyntax { .. } | Refusal::RuleOp { .. } => 7,
        Refusal::Text { .. } => 9,
        Refusal::Object(_) => 8,
        Refusal::Function | Refusal::Arguments => 10,
        Refusal::ReadFault => 4,
        Refusal::WriteFault => 5,
        Refusal::Memory => 6,
    }
}
