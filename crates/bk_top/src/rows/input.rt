//! The input: its bytes, and the package that they spell.

ghost use Rattle.std.specs.Prelude.{◌≡◌, ◌≤◌, vec_len, Ok, IfOk, IfErr, IfSome};
ghost use Rattle.bk_top.specs.Package.{ReadsAs};
ghost use Rattle.bk_top.specs.Answer.{IsReading, IsReaders, StandsFor};

use crate::refusal::Refusal;
use bk_dump::{DumpError, read_package};
use bk_func::Package;
use bk_io::{ReadError, Source, read_all};
use bk_ops::Target;
use std::alloc::Global;

/// The most bytes of a package text.
pub const TEXT_LIMIT: usize = 16_777_216;

/// The most bytes of an object.
pub const OBJECT_LIMIT: usize = 67_108_864;

/// All bytes of the input, at most so many.
pub fn bytes_of<S: Source>(alloc: Global, input: &mut S, limit: usize) -> Result<Vec<u8>, Refusal>
    ensures bytes { IfOk result (λ bytes. IfSome (S.left input.old) (λ left. bytes.items ≡ left)) }
    ensures within { IfOk result (λ bytes. vec_len bytes ≤ limit) }
    ensures cause { IfErr result (IsReading limit (S.left input.old) (S.faults input.old) (S.faults input.new)) }
{
    match read_all(alloc, input, limit) {
        Ok(bytes) => Ok(bytes),
        Err(ReadError::ReadFault) => Err(Refusal::ReadFault),
        Err(ReadError::TooLong) => Err(Refusal::TooLong),
        Err(ReadError::Memory) => Err(Refusal::Memory),
    }
}

/// The reader's refusal.
fn refusal_of(error: DumpError) -> Refusal
    ensures { StandsFor result error }
{
    match error {
        DumpError::Syntax { line } => Refusal::Syntax { line },
        DumpError::Limit { which, line } => Refusal::Limit { which, line },
        DumpError::Duplicate { line } => Refusal::Duplicate { line },
        DumpError::Undefined { name } => Refusal::Undefined { name },
        DumpError::FormFault { func, kind, place } => Refusal::FormFault { func, kind, place },
        DumpError::Memory => Refusal::Memory,
    }
}

/// The package that the text spells.
pub fn package_of(alloc: Global, text: &[u8], target: Target) -> Result<Package, Refusal>
    ensures read { IfOk result (λ pkg. ReadsAs text.now target (Ok pkg)) }
    ensures cause { IfErr result (IsReaders text.now target) }
{
    match read_package(alloc, text, target) {
        Ok(package) => Ok(package),
        Err(error) => Err(refusal_of(error)),
    }
}
