//! Telling a refusal.

ghost use Rattle.std.specs.Prelude.{◌≡◌, ◌≤◌, ◌⊎◌, codes};
ghost use Rattle.std.specs.Io.KnownBytes.{Appends};
ghost use Rattle.bk_io.specs.Faults.{Rose};
ghost use Rattle.bk_top.specs.Answer.{Tells, IsPlain};

use crate::line::{line, plain_line};
use crate::refusal::{Refusal, status};
use bk_io::{Sink, write_all};
use std::alloc::Global;

/// The status where the error stream takes no line.
const WRITE_FAULT: u8 = 5;

/// Writes a line, and answers the status that goes with it.
fn write_line<E: Sink>(err: &mut E, text: &str, number: u8) -> u8
    ensures told { ((result ≡ number) × Appends (E.written err.old) (E.written err.new) text.now) ⊎ ((result ≡ 5) × Rose (E.faults err.old) (E.faults err.new)) }
    ensures later { E.faults err.old ≤ E.faults err.new }
{
    match write_all(err, text.as_bytes()) {
        Ok(()) => number,
        Err(_) => WRITE_FAULT,
    }
}

/// Tells a refusal on the error stream, and answers its status. Where there is no memory for the line, it tells that.
#[tactic(auto, unfolding(crate::specs::Refusals::line))]
pub fn tell<E: Sink>(alloc: Global, err: &mut E, refusal: &Refusal) -> u8
    ensures told { (Tells refusal.now result (E.written err.old) (E.written err.new) ⊎ Tells Refusal.Memory result (E.written err.old) (E.written err.new)) ⊎ ((result ≡ 5) × Rose (E.faults err.old) (E.faults err.new)) }
    ensures plain { IsPlain refusal.now → Tells refusal.now result (E.written err.old) (E.written err.new) ⊎ ((result ≡ 5) × Rose (E.faults err.old) (E.faults err.new)) }
    ensures later { E.faults err.old ≤ E.faults err.new }
{
    if let Some(line) = plain_line(refusal) {
        return write_line(err, line, status(refusal));
    }
    match line(alloc, refusal) {
        Ok(line) => write_line(err, line.as_str(), status(refusal)),
        Err(_) => write_line(err, "memory\n", status(&Refusal::Memory)),
    }
}
