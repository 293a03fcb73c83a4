//! The top call.

ghost use Rattle.std.specs.Prelude.{◌≡◌, ◌≢◌, ◌≤◌, ◌⊎◌, map, string_bytes};
ghost use Rattle.bk_io.specs.Faults.{Rose};
ghost use Rattle.bk_top.specs.Commands.{CommandRecord, Asks};
ghost use Rattle.bk_top.specs.Answer.{ReadsInput, ReadsExtra, Gains, GainsFront, Refused, stream};

use crate::answer::answer;
use crate::command::command_of;
use crate::refusal::Refusal;
use crate::tell::tell;
use bk_io::{Gate, Sink, Source, write_all};
use std::alloc::Global;
use std::thread::Threads;

/// Runs the command that the words name: the bytes that it makes go to `out`, a refusal's line to `err`.
///
/// The rows of words are `compile TARGET WORKERS` and `compile TARGET WORKERS RULES`, `check TARGET`, `gen N`, `run NAME BOUND
/// ARG..`, `eval TARGET NAME BOUND ARG..`, `rules` and `load N TARGET WORKERS`. `extra` holds the text of the extra rules, and is
/// read where the words have RULES; `rt` makes the threads of WORKERS, and `gate` is told of each of their claims. The status
/// is 0, or that of the refusal: 1 where functions are refused, 2 where the words are in no row, 3 where the text is refused, 4 after a failed
/// read, 5 after a failed write, 6 without memory, 7 where the extra rules are refused, 8 where the input is no object, 9
/// where the code is too long, 10 where there is no such function or the arguments do not fit.
#[allow(clippy::too_many_arguments)]
pub fn backend<R: Threads + Sync, S: Source, X: Source, K: Sink, E: Sink, G: Gate + Sync>(
    rt: &R,
    alloc: Global,
    words: &[String],
    input: &mut S,
    extra: &mut X,
    out: &mut K,
    err: &mut E,
    gate: &G,
) -> u8
    ensures known { result ≤ 10 }

    // What the program gives.
    ensures made { result ≡ 0 → Gains (map string_bytes words.now) (S.left input.old) (X.left extra.old) (K.written out.old) (K.written out.new) }

    // When each status comes.
    ensures refused { result ≢ 0 → result ≢ 5 → Refused (map string_bytes words.now) (stream (S.left input.old) (S.faults input.old) (S.faults input.new)) (stream (X.left extra.old) (X.faults extra.old) (X.faults extra.new)) result (E.written err.old) (E.written err.new) }
    ensures words { result ≡ 2 → (command : CommandRecord) → Asks (map string_bytes words.now) command → ⊥ }
    ensures only_words { ((command : CommandRecord) → Asks (map string_bytes words.now) command → ⊥) → (result ≡ 2) ⊎ ((result ≡ 5) × Rose (E.faults err.old) (E.faults err.new)) }
    ensures read_fault { result ≡ 4 → Rose (S.faults input.old) (S.faults input.new) ⊎ Rose (X.faults extra.old) (X.faults extra.new) }
    ensures write_fault { result ≡ 5 → Rose (K.faults out.old) (K.faults out.new) ⊎ Rose (E.faults err.old) (E.faults err.new) }

    // What stands on the streams after it.
    ensures unread { ((command : CommandRecord) → Asks (map string_bytes words.now) command → ReadsInput command → ⊥) → input.new ≡ input.old }
    ensures no_extra { ((command : CommandRecord) → Asks (map string_bytes words.now) command → ReadsExtra command → ⊥) → extra.new ≡ extra.old }
    ensures nothing { result ≢ 0 → result ≢ 5 → out.new ≡ out.old }
    ensures front { result ≡ 5 → (out.new ≡ out.old) ⊎ GainsFront (map string_bytes words.now) (S.left input.old) (X.left extra.old) (K.written out.old) (K.written out.new) }
    ensures silent { result ≡ 0 → err.new ≡ err.old }
{
    let Some(command) = command_of(words) else {
        return tell(alloc, err, &Refusal::Words);
    };
    match answer(rt, alloc, command, input, extra, gate) {
        Err(refusal) => tell(alloc, err, &refusal),
        Ok(bytes) => match write_all(out, &bytes) {
            Ok(()) => 0,
            Err(_) => tell(alloc, err, &Refusal::WriteFault),
        },
    }
}
