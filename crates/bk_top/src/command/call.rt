//! Calls of functions by their names.

ghost use Rattle.std.specs.Prelude.{◌≡◌, map, string_bytes, IfSome, IfNone};
ghost use Rattle.bk_top.specs.Commands.{CallRecord, seen_call, call_words, IsCall};

use crate::command::number::{are_arguments, number_of};

/// A function by its name, a bound on its run, and the words of its arguments.
#[derive(Clone, Copy)]
pub struct Call<'a> {
    pub name: &'a String,
    pub bound: u64,
    pub args: &'a [String],
}

/// The call that words name.
pub fn call_of(words: &[String]) -> Option<Call<'_>>
    ensures found { IfSome result (λ call. (map string_bytes words.now ≡ call_words (seen_call call)) × IsCall (seen_call call)) }
    ensures none { IfNone result ((call : CallRecord) → map string_bytes words.now ≡ call_words call → IsCall call → ⊥) }
{
    match words {
        [name, bound, args @ ..] => {
            let bound = number_of(bound)?;
            if are_arguments(args) {
                Some(Call { name, bound, args })
            } else {
                None
            }
        }
        _ => None,
    }
}
