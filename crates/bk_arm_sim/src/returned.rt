//! Results of a machine that returned.
ghost use Rattle.std.specs.Prelude.{◌≡◌, ◌<◌, ◌≤◌, ◌+◌, ◌*◌, ◌^◌, length, slice_index_or, Some, if◌then◌else◌};
ghost use Rattle.bk_ops.specs.declared.types.Target.TheVariants.{Arm};
ghost use Rattle.bk_func.specs.Words.{is_double};
ghost use Rattle.bk_arm_sim.specs.Signature.{words_of_sig};
ghost use Rattle.bk_arm_sim.specs.Results.{number_of, result_of, result_place};
ghost use Rattle.bk_arm_sim.specs.View.{view};

use crate::machine::Machine;
use crate::signature::WORD_SIZE;
use bk_func::{Sig, count_words, words_of_type};
use bk_num::{STACK_TOP, load_in, trunc};
use bk_ops::{Target, Ty, width};

/// The number in the words of a result, modulo 2 to the width of its type.
///
/// The results are counted from 0; they are the function's once the machine has returned.
pub fn results(machine: &Machine, index: usize) -> u64
    requires { index < length machine.now.sig.results }
    ensures { result_of (view machine.now) machine.now.sig index ≡ Some result }
{
    let ty = machine.sig.results[index];
    number_at(machine, ty, result_place(&machine.sig, index))
}

// The address of the first word of a result.
fn result_place(sig: &Sig, index: usize) -> u64
    requires within { index < length sig.now.results }
    requires few { words_of_sig sig.now < 2 ^ 61 }
    ensures value { result ≡ result_place sig.now index }
    ensures room { result + (if is_double Arm (slice_index_or sig.now.results index Ty.Bool) then 8 else 4) ≤ 536870912 + 4 * words_of_sig sig.now }
{
    let before = count_words(Target::Arm, &sig.args)
        + count_words(Target::Arm, &sig.results[..index]);
    STACK_TOP + WORD_SIZE * before
}

// The number in the words at an address above the stack's top.
#[tactic(auto, unfolding(bk_num::specs::Bytes::load_in))]
fn number_at(machine: &Machine, ty: Ty, address: u64) -> u64
    requires low { 536870912 ≤ address }
    requires high { address + (if is_double Arm ty then 8 else 4) ≤ machine.now.bottom + length machine.now.stack.items }
    ensures { number_of (view machine.now) address (Some ty) ≡ Some result }
{
    let size = WORD_SIZE * words_of_type(Target::Arm, ty);
    let width = width(ty, Target::Arm);
    match load_in(machine.bottom, &machine.stack, size as usize, address) {
        Some(n) if width == 0 => n % 1,
        Some(n) => trunc(width, n),
        None => unreachable!(),
    }
}
