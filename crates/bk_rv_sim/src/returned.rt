//! Results of a machine that returned.
ghost use Rattle.std.specs.Prelude.{◌≡◌, ◌<◌, ◌≤◌, ◌+◌, length, slice_get, Some};
ghost use Rattle.bk_num.specs.Bytes.{load_in};
ghost use Rattle.bk_rv_sim.specs.Results.{narrowed, result_word, result_of};
ghost use Rattle.bk_rv_sim.specs.View.{view};

use crate::machine::Machine;
use bk_num::{STACK_TOP, load_in, trunc};
use bk_ops::{Target, Ty, width};

const WORD_SIZE: usize = 8;

// The first of the registers of results, and how many there are.
const FIRST_REGISTER: usize = 10;

const IN_REGISTERS: usize = 8;

/// The number in the word of a result, modulo 2 to the width of its type.
///
/// The results are counted from 0; they are the function's once the machine has returned.
pub fn results(machine: &Machine, index: usize) -> u64
    requires { index < length machine.now.sig.results }
    ensures { result_of (view machine.now) machine.now.sig index ≡ Some result }
{
    let ty = machine.sig.results[index];
    let word = if index < IN_REGISTERS {
        machine.regs[FIRST_REGISTER + index]
    } else {
        let place = machine.sig.args.len() + index;
        word_at(machine, STACK_TOP + (WORD_SIZE * place) as u64)
    };
    narrowed(ty, word)
}

// The word at an address above the stack's top.
#[tactic(auto, unfolding(bk_num::specs::Bytes::load_in))]
fn word_at(machine: &Machine, address: u64) -> u64
    requires low { 536870912 ≤ address }
    requires high { address + 8 ≤ machine.now.bottom + length machine.now.stack.items }
    ensures { load_in machine.now.bottom machine.now.stack.items 8 address ≡ Some result }
{
    match load_in(machine.bottom, &machine.stack, WORD_SIZE, address) {
        Some(n) => n,
        None => unreachable!(),
    }
}

// A word modulo 2 to the width of a type.
fn narrowed(ty: Ty, word: u64) -> u64
    ensures { narrowed (Some ty) (Some word) ≡ Some result }
{
    match width(ty, Target::Riscv64) {
        0 => word % 1,
        width => trunc(width, word),
    }
}
