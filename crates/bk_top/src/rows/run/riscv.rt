//! A call on the RISC-V machine.

ghost use Rattle.std.specs.Prelude.{◌≡◌, ◌≤◌, length, true, false, string_bytes, IfOk, IsSomeAnd};
ghost use Rattle.bk_ops.specs.declared.types.Target.TheVariants.{Riscv64};
ghost use Rattle.bk_func.specs.Arguments.{fit};
ghost use Rattle.bk_elf.specs.Object.{IsObject};
ghost use Rattle.bk_elf.specs.Functions.{has_function, function_of};
ghost use Rattle.bk_rv_sim.specs.Results.{result_of};
ghost use Rattle.bk_rv_sim.specs.Started.{IsStarted};
ghost use Rattle.bk_rv_sim.specs.View.{view};
ghost use Rattle.bk_top.specs.Outcomes.{seen_outcome, first_numbers};
ghost use Rattle.bk_top.specs.Running.{riscv_outcome, riscv_line};

use crate::rows::outcome::{Outcome, outcome_line};
use bk_elf::{Image, Memory};
use bk_ops::Target;
use bk_rv_sim::{Machine, StartError, Stop, results, run, start};
use std::alloc::{AllocError, Global};

/// The numbers in the words of the results.
#[tactic(auto, unfolding(crate::specs::Outcomes::first_numbers))]
fn numbers_of(alloc: Global, machine: &Machine) -> Result<Vec<u64>, AllocError>
    ensures { IfOk result (λ ns. ns.items ≡ first_numbers (result_of (view machine.now) machine.now.sig) (length machine.now.sig.results)) }
{
    let mut numbers = Vec::new(alloc);
    for index in 0..machine.sig.results.len() {
        numbers.push(results(machine, index))?;
    }
    Ok(numbers)
}

/// How a machine ended that stopped so.
fn outcome_of(alloc: Global, machine: &Machine, stop: Stop) -> Result<Outcome, AllocError>
    ensures { IfOk result (λ o. seen_outcome o ≡ riscv_outcome machine.now.sig (view machine.now) stop) }
{
    match stop {
        Stop::Returned => Ok(Outcome::Returned(numbers_of(alloc, machine)?)),
        Stop::Trapped(number) => Ok(Outcome::Trapped(number)),
        Stop::Going => Ok(Outcome::Going),
        Stop::Fault(address) => Ok(Outcome::Fault(address)),
    }
}

/// The machine at the start of a function that is there, with arguments that fit it.
fn started(
    alloc: Global,
    image: &Image,
    name: &str,
    args: &[u64],
    stack: u64,
) -> Result<Machine, Memory>
    requires image { IsObject image.now }
    requires there { has_function image.now name.now ≡ false → ⊥ }
    requires fit { IsSomeAnd (function_of image.now name.now) (λ f. fit Riscv64 f.1.args args.now ≡ true) }
    requires stack { stack ≤ 1048576 }
    ensures { IfOk result (λ m. IsSomeAnd (function_of image.now name.now) (λ f. IsStarted image.now f.0 f.1 args.now image.now.window stack m)) }
{
    match start(alloc, image, name, args, &image.window, stack) {
        Ok(machine) => Ok(machine),
        Err(StartError::Memory) => Err(Memory),
        Err(StartError::NoFunction | StartError::BadArgs) => unreachable!(),
    }
}

/// The line of a call of a function that is there, with arguments that fit it.
pub fn line(
    alloc: Global,
    image: &Image,
    name: &str,
    args: &[u64],
    bound: u64,
    stack: u64,
) -> Result<String, Memory>
    requires image { IsObject image.now }
    requires there { has_function image.now name.now ≡ false → ⊥ }
    requires fit { IsSomeAnd (function_of image.now name.now) (λ f. fit Riscv64 f.1.args args.now ≡ true) }
    requires stack { stack ≤ 1048576 }
    ensures { IfOk result (λ line. IsSomeAnd (function_of image.now name.now) (λ f. string_bytes line ≡ riscv_line image.now f.0 f.1 args.now bound stack)) }
{
    let mut machine = started(alloc, image, name, args, stack)?;
    let stop = run(&mut machine, bound);
    let outcome = outcome_of(alloc, &machine, stop)?;
    let types = machine.sig.results.as_slice();
    Ok(outcome_line(alloc, Target::Riscv64, types, &outcome, &machine.window)?)
}
