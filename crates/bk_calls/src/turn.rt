// What one value becomes.
ghost use Rattle.std.specs.Prelude.{◌≡◌, ℕ, ◌+◌, ◌++◌, ◌==◌, ◌∷◌, [], pos, IfOk, OnOk, length, drop, nat_lt, slice_index, Some, None, true, false};
ghost use Rattle.bk_func.specs.Numbers.{place_of_arg, is_mem};
ghost use Rattle.bk_calls.specs.Chains.{WordPlan, plain, trap_of, without_trap, front, last, chain, memory_after, handed, turned, turned_by, chained, made_by, called, call_family, copy_of, given, selected, picked, taken, returned, queued_results, register_place, result_key};
ghost use Rattle.bk_calls.specs.Areas.{made_for};
ghost use Rattle.bk_calls.specs.Plans.{seen_plan};

use crate::arguments::place_of_arg;
use crate::callees::trap_of;
use crate::chains::{Link, behind, front, handed, last, plain, push_chain};
use crate::plan::Plan;
use crate::role::{Role, role_of};
use bk_func::{Aux, Value};
use bk_ops::{Family, Ty};
use smallvec::SmallVec;
use std::alloc::{AllocError, Global};

/// Turns a value into what it stands for: words, registers or a chain of words. What is made for it is listed, numbered
/// from `next` on, and the number after these is given.
pub(crate) fn turn(
    alloc: Global,
    plan: &Plan,
    value: &mut Value,
    made: &mut Vec<Value>,
    next: u32,
) -> Result<u32, AllocError>
    ensures value { OnOk result (value.new ≡ turned (seen_plan plan.now) next value.old) }
    ensures made { OnOk result (made.new.items ≡ made.old.items ++ chained (seen_plan plan.now) next value.old) }
    ensures next { IfOk result (λ n. n ≡ next + made_for plan.now.registers value.old) }
{
    match role_of(value.op.family) {
        Role::Argument => {
            turn_argument(alloc, plan, value)?;
            Ok(next)
        }
        Role::Call => turn_call(alloc, plan, value, made, next),
        Role::Selection => {
            turn_selection(alloc, plan, value)?;
            Ok(next)
        }
        Role::Results => turn_results(alloc, plan, value, made, next),
        Role::Other => Ok(next),
    }
}

/// An argument is in a register or in a word of the function's own.
fn turn_argument(alloc: Global, plan: &Plan, value: &mut Value) -> Result<(), AllocError>
    ensures { OnOk result ((n : ℕ) → value.new ≡ turned_by Role.Argument (seen_plan plan.now) n value.old) }
{
    let place = place_of_arg(value.aux);
    if place < plan.registers {
        return turn_to_copy(alloc, value, plan.argument(place));
    }
    turn_to_argument(alloc, value, place);
    Ok(())
}

fn turn_to_copy(alloc: Global, value: &mut Value, of: u32) -> Result<(), AllocError>
    ensures { OnOk result (value.new ≡ copy_of of value.old) }
{
    value.args = SmallVec::from_slice(alloc, &[of])?;
    value.op = plain(Family::Copy);
    value.int = 0;
    value.aux = Aux::Nothing;
    Ok(())
}

fn turn_to_argument(alloc: Global, value: &mut Value, word: u32)
    ensures { value.new ≡ record value.old { op = plain Family.ArgWord; args = []; int = pos word; aux = Aux.Nothing } }
{
    value.op = plain(Family::ArgWord);
    value.args = SmallVec::new(alloc);
    value.int = i64::from(word);
    value.aux = Aux::Nothing;
}

/// A call follows its arguments, or is a trap where the callee panics.
fn turn_call(
    alloc: Global,
    plan: &Plan,
    value: &mut Value,
    made: &mut Vec<Value>,
    next: u32,
) -> Result<u32, AllocError>
    ensures value { OnOk result (value.new ≡ called (trap_of value.old.aux) (seen_plan plan.now) next value.old) }
    ensures made { OnOk result (made.new.items ≡ made.old.items ++ chain Family.OutWord next plan.now.registers (last value.old.args) (without_trap (trap_of value.old.aux) (drop plan.now.registers (front value.old.args)))) }
    ensures next { IfOk result (λ n. n ≡ next + length (without_trap (trap_of value.old.aux) (drop plan.now.registers (front value.old.args)))) }
{
    match trap_of(value.aux) {
        Some(number) => {
            turn_to_trap(alloc, value, number)?;
            Ok(next)
        }
        None => turn_to_call(alloc, plan, value, made, next),
    }
}

fn turn_to_trap(alloc: Global, value: &mut Value, number: u8) -> Result<(), AllocError>
    ensures { OnOk result ((p : WordPlan) (n : ℕ) → value.new ≡ called (Some number) p n value.old) }
{
    let memory = last(value.args.as_slice());
    value.args = SmallVec::from_slice(alloc, &[memory])?;
    value.op = plain(Family::Trap);
    value.ty = Ty::Mem;
    value.int = i64::from(number);
    value.aux = Aux::Nothing;
    Ok(())
}

fn turn_to_call(
    alloc: Global,
    plan: &Plan,
    value: &mut Value,
    made: &mut Vec<Value>,
    next: u32,
) -> Result<u32, AllocError>
    ensures value { OnOk result (value.new ≡ called None (seen_plan plan.now) next value.old) }
    ensures made { OnOk result (made.new.items ≡ made.old.items ++ chain Family.OutWord next plan.now.registers (last value.old.args) (drop plan.now.registers (front value.old.args))) }
    ensures next { IfOk result (λ n. n ≡ next + length (drop plan.now.registers (front value.old.args))) }
{
    let args = value.args.as_slice();
    let first = Link {
        number: next,
        word: plan.registers,
        memory: last(args),
    };
    let numbers = front(args);
    let words = behind(numbers, plan.registers);
    let link = push_chain(alloc, made, Family::OutWord, first, words)?;
    value.args = handed(alloc, numbers, plan.registers, link.memory)?;
    value.op = plain(call_family(plan.registers));
    value.ty = Ty::Mem;
    value.int = 0;
    Ok(link.number)
}

/// The op of a call where so many registers hold arguments.
fn call_family(registers: u32) -> Family
    ensures { result ≡ call_family registers }
{
    if registers == 0 {
        Family::Call
    } else {
        Family::CallRegs
    }
}

/// What a call gave is the memory after it, or one of its results.
fn turn_selection(alloc: Global, plan: &Plan, value: &mut Value) -> Result<(), AllocError>
    ensures { OnOk result (value.new ≡ selected (is_mem value.old.ty) (seen_plan plan.now) value.old) }
{
    if is_memory(value.ty) {
        turn_to_memory(value);
        return Ok(());
    }
    turn_result(alloc, plan, value)
}

fn is_memory(ty: Ty) -> bool
    ensures { result ≡ is_mem ty }
{
    matches!(ty, Ty::Mem)
}

fn turn_to_memory(value: &mut Value)
    ensures { (p : WordPlan) → value.new ≡ selected true p value.old }
{
    value.op = plain(Family::Copy);
    value.int = 0;
}

/// A result is in a register or in a word.
fn turn_result(alloc: Global, plan: &Plan, value: &mut Value) -> Result<(), AllocError>
    ensures { OnOk result (value.new ≡ selected false (seen_plan plan.now) value.old) }
{
    match result_key(plan.registers, value) {
        Some(key) => turn_to_result(alloc, value, plan.first_result(key)),
        None => turn_to_word(plan, value),
    }
}

/// The first value that is a result in a register stands for the register, any other is a copy of it.
fn turn_to_result(alloc: Global, value: &mut Value, first: u32) -> Result<(), AllocError>
    ensures { OnOk result (value.new ≡ picked (first == value.old.id) first value.old) }
{
    if first != value.id {
        return turn_to_copy(alloc, value, first);
    }
    value.op = plain(Family::ResReg);
    Ok(())
}

fn turn_to_word(plan: &Plan, value: &mut Value) -> Result<(), AllocError>
    ensures { OnOk result (value.new ≡ taken None (seen_plan plan.now) value.old) }
{
    let call = first(value.args.as_slice());
    let Some(word) = i64::from(plan.result_word(call)).checked_add(value.int) else {
        return Err(AllocError);
    };
    value.op = plain(Family::ResWord);
    value.int = word;
    Ok(())
}

/// The number of the call and the place of the result that a value is; None where no register holds it, and where the
/// value is no result.
pub(crate) fn result_key(registers: u32, value: &Value) -> Option<(u32, u32)>
    ensures { result ≡ result_key registers value.now }
{
    if role_of(value.op.family) != Role::Selection || is_memory(value.ty) {
        return None;
    }
    let place = register_place(registers, value.int)?;
    Some((first(value.args.as_slice()), place))
}

/// The place of a result that one of so many registers holds.
fn register_place(registers: u32, int: i64) -> Option<u32>
    ensures { result ≡ register_place registers int }
{
    if int >= 0 && int < i64::from(registers) {
        Some(int as u32)
    } else {
        None
    }
}

/// The first number, 0 where there is none.
fn first(numbers: &[u32]) -> u32
    ensures { result ≡ slice_index numbers.now 0 }
{
    match numbers.first() {
        Some(number) => *number,
        None => 0,
    }
}

/// The results of the function go to registers and to words, the first or the last of them by this value.
fn turn_results(
    alloc: Global,
    plan: &Plan,
    value: &mut Value,
    made: &mut Vec<Value>,
    next: u32,
) -> Result<u32, AllocError>
    ensures value { OnOk result (value.new ≡ returned (plan.now.registers == 0) (seen_plan plan.now) next value.old) }
    ensures made { OnOk result (made.new.items ≡ made.old.items ++ chain Family.RetWord next (plan.now.own + plan.now.registers) (last value.old.args) (queued_results (plan.now.registers == 0) plan.now.registers (front value.old.args))) }
    ensures next { IfOk result (λ n. n ≡ next + length (queued_results (plan.now.registers == 0) plan.now.registers (front value.old.args))) }
{
    let memory = last(value.args.as_slice());
    let Some(word) = plan.own.checked_add(plan.registers) else {
        return Err(AllocError);
    };
    let link = Link {
        number: next,
        word,
        memory,
    };
    if plan.registers == 0 {
        turn_to_words(alloc, value, made, link)
    } else {
        turn_to_registers(alloc, plan.registers, value, made, link)
    }
}

/// The results go to words, the last of them by this value.
fn turn_to_words(
    alloc: Global,
    value: &mut Value,
    made: &mut Vec<Value>,
    first: Link,
) -> Result<u32, AllocError>
    ensures value { OnOk result (value.new ≡ record value.old { op = plain Family.RetWord; ty = Ty.Mem; args = last (front value.old.args) ∷ memory_after first.number first.memory (front (front value.old.args)) ∷ []; int = pos (first.word + length (front (front value.old.args))); aux = Aux.Nothing }) }
    ensures made { OnOk result (made.new.items ≡ made.old.items ++ chain Family.RetWord first.number first.word first.memory (front (front value.old.args))) }
    ensures next { IfOk result (λ n. n ≡ first.number + length (front (front value.old.args))) }
{
    let results = front(value.args.as_slice());
    let link = push_chain(alloc, made, Family::RetWord, first, front(results))?;
    value.args = SmallVec::from_slice(alloc, &[last(results), link.memory])?;
    value.op = plain(Family::RetWord);
    value.ty = Ty::Mem;
    value.int = i64::from(link.word);
    value.aux = Aux::Nothing;
    Ok(link.number)
}

/// The first results go to registers by this value, the others to words.
fn turn_to_registers(
    alloc: Global,
    registers: u32,
    value: &mut Value,
    made: &mut Vec<Value>,
    first: Link,
) -> Result<u32, AllocError>
    ensures value { OnOk result (value.new ≡ record value.old { op = plain Family.RetRegs; ty = Ty.Mem; args = handed registers first.number first.memory (front value.old.args); int = pos 0; aux = Aux.Nothing }) }
    ensures made { OnOk result (made.new.items ≡ made.old.items ++ chain Family.RetWord first.number first.word first.memory (drop registers (front value.old.args))) }
    ensures next { IfOk result (λ n. n ≡ first.number + length (drop registers (front value.old.args))) }
{
    let results = front(value.args.as_slice());
    let words = behind(results, registers);
    let link = push_chain(alloc, made, Family::RetWord, first, words)?;
    value.args = handed(alloc, results, registers, link.memory)?;
    value.op = plain(Family::RetRegs);
    value.ty = Ty::Mem;
    value.int = 0;
    value.aux = Aux::Nothing;
    Ok(link.number)
}
