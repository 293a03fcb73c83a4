// The function in words.
ghost use Rattle.std.specs.Prelude.{◌≡◌, ◌+◌, ◌++◌, ℕ, filter, flat_map, sum_by, true, false, IfOk, OnOk, IfErr, ◌⊎◌};
ghost use Rattle.std.specs.BTreeMap.{get};
ghost use Rattle.std.specs.Ordering.{nat_cmp};
ghost use Rattle.bk_callees.specs.Callees.{AreCallees};
ghost use Rattle.bk_calls.specs.Areas.{areas_of, area_block, area_control, area_values, made_for, made_in, numbered, stays};
ghost use Rattle.bk_calls.specs.Arguments.{arguments_of, argument_number, first_made};
ghost use Rattle.bk_calls.specs.Budget.{is_grown};
ghost use Rattle.bk_calls.specs.Chains.{turned, chained};
ghost use Rattle.bk_calls.specs.Plans.{seen_plan};

use crate::arguments::{Arguments, add_to_entry};
use crate::budget::is_grown;
use crate::plan::{Plan, is_end};
use crate::turn::turn;
use bk_callees::Callees;
use bk_func::{Block, Func, MOST_VALUES_MADE, Memory, Package, RewriteError, Value};
use bk_ops::Target;
use std::alloc::{AllocError, Global};

/// Puts the arguments and results of a function, and of the calls in it, into words. On riscv64 registers hold the first
/// eight words of arguments and of results; on arm all are in memory.
///
/// For each argument that a register holds and an `Arg` names, in rising order, an `ARGREG` is added last in the entry,
/// and such an `Arg` becomes a copy of it. Any other `Arg` becomes `ARGWORD`, a call a chain of `OUTWORD` and `CALL` or
/// `CALLREGS`, `SelectN` `RESWORD`, `RESREG` or a copy, of memory or of the `RESREG` of the same result, and `MakeResult`
/// a chain of `RETWORD`, and of `RETREGS` on riscv64; a call of a function that panics becomes `TRAP`. The word of an
/// argument or a result is its place; on arm these places count words.
///
/// Each value keeps its number and place. What is made is numbered from the greatest number upwards: the `ARGREG`s, then
/// value by value what is made for it, which stands last in the block. A `MakeResult` without results goes, and its memory
/// is the control in its place.
///
/// It answers Grown where a value past 32,768 would be added, and leaves the function as before. After want of memory
/// the function is unfinished.
pub fn word_areas(
    alloc: Global,
    func: &mut Func,
    pkg: &Package,
    target: Target,
) -> Result<(), RewriteError>
    ensures ok { OnOk result (func.new ≡ areas_of pkg.now target func.old) }
    ensures room { OnOk result (is_grown target func.old ≡ false) }
    ensures grown { IfErr result (λ e. (e ≡ RewriteError.Memory) ⊎ ((e ≡ RewriteError.Grown 32769) × (is_grown target func.old ≡ true))) }
    ensures kept { IfErr result (λ e. e ≡ RewriteError.Grown 32769 → func.new ≡ func.old) }
{
    match Callees::new(alloc, pkg) {
        Ok(callees) => word_areas_by(alloc, func, pkg, &callees, target),
        Err(Memory) => Err(RewriteError::Memory),
    }
}

/// The same by the callees of the package, which serve any count of functions.
pub fn word_areas_by(
    alloc: Global,
    func: &mut Func,
    pkg: &Package,
    callees: &Callees,
    target: Target,
) -> Result<(), RewriteError>
    requires { AreCallees pkg.now callees.now }
    ensures ok { OnOk result (func.new ≡ areas_of pkg.now target func.old) }
    ensures room { OnOk result (is_grown target func.old ≡ false) }
    ensures grown { IfErr result (λ e. (e ≡ RewriteError.Memory) ⊎ ((e ≡ RewriteError.Grown 32769) × (is_grown target func.old ≡ true))) }
    ensures kept { IfErr result (λ e. e ≡ RewriteError.Grown 32769 → func.new ≡ func.old) }
{
    let Ok(arguments) = Arguments::of(alloc, func, target) else {
        return Err(RewriteError::Memory);
    };
    match is_grown(func, target, &arguments.values) {
        None => Err(RewriteError::Memory),
        Some(true) => Err(RewriteError::Grown {
            values: MOST_VALUES_MADE as u64 + 1,
        }),
        Some(false) => match put_in_words(alloc, func, pkg, callees, target, arguments) {
            Ok(()) => Ok(()),
            Err(AllocError) => Err(RewriteError::Memory),
        },
    }
}

fn put_in_words(
    alloc: Global,
    func: &mut Func,
    pkg: &Package,
    callees: &Callees,
    target: Target,
    arguments: Arguments,
) -> Result<(), AllocError>
    requires callees { AreCallees pkg.now callees.now }
    requires values { arguments.values.items ≡ arguments_of target func.old }
    requires numbers { (i : ℕ) → get nat_cmp arguments.numbers i ≡ argument_number (arguments_of target func.old) i }
    requires next { arguments.next ≡ first_made target func.old }
    ensures { OnOk result (func.new ≡ areas_of pkg.now target func.old) }
{
    let Arguments {
        values,
        numbers,
        next,
    } = arguments;
    let plan = Plan::new(alloc, func, pkg, callees, target, numbers)?;
    add_to_entry(&mut func.blocks, values)?;
    turn_blocks(alloc, &plan, &mut func.blocks, next)
}

fn turn_blocks(
    alloc: Global,
    plan: &Plan,
    blocks: &mut [Block],
    first: u32,
) -> Result<(), AllocError>
    ensures { OnOk result (blocks.new ≡ numbered (area_block (seen_plan plan.now)) (made_in plan.now.registers) first blocks.old) }
{
    let mut next = first;
    for block in blocks.iter_mut() {
        next = turn_block(alloc, plan, block, next)?;
    }
    Ok(())
}

/// Turns the values of a block, and gives the number after those that are made.
fn turn_block(alloc: Global, plan: &Plan, block: &mut Block, first: u32) -> Result<u32, AllocError>
    ensures block { OnOk result (block.new ≡ area_block (seen_plan plan.now) first block.old) }
    ensures next { IfOk result (λ n. n ≡ first + made_in plan.now.registers block.old) }
{
    block.control = turn_control(plan, block.control);
    keep_values(&mut block.values);
    turn_and_append(alloc, plan, &mut block.values, first)
}

/// The control, or the memory behind it where it ends a function without results.
fn turn_control(plan: &Plan, control: Option<u32>) -> Option<u32>
    ensures { result ≡ area_control (seen_plan plan.now) control }
{
    match control {
        Some(control) => Some(plan.control(control)),
        None => None,
    }
}

/// Drops the values that end a function without results.
fn keep_values(values: &mut Vec<Value>)
    ensures { values.new.items ≡ filter stays values.old.items }
{
    values.retain(|value| !is_end(value));
}

fn turn_and_append(
    alloc: Global,
    plan: &Plan,
    values: &mut Vec<Value>,
    first: u32,
) -> Result<u32, AllocError>
    ensures values { OnOk result (values.new.items ≡ area_values (seen_plan plan.now) first values.old.items) }
    ensures next { IfOk result (λ n. n ≡ first + sum_by (made_for plan.now.registers) values.old.items) }
{
    let mut made = Vec::new(alloc);
    let next = turn_values(alloc, plan, values, &mut made, first)?;
    values.append(&mut made)?;
    Ok(next)
}

/// Turns the values one after the other, and lists what is made for them.
fn turn_values(
    alloc: Global,
    plan: &Plan,
    values: &mut [Value],
    made: &mut Vec<Value>,
    first: u32,
) -> Result<u32, AllocError>
    ensures values { OnOk result (values.new ≡ numbered (turned (seen_plan plan.now)) (made_for plan.now.registers) first values.old) }
    ensures made { OnOk result (made.new.items ≡ made.old.items ++ flat_map (λ ws. ws) (numbered (chained (seen_plan plan.now)) (made_for plan.now.registers) first values.old)) }
    ensures next { IfOk result (λ n. n ≡ first + sum_by (made_for plan.now.registers) values.old) }
{
    let mut next = first;
    for value in values.iter_mut() {
        next = turn(alloc, plan, value, made, next)?;
    }
    Ok(next)
}
