// The function in halves.
ghost use Rattle.std.specs.Prelude.{◌≡◌, ◌+◌, ◌++◌, OnOk, IfOk, IfErr, IfSome, ◌⊎◌, false, true, length, sum_by};
ghost use Rattle.bk_callees.specs.Callees.{AreCallees};
ghost use Rattle.bk_dec64.specs.Budget.{is_grown, is_past};
ghost use Rattle.bk_dec64.specs.Decomposed.{changed, decomposed, listed, made_for, made_in, made_of, turned, turned_block, turned_func};
ghost use Rattle.bk_dec64.specs.Named.{seen_plan};

use crate::growth::Growth;
use crate::halves::Home;
use crate::places::place_all;
use crate::tables::Plan;
use crate::turn::turn;
use bk_callees::Callees;
use bk_func::{
    Block, Func, MOST_VALUES_MADE, Memory, Package, RewriteError, Value, greatest_value,
};
use std::alloc::{AllocError, Global};

/// Turns the numbers of 64 bits that a function takes, gives, keeps and passes on into two halves each, for a machine with
/// words of 32 bits. The operations on them are left to rules.
///
/// A half is a `uint32`. A phi, an argument, a load or a result of 64 bits becomes the `Int64Make` of two halves of the same
/// kind, and a store the store of its high half. Where calls and `MakeResult` take a number of 64 bits, they take its
/// `Int64Lo` and its `Int64Hi`. In memory the low half has the lower address. From here on the places of arguments and
/// results count words, of which the low one stands first.
///
/// Each value keeps its number and place. What is made is numbered from the greatest number upwards, value by value: low
/// halves before high ones, each behind what it needs. It stands last in the block of the value, but the halves of a phi's
/// arguments stand last in the predecessors.
///
/// It answers Grown where a value past 32,768 would be added. After a refusal the function is unfinished.
pub fn decompose(alloc: Global, func: &mut Func, pkg: &Package) -> Result<(), RewriteError>
    ensures ok { OnOk result (func.new ≡ decomposed pkg.now func.old) }
    ensures room { OnOk result (is_grown pkg.now func.old ≡ false) }
    ensures grown { IfErr result (λ e. (e ≡ RewriteError.Memory) ⊎ ((e ≡ RewriteError.Grown 32769) × (is_grown pkg.now func.old ≡ true))) }
{
    match Callees::new(alloc, pkg) {
        Ok(callees) => decompose_by(alloc, func, pkg, &callees),
        Err(Memory) => Err(RewriteError::Memory),
    }
}

/// The same by the callees of the package, which serve any count of functions.
pub fn decompose_by(
    alloc: Global,
    func: &mut Func,
    pkg: &Package,
    callees: &Callees,
) -> Result<(), RewriteError>
    requires { AreCallees pkg.now callees.now }
    ensures ok { OnOk result (func.new ≡ decomposed pkg.now func.old) }
    ensures room { OnOk result (is_grown pkg.now func.old ≡ false) }
    ensures grown { IfErr result (λ e. (e ≡ RewriteError.Memory) ⊎ ((e ≡ RewriteError.Grown 32769) × (is_grown pkg.now func.old ≡ true))) }
{
    let Some(count) = count_values(&func.blocks) else {
        return Err(RewriteError::Memory);
    };
    let Ok(growth) = taken_apart(alloc, func, pkg, callees) else {
        return Err(RewriteError::Memory);
    };
    if is_past(count, growth.made.len() as u64) {
        return Err(RewriteError::Grown {
            values: MOST_VALUES_MADE as u64 + 1,
        });
    }
    match place_all(alloc, &mut func.blocks, growth.made) {
        Ok(()) => Ok(()),
        Err(AllocError) => Err(RewriteError::Memory),
    }
}

/// The count of the values; None where no machine word holds it.
fn count_values(blocks: &[Block]) -> Option<u64>
    ensures { IfSome result (λ n. n ≡ sum_by (λ b. length b.values) blocks.now) }
{
    let mut count = 0u64;
    for block in blocks {
        count = count.checked_add(block.values.len() as u64)?;
    }
    Some(count)
}

/// Whether, with so many values more, one of them is past the limit.
fn is_past(count: u64, more: u64) -> bool
    ensures { result ≡ is_past count more }
{
    let most = MOST_VALUES_MADE as u64;
    more > 0 && (more > most || count > most - more)
}

/// Turns the values of a function, and lists what is made for them.
fn taken_apart(
    alloc: Global,
    func: &mut Func,
    pkg: &Package,
    callees: &Callees,
) -> Result<Growth, AllocError>
    requires { AreCallees pkg.now callees.now }
    ensures func { OnOk result (func.new ≡ turned_func pkg.now func.old) }
    ensures made { IfOk result (λ growth. growth.made.items ≡ made_of pkg.now func.old) }
{
    let plan = Plan::new(alloc, func, pkg, callees)?;
    let Some(next) = greatest_value(func).checked_add(1) else {
        return Err(AllocError);
    };
    let mut growth = Growth {
        next,
        made: Vec::new(alloc),
    };
    turn_blocks(alloc, &plan, &mut func.blocks, &mut growth)?;
    Ok(growth)
}

fn turn_blocks(
    alloc: Global,
    plan: &Plan,
    blocks: &mut [Block],
    growth: &mut Growth,
) -> Result<(), AllocError>
    ensures blocks { OnOk result (blocks.new ≡ changed (made_in (seen_plan plan.now)) (turned_block (seen_plan plan.now)) growth.old.next blocks.old) }
    ensures made { OnOk result (growth.new.made.items ≡ growth.old.made.items ++ listed (made_in (seen_plan plan.now)) growth.old.next blocks.old) }
{
    for block in blocks.iter_mut() {
        turn_block(alloc, plan, block, growth)?;
    }
    Ok(())
}

fn turn_block(
    alloc: Global,
    plan: &Plan,
    block: &mut Block,
    growth: &mut Growth,
) -> Result<(), AllocError>
    ensures block { OnOk result (block.new ≡ turned_block (seen_plan plan.now) growth.old.next block.old) }
    ensures made { OnOk result (growth.new.made.items ≡ growth.old.made.items ++ made_in (seen_plan plan.now) growth.old.next block.old) }
    ensures next { OnOk result (growth.new.next ≡ growth.old.next + length (made_in (seen_plan plan.now) growth.old.next block.old)) }
{
    let home = Home {
        block: block.id,
        preds: &block.preds,
    };
    turn_values(alloc, plan, &home, &mut block.values, growth)
}

fn turn_values(
    alloc: Global,
    plan: &Plan,
    home: &Home,
    values: &mut [Value],
    growth: &mut Growth,
) -> Result<(), AllocError>
    ensures values { OnOk result (values.new ≡ changed (made_for (seen_plan plan.now) home.now.block home.now.preds.now) (turned (seen_plan plan.now) home.now.preds.now) growth.old.next values.old) }
    ensures made { OnOk result (growth.new.made.items ≡ growth.old.made.items ++ listed (made_for (seen_plan plan.now) home.now.block home.now.preds.now) growth.old.next values.old) }
    ensures next { OnOk result (growth.new.next ≡ growth.old.next + length (listed (made_for (seen_plan plan.now) home.now.block home.now.preds.now) growth.old.next values.old)) }
{
    for value in values.iter_mut() {
        turn(alloc, plan, home, value, growth)?;
    }
    Ok(())
}
