// How many values a function may have.
ghost use Rattle.std.specs.Prelude.{◌≡◌, fold, length, sum_by, Some, IfSome};
ghost use Rattle.bk_func.specs.Words.{register_words};
ghost use Rattle.bk_calls.specs.Budget.{counted, count_next, grown_by, is_grown};
ghost use Rattle.bk_calls.specs.Arguments.{arguments_of};
ghost use Rattle.bk_calls.specs.Areas.{made_for};

use crate::callees::trap_of;
use crate::plan::{is_end, register_count};
use crate::role::{Role, role_of};
use bk_func::{Block, Func, MOST_VALUES_MADE, Value};
use bk_ops::Target;

/// Whether a value past the limit would be added, where these stand for the arguments in registers; None where no
/// machine word holds the count of values.
pub(crate) fn is_grown(func: &Func, target: Target, arguments: &[Value]) -> Option<bool>
    requires { arguments.now ≡ arguments_of target func.now }
    ensures { IfSome result (λ grown. grown ≡ is_grown target func.now) }
{
    let count = count_values(&func.blocks)?;
    Some(count_after(&func.blocks, target, count, arguments.len() as u64).is_none())
}

/// The count of the values; None where no machine word holds it.
fn count_values(blocks: &[Block]) -> Option<u64>
    ensures { IfSome result (λ n. n ≡ sum_by (λ b. length b.values) blocks.now) }
{
    let mut count = 0u64;
    for block in blocks {
        count = count.checked_add(block.values.len() as u64)?;
    }
    Some(count)
}

/// The count of values after so many arguments in registers and the turns of all values; None where a value past the
/// limit would be added.
fn count_after(blocks: &[Block], target: Target, count: u64, arguments: u64) -> Option<u64>
    ensures { result ≡ fold (λ o b. fold (count_next (register_words target)) o b.values) (grown_by arguments count) blocks.now }
{
    let registers = register_count(target);
    blocks
        .iter()
        .fold(grown_by(arguments, count), |count, block| {
            count_in(&block.values, registers, count)
        })
}

fn count_in(values: &[Value], registers: u32, count: Option<u64>) -> Option<u64>
    ensures { result ≡ fold (count_next registers) count values.now }
{
    values
        .iter()
        .fold(count, |count, value| count_next(count, registers, value))
}

fn count_next(count: Option<u64>, registers: u32, value: &Value) -> Option<u64>
    ensures { result ≡ count_next registers count value.now }
{
    match count {
        Some(count) => counted(value, registers, count),
        None => None,
    }
}

/// The count after one value's turn.
fn counted(value: &Value, registers: u32, count: u64) -> Option<u64>
    ensures { result ≡ counted registers value.now count }
{
    if is_end(value) {
        return Some(count.saturating_sub(1));
    }
    grown_by(made_for(value, registers), count)
}

/// The count after so many values more.
fn grown_by(more: u64, count: u64) -> Option<u64>
    ensures { result ≡ grown_by more count }
{
    let most = MOST_VALUES_MADE as u64;
    if more == 0 {
        return Some(count);
    }
    if more > most || count > most - more {
        return None;
    }
    Some(count + more)
}

/// How many values are made for a value.
fn made_for(value: &Value, registers: u32) -> u64
    ensures { result ≡ made_for registers value.now }
{
    let args = value.args.len() as u64;
    let held = u64::from(registers);
    match role_of(value.op.family) {
        Role::Call => match trap_of(value.aux) {
            Some(_) => 0,
            None => args.saturating_sub(1).saturating_sub(held),
        },
        Role::Results => args.saturating_sub(1).saturating_sub(held.max(1)),
        _ => 0,
    }
}
