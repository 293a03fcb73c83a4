// Whether the numbers of a function's values are such that it can be rewritten.
ghost use Rattle.std.specs.Prelude.{◌≡◌, ◌++◌, ◌<◌, ◌≤◌, ◌∷◌, [], map, IfOk, IsTrue, OnOk};
ghost use Rattle.std.specs.List.{flat_map};
ghost use Rattle.std.specs.List.Sorted.{IsStrictlyIncreasing};
ghost use Rattle.bk_func.specs.Edits.{greatest_value};
ghost use Rattle.bk_rewrite.specs.Places.{HasNumbers, HasRoom};

use bk_func::{Block, Func, MOST_VALUES_MADE, Value, greatest_value};
use std::alloc::{AllocError, Global};

/// The greatest number from which on a rewriting can number as many values as it may make.
const LAST_NUMBER: u32 = u32::MAX - MOST_VALUES_MADE as u32;

/// Whether as many values as a rewriting may make can be numbered.
pub(crate) fn has_room(func: &Func) -> bool
    ensures { IsTrue result → HasRoom func.now }
{
    greatest_value(func) <= LAST_NUMBER
}

/// Whether no two values of the function have one number.
pub(crate) fn has_numbers(alloc: Global, func: &Func) -> Result<bool, AllocError>
    ensures { IfOk result (λ own. IsTrue own → HasNumbers func.now) }
{
    let mut numbers = numbers_of(alloc, &func.blocks)?;
    numbers.sort_unstable();
    Ok(rise(&numbers))
}

/// The numbers of the values, block by block.
fn numbers_of(alloc: Global, blocks: &[Block]) -> Result<Vec<u32>, AllocError>
    ensures { IfOk result (λ numbers. numbers.items ≡ map (λ v. v.id) (flat_map (λ b. b.values) blocks.now)) }
{
    let mut numbers = Vec::new(alloc);
    for block in blocks {
        push_numbers(&mut numbers, &block.values)?;
    }
    Ok(numbers)
}

fn push_numbers(numbers: &mut Vec<u32>, values: &[Value]) -> Result<(), AllocError>
    ensures { OnOk result (numbers.new.items ≡ numbers.old.items ++ map (λ v. v.id) values.now) }
{
    for value in values {
        numbers.push(value.id)?;
    }
    Ok(())
}

/// Whether each number is below the next.
fn rise(numbers: &[u32]) -> bool
    ensures { IsTrue result → IsStrictlyIncreasing numbers.now }
{
    for place in 1..numbers.len() {
        if numbers[place - 1] >= numbers[place] {
            return false;
        }
    }
    true
}
