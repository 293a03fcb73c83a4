// The values of a block in the order in which they are done.
ghost use Rattle.std.specs.Prelude.{◌≡◌, ◌<◌, IfOk, length, map, slice_index};
ghost use Rattle.std.specs.List.{All};
ghost use Rattle.bk_sched.specs.Order.{HasOwnNumbers};
ghost use Rattle.bk_sched.specs.Schedule.{IsSchedule};

use crate::order::order_of;
use crate::score::ranks;
use crate::turns::in_turn;
use bk_func::{Block, Memory, Value};
use std::alloc::{AllocError, Global};

/// The numbers of a block's values in the order in which they are done.
///
/// Phis come first. Then of the values whose order in the block is met the one with the least score is next: words in
/// registers (0), words of arguments in memory (1), nil checks (2), words of results in memory (3), memory values (4), and
/// others (5); of several the first in the list.
pub fn schedule(alloc: Global, block: &Block) -> Result<Vec<u32>, Memory>
    requires { HasOwnNumbers block.now }
    ensures { IfOk result (λ order. IsSchedule block.now order.items) }
{
    Ok(in_order(alloc, block)?)
}

fn in_order(alloc: Global, block: &Block) -> Result<Vec<u32>, AllocError>
    requires { HasOwnNumbers block.now }
    ensures { IfOk result (λ order. IsSchedule block.now order.items) }
{
    let values: &[Value] = &block.values;
    let after = order_of(alloc, block)?;
    let ranks = ranks(alloc, values)?;
    let places = in_turn(alloc, &ranks, &after)?;
    numbers_at(alloc, values, &places)
}

/// The numbers of the values at these places.
fn numbers_at(alloc: Global, values: &[Value], places: &[usize]) -> Result<Vec<u32>, AllocError>
    requires { All (λ p. p < length values.now) places.now }
    ensures { IfOk result (λ numbers. numbers.items ≡ map (λ p. slice_index (map (λ v. v.id) values.now) p) places.now) }
{
    let mut numbers = Vec::with_capacity(alloc, places.len())?;
    for place in places {
        let value = &values[*place];
        numbers.push(value.id)?;
    }
    Ok(numbers)
}
