// The distance to one next use.
ghost use Rattle.std.specs.Prelude.{◌≡◌, ℕ, ◌≤◌, Some, IfOk, length, map};
ghost use Rattle.std.specs.List.{slice_get};
ghost use Rattle.bk_func.specs.Records.{BlockRecord};
ghost use Rattle.bk_live.specs.Live.{order_at, IsOrdered, NextUseIs};

use crate::table::Table;
use bk_func::{Func, Memory};
use std::alloc::Global;

/// The least number of scheduled places on a walk to a use of the value, from behind the first `after` entries of the
/// block's order. The place of the use counts, the end of a block counts as one place, and phis do not count. None where
/// no walk leads to a use without passing the value's definition.
pub fn next_use(
    alloc: Global,
    func: &Func,
    orders: &[Vec<u32>],
    block: u32,
    after: usize,
    value: u32,
) -> Result<Option<u64>, Memory>
    ensures { (i : ℕ) (b : BlockRecord) → IsOrdered func.now (map (λ o. o.items) orders.now) → slice_get func.now.blocks i ≡ Some b → b.id ≡ block → after ≤ length (order_at (map (λ o. o.items) orders.now) i) → IfOk result (NextUseIs func.now (map (λ o. o.items) orders.now) value i after) }
{
    let table = Table::new(alloc, func, orders)?;
    Ok(table.next(block, after, value))
}
