// Whether the numbers of a block's values are their own.
ghost use Rattle.std.specs.Prelude.{◌≡◌, ◌↔◌, IfOk, IsTrue, Some};
ghost use Rattle.bk_sched.specs.Named.{ArePlaces};
ghost use Rattle.bk_sched.specs.Order.{HasOwnNumbers};

use crate::places::Places;
use bk_func::{Block, Memory, Value};
use std::alloc::{AllocError, Global};

/// Whether each value of the block has a number of its own, which [`schedule`](crate::schedule) asks for.
pub fn has_own_numbers(alloc: Global, block: &Block) -> Result<bool, Memory>
    ensures { IfOk result (λ own. IsTrue own ↔ HasOwnNumbers block.now) }
{
    Ok(own_numbers(alloc, block)?)
}

fn own_numbers(alloc: Global, block: &Block) -> Result<bool, AllocError>
    ensures { IfOk result (λ own. IsTrue own ↔ HasOwnNumbers block.now) }
{
    let places = Places::new(alloc, block)?;
    Ok(are_own(block, &places))
}

/// Whether each value stands at the first place of its number.
fn are_own(block: &Block, places: &Places) -> bool
    requires { ArePlaces block.now.values places.now }
    ensures { IsTrue result ↔ HasOwnNumbers block.now }
{
    let values: &[Value] = &block.values;
    for (place, value) in values.iter().enumerate() {
        let first = places.place(value.id);
        if !is_at(first, place) {
            return false;
        }
    }
    true
}

fn is_at(found: Option<usize>, place: usize) -> bool
    ensures { IsTrue result ↔ (found ≡ Some place) }
{
    found == Some(place)
}
