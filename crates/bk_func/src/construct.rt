// The values of a function that a target has no code for.
ghost use Rattle.std.specs.Prelude.{◌≡◌, fold, None};
ghost use Rattle.bk_func.specs.Construct.{sooner, first_construct};

use crate::{Block, Func, Value};
use bk_ops::{Target, is_refused};

/// The least number of a value that the target has no code for, None where it has code for each.
pub fn first_construct(func: &Func, target: Target) -> Option<u32>
    ensures { result ≡ first_construct func.now target }
{
    least_in_blocks(&func.blocks, target)
}

fn least_in_blocks(blocks: &[Block], target: Target) -> Option<u32>
    ensures { result ≡ fold (λ g b. fold (sooner target) g b.values) None blocks.now }
{
    blocks.iter().fold(None, |least, block| least_in(&block.values, target, least))
}

fn least_in(values: &[Value], target: Target, least: Option<u32>) -> Option<u32>
    ensures { result ≡ fold (sooner target) least values.now }
{
    values
        .iter()
        .fold(least, |least, value| sooner(least, value, target))
}

/// The lesser of a number and that of the value, if the value is refused.
fn sooner(least: Option<u32>, value: &Value, target: Target) -> Option<u32>
    ensures { result ≡ sooner target least value.now }
{
    if !is_refused(value.op, value.int, target) {
        return least;
    }
    match least {
        Some(least) => Some(least.min(value.id)),
        None => Some(value.id),
    }
}
