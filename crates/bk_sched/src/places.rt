// The places of numbers in a block.
ghost use Rattle.std.specs.Prelude.{◌≡◌, ℕ, IfOk, OnOk, map};
ghost use Rattle.std.specs.Ordering.{nat_cmp};
ghost use Rattle.std.specs.BTreeMap.{get};
ghost use Rattle.bk_places.specs.Named.{place_in};
ghost use Rattle.bk_sched.specs.Named.{AreKnown, ArePlaces, pushed};

use bk_func::{Block, Value};
use bk_places::{first_places, memory_argument};
use std::alloc::{AllocError, Global};
use std::collections::BTreeMap;

/// The numbers of a block's values in order, behind them those by which values name memory, and the first place of each.
#[derive(Drop)]
pub(crate) struct Places {
    pub(crate) numbers: Vec<usize>,
    pub(crate) by_number: BTreeMap<usize, usize>,
}

impl Places {
    pub(crate) fn new(alloc: Global, block: &Block) -> Result<Places, AllocError>
        ensures { IfOk result (ArePlaces block.now.values) }
    {
        let numbers = numbers(alloc, block)?;
        let by_number = first_places(alloc, &numbers)?;
        Ok(Places { numbers, by_number })
    }

    /// The place of a number.
    pub(crate) fn place(&self, id: u32) -> Option<usize>
        requires { (n : ℕ) → get nat_cmp self.now.by_number n ≡ place_in self.now.numbers.items n }
        ensures { result ≡ place_in self.now.numbers.items id }
    {
        self.by_number.get(&(id as usize)).copied()
    }
}

fn numbers(alloc: Global, block: &Block) -> Result<Vec<usize>, AllocError>
    ensures { IfOk result (λ numbers. AreKnown block.now.values numbers.items) }
{
    let mut numbers = ids(alloc, &block.values)?;
    for value in &block.values {
        let named = memory_argument(value);
        push_number(&mut numbers, named)?;
    }
    Ok(numbers)
}

fn ids(alloc: Global, values: &[Value]) -> Result<Vec<usize>, AllocError>
    ensures { IfOk result (λ ids. ids.items ≡ map (λ v. v.id) values.now) }
{
    let mut ids = Vec::with_capacity(alloc, values.len())?;
    for value in values {
        ids.push(value.id as usize)?;
    }
    Ok(ids)
}

/// Adds the number, if there is one.
fn push_number(numbers: &mut Vec<usize>, number: Option<u32>) -> Result<(), AllocError>
    ensures { OnOk result (numbers.new.items ≡ pushed numbers.old.items number) }
{
    let Some(number) = number else { return Ok(()) };
    numbers.push(number as usize)?;
    Ok(())
}
