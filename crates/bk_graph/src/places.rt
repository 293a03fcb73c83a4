// The places of blocks and values by their numbers.
ghost use Rattle.std.specs.Prelude.{◌≡◌, IfOk, unwrap_or};
ghost use Rattle.std.specs.BTreeMap.{get};
ghost use Rattle.std.specs.Ordering.{nat_cmp};
ghost use Rattle.bk_graph.specs.Named.{AreFirsts, block_ids};

use bk_func::Block;
use std::alloc::{AllocError, Global};
use std::collections::BTreeMap;

/// For each number of a list the place at which it stands first.
#[derive(Drop)]
pub(crate) struct Places {
    pub(crate) places: BTreeMap<u32, usize>,
}

impl Places {
    pub(crate) fn new(alloc: Global, numbers: &[u32]) -> Result<Places, AllocError>
        ensures { IfOk result (AreFirsts numbers.now) }
    {
        let mut places = BTreeMap::new(alloc);
        for (place, number) in numbers.iter().enumerate() {
            let first = first_place(places.get(number).copied(), place);
            places.insert(*number, first)?;
        }
        Ok(Places { places })
    }

    /// The places of the blocks.
    pub(crate) fn of_blocks(alloc: Global, blocks: &[Block]) -> Result<Places, AllocError>
        ensures { IfOk result (AreFirsts (block_ids blocks.now)) }
    {
        let ids = block_ids(alloc, blocks)?;
        Places::new(alloc, &ids)
    }

    /// The place of the number.
    pub(crate) fn find(&self, number: u32) -> Option<usize>
        ensures { result ≡ get nat_cmp self.now.places number }
    {
        self.places.get(&number).copied()
    }
}

/// The place of a number that stands here, and that may stand before.
fn first_place(before: Option<usize>, here: usize) -> usize
    ensures { result ≡ unwrap_or before here }
{
    before.unwrap_or(here)
}

fn block_ids(alloc: Global, blocks: &[Block]) -> Result<Vec<u32>, AllocError>
    ensures { IfOk result (λ ids. ids.items ≡ block_ids blocks.now) }
{
    let mut ids = Vec::with_capacity(alloc, blocks.len())?;
    for block in blocks {
        ids.push(block.id)?;
    }
    Ok(ids)
}
