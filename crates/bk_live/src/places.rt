// The places of blocks by their numbers.
ghost use Rattle.std.specs.Prelude.{◌≡◌, ◌++◌, IfOk, OnOk};
ghost use Rattle.std.specs.List.{filter_map};
ghost use Rattle.bk_live.specs.Homes.{ArePlaces, place, with_place};

use bk_func::Block;
use std::alloc::{AllocError, Global};
use std::collections::BTreeMap;

/// For each number of a block its place in the list.
#[derive(Drop)]
pub(crate) struct Places {
    pub(crate) places: BTreeMap<u32, usize>,
}

impl Places {
    pub(crate) fn new(alloc: Global, blocks: &[Block]) -> Result<Places, AllocError>
        ensures { IfOk result (λ places. ArePlaces blocks.now (place places)) }
    {
        let mut places = BTreeMap::new(alloc);
        for (place, block) in blocks.iter().enumerate() {
            places.insert(block.id, place)?;
        }
        Ok(Places { places })
    }

    /// The place of the block with this number.
    pub(crate) fn find(&self, number: u32) -> Option<usize>
        ensures { result ≡ place self.now number }
    {
        self.places.get(&number).copied()
    }

    /// The places of the blocks with these numbers.
    pub(crate) fn find_all(&self, alloc: Global, numbers: &[u32]) -> Result<Vec<usize>, AllocError>
        ensures { IfOk result (λ found. found.items ≡ filter_map (place self.now) numbers.now) }
    {
        let mut places = Vec::new(alloc);
        for number in numbers {
            push_place(&mut places, self.find(*number))?;
        }
        Ok(places)
    }
}

fn push_place(places: &mut Vec<usize>, place: Option<usize>) -> Result<(), AllocError>
    ensures { OnOk result (places.new.items ≡ with_place places.old.items place) }
{
    let Some(place) = place else { return Ok(()) };
    places.push(place)?;
    Ok(())
}
