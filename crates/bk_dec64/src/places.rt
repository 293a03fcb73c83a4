// Blocks by their numbers, and values that go last in them.
ghost use Rattle.std.specs.Prelude.{◌≡◌, ◌==◌, ◌++◌, ◌∷◌, [], IfOk, OnOk, unwrap_or, position, fold};
ghost use Rattle.std.specs.BTreeMap.{get};
ghost use Rattle.std.specs.Ordering.{nat_cmp};
ghost use Rattle.bk_func.specs.Edits.{change_block, with_value};
ghost use Rattle.bk_dec64.specs.Decomposed.{placed};
ghost use Rattle.bk_dec64.specs.Named.{HasPlaces};

use crate::made::Made;
use bk_func::{Block, Value};
use std::alloc::{AllocError, Global};
use std::collections::BTreeMap;

/// For each number of a block the place of the first block that has it.
#[derive(Drop)]
pub(crate) struct Places {
    pub(crate) places: BTreeMap<u32, usize>,
}

impl Places {
    fn new(alloc: Global, blocks: &[Block]) -> Result<Places, AllocError>
        ensures { IfOk result (HasPlaces blocks.now) }
    {
        let mut places = BTreeMap::new(alloc);
        for (place, block) in blocks.iter().enumerate() {
            let first = first_place(places.get(&block.id).copied(), place);
            places.insert(block.id, first)?;
        }
        Ok(Places { places })
    }

    fn find(&self, number: u32) -> Option<usize>
        ensures { result ≡ get nat_cmp self.now.places number }
    {
        self.places.get(&number).copied()
    }
}

/// The place of a number that stands here, and that may stand before.
fn first_place(before: Option<usize>, here: usize) -> usize
    ensures { result ≡ unwrap_or before here }
{
    before.unwrap_or(here)
}

/// Puts each value last in its block.
pub(crate) fn place_all(
    alloc: Global,
    blocks: &mut [Block],
    made: Vec<Made>,
) -> Result<(), AllocError>
    ensures { OnOk result (blocks.new ≡ placed made.items blocks.old) }
{
    let places = Places::new(alloc, blocks)?;
    place_each(&places, blocks, made)
}

fn place_each(places: &Places, blocks: &mut [Block], made: Vec<Made>) -> Result<(), AllocError>
    requires { HasPlaces blocks.old places.now }
    ensures { OnOk result (blocks.new ≡ placed made.items blocks.old) }
{
    for one in made {
        place(places, blocks, one)?;
    }
    Ok(())
}

/// Puts a value last in its block.
fn place(places: &Places, blocks: &mut [Block], one: Made) -> Result<(), AllocError>
    requires { HasPlaces blocks.old places.now }
    ensures blocks { OnOk result (blocks.new ≡ change_block one.block (with_value one.value) blocks.old) }
    ensures places { OnOk result (HasPlaces blocks.new places.now) }
{
    let Made { block, value } = one;
    match places.find(block) {
        Some(place) => {
            push_last(&mut blocks[place], value)?;
            Ok(())
        }
        None => Ok(()),
    }
}

fn push_last(block: &mut Block, value: Value) -> Result<(), AllocError>
    ensures { OnOk result (block.new ≡ with_value value block.old) }
{
    block.values.push(value)?;
    Ok(())
}
