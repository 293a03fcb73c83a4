// What the numbers of a function name.
ghost use Rattle.std.specs.Prelude.{◌≡◌, ◌++◌, ℕ, IfOk, OnOk, map, Some};
ghost use Rattle.std.specs.List.{flat_map};
ghost use Rattle.std.specs.BTreeMap.{get};
ghost use Rattle.std.specs.Ordering.{nat_cmp};
ghost use Rattle.bk_form.specs.Numbers.{bearer, one_of, one_more, block_ids, value_ids, block_named, value_named, NumbersOf};

use bk_func::{Block, Func, Value};
use std::alloc::{AllocError, Global};
use std::collections::BTreeMap;

/// What bears a number: its place in text order, or that several bear it.
#[derive(Clone, Copy)]
pub(crate) enum Bearer {
    One(usize),
    Several,
}

/// The places of a function's blocks and values in text order, by number.
#[derive(Drop)]
pub(crate) struct Numbers {
    blocks: BTreeMap<u32, Bearer>,
    values: BTreeMap<u32, Bearer>,
}

impl Numbers {
    pub(crate) fn new(alloc: Global, func: &Func) -> Result<Numbers, AllocError>
        ensures { IfOk result (λ numbers. NumbersOf func.now numbers) }
    {
        let block_ids = block_ids(alloc, &func.blocks)?;
        let value_ids = value_ids(alloc, func)?;
        let blocks = bearers(alloc, &block_ids)?;
        let values = bearers(alloc, &value_ids)?;
        Ok(Numbers { blocks, values })
    }

    /// The place of the one block with this number.
    pub(crate) fn block(&self, id: u32) -> Option<usize>
        ensures { result ≡ block_named self.now id }
    {
        one(self.blocks.get(&id).copied())
    }

    /// The place of the one value with this number, counted over all blocks.
    pub(crate) fn value(&self, id: u32) -> Option<usize>
        ensures { result ≡ value_named self.now id }
    {
        one(self.values.get(&id).copied())
    }
}

fn block_ids(alloc: Global, blocks: &[Block]) -> Result<Vec<u32>, AllocError>
    ensures { IfOk result (λ ids. ids.items ≡ map (λ b. b.id) blocks.now) }
{
    let mut ids = Vec::with_capacity(alloc, blocks.len())?;
    for block in blocks {
        ids.push(block.id)?;
    }
    Ok(ids)
}

fn value_ids(alloc: Global, func: &Func) -> Result<Vec<u32>, AllocError>
    ensures { IfOk result (λ ids. ids.items ≡ value_ids func.now) }
{
    let mut ids = Vec::new(alloc);
    for block in &func.blocks {
        push_ids(&mut ids, &block.values)?;
    }
    Ok(ids)
}

fn push_ids(ids: &mut Vec<u32>, values: &[Value]) -> Result<(), AllocError>
    ensures { OnOk result (ids.new.items ≡ ids.old.items ++ map (λ v. v.id) values.now) }
{
    for value in values {
        ids.push(value.id)?;
    }
    Ok(())
}

/// What bears each number of the list.
fn bearers(alloc: Global, ids: &[u32]) -> Result<BTreeMap<u32, Bearer>, AllocError>
    ensures { IfOk result (λ map. (n : ℕ) → get nat_cmp map n ≡ bearer ids.now n) }
{
    let mut bearers = BTreeMap::new(alloc);
    for (place, id) in ids.iter().enumerate() {
        let bearer = one_more(bearers.get(id).copied(), place);
        bearers.insert(*id, bearer)?;
    }
    Ok(bearers)
}

/// What bears a number that the element at the place bears too.
fn one_more(before: Option<Bearer>, place: usize) -> Bearer
    ensures { result ≡ one_more before place }
{
    match before {
        Some(_) => Bearer::Several,
        None => Bearer::One(place),
    }
}

fn one(bearer: Option<Bearer>) -> Option<usize>
    ensures { result ≡ one_of bearer }
{
    match bearer {
        Some(Bearer::One(place)) => Some(place),
        _ => None,
    }
}
