// The places of a function's values and blocks, by their numbers.
ghost use Rattle.std.specs.Prelude.{◌≡◌, ℕ, ◌++◌, ◌+◌, ◌==◌, IfOk, OnOk, map, flat_map, length, position, unwrap_or};
ghost use Rattle.std.specs.Ordering.{nat_cmp};
ghost use Rattle.std.specs.BTreeMap.{get as place_at};
ghost use Rattle.bk_func.specs.Records.{FuncRecord};
ghost use Rattle.bk_func.specs.Numbers.{values_of, room};
ghost use Rattle.bk_mean.specs.Numbering.{IsNumbering, AreRoots, found_in, place_in, root_in, copied_by as meant_copied};

use bk_func::{Block, Func, Value};
use bk_ops::{Family, Ty};
use bk_places::first_places;
use std::alloc::{AllocError, Global};
use std::collections::BTreeMap;

/// Values have places in list order over all blocks, and blocks in list order. Of two with one number
/// the first counts.
#[derive(Drop)]
pub(crate) struct Numbering {
    values: BTreeMap<usize, usize>,
    blocks: BTreeMap<usize, usize>,
    /// For each value, by places, the one that a copy of memory stands for.
    roots: Vec<usize>,
}

impl Numbering {
    pub(crate) fn new(alloc: Global, func: &Func) -> Result<Self, AllocError>
        ensures { IfOk result (λ numbering. IsNumbering func.now numbering) }
    {
        let ids = value_ids(alloc, &func.blocks)?;
        let values = first_places(alloc, &ids)?;
        let blocks = first_places(alloc, &block_ids(alloc, &func.blocks)?)?;
        let roots = roots(alloc, func, &values, ids.len())?;
        Ok(Numbering {
            values,
            blocks,
            roots,
        })
    }

    /// How many values there are.
    pub(crate) fn count(&self) -> usize
        ensures own { result ≡ length self.now.roots.items }
        ensures room { (f : FuncRecord) → IsNumbering f self.now → result ≡ room f }
    {
        self.roots.len()
    }

    /// The place of the value with this number.
    pub(crate) fn find(&self, id: u32) -> Option<usize>
        ensures own { result ≡ place_at nat_cmp self.now.values id }
        ensures found { (f : FuncRecord) → IsNumbering f self.now → result ≡ found_in f id }
    {
        self.values.get(&(id as usize)).copied()
    }

    /// The place of the number of a value: that after all values where there is no such value.
    pub(crate) fn place(&self, id: u32) -> usize
        ensures { (f : FuncRecord) → IsNumbering f self.now → result ≡ place_in f id }
    {
        match self.find(id) {
            Some(place) => place,
            None => self.count(),
        }
    }

    /// The place of the block with this number.
    pub(crate) fn block(&self, id: u32) -> Option<usize>
        ensures { (f : FuncRecord) → IsNumbering f self.now → result ≡ position (λ b. b.id == id) f.blocks }
    {
        self.blocks.get(&(id as usize)).copied()
    }

    /// The place of the memory value that the number stands for.
    pub(crate) fn memory(&self, id: u32) -> Option<usize>
        ensures { result ≡ root_in self.now id }
    {
        let place = self.find(id)?;
        let root = self.roots.get(place).copied()?;
        if root < self.roots.len() {
            Some(root)
        } else {
            None
        }
    }
}

/// The numbers of all values, block by block.
fn value_ids(alloc: Global, blocks: &[Block]) -> Result<Vec<usize>, AllocError>
    ensures { IfOk result (λ ids. ids.items ≡ map (λ v. v.id) (flat_map (λ b. b.values) blocks.now)) }
{
    let mut ids = Vec::new(alloc);
    for block in blocks {
        push_ids(&mut ids, &block.values)?;
    }
    Ok(ids)
}

fn push_ids(list: &mut Vec<usize>, values: &[Value]) -> Result<(), AllocError>
    ensures { OnOk result (list.new.items ≡ list.old.items ++ map (λ v. v.id) values.now) }
{
    for value in values {
        list.push(value.id as usize)?;
    }
    Ok(())
}

fn block_ids(alloc: Global, blocks: &[Block]) -> Result<Vec<usize>, AllocError>
    ensures { IfOk result (λ ids. ids.items ≡ map (λ b. b.id) blocks.now) }
{
    let mut ids = Vec::with_capacity(alloc, blocks.len())?;
    for block in blocks {
        ids.push(block.id as usize)?;
    }
    Ok(ids)
}

/// For each value its own place, for a copy of memory that of what it stands for.
fn roots(
    alloc: Global,
    func: &Func,
    places: &BTreeMap<usize, usize>,
    count: usize,
) -> Result<Vec<usize>, AllocError>
    requires count { count ≡ room func.now }
    requires places { (id : ℕ) → place_at nat_cmp places.now id ≡ found_in func.now id }
    ensures { IfOk result (λ roots. AreRoots func.now (room func.now) roots.items) }
{
    let mut roots = copied_places(alloc, &func.blocks, places, count)?;
    let mut reach = 1usize;
    while reach < count {
        leap(&mut roots);
        reach += reach.min(count - reach);
    }
    Ok(roots)
}

/// The places of what each value copies, and that after all values where there is no such value.
fn copied_places(
    alloc: Global,
    blocks: &[Block],
    places: &BTreeMap<usize, usize>,
    count: usize,
) -> Result<Vec<usize>, AllocError>
    ensures { IfOk result (λ list. list.items ≡ map (λ v. unwrap_or (place_at nat_cmp places.now (meant_copied v)) count) (flat_map (λ b. b.values) blocks.now)) }
{
    let mut list = Vec::with_capacity(alloc, count)?;
    for block in blocks {
        push_copied(&mut list, &block.values, places, count)?;
    }
    Ok(list)
}

fn push_copied(
    list: &mut Vec<usize>,
    values: &[Value],
    places: &BTreeMap<usize, usize>,
    count: usize,
) -> Result<(), AllocError>
    ensures { OnOk result (list.new.items ≡ list.old.items ++ map (λ v. unwrap_or (place_at nat_cmp places.now (meant_copied v)) count) values.now) }
{
    for value in values {
        list.push(
            places
                .get(&(copied_by(value) as usize))
                .copied()
                .unwrap_or(count),
        )?;
    }
    Ok(())
}

/// What a copy of memory copies; other values stand for themselves.
fn copied_by(value: &Value) -> u32
    ensures { result ≡ meant_copied value.now }
{
    match value.op.family {
        Family::Copy if value.ty == Ty::Mem => value.args.as_slice().first().copied().unwrap_or(0),
        _ => value.id,
    }
}

/// Each copy goes as far again as it went before.
fn leap(roots: &mut [usize])
    ensures length { length roots.new ≡ length roots.old }
    ensures leaps { (f : FuncRecord) (n : ℕ) → AreRoots f n roots.old → AreRoots f (n + n) roots.new }
{
    for place in 0..roots.len() {
        let root = roots[place];
        if root < roots.len() {
            roots[place] = roots[root];
        }
    }
}
