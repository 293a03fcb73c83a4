// The values of a function by their numbers, with the handles of their keys.
ghost use Rattle.std.specs.Prelude.{◌≡◌, ◌∷◌, [], ℕ, IfOk, OnOk, flat_map};
ghost use Rattle.std.specs.Option.{option_or};
ghost use Rattle.bk_emit.specs.Code.{handle_by, left_by, handed, left_behind, entry_of, values_of};
ghost use Rattle.bk_emit.specs.Tables.{look, seen};

use bk_fixup::key_of;
use bk_func::{Block, Func, Value};
use bk_piece::Handle;
use std::alloc::{AllocError, Global};
use std::collections::BTreeMap;

/// A value, and the handle of its key.
#[derive(Clone, Copy)]
pub struct Entry<'a> {
    pub value: &'a Value,
    pub handle: Option<Handle>,
}

/// The registers of a unit: that of the result, and those of the first arguments; 0 where it has none.
#[derive(Clone, Copy)]
pub struct Regs {
    pub d: u8,
    pub a: u8,
    pub b: u8,
    pub c: u8,
    pub e: u8,
}

/// The values of a function by their numbers, and the handles of the types of its signature.
#[derive(Drop)]
pub struct Table<'a> {
    pub(crate) entries: BTreeMap<u32, Entry<'a>>,
    pub(crate) types: &'a [Handle],
}

impl<'a> Table<'a> {
    /// `keys` has a handle for each key of the function, in the order in which they are listed.
    pub(crate) fn new(
        alloc: Global,
        func: &'a Func,
        keys: &'a [Handle],
    ) -> Result<Table<'a>, AllocError>
        ensures entries { IfOk result (λ t. (id : ℕ) → look t.entries id ≡ entry_of (handed (values_of func.now) keys.now) id) }
        ensures types { IfOk result (λ t. t.types.now ≡ left_behind (values_of func.now) keys.now) }
    {
        let mut entries = BTreeMap::new(alloc);
        let types = put_blocks(&mut entries, &func.blocks, keys)?;
        Ok(Table { entries, types })
    }
}

/// Puts the values of blocks into the table, and gives the handles that are left.
fn put_blocks<'a>(
    entries: &mut BTreeMap<u32, Entry<'a>>,
    blocks: &'a [Block],
    keys: &'a [Handle],
) -> Result<&'a [Handle], AllocError>
    ensures entries { OnOk result ((id : ℕ) → look entries.new id ≡ option_or (look entries.old id) (entry_of (handed (flat_map (λ b. b.values) blocks.now) keys.now) id)) }
    ensures rest { IfOk result (λ rest. rest.now ≡ left_behind (flat_map (λ b. b.values) blocks.now) keys.now) }
{
    let mut rest = keys;
    for block in blocks {
        rest = put_values(entries, &block.values, rest)?;
    }
    Ok(rest)
}

/// Puts values into the table, and gives the handles that are left.
fn put_values<'a>(
    entries: &mut BTreeMap<u32, Entry<'a>>,
    values: &'a [Value],
    keys: &'a [Handle],
) -> Result<&'a [Handle], AllocError>
    ensures entries { OnOk result ((id : ℕ) → look entries.new id ≡ option_or (look entries.old id) (entry_of (handed values.now keys.now) id)) }
    ensures rest { IfOk result (λ rest. rest.now ≡ left_behind values.now keys.now) }
{
    let mut rest = keys;
    for value in values {
        let handle = handle_of(value, rest);
        rest = left_by(value, rest);
        put_first(entries, Entry { value, handle })?;
    }
    Ok(rest)
}

/// Puts a value into the table; the first with its number counts.
fn put_first<'a>(entries: &mut BTreeMap<u32, Entry<'a>>, one: Entry<'a>) -> Result<(), AllocError>
    ensures { OnOk result ((id : ℕ) → look entries.new id ≡ option_or (look entries.old id) (entry_of (seen one.entry ∷ []) id)) }
{
    let value = one.value;
    let first = entries.get(&value.id).copied().unwrap_or(one);
    entries.insert(value.id, first)?;
    Ok(())
}

/// The first of the handles, where the value has a key.
fn handle_of(value: &Value, keys: &[Handle]) -> Option<Handle>
    ensures { result ≡ handle_by value.now keys.now }
{
    if key_of(value).is_some() {
        keys.first().copied()
    } else {
        None
    }
}

/// The handles that are left behind a value, which takes one where it has a key.
fn left_by<'a>(value: &Value, keys: &'a [Handle]) -> &'a [Handle]
    ensures { result.now ≡ left_by value.now keys.now }
{
    if key_of(value).is_some() && !keys.is_empty() {
        &keys[1..]
    } else {
        keys
    }
}
