// The arguments that registers hold.
ghost use Rattle.std.specs.Prelude.{◌≡◌, ◌≤◌, ◌<◌, ◌==◌, ◌||◌, ℕ, IfOk, OnOk, ◌+◌, ◌++◌, ◌∷◌, [], None, Some, length, take, slice_index_or, false, if◌then◌else◌};
ghost use Rattle.std.specs.List.{list_any};
ghost use Rattle.std.specs.Option.{option_or};
ghost use Rattle.std.specs.BTreeMap.{get};
ghost use Rattle.std.specs.Ordering.{nat_cmp};
ghost use Rattle.bk_func.specs.Numbers.{place_of_arg};
ghost use Rattle.bk_func.specs.Words.{register_words};
ghost use Rattle.bk_calls.specs.Arguments.{names, is_named, arg_reg, arg_regs, arguments_of, argument_number, in_entry, first_made};

use crate::chains::plain;
use crate::plan::{note, register_count};
use crate::role::{Role, role_of};
use bk_func::{Aux, Block, Func, Value, greatest_value};
use bk_ops::{Family, Target, Ty};
use smallvec::SmallVec;
use std::alloc::{AllocError, Global};
use std::collections::BTreeMap;

/// The arguments that registers hold, and that the function names.
#[derive(Drop)]
pub(crate) struct Arguments {
    /// A value for each of them, in rising order.
    pub(crate) values: Vec<Value>,
    /// The numbers of these values by the places of the arguments.
    pub(crate) numbers: BTreeMap<u32, u32>,
    /// The number of the next value that is made.
    pub(crate) next: u32,
}

impl Arguments {
    pub(crate) fn of(alloc: Global, func: &Func, target: Target) -> Result<Arguments, AllocError>
        ensures values { IfOk result (λ a. a.values.items ≡ arguments_of target func.now) }
        ensures numbers { IfOk result (λ a. (i : ℕ) → get nat_cmp a.numbers i ≡ argument_number (arguments_of target func.now) i) }
        ensures next { IfOk result (λ a. a.next ≡ first_made target func.now) }
    {
        let types = in_registers(target, &func.sig.args);
        let Some(first) = greatest_value(func).checked_add(1) else {
            return Err(AllocError);
        };
        Arguments::listed(alloc, &func.blocks, types, first)
    }

    /// Of the arguments of these types those that the blocks name, numbered from `first` on.
    fn listed(
        alloc: Global,
        blocks: &[Block],
        types: &[Ty],
        first: u32,
    ) -> Result<Arguments, AllocError>
        requires { length types.now ≤ 8 }
        ensures values { IfOk result (λ a. a.values.items ≡ arg_regs (is_named blocks.now) 0 first types.now) }
        ensures numbers { IfOk result (λ a. (i : ℕ) → get nat_cmp a.numbers i ≡ argument_number (arg_regs (is_named blocks.now) 0 first types.now) i) }
        ensures next { IfOk result (λ a. a.next ≡ first + length (arg_regs (is_named blocks.now) 0 first types.now)) }
    {
        let named = named_places(alloc, blocks, types.len())?;
        let mut arguments = Arguments {
            values: Vec::new(alloc),
            numbers: BTreeMap::new(alloc),
            next: first,
        };
        for (place, ty) in types.iter().enumerate() {
            arguments.list(alloc, named[place], place as u32, *ty)?;
        }
        Ok(arguments)
    }

    /// Lists the argument at this place where it is named.
    fn list(&mut self, alloc: Global, is_named: bool, place: u32, ty: Ty) -> Result<(), AllocError>
        ensures values { OnOk result (self.new.values.items ≡ self.old.values.items ++ (if is_named then arg_reg self.old.next ty place ∷ [] else [])) }
        ensures numbers { OnOk result ((i : ℕ) → get nat_cmp self.new.numbers i ≡ option_or (get nat_cmp self.old.numbers i) (if is_named then (if place == i then Some self.old.next else None) else None)) }
        ensures next { OnOk result (self.new.next ≡ self.old.next + (if is_named then 1 else 0)) }
    {
        if !is_named {
            return Ok(());
        }
        let Some(next) = self.next.checked_add(1) else {
            return Err(AllocError);
        };
        note(&mut self.numbers, place, self.next)?;
        self.values
            .push(argument_in_register(alloc, self.next, ty, place))?;
        self.next = next;
        Ok(())
    }
}

/// Of the types of arguments those that registers hold.
fn in_registers(target: Target, types: &[Ty]) -> &[Ty]
    ensures types { result.now ≡ take (register_words target) types.now }
    ensures few { length result.now ≤ 8 }
{
    let registers = register_count(target) as usize;
    &types[..registers.min(types.len())]
}

fn argument_in_register(alloc: Global, number: u32, ty: Ty, place: u32) -> Value
    ensures { result ≡ arg_reg number ty place }
{
    Value {
        id: number,
        op: plain(Family::ArgReg),
        ty,
        args: SmallVec::new(alloc),
        int: i64::from(place),
        aux: Aux::Nothing,
    }
}

/// Which of the first arguments, as many as asked for, the function names, by place.
fn named_places(alloc: Global, blocks: &[Block], count: usize) -> Result<Vec<bool>, AllocError>
    ensures len { IfOk result (λ named. length named.items ≡ count) }
    ensures named { IfOk result (λ named. (i : ℕ) → i < count → slice_index_or named.items i false ≡ is_named blocks.now i) }
{
    let mut named = vec![in alloc; false; count]?;
    for block in blocks {
        note_names(&mut named, &block.values);
    }
    Ok(named)
}

fn note_names(named: &mut Vec<bool>, values: &[Value])
    ensures len { length named.new.items ≡ length named.old.items }
    ensures named { (i : ℕ) → i < length named.old.items → slice_index_or named.new.items i false ≡ (slice_index_or named.old.items i false || list_any (names i) values.now) }
{
    for value in values {
        note_name(named, value);
    }
}

fn note_name(named: &mut Vec<bool>, value: &Value)
    ensures len { length named.new.items ≡ length named.old.items }
    ensures named { (i : ℕ) → i < length named.old.items → slice_index_or named.new.items i false ≡ (slice_index_or named.old.items i false || names i value.now) }
{
    if role_of(value.op.family) == Role::Argument {
        mark(named, place_of_arg(value.aux) as usize);
    }
}

fn mark(named: &mut Vec<bool>, place: usize)
    ensures len { length named.new.items ≡ length named.old.items }
    ensures named { (i : ℕ) → i < length named.old.items → slice_index_or named.new.items i false ≡ (slice_index_or named.old.items i false || place == i) }
{
    if place < named.len() {
        named[place] = true;
    }
}

/// The place of the argument that stands beside a value, 0 where none does.
pub(crate) fn place_of_arg(aux: Aux) -> u32
    ensures { result ≡ place_of_arg aux }
{
    match aux {
        Aux::Arg(place) => place,
        _ => 0,
    }
}

/// Adds the values last in the entry.
pub(crate) fn add_to_entry(blocks: &mut [Block], values: Vec<Value>) -> Result<(), AllocError>
    ensures { OnOk result (blocks.new ≡ in_entry values.items blocks.old) }
{
    if blocks.is_empty() {
        return Ok(());
    }
    add_last(&mut blocks[0], values)
}

fn add_last(block: &mut Block, values: Vec<Value>) -> Result<(), AllocError>
    ensures { OnOk result (block.new ≡ record block.old { values = block.old.values ++ values.items }) }
{
    let mut values = values;
    block.values.append(&mut values)?;
    Ok(())
}
