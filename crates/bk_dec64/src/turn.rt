// What one value becomes.
ghost use Rattle.std.specs.Prelude.{◌≡◌, ◌+◌, ◌++◌, ◌∷◌, [], OnOk, IfOk, length, pos, slice_index, if◌then◌else◌};
ghost use Rattle.bk_func.specs.Numbers.{natural, place_of_arg};
ghost use Rattle.bk_dec64.specs.Decomposed.{argument_halves, argument_word, handing, is_wide, load_halves, made_for, phi_halves, result_word, selection_halves, store_halves, turned, turned_argument, turned_load, turned_phi, turned_selection, turned_store, type_by};
ghost use Rattle.bk_dec64.specs.Halves.{joined, parts};
ghost use Rattle.bk_dec64.specs.Named.{seen_plan};

use crate::growth::{Growth, of_64};
use crate::halves::{Home, half_of_phi, in_words, is_double, word_at};
use crate::role::{Role, role_of};
use crate::tables::Plan;
use bk_func::{Aux, Value};
use bk_ops::{Family, Ty};
use smallvec::SmallVec;
use std::alloc::{AllocError, Global};

/// Turns a value into what it stands for in words. What is made for it is listed.
pub(crate) fn turn(
    alloc: Global,
    plan: &Plan,
    home: &Home,
    value: &mut Value,
    growth: &mut Growth,
) -> Result<(), AllocError>
    ensures value { OnOk result (value.new ≡ turned (seen_plan plan.now) home.now.preds.now growth.old.next value.old) }
    ensures made { OnOk result (growth.new.made.items ≡ growth.old.made.items ++ made_for (seen_plan plan.now) home.now.block home.now.preds.now growth.old.next value.old) }
    ensures next { OnOk result (growth.new.next ≡ growth.old.next + length (made_for (seen_plan plan.now) home.now.block home.now.preds.now growth.old.next value.old)) }
{
    match role_of(value.op.family) {
        Role::Phi => turn_phi(alloc, home, value, growth),
        Role::Argument => turn_argument(alloc, plan, home.block, value, growth),
        Role::Load => turn_load(alloc, home.block, value, growth),
        Role::Store => turn_store(alloc, home.block, value, growth),
        Role::Call => turn_call(alloc, plan, home.block, value, growth),
        Role::Selection => turn_selection(alloc, plan, home.block, value, growth),
        Role::Results => turn_results(alloc, plan, home.block, value, growth),
        Role::Other => Ok(()),
    }
}

/// Whether the value's number, or that which it stores, is of 64 bits.
fn is_wide(value: &Value) -> bool
    ensures { result ≡ is_wide value.now }
{
    is_double(type_by(value.aux, value.ty))
}

/// The type that a store names, else the value's own.
fn type_by(aux: Aux, own: Ty) -> Ty
    ensures { result ≡ type_by aux own }
{
    match aux {
        Aux::Ty(ty) => ty,
        _ => own,
    }
}

/// The number at a place, 0 where there is none.
fn number_at(numbers: &[u32], place: usize) -> u32
    ensures { result ≡ slice_index numbers.now place }
{
    match numbers.get(place) {
        Some(number) => *number,
        None => 0,
    }
}

/// Makes a value the number of two halves.
fn join(alloc: Global, value: &mut Value, high: u32, low: u32) -> Result<(), AllocError>
    ensures { OnOk result (value.new ≡ joined high low value.old) }
{
    value.args = SmallVec::from_slice(alloc, &[high, low])?;
    value.op = of_64(Family::Int64Make);
    value.int = 0;
    value.aux = Aux::Nothing;
    Ok(())
}

fn turn_phi(
    alloc: Global,
    home: &Home,
    value: &mut Value,
    growth: &mut Growth,
) -> Result<(), AllocError>
    ensures value { OnOk result (value.new ≡ turned_phi home.now.preds.now growth.old.next value.old) }
    ensures made { OnOk result (growth.new.made.items ≡ growth.old.made.items ++ phi_halves home.now.block home.now.preds.now growth.old.next value.old) }
    ensures next { OnOk result (growth.new.next ≡ growth.old.next + length (phi_halves home.now.block home.now.preds.now growth.old.next value.old)) }
{
    if !is_wide(value) {
        return Ok(());
    }
    let args = value.args.as_slice();
    let low = half_of_phi(alloc, Family::Int64Lo, home, args, growth)?;
    let high = half_of_phi(alloc, Family::Int64Hi, home, args, growth)?;
    join(alloc, value, high, low)
}

fn turn_argument(
    alloc: Global,
    plan: &Plan,
    block: u32,
    value: &mut Value,
    growth: &mut Growth,
) -> Result<(), AllocError>
    ensures value { OnOk result (value.new ≡ turned_argument growth.old.next (argument_word (seen_plan plan.now) value.old) value.old) }
    ensures made { OnOk result (growth.new.made.items ≡ growth.old.made.items ++ argument_halves block growth.old.next (argument_word (seen_plan plan.now) value.old) value.old) }
    ensures next { OnOk result (growth.new.next ≡ growth.old.next + length (argument_halves block growth.old.next (argument_word (seen_plan plan.now) value.old) value.old)) }
{
    let word = word_at(&plan.own.args, place_of_arg(value.aux) as usize)?;
    if !is_wide(value) {
        value.aux = Aux::Arg(word);
        return Ok(());
    }
    let low = growth.argument(alloc, block, word)?;
    let high = growth.argument(alloc, block, next(word)?)?;
    join(alloc, value, high, low)
}

/// The place of the argument that stands beside a value, 0 where none does.
fn place_of_arg(aux: Aux) -> u32
    ensures { result ≡ place_of_arg aux }
{
    match aux {
        Aux::Arg(place) => place,
        _ => 0,
    }
}

fn next(word: u32) -> Result<u32, AllocError>
    ensures { IfOk result (λ n. n ≡ word + 1) }
{
    match word.checked_add(1) {
        Some(next) => Ok(next),
        None => Err(AllocError),
    }
}

fn turn_load(
    alloc: Global,
    block: u32,
    value: &mut Value,
    growth: &mut Growth,
) -> Result<(), AllocError>
    ensures value { OnOk result (value.new ≡ turned_load growth.old.next value.old) }
    ensures made { OnOk result (growth.new.made.items ≡ growth.old.made.items ++ load_halves block growth.old.next value.old) }
    ensures next { OnOk result (growth.new.next ≡ growth.old.next + length (load_halves block growth.old.next value.old)) }
{
    if !is_wide(value) {
        return Ok(());
    }
    let address = number_at(value.args.as_slice(), 0);
    let memory = number_at(value.args.as_slice(), 1);
    let low = growth.load(alloc, block, address, memory)?;
    let behind = growth.next_word(alloc, block, address)?;
    let high = growth.load(alloc, block, behind, memory)?;
    join(alloc, value, high, low)
}

fn turn_store(
    alloc: Global,
    block: u32,
    value: &mut Value,
    growth: &mut Growth,
) -> Result<(), AllocError>
    ensures value { OnOk result (value.new ≡ turned_store growth.old.next value.old) }
    ensures made { OnOk result (growth.new.made.items ≡ growth.old.made.items ++ store_halves block growth.old.next value.old) }
    ensures next { OnOk result (growth.new.next ≡ growth.old.next + length (store_halves block growth.old.next value.old)) }
{
    if !is_wide(value) {
        return Ok(());
    }
    let address = number_at(value.args.as_slice(), 0);
    let number = number_at(value.args.as_slice(), 1);
    let memory = number_at(value.args.as_slice(), 2);
    let low = growth.half(alloc, block, Family::Int64Lo, number)?;
    let stored = growth.store(alloc, block, &[address, low, memory])?;
    let behind = growth.next_word(alloc, block, address)?;
    let high = growth.half(alloc, block, Family::Int64Hi, number)?;
    value.args = SmallVec::from_slice(alloc, &[behind, high, stored])?;
    value.aux = Aux::Ty(Ty::Uint32);
    Ok(())
}

fn turn_call(
    alloc: Global,
    plan: &Plan,
    block: u32,
    value: &mut Value,
    growth: &mut Growth,
) -> Result<(), AllocError>
    ensures value { OnOk result (value.new ≡ handing growth.old.next ((seen_plan plan.now).args value.old.aux) value.old) }
    ensures made { OnOk result (growth.new.made.items ≡ growth.old.made.items ++ parts block growth.old.next ((seen_plan plan.now).args value.old.aux) value.old.args) }
    ensures next { OnOk result (growth.new.next ≡ growth.old.next + length (parts block growth.old.next ((seen_plan plan.now).args value.old.aux) value.old.args)) }
{
    let types = plan.args(value.aux);
    value.args = in_words(alloc, block, types, value.args.as_slice(), growth)?;
    Ok(())
}

fn turn_selection(
    alloc: Global,
    plan: &Plan,
    block: u32,
    value: &mut Value,
    growth: &mut Growth,
) -> Result<(), AllocError>
    ensures value { OnOk result (value.new ≡ turned_selection growth.old.next (result_word (seen_plan plan.now) value.old) value.old) }
    ensures made { OnOk result (growth.new.made.items ≡ growth.old.made.items ++ selection_halves block growth.old.next (result_word (seen_plan plan.now) value.old) value.old) }
    ensures next { OnOk result (growth.new.next ≡ growth.old.next + length (selection_halves block growth.old.next (result_word (seen_plan plan.now) value.old) value.old)) }
{
    let call = number_at(value.args.as_slice(), 0);
    let word = word_at(plan.results(call), natural(value.int))?;
    if !is_wide(value) {
        value.int = i64::from(word);
        return Ok(());
    }
    let low = growth.selection(alloc, block, call, word)?;
    let high = growth.selection(alloc, block, call, next(word)?)?;
    join(alloc, value, high, low)
}

/// The number as a place, 0 where it is negative.
fn natural(int: i64) -> usize
    ensures { result ≡ natural int }
{
    if int >= 0 { int as usize } else { 0 }
}

fn turn_results(
    alloc: Global,
    plan: &Plan,
    block: u32,
    value: &mut Value,
    growth: &mut Growth,
) -> Result<(), AllocError>
    ensures value { OnOk result (value.new ≡ handing growth.old.next (seen_plan plan.now).own.results value.old) }
    ensures made { OnOk result (growth.new.made.items ≡ growth.old.made.items ++ parts block growth.old.next (seen_plan plan.now).own.results value.old.args) }
    ensures next { OnOk result (growth.new.next ≡ growth.old.next + length (parts block growth.old.next (seen_plan plan.now).own.results value.old.args)) }
{
    value.args = in_words(
        alloc,
        block,
        &plan.own.results,
        value.args.as_slice(),
        growth,
    )?;
    Ok(())
}
