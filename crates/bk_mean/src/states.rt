// The states of memory in a block, and when each of its values is due.
ghost use Rattle.std.specs.Prelude.{◌≡◌, ℕ, ◌+◌, ◌^◌, ◌<◌, ◌==◌, IfOk, IfSome, Some, None, if◌then◌else◌, length, map, position, slice_get, option_map, option_and_then};
ghost use Rattle.std.specs.Ordering.{nat_cmp};
ghost use Rattle.std.specs.BTreeMap.{get as place_at};
ghost use Rattle.std.specs.List.{last_or};
ghost use Rattle.bk_ops.specs.Table.{info_of};
ghost use Rattle.bk_func.specs.Records.{ValueRecord};
ghost use Rattle.bk_func.specs.Numbers.{origin_of as meant_origin, memory_arg as meant_arg};
ghost use Rattle.bk_func.specs.Effects.{has_effect as meant_effect};
ghost use Rattle.bk_mean.specs.Numbering.{local_in};
ghost use Rattle.bk_mean.specs.Arranged.{class_of, due_by};
ghost use Rattle.bk_mean.specs.Dues.{seen_at, due_in};
ghost use Rattle.bk_mean.specs.Memories.{state_place, acting_place, is_given as meant_given, beginning_of, followed_by, walked, states_of, place_due};

use crate::arrange::Due;
use crate::numbering::Numbering;
use crate::role::{Origin, effect_of, origin_of};
use bk_func::Value;
use bk_ops::op_info;
use bk_places::first_places;
use std::alloc::{AllocError, Global};
use std::collections::BTreeMap;

/// The level of what may be done at any time.
pub(crate) const ANYTIME: usize = usize::MAX;

/// The classes of what is done at a state: checks, then loads, then the next memory value.
const CHECKS: u32 = 0;

const LOADS: u32 = 1;

const NEXT: u32 = 2;

/// When each value of the block is due: at its state the checks as listed, then the loads as listed,
/// then the next memory value; None where its state is none of the block's. Other values are due at any
/// time.
pub(crate) fn due(
    alloc: Global,
    numbering: &Numbering,
    first: usize,
    values: &[Value],
) -> Result<Vec<Option<Due>>, AllocError>
    requires { first + length values.now < 2 ^ 63 }
    ensures length { IfOk result (λ dues. length dues.items ≡ length values.now) }
    ensures each { IfOk result (λ dues. (k : ℕ) (v : ValueRecord) → slice_get values.now k ≡ Some v → due_in dues.items k ≡ place_due numbering.now first values.now k v) }
{
    let levels = levels(alloc, numbering, first, values)?;
    let mut due = Vec::with_capacity(alloc, values.len())?;
    for (place, value) in values.iter().enumerate() {
        due.push(when(numbering, &levels, place, value))?;
    }
    Ok(due)
}

/// When a value is due, by the levels of the block's states.
fn when(
    numbering: &Numbering,
    levels: &BTreeMap<usize, usize>,
    place: usize,
    value: &Value,
) -> Option<Due>
    ensures { seen_at (Some result) ≡ due_by (class_of value.now) (option_and_then (place_at nat_cmp levels.now) (state_place numbering.now value.now)) place }
{
    let Some(class) = class(value) else {
        return Some(Due {
            level: ANYTIME,
            class: CHECKS,
            place,
        });
    };
    let state = state_at(numbering, value)?;
    let level = *levels.get(&state)?;
    Some(Due {
        level,
        class,
        place,
    })
}

/// For each state of the block how many come before it.
fn levels(
    alloc: Global,
    numbering: &Numbering,
    first: usize,
    values: &[Value],
) -> Result<BTreeMap<usize, usize>, AllocError>
    requires { first + length values.now < 2 ^ 63 }
    ensures { IfOk result (λ levels. (s : ℕ) → place_at nat_cmp levels s ≡ position (λ x. x == s) (states_of numbering.now first values.now)) }
{
    let next = first_places(alloc, &followed(alloc, numbering, values)?)?;
    let beginning = beginning(numbering, first, values);
    first_places(
        alloc,
        &states(alloc, &next, first, values.len(), beginning)?,
    )
}

/// The states of the block from the one that it begins with, each followed by the next.
fn states(
    alloc: Global,
    next: &BTreeMap<usize, usize>,
    first: usize,
    count: usize,
    beginning: Option<usize>,
) -> Result<Vec<usize>, AllocError>
    requires short { first + count < 2 ^ 63 }
    requires within { (s : ℕ) → IfSome (place_at nat_cmp next.now s) (λ k. k < count) }
    ensures { IfOk result (λ states. states.items ≡ walked (λ s. option_map (λ k. first + k) (place_at nat_cmp next.now s)) (count + 1) beginning) }
{
    let mut states = Vec::new(alloc);
    let mut state = beginning;
    for _ in 0..count + 1 {
        let Some(place) = state else { break };
        states.push(place)?;
        state = match next.get(&place) {
            Some(local) => Some(first + *local),
            None => None,
        };
    }
    Ok(states)
}

/// For each value of the block the state that it names as a memory value; for others the place after all
/// values.
fn followed(
    alloc: Global,
    numbering: &Numbering,
    values: &[Value],
) -> Result<Vec<usize>, AllocError>
    ensures { IfOk result (λ list. list.items ≡ map (followed_by numbering.now) values.now) }
{
    let mut list = Vec::with_capacity(alloc, values.len())?;
    for value in values {
        list.push(followed_state(numbering, value))?;
    }
    Ok(list)
}

fn followed_state(numbering: &Numbering, value: &Value) -> usize
    ensures { result ≡ followed_by numbering.now value.now }
{
    if has_effect(value) {
        state_at(numbering, value).unwrap_or(numbering.count())
    } else {
        numbering.count()
    }
}

/// The state that a block begins with: the first that a value names and that no value of the block gives.
fn beginning(numbering: &Numbering, first: usize, values: &[Value]) -> Option<usize>
    ensures { result ≡ beginning_of numbering.now first values.now }
{
    for value in values {
        if let Some(state) = acting_state(numbering, value) {
            if !is_given(first, values, state) {
                return Some(state);
            }
        }
    }
    None
}

/// Whether a value of the block with an effect stands at the place.
fn is_given(first: usize, values: &[Value], place: usize) -> bool
    ensures { result ≡ meant_given first values.now place }
{
    match local(first, values, place) {
        Some(local) => has_effect(&values[local]),
        None => false,
    }
}

/// The place in a block of the value at a place of the function.
pub(crate) fn local(first: usize, values: &[Value], place: usize) -> Option<usize>
    ensures value { result ≡ local_in first (length values.now) place }
    ensures within { IfSome result (λ k. k < length values.now) }
{
    let local = place.checked_sub(first)?;
    if local < values.len() {
        Some(local)
    } else {
        None
    }
}

/// The place of the state at which the value does something.
fn acting_state(numbering: &Numbering, value: &Value) -> Option<usize>
    ensures { result ≡ acting_place numbering.now value.now }
{
    let _class = class(value)?;
    state_at(numbering, value)
}

/// The place of the state that the value names.
fn state_at(numbering: &Numbering, value: &Value) -> Option<usize>
    ensures { result ≡ state_place numbering.now value.now }
{
    numbering.memory(memory_arg(value)?)
}

/// The argument that names a state of memory: of a result its call, of an op with memory the last.
fn memory_arg(value: &Value) -> Option<u32>
    ensures { result ≡ meant_arg (meant_origin value.now.op.family) value.now }
{
    let args = value.args.as_slice();
    match origin_of(value.op.family) {
        Origin::Result => args.first().copied(),
        _ => last_memory(value),
    }
}

/// The last argument, if the op has memory.
fn last_memory(value: &Value) -> Option<u32>
    ensures { result ≡ (if (info_of value.now.op).memory then last_or None value.now.args else None) }
{
    if op_info(value.op).memory {
        value.args.as_slice().last().copied()
    } else {
        None
    }
}

/// The class of what the value does at a state.
fn class(value: &Value) -> Option<u32>
    ensures { result ≡ class_of value.now }
{
    match origin_of(value.op.family) {
        Origin::Checked => Some(CHECKS),
        Origin::Loaded => Some(LOADS),
        _ if has_effect(value) => Some(NEXT),
        _ => None,
    }
}

fn has_effect(value: &Value) -> bool
    ensures { result ≡ meant_effect value.now }
{
    effect_of(value.op.family, value.ty).is_some()
}
