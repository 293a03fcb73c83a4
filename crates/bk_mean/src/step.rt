// One value of a block in its turn.
ghost use Rattle.std.specs.Prelude.{◌≡◌, ℕ, ◌+◌, ◌<◌, ◌≤◌, ◌%◌, ◌^◌, ◌==◌, None, Some, IfOk, if◌then◌else◌, slice_set};
ghost use Rattle.bk_num.specs.Word.{residue};
ghost use Rattle.bk_ops.specs.Types.{word_width};
ghost use Rattle.bk_ops.specs.Memory.{number_at, with_number, with_zeros};
ghost use Rattle.bk_func.specs.Records.{FuncRecord};
ghost use Rattle.bk_func.specs.Effects.{Effect as Effects, effect_of as meant_effect};
ghost use Rattle.bk_func.specs.Numbers.{Program, Env, loaded, origin_of as meant_origin, number_by, address_of, address_by, read_at, place_of_arg as meant_place, natural as meant_natural, made_of as meant_number};
ghost use Rattle.bk_func.specs.Meaning.{World, Activation, Calls, trapped, fault_by, gives, with_window, moved, done_by, store_size as meant_size, stored_of as meant_stored};
ghost use Rattle.bk_mean.specs.Machine.{arg_number};
ghost use Rattle.bk_mean.specs.Seen.{seen_origin, seen_effect};
ghost use Rattle.bk_mean.specs.Turned.{IsTurn};
ghost use Rattle.bk_mean.specs.Step.{IsNoCall, Reads, Stands, Follows, IsSettled, IsActed, IsCalling, Sees, settled, fault_of, with_words, seeing, after_run, is_store as is_store_op, is_byte_store as is_byte_store_op, size_beside as meant_beside};

use crate::fit::{fitted, word_bits};
use crate::memory::{DATA_BASE, copy_bytes, write_zeros};
use crate::number::{address, arg, at, computed, load_size, made_of, number_at, push_numbers};
use crate::prepare::without_memory;
use crate::ready::ReadyValue;
use crate::role::{Effect, Origin, effect_of, natural, origin_of};
use crate::words::Words;
use bk_func::{Aux, TRAP_BOUNDS, TRAP_NIL, Value};
use bk_num::{load_in, store_in, trunc};
use bk_ops::{ArmOp, Family, Op, RvOp, Target, Ty, size};
use std::alloc::AllocError;

/// What comes after a value.
#[derive(Clone, Copy)]
pub(crate) enum After {
    /// The next value.
    On,
    Trap(u8),
    Wild(u64),
    /// A call of a function.
    Call,
}

/// What a call is on: the target, and the numbers of its arguments.
#[derive(Clone, Copy)]
pub(crate) struct Given<'a> {
    pub(crate) target: Target,
    pub(crate) args: &'a [u64],
}

/// The words of a call: those for its next call, and those that it gives back, of which the first are in
/// registers.
#[derive(Drop)]
pub(crate) struct CallWords {
    pub(crate) out: Words,
    pub(crate) back: Words,
    pub(crate) regs: Vec<u64>,
}

/// Does what the value at a place does.
pub(crate) fn step(
    value: &Value,
    ready: &ReadyValue,
    place: usize,
    given: Given<'_>,
    numbers: &mut [u64],
    window: &mut Vec<u8>,
    words: &mut CallWords,
) -> Result<After, AllocError>
    ensures { IfOk result (λ after. IsTurn (record { target = given.entry.target; args = given.entry.args.now }) value.now ready.now place (record { numbers = numbers.old; window = window.old.items; words = words.old }) (record { numbers = numbers.new; window = window.new.items; words = words.new }) after) }
{
    match effect_of(value.op.family, value.ty) {
        Some(effect) => step_memory(effect, value, ready, given.target, numbers, window, words),
        None => {
            let origin = origin_of(value.op.family);
            Ok(settle(origin, value, ready, place, given, numbers, window))
        }
    }
}

/// Does what a memory value does.
fn step_memory(
    effect: Effect,
    value: &Value,
    ready: &ReadyValue,
    target: Target,
    numbers: &[u64],
    window: &mut Vec<u8>,
    words: &mut CallWords,
) -> Result<After, AllocError>
    ensures effect { IfOk result (λ after. (p : Program) (m : ℕ → ℕ) (calls : Calls) (a : Activation) (w : World) → p.target ≡ target → Reads numbers.now ready.now.args.items m value.now.args → IsActed (seen_effect effect) target value.now → done_by (Some (seen_effect effect)) calls p m value.now (with_words a words.old) (seeing w window.old.items) ≡ after_run after (with_words a words.new) (seeing w window.new.items)) }
    ensures call { IfOk result (λ after. IsCalling (seen_effect effect) → (after ≡ After.Call) × (window.new.items ≡ window.old.items) × (words.new ≡ words.old)) }
    ensures calling { IfOk result (λ after. ¬ IsCalling (seen_effect effect) → IsNoCall after) }
{
    match effect {
        Effect::Call | Effect::CallWords => Ok(After::Call),
        effect => act(effect, value, ready, target, numbers, window, words),
    }
}

/// Gives a value that is no memory value its number.
fn settle(
    origin: Origin,
    value: &Value,
    ready: &ReadyValue,
    place: usize,
    given: Given<'_>,
    numbers: &mut [u64],
    window: &[u8],
) -> After
    ensures on { IsNoCall result }
    ensures fault { (p : Program) (f : FuncRecord) (e : Env) (m : ℕ → ℕ) → Stands p e given.entry.target given.entry.args.now → Reads numbers.old ready.now.args.items m value.now.args → IsSettled (seen_origin origin) given.entry.target value.now → fault_of result ≡ fault_by (seen_origin origin) given.entry.target m window.now value.now }
    ensures number { (p : Program) (f : FuncRecord) (e : Env) (m : ℕ → ℕ) → Stands p e given.entry.target given.entry.args.now → ready.now.address ≡ address_of p.pkg value.now.aux → Reads numbers.old ready.now.args.items m value.now.args → IsSettled (seen_origin origin) given.entry.target value.now → Sees f e window.now (seen_origin origin) value.now → fault_of result ≡ None → numbers.new ≡ settled (seen_origin origin) numbers.old place (number_by (seen_origin origin) p f e m value.now) }
{
    match origin {
        Origin::Phi | Origin::Result => After::On,
        Origin::Loaded => load(value, ready, place, given.target, numbers, window),
        Origin::Checked => check(ready, place, given.target, numbers),
        origin => {
            let number = number(origin, value, ready, given, numbers);
            set(numbers, place, number);
            After::On
        }
    }
}

/// The number of a value that follows from those of its arguments, or from the call.
fn number(
    origin: Origin,
    value: &Value,
    ready: &ReadyValue,
    given: Given<'_>,
    numbers: &[u64],
) -> u64
    ensures { (p : Program) (f : FuncRecord) (e : Env) (m : ℕ → ℕ) → Stands p e given.entry.target given.entry.args.now → ready.now.address ≡ address_of p.pkg value.now.aux → Reads numbers.now ready.now.args.items m value.now.args → Follows (seen_origin origin) value.now → result ≡ number_by (seen_origin origin) p f e m value.now }
{
    let places = ready.args.as_slice();
    match origin {
        Origin::Argument => fitted(
            given.target,
            value.ty,
            at(given.args, place_of_arg(value.aux)),
        ),
        Origin::ArgumentWord => number_at(given.args, natural(value.int)),
        Origin::Address => ready.address,
        Origin::Same => arg(numbers, places, 0),
        Origin::Computed => {
            computed(value.op, value.int, places, numbers, given.target).unwrap_or(0)
        }
        Origin::Phi | Origin::Result | Origin::Loaded | Origin::Checked => 0,
    }
}

/// The argument of the function that stands beside a value.
fn place_of_arg(aux: Aux) -> usize
    ensures { result ≡ meant_place aux }
{
    match aux {
        Aux::Arg(place) => place as usize,
        _ => 0,
    }
}

/// Puts a number in its place, if that is there.
pub(crate) fn set(numbers: &mut [u64], place: usize, number: u64)
    ensures { numbers.new ≡ slice_set numbers.old place number }
{
    if place < numbers.len() {
        numbers[place] = number;
    }
}

/// The number of a pointer that a check finds, or a trap where it is 0.
fn check(ready: &ReadyValue, place: usize, target: Target, numbers: &mut [u64]) -> After
    ensures number { numbers.new ≡ slice_set numbers.old place (arg_number numbers.old ready.now.args.items 0) }
    ensures on { IsNoCall result }
    ensures fault { fault_of result ≡ (if arg_number numbers.old ready.now.args.items 0 % 2 ^ word_width target == 0 then Some (trapped 1) else None) }
{
    let number = arg(numbers, ready.args.as_slice(), 0);
    set(numbers, place, number);
    if trunc(word_bits(target), number) == 0 {
        After::Trap(TRAP_NIL)
    } else {
        After::On
    }
}

fn load(
    value: &Value,
    ready: &ReadyValue,
    place: usize,
    target: Target,
    numbers: &mut [u64],
    window: &[u8],
) -> After
    ensures on { IsNoCall result }
    ensures fault { (m : ℕ → ℕ) → Reads numbers.old ready.now.args.items m value.now.args → IsSettled loaded target value.now → fault_of result ≡ fault_by loaded target m window.now value.now }
    ensures number { (m : ℕ → ℕ) → Reads numbers.old ready.now.args.items m value.now.args → IsSettled loaded target value.now → fault_of result ≡ None → numbers.new ≡ slice_set numbers.old place (meant_number value.now.op.family value.now.ty value.now.op.a (read_at target value.now window.now (address_by target value.now m))) }
{
    let address = address(target, value.int, arg(numbers, ready.args.as_slice(), 0));
    let size = load_size(target, value.ty, value.op).min(8) as usize;
    match load_in(DATA_BASE, window, size, address) {
        Some(read) => {
            set(numbers, place, made_of(value.ty, value.op, read));
            After::On
        }
        None => After::Wild(address),
    }
}

/// Does what a memory value does that calls no function.
fn act(
    effect: Effect,
    value: &Value,
    ready: &ReadyValue,
    target: Target,
    numbers: &[u64],
    window: &mut Vec<u8>,
    words: &mut CallWords,
) -> Result<After, AllocError>
    ensures on { IfOk result (λ after. IsNoCall after) }
    ensures effect { IfOk result (λ after. (p : Program) (m : ℕ → ℕ) (calls : Calls) (a : Activation) (w : World) → p.target ≡ target → Reads numbers.now ready.now.args.items m value.now.args → IsActed (seen_effect effect) target value.now → done_by (Some (seen_effect effect)) calls p m value.now (with_words a words.old) (seeing w window.old.items) ≡ after_run after (with_words a words.new) (seeing w window.new.items)) }
{
    let first = arg(numbers, ready.args.as_slice(), 0);
    let second = arg(numbers, ready.args.as_slice(), 1);
    match effect {
        Effect::Store => Ok(store(value, target, first, second, window)),
        Effect::Zeros => Ok(zeros(value, target, first, window)),
        Effect::Move => Ok(copy(value, target, first, second, window)),
        Effect::PanicBounds => Ok(After::Trap(TRAP_BOUNDS)),
        Effect::OutWord => {
            words.out.set(natural(value.int), first)?;
            Ok(After::On)
        }
        Effect::RetWord => {
            words.back.set(natural(value.int), first)?;
            Ok(After::On)
        }
        Effect::RetWords => {
            words.regs.clear();
            push_numbers(
                &mut words.regs,
                numbers,
                without_memory(ready.args.as_slice()),
            )?;
            Ok(After::On)
        }
        Effect::Trap => Ok(After::Trap(trap(value.int))),
        Effect::Pass | Effect::Call | Effect::CallWords => Ok(After::On),
    }
}

/// The number of a trap.
fn trap(int: i64) -> u8
    ensures { meant_natural int < 256 → result ≡ meant_natural int }
{
    natural(int).min(255) as u8
}

fn store(value: &Value, target: Target, pointer: u64, number: u64, window: &mut Vec<u8>) -> After
    ensures on { IsNoCall result }
    ensures done { (a : Activation) (w : World) → meant_size target value.now.aux value.now.op value.now.op.family ≤ 8 → (let at = (pointer + residue (word_width target) value.now.int) % 2 ^ word_width target in with_window (with_number window.old.items (meant_size target value.now.aux value.now.op value.now.op.family) at (meant_stored value.now.aux value.now.op.family number)) at a (seeing w window.old.items) ≡ after_run result a (seeing w window.new.items)) }
{
    let address = address(target, value.int, pointer);
    let size = store_size(target, value.aux, value.op).min(8) as usize;
    let stored = stored_of(value.aux, value.op, number);
    if store_in(DATA_BASE, window, size, address, stored) {
        After::On
    } else {
        After::Wild(address)
    }
}

/// How many bytes a store writes.
fn store_size(target: Target, aux: Aux, op: Op) -> u32
    ensures { result ≡ meant_size target aux op op.family }
{
    if is_store(op.family) {
        return size_beside(target, aux);
    }
    if is_byte_store(op.family) {
        return 1;
    }
    u32::from(op.a)
}

fn is_store(family: Family) -> bool
    ensures { result ≡ is_store_op family }
{
    match family {
        Family::Store => true,
        _ => false,
    }
}

fn is_byte_store(family: Family) -> bool
    ensures { result ≡ is_byte_store_op family }
{
    match family {
        Family::Arm(ArmOp::StoreB) | Family::Rv(RvOp::StoreB) => true,
        _ => false,
    }
}

fn size_beside(target: Target, aux: Aux) -> u32
    ensures { result ≡ meant_beside target aux }
{
    match aux {
        Aux::Ty(ty) => size(ty, target),
        _ => 0,
    }
}

/// The number that a store writes.
fn stored_of(aux: Aux, op: Op, number: u64) -> u64
    ensures { result ≡ meant_stored aux op.family number }
{
    match op.family {
        Family::Store => match aux {
            Aux::Ty(Ty::Bool) => number % 2,
            _ => number,
        },
        Family::Arm(ArmOp::StoreB) | Family::Rv(RvOp::StoreB) => number % 2,
        _ => number,
    }
}

fn zeros(value: &Value, target: Target, pointer: u64, window: &mut Vec<u8>) -> After
    ensures on { IsNoCall result }
    ensures done { (a : Activation) (w : World) → (let to = pointer % 2 ^ word_width target in (if meant_natural value.now.int == 0 then gives a (seeing w window.old.items) else with_window (with_zeros window.old.items (meant_natural value.now.int) to) to a (seeing w window.old.items)) ≡ after_run result a (seeing w window.new.items)) }
{
    let count = natural(value.int);
    if count == 0 {
        return After::On;
    }
    let to = trunc(word_bits(target), pointer);
    if write_zeros(window, count, to) {
        After::On
    } else {
        After::Wild(to)
    }
}

fn copy(value: &Value, target: Target, to: u64, from: u64, window: &mut Vec<u8>) -> After
    ensures on { IsNoCall result }
    ensures done { (a : Activation) (w : World) → (let to = to % 2 ^ word_width target in let from = from % 2 ^ word_width target in (if meant_natural value.now.int == 0 then gives a (seeing w window.old.items) else moved (number_at window.old.items (meant_natural value.now.int) from) (meant_natural value.now.int) to from a (seeing w window.old.items)) ≡ after_run result a (seeing w window.new.items)) }
{
    let count = natural(value.int);
    if count == 0 {
        return After::On;
    }
    let word = word_bits(target);
    match copy_bytes(window, count, trunc(word, to), trunc(word, from)) {
        None => After::On,
        Some(address) => After::Wild(address),
    }
}
