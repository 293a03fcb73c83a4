// Which words the arguments and results of calls and of the function have.
ghost use Rattle.std.specs.Prelude.{◌≡◌, ◌==◌, ◌&&◌, ◌≤◌, ℕ, IfOk, OnOk, option_map, unwrap_or, None, Some, flat_map, if◌then◌else◌};
ghost use Rattle.std.specs.Option.{option_or};
ghost use Rattle.std.specs.BTreeMap.{get};
ghost use Rattle.std.specs.Ordering.{nat_cmp};
ghost use Rattle.bk_callees.specs.Callees.{AreCallees};
ghost use Rattle.bk_func.specs.Words.{count_words, register_words};
ghost use Rattle.bk_calls.specs.Areas.{plan_of, call_named, end_named, result_named, result_word, is_end, is_key};
ghost use Rattle.bk_calls.specs.Arguments.{arguments_of, argument_number};
ghost use Rattle.bk_calls.specs.Chains.{role, is_call, last, result_key};
ghost use Rattle.bk_calls.specs.Plans.{seen_plan, pair_cmp};

use crate::callees::args_of;
use crate::chains::last;
use crate::role::{Role, role_of};
use crate::turn::result_key;
use bk_callees::Callees;
use bk_func::{Block, Func, Package, Value, count_words, register_words};
use bk_ops::{Target, Ty};
use std::alloc::{AllocError, Global};
use std::collections::BTreeMap;

/// Which words the arguments and results of calls and of the function have.
#[derive(Drop)]
pub(crate) struct Plan {
    /// How many words of arguments, and of results, registers hold.
    pub(crate) registers: u32,
    /// By the place of an argument that a register holds the number of its value.
    pub(crate) arguments: BTreeMap<u32, u32>,
    /// By the number of a call the first word of its results.
    pub(crate) results: BTreeMap<u32, u32>,
    /// By the number of a call and the place of a result that a register holds the number of the first value that is this
    /// result.
    pub(crate) firsts: BTreeMap<(u32, u32), u32>,
    /// By the number of a `MakeResult` without results the memory that it names.
    pub(crate) ends: BTreeMap<u32, u32>,
    /// The first word of the function's own results.
    pub(crate) own: u32,
}

impl Plan {
    /// `arguments` has the numbers of the arguments that registers hold.
    pub(crate) fn new(
        alloc: Global,
        func: &Func,
        pkg: &Package,
        callees: &Callees,
        target: Target,
        arguments: BTreeMap<u32, u32>,
    ) -> Result<Plan, AllocError>
        requires callees { AreCallees pkg.now callees.now }
        requires arguments { (i : ℕ) → get nat_cmp arguments i ≡ argument_number (arguments_of target func.now) i }
        ensures plan { IfOk result (λ plan. seen_plan plan ≡ plan_of pkg.now target func.now) }
        ensures registers { IfOk result (λ plan. plan.registers ≡ register_words target) }
    {
        let results = result_words(alloc, pkg, callees, target, &func.blocks)?;
        let registers = register_count(target);
        let firsts = first_results(alloc, registers, &func.blocks)?;
        let ends = ends(alloc, &func.blocks)?;
        let own = words(target, &func.sig.args)?;
        Ok(Plan {
            registers,
            arguments,
            results,
            firsts,
            ends,
            own,
        })
    }

    /// The number of the argument at this place, which a register holds.
    pub(crate) fn argument(&self, place: u32) -> u32
        ensures { result ≡ (seen_plan self.now).arguments place }
    {
        self.arguments.get(&place).copied().unwrap_or(0)
    }

    /// The first word of the results of the call with this number.
    pub(crate) fn result_word(&self, call: u32) -> u32
        ensures { result ≡ (seen_plan self.now).results call }
    {
        self.results.get(&call).copied().unwrap_or(0)
    }

    /// The number of the first value that is this result, of a call and at a place.
    pub(crate) fn first_result(&self, key: (u32, u32)) -> u32
        ensures { result ≡ (seen_plan self.now).firsts key }
    {
        self.firsts.get(&key).copied().unwrap_or(0)
    }

    /// The memory that a control stands for where what it named goes, else the control.
    pub(crate) fn control(&self, control: u32) -> u32
        ensures { result ≡ unwrap_or ((seen_plan self.now).ends control) control }
    {
        self.ends.get(&control).copied().unwrap_or(control)
    }
}

/// How many words of arguments, and of results, registers hold.
#[tactic(auto, using(crate::proofs::Planned::few_registers))]
pub(crate) fn register_count(target: Target) -> u32
    ensures value { result ≡ register_words target }
    ensures few { result ≤ 8 }
{
    register_words(target) as u32
}

/// The words of numbers of the types.
fn words(target: Target, types: &[Ty]) -> Result<u32, AllocError>
    ensures { IfOk result (λ words. words ≡ count_words target types.now) }
{
    match u32::try_from(count_words(target, types)) {
        Ok(words) => Ok(words),
        Err(_) => Err(AllocError),
    }
}

/// The first word of the results of each call, behind the words of its arguments, by the call's number.
fn result_words(
    alloc: Global,
    pkg: &Package,
    callees: &Callees,
    target: Target,
    blocks: &[Block],
) -> Result<BTreeMap<u32, u32>, AllocError>
    requires { AreCallees pkg.now callees.now }
    ensures { IfOk result (λ map. (n : ℕ) → get nat_cmp map n ≡ option_map (result_word pkg.now target) (call_named (flat_map (λ b. b.values) blocks.now) n)) }
{
    let mut words = BTreeMap::new(alloc);
    for block in blocks {
        note_calls(&mut words, pkg, callees, target, &block.values)?;
    }
    Ok(words)
}

fn note_calls(
    map: &mut BTreeMap<u32, u32>,
    pkg: &Package,
    callees: &Callees,
    target: Target,
    values: &[Value],
) -> Result<(), AllocError>
    requires { AreCallees pkg.now callees.now }
    ensures { OnOk result ((n : ℕ) → get nat_cmp map.new n ≡ option_or (get nat_cmp map.old n) (option_map (result_word pkg.now target) (call_named values.now n))) }
{
    for value in values {
        note_call(map, pkg, callees, target, value)?;
    }
    Ok(())
}

fn note_call(
    map: &mut BTreeMap<u32, u32>,
    pkg: &Package,
    callees: &Callees,
    target: Target,
    value: &Value,
) -> Result<(), AllocError>
    requires { AreCallees pkg.now callees.now }
    ensures { OnOk result ((n : ℕ) → get nat_cmp map.new n ≡ option_or (get nat_cmp map.old n) (if is_call (role value.now) && value.now.id == n then Some (result_word pkg.now target value.now) else None)) }
{
    if role_of(value.op.family) == Role::Call {
        let word = words(target, args_of(callees, pkg, value.aux))?;
        note(map, value.id, word)?;
    }
    Ok(())
}

/// Notes a number under a key that has none yet.
pub(crate) fn note(map: &mut BTreeMap<u32, u32>, key: u32, number: u32) -> Result<(), AllocError>
    ensures { OnOk result ((n : ℕ) → get nat_cmp map.new n ≡ option_or (get nat_cmp map.old n) (if key == n then Some number else None)) }
{
    let first = map.get(&key).copied().unwrap_or(number);
    map.insert(key, first)?;
    Ok(())
}

/// The number of the first value that is each result which a register holds, by the call's number and the place.
fn first_results(
    alloc: Global,
    registers: u32,
    blocks: &[Block],
) -> Result<BTreeMap<(u32, u32), u32>, AllocError>
    ensures { IfOk result (λ map. (k : ℕ × ℕ) → get pair_cmp map k ≡ option_map (λ v. v.id) (result_named registers (flat_map (λ b. b.values) blocks.now) k)) }
{
    let mut firsts = BTreeMap::new(alloc);
    for block in blocks {
        note_results(&mut firsts, registers, &block.values)?;
    }
    Ok(firsts)
}

fn note_results(
    map: &mut BTreeMap<(u32, u32), u32>,
    registers: u32,
    values: &[Value],
) -> Result<(), AllocError>
    ensures { OnOk result ((k : ℕ × ℕ) → get pair_cmp map.new k ≡ option_or (get pair_cmp map.old k) (option_map (λ v. v.id) (result_named registers values.now k))) }
{
    for value in values {
        note_result(map, registers, value)?;
    }
    Ok(())
}

fn note_result(
    map: &mut BTreeMap<(u32, u32), u32>,
    registers: u32,
    value: &Value,
) -> Result<(), AllocError>
    ensures { OnOk result ((k : ℕ × ℕ) → get pair_cmp map.new k ≡ option_or (get pair_cmp map.old k) (if is_key (result_key registers value.now) k then Some value.now.id else None)) }
{
    match result_key(registers, value) {
        Some(key) => note_key(map, key, value.id),
        None => Ok(()),
    }
}

/// Notes a number under a key that has none yet.
fn note_key(
    map: &mut BTreeMap<(u32, u32), u32>,
    key: (u32, u32),
    number: u32,
) -> Result<(), AllocError>
    ensures { OnOk result ((k : ℕ × ℕ) → get pair_cmp map.new k ≡ option_or (get pair_cmp map.old k) (if is_key (Some key) k then Some number else None)) }
{
    let first = map.get(&key).copied().unwrap_or(number);
    map.insert(key, first)?;
    Ok(())
}

/// The memory that each `MakeResult` without results names, by its number.
fn ends(alloc: Global, blocks: &[Block]) -> Result<BTreeMap<u32, u32>, AllocError>
    ensures { IfOk result (λ map. (n : ℕ) → get nat_cmp map n ≡ option_map (λ v. last v.args) (end_named (flat_map (λ b. b.values) blocks.now) n)) }
{
    let mut ends = BTreeMap::new(alloc);
    for block in blocks {
        note_ends(&mut ends, &block.values)?;
    }
    Ok(ends)
}

fn note_ends(map: &mut BTreeMap<u32, u32>, values: &[Value]) -> Result<(), AllocError>
    ensures { OnOk result ((n : ℕ) → get nat_cmp map.new n ≡ option_or (get nat_cmp map.old n) (option_map (λ v. last v.args) (end_named values.now n))) }
{
    for value in values {
        note_end(map, value)?;
    }
    Ok(())
}

fn note_end(map: &mut BTreeMap<u32, u32>, value: &Value) -> Result<(), AllocError>
    ensures { OnOk result ((n : ℕ) → get nat_cmp map.new n ≡ option_or (get nat_cmp map.old n) (if is_end value.now && value.now.id == n then Some (last value.now.args) else None)) }
{
    if is_end(value) {
        note(map, value.id, last(value.args.as_slice()))?;
    }
    Ok(())
}

/// Whether the value ends a function without results.
pub(crate) fn is_end(value: &Value) -> bool
    ensures { result ≡ is_end value.now }
{
    role_of(value.op.family) == Role::Results && value.args.len() <= 1
}
