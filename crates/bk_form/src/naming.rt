// What values name of memory.
ghost use Rattle.std.specs.Prelude.{◌≡◌, ◌↔◌, ℕ, IfOk, IsTrue, MatchOption, Some, true};
ghost use Rattle.std.specs.List.{Contains};
ghost use Rattle.bk_ops.specs.declared.family.Family.TheVariants.{InitMem};
ghost use Rattle.bk_func.specs.Records.{BlockRecord, ValueRecord};
ghost use Rattle.bk_func.specs.Form.Text.{HasValue, IsFirstIn};
ghost use Rattle.bk_places.specs.Named.{NamesBy, NamesFirst};
ghost use Rattle.bk_form.specs.Chains.{AreHomes, AreNamed};
ghost use Rattle.bk_form.specs.Naming.{GivesMemory, GivesState, IsFirstOf, NamesIf};
ghost use Rattle.bk_form.specs.Roots.{AreRoots};
ghost use Rattle.bk_form.specs.Walks.{IsFlow};

use crate::flow::Flow;
use crate::places::Node;
use bk_func::{Block, Func, Value};
use bk_ops::{Family, Ty};
use bk_places::memory_argument;
use std::alloc::{AllocError, Global};

/// The place of the state that a value of the function names.
pub(crate) fn named(flow: &Flow, roots: &[Option<usize>], value: &Value) -> Option<usize>
    requires flow { IsFlow flow.now }
    requires roots { AreRoots flow.now.scope.func.now roots.now }
    requires value { (b : BlockRecord) × HasValue flow.now.scope.func.now b value.now }
    ensures { NamesIf flow.now.scope.func.now value.now result }
{
    let argument = memory_argument(value);
    let Some(id) = argument else { return None };
    let found = flow.scope.numbers.value(id);
    let Some(place) = found else { return None };
    roots.get(place).copied().unwrap_or(None)
}

/// For each value the place of the state that it names.
pub(crate) fn names(
    alloc: Global,
    flow: &Flow,
    roots: &[Option<usize>],
) -> Result<Vec<Option<usize>>, AllocError>
    requires flow { IsFlow flow.now }
    requires roots { AreRoots flow.now.scope.func.now roots.now }
    ensures { IfOk result (λ names. AreNamed flow.now.scope.func.now names.items) }
{
    let mut names = Vec::with_capacity(alloc, flow.nodes.len())?;
    for node in &flow.nodes {
        let name = named(flow, roots, node.value);
        names.push(name)?;
    }
    Ok(names)
}

/// For each state the place of its block, given the number of the first state of all.
pub(crate) fn homes(
    alloc: Global,
    flow: &Flow,
    initial: Option<u32>,
) -> Result<Vec<Option<usize>>, AllocError>
    requires flow { IsFlow flow.now }
    requires initial { IsFirstOf flow.now.scope.func.now initial }
    ensures { IfOk result (λ homes. AreHomes flow.now.scope.func.now homes.items) }
{
    let mut homes = Vec::with_capacity(alloc, flow.nodes.len())?;
    for node in &flow.nodes {
        let home = state_home(node, initial);
        homes.push(home)?;
    }
    Ok(homes)
}

/// The place of the block of a value that is a state.
fn state_home(node: &Node, initial: Option<u32>) -> Option<usize>
    ensures { (i : ℕ) → (result ≡ Some i) ↔ (GivesState node.now.value initial × (node.now.home ≡ i)) }
{
    if is_state(node.value, initial) {
        Some(node.home)
    } else {
        None
    }
}

/// Whether the value of the function gives a state of memory: a call, or a value of memory that is neither a
/// copy nor the results of the function; of the first states only the first of all, whose number is given.
pub(crate) fn is_state(value: &Value, initial: Option<u32>) -> bool
    ensures { IsTrue result ↔ GivesState value.now initial }
{
    gives_state(value) && is_first_init(value, initial)
}

fn gives_state(value: &Value) -> bool
    ensures { IsTrue result ↔ GivesMemory value.now }
{
    match value.op.family {
        Family::Copy | Family::MakeResult => false,
        Family::StaticLECall => true,
        _ => value.ty == Ty::Mem,
    }
}

/// Whether the value is no first state, or the one with the number.
pub(crate) fn is_first_init(value: &Value, initial: Option<u32>) -> bool
    ensures { IsTrue result ↔ (value.now.op.family ≡ InitMem → initial ≡ Some value.now.id) }
{
    match value.op.family {
        Family::InitMem => initial == Some(value.id),
        _ => true,
    }
}

/// The number of the first `InitMem` of the entry.
pub(crate) fn first_init(func: &Func) -> Option<u32>
    ensures { IsFirstOf func.now result }
{
    let blocks: &[Block] = &func.blocks;
    let entry = blocks.get(0);
    let Some(block) = entry else { return None };
    init_in(block)
}

/// The number of the first `InitMem` of the block.
pub(crate) fn init_in(block: &Block) -> Option<u32>
    ensures { MatchOption result ((v : ValueRecord) → Contains block.now.values v → ¬ (v.op.family ≡ InitMem)) (λ n. (v : ValueRecord) × IsFirstIn (λ u. u.op.family ≡ InitMem) block.now.values v × (v.id ≡ n)) }
{
    for value in &block.values {
        let is_init = is_init(value);
        if is_init {
            return Some(value.id);
        }
    }
    None
}

fn is_init(value: &Value) -> bool
    ensures { IsTrue result ↔ (value.now.op.family ≡ InitMem) }
{
    match value.op.family {
        Family::InitMem => true,
        _ => false,
    }
}
