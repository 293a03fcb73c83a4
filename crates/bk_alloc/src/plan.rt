// The blocks of a function as they are allocated.
ghost use Rattle.std.specs.Prelude.{◌≡◌, ◌++◌, ◌||◌, [], ◌∷◌, ℕ, count_by, filter, map, option_copied, option_map, OnOk, IfOk};
ghost use Rattle.std.specs.BTreeSet.{contains};
ghost use Rattle.std.specs.List.{list_any};
ghost use Rattle.std.specs.Ordering.{nat_cmp};
ghost use Rattle.bk_func.specs.Numbers.{value_in};
ghost use Rattle.bk_alloc.specs.Blocks.{phi_of};
ghost use Rattle.bk_alloc.specs.Places.{AreFirst};
ghost use Rattle.bk_alloc.specs.Placement as spec;
ghost use Rattle.bk_alloc.specs.Plans.{ArePlans};

use crate::acts::{Role, Task};
use crate::places::note;
use bk_func::{Block, Kind, Value};
use bk_ops::{Family, Ty, is_nil_check, is_phi};
use smallvec::SmallVec;
use std::alloc::{AllocError, Global};
use std::collections::{BTreeMap, BTreeSet};
use std::marker::Model;

/// A phi that is a word.
#[derive(Drop)]
pub struct Phi {
    pub value: u32,
    pub args: SmallVec<u32, 4>,
}

impl Model for Phi {
    ghost use Rattle.bk_alloc.specs.Blocks.{PhiRecord};

    ghost Value = { PhiRecord };

    ghost view = { λ p. record { value = p.value; args = p.args.items } };
}

/// A block as it is allocated.
#[derive(Drop)]
pub struct Plan {
    pub id: u32,
    pub kind: Kind,
    /// The phis that are words.
    pub phis: Vec<Phi>,
    /// How many entries of the block's order are phis.
    pub skipped: usize,
    /// The other values.
    pub tasks: Vec<Task>,
    /// The length of the block's order.
    pub size: usize,
    /// The control of an `If`.
    pub control: Option<u32>,
    pub preds: Vec<u32>,
    pub succs: Vec<u32>,
}

impl Model for Plan {
    ghost use Rattle.bk_alloc.specs.Blocks.{PlanRecord};

    ghost Value = { PlanRecord };

    ghost view = { λ p. record {
      id = p.id;
      kind = p.kind;
      phis = p.phis.items;
      skipped = p.skipped;
      tasks = p.tasks.items;
      size = p.size;
      control = p.control;
      preds = p.preds.items;
      succs = p.succs.items;
    } };
}

/// The blocks of a function with their orders, by number.
#[derive(Drop)]
pub struct Plans<'a> {
    pub blocks: &'a [Block],
    pub orders: &'a [Vec<u32>],
    /// The numbers of the values that are words.
    pub words: BTreeSet<u32>,
    /// For each number of a block its first place.
    pub places: BTreeMap<u32, usize>,
}

impl<'a> Plans<'a> {
    pub(crate) fn new(
        alloc: Global,
        blocks: &'a [Block],
        orders: &'a [Vec<u32>],
    ) -> Result<Plans<'a>, AllocError>
        ensures plans { IfOk result ArePlans }
        ensures blocks { IfOk result (λ plans. plans.blocks.now ≡ blocks.now) }
        ensures orders { IfOk result (λ plans. plans.orders.now ≡ orders.now) }
    {
        Ok(Plans {
            blocks,
            orders,
            words: words(alloc, blocks)?,
            places: block_places(alloc, blocks)?,
        })
    }

    /// The block with this number, if it is there and has an order.
    pub(crate) fn plan(&self, alloc: Global, number: u32) -> Result<Option<Plan>, AllocError>
        requires { ArePlans self.now }
        ensures { IfOk result (λ plan. plan ≡ spec.planned self.now.blocks.now (map (λ o. o.items) self.now.orders.now) number) }
    {
        match self.places.get(&number).copied() {
            Some(place) => self.plan_at(alloc, place),
            None => Ok(None),
        }
    }

    fn plan_at(&self, alloc: Global, place: usize) -> Result<Option<Plan>, AllocError>
        requires { ArePlans self.now }
        ensures { IfOk result (λ plan. plan ≡ spec.plan_at self.now.blocks.now (map (λ o. o.items) self.now.orders.now) place) }
    {
        let block = self.blocks.get(place);
        let order = self.orders.get(place);
        plan_by(alloc, &self.words, block, order)
    }
}

fn plan_by(
    alloc: Global,
    words: &BTreeSet<u32>,
    block: Option<&Block>,
    order: Option<&Vec<u32>>,
) -> Result<Option<Plan>, AllocError>
    ensures { IfOk result (λ plan. plan ≡ spec.plan_by (contains nat_cmp words.now) (option_copied block.entry) (option_map (λ o. o.items) (option_copied order.entry))) }
{
    match (block, order) {
        (Some(block), Some(order)) => {
            let plan = plan_of(alloc, words, block, order)?;
            Ok(Some(plan))
        }
        _ => Ok(None),
    }
}

/// The first place of each number of a block.
fn block_places(alloc: Global, blocks: &[Block]) -> Result<BTreeMap<u32, usize>, AllocError>
    ensures { IfOk result (AreFirst (λ b. b.id) blocks.now) }
{
    let mut places = BTreeMap::new(alloc);
    for (place, block) in blocks.iter().enumerate() {
        note(&mut places, block.id, place)?;
    }
    Ok(places)
}

/// The numbers of the values that are words.
fn words(alloc: Global, blocks: &[Block]) -> Result<BTreeSet<u32>, AllocError>
    ensures { IfOk result (λ words. (n : ℕ) → contains nat_cmp words n ≡ spec.is_word blocks.now n) }
{
    let mut words = BTreeSet::new(alloc);
    for block in blocks {
        add_words(&mut words, &block.values)?;
    }
    Ok(words)
}

fn add_words(words: &mut BTreeSet<u32>, values: &[Value]) -> Result<(), AllocError>
    ensures { OnOk result ((n : ℕ) → contains nat_cmp words.new n ≡ (contains nat_cmp words.old n || list_any (spec.is_word_named n) values.now)) }
{
    for value in values {
        add_word(words, value)?;
    }
    Ok(())
}

fn add_word(words: &mut BTreeSet<u32>, value: &Value) -> Result<(), AllocError>
    ensures { OnOk result ((n : ℕ) → contains nat_cmp words.new n ≡ (contains nat_cmp words.old n || spec.is_word_named n value.now)) }
{
    if has_word(value) {
        words.insert(value.id)?;
    }
    Ok(())
}

/// Memory, nil checks and the results of a call together take no register and no slot.
fn has_word(value: &Value) -> bool
    ensures { result ≡ spec.has_word value.now }
{
    !matches!(value.ty, Ty::Mem | Ty::Void | Ty::Tuple) && !is_nil_check(value.op.family)
}

/// How a value comes to be.
fn role_of(value: &Value) -> Role
    ensures { result ≡ spec.role_of value.now }
{
    match value.op.family {
        Family::ArgReg | Family::ResReg => Role::Taken(u64::try_from(value.int).unwrap_or(0)),
        Family::Call | Family::CallRegs => Role::Calls,
        Family::RetRegs => Role::Leaves,
        _ => Role::Plain,
    }
}

/// The first place of each number of a value.
fn value_places(alloc: Global, values: &[Value]) -> Result<BTreeMap<u32, usize>, AllocError>
    ensures { IfOk result (AreFirst (λ v. v.id) values.now) }
{
    let mut places = BTreeMap::new(alloc);
    for (place, value) in values.iter().enumerate() {
        note(&mut places, value.id, place)?;
    }
    Ok(places)
}

fn copy_numbers(alloc: Global, numbers: &[u32]) -> Result<Vec<u32>, AllocError>
    ensures { IfOk result (λ copy. copy.items ≡ numbers.now) }
{
    let mut copy = Vec::new(alloc);
    copy.extend_from_slice(numbers)?;
    Ok(copy)
}

fn control_of(block: &Block) -> Option<u32>
    ensures { result ≡ spec.control_of block.now.kind block.now.control }
{
    match block.kind {
        Kind::If => block.control,
        _ => None,
    }
}

/// The values of a block in its order.
fn ordered<'a>(
    alloc: Global,
    values: &'a [Value],
    order: &[u32],
) -> Result<Vec<&'a Value>, AllocError>
    ensures { IfOk result (λ list. map (λ v. v.now) list.items ≡ spec.ordered values.now order.now) }
{
    let places = value_places(alloc, values)?;
    let mut list = Vec::new(alloc);
    for number in order {
        push_named(values, &places, &mut list, *number)?;
    }
    Ok(list)
}

/// Adds the first value with this number, if there is one.
fn push_named<'a>(
    values: &'a [Value],
    places: &BTreeMap<u32, usize>,
    list: &mut Vec<&'a Value>,
    number: u32,
) -> Result<(), AllocError>
    requires { AreFirst (λ v. v.id) values.now places.now }
    ensures { OnOk result (map (λ v. v.now) list.new.items ≡ map (λ v. v.now) list.old.items ++ spec.ordered values.now (number ∷ [])) }
{
    if let Some(value) = value_named(values, places, number) {
        list.push(value)?;
    }
    Ok(())
}

/// The first value with this number.
fn value_named<'a>(
    values: &'a [Value],
    places: &BTreeMap<u32, usize>,
    number: u32,
) -> Option<&'a Value>
    requires { AreFirst (λ v. v.id) values.now places.now }
    ensures { option_copied result ≡ value_in values.now number }
{
    match places.get(&number).copied() {
        Some(place) => values.get(place),
        None => None,
    }
}

fn plan_of(
    alloc: Global,
    words: &BTreeSet<u32>,
    block: &Block,
    order: &[u32],
) -> Result<Plan, AllocError>
    ensures { IfOk result (λ plan. plan ≡ spec.plan_of (contains nat_cmp words.now) block.now order.now) }
{
    let values = ordered(alloc, &block.values, order)?;
    Ok(Plan {
        id: block.id,
        kind: block.kind,
        phis: phis_of(alloc, &values)?,
        skipped: count_phis(&values),
        tasks: tasks_of(alloc, words, &values)?,
        size: order.len(),
        control: control_of(block),
        preds: copy_numbers(alloc, &block.preds)?,
        succs: copy_numbers(alloc, &block.succs)?,
    })
}

/// The phis that are words.
fn phis_of(alloc: Global, values: &[&Value]) -> Result<Vec<Phi>, AllocError>
    ensures { IfOk result (λ phis. phis.items ≡ map phi_of (filter spec.is_word_phi (map (λ v. v.now) values.now))) }
{
    let mut phis = Vec::new(alloc);
    for value in values {
        push_phi(alloc, &mut phis, value)?;
    }
    Ok(phis)
}

fn push_phi(alloc: Global, phis: &mut Vec<Phi>, value: &Value) -> Result<(), AllocError>
    ensures { OnOk result (phis.new.items ≡ phis.old.items ++ map phi_of (filter spec.is_word_phi (value.now ∷ []))) }
{
    if is_phi(value.op.family) && has_word(value) {
        phis.push(Phi {
            value: value.id,
            args: SmallVec::from_slice(alloc, value.args.as_slice())?,
        })?;
    }
    Ok(())
}

fn count_phis(values: &[&Value]) -> usize
    ensures { result ≡ count_by spec.is_phi_value (map (λ v. v.now) values.now) }
{
    let mut count = 0;
    for value in values {
        if is_phi_value(value) {
            count += 1;
        }
    }
    count
}

fn is_phi_value(value: &Value) -> bool
    ensures { result ≡ spec.is_phi_value value.now }
{
    is_phi(value.op.family)
}

/// The values that are no phis.
fn tasks_of(
    alloc: Global,
    words: &BTreeSet<u32>,
    values: &[&Value],
) -> Result<Vec<Task>, AllocError>
    ensures { IfOk result (λ tasks. tasks.items ≡ map (spec.task_of (contains nat_cmp words.now)) (filter spec.is_scheduled (map (λ v. v.now) values.now))) }
{
    let mut tasks = Vec::new(alloc);
    for value in values {
        push_task(alloc, words, &mut tasks, value)?;
    }
    Ok(tasks)
}

fn push_task(
    alloc: Global,
    words: &BTreeSet<u32>,
    tasks: &mut Vec<Task>,
    value: &Value,
) -> Result<(), AllocError>
    ensures { OnOk result (tasks.new.items ≡ tasks.old.items ++ map (spec.task_of (contains nat_cmp words.now)) (filter spec.is_scheduled (value.now ∷ []))) }
{
    if !is_phi_value(value) {
        tasks.push(task_of(alloc, words, value)?)?;
    }
    Ok(())
}

fn task_of(alloc: Global, words: &BTreeSet<u32>, value: &Value) -> Result<Task, AllocError>
    ensures { IfOk result (λ task. task ≡ spec.task_of (contains nat_cmp words.now) value.now) }
{
    Ok(Task {
        value: value.id,
        role: role_of(value),
        args: words_among(alloc, words, value.args.as_slice())?,
        gives: has_word(value),
    })
}

/// The numbers that are those of words.
fn words_among(
    alloc: Global,
    words: &BTreeSet<u32>,
    numbers: &[u32],
) -> Result<SmallVec<u32, 4>, AllocError>
    ensures { IfOk result (λ list. list.items ≡ filter (contains nat_cmp words.now) numbers.now) }
{
    let mut list = SmallVec::new(alloc);
    for number in numbers {
        push_word(words, &mut list, *number)?;
    }
    Ok(list)
}

fn push_word(
    words: &BTreeSet<u32>,
    list: &mut SmallVec<u32, 4>,
    number: u32,
) -> Result<(), AllocError>
    ensures { OnOk result (list.new.items ≡ list.old.items ++ filter (contains nat_cmp words.now) (number ∷ [])) }
{
    if words.contains(&number) {
        list.push(number)?;
    }
    Ok(())
}
