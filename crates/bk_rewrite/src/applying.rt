// One application of a rule.
ghost use Rattle.bk_rule.specs.declared.trees.Rule.{Rule};
ghost use Rattle.std.specs.Prelude.{◌≡◌, ℕ, slice_get, ◌+◌, ◌-◌, ◌<◌, ◌≤◌, ◌^◌, [], length, sum_by, Some, IfOk, IfErr, OnOk, OnErr};
ghost use Rattle.bk_func.specs.Edits.{greatest_value};
ghost use Rattle.bk_func.specs.Records.{ValueRecord};
ghost use Rattle.bk_rewrite.specs.Places.{value_limit, count_values, value_at, StandsAt, HasNumbers, HasRoom, with_made, with_block};
ghost use Rattle.bk_rewrite.specs.Making.{source, inner, inner_made, root_made, applied, Grows};

use crate::making::{Plan, Stop, VALUE_LIMIT, make_root};
use crate::spots::{Spot, first_spot, value_at};
use bk_func::{Block, Func, RewriteError, Value, greatest_value};
use bk_ops::{Target, Ty};
use bk_rule::{Bound, Rule};
use std::alloc::{AllocError, Global};

/// The greatest number of a value of a function, and how many values it has.
#[derive(Clone, Copy)]
pub(crate) struct Counts {
    pub(crate) greatest: u32,
    pub(crate) values: usize,
}

pub(crate) fn counted(func: &Func) -> Counts
    ensures greatest { result.greatest ≡ greatest_value func.now }
    ensures values { value_limit - result.values ≡ value_limit - count_values func.now }
{
    Counts {
        greatest: greatest_value(func),
        values: count_values(&func.blocks),
    }
}

#[tactic(auto, using(crate::proofs::Sums::count_step, crate::proofs::Sums::count_end))]
pub(crate) fn count_values(blocks: &[Block]) -> usize
    ensures { value_limit - result ≡ value_limit - sum_by (λ b. length b.values) blocks.now }
{
    let mut count = 0usize;
    for block in blocks {
        count = count.saturating_add(value_count(block));
    }
    count
}

fn value_count(block: &Block) -> usize
    ensures { result ≡ length block.now.values }
{
    block.values.len()
}

/// Applies the rule at the place in the list to the value: makes the inner values of its right tree last
/// in the block, from left to right, arguments first, under the numbers after the greatest, and puts its
/// root in place of the value.
///
/// Grown comes where the function would have more than 32,768 values. After a refusal the function is as
/// before.
pub fn apply(
    alloc: Global,
    func: &mut Func,
    rules: &[Rule],
    value: u32,
    place: usize,
    binds: &[Bound],
    target: Target,
) -> Result<(), RewriteError>
    requires numbers { HasNumbers func.old }
    requires room { HasRoom func.old }
    requires value { (b : ℕ) × (p : ℕ) × StandsAt func.old value b p }
    requires rule { place < length rules.now }
    ensures ok { (r : Rule) (b p : ℕ) (v : ValueRecord) → slice_get rules.now place ≡ Some r → value_at func.old b p ≡ Some v → v.id ≡ value → OnOk result (func.new ≡ applied (source func.old binds.now target) r.right b p v) }
    ensures grown { (r : Rule) → slice_get rules.now place ≡ Some r → IfErr result (λ e. e ≡ RewriteError.Grown 32769 → Grows (source func.old binds.now target) r.right) }
    ensures fits { (r : Rule) → slice_get rules.now place ≡ Some r → OnOk result (¬ Grows (source func.old binds.now target) r.right) }
    ensures err { OnErr result (func.new ≡ func.old) }
{
    let rule = &rules[place];
    let Some(spot) = first_spot(func, value) else {
        unreachable!()
    };
    apply_there(alloc, func, rule, spot, binds, target)
}

/// Applies the rule to the value there.
fn apply_there(
    alloc: Global,
    func: &mut Func,
    rule: &Rule,
    spot: Spot,
    binds: &[Bound],
    target: Target,
) -> Result<(), RewriteError>
    requires { HasRoom func.old }
    ensures ok { (v : ValueRecord) → value_at func.old spot.block spot.place ≡ Some v → OnOk result (func.new ≡ applied (source func.old binds.now target) rule.now.right spot.block spot.place v) }
    ensures grown { IfErr result (λ e. e ≡ RewriteError.Grown 32769 → Grows (source func.old binds.now target) rule.now.right) }
    ensures fits { OnOk result (¬ Grows (source func.old binds.now target) rule.now.right) }
    ensures err { OnErr result (func.new ≡ func.old) }
{
    let counts = counted(func);
    match apply_at(alloc, func, rule, spot, binds, target, counts) {
        Ok(_made) => Ok(()),
        Err(Stop::Grown) => Err(RewriteError::Grown { values: 32_769 }),
        Err(Stop::Memory) => Err(RewriteError::Memory),
    }
}

/// Applies the rule to the value there, and gives how many values are new.
#[allow(clippy::too_many_arguments)]
pub(crate) fn apply_at(
    alloc: Global,
    func: &mut Func,
    rule: &Rule,
    spot: Spot,
    binds: &[Bound],
    target: Target,
    counts: Counts,
) -> Result<usize, Stop>
    requires { counts.greatest + (value_limit - counts.values) < 2 ^ 32 }
    ensures ok { (v : ValueRecord) → value_at func.old spot.block spot.place ≡ Some v → counts.greatest ≡ greatest_value func.old → OnOk result (func.new ≡ applied (source func.old binds.now target) rule.now.right spot.block spot.place v) }
    ensures within { IfOk result (λ n. n ≤ value_limit - counts.values) }
    ensures count { counts.greatest ≡ greatest_value func.old → IfOk result (λ n. n ≡ length (inner (source func.old binds.now target) rule.now.right)) }
    ensures fits { counts.greatest ≡ greatest_value func.old → OnOk result (length (inner (source func.old binds.now target) rule.now.right) ≤ value_limit - counts.values) }
    ensures grown { counts.greatest ≡ greatest_value func.old → IfErr result (λ e. e ≡ Stop.Grown → value_limit - counts.values < length (inner (source func.old binds.now target) rule.now.right)) }
    ensures err { OnErr result (func.new ≡ func.old) }
{
    let mut made = Vec::new(alloc);
    let root = plan(alloc, func, rule, spot, binds, target, counts, &mut made)?;
    let count = made.len();
    put(func, spot, root, made)?;
    Ok(count)
}

/// The value that the root of the right tree becomes; the inner values go into the list.
#[allow(clippy::too_many_arguments)]
fn plan(
    alloc: Global,
    func: &Func,
    rule: &Rule,
    spot: Spot,
    binds: &[Bound],
    target: Target,
    counts: Counts,
    made: &mut Vec<Value>,
) -> Result<Value, Stop>
    requires room { counts.greatest + (value_limit - counts.values) < 2 ^ 32 }
    requires empty { made.old.items ≡ [] }
    ensures root { (v : ValueRecord) → value_at func.now spot.block spot.place ≡ Some v → IfOk result (λ r. r ≡ root_made (source func.now binds.now target) v.id v.ty rule.now.right (counts.greatest + 1)) }
    ensures made { OnOk result (made.new.items ≡ inner_made (source func.now binds.now target) rule.now.right (counts.greatest + 1)) }
    ensures within { OnOk result (length made.new.items ≤ value_limit - counts.values) }
    ensures grown { IfErr result (λ e. e ≡ Stop.Grown → value_limit - counts.values < length (inner_made (source func.now binds.now target) rule.now.right (counts.greatest + 1))) }
{
    let plan = Plan {
        func,
        binds,
        target,
        greatest: counts.greatest,
        room: VALUE_LIMIT.saturating_sub(counts.values),
    };
    let (id, ty) = head(func, spot);
    make_root(alloc, &plan, &rule.right, id, ty, made)
}

/// The number and the type of the value there.
fn head(func: &Func, spot: Spot) -> (u32, Ty)
    ensures { (v : ValueRecord) → value_at func.now spot.block spot.place ≡ Some v → (result.0 ≡ v.id) × (result.1 ≡ v.ty) }
{
    match value_at(func, spot) {
        Some(value) => (value.id, value.ty),
        None => (0, Ty::Void),
    }
}

/// Puts the value there, and the others last in its block.
fn put(func: &mut Func, spot: Spot, root: Value, made: Vec<Value>) -> Result<(), AllocError>
    ensures ok { OnOk result (func.new ≡ with_block func.old spot.block (with_made spot.place root made.items)) }
    ensures err { OnErr result (func.new ≡ func.old) }
{
    if spot.block >= func.blocks.len() {
        return Ok(());
    }
    let block = &mut func.blocks[spot.block];
    put_in(block, spot.place, root, made)
}

fn put_in(block: &mut Block, place: usize, root: Value, made: Vec<Value>) -> Result<(), AllocError>
    ensures ok { OnOk result (block.new ≡ with_made place root made.items block.old) }
    ensures err { OnErr result (block.new ≡ block.old) }
{
    let mut made = made;
    block.values.append(&mut made)?;
    if place < block.values.len() {
        block.values[place] = root;
    }
    Ok(())
}
