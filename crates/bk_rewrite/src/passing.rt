// Passes over a function.
ghost use Rattle.std.specs.Prelude.{◌≡◌, ℕ, ◌+◌, ◌-◌, ◌<◌, ◌^◌, ◌++◌, ◌∷◌, [], ◌⊎◌, Some, true, false, map, slice_get, IfOk, IfErr, OnOk};
ghost use Rattle.std.specs.List.{flat_map};
ghost use Rattle.bk_func.specs.Numbers.{value_of};
ghost use Rattle.bk_func.specs.Records.{ValueRecord, FuncRecord};
ghost use Rattle.bk_rewrite.specs.Places.{value_limit, value_at, with_block, HasNumbers, HasRoom};
ghost use Rattle.bk_rewrite.specs.Roots.{IsIndex};
ghost use Rattle.bk_rewrite.specs.Passes.{first_or, copied, copied_in, with_args, with_value, with_looked_through, Stands, Tries, Exceeds, Visits, Stops, VisitsEach, StopsAmong, IsPass, PassExceeds, Settles, Changes, Outgrows, IsCounted};

use crate::applying::{Counts, apply_at, counted};
use crate::finding::{Ruled, Site, find};
use crate::making::{Stop, push_arg, refusal};
use crate::roots::{Index, index_rules};
use crate::same::same_func;
use crate::spots::{Spot, Spots, value_at};
use bk_func::{Block, Func, RewriteError, Value, copy_func};
use bk_ops::{Family, Target};
use bk_rule::Rule;
use smallvec::SmallVec;
use std::alloc::{AllocError, Global};

/// Visits each value once, in the order of the blocks and of their values as they stand at the start, and
/// says whether the function changed.
///
/// At a value, each argument that is a Copy is first replaced by what that Copy copies. Then the first
/// rule that matches is applied once. Grown comes where the function would have more than 32,768 values.
/// After a refusal the function is unfinished.
pub fn pass(
    alloc: Global,
    func: &mut Func,
    rules: &[Rule],
    target: Target,
) -> Result<bool, RewriteError>
    requires { HasRoom func.old }
    ensures passed { HasNumbers func.old → OnOk result (IsPass target rules.now func.old func.new) }
    ensures grown { HasNumbers func.old → IfErr result (λ e. e ≡ RewriteError.Grown 32769 → PassExceeds target rules.now func.old) }
    ensures changed { IfOk result (λ changed. changed ≡ true → func.new ≡ func.old → ⊥) }
    ensures unchanged { IfOk result (λ changed. changed ≡ false → func.new ≡ func.old) }
    ensures refused { IfErr result (λ e. (e ≡ RewriteError.Memory) ⊎ (e ≡ RewriteError.Grown 32769)) }
{
    let Ok(index) = index_rules(alloc, rules) else {
        return Err(RewriteError::Memory);
    };
    let ruled = Ruled {
        rules,
        index: &index,
    };
    let counts = counted(func);
    match try_pass(alloc, func, &ruled, target, counts) {
        Ok(passed) => Ok(passed.changed),
        Err(stop) => Err(refusal(stop)),
    }
}

/// Makes passes until one changes nothing.
///
/// Passes comes where each of the first 64 passes, and as many more as the function had values in its
/// text, changed something; Grown where a pass refuses. After a refusal the function is gone.
pub fn rewrite(
    alloc: Global,
    func: Func,
    rules: &[Rule],
    target: Target,
) -> Result<Func, RewriteError>
    requires { HasRoom func }
    ensures settled { HasNumbers func → IfOk result (λ g. Settles target rules.now (64 + func.given) func g) }
    ensures passes { HasNumbers func → IfErr result (λ e. e ≡ RewriteError.Passes (64 + func.given) → (g : FuncRecord) × Changes target rules.now (64 + func.given) func g) }
    ensures grown { HasNumbers func → IfErr result (λ e. e ≡ RewriteError.Grown 32769 → Outgrows target rules.now (64 + func.given) func) }
    ensures refused { IfErr result (λ e. (e ≡ RewriteError.Memory) ⊎ ((e ≡ RewriteError.Grown 32769) ⊎ (e ≡ RewriteError.Passes (64 + func.given)))) }
{
    let Ok(index) = index_rules(alloc, rules) else {
        return Err(RewriteError::Memory);
    };
    rewrite_by(alloc, func, rules, &index, target)
}

/// The same by the index of the rules, which serves any count of functions.
pub fn rewrite_by(
    alloc: Global,
    func: Func,
    rules: &[Rule],
    index: &Index,
    target: Target,
) -> Result<Func, RewriteError>
    requires room { HasRoom func }
    requires index { IsIndex rules.now index.now }
    ensures settled { HasNumbers func → IfOk result (λ g. Settles target rules.now (64 + func.given) func g) }
    ensures passes { HasNumbers func → IfErr result (λ e. e ≡ RewriteError.Passes (64 + func.given) → (g : FuncRecord) × Changes target rules.now (64 + func.given) func g) }
    ensures grown { HasNumbers func → IfErr result (λ e. e ≡ RewriteError.Grown 32769 → Outgrows target rules.now (64 + func.given) func) }
    ensures refused { IfErr result (λ e. (e ≡ RewriteError.Memory) ⊎ ((e ≡ RewriteError.Grown 32769) ⊎ (e ≡ RewriteError.Passes (64 + func.given)))) }
{
    let ruled = Ruled { rules, index };
    let mut func = func;
    let mut counts = counted(&func);
    let limit = 64 + func.given as u64;
    for _pass in 0..limit {
        match try_pass(alloc, &mut func, &ruled, target, counts) {
            Ok(passed) => {
                if !passed.changed {
                    return Ok(func);
                }
                counts = passed.counts;
            }
            Err(stop) => return Err(refusal(stop)),
        }
    }
    Err(RewriteError::Passes { n: limit })
}

/// Whether a pass changed the function, and its counts afterwards.
#[derive(Clone, Copy)]
struct Passed {
    changed: bool,
    counts: Counts,
}

fn try_pass(
    alloc: Global,
    func: &mut Func,
    ruled: &Ruled,
    target: Target,
    counts: Counts,
) -> Result<Passed, Stop>
    requires room { counts.greatest + (value_limit - counts.values) < 2 ^ 32 }
    requires index { IsIndex ruled.now.rules.now ruled.now.index.now }
    ensures room { IfOk result (λ passed. passed.counts.greatest + (value_limit - passed.counts.values) < 2 ^ 32) }
    ensures counted { IsCounted counts.greatest (value_limit - counts.values) func.old → IfOk result (λ passed. IsCounted passed.counts.greatest (value_limit - passed.counts.values) func.new) }
    ensures passed { IsCounted counts.greatest (value_limit - counts.values) func.old → OnOk result (IsPass target ruled.now.rules.now func.old func.new) }
    ensures exceeds { IsCounted counts.greatest (value_limit - counts.values) func.old → IfErr result (λ e. e ≡ Stop.Grown → PassExceeds target ruled.now.rules.now func.old) }
    ensures changed { IfOk result (λ passed. passed.changed ≡ true → func.new ≡ func.old → ⊥) }
    ensures unchanged { IfOk result (λ passed. passed.changed ≡ false → func.new ≡ func.old) }
{
    let before = copy(alloc, func)?;
    let ids = value_ids(alloc, &func.blocks)?;
    let counts = visit_all(alloc, func, ruled, &ids, target, counts)?;
    let changed = !same_func(&before, func);
    Ok(Passed { changed, counts })
}

fn copy(alloc: Global, func: &Func) -> Result<Func, Stop>
    ensures copy { IfOk result (λ copy. copy ≡ func.now) }
    ensures memory { IfErr result (λ e. e ≡ Stop.Memory) }
{
    match copy_func(alloc, func) {
        Ok(copy) => Ok(copy),
        Err(_memory) => Err(Stop::Memory),
    }
}

#[tactic(auto, using(crate::proofs::Turns::ids_on, crate::proofs::Turns::ids_end))]
fn value_ids(alloc: Global, blocks: &[Block]) -> Result<Vec<u32>, AllocError>
    ensures { IfOk result (λ ids. ids.items ≡ map (λ v. v.id) (flat_map (λ b. b.values) blocks.now)) }
{
    let mut ids = Vec::new(alloc);
    for block in blocks {
        push_ids(&mut ids, &block.values)?;
    }
    Ok(ids)
}

#[tactic(auto, using(crate::proofs::Turns::mapped_on, crate::proofs::Turns::mapped_end))]
fn push_ids(ids: &mut Vec<u32>, values: &[Value]) -> Result<(), AllocError>
    ensures { OnOk result (ids.new.items ≡ ids.old.items ++ map (λ v. v.id) values.now) }
{
    for value in values {
        push_id(ids, value)?;
    }
    Ok(())
}

fn push_id(ids: &mut Vec<u32>, value: &Value) -> Result<(), AllocError>
    ensures { OnOk result (ids.new.items ≡ ids.old.items ++ value.now.id ∷ []) }
{
    ids.push(value.id)?;
    Ok(())
}

fn visit_all(
    alloc: Global,
    func: &mut Func,
    ruled: &Ruled,
    ids: &[u32],
    target: Target,
    counts: Counts,
) -> Result<Counts, Stop>
    requires room { counts.greatest + (value_limit - counts.values) < 2 ^ 32 }
    requires index { IsIndex ruled.now.rules.now ruled.now.index.now }
    ensures room { IfOk result (λ now. now.greatest + (value_limit - now.values) < 2 ^ 32) }
    ensures counted { IsCounted counts.greatest (value_limit - counts.values) func.old → IfOk result (λ now. IsCounted now.greatest (value_limit - now.values) func.new) }
    ensures visits { IsCounted counts.greatest (value_limit - counts.values) func.old → OnOk result (VisitsEach target ruled.now.rules.now ids.now func.old func.new) }
    ensures stops { IsCounted counts.greatest (value_limit - counts.values) func.old → IfErr result (λ e. e ≡ Stop.Grown → StopsAmong target ruled.now.rules.now ids.now func.old) }
{
    let mut spots = Spots::new(alloc, func)?;
    let mut counts = counts;
    for id in ids {
        counts = visit(alloc, func, &mut spots, ruled, *id, target, counts)?;
    }
    Ok(counts)
}

/// Visits the value with this number, and gives the counts of the function afterwards.
fn visit(
    alloc: Global,
    func: &mut Func,
    spots: &mut Spots,
    ruled: &Ruled,
    id: u32,
    target: Target,
    counts: Counts,
) -> Result<Counts, Stop>
    requires room { counts.greatest + (value_limit - counts.values) < 2 ^ 32 }
    requires index { IsIndex ruled.now.rules.now ruled.now.index.now }
    ensures room { IfOk result (λ now. now.greatest + (value_limit - now.values) < 2 ^ 32) }
    ensures counted { IsCounted counts.greatest (value_limit - counts.values) func.old → IfOk result (λ now. IsCounted now.greatest (value_limit - now.values) func.new) }
    ensures visits { IsCounted counts.greatest (value_limit - counts.values) func.old → OnOk result (Visits target ruled.now.rules.now func.old id func.new) }
    ensures stops { IsCounted counts.greatest (value_limit - counts.values) func.old → IfErr result (λ e. e ≡ Stop.Grown → Stops target ruled.now.rules.now func.old id) }
{
    let Some(spot) = spots.spot(func, id) else {
        return Ok(counts);
    };
    look_through(alloc, func, spots, spot)?;
    try_rules(alloc, func, spots, ruled, id, spot, target, counts)
}

/// Applies the first rule that matches at the value there, which has this number.
#[allow(clippy::too_many_arguments)]
fn try_rules(
    alloc: Global,
    func: &mut Func,
    spots: &mut Spots,
    ruled: &Ruled,
    id: u32,
    spot: Spot,
    target: Target,
    counts: Counts,
) -> Result<Counts, Stop>
    requires room { counts.greatest + (value_limit - counts.values) < 2 ^ 32 }
    requires index { IsIndex ruled.now.rules.now ruled.now.index.now }
    ensures room { IfOk result (λ now. now.greatest + (value_limit - now.values) < 2 ^ 32) }
    ensures counted { (v : ValueRecord) → Stands func.old id spot.block spot.place v → IsCounted counts.greatest (value_limit - counts.values) func.old → IfOk result (λ now. IsCounted now.greatest (value_limit - now.values) func.new) }
    ensures tries { (v : ValueRecord) → Stands func.old id spot.block spot.place v → IsCounted counts.greatest (value_limit - counts.values) func.old → OnOk result (Tries target ruled.now.rules.now func.old id spot.block spot.place v func.new) }
    ensures exceeds { IsCounted counts.greatest (value_limit - counts.values) func.old → IfErr result (λ e. e ≡ Stop.Grown → Exceeds target ruled.now.rules.now func.old id) }
{
    let site = Site {
        func,
        spots,
        value: id,
        target,
    };
    let Some(found) = find(alloc, &site, ruled)? else {
        return Ok(counts);
    };
    let rules = ruled.rules;
    let rule = &rules[found.place];
    let made = apply_at(alloc, func, rule, spot, &found.binds, target, counts)?;
    note_made(func, spots, spot.block, made)?;
    Ok(Counts {
        greatest: counts.greatest + made as u32,
        values: counts.values + made,
    })
}

/// Notes where the last values of the block stand.
fn note_made(func: &Func, spots: &mut Spots, block: usize, made: usize) -> Result<(), AllocError> {
    let Some(each) = func.blocks.get(block) else {
        return Ok(());
    };
    let count = each.values.len();
    for place in count.saturating_sub(made)..count {
        spots.note(each.values[place].id, Spot { block, place })?;
    }
    Ok(())
}

/// Replaces each argument of the value there that is a Copy by what the Copy copies.
fn look_through(alloc: Global, func: &mut Func, spots: &Spots, spot: Spot) -> Result<(), AllocError>
    ensures { (v : ValueRecord) → HasNumbers func.old → value_at func.old spot.block spot.place ≡ Some v → OnOk result (func.new ≡ with_looked_through func.old spot.block spot.place v) }
{
    let args = copied_args(alloc, func, spots, spot)?;
    put_args(func, spot, args);
    Ok(())
}

fn copied_args(
    alloc: Global,
    func: &Func,
    spots: &Spots,
    spot: Spot,
) -> Result<SmallVec<u32, 4>, AllocError>
    ensures { (v : ValueRecord) → HasNumbers func.now → value_at func.now spot.block spot.place ≡ Some v → IfOk result (λ args. args.items ≡ map (copied_in func.now) v.args) }
{
    match value_at(func, spot) {
        Some(value) => copied_each(alloc, func, spots, value.args.as_slice()),
        None => Ok(SmallVec::new(alloc)),
    }
}

#[tactic(auto, using(crate::proofs::Turns::mapped_on, crate::proofs::Turns::mapped_end))]
fn copied_each(
    alloc: Global,
    func: &Func,
    spots: &Spots,
    ids: &[u32],
) -> Result<SmallVec<u32, 4>, AllocError>
    ensures { HasNumbers func.now → IfOk result (λ args. args.items ≡ map (copied_in func.now) ids.now) }
{
    let mut args = SmallVec::new(alloc);
    for id in ids {
        push_arg(&mut args, copied(func, spots, *id))?;
    }
    Ok(args)
}

/// What the number stands for, one Copy being looked through.
fn copied(func: &Func, spots: &Spots, id: u32) -> u32
    ensures { HasNumbers func.now → result ≡ copied_in func.now id }
{
    match spots.find(func, id) {
        Some(value) => copied_by(value, id),
        None => id,
    }
}

/// What the value copies, or else the number.
fn copied_by(value: &Value, id: u32) -> u32
    ensures { result ≡ copied (Some value.now) id }
{
    match value.op.family {
        Family::Copy => first_or(value.args.as_slice(), id),
        _ => id,
    }
}

fn first_or(ids: &[u32], other: u32) -> u32
    ensures { result ≡ first_or ids.now other }
{
    match ids {
        [first, ..] => *first,
        [] => other,
    }
}

fn put_args(func: &mut Func, spot: Spot, args: SmallVec<u32, 4>)
    ensures { (v : ValueRecord) → value_at func.old spot.block spot.place ≡ Some v → func.new ≡ with_block func.old spot.block (with_value spot.place (with_args v args.items)) }
{
    if spot.block >= func.blocks.len() {
        return;
    }
    let block = &mut func.blocks[spot.block];
    put_args_in(block, spot.place, args);
}

#[tactic(auto, using(crate::proofs::Turns::set_with))]
fn put_args_in(block: &mut Block, place: usize, args: SmallVec<u32, 4>)
    ensures { (v : ValueRecord) → slice_get block.old.values place ≡ Some v → block.new ≡ with_value place (with_args v args.items) block.old }
{
    if place < block.values.len() {
        let value = with_args(&block.values[place], args);
        block.values[place] = value;
    }
}

/// The value with these arguments.
fn with_args(value: &Value, args: SmallVec<u32, 4>) -> Value
    ensures { result ≡ with_args value.now args.items }
{
    Value {
        id: value.id,
        op: value.op,
        ty: value.ty,
        args,
        int: value.int,
        aux: value.aux,
    }
}
