// Where a left tree stands at a value.
ghost use Rattle.std.specs.Prelude.{◌≡◌, ◌+◌, ◌<◌, ◌≤◌, length, drop, true, false, IfOk};
ghost use Rattle.bk_rule.specs.declared.trees.Bound.TheVariants.{Value as ValueBound};
ghost use Rattle.bk_rule.specs.Match.{IsBound, Matches, ordered, order_of, orders, variables};
ghost use Rattle.bk_rewrite.specs.First.{IsNumbered};
ghost use Rattle.bk_rewrite.specs.Places.{HasNumbers};
ghost use Rattle.bk_rewrite.specs.Trials.{Binds, Misses, PatternsMatch, PatternsNumbered, sum_orders, most_variables, Stood, Failed};

use crate::ops::same_op;
use crate::parts::{bind, bind_node};
use crate::spots::Spots;
use bk_func::Func;
use bk_ops::{Op, op_info};
use bk_rule::{Bound, Pattern};
use std::alloc::AllocError;

/// What a trial of a tree at a value comes to.
#[derive(Clone, Copy)]
pub(crate) enum Verdict {
    Fails,
    Stands,
    /// A commutative op comes whose order of arguments is not chosen yet.
    Asks,
}

/// The bindings so far, and how many of the chosen orders are used.
#[derive(Drop)]
pub(crate) struct Trail {
    pub(crate) binds: Vec<Bound>,
    pub(crate) used: usize,
}

/// A function and the orders that are chosen for the commutative ops of a tree, as they come.
#[derive(Clone, Copy)]
pub(crate) struct Place<'a> {
    pub(crate) func: &'a Func,
    pub(crate) spots: &'a Spots,
    pub(crate) choices: &'a [bool],
}

/// Tries the tree at the value with this number.
#[cycle(stand)]
pub(crate) fn stand(
    at: &Place,
    pattern: &Pattern,
    id: u32,
    trail: &mut Trail,
) -> Result<Verdict, AllocError>
    ensures stands { HasNumbers at.now.func.now → IfOk result (λ r. r ≡ Verdict.Stands → Stood at.now.choices.now (variables pattern.now) (orders pattern.now) (λ bs cs. Matches at.now.func.now bs pattern.now id cs) trail.old.binds.items trail.new.binds.items trail.old.used trail.new.used) }
    ensures fails { HasNumbers at.now.func.now → IsNumbered (length trail.old.binds.items) pattern.now → IfOk result (λ r. r ≡ Verdict.Fails → Failed at.now.choices.now (λ bs cs. Matches at.now.func.now bs pattern.now id cs) trail.old.binds.items trail.old.used) }
    ensures used { IfOk result (λ r. r ≡ Verdict.Stands → trail.new.used ≡ trail.old.used + orders pattern.now) }
    ensures asks { IfOk result (λ r. r ≡ Verdict.Asks → length at.now.choices.now < trail.old.used + orders pattern.now) }
{
    match pattern {
        Pattern::Any => Ok(Verdict::Stands),
        Pattern::Var(variable) => stand_var(trail, *variable, id),
        Pattern::Node {
            var,
            op,
            ty,
            int,
            aux,
            args,
        } => {
            let Some(value) = at.spots.find(at.func, id) else {
                return Ok(Verdict::Fails);
            };
            if !same_op(value.op, *op) {
                return Ok(Verdict::Fails);
            }
            if !bind_node(&mut trail.binds, *var, *ty, *int, *aux, value)? {
                return Ok(Verdict::Fails);
            }
            stand_args(at, *op, args.as_slice(), value.args.as_slice(), trail)
        }
    }
}

fn stand_var(trail: &mut Trail, variable: u32, id: u32) -> Result<Verdict, AllocError>
    ensures stands { IfOk result (λ r. r ≡ Verdict.Stands → Binds (variable + 1) (λ bs. IsBound bs variable (ValueBound id)) trail.old.binds.items trail.new.binds.items) }
    ensures fails { variable ≤ length trail.old.binds.items → IfOk result (λ r. r ≡ Verdict.Fails → Misses (λ bs. IsBound bs variable (ValueBound id)) trail.old.binds.items) }
    ensures used { trail.new.used ≡ trail.old.used }
    ensures asks { IfOk result (λ r. ¬ (r ≡ Verdict.Asks)) }
{
    if bind(&mut trail.binds, variable, Bound::Value(id))? {
        Ok(Verdict::Stands)
    } else {
        Ok(Verdict::Fails)
    }
}

/// Tries the arguments of an op in the order that is chosen for it.
#[cycle(stand)]
fn stand_args(
    at: &Place,
    op: Op,
    patterns: &[Pattern],
    ids: &[u32],
    trail: &mut Trail,
) -> Result<Verdict, AllocError>
    ensures stands { HasNumbers at.now.func.now → IfOk result (λ r. r ≡ Verdict.Stands → Stood at.now.choices.now (most_variables patterns.now) (order_of op + sum_orders patterns.now) (λ bs cs. PatternsMatch at.now.func.now bs patterns.now (ordered op cs ids.now) (drop (order_of op) cs)) trail.old.binds.items trail.new.binds.items trail.old.used trail.new.used) }
    ensures fails { HasNumbers at.now.func.now → PatternsNumbered (length trail.old.binds.items) patterns.now → IfOk result (λ r. r ≡ Verdict.Fails → Failed at.now.choices.now (λ bs cs. PatternsMatch at.now.func.now bs patterns.now (ordered op cs ids.now) (drop (order_of op) cs)) trail.old.binds.items trail.old.used) }
    ensures used { IfOk result (λ r. r ≡ Verdict.Stands → trail.new.used ≡ trail.old.used + (order_of op + sum_orders patterns.now)) }
    ensures asks { IfOk result (λ r. r ≡ Verdict.Asks → length at.now.choices.now < trail.old.used + (order_of op + sum_orders patterns.now)) }
{
    if !op_info(op).commutative {
        return stand_each(at, patterns, ids, trail);
    }
    let Some(swap) = at.choices.get(trail.used).copied() else {
        return Ok(Verdict::Asks);
    };
    trail.used += 1;
    if swap && ids.len() == 2 {
        stand_each(at, patterns, &[ids[1], ids[0]], trail)
    } else {
        stand_each(at, patterns, ids, trail)
    }
}

#[cycle(stand)]
fn stand_each(
    at: &Place,
    patterns: &[Pattern],
    ids: &[u32],
    trail: &mut Trail,
) -> Result<Verdict, AllocError>
    ensures stands { HasNumbers at.now.func.now → IfOk result (λ r. r ≡ Verdict.Stands → Stood at.now.choices.now (most_variables patterns.now) (sum_orders patterns.now) (λ bs cs. PatternsMatch at.now.func.now bs patterns.now ids.now cs) trail.old.binds.items trail.new.binds.items trail.old.used trail.new.used) }
    ensures fails { HasNumbers at.now.func.now → PatternsNumbered (length trail.old.binds.items) patterns.now → IfOk result (λ r. r ≡ Verdict.Fails → Failed at.now.choices.now (λ bs cs. PatternsMatch at.now.func.now bs patterns.now ids.now cs) trail.old.binds.items trail.old.used) }
    ensures used { IfOk result (λ r. r ≡ Verdict.Stands → trail.new.used ≡ trail.old.used + sum_orders patterns.now) }
    ensures asks { IfOk result (λ r. r ≡ Verdict.Asks → length at.now.choices.now < trail.old.used + sum_orders patterns.now) }
{
    if patterns.len() != ids.len() {
        return Ok(Verdict::Fails);
    }
    for (place, pattern) in patterns.iter().enumerate() {
        let id = ids[place];
        match stand(at, pattern, id, trail)? {
            Verdict::Stands => {}
            Verdict::Fails => return Ok(Verdict::Fails),
            Verdict::Asks => return Ok(Verdict::Asks),
        }
    }
    Ok(Verdict::Stands)
}
