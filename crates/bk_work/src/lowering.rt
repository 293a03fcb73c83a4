// A function from SSA form to the target's ops on words.
ghost use Rattle.std.specs.Prelude.{◌≡◌, ℕ, Some, true, slice_get, IfErr, IfOk, OnOk};
ghost use Rattle.bk_callees.specs.Callees.{AreCallees};
ghost use Rattle.bk_calls.specs.Budget.{is_grown};
ghost use Rattle.bk_dec64.specs.Budget as halves;
ghost use Rattle.bk_func.specs.Records.{FuncRecord};
ghost use Rattle.bk_rewrite.specs.Passes.{Settles};
ghost use Rattle.bk_rewrite.specs.Places.{HasNumbers, HasRoom};
ghost use Rattle.bk_rewrite.specs.Roots.{IsIndex};
ghost use Rattle.bk_work.specs.Indexed.{AreIndexes};
ghost use Rattle.bk_work.specs.Lowered.{IsCleaned, IsCoded, IsDecomposed, IsFitted, IsInHalves, IsInWords, IsLowered, IsSettled, pass_limit};
ghost use Rattle.bk_work.specs.Refused.{IsRefused, IsUnfit, IsUnframed, IsUnhalved, IsUnsettled, LacksCode, grown};
ghost use Rattle.bk_work.specs.Rules.{rules_of};
ghost use Rattle.bk_work.specs.Stops.{IfRefused};

use crate::numbers::{has_numbers, has_room};
use crate::refusals::{Cause, Stop};
use crate::rules::Lists;
use bk_callees::Callees;
use bk_calls::word_areas_by;
use bk_dec64::decompose_by;
use bk_func::{Func, Memory, Package, copy_func, first_construct};
use bk_graph::clean;
use bk_ops::Target;
use bk_rewrite::{Index, rewrite_by};
use bk_rule::Rule;
use std::alloc::Global;

/// The function at a place of the package with the target's ops alone, its arguments, calls and results in words; or why
/// it has no such form.
///
/// A place at which there is none is answered as want of memory.
pub fn compile_one(
    alloc: Global,
    pkg: &Package,
    target: Target,
    extra: &[Rule],
    func: u32,
) -> Result<Result<Func, Cause>, Memory>
    ensures lowered { (f : FuncRecord) → slice_get pkg.now.funcs func ≡ Some f → IfOk result (λ made. IfOk made (IsLowered pkg.now target (rules_of target extra.now) f)) }
    ensures cause { (f : FuncRecord) → slice_get pkg.now.funcs func ≡ Some f → IfOk result (λ made. IfErr made (IsRefused pkg.now target (rules_of target extra.now) f)) }
    ensures unframed { IfOk result (λ made. IfErr made IsUnframed) }
{
    let lists = Lists::new(alloc, pkg, target, extra)?;
    let Some(func) = pkg.funcs.get(func as usize) else {
        return Err(Memory);
    };
    match lowered(alloc, pkg, target, &lists, func) {
        Ok(func) => Ok(Ok(func)),
        Err(Stop::Refused(cause)) => Ok(Err(cause)),
        Err(Stop::Memory) => Err(Memory),
    }
}

/// The lowered function: the steps in their order.
pub(crate) fn lowered(
    alloc: Global,
    pkg: &Package,
    target: Target,
    lists: &Lists,
    func: &Func,
) -> Result<Func, Stop>
    requires indexes { AreIndexes lists.now.rules lists.now.indexes }
    requires callees { AreCallees pkg.now lists.now.callees }
    ensures lowered { IfOk result (IsLowered pkg.now target lists.now.rules func.now) }
    ensures cause { IfErr result (λ stop. IfRefused stop (λ cause. IsRefused pkg.now target lists.now.rules func.now cause × IsUnframed cause)) }
{
    let Lists {
        rules,
        indexes,
        callees,
    } = lists;
    // Dead values go before all, so that one that the target has no code for refuses nothing.
    let live = coded(alloc, func, target)?;
    // Rules that hold on every target take values as wide as their types, so they come before words, which may be wider.
    let generic = settled(alloc, live, &rules.generic, &indexes.generic, target)?;
    // Words of arm have 32 bits, and calls take and give words.
    let fit = fitted(alloc, pkg, generic, lists, target)?;
    // Calls take and give words before the target's rules, which know words alone.
    let words = in_words(alloc, pkg, callees, fit, target)?;
    // Last, since nothing else knows the target's own ops.
    settled(alloc, words, &rules.machine, &indexes.machine, target)
}

/// The function without what is dead, where the target has code for each value that is left.
fn coded(alloc: Global, func: &Func, target: Target) -> Result<Func, Stop>
    ensures coded { IfOk result (IsCoded target func.now) }
    ensures cause { IfErr result (λ stop. IfRefused stop (λ cause. (value : ℕ) × LacksCode target func.now value × (cause ≡ Cause.Construct value))) }
{
    let live = cleaned(alloc, copy_func(alloc, func)?)?;
    match first_construct(&live, target) {
        None => Ok(live),
        Some(value) => Err(Stop::Refused(Cause::Construct(value))),
    }
}

/// The function rewritten until no rule matches, without what this made dead.
fn settled(
    alloc: Global,
    func: Func,
    rules: &[Rule],
    index: &Index,
    target: Target,
) -> Result<Func, Stop>
    requires { IsIndex rules.now index.now }
    ensures settled { IfOk result (IsSettled target rules.now func) }
    ensures cause { IfErr result (λ stop. IfRefused stop (IsUnsettled target rules.now func)) }
{
    let last = rewritten(alloc, func, rules, index, target)?;
    Ok(cleaned(alloc, last)?)
}

fn cleaned(alloc: Global, func: Func) -> Result<Func, Memory>
    ensures { IfOk result (IsCleaned func) }
{
    let mut func = func;
    clean(alloc, &mut func)?;
    Ok(func)
}

fn rewritten(
    alloc: Global,
    func: Func,
    rules: &[Rule],
    index: &Index,
    target: Target,
) -> Result<Func, Stop>
    requires { IsIndex rules.now index.now }
    ensures settled { IfOk result (Settles target rules.now (pass_limit func) func) }
    ensures cause { IfErr result (λ stop. IfRefused stop (IsUnsettled target rules.now func)) }
{
    ask_numbers(alloc, &func)?;
    Ok(rewrite_by(alloc, func, rules, index, target)?)
}

/// A text has no number twice and none above 2,147,483,647, and a step gives at most 32,768 values the numbers after the
/// greatest.
fn ask_numbers(alloc: Global, func: &Func) -> Result<(), Memory>
    ensures numbers { OnOk result (HasNumbers func.now) }
    ensures room { OnOk result (HasRoom func.now) }
{
    let are_own = has_numbers(alloc, func)?;
    if are_own && has_room(func) {
        Ok(())
    } else {
        Err(Memory)
    }
}

/// The function with each value in a word of the target.
fn fitted(
    alloc: Global,
    pkg: &Package,
    func: Func,
    lists: &Lists,
    target: Target,
) -> Result<Func, Stop>
    requires indexes { AreIndexes lists.now.rules lists.now.indexes }
    requires callees { AreCallees pkg.now lists.now.callees }
    ensures fitted { IfOk result (IsFitted pkg.now target lists.now.rules.halves func) }
    ensures cause { IfErr result (λ stop. IfRefused stop (IsUnfit pkg.now target lists.now.rules.halves func)) }
{
    match target {
        Target::Arm => in_halves(
            alloc,
            pkg,
            &lists.callees,
            func,
            &lists.rules.halves,
            &lists.indexes.halves,
        ),
        Target::Riscv64 => Ok(func),
    }
}

/// The function with 64 bits in two words of arm.
fn in_halves(
    alloc: Global,
    pkg: &Package,
    callees: &Callees,
    func: Func,
    rules: &[Rule],
    index: &Index,
) -> Result<Func, Stop>
    requires callees { AreCallees pkg.now callees.now }
    requires index { IsIndex rules.now index.now }
    ensures halves { IfOk result (IsInHalves pkg.now rules.now func) }
    ensures cause { IfErr result (λ stop. IfRefused stop (IsUnhalved pkg.now rules.now func)) }
{
    let apart = apart(alloc, pkg, callees, func)?;
    settled(alloc, apart, rules, index, Target::Arm)
}

fn apart(alloc: Global, pkg: &Package, callees: &Callees, func: Func) -> Result<Func, Stop>
    requires { AreCallees pkg.now callees.now }
    ensures apart { IfOk result (IsDecomposed pkg.now func) }
    ensures cause { IfErr result (λ stop. IfRefused stop (λ cause. (halves.is_grown pkg.now func ≡ true) × (cause ≡ grown))) }
{
    let mut func = func;
    decompose_by(alloc, &mut func, pkg, callees)?;
    Ok(func)
}

fn in_words(
    alloc: Global,
    pkg: &Package,
    callees: &Callees,
    func: Func,
    target: Target,
) -> Result<Func, Stop>
    requires { AreCallees pkg.now callees.now }
    ensures words { IfOk result (IsInWords pkg.now target func) }
    ensures cause { IfErr result (λ stop. IfRefused stop (λ cause. (is_grown target func ≡ true) × (cause ≡ grown))) }
{
    let mut func = func;
    word_areas_by(alloc, &mut func, pkg, callees, target)?;
    Ok(func)
}
