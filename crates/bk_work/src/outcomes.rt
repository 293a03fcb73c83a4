// What comes of each function of a package.
ghost use Rattle.std.specs.Prelude.{◌≡◌, ◌++◌, ◌∷◌, [], IfErr, IfOk, List, OnOk, length};
ghost use Rattle.bk_callees.specs.Callees.{AreCallees};
ghost use Rattle.bk_func.specs.Records.{FuncRecord, PackageRecord};
ghost use Rattle.bk_work.specs.Framed.{IsMade};
ghost use Rattle.bk_work.specs.Indexed.{AreIndexes};
ghost use Rattle.bk_work.specs.Package.{AreOutcomes, refusal};
ghost use Rattle.bk_work.specs.Refused.{IsRefused};
ghost use Rattle.bk_work.specs.Rules.{RulesRecord};
ghost use Rattle.bk_work.specs.Stops.{IfRefused};

use crate::framing::{Framed, in_frame};
use crate::listed::put;
use crate::lowering::lowered;
use crate::refusals::{Cause, Refusal, Stop};
use crate::rules::Lists;
use bk_func::{Func, Memory, Package};
use bk_ops::Target;
use std::alloc::{AllocError, Global};

/// The functions that are in their frames, and those that are refused, both in package order.
#[derive(Drop)]
pub(crate) struct Outcomes {
    pub(crate) framed: Vec<Framed>,
    pub(crate) refusals: Vec<Refusal>,
}

impl Outcomes {
    pub(crate) fn new(
        alloc: Global,
        pkg: &Package,
        target: Target,
        lists: &Lists,
    ) -> Result<Outcomes, Memory>
        requires indexes { AreIndexes lists.now.rules lists.now.indexes }
        requires callees { AreCallees pkg.now lists.now.callees }
        ensures { IfOk result (λ it. AreOutcomes pkg.now target lists.now.rules 0 pkg.now.funcs it.framed.items it.refusals.items) }
    {
        let mut outcomes = Outcomes {
            framed: Vec::with_capacity(alloc, pkg.funcs.len())?,
            refusals: Vec::new(alloc),
        };
        for (place, func) in pkg.funcs.iter().enumerate() {
            let made = made(alloc, pkg, target, lists, func);
            outcomes.note(place, made)?;
        }
        Ok(outcomes)
    }

    /// Notes what came of the function at a place.
    fn note(&mut self, place: usize, made: Result<Framed, Stop>) -> Result<(), Memory>
        ensures { (pkg : PackageRecord) (t : Target) (rules : RulesRecord) (fs : List FuncRecord) (f : FuncRecord) → AreOutcomes pkg t rules 0 fs self.old.framed.items self.old.refusals.items → place ≡ length fs → IfOk made (IsMade pkg t rules f) → IfErr made (λ stop. IfRefused stop (IsRefused pkg t rules f)) → OnOk result (AreOutcomes pkg t rules 0 (fs ++ f ∷ []) self.new.framed.items self.new.refusals.items) }
    {
        match made {
            Ok(it) => Ok(put(&mut self.framed, it)?),
            Err(stop) => self.note_stop(place, stop),
        }
    }

    /// Notes why the function at a place has no frame.
    fn note_stop(&mut self, place: usize, stop: Stop) -> Result<(), Memory>
        ensures { (pkg : PackageRecord) (t : Target) (rules : RulesRecord) (fs : List FuncRecord) (f : FuncRecord) → AreOutcomes pkg t rules 0 fs self.old.framed.items self.old.refusals.items → place ≡ length fs → IfRefused stop (IsRefused pkg t rules f) → OnOk result (AreOutcomes pkg t rules 0 (fs ++ f ∷ []) self.new.framed.items self.new.refusals.items) }
    {
        match stop {
            Stop::Refused(cause) => Ok(put_refusal(&mut self.refusals, place, cause)?),
            Stop::Memory => Err(Memory),
        }
    }
}

/// Adds the refusal of the function at a place. A package has at most 4,096 functions, so a u32 holds the place.
fn put_refusal(refusals: &mut Vec<Refusal>, place: usize, cause: Cause) -> Result<(), AllocError>
    ensures { OnOk result (refusals.new.items ≡ refusals.old.items ++ refusal place cause ∷ []) }
{
    match u32::try_from(place) {
        Ok(func) => put(refusals, Refusal { func, cause }),
        Err(_) => Err(AllocError),
    }
}

/// The function in its frame, or why it has none.
fn made(
    alloc: Global,
    pkg: &Package,
    target: Target,
    lists: &Lists,
    func: &Func,
) -> Result<Framed, Stop>
    requires indexes { AreIndexes lists.now.rules lists.now.indexes }
    requires callees { AreCallees pkg.now lists.now.callees }
    ensures made { IfOk result (IsMade pkg.now target lists.now.rules func.now) }
    ensures cause { IfErr result (λ stop. IfRefused stop (IsRefused pkg.now target lists.now.rules func.now)) }
{
    let lowered = lowered(alloc, pkg, target, lists, func)?;
    in_frame(alloc, pkg, &lists.callees, target, &lowered)
}
