// What a worker does in a round.
ghost use Rattle.std.specs.Prelude.{ℕ, ◌≡◌, IfOk, IfSome, Some, length, slice_get};
ghost use Rattle.std.specs.List.{All, Contains};
ghost use Rattle.bk_callees.specs.Callees.{AreCallees};
ghost use Rattle.bk_core.specs.Rule.{keys_of};
ghost use Rattle.bk_func.specs.Records.{FuncRecord};
ghost use Rattle.bk_share.specs.Passes.{IsPassOf, announced_in, view};
ghost use Rattle.bk_work.specs.Each.{Each};
ghost use Rattle.bk_work.specs.Indexed.{AreIndexes};
ghost use Rattle.bk_work.specs.Rounds.{AreRules, IsAnnounced, IsAt, IsListed, IsDone, IsFirst, IsHandle, IsItem, IsReady, IsSecond, KnowsOn, Worked};

use crate::coding::emit;
use crate::framing::{Framed, in_frame};
use crate::items::{Done, Part};
use crate::listed::put;
use crate::lowering::lowered;
use crate::refusals::Stop;
use crate::rounds::{Job, Round};
use crate::rules::Lists;
use bk_callees::Callees;
use bk_fixup::keys_of;
use bk_func::{Func, Memory, Package};
use bk_io::Gate;
use bk_ops::Target;
use bk_piece::{Handle, Key};
use bk_share::{Pass, Share};
use std::alloc::Global;

impl<'a> Round<'a> {
    /// The share on which the round's passes are split and joined.
    pub fn share(&self) -> &Share
        ensures { result.now ≡ self.now.share }
    {
        &self.share
    }

    /// Draws numbers until one is at or above the count, and does the job on the function of each that is below it. The
    /// gate is told of each of these right after its draw.
    pub fn work<G: Gate + Sync>(
        &self,
        alloc: Global,
        pass: &mut Pass,
        worker: u32,
        gate: &G,
    ) -> Result<Part, Memory>
        requires { IsPassOf self.now.share pass.old }
        ensures pass { IsPassOf self.now.share pass.new }
        ensures parts { (view pass.new).parts ≡ (view pass.old).parts }
        ensures known { (x : ℕ × ℕ × ℕ) → Contains (view pass.old).known x → Contains (view pass.new).known x }
        ensures worked { IfOk result (λ part. Worked (length self.now.order.now) (view pass.old) (view pass.new) part.items.items) }
        ensures items { IfOk result (λ part. All (IsItem self.now.pkg.now self.now.target self.now.job self.now.order.now (Contains (view pass.new).known)) part.items.items) }
    {
        let lists = self.lists(alloc)?;
        let mut items = Vec::new(alloc);
        'claims: loop {
            let Some(claim) = self.share.claim(pass) else {
                return Ok(Part { items });
            };
            gate.at_claim(worker, claim);
            let func = self.order[claim as usize];
            let done = self.done(alloc, pass, &lists, func)?;
            put(&mut items, (claim, func, done))?;
        }
    }

    /// The rules by which the worker lowers, and the callees of the package.
    fn lists(&self, alloc: Global) -> Result<Lists, Memory>
        ensures rules { IfOk result (AreRules self.now.target self.now.job) }
        ensures callees { IfOk result (λ lists. AreCallees self.now.pkg.now lists.callees) }
    {
        match &self.job {
            Job::Lower(extra) => Lists::new(alloc, self.pkg, self.target, extra),
            Job::Emit(_, _) => Lists::none(alloc, self.pkg),
        }
    }

    /// Does the job on the function at a place of the package.
    fn done(&self, alloc: Global, pass: &mut Pass, lists: &Lists, func: u32) -> Result<Done, Memory>
        requires rules { AreRules self.now.target self.now.job lists.now }
        requires callees { AreCallees self.now.pkg.now lists.now.callees }
        requires pass { IsPassOf self.now.share pass.old }
        ensures pass { IsPassOf self.now.share pass.new }
        ensures knows { KnowsOn (view pass.old) (view pass.new) }
        ensures done { IfOk result (IsDone self.now.pkg.now self.now.target self.now.job (Contains (view pass.new).known) func) }
    {
        match &self.job {
            Job::Lower(_) => lowered_at(alloc, self.pkg, self.target, lists, func),
            Job::Emit(places, lowered) => {
                let Some(entry) = entry_of(places, lowered, func) else {
                    return Err(Memory);
                };
                self.emitted(alloc, pass, &lists.callees, entry)
            }
        }
    }

    /// The second round on a function.
    fn emitted(
        &self,
        alloc: Global,
        pass: &mut Pass,
        callees: &Callees,
        entry: &(Func, Vec<Key>),
    ) -> Result<Done, Memory>
        requires callees { AreCallees self.now.pkg.now callees.now }
        requires pass { IsPassOf self.now.share pass.old }
        requires keys { All (IsAnnounced (announced_in self.now.share)) entry.now.1.items }
        ensures pass { IsPassOf self.now.share pass.new }
        ensures knows { KnowsOn (view pass.old) (view pass.new) }
        ensures done { IfOk result (IsSecond self.now.pkg.now self.now.target (Contains (view pass.new).known) entry.now) }
    {
        match in_frame(alloc, self.pkg, callees, self.target, &entry.0) {
            Ok(framed) => self.ready(alloc, pass, &framed, &entry.1),
            Err(Stop::Refused(cause)) => Ok(Done::Refused(cause)),
            Err(Stop::Memory) => Err(Memory),
        }
    }

    /// The code of a function in its frame, whose keys are given.
    fn ready(
        &self,
        alloc: Global,
        pass: &mut Pass,
        framed: &Framed,
        keys: &[Key],
    ) -> Result<Done, Memory>
        requires pass { IsPassOf self.now.share pass.old }
        requires keys { All (IsAnnounced (announced_in self.now.share)) keys.now }
        ensures pass { IsPassOf self.now.share pass.new }
        ensures knows { KnowsOn (view pass.old) (view pass.new) }
        ensures done { IfOk result (IsReady self.now.target (Contains (view pass.new).known) framed.now keys.now) }
    {
        let handles = interned(alloc, &self.share, pass, keys)?;
        let piece = emit(alloc, self.target, framed, &handles)?;
        Ok(Done::Ready(piece))
    }
}

/// The first round on the function at a place of the package. A place at which there is none is answered as want of memory.
fn lowered_at(
    alloc: Global,
    pkg: &Package,
    target: Target,
    lists: &Lists,
    func: u32,
) -> Result<Done, Memory>
    requires indexes { AreIndexes lists.now.rules lists.now.indexes }
    requires callees { AreCallees pkg.now lists.now.callees }
    ensures { IfOk result (λ done. (f : FuncRecord) × (slice_get pkg.now.funcs func ≡ Some f) × IsFirst pkg.now target lists.now.rules f done) }
{
    let Some(func) = pkg.funcs.get(func as usize) else {
        return Err(Memory);
    };
    match lowered(alloc, pkg, target, lists, func) {
        Ok(func) => with_keys(alloc, func),
        Err(Stop::Refused(cause)) => Ok(Done::Refused(cause)),
        Err(Stop::Memory) => Err(Memory),
    }
}

/// A lowered function with its keys.
fn with_keys(alloc: Global, func: Func) -> Result<Done, Memory>
    ensures { IfOk result (IsListed func) }
{
    let keys = keys_of(alloc, &func)?;
    Ok(Done::Lowered(func, keys))
}

/// The lowered function of a place. It stands where the place stands among all places.
fn entry_of<'a>(
    places: &[u32],
    lowered: &'a [(Func, Vec<Key>)],
    func: u32,
) -> Option<&'a (Func, Vec<Key>)>
    ensures { IfSome result (λ entry. IsAt places.now lowered.now func entry.now) }
{
    let place = places.binary_search(&func).ok()?;
    lowered.get(place)
}

/// A handle for each key in order.
fn interned(
    alloc: Global,
    share: &Share,
    pass: &mut Pass,
    keys: &[Key],
) -> Result<Vec<Handle>, Memory>
    requires pass { IsPassOf share.now pass.old }
    requires keys { All (IsAnnounced (announced_in share.now)) keys.now }
    ensures pass { IsPassOf share.now pass.new }
    ensures knows { KnowsOn (view pass.old) (view pass.new) }
    ensures handles { IfOk result (λ handles. Each (IsHandle (Contains (view pass.new).known)) keys.now handles.items) }
{
    let mut handles = Vec::with_capacity(alloc, keys.len())?;
    for key in keys {
        let handle = intern(share, pass, *key);
        put(&mut handles, handle)?;
    }
    Ok(handles)
}

/// A handle for the key.
fn intern(share: &Share, pass: &mut Pass, key: Key) -> Handle
    requires pass { IsPassOf share.now pass.old }
    requires key { IsAnnounced (announced_in share.now) key }
    ensures pass { IsPassOf share.now pass.new }
    ensures knows { KnowsOn (view pass.old) (view pass.new) }
    ensures handle { IsHandle (Contains (view pass.new).known) key result }
{
    share.intern(pass, key.area, key.key)
}
