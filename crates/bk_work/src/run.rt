// All workers of a round.
ghost use Rattle.std.specs.Prelude.{[], ◌∷◌, ◌≡◌, ◌<◌, ◌+◌, ◌%◌, ◌^◌, IfOk, OnOk, length, vec_len};
ghost use Rattle.std.specs.List.{All, Contains};
ghost use Rattle.bk_core.specs.Rule.{Sight, sight};
ghost use Rattle.bk_core.specs.Events.{words_of, core_state, MeetsRule};
ghost use Rattle.bk_share.specs.Passes.{IsPassOf, view, parts_in};
ghost use Rattle.bk_work.specs.Rounds.{IsItem, announced_for};
ghost use Rattle.bk_work.specs.Run.{IsFresh, AreDrawn, IsShift, AreAll};

use crate::items::{Done, Part};
use crate::listed::put;
use crate::rounds::Round;
use bk_func::Memory;
use bk_io::Gate;
use bk_share::{Pass, Share};
use std::alloc::Global;
use std::thread;
use std::thread::Threads;

/// What a worker is given: its pass and its number.
#[derive(Drop)]
pub(crate) struct Turn {
    pub(crate) pass: Pass,
    pub(crate) worker: u32,
}

/// What a worker gives back. Its pass comes back also where memory ran out.
#[derive(Drop)]
pub(crate) struct Shift {
    pub(crate) pass: Pass,
    pub(crate) part: Result<Part, Memory>,
}

/// All that one worker does.
fn work_alone<G: Gate + Sync>(alloc: Global, round: &Round, turn: Turn, gate: &G) -> Shift
    requires { IsFresh round.now.share turn.pass }
    ensures { IsShift round.now result }
{
    let Turn { mut pass, worker } = turn;
    let part = round.work(alloc, &mut pass, worker, gate);
    Shift { pass, part }
}

/// A pass of one part for each worker.
fn split_off(
    alloc: Global,
    share: &Share,
    pass: &mut Pass,
    workers: u32,
) -> Result<Vec<Turn>, Memory>
    requires pass { IsPassOf share.now pass.old }
    requires parts { workers < (view pass.old).parts }
    ensures pass { IsPassOf share.now pass.new }
    ensures parts { OnOk result ((view pass.new).parts + workers ≡ (view pass.old).parts) }
    ensures numbers { (view pass.new).numbers ≡ (view pass.old).numbers }
    ensures len { IfOk result (λ turns. vec_len turns ≡ workers) }
    ensures fresh { IfOk result (λ turns. All (λ t. IsFresh share.now t.pass) turns.items) }
{
    let mut turns = Vec::new(alloc);
    for worker in 0..workers {
        let pass = share.split(pass);
        put(&mut turns, Turn { pass, worker })?;
    }
    Ok(turns)
}

/// Joins the workers' passes, and puts their items into one list.
fn join_up(
    alloc: Global,
    round: &Round,
    pass: &mut Pass,
    shifts: Vec<Shift>,
) -> Result<Vec<(u64, u32, Done)>, Memory>
    requires pass { IsPassOf round.now.share pass.old }
    requires shifts { All (IsShift round.now) shifts.items }
    ensures pass { IsPassOf round.now.share pass.new }
    ensures parts { OnOk result ((view pass.new).parts ≡ (view pass.old).parts + vec_len shifts) }
    ensures drawn { IfOk result (λ items. AreDrawn (length round.now.order.now) (vec_len shifts) (view pass.old).numbers (view pass.new).numbers items.items) }
    ensures items { IfOk result (λ items. All (IsItem round.now.pkg.now round.now.target round.now.job round.now.order.now (Contains (view pass.new).known)) items.items) }
{
    let mut items = Vec::new(alloc);
    for shift in shifts {
        let Shift { pass: other, part } = shift;
        round.share.join(pass, other);
        let Part { items: mut more } = part?;
        items.append(&mut more)?;
    }
    Ok(items)
}

/// All workers of the round, each in a thread of its own where one can be made.
fn run<R: Threads + Sync, G: Gate + Sync>(
    rt: &R,
    alloc: Global,
    round: &Round,
    pass: &mut Pass,
    workers: u32,
    gate: &G,
) -> Result<Vec<(u64, u32, Done)>, Memory>
    requires pass { IsPassOf round.now.share pass.old }
    requires workers { 0 < workers }
    requires parts { workers < (view pass.old).parts }
    ensures pass { IsPassOf round.now.share pass.new }
    ensures parts { OnOk result ((view pass.new).parts ≡ (view pass.old).parts) }
    ensures drawn { IfOk result (λ items. AreDrawn (length round.now.order.now) workers (view pass.old).numbers (view pass.new).numbers items.items) }
    ensures items { IfOk result (λ items. All (IsItem round.now.pkg.now round.now.target round.now.job round.now.order.now (Contains (view pass.new).known)) items.items) }
{
    let turns = split_off(alloc, &round.share, pass, workers)?;
    let alone = move |turn: Turn| -> Shift
        requires { IsFresh round.now.share turn.pass }
        ensures { IsShift round.entry.now result }
    { work_alone(alloc, round, turn, gate) };
    let shifts = thread::map_vec(rt, turns, &alone)?;
    join_up(alloc, round, pass, shifts)
}

/// Lets all workers do the round, and closes it: the items, and the words of the three areas.
pub(crate) fn whole_round<R: Threads + Sync, G: Gate + Sync>(
    rt: &R,
    alloc: Global,
    round: Round,
    mut pass: Pass,
    workers: u32,
    gate: &G,
) -> Result<(Vec<(u64, u32, Done)>, Vec<Vec<u64>>), Memory>
    requires pass { IsPassOf round.share pass }
    requires first { view pass ≡ sight (workers + 1) [] [] }
    requires parts { parts_in round.share ≡ workers + 1 }
    requires workers { 0 < workers }
    ensures areas { IfOk result (λ r. vec_len r.1 ≡ 3) }
    ensures items { IfOk result (λ r. AreAll round.entry.pkg.now round.entry.target round.entry.job round.entry.order.now (words_of r.1) r.0.items) }
    ensures rule { IfOk result (λ r. (v : Sight) × MeetsRule (announced_for round.entry.job) (workers + 1) (core_state (length v.numbers % 2 ^ 64) (words_of r.1) (v ∷ []))) }
{
    let items = run(rt, alloc, &round, &mut pass, workers, gate)?;
    let words = round.close(pass);
    Ok((items, words))
}
