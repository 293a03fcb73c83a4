// A package from its functions.
ghost use Rattle.std.specs.Prelude.{◌≡◌, ◌<◌, ◌≤◌, ℕ, [], map, IfErr, IfOk};
ghost use Rattle.bk_dump.specs.ClaimOrder.{IsClaimOrder};
ghost use Rattle.bk_link.specs.Conditions.{IsNamed};
ghost use Rattle.bk_piece.specs.Rising.{rising};
ghost use Rattle.bk_work.specs.Package.{AreFramed, AreFrames, IsCompiled, IsError, IsLinkError, IsObjectOf};
ghost use Rattle.bk_work.specs.Results.{AreFirstDone, AreSecondDone};
ghost use Rattle.bk_work.specs.Rounds.{AreLowered, IsInClaimOrder};
ghost use Rattle.bk_work.specs.Rules.{RulesRecord, rules_of};

use crate::framing::Framed;
use crate::outcomes::Outcomes;
use crate::placing::{Ends, Firsts, empty, placed};
use crate::refusals::PackageError;
use crate::rounds::Round;
use crate::rules::Lists;
use crate::run::whole_round;
use bk_dump::claim_order;
use bk_func::{Memory, Package};
use bk_io::Gate;
use bk_link::{LinkError, is_linkable, link};
use bk_ops::Target;
use bk_piece::Piece;
use bk_rule::Rule;
use std::alloc::{AllocError, Global};
use std::thread::Threads;

/// The object of a package, or all of its functions that are refused, or that its code is too long. So many workers lower its
/// functions and make their code, in two rounds; the gate is told of each claim.
pub fn compile_package<R: Threads + Sync, G: Gate + Sync>(
    rt: &R,
    alloc: Global,
    pkg: &Package,
    target: Target,
    extra: &[Rule],
    workers: u32,
    gate: &G,
) -> Result<Vec<u8>, PackageError>
    requires named { IsNamed pkg.now }
    requires workers { (1 ≤ workers) × (workers ≤ 64) }
    ensures made { IfOk result (λ bytes. IsCompiled pkg.now target extra.now bytes.items) }
    ensures cause { IfErr result (IsError pkg.now target extra.now) }
{
    let order = claim_order(alloc, pkg)?;
    let firsts = lower_all(rt, alloc, pkg, target, extra, &order, workers, gate)?;
    let left = firsts.left(alloc, &order)?;
    let (ends, words) = emit_all(rt, alloc, pkg, target, &firsts, &left, workers, gate)?;
    if ends.refusals.is_empty() {
        linked(alloc, pkg, target, &ends.pieces, &words)
    } else {
        Err(PackageError::Functions(ends.refusals))
    }
}

/// The whole first round: what is made of all functions, which the workers claim in this order.
#[allow(clippy::too_many_arguments)]
fn lower_all<R: Threads + Sync, G: Gate + Sync>(
    rt: &R,
    alloc: Global,
    pkg: &Package,
    target: Target,
    extra: &[Rule],
    order: &[u32],
    workers: u32,
    gate: &G,
) -> Result<Firsts, Memory>
    requires order { IsClaimOrder pkg.now.funcs order.now }
    requires workers { 0 < workers }
    ensures { IfOk result (λ it. AreFirstDone pkg.now target (rules_of target extra.now) it.lowered.items it.causes.items) }
{
    let parts = u64::from(workers) + 1;
    let (round, pass) = Round::first(alloc, pkg, target, extra, order, parts)?;
    let (items, _) = whole_round(rt, alloc, round, pass, workers, gate)?;
    let slots = placed(empty(alloc, pkg.funcs.len())?, items)?;
    Firsts::new(alloc, slots)
}

/// The whole second round: the code of the functions that are left, which the workers claim in this order, all functions that are
/// refused, and the words of the cells.
#[allow(clippy::too_many_arguments)]
fn emit_all<R: Threads + Sync, G: Gate + Sync>(
    rt: &R,
    alloc: Global,
    pkg: &Package,
    target: Target,
    firsts: &Firsts,
    left: &[u32],
    workers: u32,
    gate: &G,
) -> Result<(Ends, Vec<Vec<u64>>), Memory>
    requires left { IsInClaimOrder pkg.now left.now }
    requires lowered { (rules : RulesRecord) × AreLowered pkg.now target rules left.now firsts.now.lowered.items }
    requires workers { 0 < workers }
    ensures { IfOk result (λ r. AreSecondDone pkg.now target (rising left.now) firsts.now.lowered.items firsts.now.causes.items r.0.pieces.items r.0.refusals.items (map (λ w. w.items) r.1.items)) }
{
    let parts = u64::from(workers) + 1;
    let (round, pass) = Round::second(alloc, pkg, target, &firsts.lowered, left, parts)?;
    let (items, words) = whole_round(rt, alloc, round, pass, workers, gate)?;
    let slots = placed(firsts.refused(alloc)?, items)?;
    Ok((Ends::new(alloc, slots)?, words))
}

/// The object of pieces.
fn linked(
    alloc: Global,
    pkg: &Package,
    target: Target,
    pieces: &[Piece],
    words: &[Vec<u64>],
) -> Result<Vec<u8>, PackageError>
    requires { IsNamed pkg.now }
    ensures made { IfOk result (λ bytes. IsObjectOf pkg.now target pieces.now (map (λ w. w.items) words.now) bytes.items) }
    ensures cause { IfErr result (IsLinkError pieces.now (map (λ w. w.items) words.now)) }
{
    // A package's variables fit the window, pieces have code and types, and their handles have cells.
    let linkable = is_linkable(alloc, pkg, target, pieces, words)?;
    if !linkable {
        return Err(PackageError::Memory);
    }
    match link(alloc, pkg, target, pieces, words) {
        Ok(bytes) => Ok(bytes),
        Err(LinkError::Text { bytes }) => Err(PackageError::Text(bytes)),
        Err(LinkError::Memory) => Err(PackageError::Memory),
    }
}

/// The bytes of each function's frame in package order, or all functions that are refused.
pub fn frames_of(alloc: Global, pkg: &Package, target: Target) -> Result<Vec<u32>, PackageError>
    ensures frames { IfOk result (λ frames. AreFrames pkg.now target frames.items) }
    ensures cause { IfErr result (IsError pkg.now target []) }
    ensures unlinked { IfErr result (λ error. (n : ℕ) → error ≡ PackageError.Text n → ⊥) }
{
    let framed = all_framed(alloc, pkg, target, &[])?;
    Ok(frames(alloc, &framed)?)
}

fn frames(alloc: Global, framed: &[Framed]) -> Result<Vec<u32>, AllocError>
    ensures { IfOk result (λ frames. frames.items ≡ map (λ it. it.frame) framed.now) }
{
    let mut frames = Vec::with_capacity(alloc, framed.len())?;
    for it in framed {
        frames.push(it.frame)?;
    }
    Ok(frames)
}

/// All functions in their frames in package order, or all that are refused.
fn all_framed(
    alloc: Global,
    pkg: &Package,
    target: Target,
    extra: &[Rule],
) -> Result<Vec<Framed>, PackageError>
    ensures framed { IfOk result (λ framed. AreFramed pkg.now target (rules_of target extra.now) framed.items) }
    ensures cause { IfErr result (IsError pkg.now target extra.now) }
    ensures unlinked { IfErr result (λ error. (n : ℕ) → error ≡ PackageError.Text n → ⊥) }
{
    let lists = Lists::new(alloc, pkg, target, extra)?;
    let outcomes = Outcomes::new(alloc, pkg, target, &lists)?;
    if outcomes.refusals.is_empty() {
        Ok(outcomes.framed)
    } else {
        Err(PackageError::Functions(outcomes.refusals))
    }
}
