// Rounds are made and closed.
ghost use Rattle.std.specs.Prelude.{ℕ, ◌≡◌, ◌<◌, ◌≤◌, ◌%◌, ◌^◌, [], ◌∷◌, ◌++◌, IfOk, OnOk, length, map, vec_len};
ghost use Rattle.std.specs.List.{Contains};
ghost use Rattle.bk_core.specs.Rule.{sight};
ghost use Rattle.bk_core.specs.Events.{CoreState, core_state, MeetsRule, words_of};
ghost use Rattle.bk_dump.specs.ClaimOrder.{IsClaimOrder};
ghost use Rattle.bk_piece.specs.Rising.{rising};
ghost use Rattle.bk_share.specs.Passes.{IsLast, IsPassOf, parts_in, view};
ghost use Rattle.bk_work.specs.Package.{in_area};
ghost use Rattle.bk_work.specs.Rounds.{AreLowered, IsEmit, IsInClaimOrder, IsLower, announced_by, announced_for, area_keys};
ghost use Rattle.bk_work.specs.Rules.{RulesRecord, rules_of};
ghost use Rattle.bk_work.specs.Run.{in_words, times_in};

use crate::rounds::{Job, Round};
use bk_func::{Func, Memory, Package};
use bk_ops::Target;
use bk_piece::Key;
use bk_rule::Rule;
use bk_share::{Pass, Share};
use std::alloc::{AllocError, Global};

impl<'a> Round<'a> {
    /// The round that lowers the functions of a package, and its first pass, which has all the parts. `order` is the order
    /// of the claims. No keys are announced.
    pub fn first(
        alloc: Global,
        pkg: &'a Package,
        target: Target,
        extra: &'a [Rule],
        order: &'a [u32],
        parts: u64,
    ) -> Result<(Round<'a>, Pass), Memory>
        requires order { IsClaimOrder pkg.now.funcs order.now }
        requires parts { 1 ≤ parts }
        ensures package { IfOk result (λ r. (r.0.pkg.now ≡ pkg.now) × (r.0.target ≡ target)) }
        ensures job { IfOk result (λ r. IsLower target r.0.job (rules_of target extra.now) × (r.0.order.now ≡ order.now)) }
        ensures parts { IfOk result (λ r. parts_in r.0.share ≡ parts) }
        ensures pass { IfOk result (λ r. IsPassOf r.0.share r.1 × (view r.1 ≡ sight parts [] [])) }
    {
        let none = [Vec::new(alloc), Vec::new(alloc), Vec::new(alloc)];
        let (share, pass) = Share::new(alloc, order.len() as u64, none, parts)?;
        let job = Job::Lower(extra);
        Ok((
            Round {
                share,
                pkg,
                target,
                order,
                job,
            },
            pass,
        ))
    }

    /// The round that makes the code of lowered functions, and its first pass, which has all the parts. `order` has the
    /// places of the functions in the package, in the order of the claims; `lowered` has the functions in package order,
    /// each with its keys. These are announced, with repeats.
    pub fn second(
        alloc: Global,
        pkg: &'a Package,
        target: Target,
        lowered: &'a [(Func, Vec<Key>)],
        order: &'a [u32],
        parts: u64,
    ) -> Result<(Round<'a>, Pass), Memory>
        requires order { IsInClaimOrder pkg.now order.now }
        requires lowered { (rules : RulesRecord) × AreLowered pkg.now target rules order.now lowered.now }
        requires parts { 1 ≤ parts }
        ensures package { IfOk result (λ r. (r.0.pkg.now ≡ pkg.now) × (r.0.target ≡ target)) }
        ensures job { IfOk result (λ r. IsEmit r.0.job (rising order.now) lowered.now × (r.0.order.now ≡ order.now)) }
        ensures parts { IfOk result (λ r. parts_in r.0.share ≡ parts) }
        ensures pass { IfOk result (λ r. IsPassOf r.0.share r.1 × (view r.1 ≡ sight parts [] [])) }
    {
        let places = places(alloc, order)?;
        let keys = announced_by(alloc, lowered)?;
        let (share, pass) = Share::new(alloc, order.len() as u64, keys, parts)?;
        let job = Job::Emit(places, lowered);
        Ok((
            Round {
                share,
                pkg,
                target,
                order,
                job,
            },
            pass,
        ))
    }

    /// Ends the round, and gives the words of the three areas. The pass has all the parts.
    pub fn close(self, pass: Pass) -> Vec<Vec<u64>>
        requires pass { IsPassOf self.share pass }
        requires all { (view pass).parts ≡ parts_in self.share }
        ensures areas { vec_len result ≡ 3 }
        ensures last { (m : CoreState) × IsLast (announced_for self.entry.job) (parts_in self.entry.share) (words_of result) (view pass) m }
        ensures rule { MeetsRule (announced_for self.entry.job) (parts_in self.entry.share) (core_state (length (view pass).numbers % 2 ^ 64) (words_of result) (view pass ∷ [])) }
        ensures once { length (view pass).numbers ≤ 2 ^ 64 → (n : ℕ) → length self.entry.order.now ≤ n → Contains (view pass).numbers n → (x : ℕ) → x < length self.entry.order.now → times_in x (view pass).numbers ≡ 1 }
        ensures held { (x : ℕ × ℕ × ℕ) → Contains (view pass).known x → in_words (words_of result) x }
    {
        let Round {
            share,
            pkg: _,
            target: _,
            order: _,
            job: _,
        } = self;
        share.close(pass)
    }
}

/// The places in rising order.
fn places(alloc: Global, order: &[u32]) -> Result<Vec<u32>, AllocError>
    ensures { IfOk result (λ places. places.items ≡ rising order.now) }
{
    let mut places = order.to_vec(alloc)?;
    places.sort_unstable();
    places.dedup();
    Ok(places)
}

/// The keys of the three areas.
fn announced_by(alloc: Global, lowered: &[(Func, Vec<Key>)]) -> Result<[Vec<u64>; 3], AllocError>
    ensures { IfOk result (λ keys. map (λ v. v.items) keys ≡ announced_by lowered.now) }
{
    Ok([
        area_keys(alloc, lowered, 0)?,
        area_keys(alloc, lowered, 1)?,
        area_keys(alloc, lowered, 2)?,
    ])
}

/// The keys of an area in order, with repeats.
fn area_keys(alloc: Global, lowered: &[(Func, Vec<Key>)], area: u8) -> Result<Vec<u64>, AllocError>
    ensures { IfOk result (λ words. words.items ≡ area_keys area lowered.now) }
{
    let mut words = Vec::new(alloc);
    for entry in lowered {
        push_in(&mut words, area, &entry.1)?;
    }
    Ok(words)
}

/// Adds those of the keys that are of the area.
fn push_in(words: &mut Vec<u64>, area: u8, keys: &[Key]) -> Result<(), AllocError>
    ensures { OnOk result (words.new.items ≡ words.old.items ++ in_area area keys.now) }
{
    for key in keys {
        if key.area == area {
            words.push(key.key)?;
        }
    }
    Ok(())
}
