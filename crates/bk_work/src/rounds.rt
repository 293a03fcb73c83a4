// A round: the share, the order of the claims and the job.
ghost use Rattle.std.specs.Prelude.{◌≡◌, length};
ghost use Rattle.bk_share.specs.Passes.{announced_in, count_in};
ghost use Rattle.bk_work.specs.Rounds.{AreKeys, announced_for, entries_in};

use bk_func::{Func, Package};
use bk_ops::Target;
use bk_piece::Key;
use bk_rule::Rule;
use bk_share::Share;

/// What is done to each function.
#[derive(Drop)]
pub enum Job<'a> {
    /// It is lowered. These are the extra rules.
    Lower(&'a [Rule]),
    /// Its code is made. These are the places of the functions in the package in rising order, and the functions lowered.
    Emit(Vec<u32>, &'a [(Func, Vec<Key>)]),
}

/// A round. Its claim k is for the function at the place `order[k]` of the package.
#[derive(Drop)]
pub struct Round<'a> {
    pub(crate) share: Share,
    pub(crate) pkg: &'a Package,
    pub(crate) target: Target,
    pub(crate) order: &'a [u32],
    pub(crate) job: Job<'a>,
    ghost count_is: { count_in share ≡ length order.now },
    ghost announced_are: { announced_in share ≡ announced_for job },
    ghost keys_are: { AreKeys (entries_in job) },
}
