// The signatures that the values of a function speak of, in tables.
ghost use Rattle.bk_callees.specs.Callees.{AreCallees};

use bk_callees::Callees;
use bk_func::{Aux, Package, Sig};
use std::collections::BTreeMap;

/// The signatures that the values of a function speak of.
#[derive(Drop)]
pub(crate) struct Plan<'a> {
    pub(crate) pkg: &'a Package,
    pub(crate) callees: &'a Callees,
    /// By the number of a call what stands beside it.
    pub(crate) calls: BTreeMap<u32, Aux>,
    /// The function's own signature.
    pub(crate) own: Sig,
    ghost callees_are: { AreCallees pkg.now callees.now },
}
