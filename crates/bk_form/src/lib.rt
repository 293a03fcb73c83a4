//! Whether a function is in form: what every later part relies on.
#![tactic(auto)]

ghost use Rattle.std.specs.Prelude.{◌≡◌, None, Some, IfErr, MatchResult, OnOk};
ghost use Rattle.bk_func.specs.declared.form.Place.{Place as FormPlace};
ghost use Rattle.bk_func.specs.Form.{IsInForm, strict};
ghost use Rattle.bk_form.specs.declared.FormError.TheVariants.{FormFault, Memory as NoMemory};
ghost use Rattle.bk_form.specs.Judged.{KeepsBefore, IsCause, IsRefusal};
ghost use Rattle.bk_form.specs.Names.{AreNames, IsScope, measure};
ghost use Rattle.bk_form.specs.Roots.{AreRoots};
ghost use Rattle.bk_form.specs.Walks.{IsFlow};

mod arity;
mod carried;
mod chains;
mod control;
mod dominators;
mod flow;
mod groups;
mod memory;
mod missing;
mod names;
mod naming;
mod numbers;
mod order;
mod parents;
mod places;
mod reach;
mod roots;
mod rounds;
mod sent;
mod shape;
mod types;
mod uses;
mod width;
mod words;

use crate::flow::Flow;
pub use crate::names::Names;
use crate::names::Scope;
use crate::numbers::Numbers;
use bk_func::{Func, Package};
pub use bk_func::{FormKind, Place};
use bk_ops::{Memory, Target};
use std::alloc::{AllocError, Global};

/// Why a function was not found to be in form.
#[derive(Clone, Copy, PartialEq, Eq, Debug)]
pub enum FormError {
    /// The first kind that is broken, at its first place in text order.
    FormFault { kind: FormKind, place: Place },
    Memory,
}

impl From<Memory> for FormError {
    ghost from_gives = { λ _ error. error ≡ NoMemory };

    fn from(_error: Memory) -> Self {
        FormError::Memory
    }
}

impl From<AllocError> for FormError {
    ghost from_gives = { λ _ error. error ≡ NoMemory };

    fn from(_error: AllocError) -> Self {
        FormError::Memory
    }
}

/// Ok exactly where the function is in form, want of memory aside.
pub fn check_form(
    alloc: Global,
    pkg: &Package,
    func: &Func,
    target: Target,
) -> Result<(), FormError>
    ensures ok { OnOk result (IsInForm pkg.now func.now target) }
    ensures fault { IfErr result (IsRefusal pkg.now func.now target) }
{
    let names = Names::new(alloc, pkg)?;
    check_form_with(alloc, pkg, &names, func, target)
}

/// The same, given the package's names, which are found once for all its functions.
pub fn check_form_with(
    alloc: Global,
    pkg: &Package,
    names: &Names,
    func: &Func,
    target: Target,
) -> Result<(), FormError>
    requires { AreNames pkg.now names.now }
    ensures ok { OnOk result (IsInForm pkg.now func.now target) }
    ensures fault { IfErr result (IsRefusal pkg.now func.now target) }
{
    if func.blocks.is_empty() {
        let place = Place::Block(0);
        return Err(FormError::FormFault {
            kind: FormKind::Control,
            place,
        });
    }
    check_blocks(alloc, pkg, names, func, target)
}

/// The kinds, of a function with blocks.
fn check_blocks(
    alloc: Global,
    pkg: &Package,
    names: &Names,
    func: &Func,
    target: Target,
) -> Result<(), FormError>
    requires { AreNames pkg.now names.now }
    ensures { MatchResult result (λ _. KeepsBefore (strict pkg.now target) func.now 8) (IsCause (strict pkg.now target) func.now) }
{
    let torn = control::first_fault(alloc, func)?;
    refuse(FormKind::Control, torn)?;
    let numbers = Numbers::new(alloc, func)?;
    let nodes = places::nodes(alloc, &func.blocks)?;
    let scope = Scope {
        pkg,
        names,
        func,
        numbers: &numbers,
        nodes: &nodes,
        target,
    };
    check_numbers(&scope)?;
    check_values(alloc, &scope)
}

/// The kinds that look at numbers and counts.
fn check_numbers(scope: &Scope) -> Result<(), FormError>
    requires scope { IsScope scope.now }
    requires kept { KeepsBefore (measure scope.now) scope.now.func.now 1 }
    ensures { MatchResult result (λ _. KeepsBefore (measure scope.now) scope.now.func.now 3) (IsCause (measure scope.now) scope.now.func.now) }
{
    let unnamed = missing::first_fault(scope);
    refuse(FormKind::Missing, unnamed)?;
    let uncounted = arity::first_fault(scope);
    refuse(FormKind::Arity, uncounted)
}

/// The kinds that look at what numbers name.
fn check_values(alloc: Global, scope: &Scope) -> Result<(), FormError>
    requires scope { IsScope scope.now }
    requires kept { KeepsBefore (measure scope.now) scope.now.func.now 3 }
    ensures { MatchResult result (λ _. KeepsBefore (measure scope.now) scope.now.func.now 8) (IsCause (measure scope.now) scope.now.func.now) }
{
    let flow = Flow::new(alloc, *scope)?;
    check_flow(alloc, &flow)
}

/// The same, the values standing by place.
fn check_flow(alloc: Global, flow: &Flow) -> Result<(), FormError>
    requires flow { IsFlow flow.now }
    requires kept { KeepsBefore (measure flow.now.scope) flow.now.scope.func.now 3 }
    ensures { MatchResult result (λ _. KeepsBefore (measure flow.now.scope) flow.now.scope.func.now 8) (IsCause (measure flow.now.scope) flow.now.scope.func.now) }
{
    let roots = roots::roots(alloc, flow)?;
    check_types(alloc, flow, &roots)?;
    check_uses(alloc, flow, &roots)
}

/// The kinds that look at values one by one.
fn check_types(alloc: Global, flow: &Flow, roots: &[Option<usize>]) -> Result<(), FormError>
    requires flow { IsFlow flow.now }
    requires roots { AreRoots flow.now.scope.func.now roots.now }
    requires kept { KeepsBefore (measure flow.now.scope) flow.now.scope.func.now 3 }
    ensures { MatchResult result (λ _. KeepsBefore (measure flow.now.scope) flow.now.scope.func.now 5) (IsCause (measure flow.now.scope) flow.now.scope.func.now) }
{
    let untyped = types::first_fault(alloc, flow, roots)?;
    refuse(FormKind::Ty, untyped)?;
    let unranged = width::first_fault(alloc, flow, roots)?;
    refuse(FormKind::Width, unranged)
}

/// The kinds that look at walks through the blocks, and at the order inside a block.
fn check_uses(alloc: Global, flow: &Flow, roots: &[Option<usize>]) -> Result<(), FormError>
    requires flow { IsFlow flow.now }
    requires roots { AreRoots flow.now.scope.func.now roots.now }
    requires kept { KeepsBefore (measure flow.now.scope) flow.now.scope.func.now 5 }
    ensures { MatchResult result (λ _. KeepsBefore (measure flow.now.scope) flow.now.scope.func.now 8) (IsCause (measure flow.now.scope) flow.now.scope.func.now) }
{
    let unreached = uses::first_fault(alloc, flow)?;
    refuse(FormKind::Use, unreached)?;
    check_memory(alloc, flow, roots)
}

/// The kinds that look at states of memory, and at the order inside a block.
fn check_memory(alloc: Global, flow: &Flow, roots: &[Option<usize>]) -> Result<(), FormError>
    requires flow { IsFlow flow.now }
    requires roots { AreRoots flow.now.scope.func.now roots.now }
    requires kept { KeepsBefore (measure flow.now.scope) flow.now.scope.func.now 6 }
    ensures { MatchResult result (λ _. KeepsBefore (measure flow.now.scope) flow.now.scope.func.now 8) (IsCause (measure flow.now.scope) flow.now.scope.func.now) }
{
    let initial = naming::first_init(flow.scope.func);
    let homes = naming::homes(alloc, flow, initial)?;
    let names = naming::names(alloc, flow, roots)?;
    let unchained = memory::first_fault(alloc, flow, roots, initial, &homes, &names)?;
    refuse(FormKind::Memory, unchained)?;
    let unordered = order::first_fault(alloc, flow, &homes, &names)?;
    refuse(FormKind::Order, unordered)
}

/// The refusal of a breach of this kind.
fn refuse(kind: FormKind, fault: Option<Place>) -> Result<(), FormError>
    ensures { MatchResult result (λ _. fault ≡ None) (λ e. (place : FormPlace) × (fault ≡ Some place) × (e ≡ FormFault kind place)) }
{
    match fault {
        Some(place) => Err(FormError::FormFault { kind, place }),
        None => Ok(()),
    }
}
