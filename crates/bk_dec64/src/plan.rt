// The signatures that the values of a function speak of are found.
ghost use Rattle.std.specs.Prelude.{◌≡◌, ◌==◌, ◌&&◌, ℕ, IfOk, OnOk, option_map, unwrap_or, None, Some, flat_map, if◌then◌else◌};
ghost use Rattle.std.specs.Option.{option_or};
ghost use Rattle.std.specs.BTreeMap.{get};
ghost use Rattle.std.specs.Ordering.{nat_cmp};
ghost use Rattle.bk_callees.specs.Callees.{AreCallees};
ghost use Rattle.bk_dec64.specs.Signatures.{signatures_of, args_of, call_named, results_of, role, is_call};
ghost use Rattle.bk_func.specs.Form.Signatures.{sig_of};
ghost use Rattle.bk_dec64.specs.Named.{seen_plan};

use crate::role::{Role, role_of};
use crate::tables::Plan;
use bk_callees::Callees;
use bk_func::{Aux, Block, Func, Package, Sig, Value, copy_sig};
use bk_ops::Ty;
use std::alloc::{AllocError, Global};
use std::collections::BTreeMap;

impl<'a> Plan<'a> {
    pub(crate) fn new(
        alloc: Global,
        func: &Func,
        pkg: &'a Package,
        callees: &'a Callees,
    ) -> Result<Plan<'a>, AllocError>
        requires { AreCallees pkg.now callees.now }
        ensures { IfOk result (λ plan. seen_plan plan ≡ signatures_of pkg.now func.now) }
    {
        let calls = calls(alloc, &func.blocks)?;
        let Ok(own) = copy_sig(alloc, &func.sig) else {
            return Err(AllocError);
        };
        Ok(Plan {
            pkg,
            callees,
            calls,
            own,
        })
    }

    /// The types of the arguments of the function that a call names, by what stands beside the call.
    pub(crate) fn args(&self, aux: Aux) -> &'a [Ty]
        ensures { result.now ≡ (seen_plan self.now).args aux }
    {
        args_of(self.callees, self.pkg, aux)
    }

    /// The types of what the call with this number gives.
    pub(crate) fn results(&self, call: u32) -> &'a [Ty]
        ensures { result.now ≡ (seen_plan self.now).results call }
    {
        match self.calls.get(&call).copied() {
            Some(aux) => results_of(self.callees, self.pkg, aux),
            None => &[],
        }
    }
}

/// The types of the arguments of the function that a call names.
fn args_of<'a>(callees: &Callees, pkg: &'a Package, aux: Aux) -> &'a [Ty]
    requires { AreCallees pkg.now callees.now }
    ensures { result.now ≡ args_of (sig_of pkg.now aux) }
{
    match callees.callee(pkg, aux) {
        Some(func) => &func.sig.args,
        None => &[],
    }
}

/// The types of the results of the function that a call names.
fn results_of<'a>(callees: &Callees, pkg: &'a Package, aux: Aux) -> &'a [Ty]
    requires { AreCallees pkg.now callees.now }
    ensures { result.now ≡ results_of (sig_of pkg.now aux) }
{
    match callees.callee(pkg, aux) {
        Some(func) => &func.sig.results,
        None => &[],
    }
}

/// What stands beside each call, by the call's number.
fn calls(alloc: Global, blocks: &[Block]) -> Result<BTreeMap<u32, Aux>, AllocError>
    ensures { IfOk result (λ map. (n : ℕ) → get nat_cmp map n ≡ option_map (λ v. v.aux) (call_named (flat_map (λ b. b.values) blocks.now) n)) }
{
    let mut calls = BTreeMap::new(alloc);
    for block in blocks {
        note_calls(&mut calls, &block.values)?;
    }
    Ok(calls)
}

fn note_calls(map: &mut BTreeMap<u32, Aux>, values: &[Value]) -> Result<(), AllocError>
    ensures { OnOk result ((n : ℕ) → get nat_cmp map.new n ≡ option_or (get nat_cmp map.old n) (option_map (λ v. v.aux) (call_named values.now n))) }
{
    for value in values {
        note_call(map, value)?;
    }
    Ok(())
}

fn note_call(map: &mut BTreeMap<u32, Aux>, value: &Value) -> Result<(), AllocError>
    ensures { OnOk result ((n : ℕ) → get nat_cmp map.new n ≡ option_or (get nat_cmp map.old n) (if is_call (role value.now) && value.now.id == n then Some value.now.aux else None)) }
{
    if role_of(value.op.family) == Role::Call {
        note(map, value.id, value.aux)?;
    }
    Ok(())
}

/// Notes what stands beside a call under its number, which has nothing yet.
fn note(map: &mut BTreeMap<u32, Aux>, number: u32, aux: Aux) -> Result<(), AllocError>
    ensures { OnOk result ((n : ℕ) → get nat_cmp map.new n ≡ option_or (get nat_cmp map.old n) (if number == n then Some aux else None)) }
{
    let first = map.get(&number).copied().unwrap_or(aux);
    map.insert(number, first)?;
    Ok(())
}
