//! The functions of a package that are not compiled.

ghost use Rattle.std.specs.Prelude.{◌≡◌, map, string_bytes, IfOk};
ghost use Rattle.bk_top.specs.Answer.{named_cause, cause_in, func_name};

use crate::refusal::RefusedFunc;
use bk_func::Package;
use bk_work::Refusal as FuncRefusal;
use std::alloc::{AllocError, Global};

/// The refused functions by their names.
pub fn named(
    alloc: Global,
    pkg: &Package,
    refusals: &[FuncRefusal],
) -> Result<Vec<RefusedFunc>, AllocError>
    ensures { IfOk result (λ refused. map named_cause refused.items ≡ map (cause_in pkg.now) refusals.now) }
{
    let mut refused = Vec::with_capacity(alloc, refusals.len())?;
    for refusal in refusals {
        let name = name_of(alloc, pkg, refusal.func)?;
        let cause = refusal.cause;
        refused.push(RefusedFunc { name, cause })?;
    }
    Ok(refused)
}

/// The name of the function at a place.
fn name_of(alloc: Global, pkg: &Package, place: u32) -> Result<String, AllocError>
    ensures { IfOk result (λ name. string_bytes name ≡ func_name pkg.now place) }
{
    let Some(func) = pkg.funcs.get(place as usize) else {
        return Ok(String::new(alloc));
    };
    match pkg.names.get(func.name as usize) {
        Some(name) => name.clone(),
        None => Ok(String::new(alloc)),
    }
}
