//! `compile TARGET WORKERS [RULES]`.

ghost use Rattle.std.specs.Prelude.{◌≤◌, length, IfOk, IfErr};
ghost use Rattle.bk_link.specs.Conditions.{IsNamed};
ghost use Rattle.bk_work.specs.Package.{IsCompiled};
ghost use Rattle.bk_top.specs.Commands.{AreWorkers, compile_row, seen_request};
ghost use Rattle.bk_top.specs.Package.{text_limit};
ghost use Rattle.bk_top.specs.Answer.{Compiles, IsObjectRefusal, Spoils};

use crate::command::Request;
use crate::refusal::Refusal;
use crate::rows::input::package_of;
use crate::rows::refused::named;
use bk_dump_laws::names_of_texts;
use bk_func::Package;
use bk_io::Gate;
use bk_ops::Target;
use bk_rule::Rule;
use bk_work::{PackageError, compile_package};
use std::alloc::Global;
use std::thread::Threads;

/// The object of the package that the text spells, with these extra rules.
pub fn compile<R: Threads + Sync, G: Gate + Sync>(
    rt: &R,
    alloc: Global,
    text: &[u8],
    request: Request<'_>,
    rules: &[Rule],
    gate: &G,
) -> Result<Vec<u8>, Refusal>
    requires text { length text.now ≤ text_limit }
    requires workers { AreWorkers request.workers }
    ensures made { IfOk result (λ bytes. Compiles request.entry.target rules.now text.now bytes.items) }
    ensures cause { IfErr result (Spoils (compile_row (seen_request request.entry)) rules.now text.now) }
{
    names_of_texts();
    let pkg = package_of(alloc, text, request.target)?;
    object_of(
        rt,
        alloc,
        &pkg,
        request.target,
        rules,
        request.workers,
        gate,
    )
}

/// The object of a package; its refused functions are told by their names.
#[allow(clippy::too_many_arguments)]
pub fn object_of<R: Threads + Sync, G: Gate + Sync>(
    rt: &R,
    alloc: Global,
    pkg: &Package,
    target: Target,
    rules: &[Rule],
    workers: u64,
    gate: &G,
) -> Result<Vec<u8>, Refusal>
    requires named { IsNamed pkg.now }
    requires workers { AreWorkers workers }
    ensures made { IfOk result (λ bytes. IsCompiled pkg.now target rules.now bytes.items) }
    ensures cause { IfErr result (IsObjectRefusal pkg.now target rules.now) }
{
    match compile_package(rt, alloc, pkg, target, rules, workers as u32, gate) {
        Ok(bytes) => Ok(bytes),
        Err(PackageError::Functions(refusals)) => {
            Err(Refusal::Functions(named(alloc, pkg, &refusals)?))
        }
        Err(PackageError::Text(bytes)) => Err(Refusal::Text { bytes }),
        Err(PackageError::Memory) => Err(Refusal::Memory),
    }
}
