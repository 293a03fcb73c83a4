//! `load N TARGET WORKERS`.

ghost use Rattle.std.specs.Prelude.{◌≡◌, ◌%◌, ◌^◌, [], IfOk, IfErr, string_bytes, sum_by};
ghost use Rattle.bk_dump.specs.Generate.{generated};
ghost use Rattle.bk_top.specs.Commands.{AreWorkers, IsCount, load_row, seen_trial};
ghost use Rattle.bk_top.specs.Answer.{Measures, Spoils, measures};

use crate::command::Trial;
use crate::refusal::Refusal;
use crate::rows::check::count_values;
use crate::rows::compile::object_of;
use bk_dump::generate;
use bk_func::Package;
use bk_io::Gate;
use std::alloc::{AllocError, Global};
use std::thread::Threads;

/// The line that measures a generated package and its object.
pub fn load<R: Threads + Sync, G: Gate + Sync>(
    rt: &R,
    alloc: Global,
    trial: Trial,
    gate: &G,
) -> Result<Vec<u8>, Refusal>
    requires count { IsCount trial.count }
    requires workers { AreWorkers trial.workers }
    ensures made { IfOk result (λ bytes. Measures (seen_trial trial) bytes.items) }
    ensures cause { IfErr result (Spoils (load_row (seen_trial trial)) [] []) }
{
    let Ok(pkg) = generate(alloc, trial.count) else {
        return Err(Refusal::Memory);
    };
    let object = object_of(rt, alloc, &pkg, trial.target, &[], trial.workers, gate)?;
    let line = measures_line(alloc, &pkg, &object)?;
    Ok(line.into_bytes())
}

/// The counts of a package, the length of its object, and the sum of the object's bytes.
fn measures_line(alloc: Global, pkg: &Package, object: &[u8]) -> Result<String, AllocError>
    ensures { IfOk result (λ line. string_bytes line ≡ measures pkg.now object.now) }
{
    let functions = pkg.funcs.len();
    let values = count_values(&pkg.funcs);
    let bytes = object.len();
    let sum = sum_of(object);
    format!(in alloc; "functions {functions} values {values} bytes {bytes} sum {sum}\n")
}

/// The sum of bytes modulo 2^32.
fn sum_of(bytes: &[u8]) -> u32
    ensures { result ≡ sum_by (λ b. b) bytes.now % 2 ^ 32 }
{
    let mut sum = 0u32;
    for byte in bytes {
        sum = sum.wrapping_add(u32::from(*byte));
    }
    sum
}
