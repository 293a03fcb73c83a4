//! `eval TARGET NAME BOUND ARG..`.

ghost use Rattle.std.specs.Prelude.{◌≡◌, ◌++◌, ◌^◌, ◌<◌, ℕ, [], None, Some, true, slice_get, map, string_bytes, IfOk, IfErr, OnOk};
ghost use Rattle.bk_mean.specs.Eval.{function_named, is_name, fit_at, AreFormed};
ghost use Rattle.bk_mean.specs.Seen.{seen_outcome as meant};
ghost use Rattle.bk_work.specs.Package.{AreFrames};
ghost use Rattle.bk_top.specs.Commands.{evaluate_row, seen_call};
ghost use Rattle.bk_top.specs.Outcomes.{seen_outcome};
ghost use Rattle.bk_top.specs.Evaluating.{rounded, filled, window_of, told_outcome, told, ending, line_of, Evaluates};
ghost use Rattle.bk_top.specs.Answer.{IsFrameRefusal, Spoils};

use crate::command::call::Call;
use crate::refusal::Refusal;
use crate::rows::call::{numbers_for, own_stack};
use crate::rows::input::package_of;
use crate::rows::outcome::{Outcome, outcome_line};
use crate::rows::refused::named;
use bk_func::{Func, Memory, Package, Sig, Var};
use bk_mean::{EvalError, eval};
use bk_ops::Target;
use bk_work::{PackageError, frames_of};
use std::alloc::{AllocError, Global};

/// The place of the first function with a name.
fn place_of(pkg: &Package, name: &str) -> Option<usize>
    ensures { result ≡ function_named pkg.now name.now }
{
    pkg.funcs.iter().position(|func| has_name(pkg, func, name))
}

fn has_name(pkg: &Package, func: &Func, name: &str) -> bool
    ensures { result ≡ is_name (slice_get pkg.now.names func.now.name) name.now }
{
    match pkg.names.get(func.name as usize) {
        Some(known) => known.as_str() == name,
        None => false,
    }
}

/// A length up to the next multiple of 8.
fn rounded(size: u32) -> usize
    ensures value { result ≡ rounded size }
    ensures few { result < 2 ^ 33 }
{
    let size = size as usize;
    size + (8 - size % 8) % 8
}

/// Adds bytes, cut or filled up with zeros to a length.
fn push_filled(window: &mut Vec<u8>, len: usize, bytes: &[u8]) -> Result<(), AllocError>
    requires { len < 2 ^ 33 }
    ensures { OnOk result (window.new.items ≡ window.old.items ++ filled len bytes.now) }
{
    let own = len.min(bytes.len());
    window.extend_from_slice(&bytes[..own])?;
    window.resize(window.len() + (len - own), 0)
}

/// The data window that variables begin with, each at a multiple of 8.
#[tactic(auto, unfolding(crate::specs::Evaluating::window_of))]
fn window_of(alloc: Global, vars: &[Var]) -> Result<Vec<u8>, AllocError>
    ensures { IfOk result (λ window. window.items ≡ window_of vars.now) }
{
    let mut window = Vec::new(alloc);
    for var in vars {
        push_filled(&mut window, rounded(var.size), &var.bytes)?;
    }
    Ok(window)
}

/// The evaluator's outcome, to be told.
fn outcome_of(end: bk_mean::Outcome) -> Outcome
    ensures { seen_outcome result ≡ told_outcome (meant end) }
{
    match end {
        bk_mean::Outcome::Returned(numbers) => Outcome::Returned(numbers),
        bk_mean::Outcome::Trapped(number) => Outcome::Trapped(number),
        bk_mean::Outcome::Going => Outcome::Going,
        bk_mean::Outcome::Wild(address) => Outcome::Wild(address),
    }
}

/// The bytes of each function's frame in its code.
fn frames(alloc: Global, pkg: &Package, target: Target) -> Result<Vec<u32>, Refusal>
    ensures frames { IfOk result (λ frames. AreFrames pkg.now target frames.items) }
    ensures cause { IfErr result (IsFrameRefusal pkg.now target) }
{
    match frames_of(alloc, pkg, target) {
        Ok(frames) => Ok(frames),
        Err(PackageError::Functions(refusals)) => {
            Err(Refusal::Functions(named(alloc, pkg, &refusals)?))
        }
        Err(PackageError::Memory) => Err(Refusal::Memory),
        Err(PackageError::Text(_)) => unreachable!(),
    }
}

/// A function by its name, the numbers of its arguments, a bound on its run, and the bytes of each function's frame.
#[derive(Clone, Copy)]
struct Run<'a> {
    name: &'a str,
    args: &'a [u64],
    bound: u64,
    frames: &'a [u32],
}

/// How a call ends of a function that is there, with arguments that fit it, and the data window then.
fn end_of(
    alloc: Global,
    pkg: &Package,
    target: Target,
    run: Run<'_>,
) -> Result<(Outcome, Vec<u8>), Memory>
    requires there { function_named pkg.now run.name.now ≡ None → ⊥ }
    requires fit { fit_at pkg.now target (function_named pkg.now run.name.now) run.args.now ≡ true }
    ensures { IfOk result (λ end. (place : ℕ) → function_named pkg.now run.entry.name.now ≡ Some place → AreFormed pkg.now → (seen_outcome end.0, end.1.items) ≡ told (ending pkg.now target run.entry.frames.now place run.entry.args.now run.entry.bound)) }
{
    let window = window_of(alloc, &pkg.vars)?;
    let stack = own_stack();
    match eval(
        alloc, pkg, target, run.frames, run.name, run.args, &window, stack, run.bound,
    ) {
        Ok((end, window)) => Ok((outcome_of(end), window)),
        Err(EvalError::Memory) => Err(Memory),
        Err(EvalError::NoFunction | EvalError::BadArgs) => unreachable!(),
    }
}

/// The line of a call of a function that is there, with arguments that fit it.
fn line(
    alloc: Global,
    pkg: &Package,
    target: Target,
    sig: &Sig,
    run: Run<'_>,
) -> Result<String, Memory>
    requires there { function_named pkg.now run.name.now ≡ None → ⊥ }
    requires fit { fit_at pkg.now target (function_named pkg.now run.name.now) run.args.now ≡ true }
    ensures { IfOk result (λ line. (place : ℕ) → function_named pkg.now run.entry.name.now ≡ Some place → AreFormed pkg.now → string_bytes line ≡ line_of target sig.now (told (ending pkg.now target run.entry.frames.now place run.entry.args.now run.entry.bound))) }
{
    let (outcome, window) = end_of(alloc, pkg, target, run)?;
    Ok(outcome_line(alloc, target, &sig.results, &outcome, &window)?)
}

/// The line that tells how a call of a function of the package that the text spells ends.
pub fn evaluate(
    alloc: Global,
    text: &[u8],
    target: Target,
    call: Call<'_>,
) -> Result<Vec<u8>, Refusal>
    ensures made { IfOk result (λ bytes. Evaluates target (seen_call call.entry) text.now bytes.items) }
    ensures cause { IfErr result (Spoils (evaluate_row target (seen_call call.entry)) [] text.now) }
{
    let pkg = package_of(alloc, text, target)?;
    let frames = frames(alloc, &pkg, target)?;
    let name = call.name.as_str();
    let Some(place) = place_of(&pkg, name) else {
        return Err(Refusal::Function);
    };
    let sig = &pkg.funcs[place].sig;
    let args = match numbers_for(alloc, target, &sig.args, call.args) {
        Ok(Some(args)) => args,
        Ok(None) => return Err(Refusal::Arguments),
        Err(_) => return Err(Refusal::Memory),
    };
    let run = Run {
        name,
        args: &args,
        bound: call.bound,
        frames: &frames,
    };
    match line(alloc, &pkg, target, sig, run) {
        Ok(line) => Ok(line.into_bytes()),
        Err(_) => Err(Refusal::Memory),
    }
}
