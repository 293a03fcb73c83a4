// The evaluation of one function of a package.
ghost use Rattle.std.specs.Prelude.{◌≡◌, ℕ, ◌<◌, ◌↔◌, false, [], length, None, Some, IfOk, OnOk, IsErrOf, slice_get, slice_index};
ghost use Rattle.bk_func.specs.Words.{fitted as meant_fitted};
ghost use Rattle.bk_func.specs.Meaning.{meaning};
ghost use Rattle.bk_mean.specs.Eval.{function_named, is_name, fit_at, program, fitted_outcome, EntersNone, AreFormed};
ghost use Rattle.bk_mean.specs.Seen.{seen_outcome};
ghost use Rattle.bk_mean.specs.declared.ready.Ready.{Ready as ReadyFunc};
ghost use Rattle.bk_mean.specs.Running.{NoneReady, held, Calls, MakesReady, Opens, RunsAll, RunsTo, Starts, Takes};
ghost use Rattle.bk_mean.specs.Symbols.{IsNaming};

use crate::fit::push_fitted;
use crate::machine::Machine;
use crate::prepare::prepare;
use crate::ready::Ready;
use crate::symbols::{Callee, Symbols};
use crate::turn::Next;
use crate::{EvalError, Outcome};
use bk_func::{Func, Package, Sig, TRAP_DIVIDE, TRAP_EXIT, TRAP_SHIFT, TRAP_STACK, fit};
use bk_ops::Target;
use std::alloc::{AllocError, Global};

/// Runs a function of a package on numbers.
///
/// `frames` has the bytes of each function's frame, `window` the bytes of the data window, and `stack`
/// is how many bytes are left to frames. At most `bound` blocks are entered, over all calls. The answer
/// is how the run ends, and the data window afterwards.
#[allow(clippy::too_many_arguments)]
pub fn eval(
    alloc: Global,
    pkg: &Package,
    target: Target,
    frames: &[u32],
    name: &str,
    args: &[u64],
    window: &[u8],
    stack: u64,
    bound: u64,
) -> Result<(Outcome, Vec<u8>), EvalError>
    ensures no_function { IsErrOf result EvalError.NoFunction ↔ (function_named pkg.now name.now ≡ None) }
    ensures bad_args { IsErrOf result EvalError.BadArgs ↔ (fit_at pkg.now target (function_named pkg.now name.now) args.now ≡ false) }
    ensures meant { IfOk result (λ r. (i : ℕ) → function_named pkg.now name.now ≡ Some i → AreFormed pkg.now → (seen_outcome r.0, r.1.items) ≡ meaning (program pkg.now target frames.now) i args.now window.now stack bound) }
    ensures none_entered { IfOk result (λ r. (i : ℕ) → function_named pkg.now name.now ≡ Some i → EntersNone bound stack (slice_index frames.now i) → (seen_outcome r.0, r.1.items) ≡ meaning (program pkg.now target frames.now) i args.now window.now stack bound) }
{
    let Some(place) = place_of(pkg, name) else {
        return Err(EvalError::NoFunction);
    };
    let func = &pkg.funcs[place];
    if !fit(target, &func.sig.args, args) {
        return Err(EvalError::BadArgs);
    }
    match run(
        alloc, pkg, target, frames, place, args, window, stack, bound,
    ) {
        Ok(answer) => Ok(answer),
        Err(_) => Err(EvalError::Memory),
    }
}

/// The place of the function with a name.
fn place_of(pkg: &Package, name: &str) -> Option<usize>
    ensures { result ≡ function_named pkg.now name.now }
{
    pkg.funcs.iter().position(|func| has_name(pkg, func, name))
}

fn has_name(pkg: &Package, func: &Func, name: &str) -> bool
    ensures { result ≡ is_name (slice_get pkg.now.names func.now.name) name.now }
{
    match pkg.names.get(func.name as usize) {
        Some(known) => known.as_str() == name,
        None => false,
    }
}

/// Runs the function at a place on numbers that fit its signature.
#[allow(clippy::too_many_arguments)]
fn run(
    alloc: Global,
    pkg: &Package,
    target: Target,
    frames: &[u32],
    place: usize,
    args: &[u64],
    window: &[u8],
    stack: u64,
    bound: u64,
) -> Result<(Outcome, Vec<u8>), AllocError>
    requires { place < length pkg.now.funcs }
    ensures meant { IfOk result (λ r. AreFormed pkg.now → (seen_outcome r.0, r.1.items) ≡ meaning (program pkg.now target frames.now) place args.now window.now stack bound) }
    ensures none_entered { IfOk result (λ r. EntersNone bound stack (slice_index frames.now place) → (seen_outcome r.0, r.1.items) ≡ meaning (program pkg.now target frames.now) place args.now window.now stack bound) }
{
    let func = &pkg.funcs[place];
    let symbols = Symbols::new(alloc, pkg)?;
    let mut readies = none_ready(alloc, pkg.funcs.len())?;
    let hand = fit_args(alloc, target, &func.sig, args)?;
    let mut machine = Machine {
        alloc,
        target,
        window: window.to_vec(alloc)?,
        hand,
        numbers: Vec::new(alloc),
        calls: Vec::new(alloc),
    };
    let outcome = enter_all(
        alloc,
        pkg,
        frames,
        place,
        stack,
        bound,
        &symbols,
        &mut readies,
        &mut machine,
    )?;
    let told = fit_outcome(alloc, target, &func.sig, outcome)?;
    let Machine { window, .. } = machine;
    Ok((told, window))
}

/// The arguments, each modulo 2 to the width of its type.
fn fit_args(alloc: Global, target: Target, sig: &Sig, args: &[u64]) -> Result<Vec<u64>, AllocError>
    ensures { IfOk result (λ fitted. fitted.items ≡ meant_fitted target sig.now.args args.now) }
{
    let mut fitted = Vec::with_capacity(alloc, args.len())?;
    push_fitted(&mut fitted, target, &sig.args, args)?;
    Ok(fitted)
}

/// The same with each result modulo 2 to the width of its type.
fn fit_outcome(
    alloc: Global,
    target: Target,
    sig: &Sig,
    outcome: Outcome,
) -> Result<Outcome, AllocError>
    ensures { IfOk result (λ o. seen_outcome o ≡ fitted_outcome target sig.now.results (seen_outcome outcome)) }
{
    match outcome {
        Outcome::Returned(numbers) => {
            let mut results = Vec::with_capacity(alloc, numbers.len())?;
            push_fitted(&mut results, target, &sig.results, &numbers)?;
            Ok(Outcome::Returned(results))
        }
        outcome => Ok(outcome),
    }
}

/// A list of so many functions, none of which is ready.
fn none_ready(alloc: Global, count: usize) -> Result<Vec<Option<Ready>>, AllocError>
    ensures { IfOk result (λ readies. NoneReady count readies.items) }
{
    let mut readies = Vec::with_capacity(alloc, count)?;
    for _ in 0..count {
        readies.push(None)?;
    }
    Ok(readies)
}

/// Begins with a function, and enters one block after the other, as many as the bound allows.
#[allow(clippy::too_many_arguments)]
fn enter_all(
    alloc: Global,
    pkg: &Package,
    frames: &[u32],
    place: usize,
    stack: u64,
    bound: u64,
    symbols: &Symbols,
    readies: &mut Vec<Option<Ready>>,
    machine: &mut Machine,
) -> Result<Outcome, AllocError>
    requires naming { IsNaming pkg.now symbols.now }
    requires place { place < length pkg.now.funcs }
    ensures { IfOk result (λ o. RunsAll machine.old.target pkg.now frames.now place stack bound readies.old.items (held machine.old) (seen_outcome o) machine.new.window.items) }
{
    let trap = begin(
        alloc, pkg, frames, place, stack, symbols, readies, machine, false,
    )?;
    match trap {
        Some(trap) => Ok(Outcome::Trapped(trap)),
        None => enter_blocks(alloc, pkg, frames, stack, bound, symbols, readies, machine),
    }
}

/// Enters one block after the other.
#[allow(clippy::too_many_arguments)]
fn enter_blocks(
    alloc: Global,
    pkg: &Package,
    frames: &[u32],
    stack: u64,
    bound: u64,
    symbols: &Symbols,
    readies: &mut Vec<Option<Ready>>,
    machine: &mut Machine,
) -> Result<Outcome, AllocError>
    requires { IsNaming pkg.now symbols.now }
    ensures { IfOk result (λ o. RunsTo machine.old.target pkg.now frames.now stack bound readies.old.items (held machine.old) (seen_outcome o) machine.new.window.items) }
{
    for _ in 0..bound {
        match machine.advance(pkg, readies)? {
            Next::Enter => {}
            Next::Call { callee, on_words } => {
                let trap = begin_named(
                    alloc, pkg, frames, callee, stack, symbols, readies, machine, on_words,
                )?;
                if let Some(trap) = trap {
                    return Ok(Outcome::Trapped(trap));
                }
            }
            Next::Trap(number) => return Ok(Outcome::Trapped(number)),
            Next::Wild(address) => return Ok(Outcome::Wild(address)),
            Next::Return => return Ok(Outcome::Returned(machine.hand.to_vec(alloc)?)),
        }
    }
    Ok(Outcome::Going)
}

/// Begins a call, or gives the number of its trap.
#[allow(clippy::too_many_arguments)]
fn begin_named(
    alloc: Global,
    pkg: &Package,
    frames: &[u32],
    callee: Callee,
    stack: u64,
    symbols: &Symbols,
    readies: &mut Vec<Option<Ready>>,
    machine: &mut Machine,
    on_words: bool,
) -> Result<Option<u8>, AllocError>
    requires { IsNaming pkg.now symbols.now }
    ensures target { machine.new.target ≡ machine.old.target }
    ensures calls { IfOk result (λ trap. Calls machine.old.target pkg.now frames.now stack callee on_words readies.old.items readies.new.items (held machine.old) (held machine.new) trap) }
{
    match callee {
        Callee::PanicDivide => Ok(Some(TRAP_DIVIDE)),
        Callee::PanicShift => Ok(Some(TRAP_SHIFT)),
        Callee::Missing => Ok(Some(TRAP_EXIT)),
        Callee::Func(place) => begin(
            alloc, pkg, frames, place, stack, symbols, readies, machine, on_words,
        ),
    }
}

/// Begins a call of the function at a place, or gives the number of its trap.
#[allow(clippy::too_many_arguments)]
fn begin(
    alloc: Global,
    pkg: &Package,
    frames: &[u32],
    place: usize,
    stack: u64,
    symbols: &Symbols,
    readies: &mut Vec<Option<Ready>>,
    machine: &mut Machine,
    on_words: bool,
) -> Result<Option<u8>, AllocError>
    requires { IsNaming pkg.now symbols.now }
    ensures target { machine.new.target ≡ machine.old.target }
    ensures starts { IfOk result (λ trap. place < length pkg.now.funcs → Starts machine.old.target pkg.now frames.now place stack on_words readies.old.items readies.new.items (held machine.old) (held machine.new) trap) }
{
    let Some(func) = pkg.funcs.get(place) else {
        return Ok(Some(TRAP_EXIT));
    };
    let have = machine.stack(stack);
    let frame = frame_of(frames, place);
    if have < frame {
        return Ok(Some(TRAP_STACK));
    }
    make_ready(alloc, symbols, func, readies, place)?;
    open(place, func, readies, have - frame, on_words, machine)?;
    Ok(None)
}

/// Begins a call of the function at a place, if it is ready, with so many bytes of stack left to it.
fn open(
    place: usize,
    func: &Func,
    readies: &[Option<Ready>],
    stack: u64,
    on_words: bool,
    machine: &mut Machine,
) -> Result<(), AllocError>
    ensures target { machine.new.target ≡ machine.old.target }
    ensures opens { OnOk result ((r : ReadyFunc) → slice_get readies.now place ≡ Some (Some r) → Opens place func.now.sig r stack on_words (held machine.old) (held machine.new)) }
{
    let Some(Some(ready)) = readies.get(place) else {
        return Ok(());
    };
    open_ready(place, &func.sig, ready, stack, on_words, machine)
}

/// Begins a call of a function that is ready.
fn open_ready(
    place: usize,
    sig: &Sig,
    ready: &Ready,
    stack: u64,
    on_words: bool,
    machine: &mut Machine,
) -> Result<(), AllocError>
    ensures target { machine.new.target ≡ machine.old.target }
    ensures opens { OnOk result (Opens place sig.now ready.now stack on_words (held machine.old) (held machine.new)) }
{
    take(machine, on_words, sig)?;
    machine.begin(place, ready, stack)?;
    Ok(())
}

/// Takes the words that were written for a call at hand, if the call is on words.
fn take(machine: &mut Machine, on_words: bool, sig: &Sig) -> Result<(), AllocError>
    ensures target { machine.new.target ≡ machine.old.target }
    ensures took { OnOk result (Takes on_words (length sig.now.args) (held machine.old) (held machine.new)) }
{
    if !on_words {
        return Ok(());
    }
    machine.take_words(sig.args.len())?;
    Ok(())
}

/// The bytes of the frame of the function at a place.
fn frame_of(frames: &[u32], place: usize) -> u64
    ensures { result ≡ slice_index frames.now place }
{
    match frames.get(place) {
        Some(frame) => u64::from(*frame),
        None => 0,
    }
}

/// Makes the function at a place ready, once.
fn make_ready(
    alloc: Global,
    symbols: &Symbols,
    func: &Func,
    readies: &mut Vec<Option<Ready>>,
    place: usize,
) -> Result<(), AllocError>
    ensures { OnOk result (MakesReady symbols.now func.now place readies.old.items readies.new.items) }
{
    if place < readies.len() && readies[place].is_none() {
        let ready = prepare(alloc, symbols, func)?;
        readies[place] = Some(ready);
    }
    Ok(())
}
