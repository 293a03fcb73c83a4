// Runs: calls that are under way, one upon the other.
ghost use Rattle.std.specs.Prelude.{◌≡◌, ◌+◌, ◌≤◌, ◌++◌, ◌↔◌, IfOk, OnOk, IsTrue, length, replicate};
ghost use Rattle.bk_mean.specs.Running.{held, keep_all, kept_number as meant_kept, stack_left, top, Advanced, Begun, Ended, Moved, MovesOn, TakesWords};

use crate::fit::fitted;
use crate::number::number_at;
use crate::ready::{Kept, Ready};
use crate::step::CallWords;
use crate::symbols::Callee;
use crate::turn::{Next, Scene, go_on, put};
use crate::words::{Words, push_words};
use bk_func::{Func, Package, TRAP_EXIT};
use bk_ops::{Family, Target};
use std::alloc::{AllocError, Global};

/// A call that is under way.
#[derive(Drop)]
pub(crate) struct Activation {
    /// The place of its function.
    pub(crate) func: usize,
    /// Where its numbers begin: those of its values, one that stays 0, and those of its arguments.
    pub(crate) base: usize,
    /// The block that it is in, and the next of the block's values in their order.
    pub(crate) block: usize,
    pub(crate) next: usize,
    /// The value that it called a function by.
    pub(crate) called_by: usize,
    /// The bytes of stack that are left to calls in it.
    pub(crate) stack: u64,
    pub(crate) words: CallWords,
}

/// A run of a package.
#[derive(Drop)]
pub(crate) struct Machine {
    pub(crate) alloc: Global,
    pub(crate) target: Target,
    pub(crate) window: Vec<u8>,
    /// The numbers at hand: arguments of a call, results of a return, or those of phis.
    pub(crate) hand: Vec<u64>,
    pub(crate) numbers: Vec<u64>,
    pub(crate) calls: Vec<Activation>,
}

impl Machine {
    /// The stack that is left to a call, and at the start the given one.
    pub(crate) fn stack(&self, start: u64) -> u64
        ensures { result ≡ stack_left (top self.now.calls.items) start }
    {
        match self.calls.last() {
            Some(call) => call.stack,
            None => start,
        }
    }

    /// Takes the words that were written for a call behind those at hand, so many in all.
    pub(crate) fn take_words(&mut self, count: usize) -> Result<(), AllocError>
        ensures target { self.new.target ≡ self.old.target }
        ensures took { OnOk result (TakesWords count (held self.old) (held self.new)) }
    {
        let regs = self.hand.len();
        if let Some(call) = self.calls.last_mut() {
            push_words(
                &mut self.hand,
                &call.words.out,
                regs as u64,
                count.saturating_sub(regs) as u64,
            )?;
            call.words.out.clear();
        }
        Ok(())
    }

    /// Begins a call of a function on the numbers at hand.
    pub(crate) fn begin(&mut self, func: usize, ready: &Ready, stack: u64) -> Result<(), AllocError>
        ensures target { self.new.target ≡ self.old.target }
        ensures begun { OnOk result (Begun func (length ready.now.values.items) stack (held self.old) (held self.new)) }
    {
        let base = self.numbers.len();
        push_frame(&mut self.numbers, ready.values.len(), &self.hand)?;
        let words = CallWords {
            out: Words::new(self.alloc),
            back: Words::new(self.alloc),
            regs: Vec::new(self.alloc),
        };
        self.calls.push(Activation {
            func,
            base,
            block: 0,
            next: 0,
            called_by: 0,
            stack,
            words,
        })?;
        Ok(())
    }

    /// Goes on until a block is entered, a function is called or the run ends.
    pub(crate) fn advance(
        &mut self,
        pkg: &Package,
        readies: &[Option<Ready>],
    ) -> Result<Next, AllocError>
        ensures target { self.new.target ≡ self.old.target }
        ensures advanced { IfOk result (λ next. Advanced self.old.target pkg.now readies.now (held self.old) (held self.new) next) }
    {
        while let Some(mut call) = self.calls.pop() {
            let next = go(
                self.target,
                pkg,
                readies,
                &mut call,
                &mut self.window,
                &mut self.hand,
                &mut self.numbers,
            )?;
            if !is_return(next) {
                self.calls.push(call)?;
                return Ok(next);
            }
            self.end(&call, pkg, readies);
        }
        Ok(Next::Return)
    }

    /// Ends a call, the results of which are at hand: its caller keeps of them what its values do; where
    /// there is no caller, they stay at hand.
    fn end(&mut self, call: &Activation, pkg: &Package, readies: &[Option<Ready>])
        ensures ended { Ended self.old.target pkg.now readies.now (top self.old.calls.items) call.now (held self.old) (held self.new) }
        ensures window { self.new.window ≡ self.old.window }
        ensures calls { self.new.calls ≡ self.old.calls }
        ensures target { self.new.target ≡ self.old.target }
    {
        let Some(caller) = self.calls.last() else {
            return;
        };
        let (Some(func), Some(Some(ready))) = (pkg.funcs.get(call.func), readies.get(caller.func))
        else {
            return;
        };
        let Some(kept) = ready.kept.get(caller.called_by) else {
            return;
        };
        self.numbers.truncate(call.base);
        keep(
            &mut self.numbers,
            self.target,
            func.sig.args.len(),
            caller.base,
            kept,
            &self.hand,
        );
    }
}

/// Appends the numbers of a call: a 0 for each of so many values and one more, and its arguments.
fn push_frame(numbers: &mut Vec<u64>, values: usize, args: &[u64]) -> Result<(), AllocError>
    ensures { OnOk result (numbers.new.items ≡ numbers.old.items ++ (replicate (values + 1) 0 ++ args.now)) }
{
    push_zeros(numbers, values)?;
    numbers.extend_from_slice(args)?;
    Ok(())
}

/// Appends a 0 for each of so many values, and one more.
fn push_zeros(numbers: &mut Vec<u64>, values: usize) -> Result<(), AllocError>
    ensures { OnOk result (numbers.new.items ≡ numbers.old.items ++ replicate (values + 1) 0) }
{
    let end = numbers
        .len()
        .checked_add(values)
        .and_then(|end| end.checked_add(1));
    let Some(end) = end else {
        return Err(AllocError);
    };
    numbers.resize(end, 0)?;
    Ok(())
}

/// Goes on with a call until its block is left.
#[allow(clippy::too_many_arguments)]
fn go(
    target: Target,
    pkg: &Package,
    readies: &[Option<Ready>],
    call: &mut Activation,
    window: &mut Vec<u8>,
    hand: &mut Vec<u64>,
    numbers: &mut Vec<u64>,
) -> Result<Next, AllocError>
    ensures { IfOk result (λ next. Moved target pkg.now readies.now call.old call.new (record { window = window.old.items; hand = hand.old.items; numbers = numbers.old.items }) (record { window = window.new.items; hand = hand.new.items; numbers = numbers.new.items }) next) }
{
    let (Some(func), Some(Some(ready))) = (pkg.funcs.get(call.func), readies.get(call.func)) else {
        return Ok(Next::Trap(TRAP_EXIT));
    };
    if call.base > numbers.len() {
        return Ok(Next::Trap(TRAP_EXIT));
    }
    let next = go_in(target, func, ready, call, window, hand, numbers)?;
    Ok(next)
}

/// Goes on with a call of a function that is ready.
fn go_in(
    target: Target,
    func: &Func,
    ready: &Ready,
    call: &mut Activation,
    window: &mut Vec<u8>,
    hand: &mut Vec<u64>,
    numbers: &mut Vec<u64>,
) -> Result<Next, AllocError>
    requires { call.old.base ≤ length numbers.old.items }
    ensures { IfOk result (λ next. MovesOn target func.now ready.now call.old call.new (record { window = window.old.items; hand = hand.old.items; numbers = numbers.old.items }) (record { window = window.new.items; hand = hand.new.items; numbers = numbers.new.items }) next) }
{
    let scene = Scene {
        target,
        func,
        ready,
    };
    let (_, own) = numbers.split_at_mut(call.base);
    let next = go_on(scene, call, own, window, hand)?;
    Ok(next)
}

fn is_return(next: Next) -> bool
    ensures { IsTrue result ↔ (next ≡ Next.Return) }
{
    match next {
        Next::Return => true,
        _ => false,
    }
}

/// Gives results of a call to the values of its caller that keep them, from the first place on, where the
/// function that was called takes so many arguments.
fn keep(
    numbers: &mut [u64],
    target: Target,
    count: usize,
    first: usize,
    kept: &[Kept],
    given: &[u64],
)
    ensures { numbers.new ≡ keep_all target count first kept.now given.now numbers.old }
{
    for one in kept {
        put(
            numbers,
            first,
            one.place,
            kept_number(target, count, one, given),
        );
    }
}

/// The number of a value that keeps a result: a result is cut to its type, and a word counted behind the
/// arguments.
fn kept_number(target: Target, count: usize, kept: &Kept, given: &[u64]) -> u64
    ensures { result ≡ meant_kept target count kept.now given.now }
{
    match kept.family {
        Family::SelectN => fitted(target, kept.ty, number_at(given, kept.index)),
        Family::ResWord => number_at(given, kept.index.saturating_sub(count as u64)),
        _ => number_at(given, kept.index),
    }
}
