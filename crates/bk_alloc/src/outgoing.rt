// The words of the calls of a function.
ghost use Rattle.std.specs.Prelude.{◌≡◌, ◌==◌, ◌||◌, ℕ, Bool, false, IfOk, IfSome};
ghost use Rattle.std.specs.List.{list_any};
ghost use Rattle.bk_callees.specs.Callees.{AreCallees};
ghost use Rattle.bk_func.specs.Symbols.{panic_divide, panic_shift};
ghost use Rattle.bk_alloc.specs.Outgoing as spec;

use bk_callees::Callees;
use bk_func::{Aux, Block, Func, PANIC_DIVIDE, PANIC_SHIFT, Package, Sig, Value, count_words};
use bk_ops::{Family, Target, is_word_call};
use std::alloc::AllocError;

/// The most words that a call of the function passes, arguments and results together; 0 where there is no call.
pub(crate) fn outgoing(
    func: &Func,
    pkg: &Package,
    callees: &Callees,
    target: Target,
) -> Result<u32, AllocError>
    requires { AreCallees pkg.now callees.now }
    ensures { IfOk result (spec.IsOutgoing target pkg.now func.now) }
{
    let most = most_words(target, pkg, callees, &func.blocks)?;
    match u32::try_from(most) {
        Ok(most) => Ok(most),
        Err(_) => Err(AllocError),
    }
}

/// The most words of the functions that are called.
fn most_words(
    target: Target,
    pkg: &Package,
    callees: &Callees,
    blocks: &[Block],
) -> Result<u64, AllocError>
    requires { AreCallees pkg.now callees.now }
    ensures { IfOk result (spec.AreMost target (spec.calls blocks.now) pkg.now.funcs) }
{
    let mut most = 0;
    for block in blocks {
        most = take_calls(target, pkg, callees, most, &block.values)?;
    }
    Ok(most)
}

/// The most words with those of the calls among the values.
fn take_calls(
    target: Target,
    pkg: &Package,
    callees: &Callees,
    before: u64,
    values: &[Value],
) -> Result<u64, AllocError>
    requires { AreCallees pkg.now callees.now }
    ensures { (called : ℕ → Bool) → spec.AreMost target called pkg.now.funcs before → IfOk result (spec.AreMost target (λ s. called s || list_any (spec.is_call_of s) values.now) pkg.now.funcs) }
{
    let mut most = before;
    for value in values {
        most = take_call(target, pkg, callees, most, value)?;
    }
    Ok(most)
}

/// The most words with those of one value more, if it is a call.
fn take_call(
    target: Target,
    pkg: &Package,
    callees: &Callees,
    most: u64,
    value: &Value,
) -> Result<u64, AllocError>
    requires { AreCallees pkg.now callees.now }
    ensures { (called : ℕ → Bool) → spec.AreMost target called pkg.now.funcs most → IfOk result (spec.AreMost target (λ s. called s || spec.is_call_of s value.now) pkg.now.funcs) }
{
    match callee(value.op.family, value.aux) {
        Some(symbol) => {
            let words = words_named(target, pkg, callees, symbol)?;
            Ok(words.max(most))
        }
        None => Ok(most),
    }
}

/// The words of the first function with this name. A name that the package does not have is answered as want of memory.
fn words_named(
    target: Target,
    pkg: &Package,
    callees: &Callees,
    symbol: u32,
) -> Result<u64, AllocError>
    requires callees { AreCallees pkg.now callees.now }
    requires symbol { (symbol == panic_divide || symbol == panic_shift) ≡ false }
    ensures { IfOk result (λ words. words ≡ spec.words_named target pkg.now.funcs symbol) }
{
    if symbol as usize >= pkg.names.len() {
        return Err(AllocError);
    }
    match callees.callee(pkg, Aux::Sym(symbol)) {
        Some(callee) => words_of(target, &callee.sig),
        None => Ok(0),
    }
}

fn words_of(target: Target, sig: &Sig) -> Result<u64, AllocError>
    ensures { IfOk result (λ words. words ≡ spec.words_of target sig.now) }
{
    let args = count_words(target, &sig.args);
    match args.checked_add(count_words(target, &sig.results)) {
        Some(words) => Ok(words),
        None => Err(AllocError),
    }
}

/// The name that a call has, if it is that of a function which passes words.
fn callee(family: Family, aux: Aux) -> Option<u32>
    ensures callee { result ≡ spec.callee family aux }
    ensures symbol { IfSome result (λ s. (s == panic_divide || s == panic_shift) ≡ false) }
{
    let Aux::Sym(symbol) = aux else {
        return None;
    };
    if is_word_call(family) && symbol != PANIC_DIVIDE && symbol != PANIC_SHIFT {
        Some(symbol)
    } else {
        None
    }
}
