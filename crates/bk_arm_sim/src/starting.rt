//! The machine at the start of a function.
ghost use Rattle.std.specs.Prelude.{◌≡◌, ◌≤◌, ◌<◌, ◌+◌, ◌*◌, ◌^◌, ◌++◌, ℕ, length, replicate, slice_index, true, false, ◌↔◌, IfOk, IsErrOf, IsSomeAnd};
ghost use Rattle.bk_num.specs.Bytes.{each_bytes};
ghost use Rattle.bk_arm_isa.specs.Machine.{word_bytes, start_regs};
ghost use Rattle.bk_ops.specs.declared.types.Target.TheVariants.{Arm};
ghost use Rattle.bk_func.specs.Words.{all_words, count_words};
ghost use Rattle.bk_func.specs.Arguments.{fit};
ghost use Rattle.bk_elf.specs.Object.{IsObject};
ghost use Rattle.bk_elf.specs.Functions.{has_function, function_of};
ghost use Rattle.bk_arm_sim.specs.Started.{IsStarted};

use crate::errors::StartError;
use crate::machine::Machine;
use crate::signature::{WORD_SIZE, push_words};
use bk_elf::{Image, Memory, function};
use bk_func::{Sig, copy_sig, count_words, fit};
use bk_num::{HALT, STACK_TOP, push_each};
use bk_ops::Target;
use std::alloc::{AllocError, Global};

// The bytes of the constants.
fn pool_bytes(alloc: Global, constants: &[u64]) -> Result<Vec<u8>, AllocError>
    ensures { IfOk result (λ bytes. bytes.items ≡ each_bytes 8 constants.now) }
{
    let mut bytes = Vec::new(alloc);
    push_each(&mut bytes, 8, constants)?;
    Ok(bytes)
}

// R10 is the stack bound, R13 the stack's top and R14 the return address that halts.
fn registers(alloc: Global, stack: u64) -> Result<Vec<u64>, AllocError>
    requires { stack ≤ 1048576 }
    ensures value { IfOk result (λ regs. regs.items ≡ start_regs stack) }
    ensures fit { IfOk result (λ regs. (k : ℕ) → slice_index regs.items k < 2 ^ 32) }
{
    let bound = STACK_TOP - stack;
    let regs = [0, 0, 0, 0, 0, 0, 0, 0, 0, 0, bound, 0, 0, STACK_TOP, HALT];
    Ok(Vec::from_array(alloc, regs)?)
}

// Zeros, the words of the arguments, and zeros for the words of the results.
fn stack_bytes(alloc: Global, sig: &Sig, args: &[u64], stack: u64) -> Result<Vec<u8>, AllocError>
    requires stack { stack ≤ 1048576 }
    requires few { length sig.now.args + length sig.now.results ≤ 64 }
    requires fit { fit Arm sig.now.args args.now ≡ true }
    ensures { IfOk result (λ bytes. bytes.items ≡ replicate stack 0 ++ (word_bytes (all_words Arm sig.now.args args.now) ++ replicate (4 * count_words Arm sig.now.results) 0)) }
{
    let mut bytes = Vec::new(alloc);
    bytes.resize(stack as usize, 0)?;
    push_words(&mut bytes, &sig.args, args)?;
    let results = WORD_SIZE * count_words(Target::Arm, &sig.results);
    bytes.resize(bytes.len() + results as usize, 0)?;
    Ok(bytes)
}

// The machine at the start of the function at an address.
fn started(
    alloc: Global,
    image: &Image,
    address: u32,
    sig: &Sig,
    args: &[u64],
    window: &[u8],
    stack: u64,
) -> Result<Machine, Memory>
    requires code { 4 * length image.now.text + 8 * length image.now.pool ≤ 16777216 }
    requires window { length window.now ≤ 1048576 }
    requires stack { stack ≤ 1048576 }
    requires few { length sig.now.args + length sig.now.results ≤ 64 }
    requires fit { fit Arm sig.now.args args.now ≡ true }
    ensures { IfOk result (IsStarted image.now address sig.now args.now window.now stack) }
{
    let regs = registers(alloc, stack)?;
    let text = Vec::from_slice(alloc, &image.text)?;
    let pool = pool_bytes(alloc, &image.pool)?;
    let window = Vec::from_slice(alloc, window)?;
    let stack_bytes = stack_bytes(alloc, sig, args, stack)?;
    let sig = copy_sig(alloc, sig)?;
    Ok(Machine {
        regs,
        pc: address as u64,
        flags: 0,
        text,
        pool,
        window,
        stack: stack_bytes,
        bottom: STACK_TOP - stack,
        sig,
    })
}

/// The machine at the start of the function of the name, with these arguments, a data window and
/// `stack` bytes of stack.
///
/// An argument is a number below 2 to the width of its type.
pub fn start(
    alloc: Global,
    image: &Image,
    name: &str,
    args: &[u64],
    window: &[u8],
    stack: u64,
) -> Result<Machine, StartError>
    requires image { IsObject image.now }
    requires window { length window.now ≡ length image.now.window }
    requires stack { stack ≤ 1048576 }
    ensures no_function { IsErrOf result StartError.NoFunction ↔ (has_function image.now name.now ≡ false) }
    ensures bad_args { IsErrOf result StartError.BadArgs ↔ IsSomeAnd (function_of image.now name.now) (λ f. fit Arm f.1.args args.now ≡ false) }
    ensures started { IfOk result (λ m. IsSomeAnd (function_of image.now name.now) (λ f. IsStarted image.now f.0 f.1 args.now window.now stack m)) }
{
    let Some((address, sig)) = function(image, name) else {
        return Err(StartError::NoFunction);
    };
    if !fit(Target::Arm, &sig.args, args) {
        return Err(StartError::BadArgs);
    }
    Ok(started(alloc, image, address, sig, args, window, stack)?)
}
