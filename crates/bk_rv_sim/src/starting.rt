//! The machine at the start of a function.
ghost use Rattle.std.specs.Prelude.{◌≡◌, ◌≤◌, ◌+◌, ◌*◌, ◌++◌, length, replicate, slice_index, true, false, ◌↔◌, IfOk, OnOk, IsErrOf, IsSomeAnd};
ghost use Rattle.bk_ops.specs.declared.types.Target.TheVariants.{Riscv64};
ghost use Rattle.bk_func.specs.Arguments.{fit};
ghost use Rattle.bk_num.specs.Bytes.{each_bytes};
ghost use Rattle.bk_rv_isa.specs.Machine.{argument_words, start_regs};
ghost use Rattle.bk_elf.specs.Object.{IsObject};
ghost use Rattle.bk_elf.specs.Functions.{has_function, function_of};
ghost use Rattle.bk_rv_sim.specs.Started.{IsStarted};

use crate::errors::StartError;
use crate::machine::Machine;
use bk_elf::{Image, Memory, function};
use bk_func::{Sig, copy_sig, fit};
use bk_num::{HALT, STACK_TOP, push_each};
use bk_ops::Target;
use std::alloc::{AllocError, Global};

const WORD_SIZE: usize = 8;

// The arguments that stand in registers.
const IN_REGISTERS: usize = 8;

// The bytes of the constants.
fn pool_bytes(alloc: Global, constants: &[u64]) -> Result<Vec<u8>, AllocError>
    ensures { IfOk result (λ bytes. bytes.items ≡ each_bytes 8 constants.now) }
{
    let mut bytes = Vec::new(alloc);
    push_each(&mut bytes, WORD_SIZE, constants)?;
    Ok(bytes)
}

// An argument, 0 where there are fewer.
fn argument(args: &[u64], place: usize) -> u64
    ensures { result ≡ slice_index args.now place }
{
    match args.get(place) {
        Some(n) => *n,
        None => 0,
    }
}

// x1 is the return address that halts, x2 the stack's top and x27 the stack bound; x10 to x17 hold
// the first eight arguments.
fn registers(alloc: Global, args: &[u64], stack: u64) -> Result<Vec<u64>, AllocError>
    requires { stack ≤ 1048576 }
    ensures { IfOk result (λ regs. regs.items ≡ start_regs stack args.now) }
{
    let arg = |place: usize| argument(args, place);
    let bound = STACK_TOP - stack;
    let regs = [
        0,
        HALT,
        STACK_TOP,
        0,
        0,
        0,
        0,
        0,
        0,
        0,
        arg(0),
        arg(1),
        arg(2),
        arg(3),
        arg(4),
        arg(5),
        arg(6),
        arg(7),
        0,
        0,
        0,
        0,
        0,
        0,
        0,
        0,
        0,
        bound,
        0,
        0,
        0,
        0,
    ];
    Ok(Vec::from_array(alloc, regs)?)
}

// Appends the cells of the arguments.
fn push_cells(out: &mut Vec<u8>, args: &[u64]) -> Result<(), AllocError>
    ensures { OnOk result (out.new.items ≡ out.old.items ++ argument_words args.now) }
{
    let low = args.len().min(IN_REGISTERS);
    out.resize(out.len() + WORD_SIZE * low, 0)?;
    push_each(out, WORD_SIZE, &args[low..])?;
    Ok(())
}

// Zeros, the cells of the arguments, and zeros for those of the results.
fn stack_bytes(alloc: Global, sig: &Sig, args: &[u64], stack: u64) -> Result<Vec<u8>, AllocError>
    requires stack { stack ≤ 1048576 }
    requires few { length sig.now.args + length sig.now.results ≤ 64 }
    ensures { IfOk result (λ bytes. bytes.items ≡ replicate stack 0 ++ (argument_words args.now ++ replicate (8 * length sig.now.results) 0)) }
{
    let mut bytes = Vec::new(alloc);
    bytes.resize(stack as usize, 0)?;
    push_cells(&mut bytes, args)?;
    bytes.resize(bytes.len() + WORD_SIZE * sig.results.len(), 0)?;
    Ok(bytes)
}

// The machine at the start of the function at an address.
fn started(
    alloc: Global,
    image: &Image,
    address: u32,
    sig: &Sig,
    args: &[u64],
    window: &[u8],
    stack: u64,
) -> Result<Machine, Memory>
    requires code { 4 * length image.now.text + 8 * length image.now.pool ≤ 16777216 }
    requires window { length window.now ≤ 1048576 }
    requires stack { stack ≤ 1048576 }
    requires few { length sig.now.args + length sig.now.results ≤ 64 }
    requires fit { fit Riscv64 sig.now.args args.now ≡ true }
    ensures { IfOk result (IsStarted image.now address sig.now args.now window.now stack) }
{
    let regs = registers(alloc, args, stack)?;
    let text = Vec::from_slice(alloc, &image.text)?;
    let pool = pool_bytes(alloc, &image.pool)?;
    let window = Vec::from_slice(alloc, window)?;
    let stack_bytes = stack_bytes(alloc, sig, args, stack)?;
    let sig = copy_sig(alloc, sig)?;
    Ok(Machine {
        regs,
        pc: address as u64,
        text,
        pool,
        window,
        stack: stack_bytes,
        bottom: STACK_TOP - stack,
        sig,
    })
}

/// The machine at the start of the function of the name, with these arguments, a data window and
/// `stack` bytes of stack.
///
/// An argument is a number below 2 to the width of its type.
pub fn start(
    alloc: Global,
    image: &Image,
    name: &str,
    args: &[u64],
    window: &[u8],
    stack: u64,
) -> Result<Machine, StartError>
    requires image { IsObject image.now }
    requires window { length window.now ≡ length image.now.window }
    requires stack { stack ≤ 1048576 }
    ensures no_function { IsErrOf result StartError.NoFunction ↔ (has_function image.now name.now ≡ false) }
    ensures bad_args { IsErrOf result StartError.BadArgs ↔ IsSomeAnd (function_of image.now name.now) (λ f. fit Riscv64 f.1.args args.now ≡ false) }
    ensures started { IfOk result (λ m. IsSomeAnd (function_of image.now name.now) (λ f. IsStarted image.now f.0 f.1 args.now window.now stack m)) }
{
    let Some((address, sig)) = function(image, name) else {
        return Err(StartError::NoFunction);
    };
    if !fit(Target::Riscv64, &sig.args, args) {
        return Err(StartError::BadArgs);
    }
    Ok(started(alloc, image, address, sig, args, window, stack)?)
}
