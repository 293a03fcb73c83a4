//! `run NAME BOUND ARG..`.

ghost use Rattle.std.specs.Prelude.{◌≡◌, ◌≤◌, [], true, false, string_bytes, Ok, IfOk, IfErr, IsSomeAnd};
ghost use Rattle.bk_func.specs.Arguments.{fit};
ghost use Rattle.bk_elf.specs.Object.{IsObject};
ghost use Rattle.bk_elf.specs.Loading.{loaded};
ghost use Rattle.bk_elf.specs.Functions.{has_function, function_of};
ghost use Rattle.bk_top.specs.Commands.{run_row, seen_call};
ghost use Rattle.bk_top.specs.Arguments.{own_stack};
ghost use Rattle.bk_top.specs.Running.{line_on, Runs};
ghost use Rattle.bk_top.specs.Refusals.{refusal_of_load};
ghost use Rattle.bk_top.specs.Answer.{IsLoading, Spoils};

mod arm;
mod riscv;

use crate::command::call::Call;
use crate::refusal::Refusal;
use crate::rows::call::{numbers_for, own_stack};
use bk_elf::{Image, LoadError, Memory, function, load, objects_and_files};
use bk_ops::Target;
use std::alloc::Global;

/// The refusal of a file that is not loaded.
fn refusal_of(error: LoadError) -> Refusal
    ensures { result ≡ refusal_of_load error }
{
    match error {
        LoadError::Memory => Refusal::Memory,
        _ => Refusal::Object(error),
    }
}

/// The object that the bytes are loaded as.
fn image_of(alloc: Global, object: &[u8]) -> Result<Image, Refusal>
    ensures loads { IfOk result (λ image. loaded object.now ≡ Ok image) }
    ensures object { IfOk result (λ image. IsObject image) }
    ensures cause { IfErr result (IsLoading object.now) }
{
    objects_and_files();
    match load(alloc, object) {
        Ok(image) => Ok(image),
        Err(error) => Err(refusal_of(error)),
    }
}

/// The line of a call of a function that is there, with arguments that fit it.
fn line(
    alloc: Global,
    image: &Image,
    name: &str,
    args: &[u64],
    bound: u64,
) -> Result<String, Memory>
    requires image { IsObject image.now }
    requires there { has_function image.now name.now ≡ false → ⊥ }
    requires fit { IsSomeAnd (function_of image.now name.now) (λ f. fit image.now.target f.1.args args.now ≡ true) }
    ensures { IfOk result (λ line. IsSomeAnd (function_of image.now name.now) (λ f. string_bytes line ≡ line_on image.now.target image.now f.0 f.1 args.now bound own_stack)) }
{
    let stack = own_stack();
    match image.target {
        Target::Arm => arm::line(alloc, image, name, args, bound, stack),
        Target::Riscv64 => riscv::line(alloc, image, name, args, bound, stack),
    }
}

/// The line that tells how a call of a function of the object ends.
pub fn run(alloc: Global, object: &[u8], call: Call<'_>) -> Result<Vec<u8>, Refusal>
    ensures made { IfOk result (λ bytes. Runs (seen_call call.entry) object.now bytes.items) }
    ensures cause { IfErr result (Spoils (run_row (seen_call call.entry)) [] object.now) }
{
    let image = image_of(alloc, object)?;
    let name = call.name.as_str();
    let Some((_, sig)) = function(&image, name) else {
        return Err(Refusal::Function);
    };
    let args = match numbers_for(alloc, image.target, &sig.args, call.args) {
        Ok(Some(args)) => args,
        Ok(None) => return Err(Refusal::Arguments),
        Err(_) => return Err(Refusal::Memory),
    };
    match line(alloc, &image, name, &args, call.bound) {
        Ok(line) => Ok(line.into_bytes()),
        Err(_) => Err(Refusal::Memory),
    }
}
