// The text of a package.
ghost use Rattle.std.specs.Prelude.{◌≡◌, ◌≤◌, ◌<◌, ◌++◌, length, string_bytes, IfOk, IfSome, OnOk};
ghost use Rattle.bk_dump.specs.Print.{before, first_behind, text_of, declarations, function_text, header, block_texts, symbol};

mod block;
pub(crate) mod part;
mod signature;
mod value;
mod variable;

use crate::print::block::write_blocks;
use crate::print::signature::write_header;
use crate::print::variable::write_variables;
use bk_func::{Func, Memory, Package, Var};
use std::alloc::Global;

/// Writes the text of a package: each declaration in order, blocks flush left, values and ends of blocks
/// after two spaces, and one space between parts. A name's number that names nothing is written as no name.
pub fn print_package(alloc: Global, pkg: &Package) -> Result<Vec<u8>, Memory>
    ensures { IfOk result (λ text. text.items ≡ text_of pkg.now) }
{
    let mut out = String::new(alloc);
    write_declarations(alloc, &mut out, pkg)?;
    Ok(out.into_bytes())
}

/// Writes functions and variables in the order of their names' numbers.
fn write_declarations(alloc: Global, out: &mut String, pkg: &Package) -> Result<(), Memory>
    ensures { OnOk result (string_bytes out.new ≡ string_bytes out.old ++ text_of pkg.now) }
{
    let mut vars = pkg.vars.as_slice();
    for func in &pkg.funcs {
        let (before, rest) = vars.split_at(count_before(func.name, vars));
        write_variables(out, pkg, before)?;
        write_function(alloc, out, pkg, func)?;
        vars = rest;
    }
    write_variables(out, pkg, vars)?;
    Ok(())
}

/// How many of the variables are declared before a function with this name's number.
fn count_before(name: u32, vars: &[Var]) -> usize
    ensures count { result ≡ before name vars.now }
    ensures within { result ≤ length vars.now }
{
    match first_behind(name, vars) {
        Some(place) => place,
        None => vars.len(),
    }
}

/// The place of the first variable whose name's number is above this one.
fn first_behind(name: u32, vars: &[Var]) -> Option<usize>
    ensures place { result ≡ first_behind name vars.now }
    ensures within { IfSome result (λ place. place < length vars.now) }
{
    vars.iter().position(|var| name < var.name)
}

#[tactic(auto, unfolding(crate::specs::Print::function_text))]
fn write_function(alloc: Global, out: &mut String, pkg: &Package, func: &Func) -> Result<(), Memory>
    ensures { OnOk result (string_bytes out.new ≡ string_bytes out.old ++ function_text pkg.now func.now) }
{
    write_header(out, pkg, func)?;
    write_blocks(alloc, out, pkg, &func.sig, &func.blocks)
}
