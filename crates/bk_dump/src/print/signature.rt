// The opening line of a function.
ghost use Rattle.std.specs.Prelude.{◌≡◌, ◌++◌, string_bytes, OnOk};
ghost use Rattle.bk_dump.specs.Print.{type_name, separator, parameter, parameters, listed, results, header, symbol};

use crate::print::part::{separator, symbol, type_name, write_argument_name};
use bk_func::{Func, Memory, Package};
use bk_ops::Ty;
use std::alloc::AllocError;

/// Writes `NAME func(PARAMETERS) RESULTS`.
#[tactic(auto, unfolding(crate::specs::Print::header))]
pub fn write_header(out: &mut String, pkg: &Package, func: &Func) -> Result<(), Memory>
    ensures { OnOk result (string_bytes out.new ≡ string_bytes out.old ++ header (symbol pkg.now.names func.now.name) func.now.sig) }
{
    let name = symbol(pkg, func.name);
    write!(out, "{name} func(")?;
    write_parameters(out, &func.sig.args)?;
    out.push_str(")")?;
    write_results(out, &func.sig.results)?;
    out.push_str("\n")?;
    Ok(())
}

#[tactic(auto, unfolding(crate::specs::Print::parameters))]
fn write_parameters(out: &mut String, types: &[Ty]) -> Result<(), AllocError>
    ensures { OnOk result (string_bytes out.new ≡ string_bytes out.old ++ parameters 0 types.now) }
{
    for (place, ty) in types.iter().enumerate() {
        write_parameter(out, place, *ty)?;
    }
    Ok(())
}

#[tactic(auto, unfolding(crate::specs::Print::parameter))]
fn write_parameter(out: &mut String, place: usize, ty: Ty) -> Result<(), AllocError>
    ensures { OnOk result (string_bytes out.new ≡ string_bytes out.old ++ parameter place ty) }
{
    out.push_str(separator(place))?;
    write_argument_name(out, place)?;
    let ty = type_name(ty);
    write!(out, " {ty}")
}

/// Writes no result, one type, or several in brackets.
#[tactic(auto, unfolding(crate::specs::Print::results))]
fn write_results(out: &mut String, types: &[Ty]) -> Result<(), AllocError>
    ensures { OnOk result (string_bytes out.new ≡ string_bytes out.old ++ results types.now) }
{
    if types.is_empty() {
        return Ok(());
    }
    if types.len() == 1 {
        out.push_str(" ")?;
        return write_listed(out, types);
    }
    out.push_str(" (")?;
    write_listed(out, types)?;
    out.push_str(")")
}

#[tactic(auto, unfolding(crate::specs::Print::listed))]
fn write_listed(out: &mut String, types: &[Ty]) -> Result<(), AllocError>
    ensures { OnOk result (string_bytes out.new ≡ string_bytes out.old ++ listed 0 types.now) }
{
    for (place, ty) in types.iter().enumerate() {
        write_element(out, place, *ty)?;
    }
    Ok(())
}

fn write_element(out: &mut String, place: usize, ty: Ty) -> Result<(), AllocError>
    ensures { OnOk result (string_bytes out.new ≡ string_bytes out.old ++ (separator place ++ type_name ty)) }
{
    out.push_str(separator(place))?;
    out.push_str(type_name(ty))
}
