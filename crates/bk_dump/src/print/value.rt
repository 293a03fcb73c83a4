// The line of a value.
ghost use Rattle.std.specs.Prelude.{◌≡◌, ◌++◌, codes, string_bytes, OnOk};
ghost use Rattle.bk_ops.specs.Table.{info_of};
ghost use Rattle.bk_dump.specs.Print.{type_name, members, value_type, tuple_types, function_of, results_in, aux_part, int_part, value_front, value_back, value_line, value_lines};

use crate::print::part::{symbol, type_name, write_argument_name, write_numbers};
use bk_func::{Aux, Memory, Package, Sig, Value};
use bk_ops::{AuxKind, Ty, op_info, op_name};
use std::alloc::{AllocError, Global};

/// Writes the lines of values.
#[tactic(auto, unfolding(crate::specs::Print::value_lines))]
pub fn write_values(
    alloc: Global,
    out: &mut String,
    pkg: &Package,
    sig: &Sig,
    values: &[Value],
) -> Result<(), Memory>
    ensures { OnOk result (string_bytes out.new ≡ string_bytes out.old ++ value_lines pkg.now sig.now values.now) }
{
    for value in values {
        write_value(alloc, out, pkg, sig, value)?;
    }
    Ok(())
}

#[tactic(auto, unfolding(crate::specs::Print::value_line))]
fn write_value(
    alloc: Global,
    out: &mut String,
    pkg: &Package,
    sig: &Sig,
    value: &Value,
) -> Result<(), Memory>
    ensures { OnOk result (string_bytes out.new ≡ string_bytes out.old ++ value_line pkg.now sig.now value.now) }
{
    write_front(alloc, out, pkg, sig, value)?;
    write_back(out, pkg, value)?;
    Ok(())
}

/// The types of the results that a list of types stands for: those of the callee at a call, else those of
/// the function that it stands in.
#[tactic(auto, unfolding(crate::specs::Print::tuple_types))]
fn tuple_types<'a>(pkg: &'a Package, sig: &'a Sig, aux: Aux) -> &'a [Ty]
    ensures { result.now ≡ tuple_types pkg.now sig.now aux }
{
    match aux {
        Aux::Sym(name) => results_of(pkg, name),
        Aux::Nothing | Aux::Ty(_) | Aux::Arg(_) => &sig.results,
    }
}

/// The types of the results of the function that a name's number names, none where it names none.
fn results_of(pkg: &Package, name: u32) -> &[Ty]
    ensures { result.now ≡ results_in (function_of pkg.now name) }
{
    for func in &pkg.funcs {
        if func.name == name {
            return &func.sig.results;
        }
    }
    &[]
}

/// Writes `vN = OP <TYPE>`.
#[tactic(auto, unfolding(crate::specs::Print::value_front))]
fn write_front(
    alloc: Global,
    out: &mut String,
    pkg: &Package,
    sig: &Sig,
    value: &Value,
) -> Result<(), Memory>
    ensures { OnOk result (string_bytes out.new ≡ string_bytes out.old ++ value_front pkg.now sig.now value.now) }
{
    let name = op_name(alloc, value.op)?;
    let id = value.id;
    write!(out, "  v{id} = {name} <")?;
    write_value_type(out, pkg, sig, value.ty, value.aux)?;
    out.push_str(">")?;
    Ok(())
}

#[tactic(auto, unfolding(crate::specs::Print::value_type))]
fn write_value_type(
    out: &mut String,
    pkg: &Package,
    sig: &Sig,
    ty: Ty,
    aux: Aux,
) -> Result<(), AllocError>
    ensures { OnOk result (string_bytes out.new ≡ string_bytes out.old ++ value_type pkg.now sig.now aux ty) }
{
    if ty == Ty::Tuple {
        write_members(out, tuple_types(pkg, sig, aux))
    } else {
        out.push_str(type_name(ty))
    }
}

/// Writes the types of results and that of memory.
#[tactic(auto, unfolding(crate::specs::Print::members))]
fn write_members(out: &mut String, types: &[Ty]) -> Result<(), AllocError>
    ensures { OnOk result (string_bytes out.new ≡ string_bytes out.old ++ members types.now) }
{
    for ty in types {
        write_member(out, *ty)?;
    }
    out.push_str("mem")
}

fn write_member(out: &mut String, ty: Ty) -> Result<(), AllocError>
    ensures { OnOk result (string_bytes out.new ≡ string_bytes out.old ++ (type_name ty ++ codes ",")) }
{
    let name = type_name(ty);
    write!(out, "{name},")
}

/// Writes `{AUX} [INT] ARGUMENTS`.
#[tactic(auto, unfolding(crate::specs::Print::value_back))]
fn write_back(out: &mut String, pkg: &Package, value: &Value) -> Result<(), AllocError>
    ensures { OnOk result (string_bytes out.new ≡ string_bytes out.old ++ value_back pkg.now.names value.now) }
{
    write_aux(out, pkg, value.aux)?;
    write_int(out, op_info(value.op).aux, value.int)?;
    write_numbers(out, " v", value.args.as_slice())?;
    out.push_str("\n")
}

#[tactic(auto, unfolding(crate::specs::Print::aux_part))]
fn write_aux(out: &mut String, pkg: &Package, aux: Aux) -> Result<(), AllocError>
    ensures { OnOk result (string_bytes out.new ≡ string_bytes out.old ++ aux_part pkg.now.names aux) }
{
    match aux {
        Aux::Nothing => Ok(()),
        Aux::Sym(name) => write_braced(out, symbol(pkg, name)),
        Aux::Ty(ty) => write_braced(out, type_name(ty)),
        Aux::Arg(place) => {
            out.push_str(" {")?;
            write_argument_name(out, place as usize)?;
            out.push_str("}")
        }
    }
}

fn write_braced(out: &mut String, name: &str) -> Result<(), AllocError>
    ensures { OnOk result (string_bytes out.new ≡ string_bytes out.old ++ (codes " {" ++ (name.now ++ codes "}"))) }
{
    write!(out, " {{{name}}}")
}

/// Writes the number beside an op that has one.
#[tactic(auto, unfolding(crate::specs::Print::int_part))]
fn write_int(out: &mut String, kind: AuxKind, int: i64) -> Result<(), AllocError>
    ensures { OnOk result (string_bytes out.new ≡ string_bytes out.old ++ int_part kind int) }
{
    match kind {
        AuxKind::Int => write!(out, " [{int}]"),
        AuxKind::None | AuxKind::Name | AuxKind::Ty => Ok(()),
    }
}
