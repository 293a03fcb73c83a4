// The lines of variables.
ghost use Rattle.std.specs.Prelude.{◌≡◌, ◌++◌, slice_index, string_bytes, OnOk};
ghost use Rattle.bk_dump.specs.Print.{hex, hex_to, bytes_part, variable_line, variable_lines};

use crate::print::part::symbol;
use bk_func::{Package, Var};
use std::alloc::AllocError;

/// Writes the lines of variables.
#[tactic(auto, unfolding(crate::specs::Print::variable_lines))]
pub fn write_variables(out: &mut String, pkg: &Package, vars: &[Var]) -> Result<(), AllocError>
    ensures { OnOk result (string_bytes out.new ≡ string_bytes out.old ++ variable_lines pkg.now.names vars.now) }
{
    for var in vars {
        write_variable(out, pkg, var)?;
    }
    Ok(())
}

/// Writes `var NAME SIZE = BYTES`.
#[tactic(auto, unfolding(crate::specs::Print::variable_line))]
fn write_variable(out: &mut String, pkg: &Package, var: &Var) -> Result<(), AllocError>
    ensures { OnOk result (string_bytes out.new ≡ string_bytes out.old ++ variable_line pkg.now.names var.now) }
{
    let name = symbol(pkg, var.name);
    let size = var.size;
    write!(out, "var {name} {size}")?;
    write_bytes(out, var)?;
    out.push_str("\n")
}

/// Writes all bytes of a variable that has any; those that are not given are 0.
#[tactic(auto, unfolding(crate::specs::Print::bytes_part))]
fn write_bytes(out: &mut String, var: &Var) -> Result<(), AllocError>
    ensures { OnOk result (string_bytes out.new ≡ string_bytes out.old ++ bytes_part var.now) }
{
    if var.size == 0 {
        return Ok(());
    }
    out.push_str(" = ")?;
    write_hex_to(out, &var.bytes, var.size)
}

#[tactic(auto, unfolding(crate::specs::Print::hex_to))]
fn write_hex_to(out: &mut String, bytes: &[u8], size: u32) -> Result<(), AllocError>
    ensures { OnOk result (string_bytes out.new ≡ string_bytes out.old ++ hex_to bytes.now size) }
{
    for place in 0..size {
        write_hex(out, byte_at(bytes, place as usize))?;
    }
    Ok(())
}

fn byte_at(bytes: &[u8], place: usize) -> u8
    ensures { result ≡ slice_index bytes.now place }
{
    if place < bytes.len() { bytes[place] } else { 0 }
}

/// Writes a byte in two hexadecimal digits.
#[tactic(auto, unfolding(crate::specs::Print::hex))]
fn write_hex(out: &mut String, byte: u8) -> Result<(), AllocError>
    ensures { OnOk result (string_bytes out.new ≡ string_bytes out.old ++ hex byte) }
{
    if byte < 16 {
        out.push_str("0")?;
    }
    write!(out, "{byte:x}")
}
