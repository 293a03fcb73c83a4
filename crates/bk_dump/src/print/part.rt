// Names, types and numbers in the text of a package.
ghost use Rattle.std.specs.Prelude.{◌≡◌, ◌++◌, string_bytes, OnOk};
ghost use Rattle.std.specs.Fmt.{decimal};
ghost use Rattle.bk_dump.specs.Print.{type_name, symbol, argument_name, separator, numbers};

use bk_func::{PANIC_DIVIDE, PANIC_SHIFT, Package};
use bk_ops::Ty;
use std::alloc::AllocError;

/// The name of a type; a list of types has none.
#[tactic(auto, unfolding(crate::specs::Print::type_name))]
pub fn type_name(ty: Ty) -> &'static str
    ensures { result.now ≡ type_name ty }
{
    match ty {
        Ty::Bool => "bool",
        Ty::Int8 => "int8",
        Ty::Uint8 => "uint8",
        Ty::Int16 => "int16",
        Ty::Uint16 => "uint16",
        Ty::Int32 => "int32",
        Ty::Uint32 => "uint32",
        Ty::Int64 => "int64",
        Ty::Uint64 => "uint64",
        Ty::Int => "int",
        Ty::Uint => "uint",
        Ty::Uintptr => "uintptr",
        Ty::Ptr => "ptr",
        Ty::Mem => "mem",
        Ty::Void => "void",
        Ty::Tuple => "",
    }
}

/// The name of a function or a variable by its number, empty where the number names nothing.
#[tactic(auto, unfolding(crate::specs::Print::symbol))]
pub fn symbol(pkg: &Package, name: u32) -> &str
    ensures { result.now ≡ symbol pkg.now.names name }
{
    match name {
        PANIC_DIVIDE => "runtime.panicdivide",
        PANIC_SHIFT => "runtime.panicshift",
        _ => match pkg.names.get(name as usize) {
            Some(name) => name.as_str(),
            None => "",
        },
    }
}

/// Writes the name of the argument at a place.
#[tactic(auto, unfolding(crate::specs::Print::argument_name))]
pub fn write_argument_name(out: &mut String, place: usize) -> Result<(), AllocError>
    ensures { OnOk result (string_bytes out.new ≡ string_bytes out.old ++ argument_name place) }
{
    if place < 26 {
        out.push(char::from(b'a' + place as u8))
    } else {
        write!(out, "a{place}")
    }
}

/// What stands before the element at a place of a list.
#[tactic(auto, unfolding(crate::specs::Print::separator))]
pub fn separator(place: usize) -> &'static str
    ensures { result.now ≡ separator place }
{
    if place == 0 { "" } else { ", " }
}

fn write_number(out: &mut String, before: &str, number: u32) -> Result<(), AllocError>
    ensures { OnOk result (string_bytes out.new ≡ string_bytes out.old ++ (before.now ++ decimal number)) }
{
    write!(out, "{before}{number}")
}

/// Writes numbers, each behind `before`.
#[tactic(auto, unfolding(crate::specs::Print::numbers))]
pub fn write_numbers(out: &mut String, before: &str, ids: &[u32]) -> Result<(), AllocError>
    ensures { OnOk result (string_bytes out.new ≡ string_bytes out.old ++ numbers before.now ids.now) }
{
    for id in ids {
        write_number(out, before, *id)?;
    }
    Ok(())
}
