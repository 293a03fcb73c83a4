//! The line that tells how a call ends.

ghost use Rattle.std.specs.Prelude.{◌≡◌, ◌++◌, string_bytes, OnOk, IfOk};
ghost use Rattle.bk_dump.specs.Print.{hex};
ghost use Rattle.bk_top.specs.Outcomes.{seen_outcome, is_signed, shown, shown_all, trap_name, outcome_part, hex_all, data_part, outcome_line};

use bk_num::sext;
use bk_ops::{Target, Ty, width};
use std::alloc::{AllocError, Global};

/// How a call ended.
#[derive(Drop, Debug)]
pub enum Outcome {
    /// It returned these numbers.
    Returned(Vec<u64>),
    /// It came to a trap of this number.
    Trapped(u8),
    /// Its bound was spent.
    Going,
    /// An access or a fetch of a machine at this address failed.
    Fault(u64),
    /// An access at this address is outside of the data window.
    Wild(u64),
}

fn is_signed(ty: Ty) -> bool
    ensures { result ≡ is_signed ty }
{
    matches!(ty, Ty::Int8 | Ty::Int16 | Ty::Int32 | Ty::Int64 | Ty::Int)
}

/// Writes a number of a type.
fn write_number(out: &mut String, target: Target, ty: Ty, number: u64) -> Result<(), AllocError>
    ensures { OnOk result (string_bytes out.new ≡ string_bytes out.old ++ shown target ty number) }
{
    if ty == Ty::Bool {
        out.push_str(if number == 0 { "false" } else { "true" })
    } else if is_signed(ty) {
        let number = sext(width(ty, target), number);
        write!(out, "{number}")
    } else {
        write!(out, "{number}")
    }
}

/// Writes numbers of these types, a space before each.
#[tactic(auto, unfolding(crate::specs::Outcomes::shown_all))]
fn write_numbers(
    out: &mut String,
    target: Target,
    types: &[Ty],
    numbers: &[u64],
) -> Result<(), AllocError>
    ensures { OnOk result (string_bytes out.new ≡ string_bytes out.old ++ shown_all target types.now numbers.now) }
{
    for (place, ty) in types.iter().enumerate() {
        let Some(number) = numbers.get(place) else {
            return Ok(());
        };
        out.push_str(" ")?;
        write_number(out, target, *ty, *number)?;
    }
    Ok(())
}

fn trap_name(number: u8) -> &'static str
    ensures { result.now ≡ trap_name number }
{
    match number {
        1 => "nil",
        2 => "bounds",
        3 => "divide",
        4 => "shift",
        5 => "stack",
        _ => "exit",
    }
}

/// Writes how a call ended whose results have these types.
fn write_outcome(
    out: &mut String,
    target: Target,
    types: &[Ty],
    outcome: &Outcome,
) -> Result<(), AllocError>
    ensures { OnOk result (string_bytes out.new ≡ string_bytes out.old ++ outcome_part target types.now (seen_outcome outcome.now)) }
{
    match outcome {
        Outcome::Returned(numbers) => {
            out.push_str("returned")?;
            write_numbers(out, target, types, numbers)
        }
        Outcome::Trapped(number) => {
            let name = trap_name(*number);
            write!(out, "trapped {number} {name}")
        }
        Outcome::Going => out.push_str("going"),
        Outcome::Fault(address) => write!(out, "fault {address}"),
        Outcome::Wild(address) => write!(out, "wild {address}"),
    }
}

/// Writes a byte in two hexadecimal digits.
#[tactic(auto, unfolding(bk_dump::specs::Print::hex))]
fn write_hex(out: &mut String, byte: u8) -> Result<(), AllocError>
    ensures { OnOk result (string_bytes out.new ≡ string_bytes out.old ++ hex byte) }
{
    if byte < 16 {
        out.push_str("0")?;
    }
    write!(out, "{byte:x}")
}

#[tactic(auto, unfolding(crate::specs::Outcomes::hex_all))]
fn write_bytes(out: &mut String, bytes: &[u8]) -> Result<(), AllocError>
    ensures { OnOk result (string_bytes out.new ≡ string_bytes out.old ++ hex_all bytes.now) }
{
    for byte in bytes {
        write_hex(out, *byte)?;
    }
    Ok(())
}

/// Writes the data window, where it is not empty.
#[tactic(auto, unfolding(crate::specs::Outcomes::data_part))]
fn write_data(out: &mut String, window: &[u8]) -> Result<(), AllocError>
    ensures { OnOk result (string_bytes out.new ≡ string_bytes out.old ++ data_part window.now) }
{
    if window.is_empty() {
        return Ok(());
    }
    out.push_str(" data ")?;
    write_bytes(out, window)
}

/// The line of a call whose results have these types: how it ended, and the data window then.
#[tactic(auto, unfolding(crate::specs::Outcomes::outcome_line))]
pub fn outcome_line(
    alloc: Global,
    target: Target,
    types: &[Ty],
    outcome: &Outcome,
    window: &[u8],
) -> Result<String, AllocError>
    ensures { IfOk result (λ line. string_bytes line ≡ outcome_line target types.now (seen_outcome outcome.now) window.now) }
{
    let mut line = String::new(alloc);
    write_outcome(&mut line, target, types, outcome)?;
    write_data(&mut line, window)?;
    line.push_str("\n")?;
    Ok(line)
}
