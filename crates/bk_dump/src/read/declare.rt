//! Declarations of variables and functions.
ghost use Rattle.std.specs.Prelude.{◌≡◌, ◌<◌, ◌+◌, [], nat_lt, IfOk, IfSome, map, is_some};
ghost use Rattle.bk_func.specs.Limits.{most_window};
ghost use Rattle.bk_dump.specs.Drafts.{is_reserved, is_taken, var_fault, hex_value, pairs, padded, with_var, declare_var, are_fresh, parameter_names, header_fault, opened, declare_func, declare};
ghost use Rattle.bk_dump.specs.Views.{state, Steps};

use crate::read::draft::{FuncDraft, Stage};
use crate::read::errors::{Fault, LineError, Which};
use crate::read::header::{FuncLine, Parameter, func_line};
use crate::read::sets::{add_name, is_declared};
use crate::read::state::Reader;
use crate::read::variable::{VarLine, var_line};
use bk_func::{MOST_FUNCTIONS, MOST_IN_SIGNATURE, MOST_VARIABLES, MOST_WINDOW, Sig, Var};
use bk_ops::Ty;
use indexmap::IndexSet;
use std::alloc::{AllocError, Global};

/// The callee that traps for a division by zero.
pub(crate) const DIVIDE_NAME: &str = "runtime.panicdivide";
/// The callee that traps for a shift by a negative count.
pub(crate) const SHIFT_NAME: &str = "runtime.panicshift";

/// The value of a hexadecimal digit, 0 at every other byte.
fn hex_value(digit: u8) -> u8
    ensures value { result ≡ hex_value digit }
    ensures within { result < 16 }
{
    match char::from(digit).to_digit(16) {
        Some(value) => value as u8,
        None => 0,
    }
}

/// The bytes that pairs of hexadecimal digits give.
fn pairs(alloc: Global, hex: &[u8]) -> Result<Vec<u8>, AllocError>
    ensures { IfOk result (λ bytes. bytes.items ≡ pairs hex.now) }
{
    let mut bytes = Vec::with_capacity(alloc, hex.len() / 2)?;
    for pair in 0..hex.len() / 2 {
        bytes.push(hex_value(hex[2 * pair]) * 16 + hex_value(hex[2 * pair + 1]))?;
    }
    Ok(bytes)
}

/// A variable's bytes: those that the pairs of digits give, then zeros.
fn bytes_of(alloc: Global, hex: &[u8], size: usize) -> Result<Vec<u8>, AllocError>
    ensures { IfOk result (λ bytes. bytes.items ≡ padded size (pairs hex.now)) }
{
    let mut bytes = pairs(alloc, hex)?;
    bytes.resize(size, 0)?;
    Ok(bytes)
}

/// Whether this is the name of a callee that panics.
#[tactic(auto, unfolding(crate::specs::Drafts::is_reserved))]
fn is_reserved(name: &str) -> bool
    ensures { result ≡ is_reserved name.now }
{
    name == DIVIDE_NAME || name == SHIFT_NAME
}

/// Whether a name may not be declared any more.
#[tactic(auto, unfolding(crate::specs::Drafts::is_taken))]
fn is_taken(names: &IndexSet<&str>, name: &str) -> bool
    ensures { result ≡ is_taken (map (λ n. n.now) names.now.keys) name.now }
{
    is_reserved(name) || is_declared(names, name)
}

/// Whether a variable of this size goes past the end of the data window.
fn is_past(window: u64, size: u128) -> bool
    ensures { result ≡ nat_lt most_window (window + size) }
{
    let most = u128::from(MOST_WINDOW);
    size > most || u128::from(window) + size > most
}

/// The number of a name behind so many others. No memory holds the text of 2^32 names.
pub(crate) fn number_of(count: usize) -> Result<u32, AllocError>
    ensures { IfOk result (λ number. number ≡ count) }
{
    u32::try_from(count).map_err(|_| AllocError)
}

/// The limit that a variable's line passes, or whether it declares a name again.
#[tactic(auto, unfolding(crate::specs::Drafts::var_fault))]
fn var_fault(reader: &Reader, line: &VarLine) -> Option<Fault>
    ensures { result ≡ var_fault (state reader.now) line.now }
{
    if reader.vars.len() >= MOST_VARIABLES {
        Some(Fault::Limit(Which::Variables))
    } else if is_past(reader.window, line.size) {
        Some(Fault::Limit(Which::Window))
    } else if is_taken(&reader.names, line.name) {
        Some(Fault::Duplicate)
    } else {
        None
    }
}

/// Declares a variable.
fn declare_var<'a>(
    alloc: Global,
    reader: &mut Reader<'a>,
    line: VarLine<'a>,
) -> Result<(), LineError>
    ensures { Steps result (declare_var (state reader.old) line.entry) (state reader.new) }
{
    if let Some(fault) = var_fault(reader, &line) {
        return Err(LineError::Fault(fault));
    }
    let name = number_of(reader.names.len())?;
    let size = line.size as u32;
    let bytes = bytes_of(alloc, line.hex, size as usize)?;
    reader.vars.push(Var { name, size, bytes })?;
    add_name(&mut reader.names, line.name)?;
    reader.window = (reader.window + u64::from(size) + 7) / 8 * 8;
    Ok(())
}

/// The names of the parameters, None where one comes again.
fn fresh_names<'a>(
    alloc: Global,
    parameters: &[Parameter<'a>],
) -> Result<Option<IndexSet<&'a str>>, AllocError>
    ensures fresh { IfOk result (λ read. is_some read ≡ are_fresh [] (map (λ p. p.name) parameters.now)) }
    ensures names { IfOk result (λ read. IfSome read (λ names. map (λ n. n.now) names.keys ≡ map (λ p. p.name) parameters.now)) }
{
    let mut names = IndexSet::new(alloc);
    for parameter in parameters {
        if is_declared(&names, parameter.name) {
            return Ok(None);
        }
        add_name(&mut names, parameter.name)?;
    }
    Ok(Some(names))
}

/// The types of the parameters.
fn types_of(alloc: Global, parameters: &[Parameter]) -> Result<Vec<Ty>, AllocError>
    ensures { IfOk result (λ types. types.items ≡ map (λ p. p.ty) parameters.now) }
{
    let mut types = Vec::with_capacity(alloc, parameters.len())?;
    for parameter in parameters {
        types.push(parameter.ty)?;
    }
    Ok(types)
}

/// The limit that a function's line passes, or whether it declares its name again.
#[tactic(auto, unfolding(crate::specs::Drafts::header_fault))]
fn header_fault(reader: &Reader, line: &FuncLine) -> Option<Fault>
    ensures { result ≡ header_fault (state reader.now) line.now }
{
    let count = line.parameters.len();
    if reader.funcs.len() >= MOST_FUNCTIONS {
        Some(Fault::Limit(Which::Functions))
    } else if count > MOST_IN_SIGNATURE || line.results.len() > MOST_IN_SIGNATURE - count {
        Some(Fault::Limit(Which::Signature))
    } else if is_taken(&reader.names, line.name) {
        Some(Fault::Duplicate)
    } else {
        None
    }
}

/// The function of this name number, without blocks; None where a parameter's name comes again.
fn opened<'a>(
    alloc: Global,
    name: u32,
    line: FuncLine<'a>,
) -> Result<Option<FuncDraft<'a>>, AllocError>
    ensures { IfOk result (λ read. read ≡ opened name line.entry) }
{
    let Some(parameters) = fresh_names(alloc, &line.parameters)? else {
        return Ok(None);
    };
    let args = types_of(alloc, &line.parameters)?;
    let results = line.results;
    Ok(Some(FuncDraft {
        name,
        parameters,
        sig: Sig { args, results },
        blocks: Vec::new(alloc),
        value_ids: IndexSet::new(alloc),
        block_ids: IndexSet::new(alloc),
    }))
}

/// Declares a function.
fn declare_func<'a>(
    alloc: Global,
    reader: &mut Reader<'a>,
    line: FuncLine<'a>,
) -> Result<(), LineError>
    ensures { Steps result (declare_func (state reader.old) line.entry) (state reader.new) }
{
    if let Some(fault) = header_fault(reader, &line) {
        return Err(LineError::Fault(fault));
    }
    let name = line.name;
    let number = number_of(reader.names.len())?;
    let Some(func) = opened(alloc, number, line)? else {
        return Err(LineError::Fault(Fault::Duplicate));
    };
    add_name(&mut reader.names, name)?;
    reader.enter(Stage::Function(func));
    Ok(())
}

/// Reads a line that declares a variable or a function.
#[tactic(auto, unfolding(crate::specs::Drafts::declare))]
pub fn declare<'a>(alloc: Global, reader: &mut Reader<'a>, line: &'a [u8]) -> Result<(), LineError>
    ensures { Steps result (declare (state reader.old) line.now) (state reader.new) }
{
    if let Some(found) = var_line(line) {
        return declare_var(alloc, reader, found);
    }
    match func_line(alloc, line)? {
        Some(found) => declare_func(alloc, reader, found),
        None => Err(LineError::Fault(Fault::Syntax)),
    }
}
