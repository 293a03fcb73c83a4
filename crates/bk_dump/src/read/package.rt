//! The package that a text reads as.
ghost use Rattle.std.specs.Prelude.{◌≡◌, [], map, slice_index_or, string_bytes, All, IfOk, IfErr, OnOk};
ghost use Rattle.bk_dump.specs.Drafts.{at_start, finished};
ghost use Rattle.bk_dump.specs.Texts.{at, lines, read_next, read_lines, reading};
ghost use Rattle.bk_dump.specs.Resolved.{each, func_of, package_of};
ghost use Rattle.bk_dump.specs.Views.{state, Reads, Goes, Tells, Names, LooksUp, IsFormed, Blame, BlamesForm, IsReading};

use crate::read::draft::FuncDraft;
use crate::read::errors::{DumpError, Fault, LineError, ReferenceError};
use crate::read::lines::{is_skipped, split_line};
use crate::read::resolve::funcs_of;
use crate::read::state::Reader;
use bk_form::{FormError, check_form};
use bk_func::{Func, Package, Var};
use bk_ops::Target;
use indexmap::IndexSet;
use std::alloc::{AllocError, Global};

/// The refusal of the line of this number.
fn at(line: u64, error: LineError) -> DumpError
    ensures { Tells error line result }
{
    match error {
        LineError::Fault(Fault::Syntax) => DumpError::Syntax { line },
        LineError::Fault(Fault::Limit(which)) => DumpError::Limit { which, line },
        LineError::Fault(Fault::Duplicate) => DumpError::Duplicate { line },
        LineError::Memory => DumpError::Memory,
    }
}

/// The refusal for a reference.
fn refusal(error: ReferenceError) -> DumpError
    ensures { Names error result }
{
    match error {
        ReferenceError::Undefined(name) => DumpError::Undefined { name },
        ReferenceError::Memory => DumpError::Memory,
    }
}

/// Reads the next line, which has this number, unless it is skipped.
#[tactic(auto, unfolding(crate::specs::Texts::read_next))]
fn read_next<'a>(
    alloc: Global,
    reader: &mut Reader<'a>,
    number: u64,
    line: &'a [u8],
) -> Result<(), DumpError>
    ensures { Goes result (read_next number (state reader.old) line.now) (state reader.new) }
{
    if is_skipped(line) {
        return Ok(());
    }
    match reader.read(alloc, line) {
        Ok(()) => Ok(()),
        Err(error) => Err(at(number, error)),
    }
}

/// Finishes what is open behind the last line, the next one having this number.
fn finish(reader: &mut Reader, number: u64) -> Result<(), DumpError>
    ensures { Goes result (at number (finished (state reader.old))) (state reader.new) }
{
    match reader.finish() {
        Ok(()) => Ok(()),
        Err(error) => Err(at(number, error)),
    }
}

/// Reads all lines, up to the first at fault.
fn read_lines(alloc: Global, bytes: &[u8]) -> Result<Reader<'_>, DumpError>
    ensures { Reads state result (read_lines 1 at_start (lines bytes.now)) }
{
    let mut reader = Reader::new(alloc);
    let mut rest = bytes;
    let mut number = 1u64;
    while !rest.is_empty() {
        let (line, behind) = split_line(rest);
        read_next(alloc, &mut reader, number, line)?;
        rest = behind;
        number += 1;
    }
    finish(&mut reader, number)?;
    Ok(reader)
}

/// The names as texts of their own.
fn owned(alloc: Global, names: &IndexSet<&str>) -> Result<Vec<String>, AllocError>
    ensures { IfOk result (λ texts. map string_bytes texts.items ≡ map (λ n. n.now) names.now.keys) }
{
    let mut owned = Vec::with_capacity(alloc, names.len())?;
    for name in names.as_slice() {
        owned.push(String::from_str(alloc, name)?)?;
    }
    Ok(owned)
}

/// The functions with their references looked up.
fn looked_up<'a>(
    alloc: Global,
    drafts: Vec<FuncDraft<'a>>,
    names: &IndexSet<&'a str>,
) -> Result<Vec<Func>, DumpError>
    ensures { LooksUp (λ fs. fs.items) result (each (func_of (map (λ n. n.now) names.now.keys)) drafts.entry.items) }
{
    match funcs_of(alloc, drafts, names) {
        Ok(funcs) => Ok(funcs),
        Err(error) => Err(refusal(error)),
    }
}

/// What all lines declare: the names, the functions and the variables.
fn declared(reader: Reader<'_>) -> (IndexSet<&str>, Vec<FuncDraft<'_>>, Vec<Var>)
    ensures names { map (λ n. n.now) result.0.keys ≡ (state reader.entry).names }
    ensures funcs { result.1.items ≡ (state reader.entry).funcs }
    ensures vars { result.2.items ≡ (state reader.entry).vars }
{
    let Reader {
        names,
        funcs,
        vars,
        ..
    } = reader;
    (names, funcs, vars)
}

/// The package of whole functions and variables.
fn package_of<'a>(
    alloc: Global,
    names: IndexSet<&'a str>,
    funcs: Vec<FuncDraft<'a>>,
    vars: Vec<Var>,
) -> Result<Package, DumpError>
    ensures { LooksUp (λ p. p) result (package_of (map (λ n. n.now) names.entry.keys) funcs.entry.items vars.items) }
{
    let funcs = looked_up(alloc, funcs, &names)?;
    let names = owned(alloc, &names)?;
    Ok(Package { names, funcs, vars })
}

/// The package that a text reads as, whatever its form.
fn read_text(alloc: Global, bytes: &[u8]) -> Result<Package, DumpError>
    ensures { Reads (λ p. p) result (reading bytes.now) }
{
    let (names, funcs, vars) = declared(read_lines(alloc, bytes)?);
    package_of(alloc, names, funcs, vars)
}

/// The name of a function of the package, as a text of its own.
fn name_of(alloc: Global, pkg: &Package, func: &Func) -> Result<String, AllocError>
    ensures { IfOk result (λ name. string_bytes name ≡ slice_index_or pkg.now.names func.now.name []) }
{
    match pkg.names.get(func.name as usize) {
        Some(name) => String::from_str(alloc, name),
        None => Ok(String::new(alloc)),
    }
}

/// The refusal for a function that is not in form.
fn blamed(alloc: Global, pkg: &Package, func: &Func, error: FormError) -> DumpError
    ensures { Blame pkg.now func.now error result }
{
    let FormError::FormFault { kind, place } = error else {
        return DumpError::Memory;
    };
    match name_of(alloc, pkg, func) {
        Ok(func) => DumpError::FormFault { func, kind, place },
        Err(_error) => DumpError::Memory,
    }
}

/// Refuses the first function that is not in form.
fn check_forms(alloc: Global, pkg: &Package, target: Target) -> Result<(), DumpError>
    ensures formed { OnOk result (All (IsFormed pkg.now target) pkg.now.funcs) }
    ensures blames { IfErr result (λ e. BlamesForm pkg.now target e) }
{
    for func in &pkg.funcs {
        match check_form(alloc, pkg, func, target) {
            Ok(()) => {}
            Err(error) => return Err(blamed(alloc, pkg, func, error)),
        }
    }
    Ok(())
}

/// Reads a package from its text.
///
/// The first line at fault decides: on one line Syntax stands before Limit, and Limit before Duplicate. A text that
/// ends inside a function is at fault at the line after its last. Then comes the first reference in text order that
/// names nothing, then the first function that is not in form.
pub fn read_package(alloc: Global, bytes: &[u8], target: Target) -> Result<Package, DumpError>
    ensures { IsReading target result (reading bytes.now) }
{
    let package = read_text(alloc, bytes)?;
    check_forms(alloc, &package, target)?;
    Ok(package)
}
