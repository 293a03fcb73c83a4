//! Lines that declare a function.
ghost use Rattle.std.specs.Prelude.{◌≡◌, codes, IfOk};
ghost use Rattle.std.specs.Option.{option_map};
ghost use Rattle.bk_dump.specs.Front.{every, onto};
ghost use Rattle.bk_dump.specs.Types.{next_type_at};
ghost use Rattle.bk_dump.specs.Headers.{func_name_at, parameter_at, next_parameter_at, some_parameters_at, parameters_at, types_at, several_at, single_at, results_at, header_at};

use crate::read::name::{name, plain_name};
use crate::read::part::{behind, is_done};
use crate::read::types::{next_type, place_type};
use bk_ops::Ty;
use std::alloc::{AllocError, Global};
use std::marker::Model;

/// A parameter's name and type.
#[derive(Drop)]
pub struct Parameter<'a> {
    pub name: &'a str,
    pub ty: Ty,
}

impl<'a> Model for Parameter<'a> {
    ghost use Rattle.bk_dump.specs.Trees.{ParameterTree};

    ghost Value = { ParameterTree };

    ghost view = { λ p. record { name = p.name.now; ty = p.ty } };
}

/// The line `NAME func(p T, q T) R`.
#[derive(Drop)]
pub struct FuncLine<'a> {
    pub name: &'a str,
    pub parameters: Vec<Parameter<'a>>,
    pub results: Vec<Ty>,
}

impl<'a> Model for FuncLine<'a> {
    ghost use Rattle.bk_dump.specs.Trees.{HeaderTree};

    ghost Value = { HeaderTree };

    ghost view = { λ f. record { name = f.name.now; parameters = f.parameters.items; results = f.results.items } };
}

/// The name before `func(`, and the text behind that.
#[tactic(auto, unfolding(crate::specs::Headers::func_name_at))]
fn func_name(line: &[u8]) -> Option<(&str, &[u8])>
    ensures { option_map (λ x. (x.0.now, x.1.now)) result ≡ func_name_at line.now }
{
    let (name, rest) = name(line)?;
    let rest = behind(rest, b"func")?;
    let rest = behind(rest, b"(")?;
    Some((name, rest))
}

/// A parameter and the text behind it.
#[tactic(auto, unfolding(crate::specs::Headers::parameter_at))]
fn parameter_part(text: &[u8]) -> Option<(Parameter<'_>, &[u8])>
    ensures { option_map (λ x. (x.0, x.1.now)) result ≡ parameter_at text.now }
{
    let (name, rest) = plain_name(text)?;
    let (ty, rest) = place_type(rest)?;
    Some((Parameter { name, ty }, rest))
}

/// A parameter behind a comma, and the text behind it.
#[tactic(auto, unfolding(crate::specs::Headers::next_parameter_at))]
fn next_parameter(text: &[u8]) -> Option<(Parameter<'_>, &[u8])>
    ensures { option_map (λ x. (x.0, x.1.now)) result ≡ next_parameter_at text.now }
{
    parameter_part(behind(text, b",")?)
}

/// A parameter and as many as stand behind it, and the text behind them.
fn more_parameters<'a>(
    alloc: Global,
    first: Parameter<'a>,
    text: &'a [u8],
) -> Result<(Vec<Parameter<'a>>, &'a [u8]), AllocError>
    ensures { IfOk result (λ x. (x.0.items, x.1.now) ≡ onto first.entry (every next_parameter_at text.now)) }
{
    let mut parameters = Vec::new(alloc);
    parameters.push(first)?;
    let mut rest = text;
    while let Some((found, next)) = next_parameter(rest) {
        parameters.push(found)?;
        rest = next;
    }
    Ok((parameters, rest))
}

/// One and more parameters up to their `)`, and the text behind it.
#[tactic(auto, unfolding(crate::specs::Headers::some_parameters_at))]
fn some_parameters(
    alloc: Global,
    text: &[u8],
) -> Result<Option<(Vec<Parameter<'_>>, &[u8])>, AllocError>
    ensures { IfOk result (λ read. option_map (λ x. (x.0.items, x.1.now)) read ≡ some_parameters_at text.now) }
{
    let Some((first, rest)) = parameter_part(text) else {
        return Ok(None);
    };
    let (parameters, rest) = more_parameters(alloc, first, rest)?;
    match behind(rest, b")") {
        Some(rest) => Ok(Some((parameters, rest))),
        None => Ok(None),
    }
}

/// The parameters up to their `)`, and the text behind it.
#[tactic(auto, unfolding(crate::specs::Headers::parameters_at))]
fn parameters(alloc: Global, text: &[u8]) -> Result<Option<(Vec<Parameter<'_>>, &[u8])>, AllocError>
    ensures { IfOk result (λ read. option_map (λ x. (x.0.items, x.1.now)) read ≡ parameters_at text.now) }
{
    match behind(text, b")") {
        Some(rest) => Ok(Some((Vec::new(alloc), rest))),
        None => some_parameters(alloc, text),
    }
}

/// A type and as many as stand behind it, and the text behind them.
fn more_types(alloc: Global, first: Ty, text: &[u8]) -> Result<(Vec<Ty>, &[u8]), AllocError>
    ensures { IfOk result (λ x. (x.0.items, x.1.now) ≡ onto first (every next_type_at text.now)) }
{
    let mut types = Vec::new(alloc);
    types.push(first)?;
    let mut rest = text;
    while let Some((ty, next)) = next_type(rest) {
        types.push(ty)?;
        rest = next;
    }
    Ok((types, rest))
}

/// The types up to a `)`, one and more, and the text behind it.
#[tactic(auto, unfolding(crate::specs::Headers::types_at))]
fn types(alloc: Global, text: &[u8]) -> Result<Option<(Vec<Ty>, &[u8])>, AllocError>
    ensures { IfOk result (λ read. option_map (λ x. (x.0.items, x.1.now)) read ≡ types_at text.now) }
{
    let Some((first, rest)) = place_type(text) else {
        return Ok(None);
    };
    let (types, rest) = more_types(alloc, first, rest)?;
    match behind(rest, b")") {
        Some(rest) => Ok(Some((types, rest))),
        None => Ok(None),
    }
}

/// Two and more types up to a `)` that ends the line.
#[tactic(auto, unfolding(crate::specs::Headers::several_at))]
fn several(alloc: Global, text: &[u8]) -> Result<Option<Vec<Ty>>, AllocError>
    ensures { IfOk result (λ read. option_map (λ ts. ts.items) read ≡ several_at text.now) }
{
    let Some((types, rest)) = types(alloc, text)? else {
        return Ok(None);
    };
    if types.len() < 2 || !is_done(rest) {
        return Ok(None);
    }
    Ok(Some(types))
}

/// One type that ends the line.
#[tactic(auto, unfolding(crate::specs::Headers::single_at))]
fn single(alloc: Global, text: &[u8]) -> Result<Option<Vec<Ty>>, AllocError>
    ensures { IfOk result (λ read. option_map (λ ts. ts.items) read ≡ single_at text.now) }
{
    let Some((ty, rest)) = place_type(text) else {
        return Ok(None);
    };
    if !is_done(rest) {
        return Ok(None);
    }
    let mut types = Vec::new(alloc);
    types.push(ty)?;
    Ok(Some(types))
}

/// The types of the results: none, one, or two and more in round brackets.
#[tactic(auto, unfolding(crate::specs::Headers::results_at))]
fn results(alloc: Global, text: &[u8]) -> Result<Option<Vec<Ty>>, AllocError>
    ensures { IfOk result (λ read. option_map (λ ts. ts.items) read ≡ results_at text.now) }
{
    if is_done(text) {
        return Ok(Some(Vec::new(alloc)));
    }
    match behind(text, b"(") {
        Some(rest) => several(alloc, rest),
        None => single(alloc, text),
    }
}

/// Reads a function's line.
#[tactic(auto, unfolding(crate::specs::Headers::header_at))]
pub fn func_line(alloc: Global, line: &[u8]) -> Result<Option<FuncLine<'_>>, AllocError>
    ensures { IfOk result (λ read. read ≡ header_at line.now) }
{
    let Some((name, rest)) = func_name(line) else {
        return Ok(None);
    };
    let Some((parameters, rest)) = parameters(alloc, rest)? else {
        return Ok(None);
    };
    let Some(results) = results(alloc, rest)? else {
        return Ok(None);
    };
    Ok(Some(FuncLine {
        name,
        parameters,
        results,
    }))
}
