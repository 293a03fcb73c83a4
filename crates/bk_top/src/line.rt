//! The line that tells a refusal.

ghost use Rattle.std.specs.Prelude.{◌≡◌, ◌++◌, codes, string_bytes, IfOk, IfSome, IfNone};
ghost use Rattle.bk_top.specs.Refusals.{limit_name, kind_name, place_name, cause_text, func_line, line};
ghost use Rattle.bk_top.specs.Answer.{IsPlain};

use crate::refusal::{Refusal, RefusedFunc};
use bk_dump::Which;
use bk_elf::LoadError;
use bk_form::{FormKind, Place};
use bk_work::Cause;
use std::alloc::{AllocError, Global};

fn limit_name(which: Which) -> &'static str
    ensures { result.now ≡ limit_name which }
{
    match which {
        Which::Functions => "functions",
        Which::Variables => "variables",
        Which::Values => "values",
        Which::Blocks => "blocks",
        Which::Numbers => "numbers",
        Which::Signature => "signature",
        Which::Window => "window",
    }
}

fn kind_name(kind: FormKind) -> &'static str
    ensures { result.now ≡ kind_name kind }
{
    match kind {
        FormKind::Control => "control",
        FormKind::Missing => "missing",
        FormKind::Arity => "arity",
        FormKind::Ty => "type",
        FormKind::Width => "width",
        FormKind::Use => "use",
        FormKind::Memory => "memory",
        FormKind::Order => "order",
    }
}

/// A block's or a value's number behind its letter.
fn place_name(alloc: Global, place: Place) -> Result<String, AllocError>
    ensures { IfOk result (λ name. string_bytes name ≡ place_name place) }
{
    match place {
        Place::Block(id) => format!(in alloc; "b{id}"),
        Place::Value(id) => format!(in alloc; "v{id}"),
    }
}

#[tactic(auto, unfolding(crate::specs::Refusals::line))]
fn limit_line(alloc: Global, which: Which, number: u64) -> Result<String, AllocError>
    ensures { IfOk result (λ text. string_bytes text ≡ line (Refusal.Limit which number)) }
{
    let which = limit_name(which);
    format!(in alloc; "line {number}: limit {which}\n")
}

#[tactic(auto, unfolding(crate::specs::Refusals::line))]
fn form_line(
    alloc: Global,
    func: &String,
    kind: FormKind,
    place: Place,
) -> Result<String, AllocError>
    ensures { IfOk result (λ text. string_bytes text ≡ line (Refusal.FormFault func.now kind place)) }
{
    let kind = kind_name(kind);
    let place = place_name(alloc, place)?;
    format!(in alloc; "function {func}: form {kind} {place}\n")
}

#[tactic(auto, unfolding(crate::specs::Refusals::line))]
fn object_line(alloc: Global, error: LoadError) -> Result<String, AllocError>
    ensures { IfOk result (λ text. string_bytes text ≡ line (Refusal.Object error)) }
{
    match error {
        LoadError::NotElf => String::from_str(alloc, "object: not ELF\n"),
        LoadError::BadHeader { field } => format!(in alloc; "object: header {field}\n"),
        LoadError::BadSection { n } => format!(in alloc; "object: section {n}\n"),
        LoadError::Truncated => String::from_str(alloc, "object: truncated\n"),
        LoadError::Memory => String::from_str(alloc, "object: memory\n"),
    }
}

/// Why a function is not compiled.
fn cause_text(alloc: Global, cause: Cause) -> Result<String, AllocError>
    ensures { IfOk result (λ text. string_bytes text ≡ cause_text cause) }
{
    match cause {
        Cause::Construct(value) => format!(in alloc; "construct v{value}"),
        Cause::Passes(count) => format!(in alloc; "passes {count}"),
        Cause::Grown(values) => format!(in alloc; "grown {values}"),
        Cause::Frame(need) => format!(in alloc; "frame {need}"),
    }
}

/// The line of a function that is not compiled.
fn func_line(alloc: Global, refused: &RefusedFunc) -> Result<String, AllocError>
    ensures { IfOk result (λ text. string_bytes text ≡ func_line refused.now) }
{
    let name = &refused.name;
    let cause = cause_text(alloc, refused.cause)?;
    format!(in alloc; "function {name}: {cause}\n")
}

/// The lines of the functions that are not compiled.
#[tactic(auto, unfolding(crate::specs::Refusals::line))]
fn func_lines(alloc: Global, refused: &Vec<RefusedFunc>) -> Result<String, AllocError>
    ensures { IfOk result (λ text. string_bytes text ≡ line (Refusal.Functions refused.now)) }
{
    let mut text = String::new(alloc);
    for it in refused {
        let line = func_line(alloc, it)?;
        text.push_str(&line)?;
    }
    Ok(text)
}

/// The line of a refusal that tells no more than its cause.
#[tactic(auto, unfolding(crate::specs::Refusals::line))]
pub fn plain_line(refusal: &Refusal) -> Option<&'static str>
    ensures found { IfSome result (λ text. text.now ≡ line refusal.now) }
    ensures none { IfNone result (IsPlain refusal.now → ⊥) }
{
    match refusal {
        Refusal::Words => Some("words\n"),
        Refusal::TooLong => Some("too long\n"),
        Refusal::ExtraTooLong => Some("extra too long\n"),
        Refusal::Function => Some("function\n"),
        Refusal::Arguments => Some("arguments\n"),
        Refusal::ReadFault => Some("read fault\n"),
        Refusal::WriteFault => Some("write fault\n"),
        Refusal::Memory => Some("memory\n"),
        Refusal::Syntax { .. }
        | Refusal::Limit { .. }
        | Refusal::Duplicate { .. }
        | Refusal::Undefined { .. }
        | Refusal::FormFault { .. }
        | Refusal::RuleSyntax { .. }
        | Refusal::RuleOp { .. }
        | Refusal::Functions(_)
        | Refusal::Text { .. }
        | Refusal::Object(_) => None,
    }
}

/// The refusal's line on the error stream.
#[tactic(auto, unfolding(crate::specs::Refusals::line))]
pub fn line(alloc: Global, refusal: &Refusal) -> Result<String, AllocError>
    ensures { IfOk result (λ text. string_bytes text ≡ line refusal.now) }
{
    match refusal {
        Refusal::Syntax { line } => format!(in alloc; "line {line}: syntax\n"),
        Refusal::Limit { which, line } => limit_line(alloc, *which, *line),
        Refusal::Duplicate { line } => format!(in alloc; "line {line}: duplicate\n"),
        Refusal::Undefined { name } => format!(in alloc; "undefined {name}\n"),
        Refusal::FormFault { func, kind, place } => form_line(alloc, func, *kind, *place),
        Refusal::Words => String::from_str(alloc, "words\n"),
        Refusal::TooLong => String::from_str(alloc, "too long\n"),
        Refusal::ExtraTooLong => String::from_str(alloc, "extra too long\n"),
        Refusal::RuleSyntax { line } => format!(in alloc; "extra line {line}: syntax\n"),
        Refusal::RuleOp { line } => format!(in alloc; "extra line {line}: op\n"),
        Refusal::Functions(refused) => func_lines(alloc, refused),
        Refusal::Text { bytes } => format!(in alloc; "text {bytes}\n"),
        Refusal::Object(error) => object_line(alloc, *error),
        Refusal::Function => String::from_str(alloc, "function\n"),
        Refusal::Arguments => String::from_str(alloc, "arguments\n"),
        Refusal::ReadFault => String::from_str(alloc, "read fault\n"),
        Refusal::WriteFault => String::from_str(alloc, "write fault\n"),
        Refusal::Memory => String::from_str(alloc, "memory\n"),
    }
}
