//! Left and right trees.
ghost use Rattle.std.specs.Prelude.{◌≡◌, ◌++◌, codes, string_bytes, OnOk};
ghost use Rattle.bk_ops.specs.Names.{name_of};
ghost use Rattle.bk_rule_text.specs.Layout.{name_text, type_variable_text, int_part_text, aux_text, front_text, pattern_text, patterns_text, type_text, int_text, made_text, build_text, builds_text};

use crate::printer::expr::write_expr;
use crate::printer::word::type_name;
use bk_ops::{Op, op_name};
use bk_rule::{Build, Expr, IntPart, Memory, Pattern, TyPart};
use std::alloc::{AllocError, Global};

/// Writes the bracket that opens a node, and its op.
fn write_op(alloc: Global, out: &mut String, op: Op) -> Result<(), Memory>
    ensures { OnOk result (string_bytes out.new ≡ string_bytes out.old ++ (codes "(" ++ name_of op)) }
{
    let name = op_name(alloc, op)?;
    write!(out, "({name}")?;
    Ok(())
}

/// Writes the variable that names a node, where there is one.
#[tactic(auto, unfolding(crate::specs::Layout::variable))]
fn write_name(out: &mut String, variable: Option<u32>) -> Result<(), AllocError>
    ensures { OnOk result (string_bytes out.new ≡ string_bytes out.old ++ name_text variable) }
{
    match variable {
        Some(variable) => write!(out, "x{variable}:"),
        None => Ok(()),
    }
}

/// Writes the variable of a node's type, where there is one.
#[tactic(auto, unfolding(crate::specs::Layout::variable))]
fn write_type_variable(out: &mut String, variable: Option<u32>) -> Result<(), AllocError>
    ensures { OnOk result (string_bytes out.new ≡ string_bytes out.old ++ type_variable_text variable) }
{
    match variable {
        Some(variable) => write!(out, " <x{variable}>"),
        None => Ok(()),
    }
}

/// Writes the AuxInt of a left tree's node, where there is one.
#[tactic(auto, unfolding(crate::specs::Layout::variable))]
fn write_int_part(out: &mut String, int: Option<IntPart>) -> Result<(), AllocError>
    ensures { OnOk result (string_bytes out.new ≡ string_bytes out.old ++ int_part_text int) }
{
    match int {
        Some(IntPart::Number(number)) => write!(out, " [{number}]"),
        Some(IntPart::Var(variable)) => write!(out, " [x{variable}]"),
        None => Ok(()),
    }
}

/// Writes the variable of what a node has in braces, where there is one.
#[tactic(auto, unfolding(crate::specs::Layout::variable))]
fn write_aux(out: &mut String, variable: Option<u32>) -> Result<(), AllocError>
    ensures { OnOk result (string_bytes out.new ≡ string_bytes out.old ++ aux_text variable) }
{
    match variable {
        Some(variable) => write!(out, " {{x{variable}}}"),
        None => Ok(()),
    }
}

/// Writes a left tree's node up to its arguments.
#[tactic(auto, unfolding(crate::specs::Layout::front_text))]
fn write_head(
    alloc: Global,
    out: &mut String,
    op: Op,
    ty: Option<u32>,
    int: Option<IntPart>,
    aux: Option<u32>,
) -> Result<(), Memory>
    ensures { OnOk result (string_bytes out.new ≡ string_bytes out.old ++ front_text op ty int aux) }
{
    write_op(alloc, out, op)?;
    write_type_variable(out, ty)?;
    write_int_part(out, int)?;
    write_aux(out, aux)?;
    Ok(())
}

/// Writes a left tree.
#[cycle(pattern)]
#[tactic(auto, unfolding(crate::specs::Layout::variable))]
pub fn write_pattern(alloc: Global, out: &mut String, pattern: &Pattern) -> Result<(), Memory>
    ensures { OnOk result (string_bytes out.new ≡ string_bytes out.old ++ pattern_text pattern.now) }
{
    match pattern {
        Pattern::Any => Ok(out.push_str("_")?),
        Pattern::Var(variable) => Ok(write!(out, "x{variable}")?),
        Pattern::Node {
            var,
            op,
            ty,
            int,
            aux,
            args,
        } => {
            write_name(out, *var)?;
            write_head(alloc, out, *op, *ty, *int, *aux)?;
            write_patterns(alloc, out, args.as_slice())
        }
    }
}

/// Writes the arguments of a node, and the bracket that closes it.
#[cycle(pattern)]
#[tactic(auto, unfolding(crate::specs::Layout::patterns_text))]
fn write_patterns(alloc: Global, out: &mut String, patterns: &[Pattern]) -> Result<(), Memory>
    ensures { OnOk result (string_bytes out.new ≡ string_bytes out.old ++ (patterns_text patterns.now ++ codes ")")) }
{
    for pattern in patterns {
        out.push_str(" ")?;
        write_pattern(alloc, out, pattern)?;
    }
    out.push_str(")")?;
    Ok(())
}

/// Writes the type of a right tree's node, where there is one.
#[tactic(auto, unfolding(crate::specs::Layout::variable))]
fn write_type(out: &mut String, ty: Option<TyPart>) -> Result<(), AllocError>
    ensures { OnOk result (string_bytes out.new ≡ string_bytes out.old ++ type_text ty) }
{
    match ty {
        Some(TyPart::Is(ty)) => {
            let name = type_name(ty);
            write!(out, " <{name}>")
        }
        Some(TyPart::Var(variable)) => write!(out, " <x{variable}>"),
        None => Ok(()),
    }
}

/// Writes the AuxInt of a right tree's node, where there is one.
fn write_int(out: &mut String, int: &Option<Expr>) -> Result<(), AllocError>
    ensures { OnOk result (string_bytes out.new ≡ string_bytes out.old ++ int_text int.now) }
{
    match int {
        Some(expr) => {
            out.push_str(" [")?;
            write_expr(out, expr)?;
            out.push_str("]")
        }
        None => Ok(()),
    }
}

/// Writes a right tree's node up to its arguments.
#[tactic(auto, unfolding(crate::specs::Layout::made_text))]
fn write_made(
    alloc: Global,
    out: &mut String,
    op: Op,
    ty: Option<TyPart>,
    int: &Option<Expr>,
    aux: Option<u32>,
) -> Result<(), Memory>
    ensures { OnOk result (string_bytes out.new ≡ string_bytes out.old ++ made_text op ty int.now aux) }
{
    write_op(alloc, out, op)?;
    write_type(out, ty)?;
    write_int(out, int)?;
    write_aux(out, aux)?;
    Ok(())
}

/// Writes a right tree.
#[cycle(build)]
#[tactic(auto, unfolding(crate::specs::Layout::variable))]
pub fn write_build(alloc: Global, out: &mut String, build: &Build) -> Result<(), Memory>
    ensures { OnOk result (string_bytes out.new ≡ string_bytes out.old ++ build_text build.now) }
{
    match build {
        Build::Var(variable) => Ok(write!(out, "x{variable}")?),
        Build::Node {
            op,
            ty,
            int,
            aux,
            args,
        } => {
            write_made(alloc, out, *op, *ty, int, *aux)?;
            write_builds(alloc, out, args.as_slice())
        }
    }
}

/// Writes the arguments of a node, and the bracket that closes it.
#[cycle(build)]
#[tactic(auto, unfolding(crate::specs::Layout::builds_text))]
fn write_builds(alloc: Global, out: &mut String, builds: &[Build]) -> Result<(), Memory>
    ensures { OnOk result (string_bytes out.new ≡ string_bytes out.old ++ (builds_text builds.now ++ codes ")")) }
{
    for build in builds {
        out.push_str(" ")?;
        write_build(alloc, out, build)?;
    }
    out.push_str(")")?;
    Ok(())
}
