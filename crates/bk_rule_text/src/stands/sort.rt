//! What the variables of a rule stand for, by the places where they stand.
ghost use Rattle.std.specs.Prelude.{◌≡◌, ◌++◌, IfOk, OnOk};
ghost use Rattle.bk_rule_text.specs.Stands.{sort_of_aux, variable_of_int, variable_of_type, sort_of_operand, same_sort, agree, pattern_sorts, patterns_sorts, expr_sorts, exprs_sorts, int_sorts, build_sorts, builds_sorts, rule_sorts};

use crate::stands::said::{agrees, note};
use bk_ops::{AuxKind, Family, Op, op_info};
use bk_rule::{Build, Expr, Fun, IntPart, Pattern, Rule, TyPart};
use std::alloc::{AllocError, Global};

/// What a variable stands for.
#[derive(Clone, Copy, PartialEq, Eq, Debug)]
pub enum Sort {
    Value,
    Int,
    Type,
    /// A function or a variable of the package.
    Symbol,
    /// An argument of the function.
    Argument,
}

/// The sort of what an op has in braces.
#[tactic(auto, unfolding(crate::specs::Stands::sort_of_aux))]
fn sort_of_aux(op: Op) -> Sort
    ensures { result ≡ sort_of_aux op }
{
    match op_info(op).aux {
        AuxKind::Ty => Sort::Type,
        AuxKind::None | AuxKind::Int | AuxKind::Name => match op.family {
            Family::Arg => Sort::Argument,
            _ => Sort::Symbol,
        },
    }
}

fn variable_of_int(int: Option<IntPart>) -> Option<u32>
    ensures { result ≡ variable_of_int int }
{
    match int {
        Some(IntPart::Var(variable)) => Some(variable),
        _ => None,
    }
}

/// The variable of a right tree's type.
pub fn variable_of_type(ty: Option<TyPart>) -> Option<u32>
    ensures { result ≡ variable_of_type ty }
{
    match ty {
        Some(TyPart::Var(variable)) => Some(variable),
        _ => None,
    }
}

/// Notes the variables of a left tree.
#[cycle(pattern)]
fn note_pattern(said: &mut Vec<(u32, Sort)>, pattern: &Pattern) -> Result<(), AllocError>
    ensures { OnOk result (said.new.items ≡ said.old.items ++ pattern_sorts pattern.now) }
{
    match pattern {
        Pattern::Any => Ok(()),
        Pattern::Var(variable) => note(said, Some(*variable), Sort::Value),
        Pattern::Node {
            var,
            op,
            ty,
            int,
            aux,
            args,
        } => {
            note(said, *var, Sort::Value)?;
            note(said, *ty, Sort::Type)?;
            note(said, variable_of_int(*int), Sort::Int)?;
            note(said, *aux, sort_of_aux(*op))?;
            note_patterns(said, args.as_slice())
        }
    }
}

#[cycle(pattern)]
#[tactic(auto, unfolding(crate::specs::Stands::patterns_sorts))]
fn note_patterns(said: &mut Vec<(u32, Sort)>, patterns: &[Pattern]) -> Result<(), AllocError>
    ensures { OnOk result (said.new.items ≡ said.old.items ++ patterns_sorts patterns.now) }
{
    for pattern in patterns {
        note_pattern(said, pattern)?;
    }
    Ok(())
}

/// What a variable stands for that is an operand of this function.
#[tactic(auto, unfolding(crate::specs::Stands::sort_of_operand))]
fn sort_of_operand(fun: Fun) -> Sort
    ensures { result ≡ sort_of_operand fun }
{
    match fun {
        Fun::Size | Fun::IsBool => Sort::Type,
        Fun::Uses => Sort::Value,
        _ => Sort::Int,
    }
}

/// Notes the variables of an expression, which stands where this sort is asked for.
#[cycle(expr)]
fn note_expr(said: &mut Vec<(u32, Sort)>, expr: &Expr, sort: Sort) -> Result<(), AllocError>
    ensures { OnOk result (said.new.items ≡ said.old.items ++ expr_sorts expr.now sort) }
{
    match expr {
        Expr::Number(_) => Ok(()),
        Expr::Var(variable) => note(said, Some(*variable), sort),
        Expr::Call { fun, args } => note_exprs(said, args.as_slice(), sort_of_operand(*fun)),
    }
}

#[cycle(expr)]
#[tactic(auto, unfolding(crate::specs::Stands::exprs_sorts))]
fn note_exprs(said: &mut Vec<(u32, Sort)>, exprs: &[Expr], sort: Sort) -> Result<(), AllocError>
    ensures { OnOk result (said.new.items ≡ said.old.items ++ exprs_sorts exprs.now sort) }
{
    for expr in exprs {
        note_expr(said, expr, sort)?;
    }
    Ok(())
}

fn note_int(said: &mut Vec<(u32, Sort)>, int: &Option<Expr>) -> Result<(), AllocError>
    ensures { OnOk result (said.new.items ≡ said.old.items ++ int_sorts int.now) }
{
    match int {
        Some(expr) => note_expr(said, expr, Sort::Int),
        None => Ok(()),
    }
}

/// Notes the variables of a right tree.
#[cycle(build)]
fn note_build(said: &mut Vec<(u32, Sort)>, build: &Build) -> Result<(), AllocError>
    ensures { OnOk result (said.new.items ≡ said.old.items ++ build_sorts build.now) }
{
    match build {
        Build::Var(variable) => note(said, Some(*variable), Sort::Value),
        Build::Node {
            op,
            ty,
            int,
            aux,
            args,
        } => {
            note(said, variable_of_type(*ty), Sort::Type)?;
            note_int(said, int)?;
            note(said, *aux, sort_of_aux(*op))?;
            note_builds(said, args.as_slice())
        }
    }
}

#[cycle(build)]
#[tactic(auto, unfolding(crate::specs::Stands::builds_sorts))]
fn note_builds(said: &mut Vec<(u32, Sort)>, builds: &[Build]) -> Result<(), AllocError>
    ensures { OnOk result (said.new.items ≡ said.old.items ++ builds_sorts builds.now) }
{
    for build in builds {
        note_build(said, build)?;
    }
    Ok(())
}

/// What is said of the variables of a rule.
#[tactic(auto, unfolding(crate::specs::Stands::rule_sorts))]
fn sorts(alloc: Global, rule: &Rule) -> Result<Vec<(u32, Sort)>, AllocError>
    ensures { IfOk result (λ said. said.items ≡ rule_sorts rule.now) }
{
    let mut said = Vec::new(alloc);
    note_pattern(&mut said, &rule.left)?;
    note_exprs(&mut said, rule.conds.as_slice(), Sort::Int)?;
    note_build(&mut said, &rule.right)?;
    Ok(said)
}

/// Whether each variable stands for one sort of thing.
pub fn has_one_sort_each(alloc: Global, rule: &Rule) -> Result<bool, AllocError>
    ensures { IfOk result (λ ok. ok ≡ agree same_sort (rule_sorts rule.now)) }
{
    agrees(alloc, &sorts(alloc, rule)?)
}
