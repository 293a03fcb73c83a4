// Copies of rules.
ghost use Rattle.std.specs.Prelude.{◌≡◌, IfOk};

use crate::{Build, Expr, Memory, Pattern, Rule};
use sqlite_items::Items;
use std::alloc::{AllocError, Global};

/// Equal rules.
pub fn copy_rules(alloc: Global, rules: &[Rule]) -> Result<Vec<Rule>, Memory>
    ensures { IfOk result (λ copy. copy.items ≡ rules.now) }
{
    Ok(copy_all(alloc, rules)?)
}

fn copy_all(alloc: Global, rules: &[Rule]) -> Result<Vec<Rule>, AllocError>
    ensures { IfOk result (λ copy. copy.items ≡ rules.now) }
{
    let mut copy = Vec::with_capacity(alloc, rules.len())?;
    for rule in rules {
        copy.push(copy_rule(alloc, rule)?)?;
    }
    Ok(copy)
}

fn copy_rule(alloc: Global, rule: &Rule) -> Result<Rule, AllocError>
    ensures { IfOk result (λ copy. copy ≡ rule.now) }
{
    let left = copy_pattern(alloc, &rule.left)?;
    let conds = copy_exprs(alloc, rule.conds.as_slice())?;
    let right = copy_build(alloc, &rule.right)?;
    Ok(Rule { left, conds, right })
}

#[cycle(pattern)]
fn copy_pattern(alloc: Global, pattern: &Pattern) -> Result<Pattern, AllocError>
    ensures { IfOk result (λ copy. copy ≡ pattern.now) }
{
    match pattern {
        Pattern::Any => Ok(Pattern::Any),
        Pattern::Var(variable) => Ok(Pattern::Var(*variable)),
        Pattern::Node {
            var,
            op,
            ty,
            int,
            aux,
            args,
        } => {
            let args = copy_patterns(alloc, args.as_slice())?;
            Ok(Pattern::Node {
                var: *var,
                op: *op,
                ty: *ty,
                int: *int,
                aux: *aux,
                args,
            })
        }
    }
}

#[cycle(pattern)]
fn copy_patterns(alloc: Global, patterns: &[Pattern]) -> Result<Items<Pattern>, AllocError>
    ensures { IfOk result (λ copy. copy ≡ patterns.now) }
{
    let mut copy = Vec::with_capacity(alloc, patterns.len())?;
    for pattern in patterns {
        copy.push(copy_pattern(alloc, pattern)?)?;
    }
    Ok(Items::from_vec(copy))
}

#[cycle(build)]
fn copy_build(alloc: Global, build: &Build) -> Result<Build, AllocError>
    ensures { IfOk result (λ copy. copy ≡ build.now) }
{
    match build {
        Build::Var(variable) => Ok(Build::Var(*variable)),
        Build::Node {
            op,
            ty,
            int,
            aux,
            args,
        } => {
            let int = copy_int(alloc, int)?;
            let args = copy_builds(alloc, args.as_slice())?;
            Ok(Build::Node {
                op: *op,
                ty: *ty,
                int,
                aux: *aux,
                args,
            })
        }
    }
}

#[cycle(build)]
fn copy_builds(alloc: Global, builds: &[Build]) -> Result<Items<Build>, AllocError>
    ensures { IfOk result (λ copy. copy ≡ builds.now) }
{
    let mut copy = Vec::with_capacity(alloc, builds.len())?;
    for build in builds {
        copy.push(copy_build(alloc, build)?)?;
    }
    Ok(Items::from_vec(copy))
}

fn copy_int(alloc: Global, int: &Option<Expr>) -> Result<Option<Expr>, AllocError>
    ensures { IfOk result (λ copy. copy ≡ int.now) }
{
    match int {
        None => Ok(None),
        Some(expr) => Ok(Some(copy_expr(alloc, expr)?)),
    }
}

#[cycle(expr)]
fn copy_expr(alloc: Global, expr: &Expr) -> Result<Expr, AllocError>
    ensures { IfOk result (λ copy. copy ≡ expr.now) }
{
    match expr {
        Expr::Number(number) => Ok(Expr::Number(*number)),
        Expr::Var(variable) => Ok(Expr::Var(*variable)),
        Expr::Call { fun, args } => {
            let args = copy_exprs(alloc, args.as_slice())?;
            Ok(Expr::Call { fun: *fun, args })
        }
    }
}

#[cycle(expr)]
fn copy_exprs(alloc: Global, exprs: &[Expr]) -> Result<Items<Expr>, AllocError>
    ensures { IfOk result (λ copy. copy ≡ exprs.now) }
{
    let mut copy = Vec::with_capacity(alloc, exprs.len())?;
    for expr in exprs {
        copy.push(copy_expr(alloc, expr)?)?;
    }
    Ok(Items::from_vec(copy))
}
