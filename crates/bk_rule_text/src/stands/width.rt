//! Widths in extra rules.
ghost use Rattle.std.specs.Prelude.{◌≡◌, ◌++◌, IfOk, OnOk};
ghost use Rattle.bk_rule_text.specs.Stands.{agree, variable_of_type};
ghost use Rattle.bk_rule_text.specs.Widths.{same_class, pattern_fits, patterns_fit, pattern_classes, patterns_classes, type_part_fits, head_fits, build_fits, builds_fit, build_classes, builds_classes, class_of, fits};

use crate::stands::class::{class_at, op_fits, result_of, type_fits};
use crate::stands::said::{agrees, note};
use crate::stands::sort::variable_of_type;
use bk_ops::{Class, Op};
use bk_rule::{Build, Pattern, Rule, TyPart};
use std::alloc::{AllocError, Global};

/// Whether each op of a left tree is one that an extra rule may have, and gives what its place takes.
#[cycle(pattern)]
fn pattern_fits(pattern: &Pattern, class: Class) -> bool
    ensures { result ≡ pattern_fits pattern.now class }
{
    match pattern {
        Pattern::Any | Pattern::Var(_) => true,
        Pattern::Node { op, args, .. } => {
            op_fits(*op, class) && patterns_fit(*op, args.as_slice())
        }
    }
}

#[cycle(pattern)]
fn patterns_fit(op: Op, patterns: &[Pattern]) -> bool
    ensures { result ≡ patterns_fit op 0 patterns.now }
{
    for (place, pattern) in patterns.iter().enumerate() {
        if !pattern_fits(pattern, class_at(op, place)) {
            return false;
        }
    }
    true
}

/// Whether the type of a node fits its class.
fn type_part_fits(ty: Option<TyPart>, class: Class) -> bool
    ensures { result ≡ type_part_fits ty class }
{
    match ty {
        Some(TyPart::Is(ty)) => type_fits(ty, class),
        None | Some(TyPart::Var(_)) => true,
    }
}

/// Whether the op and the type of a right tree's node fit the place where it stands.
fn head_fits(op: Op, ty: Option<TyPart>, class: Class) -> bool
    ensures { result ≡ head_fits op ty class }
{
    op_fits(op, class) && type_part_fits(ty, class)
}

/// The same of a right tree, whose types have to fit too.
#[cycle(build)]
fn build_fits(build: &Build, class: Class) -> bool
    ensures { result ≡ build_fits build.now class }
{
    match build {
        Build::Var(_) => true,
        Build::Node { op, ty, args, .. } => {
            head_fits(*op, *ty, class) && builds_fit(*op, args.as_slice())
        }
    }
}

#[cycle(build)]
fn builds_fit(op: Op, builds: &[Build]) -> bool
    ensures { result ≡ builds_fit op 0 builds.now }
{
    for (place, build) in builds.iter().enumerate() {
        if !build_fits(build, class_at(op, place)) {
            return false;
        }
    }
    true
}

/// Notes the classes of the variables of values and types in a left tree, which stands where this class is asked for.
#[cycle(classes)]
fn note_pattern(
    said: &mut Vec<(u32, Class)>,
    pattern: &Pattern,
    class: Class,
) -> Result<(), AllocError>
    ensures { OnOk result (said.new.items ≡ said.old.items ++ pattern_classes pattern.now class) }
{
    match pattern {
        Pattern::Any => Ok(()),
        Pattern::Var(variable) => note(said, Some(*variable), class),
        Pattern::Node {
            var,
            op,
            ty,
            args,
            ..
        } => {
            note(said, *var, class)?;
            note(said, *ty, class)?;
            note_patterns(said, *op, args.as_slice())
        }
    }
}

#[cycle(classes)]
#[tactic(auto, unfolding(crate::specs::Widths::patterns_classes))]
fn note_patterns(
    said: &mut Vec<(u32, Class)>,
    op: Op,
    patterns: &[Pattern],
) -> Result<(), AllocError>
    ensures { OnOk result (said.new.items ≡ said.old.items ++ patterns_classes op 0 patterns.now) }
{
    for (place, pattern) in patterns.iter().enumerate() {
        note_pattern(said, pattern, class_at(op, place))?;
    }
    Ok(())
}

/// The same of a right tree.
#[cycle(made_classes)]
fn note_build(said: &mut Vec<(u32, Class)>, build: &Build, class: Class) -> Result<(), AllocError>
    ensures { OnOk result (said.new.items ≡ said.old.items ++ build_classes build.now class) }
{
    match build {
        Build::Var(variable) => note(said, Some(*variable), class),
        Build::Node { op, ty, args, .. } => {
            note(said, variable_of_type(*ty), class)?;
            note_builds(said, *op, args.as_slice())
        }
    }
}

#[cycle(made_classes)]
#[tactic(auto, unfolding(crate::specs::Widths::builds_classes))]
fn note_builds(said: &mut Vec<(u32, Class)>, op: Op, builds: &[Build]) -> Result<(), AllocError>
    ensures { OnOk result (said.new.items ≡ said.old.items ++ builds_classes op 0 builds.now) }
{
    for (place, build) in builds.iter().enumerate() {
        note_build(said, build, class_at(op, place))?;
    }
    Ok(())
}

/// The class of what a left tree as a whole stands for.
fn class_of(pattern: &Pattern) -> Class
    ensures { result ≡ class_of pattern.now }
{
    match pattern {
        Pattern::Node { op, .. } => result_of(*op),
        Pattern::Any | Pattern::Var(_) => Class::ByType,
    }
}

/// Whether the classes of each variable of a rule, whose roots are of this class, are the same.
fn has_one_class_each(alloc: Global, rule: &Rule, class: Class) -> Result<bool, AllocError>
    ensures { IfOk result (λ ok. ok ≡ agree same_class (pattern_classes rule.now.left class ++ build_classes rule.now.right class)) }
{
    let mut said = Vec::new(alloc);
    note_pattern(&mut said, &rule.left, class)?;
    note_build(&mut said, &rule.right, class)?;
    agrees(alloc, &said)
}

/// Whether all widths of an extra rule fit.
#[tactic(auto, unfolding(crate::specs::Widths::fits))]
pub fn fits(alloc: Global, rule: &Rule) -> Result<bool, AllocError>
    ensures { IfOk result (λ ok. ok ≡ fits rule.now) }
{
    let class = class_of(&rule.left);
    if pattern_fits(&rule.left, class) && build_fits(&rule.right, class) {
        has_one_class_each(alloc, rule, class)
    } else {
        Ok(false)
    }
}
