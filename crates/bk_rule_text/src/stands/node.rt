//! The ops of a rule, their parts and their counts of arguments.
ghost use Rattle.std.specs.Prelude.{◌≡◌};
ghost use Rattle.bk_ops.specs.Table.{info_of};
ghost use Rattle.std.specs.List.{list_all};
ghost use Rattle.bk_rule_text.specs.Stands.{is_left_out, fits_count, fits_parts, may_stand, pattern_stands, build_stands, has_its_parts};

use bk_ops::{AuxKind, Family, Op, op_info};
use bk_rule::{Build, Pattern, Rule};

/// The families that stand in no rule.
fn is_left_out(op: Op) -> bool
    ensures { result ≡ is_left_out op.family }
{
    matches!(op.family, Family::Phi | Family::Copy)
}

/// Whether the op may have so many arguments.
fn has_count(op: Op, count: usize) -> bool
    ensures { result ≡ fits_count (info_of op).arity count }
{
    match op_info(op).arity {
        Some(arity) => usize::from(arity) == count,
        None => true,
    }
}

/// Whether the op has an AuxInt, where one is written, and something in braces, where they are.
fn has_parts(op: Op, int: bool, aux: bool) -> bool
    ensures { result ≡ fits_parts (info_of op).aux int aux }
{
    match op_info(op).aux {
        AuxKind::None => !int && !aux,
        AuxKind::Int => !aux,
        AuxKind::Name | AuxKind::Ty => !int,
    }
}

/// Whether an op with these parts may stand in a rule.
#[tactic(auto, unfolding(crate::specs::Stands::may_stand))]
fn may_stand(op: Op, count: usize, int: bool, aux: bool) -> bool
    ensures { result ≡ may_stand op count int aux }
{
    !is_left_out(op) && has_count(op, count) && has_parts(op, int, aux)
}

/// Whether each op of a left tree may stand there.
#[cycle(pattern)]
fn pattern_stands(pattern: &Pattern) -> bool
    ensures { result ≡ pattern_stands pattern.now }
{
    match pattern {
        Pattern::Any | Pattern::Var(_) => true,
        Pattern::Node {
            op,
            int,
            aux,
            args,
            ..
        } => {
            may_stand(*op, args.len(), int.is_some(), aux.is_some())
                && patterns_stand(args.as_slice())
        }
    }
}

#[cycle(pattern)]
fn patterns_stand(patterns: &[Pattern]) -> bool
    ensures { result ≡ list_all pattern_stands patterns.now }
{
    for pattern in patterns {
        if !pattern_stands(pattern) {
            return false;
        }
    }
    true
}

/// Whether each op of a right tree may stand there.
#[cycle(build)]
fn build_stands(build: &Build) -> bool
    ensures { result ≡ build_stands build.now }
{
    match build {
        Build::Var(_) => true,
        Build::Node {
            op,
            int,
            aux,
            args,
            ..
        } => {
            may_stand(*op, args.len(), int.is_some(), aux.is_some())
                && builds_stand(args.as_slice())
        }
    }
}

#[cycle(build)]
fn builds_stand(builds: &[Build]) -> bool
    ensures { result ≡ list_all build_stands builds.now }
{
    for build in builds {
        if !build_stands(build) {
            return false;
        }
    }
    true
}

/// Whether each op of the rule may stand there, with its arguments and parts.
#[tactic(auto, unfolding(crate::specs::Stands::has_its_parts))]
pub fn has_its_parts(rule: &Rule) -> bool
    ensures { result ≡ has_its_parts rule.now }
{
    pattern_stands(&rule.left) && build_stands(&rule.right)
}
