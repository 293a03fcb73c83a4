//! Right trees.
ghost use Rattle.std.specs.Prelude.{◌≡◌, codes, length};
ghost use Rattle.std.specs.Option.{option_map};
ghost use Rattle.bk_rule_text.specs.Front.{closed, until_bracket};
ghost use Rattle.bk_rule_text.specs.Words.{name_at};
ghost use Rattle.bk_rule_text.specs.Builds.{type_named, type_in, type_part_at, int_part_at, aux_in, aux_part_at, node_at, bound_at, build_in, build_at};
ghost use Rattle.bk_rule_text.specs.Views.{Reads};

use crate::errors::Unread;
use crate::read::expr::expr;
use crate::read::front::behind;
use crate::read::levels::Levels;
use crate::read::names::Scope;
use crate::read::pattern::{closed, op};
use crate::read::word::{name, type_of_name, variable};
use bk_rule::{Build, Expr, TyPart};
use sqlite_items::Items;
use std::alloc::Global;

/// A name, and the text behind the mark that closes it.
#[tactic(auto, unfolding(crate::specs::Front::closed))]
fn closed_name(text: &[u8]) -> Option<(&[u8], &[u8])>
    ensures { option_map (λ x. (x.0.now, x.1.now)) result ≡ closed (codes ">") name_at text.now }
{
    let (name, rest) = name(text)?;
    Some((name, behind(rest, b">")?))
}

/// The type, or the variable of a type, that a name stands for.
#[tactic(auto, unfolding(crate::specs::Builds::type_named))]
fn type_named(scope: &Scope, name: &[u8]) -> Result<TyPart, Unread>
    ensures { Reads (λ ty. ty) result (type_named scope.now name.now) }
{
    match type_of_name(name) {
        Some(ty) => Ok(TyPart::Is(ty)),
        None => Ok(TyPart::Var(scope.number(name)?)),
    }
}

/// Reads a type, and the mark that closes it.
#[tactic(auto, unfolding(crate::specs::Builds::type_in))]
fn type_in<'t>(scope: &Scope, text: &'t [u8]) -> Result<(Option<TyPart>, &'t [u8]), Unread>
    ensures { Reads (λ x. (x.0, x.1.now)) result (type_in scope.now text.now) }
{
    let Some((name, rest)) = closed_name(text) else {
        return Err(Unread::Syntax);
    };
    Ok((Some(type_named(scope, name)?), rest))
}

/// Reads the type of a node, where one stands.
#[tactic(auto, unfolding(crate::specs::Builds::type_part_at))]
fn type_part<'t>(scope: &Scope, text: &'t [u8]) -> Result<(Option<TyPart>, &'t [u8]), Unread>
    ensures { Reads (λ x. (x.0, x.1.now)) result (type_part_at scope.now text.now) }
{
    match behind(text, b"<") {
        Some(inside) => type_in(scope, inside),
        None => Ok((None, text)),
    }
}

/// Reads the AuxInt of a node, where one stands.
#[tactic(auto, unfolding(crate::specs::Builds::int_part_at, crate::specs::Front::closed))]
fn int_part<'t>(
    alloc: Global,
    scope: &Scope,
    levels: Levels,
    text: &'t [u8],
) -> Result<(Option<Expr>, &'t [u8]), Unread>
    ensures { Reads (λ x. (x.0, x.1.now)) result (int_part_at scope.now levels.left text.now) }
{
    let Some(inside) = behind(text, b"[") else {
        return Ok((None, text));
    };
    let (int, rest) = expr(alloc, scope, levels, inside)?;
    match behind(rest, b"]") {
        Some(rest) => Ok((Some(int), rest)),
        None => Err(Unread::Syntax),
    }
}

/// Reads a variable, and the brace that closes it.
#[tactic(auto, unfolding(crate::specs::Builds::aux_in))]
fn aux_in<'t>(scope: &Scope, text: &'t [u8]) -> Result<(Option<u32>, &'t [u8]), Unread>
    ensures { Reads (λ x. (x.0, x.1.now)) result (aux_in scope.now text.now) }
{
    let Some((name, rest)) = closed(text, b"}") else {
        return Err(Unread::Syntax);
    };
    Ok((Some(scope.number(name)?), rest))
}

/// Reads what stands in braces, where they stand.
#[tactic(auto, unfolding(crate::specs::Builds::aux_part_at))]
fn aux_part<'t>(scope: &Scope, text: &'t [u8]) -> Result<(Option<u32>, &'t [u8]), Unread>
    ensures { Reads (λ x. (x.0, x.1.now)) result (aux_part_at scope.now text.now) }
{
    match behind(text, b"{") {
        Some(inside) => aux_in(scope, inside),
        None => Ok((None, text)),
    }
}

/// Reads a node, whose bracket is open.
#[cycle(build)]
#[tactic(auto, unfolding(crate::specs::Builds::node_at))]
fn node<'t>(
    alloc: Global,
    scope: &Scope,
    levels: Levels,
    text: &'t [u8],
) -> Result<(Build, &'t [u8]), Unread>
    ensures { Reads (λ x. (x.0, x.1.now)) result (node_at scope.now levels.left (build_at scope.now levels.left) text.now) }
{
    let Some((op, rest)) = op(text) else {
        return Err(Unread::Syntax);
    };
    let (ty, rest) = type_part(scope, rest)?;
    let (int, rest) = int_part(alloc, scope, levels, rest)?;
    let (aux, rest) = aux_part(scope, rest)?;
    let (args, rest) = builds(alloc, scope, levels, rest)?;
    Ok((
        Build::Node {
            op,
            ty,
            int,
            aux,
            args,
        },
        rest,
    ))
}

/// Reads arguments and the bracket that closes them.
#[cycle(build)]
fn builds<'t>(
    alloc: Global,
    scope: &Scope,
    levels: Levels,
    text: &'t [u8],
) -> Result<(Items<Build>, &'t [u8]), Unread>
    ensures { Reads (λ x. (x.0, x.1.now)) result (until_bracket (build_at scope.now levels.left) (length text.now) text.now) }
{
    let mut args = Vec::new(alloc);
    let mut rest = text;
    for turn in 0..text.len() {
        if let Some(rest) = behind(rest, b")") {
            return Ok((Items::from_vec(args), rest));
        }
        let (arg, next) = build(alloc, scope, levels, rest)?;
        args.push(arg)?;
        rest = next;
    }
    Err(Unread::Syntax)
}

/// Reads a right tree, and gives the text behind it.
#[cycle(build)]
pub fn build<'t>(
    alloc: Global,
    scope: &Scope,
    levels: Levels,
    text: &'t [u8],
) -> Result<(Build, &'t [u8]), Unread>
    ensures { Reads (λ x. (x.0, x.1.now)) result (build_at scope.now levels.left text.now) }
{
    let inner = levels.inner()?;
    build_in(alloc, scope, inner, text)
}

/// Reads a node or a variable.
#[cycle(build)]
#[tactic(auto, unfolding(crate::specs::Builds::build_in))]
fn build_in<'t>(
    alloc: Global,
    scope: &Scope,
    inner: Levels,
    text: &'t [u8],
) -> Result<(Build, &'t [u8]), Unread>
    ensures { Reads (λ x. (x.0, x.1.now)) result (build_in scope.now inner.left (build_at scope.now inner.left) text.now) }
{
    match behind(text, b"(") {
        Some(rest) => node(alloc, scope, inner, rest),
        None => bound(scope, text),
    }
}

/// Reads a variable.
#[tactic(auto, unfolding(crate::specs::Builds::bound_at))]
fn bound<'t>(scope: &Scope, text: &'t [u8]) -> Result<(Build, &'t [u8]), Unread>
    ensures { Reads (λ x. (x.0, x.1.now)) result (bound_at scope.now text.now) }
{
    let Some((name, rest)) = variable(text) else {
        return Err(Unread::Syntax);
    };
    Ok((Build::Var(scope.number(name)?), rest))
}
