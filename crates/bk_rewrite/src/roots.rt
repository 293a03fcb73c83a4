// Rules by the op at the root of their left tree.
ghost use Rattle.std.specs.Prelude.{◌≡◌, ℕ, ◌+◌, ◌++◌, ◌∷◌, [], List, true, false, Some, slice_get, IfOk, IfNone, IfSome, OnOk};
ghost use Rattle.bk_rule.specs.declared.trees.Rule.{Rule};
ghost use Rattle.bk_rewrite.specs.Roots.{root_op, part_of, AreRooted, AreGroups, Grouped, HasGroup, HaveRoots, IsIndex, IsUngrouped};

use crate::ops::same_op;
use bk_func::Memory;
use bk_ops::Op;
use bk_rule::{Pattern, Rule};
use std::alloc::{AllocError, Global};

/// How many parts an index has. An op belongs to one of them, by its widths.
const PARTS: usize = 16;

/// The places of the rules that have one op at the root of their left tree.
#[derive(Drop)]
pub struct Group {
    pub(crate) op: Op,
    pub(crate) places: Vec<u32>,
}

/// The rules of a list by the op at the root of their left tree.
#[derive(Drop)]
pub struct Index {
    pub(crate) parts: Vec<Vec<Group>>,
    /// Whether each left tree has an op at its root.
    pub(crate) has_roots: bool,
}

/// The index of a list of rules.
pub fn index_rules(alloc: Global, rules: &[Rule]) -> Result<Index, Memory>
    ensures { IfOk result (IsIndex rules.now) }
{
    let mut parts = Vec::with_capacity(alloc, PARTS)?;
    for part in 0..PARTS {
        let groups = groups(alloc, rules, part)?;
        put(&mut parts, groups)?;
    }
    let has_roots = have_roots(rules);
    Ok(Index { parts, has_roots })
}

/// The places of the rules that have the op at the root of their left tree, rising.
pub fn rules_for(index: &Index, op: Op) -> &[u32]
    ensures { (rules : List Rule) → IsIndex rules index.now → AreRooted op rules result.now }
{
    match index.parts.get(part_of(op)) {
        Some(groups) => places_in(groups, op),
        None => &[],
    }
}

fn places_in(groups: &[Group], op: Op) -> &[u32]
    ensures { (rules : List Rule) → AreGroups (part_of op) rules groups.now → AreRooted op rules result.now }
{
    match group_of(groups, op) {
        Some(at) => &groups[at].places,
        None => &[],
    }
}

/// Adds an item; one that finds no memory is dropped.
fn put<T: Drop>(list: &mut Vec<T>, item: T) -> Result<(), AllocError>
    ensures { OnOk result (list.new.items ≡ list.old.items ++ item ∷ []) }
{
    list.push(item)?;
    Ok(())
}

fn part_of(op: Op) -> usize
    ensures { result ≡ part_of op }
{
    (usize::from(op.a) / 8 + 3 * (usize::from(op.b) / 8)) % PARTS
}

fn root_op(pattern: &Pattern) -> Option<Op>
    ensures { result ≡ root_op pattern.now }
{
    match pattern {
        Pattern::Node { op, .. } => Some(*op),
        Pattern::Any | Pattern::Var(_) => None,
    }
}

fn has_root(rule: &Rule, op: Op) -> bool
    ensures same { result ≡ true → root_op rule.now.left ≡ Some op }
    ensures other { result ≡ false → root_op rule.now.left ≡ Some op → ⊥ }
{
    match root_op(&rule.left) {
        Some(root) => same_op(root, op),
        None => false,
    }
}

/// Whether each left tree has an op at its root.
fn have_roots(rules: &[Rule]) -> bool
    ensures { result ≡ true → HaveRoots rules.now }
{
    for rule in rules {
        let Some(_op) = root_op(&rule.left) else {
            return false;
        };
    }
    true
}

/// The groups of the root ops that belong to a part.
fn groups(alloc: Global, rules: &[Rule], part: usize) -> Result<Vec<Group>, AllocError>
    ensures { IfOk result (λ groups. AreGroups part rules.now groups.items) }
{
    let mut groups = Vec::new(alloc);
    for rule in rules {
        put_group(alloc, &mut groups, rules, rule, part)?;
    }
    Ok(groups)
}

/// Adds the group of a rule's root op, if that belongs to the part and has none.
fn put_group(
    alloc: Global,
    groups: &mut Vec<Group>,
    rules: &[Rule],
    rule: &Rule,
    part: usize,
) -> Result<(), AllocError>
    ensures { (n : ℕ) → slice_get rules.now n ≡ Some rule.now → Grouped part rules.now n groups.old.items → OnOk result (Grouped part rules.now (n + 1) groups.new.items) }
{
    let Some(op) = root_op(&rule.left) else {
        return Ok(());
    };
    if part_of(op) != part {
        return Ok(());
    }
    match group_of(groups, op) {
        Some(_) => Ok(()),
        None => {
            let places = places_of(alloc, rules, op)?;
            put(groups, Group { op, places })
        }
    }
}

/// The place of the group of an op.
fn group_of(groups: &[Group], op: Op) -> Option<usize>
    ensures found { IfSome result (HasGroup groups.now op) }
    ensures none { IfNone result (IsUngrouped groups.now op) }
{
    for (place, group) in groups.iter().enumerate() {
        if same_op(group.op, op) {
            return Some(place);
        }
    }
    None
}

/// The places of the rules that have the op at their root.
fn places_of(alloc: Global, rules: &[Rule], op: Op) -> Result<Vec<u32>, AllocError>
    ensures { IfOk result (λ places. AreRooted op rules.now places.items) }
{
    let mut places = Vec::new(alloc);
    for (place, rule) in rules.iter().enumerate() {
        if has_root(rule, op) {
            push_place(&mut places, place)?;
        }
    }
    Ok(places)
}

/// Adds a place; that of a rule behind 2^32 others is answered as want of memory.
fn push_place(places: &mut Vec<u32>, place: usize) -> Result<(), AllocError>
    ensures { OnOk result (places.new.items ≡ places.old.items ++ place ∷ []) }
{
    let Ok(place) = u32::try_from(place) else {
        return Err(AllocError);
    };
    places.push(place)?;
    Ok(())
}
