// The first rule that matches at a value.
ghost use Rattle.std.specs.Prelude.{◌≡◌, ℕ, ◌+◌, ◌<◌, ◌≤◌, ◌++◌, ◌∷◌, [], List, Bool, length, slice_get, true, false, Some, IfOk, IfSome, IfNone};
ghost use Rattle.std.specs.List.{All};
ghost use Rattle.std.specs.Option.{option_copied};
ghost use Rattle.bk_func.specs.Numbers.{value_of};
ghost use Rattle.bk_func.specs.Records.{FuncRecord};
ghost use Rattle.bk_rule.specs.declared.trees.Bound.{Bound};
ghost use Rattle.bk_rule.specs.Bindings.{bound_env};
ghost use Rattle.bk_rule.specs.Expressions.{hold_each};
ghost use Rattle.bk_rule.specs.Sound.{HasInt, HasInts};
ghost use Rattle.bk_rule.specs.Match.{Matches, orders};
ghost use Rattle.bk_rewrite.specs.First.{IsNumbered, IsFirst, NoneMatches};
ghost use Rattle.bk_rewrite.specs.Places.{HasNumbers};
ghost use Rattle.bk_rewrite.specs.Roots.{AreRooted, HaveRoots, IsIndex};
ghost use Rattle.bk_rewrite.specs.Trials.{Chosen, NoneChosen};

use crate::ops::same_op;
use crate::roots::{Index, rules_for};
use crate::spots::Spots;
use crate::tree::{Place, Trail, Verdict, stand};
use bk_func::{Func, Memory, Value};
use bk_ops::{Target, op_info};
use bk_rule::{Bound, Build, Expr, Pattern, Rule, aux_value, holds};
use std::alloc::{AllocError, Global};

/// A rule that matches at a value.
#[derive(Drop)]
pub struct Match<'a> {
    /// The place of the rule in its list.
    pub place: usize,
    pub rule: &'a Rule,
    /// The values on which the ops of the left tree stand, in the order of the tree.
    pub values: Vec<&'a Value>,
    /// What each variable of the left tree is bound to.
    pub binds: Vec<Bound>,
}

/// The rule that matches, the bindings, and the orders of the arguments of its commutative ops.
#[derive(Drop)]
pub(crate) struct Found {
    pub(crate) place: usize,
    pub(crate) binds: Vec<Bound>,
    pub(crate) choices: Vec<bool>,
}

/// The first rule of the list that matches at the value, in its first order of arguments; None where no
/// rule matches.
pub fn find_match<'a>(
    alloc: Global,
    func: &'a Func,
    rules: &'a [Rule],
    value: u32,
    target: Target,
) -> Result<Option<Match<'a>>, Memory>
    ensures found { HasNumbers func.now → IfOk result (λ o. IfSome o (λ m. (cs : List Bool) × IsFirst target func.now rules.now value m.place m.binds.items cs)) }
    ensures none { HasNumbers func.now → IfOk result (λ o. IfNone o (NoneMatches target func.now rules.now value)) }
    ensures rule { IfOk result (λ o. IfSome o (λ m. slice_get rules.now m.place ≡ Some m.rule.now)) }
{
    let spots = Spots::new(alloc, func)?;
    let site = Site {
        func,
        spots: &spots,
        value,
        target,
    };
    let root = spots.find(func, value);
    match find_among(alloc, &site, rules, root)? {
        Some(found) => Ok(Some(told(alloc, func, &spots, rules, value, found)?)),
        None => Ok(None),
    }
}

/// The match with its rule and the values on which its left tree stands.
fn told<'a>(
    alloc: Global,
    func: &'a Func,
    spots: &Spots,
    rules: &'a [Rule],
    value: u32,
    found: Found,
) -> Result<Match<'a>, AllocError>
    requires { found.place < length rules.now }
    ensures place { IfOk result (λ m. m.place ≡ found.place) }
    ensures binds { IfOk result (λ m. m.binds.items ≡ found.binds.items) }
    ensures rule { IfOk result (λ m. slice_get rules.now m.place ≡ Some m.rule.now) }
{
    let Found {
        place,
        binds,
        choices,
    } = found;
    let rule = &rules[place];
    let mut values = Vec::new(alloc);
    let _used = collect(func, spots, &choices, &rule.left, value, 0, &mut values)?;
    Ok(Match {
        place,
        rule,
        values,
        binds,
    })
}

/// A value of a function at which rules are tried.
#[derive(Clone, Copy)]
pub(crate) struct Site<'a> {
    pub(crate) func: &'a Func,
    pub(crate) spots: &'a Spots,
    pub(crate) value: u32,
    pub(crate) target: Target,
}

/// Rules with their index.
#[derive(Clone, Copy)]
pub(crate) struct Ruled<'a> {
    pub(crate) rules: &'a [Rule],
    pub(crate) index: &'a Index,
}

/// The first rule that matches there. Only those are tried that may stand at the value's op, where each has
/// an op at its root.
pub(crate) fn find(alloc: Global, site: &Site, ruled: &Ruled) -> Result<Option<Found>, AllocError>
    requires { IsIndex ruled.now.rules.now ruled.now.index.now }
    ensures found { HasNumbers site.now.func.now → IfOk result (λ o. IfSome o (λ r. IsFirst site.now.target site.now.func.now ruled.now.rules.now site.now.value r.place r.binds.items r.choices.items)) }
    ensures none { HasNumbers site.now.func.now → IfOk result (λ o. IfNone o (NoneMatches site.now.target site.now.func.now ruled.now.rules.now site.now.value)) }
    ensures place { IfOk result (λ o. IfSome o (λ r. r.place < length ruled.now.rules.now)) }
{
    let rules = ruled.rules;
    let root = site.spots.find(site.func, site.value);
    if !ruled.index.has_roots {
        return find_among(alloc, site, rules, root);
    }
    match root {
        Some(value) => {
            let places = rules_for(ruled.index, value.op);
            find_at(alloc, site, rules, places, value)
        }
        None => Ok(None),
    }
}

/// The first rule that matches at the value, of which only those at these places may.
fn find_at(
    alloc: Global,
    site: &Site,
    rules: &[Rule],
    places: &[u32],
    value: &Value,
) -> Result<Option<Found>, AllocError>
    requires rooted { AreRooted value.now.op rules.now places.now }
    requires roots { HaveRoots rules.now }
    requires value { HasNumbers site.now.func.now → Some value.now ≡ value_of site.now.func.now site.now.value }
    ensures found { HasNumbers site.now.func.now → IfOk result (λ o. IfSome o (λ r. IsFirst site.now.target site.now.func.now rules.now site.now.value r.place r.binds.items r.choices.items)) }
    ensures none { HasNumbers site.now.func.now → IfOk result (λ o. IfNone o (NoneMatches site.now.target site.now.func.now rules.now site.now.value)) }
    ensures place { IfOk result (λ o. IfSome o (λ r. r.place < length rules.now)) }
{
    for place in places {
        let place = *place as usize;
        let rule = &rules[place];
        if let Some(Tried { binds, choices }) = try_rule(alloc, site, rule, Some(value))? {
            return Ok(Some(Found {
                place,
                binds,
                choices,
            }));
        }
    }
    Ok(None)
}

/// The first rule that matches at the value, whose root may be of any op.
fn find_among(
    alloc: Global,
    site: &Site,
    rules: &[Rule],
    root: Option<&Value>,
) -> Result<Option<Found>, AllocError>
    requires { HasNumbers site.now.func.now → option_copied root ≡ value_of site.now.func.now site.now.value }
    ensures found { HasNumbers site.now.func.now → IfOk result (λ o. IfSome o (λ r. IsFirst site.now.target site.now.func.now rules.now site.now.value r.place r.binds.items r.choices.items)) }
    ensures none { HasNumbers site.now.func.now → IfOk result (λ o. IfNone o (NoneMatches site.now.target site.now.func.now rules.now site.now.value)) }
    ensures place { IfOk result (λ o. IfSome o (λ r. r.place < length rules.now)) }
{
    for (place, rule) in rules.iter().enumerate() {
        if let Some(Tried { binds, choices }) = try_rule(alloc, site, rule, root)? {
            return Ok(Some(Found {
                place,
                binds,
                choices,
            }));
        }
    }
    Ok(None)
}

/// The bindings under which a rule matches, and the orders of the arguments of its commutative ops.
#[derive(Drop)]
struct Tried {
    binds: Vec<Bound>,
    choices: Vec<bool>,
}

/// Tries the rule at the value, which is the root of its left tree.
fn try_rule(
    alloc: Global,
    site: &Site,
    rule: &Rule,
    root: Option<&Value>,
) -> Result<Option<Tried>, AllocError>
    ensures found { HasNumbers site.now.func.now → IfOk result (λ o. IfSome o (λ r. Chosen site.now.target site.now.func.now rule.now site.now.value [] r.binds.items r.choices.items)) }
    ensures none { HasNumbers site.now.func.now → option_copied root.entry ≡ value_of site.now.func.now site.now.value → IsNumbered 0 rule.now.left → IfOk result (λ o. IfNone o (NoneChosen site.now.target site.now.func.now rule.now site.now.value [])) }
{
    if !may_stand(&rule.left, root) {
        return Ok(None);
    }
    let mut choices = Vec::new(alloc);
    match choose(alloc, site, rule, &mut choices)? {
        Some(binds) => Ok(Some(Tried { binds, choices })),
        None => Ok(None),
    }
}

/// Whether the tree has the op of this value at its root, or none.
fn may_stand(pattern: &Pattern, root: Option<&Value>) -> bool
    ensures { (f : FuncRecord) (id : ℕ) (bs : List Bound) (cs : List Bool) → option_copied root.entry ≡ value_of f id → result ≡ false → Matches f bs pattern.now id cs → ⊥ }
{
    match pattern {
        Pattern::Node { op, .. } => match root {
            Some(value) => same_op(value.op, *op),
            None => false,
        },
        Pattern::Any | Pattern::Var(_) => true,
    }
}

/// The bindings under which the rule matches at the value, in the first orders of arguments that go on
/// from the choices; those that were made are added to them.
#[cycle(choose)]
fn choose(
    alloc: Global,
    site: &Site,
    rule: &Rule,
    choices: &mut Vec<bool>,
) -> Result<Option<Vec<Bound>>, AllocError>
    requires { length choices.old.items ≤ orders rule.now.left }
    ensures kept { IfOk result (λ o. IfNone o (choices.new.items ≡ choices.old.items)) }
    ensures found { HasNumbers site.now.func.now → IfOk result (λ o. IfSome o (λ binds. Chosen site.now.target site.now.func.now rule.now site.now.value choices.old.items binds.items choices.new.items)) }
    ensures none { HasNumbers site.now.func.now → IsNumbered 0 rule.now.left → IfOk result (λ o. IfNone o (NoneChosen site.now.target site.now.func.now rule.now site.now.value choices.old.items)) }
{
    let mut trail = Trail {
        binds: Vec::new(alloc),
        used: 0,
    };
    let at = Place {
        func: site.func,
        spots: site.spots,
        choices: choices.as_slice(),
    };
    match stand(&at, &rule.left, site.value, &mut trail)? {
        Verdict::Fails => Ok(None),
        Verdict::Stands => {
            let Trail { binds, used: _ } = trail;
            if fits(site, rule, &binds) {
                Ok(Some(binds))
            } else {
                Ok(None)
            }
        }
        Verdict::Asks => match choose_order(alloc, site, rule, choices, false)? {
            Some(binds) => Ok(Some(binds)),
            None => choose_order(alloc, site, rule, choices, true),
        },
    }
}

/// The same with a further choice; where it leads nowhere, it is taken back.
#[cycle(choose)]
fn choose_order(
    alloc: Global,
    site: &Site,
    rule: &Rule,
    choices: &mut Vec<bool>,
    swap: bool,
) -> Result<Option<Vec<Bound>>, AllocError>
    requires { length choices.old.items < orders rule.now.left }
    ensures kept { IfOk result (λ o. IfNone o (choices.new.items ≡ choices.old.items)) }
    ensures found { HasNumbers site.now.func.now → IfOk result (λ o. IfSome o (λ binds. Chosen site.now.target site.now.func.now rule.now site.now.value (choices.old.items ++ swap ∷ []) binds.items choices.new.items)) }
    ensures none { HasNumbers site.now.func.now → IsNumbered 0 rule.now.left → IfOk result (λ o. IfNone o (NoneChosen site.now.target site.now.func.now rule.now site.now.value (choices.old.items ++ swap ∷ []))) }
{
    choices.push(swap)?;
    match choose(alloc, site, rule, choices)? {
        Some(binds) => Ok(Some(binds)),
        None => {
            let _last = choices.pop();
            Ok(None)
        }
    }
}

/// Whether the conditions hold, and the expressions of the right tree have values.
fn fits(site: &Site, rule: &Rule, binds: &[Bound]) -> bool
    ensures holds { result ≡ true → hold_each site.now.target (bound_env site.now.func.now binds.now) rule.now.conds ≡ true }
    ensures ints { result ≡ true → HasInts site.now.target (bound_env site.now.func.now binds.now) rule.now.right }
    ensures fails { result ≡ false → hold_each site.now.target (bound_env site.now.func.now binds.now) rule.now.conds ≡ true → HasInts site.now.target (bound_env site.now.func.now binds.now) rule.now.right → ⊥ }
{
    holds(site.func, rule, binds, site.target)
        && has_ints(site.func, &rule.right, binds, site.target)
}

#[cycle(ints)]
fn has_ints(func: &Func, build: &Build, binds: &[Bound], target: Target) -> bool
    ensures has { result ≡ true → HasInts target (bound_env func.now binds.now) build.now }
    ensures lacks { result ≡ false → HasInts target (bound_env func.now binds.now) build.now → ⊥ }
{
    match build {
        Build::Var(_) => true,
        Build::Node { int, args, .. } => {
            has_int(func, int, binds, target) && have_ints(func, args.as_slice(), binds, target)
        }
    }
}

#[cycle(ints)]
fn have_ints(func: &Func, builds: &[Build], binds: &[Bound], target: Target) -> bool
    ensures has { result ≡ true → All (HasInts target (bound_env func.now binds.now)) builds.now }
    ensures lacks { result ≡ false → All (HasInts target (bound_env func.now binds.now)) builds.now → ⊥ }
{
    for build in builds {
        if !has_ints(func, build, binds, target) {
            return false;
        }
    }
    true
}

fn has_int(func: &Func, int: &Option<Expr>, binds: &[Bound], target: Target) -> bool
    ensures has { result ≡ true → HasInt target (bound_env func.now binds.now) int.now }
    ensures lacks { result ≡ false → HasInt target (bound_env func.now binds.now) int.now → ⊥ }
{
    match int {
        Some(expr) => aux_value(func, expr, binds, target).is_some(),
        None => true,
    }
}

/// Puts the values on which the ops of the tree stand last in the list, and gives how many of the
/// chosen orders are used then.
#[cycle(collect)]
fn collect<'a>(
    func: &'a Func,
    spots: &Spots,
    choices: &[bool],
    pattern: &Pattern,
    id: u32,
    used: usize,
    values: &mut Vec<&'a Value>,
) -> Result<usize, AllocError> {
    let Pattern::Node { op, args, .. } = pattern else {
        return Ok(used);
    };
    let Some(value) = spots.find(func, id) else {
        return Ok(used);
    };
    values.push(value)?;
    let ids = value.args.as_slice();
    if !op_info(*op).commutative {
        return collect_each(func, spots, choices, args.as_slice(), ids, used, values);
    }
    let swap = choices.get(used).copied().unwrap_or(false);
    let used = used.saturating_add(1);
    if swap && ids.len() == 2 {
        collect_each(
            func,
            spots,
            choices,
            args.as_slice(),
            &[ids[1], ids[0]],
            used,
            values,
        )
    } else {
        collect_each(func, spots, choices, args.as_slice(), ids, used, values)
    }
}

#[cycle(collect)]
fn collect_each<'a>(
    func: &'a Func,
    spots: &Spots,
    choices: &[bool],
    patterns: &[Pattern],
    ids: &[u32],
    used: usize,
    values: &mut Vec<&'a Value>,
) -> Result<usize, AllocError> {
    let mut used = used;
    for (pattern, id) in patterns.iter().zip(ids) {
        used = collect(func, spots, choices, pattern, *id, used, values)?;
    }
    Ok(used)
}
