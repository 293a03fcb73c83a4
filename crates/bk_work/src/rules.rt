// The rules of the rewritings, and what else is made once for all functions of a package.
ghost use Rattle.std.specs.Prelude.{◌≡◌, ◌++◌, IfOk};
ghost use Rattle.bk_callees.specs.Callees.{AreCallees};
ghost use Rattle.bk_rules_dec64.specs.Lines.{dec64_list};
ghost use Rattle.bk_rules_generic.specs.Lines.{generic_list};
ghost use Rattle.bk_work.specs.Indexed.{AreIndexed, AreIndexes};
ghost use Rattle.bk_work.specs.Rules.{halves_rules, machine_rules, rules_of};

use bk_callees::Callees;
use bk_func::{Memory, Package};
use bk_ops::Target;
use bk_rewrite::{Index, index_rules};
use bk_rule::{Rule, copy_rules};
use bk_rules_arm::arm_rules;
use bk_rules_dec64::dec64_rules;
use bk_rules_generic::generic_rules;
use bk_rules_rv::rv_rules;
use std::alloc::Global;
use std::marker::Model;

/// The rules of the rewritings.
#[derive(Drop)]
pub struct Rules {
    /// Those that hold on every target, and behind them the extra ones.
    pub(crate) generic: Vec<Rule>,
    /// Those that take 64 bits apart, where the target's words have 32, and behind them the generic ones again.
    pub(crate) halves: Vec<Rule>,
    /// Those that give the target's own ops.
    pub(crate) machine: Vec<Rule>,
}

impl Model for Rules {
    ghost use Rattle.std.specs.Coded.{codes};
    ghost use Rattle.bk_rule.specs.contracts.trees.Build as build;
    ghost use Rattle.bk_rule.specs.contracts.trees.Expr as expr;
    ghost use Rattle.bk_rule.specs.contracts.trees.Pattern as pattern;
    ghost use Rattle.bk_work.specs.Rules.{RulesRecord};

    ghost Value = { RulesRecord };

    ghost coded = { Prim.hlevel (codes, pattern.the_row.coded, expr.the_row.coded, build.the_row.coded) };

    ghost view = { λ it. record { generic = it.generic.items; halves = it.halves.items; machine = it.machine.items } };
}

impl Rules {
    fn none(alloc: Global) -> Rules {
        Rules {
            generic: Vec::new(alloc),
            halves: Vec::new(alloc),
            machine: Vec::new(alloc),
        }
    }

    fn new(alloc: Global, target: Target, extra: &[Rule]) -> Result<Rules, Memory>
        ensures { IfOk result (λ rules. rules ≡ rules_of target extra.now) }
    {
        Ok(Rules {
            generic: with_extra(alloc, extra)?,
            halves: halves_rules(alloc, target)?,
            machine: machine_rules(alloc, target)?,
        })
    }
}

/// Each list of rules by the ops at their roots.
#[derive(Drop)]
pub struct Indexes {
    pub(crate) generic: Index,
    pub(crate) halves: Index,
    pub(crate) machine: Index,
}

impl Indexes {
    fn new(alloc: Global, rules: &Rules) -> Result<Indexes, Memory>
        ensures { IfOk result (AreIndexes rules.now) }
    {
        Ok(Indexes {
            generic: index_rules(alloc, &rules.generic)?,
            halves: index_rules(alloc, &rules.halves)?,
            machine: index_rules(alloc, &rules.machine)?,
        })
    }
}

/// What is made once for all functions of a package: the rules of the rewritings with their indexes, and the callees.
#[derive(Drop)]
pub struct Lists {
    pub(crate) rules: Rules,
    pub(crate) indexes: Indexes,
    pub(crate) callees: Callees,
}

impl Lists {
    pub(crate) fn new(
        alloc: Global,
        pkg: &Package,
        target: Target,
        extra: &[Rule],
    ) -> Result<Lists, Memory>
        ensures indexed { IfOk result (AreIndexed (rules_of target extra.now)) }
        ensures callees { IfOk result (λ lists. AreCallees pkg.now lists.callees) }
    {
        let rules = Rules::new(alloc, target, extra)?;
        Lists::of(alloc, pkg, rules)
    }

    /// No rules.
    pub(crate) fn none(alloc: Global, pkg: &Package) -> Result<Lists, Memory>
        ensures { IfOk result (λ lists. AreCallees pkg.now lists.callees) }
    {
        Lists::of(alloc, pkg, Rules::none(alloc))
    }

    fn of(alloc: Global, pkg: &Package, rules: Rules) -> Result<Lists, Memory>
        ensures indexed { IfOk result (AreIndexed rules) }
        ensures callees { IfOk result (λ lists. AreCallees pkg.now lists.callees) }
    {
        let indexes = Indexes::new(alloc, &rules)?;
        let callees = Callees::new(alloc, pkg)?;
        Ok(Lists {
            rules,
            indexes,
            callees,
        })
    }
}

fn with_extra(alloc: Global, extra: &[Rule]) -> Result<Vec<Rule>, Memory>
    ensures { IfOk result (λ rules. rules.items ≡ generic_list ++ extra.now) }
{
    let mut rules = generic_rules(alloc)?;
    let mut more = copy_rules(alloc, extra)?;
    rules.append(&mut more)?;
    Ok(rules)
}

fn halves_rules(alloc: Global, target: Target) -> Result<Vec<Rule>, Memory>
    ensures { IfOk result (λ rules. rules.items ≡ halves_rules target) }
{
    match target {
        Target::Arm => all_for_halves(alloc),
        Target::Riscv64 => Ok(Vec::new(alloc)),
    }
}

fn all_for_halves(alloc: Global) -> Result<Vec<Rule>, Memory>
    ensures { IfOk result (λ rules. rules.items ≡ dec64_list ++ generic_list) }
{
    let mut rules = dec64_rules(alloc)?;
    let mut generic = generic_rules(alloc)?;
    rules.append(&mut generic)?;
    Ok(rules)
}

fn machine_rules(alloc: Global, target: Target) -> Result<Vec<Rule>, Memory>
    ensures { IfOk result (λ rules. rules.items ≡ machine_rules target) }
{
    match target {
        Target::Arm => arm_rules(alloc),
        Target::Riscv64 => rv_rules(alloc),
    }
}
