//! Laws of rewriting: the rules of a list, whose variables are numbered in order, make one function of a function.
#![tactic(auto)]

ghost use Rattle.std.specs.Prelude.{◌≡◌, ◌≤◌, ℕ, Bool, List};
ghost use Rattle.bk_ops.specs.declared.types.Target.{Target};
ghost use Rattle.bk_func.specs.Records.{FuncRecord};
ghost use Rattle.bk_rule.specs.declared.trees.Bound.{Bound};
ghost use Rattle.bk_rule.specs.declared.trees.Rule.{Rule};
ghost use Rattle.bk_rule.specs.Match.{IsMatch};
ghost use Rattle.bk_rewrite.specs.First.{IsFirst};
ghost use Rattle.bk_rewrite.specs.Passes.{Changes, IsPass, Outgrows, Settles, Visits};
ghost use Rattle.bk_rewrite.specs.Places.{count_values, value_limit, HasNumbers};
ghost use Rattle.bk_rules_arm.specs.Lines.{arm_list};
ghost use Rattle.bk_rules_dec64.specs.Lines.{dec64_list};
ghost use Rattle.bk_rules_generic.specs.Lines.{generic_list};
ghost use Rattle.bk_rules_rv.specs.Lines.{rv_list};
ghost use Rattle.bk_rewrite_laws.specs.Numbered.{IsRuleNumbered, RulesNumbered};

/// A law: in each of the four lists the variables of rules are numbered in order.
pub fn lists_are_numbered()
    ensures generic { RulesNumbered generic_list }
    ensures dec64 { RulesNumbered dec64_list }
    ensures arm { RulesNumbered arm_list }
    ensures rv { RulesNumbered rv_list }
{}

/// A law: with its arguments in given orders, a rule matches at a value under one list of bindings.
pub fn orders_tell_bindings()
    ensures { (t : Target) (f : FuncRecord) (r : Rule) (id : ℕ) (orders : List Bool) (xs ys : List Bound) → IsRuleNumbered r → IsMatch t f r xs id orders → IsMatch t f r ys id orders → xs ≡ ys }
{}

/// A law: the first match at a value is one: of one rule, under one list of bindings, in one list of orders.
pub fn matches_once()
    ensures { (t : Target) (f : FuncRecord) (rules : List Rule) (id i j : ℕ) (xs ys : List Bound) (cs ds : List Bool) → RulesNumbered rules → IsFirst t f rules id i xs cs → IsFirst t f rules id j ys ds → (i ≡ j) × (xs ≡ ys) × (cs ≡ ds) }
{}

/// A law: a visit makes one function of a function.
pub fn visits_once()
    ensures { (t : Target) (rules : List Rule) (f : FuncRecord) (id : ℕ) (g h : FuncRecord) → RulesNumbered rules → HasNumbers f → Visits t rules f id g → Visits t rules f id h → g ≡ h }
{}

/// A law: after a visit no two values have one number, where none had before it.
pub fn visits_keep_numbers()
    ensures { (t : Target) (rules : List Rule) (f : FuncRecord) (id : ℕ) (g : FuncRecord) → HasNumbers f → Visits t rules f id g → HasNumbers g }
{}

/// A law: a pass makes one function of a function.
pub fn passes_once()
    ensures { (t : Target) (rules : List Rule) (f g h : FuncRecord) → RulesNumbered rules → HasNumbers f → IsPass t rules f g → IsPass t rules f h → g ≡ h }
{}

/// A law: after a pass no two values have one number, where none had before it.
pub fn passes_keep_numbers()
    ensures { (t : Target) (rules : List Rule) (f g : FuncRecord) → HasNumbers f → IsPass t rules f g → HasNumbers g }
{}

/// A law: passes settle at one function, whatever number of them is allowed.
pub fn settles_once()
    ensures { (t : Target) (rules : List Rule) (m n : ℕ) (f g h : FuncRecord) → RulesNumbered rules → HasNumbers f → Settles t rules m f g → Settles t rules n f h → g ≡ h }
{}

/// A law: where fewer passes settle, not each of so many changes something.
pub fn settling_ends_changes()
    ensures { (t : Target) (rules : List Rule) (n : ℕ) (f g h : FuncRecord) → RulesNumbered rules → HasNumbers f → Settles t rules n f g → Changes t rules n f h → ⊥ }
{}

/// A law: where passes settle within the limit of values, none of them exceeds it.
pub fn settling_stays_within()
    ensures { (t : Target) (rules : List Rule) (m n : ℕ) (f g : FuncRecord) → RulesNumbered rules → HasNumbers f → Settles t rules m f g → count_values g ≤ value_limit → Outgrows t rules n f → ⊥ }
{}

/// A law: where so many passes change something within the limit of values, none of them exceeds it.
pub fn changes_stay_within()
    ensures { (t : Target) (rules : List Rule) (n : ℕ) (f g : FuncRecord) → RulesNumbered rules → HasNumbers f → Changes t rules n f g → count_values g ≤ value_limit → Outgrows t rules n f → ⊥ }
{}
