//! Laws of the order inside a block: what its arguments, states and listed nil checks tell of the whole.
#![tactic(auto)]

ghost use Rattle.bk_func.specs.Records.{ValueRecord, BlockRecord, FuncRecord};
ghost use Rattle.bk_func.specs.Form.Walks.{IsReached};
ghost use Rattle.bk_func.specs.Form.Before.{Precedes};
ghost use Rattle.bk_func.specs.Form.Signatures.{Setting};
ghost use Rattle.bk_order_laws.specs.Base.{BasePrecedes, AreInTurn, KeepsAllButOrder};

/// A law: in a function that breaks no kind of form but the last, the states of each reached block are in turn.
pub fn states_are_in_turn()
    ensures { (s : Setting) (f : FuncRecord) → KeepsAllButOrder s f → (b : BlockRecord) → IsReached f b → AreInTurn f b }
{}

/// A law: in such a block, where no value comes before itself by arguments, next states and listed nil checks, none does at all.
pub fn the_base_suffices()
    ensures { (s : Setting) (f : FuncRecord) → KeepsAllButOrder s f → (b : BlockRecord) → IsReached f b → ((u : ValueRecord) → ¬ BasePrecedes f b u u) → (v : ValueRecord) → ¬ Precedes f b v v }
{}
