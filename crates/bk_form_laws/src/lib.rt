//! Laws of rewriting: an application of a rule keeps the form of a function.
#![tactic(auto)]

ghost use Rattle.std.specs.Prelude.{ℕ, Bool, List};
ghost use Rattle.bk_func.specs.Records.{ValueRecord, BlockRecord, FuncRecord};
ghost use Rattle.bk_func.specs.Form.{IsFormed};
ghost use Rattle.bk_func.specs.Form.Signatures.{Setting};
ghost use Rattle.bk_rule.specs.declared.trees.Bound.{Bound};
ghost use Rattle.bk_rule.specs.declared.trees.Rule.{Rule};
ghost use Rattle.bk_rewrite.specs.Making.{source, applied};
ghost use Rattle.bk_form_laws.specs.Rules.{IsRead, IsPure, KeepsState, KeepsRoles};
ghost use Rattle.bk_form_laws.specs.Typed.{KeepsTypes};
ghost use Rattle.bk_form_laws.specs.Kinds.{Applies, Framed, Nearly, HasNoCycle, AllReached};

/// A law: a rule as it is read, sound or not, keeps Control, Missing, Arity and Use, in strict form and in word form.
pub fn rules_keep_frames()
    ensures { (s : Setting) (r : Rule) (f : FuncRecord) (b k : ℕ) (x : BlockRecord) (v : ValueRecord) (bs : List Bound) (cs : List Bool) → Applies s r f b k x v bs cs →
        IsRead r → Framed s f → Framed s (applied (source f bs s.target) r.right b k v) }
{}

/// A law: a rule that keeps types, and whose roots have nothing to do with memory, keeps each kind of form but Order.
pub fn rules_keep_all_kinds_but_order()
    ensures { (s : Setting) (r : Rule) (f : FuncRecord) (b k : ℕ) (x : BlockRecord) (v : ValueRecord) (bs : List Bound) (cs : List Bool) → Applies s r f b k x v bs cs →
        IsRead r → KeepsTypes s r → IsPure r → Nearly s f → Nearly s (applied (source f bs s.target) r.right b k v) }
{}

/// A law: so does a rule that keeps types and whose roots both take one state of memory.
pub fn state_rules_keep_all_kinds_but_order()
    ensures { (s : Setting) (r : Rule) (f : FuncRecord) (b k : ℕ) (x : BlockRecord) (v : ValueRecord) (bs : List Bound) (cs : List Bool) → Applies s r f b k x v bs cs →
        IsRead r → KeepsTypes s r → KeepsState r → Nearly s f → Nearly s (applied (source f bs s.target) r.right b k v) }
{}

/// A law: a rule that keeps types, and whose roots have nothing to do with memory, makes no cycle of arguments, states and checks in a block.
pub fn rules_make_no_cycle()
    ensures { (s : Setting) (r : Rule) (f : FuncRecord) (b k : ℕ) (x : BlockRecord) (v : ValueRecord) (bs : List Bound) (cs : List Bool) → Applies s r f b k x v bs cs →
        IsRead r → KeepsTypes s r → IsPure r → Nearly s f → AllReached f → HasNoCycle f → HasNoCycle (applied (source f bs s.target) r.right b k v) }
{}

/// A law: so such a rule keeps form, in strict form and in word form, where each block is reached; and each block stays so.
pub fn rules_keep_form()
    ensures { (s : Setting) (r : Rule) (f : FuncRecord) (b k : ℕ) (x : BlockRecord) (v : ValueRecord) (bs : List Bound) (cs : List Bool) → Applies s r f b k x v bs cs →
        IsRead r → KeepsTypes s r → IsPure r → AllReached f → IsFormed s f →
        IsFormed s (applied (source f bs s.target) r.right b k v) × AllReached (applied (source f bs s.target) r.right b k v) }
{}

/// A law: so does a rule that keeps types, whose roots both take one state of memory, and load or check alike.
pub fn state_rules_keep_form()
    ensures { (s : Setting) (r : Rule) (f : FuncRecord) (b k : ℕ) (x : BlockRecord) (v : ValueRecord) (bs : List Bound) (cs : List Bool) → Applies s r f b k x v bs cs →
        IsRead r → KeepsTypes s r → KeepsState r → KeepsRoles r → AllReached f → IsFormed s f →
        IsFormed s (applied (source f bs s.target) r.right b k v) × AllReached (applied (source f bs s.target) r.right b k v) }
{}
