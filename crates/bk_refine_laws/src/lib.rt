//! Laws of rewriting: what one application of a sound rule keeps of a function's numbers, and of what it does.
#![tactic(auto)]

ghost use Rattle.std.specs.Prelude.{◌≡◌, ℕ, Bool, List, IsTrue};
ghost use Rattle.bk_func.specs.Records.{ValueRecord, BlockRecord, FuncRecord};
ghost use Rattle.bk_func.specs.Numbers.{Program, Env, computed, origin_of};
ghost use Rattle.bk_func.proofs.Unique.{Ranked, Solves};
ghost use Rattle.bk_rule.specs.declared.trees.Bound.{Bound};
ghost use Rattle.bk_rule.specs.declared.trees.Rule.{Rule};
ghost use Rattle.bk_rule.specs.Sound.{SoundRule};
ghost use Rattle.bk_rule.specs.WordSound.{SoundWordRule, Agree};
ghost use Rattle.bk_refine_laws.specs.Possible.{Exact, Possible};
ghost use Rattle.bk_refine_laws.specs.Trees.{Computes, IsSimple, HasNoPhi};
ghost use Rattle.bk_refine_laws.specs.Known.{Knows};
ghost use Rattle.bk_refine_laws.specs.Applied.{Application, SameNames, IsThere};
ghost use Rattle.bk_refine_laws.specs.Words.{AreWell, Falls, BuildsValues};
ghost use Rattle.bk_refine_laws.specs.Low.{Widths, AreNarrow, LowEnv};
ghost use Rattle.bk_refine_laws.specs.Refines.{Refines};
ghost use Rattle.bk_refine_laws.specs.Sees.{RunWidths, With, ProgramLow, MeansTheSame};
ghost use Rattle.bk_func.specs.Records.{PackageRecord};
ghost use Rattle.bk_refine_laws.specs.Strict.{AreStrict};
ghost use Rattle.bk_refine_laws.specs.Visits.{Visited, VisitForm, Look, StrictAfter};

/// A law: a sound rule, applied at one value of a function whose numbers fit, keeps the number of each live value that was there.
pub fn rules_keep_numbers()
    ensures { (p : Program) (r : Rule) (f g : FuncRecord) (b k : ℕ) (v : ValueRecord) (bs : List Bound) (cs : List Bool) → Application p r f g b k v bs cs →
        IsSimple r → SoundRule p.target r → SameNames f g →
        (rank : ℕ → ℕ) → Ranked f (IsThere f) rank →
        (e : Env) (m n : ℕ → ℕ) → Solves p f e (IsThere f) m → Knows p.target f m → Exact p g e n → (x : ℕ) → IsThere f x → n x ≡ m x }
{}

/// A law: a rule that is sound over machine words, applied at one value: numbers that the values of the new function may have are
/// numbers that those of the old one may have.
pub fn word_rules_keep_possible_numbers()
    ensures { (p : Program) (r : Rule) (f g : FuncRecord) (b k : ℕ) (v : ValueRecord) (bs : List Bound) (cs : List Bool) → Application p r f g b k v bs cs →
        HasNoPhi r.left → BuildsValues r.right → SoundWordRule p.target r → origin_of v.op.family ≡ computed → AreWell p f → SameNames f g →
        (rank : ℕ → ℕ) → Falls f (IsThere f) rank →
        (e : Env) (m : ℕ → ℕ) → Possible p g e m → Possible p f e m }
{}

/// A law: in strict form, numbers that the values may have agree in the low bits of the values' types.
pub fn possible_numbers_agree()
    ensures { (p : Program) (f : FuncRecord) (e d : Env) (m n : ℕ → ℕ) (width : Widths) (held : ℕ → Bool) (rank : ℕ → ℕ) → Ranked f (λ x. IsTrue (held x)) rank →
        AreNarrow p f (λ x. IsTrue (held x)) width → LowEnv width e d → Possible p f e m → Possible p f d n → (id : ℕ) → IsTrue (held id) → Agree (width.value id) (m id) (n id) }
{}

/// A law: what stands for a function that stands for another one stands for that one.
pub fn stands_for_all_before()
    ensures { (p : Program) (f g h : FuncRecord) → Refines p f g → Refines p g h → Refines p f h }
{}

/// A law: a sound rule, applied at one value of a function in strict form: numbers that the values of the new function may have are
/// numbers that those of the old one may have.
pub fn rules_keep_possible_numbers()
    ensures { (p : Program) (r : Rule) (f g : FuncRecord) (b k : ℕ) (v : ValueRecord) (bs : List Bound) (cs : List Bool) → Application p r f g b k v bs cs →
        IsSimple r → SoundRule p.target r → Computes v.op → SameNames f g → (rank : ℕ → ℕ) → Ranked f (IsThere f) rank →
        (width : ℕ → ℕ) → AreStrict p.target f width → StrictAfter p r f g v bs width → (e : Env) (m : ℕ → ℕ) → Possible p g e m → Possible p f e m }
{}

/// A law: so does a visit that looks through copies.
pub fn copies_keep_possible_numbers()
    ensures { (p : Program) (f g : FuncRecord) (b k : ℕ) (v : ValueRecord) → Look f g b k v → (e : Env) (m : ℕ → ℕ) → Possible p g e m → Possible p f e m }
{}

/// A law: a function after such a visit stands for the function before it.
pub fn a_visit_stands_for_what_was()
    ensures { (p : Program) (f g : FuncRecord) (b k : ℕ) (x : BlockRecord) (v root : ValueRecord) (made : List ValueRecord) → Visited f g b k x v root made →
        VisitForm f g x k v root made → ((e : Env) (m : ℕ → ℕ) → Possible p g e m → Possible p f e m) → Refines p f g }
{}

/// A law: where each function of a package stands for that of another one at its place, and these are in strict form, the one has the
/// outcome and the data of the other one, unless that was wild.
pub fn packages_mean_the_same()
    ensures { (p : Program) (k : PackageRecord) (held : ℕ → ℕ → Bool) (width : ℕ → RunWidths) → ProgramLow p k (λ i x. IsTrue (held i x)) width → MeansTheSame p (With p k) }
{}
