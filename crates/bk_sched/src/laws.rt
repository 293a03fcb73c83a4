// Laws of the order. The functions do nothing: what they say is in their clauses.
ghost use Rattle.std.specs.Prelude.{◌≡◌, ◌↔◌, ◌⊎◌, ◌&&◌, ◌||◌, ◌==◌, Some, filter, List, ◌∷◌, ◌++◌, ℕ, count_by, map};
ghost use Rattle.std.specs.List.{Contains};
ghost use Rattle.bk_func.specs.Records.{BlockRecord, FuncRecord, ValueRecord};
ghost use Rattle.bk_ops.specs.declared.types.Target.{Target};
ghost use Rattle.bk_func.specs.Effects.{is_at, is_check, is_load, order};
ghost use Rattle.bk_func.specs.Meaning.{first_fault, wild};
ghost use Rattle.bk_func.specs.Numbers.{origin_of, state_of};
ghost use Rattle.bk_func.specs.Form.{IsFormed};
ghost use Rattle.bk_func.specs.Form.Before.{Precedes as OrderOfForm};
ghost use Rattle.bk_func.specs.Form.Signatures.{Setting};
ghost use Rattle.bk_func.specs.Form.States.{CopiesMemory};
ghost use Rattle.bk_func.specs.Form.Text.{HasBlock, HasValue, IsPhi};
ghost use Rattle.bk_sched.specs.Order.{HasOwnNumbers, Precedes};
ghost use Rattle.bk_sched.specs.Schedule.{IsSchedule, Scheduled};

/// What is scheduled are values of the block, and no value stands before one that comes before it.
pub fn keeps_the_order()
    ensures own { (b : BlockRecord) (zs : List ValueRecord) (v : ValueRecord) → Scheduled b b.values zs → Contains zs v → Contains b.values v }
    ensures order { (b : BlockRecord) (zs pre post : List ValueRecord) (u v : ValueRecord) → Scheduled b b.values zs → zs ≡ pre ++ v ∷ post → Contains post u → ¬ Precedes b u v }
{}

/// Where no value comes before itself, the schedule has each number as often as the block, which is once.
pub fn does_each_value_once()
    ensures { (b : BlockRecord) (ids : List ℕ) (n : ℕ) → ((v : ValueRecord) → Contains b.values v → ¬ Precedes b v v) → IsSchedule b ids → count_by (λ m. m == n) ids ≡ count_by (λ m. m == n) (map (λ v. v.id) b.values) }
{}

/// Phis come first.
pub fn puts_phis_first()
    ensures { (b : BlockRecord) (zs pre post : List ValueRecord) (u v : ValueRecord) → Scheduled b b.values zs → zs ≡ pre ++ v ∷ post → Contains post u → IsPhi u → IsPhi v }
{}

/// In a function in form in which no value copies memory, the order of a block alone is that which the form speaks of, so that
/// each value of the block is done once.
pub fn agrees_with_the_form()
    ensures order { (s : Setting) (f : FuncRecord) (b : BlockRecord) (u v : ValueRecord) → IsFormed s f → ((c : BlockRecord) (w : ValueRecord) → HasValue f c w → ¬ CopiesMemory w) → HasBlock f b → Precedes b u v ↔ OrderOfForm f b u v }
    ensures once { (s : Setting) (f : FuncRecord) (b : BlockRecord) (ids : List ℕ) (n : ℕ) → IsFormed s f → ((c : BlockRecord) (w : ValueRecord) → HasValue f c w → ¬ CopiesMemory w) → HasBlock f b → IsSchedule b ids → count_by (λ m. m == n) ids ≡ count_by (λ m. m == n) (map (λ v. v.id) b.values) }
{}

/// In a function in form in which no value copies memory, the nil checks and loads of a state of a block end the run in the
/// order of its schedule as the meaning says, unless that is at an access outside the window.
pub fn faults_as_the_meaning()
    ensures { (s : Setting) (f : FuncRecord) (b : BlockRecord) (zs : List ValueRecord) (n : ℕ) (t : Target) (m : ℕ → ℕ) (window : List ℕ) → IsFormed s f → ((c : BlockRecord) (w : ValueRecord) → HasValue f c w → ¬ CopiesMemory w) → HasBlock f b → Scheduled b b.values zs → ((a : ℕ) × (first_fault t m window (order f b n) ≡ Some (wild a))) ⊎ (first_fault t m window (order f b n) ≡ first_fault t m window (filter (λ v. (is_check (origin_of v.op.family) || is_load (origin_of v.op.family)) && is_at (state_of f v) n) zs)) }
{}

/// In a block of a function in form each value has a number of its own.
pub fn numbers_are_own()
    ensures { (s : Setting) (f : FuncRecord) (b : BlockRecord) → IsFormed s f → HasBlock f b → HasOwnNumbers b }
{}

/// A block has one schedule.
pub fn has_one_schedule()
    ensures { (b : BlockRecord) (ids others : List ℕ) → IsSchedule b ids → IsSchedule b others → ids ≡ others }
{}
