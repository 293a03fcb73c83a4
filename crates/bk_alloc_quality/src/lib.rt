//! Laws of pressure: where few values are live, none leaves its register.
#![tactic(auto)]

ghost use Rattle.std.specs.Prelude.{◌≡◌, ◌≤◌, ◌<◌, ◌+◌, ◌||◌, ℕ, true, length, slice_index_or, List, [], None, Some};
ghost use Rattle.std.specs.List.{AllByRecursion, Contains};
ghost use Rattle.bk_ops.specs.declared.types.Target.{Target};
ghost use Rattle.bk_func.specs.Records.{PlacedBlockRecord};
ghost use Rattle.bk_alloc.specs.Blocks.{allot, begun, block_acts, last_map, moves_into, Next, PartRecord, phis_of, PlanRecord};
ghost use Rattle.bk_alloc.specs.Placement.{IsPlacing};
ghost use Rattle.bk_alloc.specs.Placing.{slot_sources, values_in_slots};
ghost use Rattle.bk_alloc.specs.Registers.{holds, is_kept, least_open, Registers, Uses};
ghost use Rattle.bk_alloc.specs.Tasks.{acts_of_tasks, after_tasks, loads, TaskRecord, with_loads};
ghost use Rattle.bk_alloc_quality.specs.Flows.{AreFlows, IsBrought, IsLow, UsesNoSlot};
ghost use Rattle.bk_alloc_quality.specs.Pressure.{AreQuiet, ArePassed, ArePressed, HoldsLive, HoldsStart, is_used, IsBegun, IsFlow, live, LoadsNothing, values_of};

/// A law: where registers hold live words, none twice, and a word that is in none of them is live with them, and these are at
/// most as many as the registers, a register is open.
pub fn a_register_is_open()
    ensures { (words also : List ℕ) (n : Uses) (rs : Registers) (x : ℕ) → ((q r v : ℕ) → slice_index_or rs q None ≡ Some v → slice_index_or rs r None ≡ Some v → q ≡ r) → ((q : ℕ) → ¬ (slice_index_or rs q None ≡ Some x)) → ((q v : ℕ) → slice_index_or rs q None ≡ Some v → Contains words v × ((is_used (n v) || is_kept also v) ≡ true)) → Contains words x → is_kept also x ≡ true → length (live words n also) ≤ length rs → least_open rs < length rs }
{}

/// A law: arguments that are in registers are not loaded, and registers stay as they are.
pub fn held_arguments_stay()
    ensures { (n : Uses) (keep xs : List ℕ) (rs : Registers) → ((a : ℕ) → Contains xs a → holds rs a ≡ true) → (loads n keep xs rs ≡ []) × (with_loads n keep xs rs ≡ rs) }
{}

/// A law: where registers hold the words that are live before scheduled values, and the pressure at each of these is at most the
/// count of registers, nothing is loaded, and registers hold the words that are live behind them.
pub fn values_find_registers()
    ensures { (words : List ℕ) (next : ℕ → Uses) (k : ℕ) (ts : List TaskRecord) (rs : Registers) → HoldsLive words (next k) (values_of ts) rs → ArePassed words next k ts → ArePressed (length rs) words next k ts → AreQuiet next k ts rs → HoldsLive words (next (k + length ts)) [] (after_tasks next k ts rs) × AllByRecursion LoadsNothing (acts_of_tasks next k ts rs) }
{}

/// A law: where registers held what is live where a block begins, and that and its phis are at most as many as the registers,
/// its first map has the phis and what is live, and nothing else.
pub fn blocks_begin_in_registers()
    ensures { (words : List ℕ) (next : ℕ → Uses) (b : PlanRecord) (before : Registers) → IsBegun words next b → HoldsLive words (next 0) [] before → length (live words (next 0) (phis_of b)) ≤ length before → HoldsStart words next b (begun (next 0) (phis_of b) before) }
{}

/// A law: the same of a whole block, its control included.
pub fn blocks_load_nothing()
    ensures { (words : List ℕ) (next : ℕ → Uses) (b : PlanRecord) (first : Registers) → IsFlow words next b → HoldsLive words (next b.skipped) (values_of b.tasks) first → ArePressed (length first) words next b.skipped b.tasks → AreQuiet next b.skipped b.tasks first → HoldsLive words (next b.size) [] (last_map next b first) × AllByRecursion LoadsNothing (block_acts next b first) }
{}

/// A law: where no value is taken from a slot, and no phi begins in one, a placed function has no slots.
pub fn slots_are_for_values()
    ensures { (t : Target) (ps : List PartRecord) (bs : List PlacedBlockRecord) (slots : ℕ) → IsPlacing t ps bs slots → values_in_slots ps ≡ [] → slots ≡ 0 }
{}

/// A law: where registers hold what is live where a block ends, and what its successor begins with, the moves of the edge take
/// nothing from a slot.
pub fn edges_move_registers()
    ensures { (words : List ℕ) (next : Next) (p s : PartRecord) → IsFlow words (next s.plan.id) s.plan → HoldsLive words (next p.plan.id p.plan.size) [] p.last → HoldsStart words (next s.plan.id) s.plan s.first → IsBrought words next p.plan s.plan → slot_sources (moves_into p s) ≡ [] }
{}

/// A law: where the pressure of each block is at most the count of registers, and there is no call, a function takes nothing from
/// a slot.
pub fn functions_load_nothing()
    ensures { (words : List ℕ) (next : Next) (count : ℕ) (bs : List PlanRecord) → AreFlows count words next bs → ((b : PlanRecord) → Contains bs b → IsLow count words (next b.id) b) → values_in_slots (allot next count bs) ≡ [] }
{}

/// A law: the steps of a placed function that takes nothing from a slot load nothing and store nothing.
pub fn steps_use_no_slots()
    ensures { (t : Target) (ps : List PartRecord) (bs : List PlacedBlockRecord) (slots : ℕ) → IsPlacing t ps bs slots → values_in_slots ps ≡ [] → AllByRecursion (λ b. AllByRecursion UsesNoSlot b.steps) bs }
{}
