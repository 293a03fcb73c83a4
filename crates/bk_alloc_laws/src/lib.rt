//! Laws of places: while the acts of a placed function are done, registers and slots hold the numbers that its maps say.
#![tactic(auto)]

ghost use Rattle.std.specs.Prelude.{◌≡◌, ◌==◌, ◌≤◌, ◌<◌, ◌++◌, ℕ, true, length, map, List, None, Option};
ghost use Rattle.std.specs.List.{AllByRecursion, Contains, IsDistinct};
ghost use Rattle.bk_ops.specs.declared.types.Target.{Target};
ghost use Rattle.bk_func.specs.declared.parts.Loc.{Loc};
ghost use Rattle.bk_shuffle.specs.AtOnce.{after_all, after_each, destinations, DoAll};
ghost use Rattle.bk_shuffle.specs.Sequence.{Move};
ghost use Rattle.bk_alloc.specs.Blocks.{block_acts, controls, last_map, moves_into, phis_of, slot_phis, source_of, edge_from, PartRecord, PlanRecord};
ghost use Rattle.bk_alloc.specs.Placement.{number_of, registers_of};
ghost use Rattle.bk_alloc.specs.Placing.{named, needed_moves};
ghost use Rattle.bk_alloc.specs.Registers.{Registers, Uses};
ghost use Rattle.bk_alloc.specs.Tasks.{acts_of_tasks, after_tasks, TaskRecord};
ghost use Rattle.bk_alloc_laws.specs.Edge.{Arrives, IsPlace, world_after};
ghost use Rattle.bk_alloc_laws.specs.Holding.{after_acts, all_known, arguments, found, AreFresh, AreHomed, AreKnown, Holds, Stands, State, StillThere, World};
ghost use Rattle.bk_alloc_laws.specs.Mirror.{BothNamed, Mirrors, Names};
ghost use Rattle.bk_alloc_laws.specs.Whole.{phi_stored, phis_gained};

/// A law: where registers and slots hold the numbers that the map and the homes say, they do after the acts of scheduled values,
/// whatever the next uses are.
pub fn acts_keep_places()
    ensures { (w : World) (next : ℕ → Uses) (k : ℕ) (o : Option (ℕ → ℕ)) (ts : List TaskRecord) (rs : Registers) (known : List ℕ) (s : State) → Holds w rs known s → StillThere o s → Stands rs known → length rs ≤ 32 → AreKnown w next k o known ts → AreFresh (length rs) known ts → AreHomed w (acts_of_tasks next k ts rs) → Holds w (after_tasks next k ts rs) (all_known known ts) (after_acts w (acts_of_tasks next k ts rs) s) }
{}

/// A law: each value is computed from the numbers of its arguments.
pub fn values_find_arguments()
    ensures { (w : World) (next : ℕ → Uses) (k : ℕ) (o : Option (ℕ → ℕ)) (ts : List TaskRecord) (rs : Registers) (known : List ℕ) (s : State) → Holds w rs known s → StillThere o s → Stands rs known → length rs ≤ 32 → AreKnown w next k o known ts → AreFresh (length rs) known ts → AreHomed w (acts_of_tasks next k ts rs) → found w (acts_of_tasks next k ts rs) s ≡ arguments w ts }
{}

/// A law: the same of a whole block, its phis stored where it begins, and its control loaded where it ends.
pub fn blocks_keep_places()
    ensures { (w : World) (next : ℕ → Uses) (b : PlanRecord) (first : Registers) (o : Option (ℕ → ℕ)) (known : List ℕ) (s : State) → Holds w first known s → StillThere o (phi_stored w first (phis_of b) s) → Stands first (known ++ phis_gained first (phis_of b)) → length first ≤ 32 → AreKnown w next b.skipped o (known ++ phis_gained first (phis_of b)) b.tasks → AreFresh (length first) (known ++ phis_gained first (phis_of b)) b.tasks → ((c : ℕ) → Contains (controls b.control) c → Contains (all_known (known ++ phis_gained first (phis_of b)) b.tasks) c) → AreHomed w (block_acts next b first) → Holds w (last_map next b first) (all_known (known ++ phis_gained first (phis_of b)) b.tasks) (after_acts w (block_acts next b first) (phi_stored w first (phis_of b) s)) }
{}

/// A law: the numbers of values that are not known may change.
pub fn places_outlast_changes()
    ensures { (w z : World) (rs : Registers) (known : List ℕ) (s : State) → Holds w rs known s → Stands rs known → ((v : ℕ) → z.home v ≡ true → w.home v ≡ true) → ((v : ℕ) → Contains known v → w.number v ≡ z.number v) → Holds z rs known s }
{}

/// A law: the moves of an edge, at once, bring what the successor's first map and its phis in slots ask for, phis with the numbers
/// of their arguments.
pub fn edges_bring_places()
    ensures { (w : World) (p q : PartRecord) (known : List ℕ) (s : State) → Holds w p.last known s → length q.first ≤ 32 → Arrives w p q known → (news : List ℕ) → ((u : ℕ) → Contains news u → w.home u ≡ true → (Contains (slot_phis q) u → ⊥) → Contains known u × (source_of q.plan.phis (edge_from p.plan.id q) u ≡ u)) → Holds (world_after w p q) q.first news (after_all (moves_into p q) s) }
{}

/// A law: pairs that do the needed moves at once do all of them.
pub fn pairs_do_moves()
    ensures { (s : State) (l : Loc) (ms pairs : List Move) → IsPlace l → AllByRecursion (λ m. IsPlace m.0) ms → IsDistinct (λ p q. p == q) (destinations ms) → DoAll (needed_moves ms) pairs → after_each pairs s l ≡ after_all ms s l }
{}

/// A law: moves of the machine's places do to them what the moves do to the places that these name.
pub fn moves_are_mirrored()
    ensures { (count : ℕ) (number : ℕ → ℕ) (hs : List ℕ) (s m : Loc → ℕ) (ms : List Move) → Names count number → Mirrors count number hs s m → AllByRecursion (BothNamed count hs) ms → Mirrors count number hs (after_all ms s) (after_all (map (named number hs) ms) m) }
{}

/// A law: the registers of a target have names of their own.
pub fn registers_have_names()
    ensures { (t : Target) → Names (length (registers_of t)) (number_of t) }
{}
