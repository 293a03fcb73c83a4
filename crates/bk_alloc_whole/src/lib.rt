//! The law of pressure for whole functions: one of few live values, placed, loads nothing.
#![tactic(auto)]

ghost use Rattle.std.specs.Prelude.{◌≡◌, ℕ, ◌∷◌, List, Some};
ghost use Rattle.std.specs.List.{AllByRecursion, slice_get};
ghost use Rattle.bk_ops.specs.declared.types.Target.{Target};
ghost use Rattle.bk_func.specs.Form.Walks.{Passes, Walk};
ghost use Rattle.bk_func.specs.Records.{BlockRecord, FuncRecord, PackageRecord, PlacedRecord};
ghost use Rattle.bk_graph.specs.Joined.{IsJoined};
ghost use Rattle.bk_graph.specs.Layout.{layout_of};
ghost use Rattle.bk_live.specs.Live.{AllNextUses, IsLive, IsOrdered};
ghost use Rattle.bk_alloc.specs.Blocks.{Next};
ghost use Rattle.bk_alloc.specs.Placement.{IsPlacement};
ghost use Rattle.bk_alloc_quality.specs.Flows.{UsesNoSlot};
ghost use Rattle.bk_alloc_whole.specs.Whole.{AreScheduled, HasFewLive, IsLoweredLeaf};

/// A law: a value is not live where a block begins to which a walk leads that has not passed its definition.
pub fn unpassed_values_are_dead()
    ensures { (f : FuncRecord) (orders : List (List ℕ)) (i n : ℕ) (b : BlockRecord) (before : List BlockRecord) → IsOrdered f orders → AreScheduled f orders → slice_get f.blocks i ≡ Some b → Walk f (b ∷ before) → ¬ Passes before n → ¬ IsLive f orders n i 0 }
{}

/// A law: a placed function without calls, whose pressure is nowhere over the count of the target's registers, has no load, no
/// store and no slot.
pub fn low_pressure_loads_nothing()
    ensures steps { (t : Target) (pkg : PackageRecord) (f : FuncRecord) (orders : List (List ℕ)) (next : Next) (placed : PlacedRecord) → IsOrdered f orders → IsJoined f → AreScheduled f orders → AllNextUses f orders next → IsLoweredLeaf t f → HasFewLive t next f orders → IsPlacement next t pkg f (layout_of f) orders placed → AllByRecursion (λ b. AllByRecursion UsesNoSlot b.steps) placed.blocks }
    ensures slots { (t : Target) (pkg : PackageRecord) (f : FuncRecord) (orders : List (List ℕ)) (next : Next) (placed : PlacedRecord) → IsOrdered f orders → IsJoined f → AreScheduled f orders → AllNextUses f orders next → IsLoweredLeaf t f → HasFewLive t next f orders → IsPlacement next t pkg f (layout_of f) orders placed → placed.slots ≡ 0 }
{}
