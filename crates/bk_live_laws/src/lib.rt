//! A law of next uses: there are some.
#![tactic(auto)]

ghost use Rattle.std.specs.Prelude.{ℕ, List, Option};
ghost use Rattle.bk_func.specs.Records.{FuncRecord};
ghost use Rattle.bk_live.specs.Live.{AllNextUses, IsOrdered};

/// A law: for a function in form, or in word form, and orders of its blocks that list each value once, there is a function that
/// tells the next uses at all places.
pub fn has_next_uses()
    ensures { (f : FuncRecord) (os : List (List ℕ)) → IsOrdered f os → (next : ℕ → ℕ → ℕ → Option ℕ) × AllNextUses f os next }
{}
