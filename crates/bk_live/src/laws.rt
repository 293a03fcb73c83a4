// Laws of next uses.
ghost use Rattle.std.specs.Prelude.{◌≡◌, ℕ, List, Option};
ghost use Rattle.bk_func.specs.Records.{FuncRecord};
ghost use Rattle.bk_live.specs.declared.table.Table.{Table as TableRecord};
ghost use Rattle.bk_live.specs.Live.{AllNextUses, IsOrdered, NextUseIs};
ghost use Rattle.bk_live.specs.Table.{IsTable, next_in};

/// There is one next use of a value at a place, or none, and one function that tells the next uses at all places.
pub fn has_one_next_use()
    ensures value { (f : FuncRecord) (os : List (List ℕ)) (n i k : ℕ) (o p : Option ℕ) → NextUseIs f os n i k o → NextUseIs f os n i k p → o ≡ p }
    ensures all { (f : FuncRecord) (os : List (List ℕ)) (l m : ℕ → ℕ → ℕ → Option ℕ) → AllNextUses f os l → AllNextUses f os m → l ≡ m }
{}

/// What a table tells are the next uses at all places.
pub fn tells_next_uses()
    ensures { (f : FuncRecord) (os : List (List ℕ)) (t : TableRecord) → IsTable f os t → AllNextUses f os (next_in t) }
{}
