ghost use Rattle.std.specs.Prelude.{◌≡◌, ℕ, List, ◌+◌, ◌<◌, ◌≤◌, ◌^◌, ◌⊎◌, Some};
ghost use Rattle.bk_rv_isa.specs.declared.inst.Inst.{Inst};
ghost use Rattle.bk_machine.specs.declared.stop.Stop.{Stop};
ghost use Rattle.bk_rv_isa.specs.Encoding.{encoding, decoding};
ghost use Rattle.bk_rv_isa.specs.Machine.{Machine, IsPlaced, load, store, with_windows, step};

/// Each instruction and each word stands in the table at most once, and reading a word undoes
/// writing it.
pub fn one_word_each()
    ensures once { (i j : Inst) (n : ℕ) → encoding i ≡ Some n → encoding j ≡ Some n → i ≡ j }
    ensures word { (i : Inst) (n : ℕ) → encoding i ≡ Some n → n < 2 ^ 32 }
    ensures written { (i : Inst) (n : ℕ) → encoding i ≡ Some n → decoding n ≡ Some i }
    ensures read { (n : ℕ) (i : Inst) → n < 2 ^ 32 → decoding n ≡ Some i → encoding i ≡ Some n }
{}

/// A step that stops, by a return, a trap or a fault, leaves the machine as it was.
pub fn a_stop_changes_nothing()
    ensures { (m after : Machine) (stop : Stop) → step m ≡ (Some stop, after) → after ≡ m }
{}

/// The machine keeps its bytes: a number that was stored is loaded again from its address, and a
/// load from other bytes answers as before the store.
pub fn memory_keeps_its_bytes()
    ensures same { (m : Machine) (size address n : ℕ) (window stack : List ℕ) → IsPlaced m → 1 ≤ size → n < 256 ^ size
        → store m size address n ≡ Some (window, stack) → load (with_windows m window stack) size address ≡ Some n }
    ensures others { (m : Machine) (size width address other n : ℕ) (window stack : List ℕ) → (other + width ≤ address) ⊎ (address + size ≤ other)
        → store m size address n ≡ Some (window, stack) → load (with_windows m window stack) width other ≡ load m width other }
{}
