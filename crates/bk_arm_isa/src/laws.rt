ghost use Rattle.std.specs.Prelude.{◌≡◌, ◌↔◌, ℕ, List, ◌+◌, ◌<◌, ◌≤◌, ◌^◌, ◌⊎◌, ◌==◌, nat_lt, nat_le, int_lt, int_le, Some};
ghost use Rattle.bk_num.specs.Word.{signed};
ghost use Rattle.bk_arm_isa.specs.declared.Inst.{Inst};
ghost use Rattle.bk_arm_isa.specs.declared.Condition.TheVariants.{Eq, Cc, Ls, Lt, Le};
ghost use Rattle.bk_arm_isa.specs.declared.TestOp.TheVariants.{Cmp};
ghost use Rattle.bk_arm_isa.specs.declared.flags.Flags.{Flags};
ghost use Rattle.bk_machine.specs.declared.stop.Stop.{Stop};
ghost use Rattle.bk_arm_isa.specs.Encoding.{encoding};
ghost use Rattle.bk_arm_isa.specs.Decoding.{decoding};
ghost use Rattle.bk_arm_isa.specs.Operands.{passes, test_flags};
ghost use Rattle.bk_arm_isa.specs.Machine.{Machine, IsPlaced, load, store, with_windows, step};

/// A law: reading and writing undo each other, no two instructions have one word, and each word has
/// 32 bits.
pub fn one_word_each()
    ensures inverse { (i : Inst) (n : ℕ) → decoding n ≡ Some i ↔ encoding i ≡ Some n }
    ensures unique { (i j : Inst) (n : ℕ) → encoding i ≡ Some n → encoding j ≡ Some n → i ≡ j }
    ensures width { (i : Inst) (n : ℕ) → encoding i ≡ Some n → n < 2 ^ 32 }
{}

/// A law: a step that stops, by a return, a trap or a fault, leaves the machine as it was.
pub fn a_stop_changes_nothing()
    ensures { (m after : Machine) (stop : Stop) → step m ≡ (Some stop, after) → after ≡ m }
{}

/// A law: the machine keeps its bytes. A number that was stored is loaded again from its address,
/// and a load from other bytes answers as before the store.
pub fn memory_keeps_its_bytes()
    ensures same { (m : Machine) (size address n : ℕ) (window stack : List ℕ) → IsPlaced m → 1 ≤ size → n < 256 ^ size
        → store m size address n ≡ Some (window, stack) → load (with_windows m window stack) size address ≡ Some n }
    ensures others { (m : Machine) (size width address other n : ℕ) (window stack : List ℕ) → (other + width ≤ address) ⊎ (address + size ≤ other)
        → store m size address n ≡ Some (window, stack) → load (with_windows m window stack) width other ≡ load m width other }
{}

/// A law: after CMP a condition holds exactly where the comparison that it is named for does.
///
/// NE, CS, HI, GE and GT are the opposites of these.
pub fn conditions_compare()
    ensures equal { (x y : ℕ) (f : Flags) → x < 2 ^ 32 → y < 2 ^ 32 → passes Eq (test_flags Cmp x y f) ≡ (x == y) }
    ensures below { (x y : ℕ) (f : Flags) → x < 2 ^ 32 → y < 2 ^ 32 → passes Cc (test_flags Cmp x y f) ≡ nat_lt x y }
    ensures at_most { (x y : ℕ) (f : Flags) → x < 2 ^ 32 → y < 2 ^ 32 → passes Ls (test_flags Cmp x y f) ≡ nat_le x y }
    ensures less { (x y : ℕ) (f : Flags) → x < 2 ^ 32 → y < 2 ^ 32 → passes Lt (test_flags Cmp x y f) ≡ int_lt (signed 32 x) (signed 32 y) }
    ensures less_or_equal { (x y : ℕ) (f : Flags) → x < 2 ^ 32 → y < 2 ^ 32 → passes Le (test_flags Cmp x y f) ≡ int_le (signed 32 x) (signed 32 y) }
{}
