// What holds of the definitions.
ghost use Rattle.std.specs.Prelude.{◌≡◌, ◌≤◌, ◌<◌, ◌+◌, ℕ, Some, All};
ghost use Rattle.bk_ops.specs.declared.types.Target.{Target};
ghost use Rattle.bk_func.specs.Edits.{greatest_value};
ghost use Rattle.bk_func.specs.Limits.{most_values_made};
ghost use Rattle.bk_func.specs.Records.{FuncRecord, PackageRecord};
ghost use Rattle.bk_calls.specs.Areas.{areas_of, IsNoCall};
ghost use Rattle.bk_calls.specs.Budget.{value_count, count_after};
ghost use Rattle.bk_calls.specs.Numbering.{bearers, staying_bearers, made_count};

/// The count that decides on Grown is that of the values of the function in words. A function within the limit stays
/// within it.
pub fn growth_is_counted()
    ensures counted { (p : PackageRecord) (t : Target) (f : FuncRecord) (n : ℕ) → count_after t f ≡ Some n → value_count (areas_of p t f) ≡ n }
    ensures within { (t : Target) (f : FuncRecord) (n : ℕ) → value_count f ≤ most_values_made → count_after t f ≡ Some n → n ≤ most_values_made }
{}

/// Values that stay keep their numbers; those that are made bear the numbers after the greatest, each one of them.
pub fn numbers_of_words()
    ensures old { (p : PackageRecord) (t : Target) (f : FuncRecord) (n : ℕ) → n ≤ greatest_value f → bearers (areas_of p t f) n ≡ staying_bearers f n }
    ensures new { (p : PackageRecord) (t : Target) (f : FuncRecord) (n : ℕ) → greatest_value f < n → n ≤ greatest_value f + made_count t f → bearers (areas_of p t f) n ≡ 1 }
    ensures none { (p : PackageRecord) (t : Target) (f : FuncRecord) (n : ℕ) → greatest_value f + made_count t f < n → bearers (areas_of p t f) n ≡ 0 }
{}

/// No `Arg`, `StaticLECall`, `SelectN` or `MakeResult` is left in the function in words.
pub fn only_words_are_left()
    ensures { (p : PackageRecord) (t : Target) (f : FuncRecord) → All (λ b. All IsNoCall b.values) (areas_of p t f).blocks }
{}
