//! Numbers among the words.

ghost use Rattle.std.specs.Prelude.{◌≡◌, ◌↔◌, ◌<◌, ◌^◌, ◌∷◌, ℕ, ℤ, All, map, string_bytes, IfSome, IfNone, IsTrue};
ghost use Rattle.std.specs.Fmt.{decimal, signed_decimal};
ghost use Rattle.bk_top.specs.Commands.{IsCanonical, IsArgument, SpellsArgument};

/// The greatest distance from 0 of a number below 0.
const MOST_BELOW: u64 = 1 << 63;

/// Whether digits have no sign and no leading zero.
fn is_canonical(digits: &[u8]) -> bool
    ensures { IsTrue result ↔ IsCanonical digits.now }
{
    match digits {
        [first, _, ..] => *first != b'+' && *first != b'0',
        [first] => *first != b'+',
        [] => true,
    }
}

/// The number that digits spell, without a leading zero.
fn natural(digits: &str) -> Option<u64>
    ensures found { IfSome result (λ n. (digits.now ≡ decimal n) × (n < 2 ^ 64)) }
    ensures none { IfNone result ((n : ℕ) → n < 2 ^ 64 → digits.now ≡ decimal n → ⊥) }
{
    if !is_canonical(digits.as_bytes()) {
        return None;
    }
    digits.parse::<u64>().ok()
}

/// The number that a word spells.
pub fn number_of(word: &String) -> Option<u64>
    ensures found { IfSome result (λ n. (string_bytes word.now ≡ decimal n) × (n < 2 ^ 64)) }
    ensures none { IfNone result ((n : ℕ) → n < 2 ^ 64 → string_bytes word.now ≡ decimal n → ⊥) }
{
    natural(word.as_str())
}

/// The number below 0 whose distance from 0 digits spell, at most 2^63.
fn below(digits: &str) -> Option<i128>
    ensures found { IfSome result (λ z. (45 ∷ digits.now ≡ signed_decimal z) × IsArgument z) }
    ensures none { IfNone result ((z : ℤ) → IsArgument z → 45 ∷ digits.now ≡ signed_decimal z → ⊥) }
{
    let magnitude = natural(digits)?;
    if magnitude == 0 {
        return None;
    }
    if magnitude > MOST_BELOW {
        return None;
    }
    Some(-i128::from(magnitude))
}

/// The number that a word spells, from -2^63 to 2^64 - 1.
pub fn argument_of(word: &String) -> Option<i128>
    ensures found { IfSome result (λ z. (string_bytes word.now ≡ signed_decimal z) × IsArgument z) }
    ensures none { IfNone result ((z : ℤ) → IsArgument z → string_bytes word.now ≡ signed_decimal z → ⊥) }
{
    match word.as_str().strip_prefix("-") {
        Some(digits) => below(digits),
        None => natural(word.as_str()).map(i128::from),
    }
}

fn is_argument(word: &String) -> bool
    ensures { IsTrue result ↔ SpellsArgument (string_bytes word.now) }
{
    argument_of(word).is_some()
}

/// Whether each word spells such a number.
pub fn are_arguments(words: &[String]) -> bool
    ensures { IsTrue result ↔ All SpellsArgument (map string_bytes words.now) }
{
    for word in words {
        if !is_argument(word) {
            return false;
        }
    }
    true
}
