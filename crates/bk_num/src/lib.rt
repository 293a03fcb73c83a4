//! Arithmetic modulo 2^w, for widths w from 1 to 64, windows of bytes, and the address map.
//!
//! Each call of arithmetic takes its numbers modulo 2^w, and a shift's count as it is.
#![tactic(auto)]

ghost use Rattle.std.specs.Prelude.{◌≡◌, ◌*◌, ◌/◌, ◌%◌, ◌^◌, ◌≤◌, pos, int_div, int_rem, if◌then◌else◌, ◌==◌, true, false};
ghost use Rattle.std.specs.Int.{int_div_euclid};
ghost use Rattle.bk_num.specs.Word.{signed, residue, rotated, high_half};

mod addresses;
mod windows;

pub use addresses::{DATA_BASE, HALT, POOL_BASE, STACK_TOP, TEXT_BASE};
pub use windows::{load_in, push_bytes, push_each, store_in};

#[cfg(test)]
mod tests;

/// The number below 2^w that is congruent to `n`.
pub fn trunc(w: u32, n: u64) -> u64
    requires { (1 ≤ w) × (w ≤ 64) }
    ensures { result ≡ n % 2 ^ w }
{
    if w == 64 { n } else { n % (1u64 << w) }
}

/// The signed number that `n` spells in w bits, in two's complement.
pub fn sext(w: u32, n: u64) -> i64
    requires { (1 ≤ w) × (w ≤ 64) }
    ensures { result ≡ signed w n }
{
    let low = trunc(w, n);
    let half = 1u64 << (w - 1);
    if low < half {
        low as i64
    } else {
        let rest = (half - 1) + half - low;
        -1 - (rest as i64)
    }
}

/// The number below 2^w that is congruent to `value`: its w bits in two's complement.
pub fn residue(w: u32, value: i128) -> u64
    requires { (1 ≤ w) × (w ≤ 64) }
    ensures { result ≡ residue w value }
{
    (value.cast_unsigned() % (1u128 << w)) as u64
}

/// `x` shifted left, 0 at counts of w and above.
pub fn shl(w: u32, x: u64, count: u64) -> u64
    requires { (1 ≤ w) × (w ≤ 64) }
    ensures { result ≡ (x * 2 ^ count) % 2 ^ w }
{
    if count >= w as u64 {
        0
    } else {
        trunc(w, trunc(w, x) << count)
    }
}

/// `x` shifted right, 0 at counts of w and above.
pub fn shr(w: u32, x: u64, count: u64) -> u64
    requires { (1 ≤ w) × (w ≤ 64) }
    ensures { result ≡ x % 2 ^ w / 2 ^ count }
{
    if count >= w as u64 {
        0
    } else {
        trunc(w, x) >> count
    }
}

/// `x` shifted right with its sign, the sign fill at counts of w and above.
pub fn sar(w: u32, x: u64, count: u64) -> u64
    requires { (1 ≤ w) × (w ≤ 64) }
    ensures { result ≡ residue w (int_div_euclid (signed w x) (pos (2 ^ count))) }
{
    let by = if count < 63 { count } else { 63 };
    residue(w, (sext(w, x) >> by) as i128)
}

/// `x` rotated left by `k` modulo w.
pub fn rotl(w: u32, x: u64, k: u64) -> u64
    requires { (1 ≤ w) × (w ≤ 64) }
    ensures { result ≡ rotated w x k }
{
    let by = k % w as u64;
    shl(w, x, by) + shr(w, x, w as u64 - by)
}

/// The high half of the product of 2w bits, both numbers being signed or both unsigned.
pub fn hmul(w: u32, x: u64, y: u64, signed: bool) -> u64
    requires { (1 ≤ w) × (w ≤ 64) }
    ensures { result ≡ high_half w x y signed }
{
    if signed {
        hmul_signed(w, x, y)
    } else {
        hmul_unsigned(w, x, y)
    }
}

fn hmul_signed(w: u32, x: u64, y: u64) -> u64
    requires { (1 ≤ w) × (w ≤ 64) }
    ensures { result ≡ high_half w x y true }
{
    let product = sext(w, x) as i128 * sext(w, y) as i128;
    residue(w, product >> w)
}

fn hmul_unsigned(w: u32, x: u64, y: u64) -> u64
    requires { (1 ≤ w) × (w ≤ 64) }
    ensures { result ≡ high_half w x y false }
{
    let product = trunc(w, x) as u128 * trunc(w, y) as u128;
    (product >> w) as u64
}

/// The signed quotient, rounded toward zero, or `zero` where `y` is 0.
///
/// The least number by -1 is itself.
pub fn divs(w: u32, x: u64, y: u64, zero: u64) -> u64
    requires { (1 ≤ w) × (w ≤ 64) }
    ensures { result ≡ (if y % 2 ^ w == 0 then zero % 2 ^ w else residue w (int_div (signed w x) (signed w y))) }
{
    if trunc(w, y) == 0 {
        trunc(w, zero)
    } else {
        residue(w, sext(w, x) as i128 / sext(w, y) as i128)
    }
}

/// The unsigned quotient, or `zero` where `y` is 0.
pub fn divu(w: u32, x: u64, y: u64, zero: u64) -> u64
    requires { (1 ≤ w) × (w ≤ 64) }
    ensures { result ≡ (if y % 2 ^ w == 0 then zero % 2 ^ w else x % 2 ^ w / (y % 2 ^ w)) }
{
    let divisor = trunc(w, y);
    if divisor == 0 {
        trunc(w, zero)
    } else {
        trunc(w, x) / divisor
    }
}

/// The signed remainder, with the sign of `x`, or `x` where `y` is 0.
pub fn rems(w: u32, x: u64, y: u64) -> u64
    requires { (1 ≤ w) × (w ≤ 64) }
    ensures { result ≡ (if y % 2 ^ w == 0 then x % 2 ^ w else residue w (int_rem (signed w x) (signed w y))) }
{
    if trunc(w, y) == 0 {
        trunc(w, x)
    } else {
        residue(w, sext(w, x) as i128 % sext(w, y) as i128)
    }
}

/// The unsigned remainder, or `x` where `y` is 0.
pub fn remu(w: u32, x: u64, y: u64) -> u64
    requires { (1 ≤ w) × (w ≤ 64) }
    ensures { result ≡ (if y % 2 ^ w == 0 then x % 2 ^ w else x % 2 ^ w % (y % 2 ^ w)) }
{
    let divisor = trunc(w, y);
    if divisor == 0 {
        trunc(w, x)
    } else {
        trunc(w, x) % divisor
    }
}
