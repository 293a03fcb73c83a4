ghost use Rattle.std.specs.Prelude.{◌≡◌, ◌≤◌, ◌<◌, ◌^◌, ◌-◌, ◌++◌, length, Some, None, IfSome, OnOk, OnErr, if◌then◌else◌, take};
ghost use Rattle.std.specs.Bool.{OnFalse};
ghost use Rattle.std.specs.Int.{to_le_bytes, w64};
ghost use Rattle.bk_num.specs.Bytes.{number, bytes, each_bytes, is_within, load_in, store_in};

use std::alloc::AllocError;

// The number that at most eight bytes spell, the low byte first.
#[tactic(auto, unfolding(crate::specs::Bytes::number))]
fn number(bytes: &[u8]) -> u64
    requires { length bytes.now ≤ 8 }
    ensures value { result ≡ number bytes.now }
    ensures bound { result < 256 ^ length bytes.now }
{
    match bytes {
        [] => 0,
        [first, rest @ ..] => *first as u64 + 256 * number(rest),
    }
}

// Where `size` bytes at the address begin in the window from `base` on, if they lie whole in it.
fn place(base: u64, window: &[u8], size: usize, address: u64) -> Option<usize>
    requires { size ≤ 8 }
    ensures { result ≡ (if is_within base window.now size address then Some (address - base) else None) }
{
    if address < base {
        return None;
    }
    let at = address - base;
    let length = window.len() as u64;
    if at <= length && size as u64 <= length - at {
        Some(at as usize)
    } else {
        None
    }
}

/// The number in `size` bytes at the address, the low byte first, in the window of bytes that begins
/// at `base`.
///
/// It is None exactly where the bytes do not lie whole in the window.
#[tactic(auto, unfolding(crate::specs::Bytes::load_in))]
pub fn load_in(base: u64, window: &[u8], size: usize, address: u64) -> Option<u64>
    requires { size ≤ 8 }
    ensures value { result ≡ load_in base window.now size address }
    ensures bound { IfSome result (λ n. n < 256 ^ size) }
{
    let at = place(base, window, size, address)?;
    Some(number(&window[at..at + size]))
}

/// Writes the `size` low bytes of `n` at the address, the low byte first, into the window of bytes
/// that begins at `base`.
///
/// It answers whether they lie whole in the window; where they do not, nothing is written.
#[tactic(auto, unfolding(crate::specs::Bytes::store_in))]
pub fn store_in(base: u64, window: &mut [u8], size: usize, address: u64, n: u64) -> bool
    requires { size ≤ 8 }
    ensures value { store_in base window.old size address n ≡ (if result then Some window.new else None) }
    ensures kept { OnFalse result (window.new ≡ window.old) }
{
    match place(base, window, size, address) {
        Some(at) => {
            window[at..at + size].copy_from_slice(&n.to_le_bytes()[..size]);
            true
        }
        None => false,
    }
}

/// Appends the `size` low bytes of `n`, the low byte first.
pub fn push_bytes(out: &mut Vec<u8>, size: usize, n: u64) -> Result<(), AllocError>
    requires { size ≤ 8 }
    ensures ok { OnOk result (out.new.items ≡ out.old.items ++ bytes size n) }
    ensures err { OnErr result (out.new.items ≡ out.old.items) }
{
    out.extend_from_slice(&n.to_le_bytes()[..size])
}

/// Appends the `size` low bytes of each number, the low byte first.
pub fn push_each(out: &mut Vec<u8>, size: usize, numbers: &[u64]) -> Result<(), AllocError>
    requires { size ≤ 8 }
    ensures { OnOk result (out.new.items ≡ out.old.items ++ each_bytes size numbers.now) }
{
    for n in numbers {
        push_bytes(out, size, *n)?;
    }
    Ok(())
}
