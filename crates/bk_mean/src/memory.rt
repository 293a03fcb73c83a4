// The data window: writes and copies of any length.
ghost use Rattle.std.specs.Prelude.{◌≡◌, ◌+◌, ◌-◌, ◌<◌, ◌≤◌, ◌^◌, ◌++◌, Some, None, IsSome, if◌then◌else◌, take, drop, replicate, length};
ghost use Rattle.std.specs.Bool.{OnFalse};
ghost use Rattle.bk_num.specs.Bytes.{is_within};
ghost use Rattle.bk_num.specs.Memory.{data_base};
ghost use Rattle.bk_ops.specs.Memory.{with_zeros, with_move, do_overlap};
ghost use Rattle.bk_mean.specs.Machine.{copy_fault};

/// The address of the data window's first byte.
pub(crate) const DATA_BASE: u64 = 67_108_864;

/// Where so many bytes at an address begin in the window, if they lie whole in it.
fn place(window: &[u8], count: u64, address: u64) -> Option<usize>
    ensures { result ≡ (if is_within data_base window.now count address then Some (address - data_base) else None) }
{
    if address < DATA_BASE {
        return None;
    }
    let at = address - DATA_BASE;
    let length = window.len() as u64;
    if at <= length && count <= length - at {
        Some(at as usize)
    } else {
        None
    }
}

/// Writes so many zeros; false where they do not lie whole in the window.
pub(crate) fn write_zeros(window: &mut Vec<u8>, count: u64, address: u64) -> bool
    ensures value { with_zeros window.old.items count address ≡ (if result then Some window.new.items else None) }
    ensures kept { OnFalse result (window.new.items ≡ window.old.items) }
{
    match place(window, count, address) {
        Some(at) => {
            clear(window, at, count as usize);
            true
        }
        None => false,
    }
}

fn clear(window: &mut [u8], at: usize, count: usize)
    requires { at + count ≤ length window.old }
    ensures { window.new ≡ take at window.old ++ (replicate count 0 ++ drop (at + count) window.old) }
{
    window[at..at + count].fill(0);
}

/// Copies so many bytes from one address to another, or gives the address at fault.
///
/// The bytes that are read must lie in the window, then those that are written, and the two may share
/// no byte, unless they are the same.
pub(crate) fn copy_bytes(window: &mut Vec<u8>, count: u64, to: u64, from: u64) -> Option<u64>
    ensures fault { result ≡ copy_fault window.old.items count to from }
    ensures done { result ≡ None → with_move window.old.items count to from ≡ Some window.new.items }
    ensures kept { IsSome result → window.new.items ≡ window.old.items }
{
    let Some(source) = place(window, count, from) else {
        return Some(from);
    };
    let Some(target) = place(window, count, to) else {
        return Some(to);
    };
    let count = count as usize;
    if shares(count, target, source) {
        return Some(to);
    }
    window.copy_within(source..source + count, target);
    None
}

/// Whether so many bytes at two different places have one in common.
fn shares(count: usize, target: usize, source: usize) -> bool
    requires first { target + count < 2 ^ 64 }
    requires second { source + count < 2 ^ 64 }
    ensures { result ≡ do_overlap count (data_base + target) (data_base + source) }
{
    target != source && target < source + count && source < target + count
}
