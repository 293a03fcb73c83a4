// Numbers of types.
ghost use Rattle.std.specs.Prelude.{◌≡◌, ◌≤◌, ◌%◌, ◌^◌, ◌++◌, OnOk};
ghost use Rattle.bk_ops.specs.Types.{width_of, word_width};
ghost use Rattle.bk_func.specs.Words.{fitted as meant_fitted};

use bk_num::trunc;
use bk_ops::{Target, Ty, width};
use std::alloc::AllocError;

/// The bits of a machine word.
pub(crate) fn word_bits(target: Target) -> u32
    ensures value { result ≡ word_width target }
    ensures least { 1 ≤ result }
    ensures most { result ≤ 64 }
{
    width(Ty::Uintptr, target)
}

/// The number modulo 2 to the width of the type.
pub(crate) fn fitted(target: Target, ty: Ty, number: u64) -> u64
    ensures { result ≡ number % 2 ^ width_of ty target }
{
    match width(ty, target) {
        0 => 0,
        width => trunc(width, number),
    }
}

/// Appends the numbers, each modulo 2 to the width of its type.
pub(crate) fn push_fitted(
    list: &mut Vec<u64>,
    target: Target,
    types: &[Ty],
    numbers: &[u64],
) -> Result<(), AllocError>
    ensures { OnOk result (list.new.items ≡ list.old.items ++ meant_fitted target types.now numbers.now) }
{
    for (place, ty) in types.iter().enumerate() {
        match numbers.get(place) {
            Some(number) => list.push(fitted(target, *ty, *number))?,
            None => break,
        }
    }
    Ok(())
}
