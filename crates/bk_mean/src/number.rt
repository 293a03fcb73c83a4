// The number of one value, at the numbers of its arguments.
ghost use Rattle.std.specs.Prelude.{◌≡◌, ◌+◌, ◌%◌, ◌^◌, ◌++◌, OnOk, map, slice_index};
ghost use Rattle.bk_num.specs.Word.{residue as low_bits};
ghost use Rattle.bk_ops.specs.Types.{word_width};
ghost use Rattle.bk_ops.specs.Values.{pure_value};
ghost use Rattle.bk_func.specs.Numbers.{load_size as meant_size, made_of as meant_number};
ghost use Rattle.bk_mean.specs.Machine.{arg_number};

use crate::fit::word_bits;
use bk_num::{residue, sext, trunc};
use bk_ops::{Family, Op, RvOp, Target, Ty, eval_op, size};
use std::alloc::AllocError;

/// The number at a place, 0 past the end.
pub(crate) fn at(numbers: &[u64], place: usize) -> u64
    ensures { result ≡ slice_index numbers.now place }
{
    match numbers.get(place) {
        Some(number) => *number,
        None => 0,
    }
}

/// The same of a count that may be past 2^63.
pub(crate) fn number_at(numbers: &[u64], index: u64) -> u64
    ensures { result ≡ slice_index numbers.now index }
{
    if index < numbers.len() as u64 {
        numbers[index as usize]
    } else {
        0
    }
}

/// The number of a value's argument, 0 where it has none there.
pub(crate) fn arg(numbers: &[u64], args: &[usize], index: usize) -> u64
    ensures { result ≡ arg_number numbers.now args.now index }
{
    match args.get(index) {
        Some(place) => at(numbers, *place),
        None => 0,
    }
}

/// Appends the numbers at places.
pub(crate) fn push_numbers(
    list: &mut Vec<u64>,
    numbers: &[u64],
    places: &[usize],
) -> Result<(), AllocError>
    ensures { OnOk result (list.new.items ≡ list.old.items ++ map (slice_index numbers.now) places.now) }
{
    for place in places {
        list.push(at(numbers, *place))?;
    }
    Ok(())
}

/// The number of an op, at the numbers of its arguments.
pub(crate) fn computed(
    op: Op,
    int: i64,
    args: &[usize],
    numbers: &[u64],
    target: Target,
) -> Option<u64>
    ensures { result ≡ pure_value op int (map (slice_index numbers.now) args.now) target }
{
    match args {
        [] => eval_op(op, int, &[], target),
        [x] => eval_op(op, int, &[at(numbers, *x)], target),
        [x, y] => eval_op(op, int, &[at(numbers, *x), at(numbers, *y)], target),
        [x, y, z] => {
            let list = [at(numbers, *x), at(numbers, *y), at(numbers, *z)];
            eval_op(op, int, &list, target)
        }
        [x, y, z, u] => {
            let list = [
                at(numbers, *x),
                at(numbers, *y),
                at(numbers, *z),
                at(numbers, *u),
            ];
            eval_op(op, int, &list, target)
        }
        _ => None,
    }
}

/// The address that a load or a store is at: the number of its first argument and the one beside it.
pub(crate) fn address(target: Target, int: i64, pointer: u64) -> u64
    ensures { result ≡ (pointer + low_bits (word_width target) int) % 2 ^ word_width target }
{
    let word = word_bits(target);
    trunc(word, pointer.wrapping_add(residue(word, int as i128)))
}

/// How many bytes a load reads.
pub(crate) fn load_size(target: Target, ty: Ty, op: Op) -> u32
    ensures { result ≡ meant_size target ty op op.family }
{
    match op.family {
        Family::Load => size(ty, target),
        _ => u32::from(op.a),
    }
}

/// The number that a load makes of the one that it reads.
pub(crate) fn made_of(ty: Ty, op: Op, read: u64) -> u64
    ensures { result ≡ meant_number op.family ty op.a read }
{
    match op.family {
        Family::Load if ty == Ty::Bool => read % 2,
        Family::Rv(RvOp::Load) if op.a == 4 => sext(32, read).cast_unsigned(),
        _ => read,
    }
}
