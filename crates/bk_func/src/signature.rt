// The words and the arguments of signatures.
ghost use Rattle.std.specs.Prelude.{◌≡◌, ◌≤◌, ◌*◌, ◌^◌, length, nat_lt, if◌then◌else◌};
ghost use Rattle.bk_ops.specs.Types.{width_of};
ghost use Rattle.bk_func.specs.Words.{is_double, count_words, register_words};
ghost use Rattle.bk_func.specs.Arguments.{fit};

use bk_ops::{Target, Ty, width};

/// The machine words of a number of the type: two for 64 bits on arm, else one.
pub fn words_of_type(target: Target, ty: Ty) -> u64
    ensures { result ≡ (if is_double target ty then 2 else 1) }
{
    if width(ty, target) > width(Ty::Uintptr, target) {
        2
    } else {
        1
    }
}

/// The machine words of numbers of the types.
pub fn count_words(target: Target, types: &[Ty]) -> u64
    ensures value { result ≡ count_words target types.now }
    ensures few { result ≤ 2 * length types.now }
{
    let mut words = 0;
    for ty in types {
        words += words_of_type(target, *ty);
    }
    words
}

/// How many words of arguments, and of results, a call passes in registers.
pub fn register_words(target: Target) -> u64
    ensures { result ≡ register_words target }
{
    match target {
        Target::Arm => 0,
        Target::Riscv64 => 8,
    }
}

// Whether a number is below 2 to the width of the type.
fn fits(target: Target, ty: Ty, n: u64) -> bool
    ensures { result ≡ nat_lt n (2 ^ width_of ty target) }
{
    let width = width(ty, target);
    width >= 64 || n < 1 << width
}

/// Whether there is a number for each type, below 2 to the width of the type.
pub fn fit(target: Target, types: &[Ty], numbers: &[u64]) -> bool
    ensures { result ≡ fit target types.now numbers.now }
{
    for (place, ty) in types.iter().enumerate() {
        if place >= numbers.len() {
            return false;
        }
        if !fits(target, *ty, numbers[place]) {
            return false;
        }
    }
    types.len() == numbers.len()
}
