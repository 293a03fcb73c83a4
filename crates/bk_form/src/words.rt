// The places of signatures, and the numbers beside ops that count them.
ghost use Rattle.std.specs.Prelude.{◌≡◌, ◌≢◌, ◌↔◌, ℕ, pos, IsTrue, MatchOption, length, take};
ghost use Rattle.std.specs.List.{slice_get};
ghost use Rattle.bk_func.specs.Form.Parts.{IsBetween, IsArgumentWord, IsResultWord, IsInRegister};
ghost use Rattle.bk_func.specs.Form.Shapes.{FitsPlaceOf, FitsWordOf, IsAlike};
ghost use Rattle.bk_func.specs.Words.{register_words};
ghost use Rattle.bk_form.specs.Names.{measure, seen_callee};

use crate::names::{Callee, Scope};
use crate::shape::alike;
use bk_func::register_words;
use bk_ops::{Target, Ty};

/// Of these arguments or results those that a call passes in registers.
pub(crate) fn in_registers(types: &[Ty], target: Target) -> &[Ty]
    ensures { result.now ≡ take (register_words target) types.now }
{
    let count = register_words(target) as usize;
    if types.len() <= count {
        types
    } else {
        &types[..count]
    }
}

/// The number as a place.
pub(crate) fn place_of(int: i64) -> Option<usize>
    ensures { MatchOption result ((k : ℕ) → int ≢ pos k) (λ k. int ≡ pos k) }
{
    match usize::try_from(int) {
        Ok(place) => Some(place),
        Err(_) => None,
    }
}

/// Whether the number is at least `low` and below `high`.
pub(crate) fn is_between(int: i64, low: u64, high: u64) -> bool
    ensures { IsTrue result ↔ IsBetween int low high }
{
    match place_of(int) {
        Some(place) => low <= place as u64 && (place as u64) < high,
        None => false,
    }
}

/// Whether the number is that of a place of the arguments.
pub(crate) fn is_argument_word(scope: &Scope, callee: Callee, int: i64) -> bool
    ensures { IsTrue result ↔ IsArgumentWord (measure scope.now) (seen_callee callee.entry) int }
{
    is_between(int, 0, callee.args.len() as u64)
}

/// Whether the number is that of a place of the results, which follow those of the arguments.
pub(crate) fn is_result_word(scope: &Scope, callee: Callee, int: i64) -> bool
    ensures { IsTrue result ↔ IsResultWord (measure scope.now) (seen_callee callee.entry) int }
{
    match place_of(int) {
        Some(place) => callee.args.len() <= place
            && place - callee.args.len() < callee.results.len(),
        None => false,
    }
}

/// Whether the number is that of one of the arguments or results that is passed in a register.
pub(crate) fn is_in_register(scope: &Scope, types: &[Ty], int: i64) -> bool
    ensures { IsTrue result ↔ IsInRegister (measure scope.now) types.now int }
{
    is_between(int, 0, in_registers(types, scope.target).len() as u64)
}

/// Whether a value of the type fits the place of the signature with this number, where there is one.
pub(crate) fn fits_word(scope: &Scope, callee: Callee, int: i64, ty: Ty) -> bool
    ensures { IsTrue result ↔ FitsWordOf (measure scope.now) (seen_callee callee.entry) int ty }
{
    match place_of(int) {
        Some(place) => fits_of_sig(scope, callee, place, ty),
        None => true,
    }
}

/// Whether a value of the type fits the one of the places with this number, where there is one.
pub(crate) fn fits_place(scope: &Scope, types: &[Ty], int: i64, ty: Ty) -> bool
    ensures { IsTrue result ↔ FitsPlaceOf (measure scope.now) types.now int ty }
{
    match place_of(int) {
        Some(place) => fits_at(scope, types, place, ty),
        None => true,
    }
}

/// Whether a value of the type fits the place of the signature, where there is one.
fn fits_of_sig(scope: &Scope, callee: Callee, place: usize, ty: Ty) -> bool
    ensures { IsTrue result ↔ FitsWordOf (measure scope.now) (seen_callee callee.entry) (pos place) ty }
{
    let args = callee.args.len();
    if place < args {
        fits_at(scope, callee.args, place, ty)
    } else {
        fits_at(scope, callee.results, place - args, ty)
    }
}

/// Whether a value of the type fits the place, where there is one.
fn fits_at(scope: &Scope, types: &[Ty], place: usize, ty: Ty) -> bool
    ensures { IsTrue result ↔ FitsPlaceOf (measure scope.now) types.now (pos place) ty }
{
    match types.get(place) {
        Some(other) => alike(*other, ty, scope.target),
        None => true,
    }
}
