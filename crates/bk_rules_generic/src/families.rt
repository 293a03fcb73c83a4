// The rule of a family at its widths.
ghost use Rattle.std.specs.Prelude.{◌≡◌, IfOk};
ghost use Rattle.bk_rules_generic.specs.Lines.{family};

use crate::lines::Shape;
use crate::{arithmetic, comparisons, conversions};
use bk_rule::Rule;
use std::alloc::{AllocError, Global};

#[tactic(auto, unfolding(crate::specs::Lines::family))]
pub(crate) fn family(alloc: Global, shape: Shape, w: u8, v: u8) -> Result<Rule, AllocError>
    ensures { IfOk result (λ r. r ≡ family shape w v) }
{
    match shape {
        Shape::Fold(f, g) => arithmetic::fold(alloc, f, g, w),
        Shape::FoldOne(f, g) => arithmetic::fold_one(alloc, f, g, w),
        Shape::Unit(f, k) => arithmetic::unit(alloc, f, k, w),
        Shape::Absorb(f, k) => arithmetic::absorb(alloc, f, k, w),
        Shape::Cancel(f) => arithmetic::cancel(alloc, f, w),
        Shape::Same(f) => arithmetic::same(alloc, f, w),
        Shape::Twice(f) => arithmetic::twice(alloc, f, w),
        Shape::Turn(f, g) => arithmetic::turn(alloc, f, g, w),
        Shape::SubConst => arithmetic::sub_const(alloc, w),
        Shape::AddTwice => arithmetic::add_twice(alloc, w),
        Shape::AddNeg => arithmetic::add_neg(alloc, w),
        Shape::MulPower => arithmetic::mul_power(alloc, w),
        Shape::DivOne => arithmetic::div_one(alloc, w),
        Shape::DivPower => arithmetic::div_power(alloc, w),
        Shape::ModPower => arithmetic::mod_power(alloc, w),
        Shape::Compare(f, g) => comparisons::compare(alloc, f, g, w),
        Shape::CompareSame(f, k) => comparisons::compare_same(alloc, f, k, w),
        Shape::NotConst => comparisons::not_const(alloc),
        Shape::NotCompare(f, g) => comparisons::not_compare(alloc, f, g, w),
        Shape::NotOrder(f, g) => comparisons::not_order(alloc, f, g, w),
        Shape::TruthUnit(f, k) => comparisons::truth_unit(alloc, f, k),
        Shape::TruthAbsorb(f, k) => comparisons::truth_absorb(alloc, f, k),
        Shape::ShiftNone(f) => conversions::shift_none(alloc, f, w, v),
        Shape::SignConst => conversions::sign_const(alloc, w, v),
        Shape::ZeroConst => conversions::zero_const(alloc, w, v),
        Shape::TruncConst => conversions::trunc_const(alloc, w, v),
        Shape::TruncExt(f) => conversions::trunc_ext(alloc, f, w, v),
        Shape::ZeroMask => conversions::zero_mask(alloc),
        Shape::FullMask => conversions::full_mask(alloc),
        Shape::SignMask => conversions::sign_mask(alloc),
        Shape::NoOffset => conversions::no_offset(alloc),
        Shape::OffsetTwice => conversions::offset_twice(alloc),
        Shape::AddOffset => conversions::add_offset(alloc, w),
        Shape::SelectFirst => conversions::select_first(alloc),
        Shape::SelectSecond => conversions::select_second(alloc),
    }
}
