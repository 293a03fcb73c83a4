// The rule of a family at its widths.
ghost use Rattle.std.specs.Prelude.{◌≡◌, IfOk};
ghost use Rattle.bk_rules_words.specs.Lines.{family};

use crate::lines::Shape;
use crate::{accesses, conversions, direct, immediates, widened};
use bk_rule::Rule;
use bk_rule::make::op;
use std::alloc::{AllocError, Global};

#[tactic(auto, unfolding(crate::specs::Lines::family))]
pub(crate) fn family(alloc: Global, shape: Shape, w: u8, v: u8) -> Result<Rule, AllocError>
    ensures { IfOk result (λ r. r ≡ family shape w v) }
{
    match shape {
        Shape::Constant(f, k) => direct::constant(alloc, f, k, w),
        Shape::Nil(k) => direct::nil(alloc, k),
        Shape::Address(m) => direct::address(alloc, m),
        Shape::One(f, m) => direct::one(alloc, f, m, w, v),
        Shape::Two(f, m) => direct::two(alloc, f, m, w, v),
        Shape::Three(f, m) => direct::three(alloc, f, m),
        Shape::Four(f, m) => direct::four(alloc, f, m, w),
        Shape::OneWith(f, m, n) => direct::one_with(alloc, f, m, n, w),
        Shape::Offset(m, k) => direct::offset(alloc, m, k),
        Shape::NotNil(m, k) => direct::not_nil(alloc, m, k),
        Shape::High(f, e, m) => widened::high(alloc, f, e, m),
        Shape::Widen(f, e, u) => widened::widen(alloc, op(f, w, 0), op(f, u, 0), e),
        Shape::WidenShift(f, e, u) => widened::widen_shift(alloc, op(f, w, v), op(f, u, v), e),
        Shape::WidenCount(f, u) => widened::widen_count(alloc, op(f, w, v), op(f, w, u)),
        Shape::AsWide(f, u) => widened::as_wide(alloc, op(f, w, v), op(f, u, v)),
        Shape::ShiftCount(f, m) => widened::shift_count(alloc, f, m, w, v),
        Shape::Test(f, m) => widened::test(alloc, f, m, w),
        Shape::TestLow(f, m) => widened::test_low(alloc, f, m, w),
        Shape::AtMost(f, m) => widened::at_most(alloc, f, m, w),
        Shape::EqualBools(m, i) => widened::equal_bools(alloc, m, i),
        Shape::Extend(f, m) => conversions::extend(alloc, f, m, w, v),
        Shape::Truncate => conversions::truncate(alloc, w, v),
        Shape::SignMask => conversions::sign_mask(alloc),
        Shape::ZeroMask => conversions::zero_mask(alloc),
        Shape::RotateHalf => conversions::rotate_half(alloc),
        Shape::Load(l) => accesses::load(alloc, l, w),
        Shape::StoreBool(m) => accesses::store_bool(alloc, m),
        Shape::Store(m) => accesses::store(alloc, m, w),
        Shape::Zero(z) => accesses::zero(alloc, z),
        Shape::Move(m) => accesses::move_bytes(alloc, m),
        Shape::Panic => accesses::panic(alloc),
        Shape::Immediate(m, k, i, fits) => immediates::immediate(alloc, m, k, i, fits),
        Shape::Negated(m, k, i, fits) => immediates::negated(alloc, m, k, i, fits),
        Shape::LoadNear(l, i, fits) => accesses::load_near(alloc, l, i, fits, w),
        Shape::StoreNear(m, i, fits) => accesses::store_near(alloc, m, i, fits, w),
    }
}
