// The rule of a family at its width.
ghost use Rattle.std.specs.Prelude.{◌≡◌, IfOk};
ghost use Rattle.bk_rules_dec64.specs.Lines.{family};

use crate::lines::Shape;
use crate::{arithmetic, choices, comparisons, conversions, shifts};
use bk_rule::Rule;
use std::alloc::{AllocError, Global};

#[tactic(auto, unfolding(crate::specs::Lines::family))]
pub(crate) fn family(alloc: Global, shape: Shape, w: u8) -> Result<Rule, AllocError>
    ensures { IfOk result (λ r. r ≡ family shape w) }
{
    match shape {
        Shape::HighOfPair => arithmetic::high_of_pair(alloc),
        Shape::LowOfPair => arithmetic::low_of_pair(alloc),
        Shape::Constant => arithmetic::constant(alloc),
        Shape::Sum(f, g) => arithmetic::sum(alloc, f, g),
        Shape::Each(f) => arithmetic::each(alloc, f),
        Shape::Complement => arithmetic::complement(alloc),
        Shape::Negate => arithmetic::negate(alloc),
        Shape::Product => arithmetic::product(alloc),
        Shape::Test(f) => comparisons::test(alloc, f),
        Shape::Order(f, g, l) => comparisons::order(alloc, f, g, l),
        Shape::SignAbove => conversions::sign_above(alloc),
        Shape::ZeroAbove => conversions::zero_above(alloc),
        Shape::Extend(f) => conversions::extend(alloc, f, w),
        Shape::TruncateToWord => conversions::truncate_to_word(alloc),
        Shape::Truncate => conversions::truncate(alloc, w),
        Shape::LongCount(f) => shifts::long_count(alloc, f, w),
        Shape::ShortCount(f) => shifts::short_count(alloc, f, w),
        Shape::Left => shifts::left(alloc),
        Shape::Right => shifts::right(alloc),
        Shape::RightSigned => shifts::right_signed(alloc),
        Shape::Rotate => shifts::rotate(alloc),
        Shape::Choose => choices::choose(alloc),
    }
}
