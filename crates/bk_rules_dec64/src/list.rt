// The list, line by line.
ghost use Rattle.std.specs.Prelude.{◌≡◌, ◌++◌, map, OnOk};
ghost use Rattle.std.specs.List.{flat_map};
ghost use Rattle.bk_rules_dec64.specs.Lines.{rules_of, arithmetic, comparisons, conversions, shifts};

use crate::families::family;
use crate::lines::{Line, Shape, Widths, widths_of};
use bk_ops::Family;
use bk_rule::Rule;
use std::alloc::{AllocError, Global};

#[tactic(auto, unfolding(crate::specs::Lines::rules_of))]
fn put_line(alloc: Global, rules: &mut Vec<Rule>, line: Line) -> Result<(), AllocError>
    ensures { OnOk result (rules.new.items ≡ rules.old.items ++ rules_of line) }
{
    for width in widths_of(line.1) {
        rules.push(family(alloc, line.0, *width)?)?;
    }
    Ok(())
}

fn put(alloc: Global, rules: &mut Vec<Rule>, lines: &[Line]) -> Result<(), AllocError>
    ensures { OnOk result (rules.new.items ≡ rules.old.items ++ flat_map rules_of lines.now) }
{
    for line in lines {
        put_line(alloc, rules, *line)?;
    }
    Ok(())
}

/// Halves, constants, sums, products and bits.
const ARITHMETIC: [Line; 11] = [
    Line(Shape::HighOfPair, Widths::Alone),
    Line(Shape::LowOfPair, Widths::Alone),
    Line(Shape::Constant, Widths::Alone),
    Line(Shape::Sum(Family::Add, Family::AddHi32), Widths::Alone),
    Line(Shape::Sum(Family::Sub, Family::SubHi32), Widths::Alone),
    Line(Shape::Each(Family::And), Widths::Alone),
    Line(Shape::Each(Family::Or), Widths::Alone),
    Line(Shape::Each(Family::Xor), Widths::Alone),
    Line(Shape::Complement, Widths::Alone),
    Line(Shape::Negate, Widths::Alone),
    Line(Shape::Product, Widths::Alone),
];

#[tactic(auto, unfolding(crate::specs::Lines::arithmetic))]
pub(crate) fn put_arithmetic(alloc: Global, rules: &mut Vec<Rule>) -> Result<(), AllocError>
    ensures { OnOk result (rules.new.items ≡ rules.old.items ++ flat_map rules_of arithmetic) }
{
    put(alloc, rules, &ARITHMETIC)
}

/// Comparisons.
const COMPARISONS: [Line; 6] = [
    Line(Shape::Test(Family::Eq), Widths::Alone),
    Line(Shape::Test(Family::Neq), Widths::Alone),
    Line(
        Shape::Order(Family::Less, Family::Less, Family::LessU),
        Widths::Alone,
    ),
    Line(
        Shape::Order(Family::LessU, Family::LessU, Family::LessU),
        Widths::Alone,
    ),
    Line(
        Shape::Order(Family::Leq, Family::Less, Family::LeqU),
        Widths::Alone,
    ),
    Line(
        Shape::Order(Family::LeqU, Family::LessU, Family::LeqU),
        Widths::Alone,
    ),
];

#[tactic(auto, unfolding(crate::specs::Lines::comparisons))]
pub(crate) fn put_comparisons(alloc: Global, rules: &mut Vec<Rule>) -> Result<(), AllocError>
    ensures { OnOk result (rules.new.items ≡ rules.old.items ++ flat_map rules_of comparisons) }
{
    put(alloc, rules, &COMPARISONS)
}

/// Extensions and truncations.
const CONVERSIONS: [Line; 6] = [
    Line(Shape::SignAbove, Widths::Alone),
    Line(Shape::ZeroAbove, Widths::Alone),
    Line(Shape::Extend(Family::SignExt), Widths::Short),
    Line(Shape::Extend(Family::ZeroExt), Widths::Short),
    Line(Shape::TruncateToWord, Widths::Alone),
    Line(Shape::Truncate, Widths::Short),
];

#[tactic(auto, unfolding(crate::specs::Lines::conversions))]
pub(crate) fn put_conversions(alloc: Global, rules: &mut Vec<Rule>) -> Result<(), AllocError>
    ensures { OnOk result (rules.new.items ≡ rules.old.items ++ flat_map rules_of conversions) }
{
    put(alloc, rules, &CONVERSIONS)
}

/// Shifts, the rotation and the choice.
const SHIFTS: [Line; 11] = [
    Line(Shape::LongCount(Family::Lsh), Widths::Any),
    Line(Shape::LongCount(Family::Rsh), Widths::Any),
    Line(Shape::LongCount(Family::RshU), Widths::Any),
    Line(Shape::ShortCount(Family::Lsh), Widths::Short),
    Line(Shape::ShortCount(Family::Rsh), Widths::Short),
    Line(Shape::ShortCount(Family::RshU), Widths::Short),
    Line(Shape::Left, Widths::Alone),
    Line(Shape::Right, Widths::Alone),
    Line(Shape::RightSigned, Widths::Alone),
    Line(Shape::Rotate, Widths::Alone),
    Line(Shape::Choose, Widths::Alone),
];

#[tactic(auto, unfolding(crate::specs::Lines::shifts))]
pub(crate) fn put_shifts(alloc: Global, rules: &mut Vec<Rule>) -> Result<(), AllocError>
    ensures { OnOk result (rules.new.items ≡ rules.old.items ++ flat_map rules_of shifts) }
{
    put(alloc, rules, &SHIFTS)
}
