// The list, line by line.
ghost use Rattle.std.specs.Prelude.{◌≡◌, ◌++◌, map, OnOk};
ghost use Rattle.std.specs.List.{flat_map};
ghost use Rattle.bk_rules_generic.specs.Lines.{rules_of, arithmetic, bits, comparisons, conversions};

use crate::families::family;
use crate::lines::{Line, Shape, Widths, pairs};
use bk_ops::Family;
use bk_rule::{Fun, Rule};
use std::alloc::{AllocError, Global};

#[tactic(auto, unfolding(crate::specs::Lines::rules_of))]
fn put_line(alloc: Global, rules: &mut Vec<Rule>, line: Line) -> Result<(), AllocError>
    ensures { OnOk result (rules.new.items ≡ rules.old.items ++ rules_of line) }
{
    for pair in pairs(line.1) {
        rules.push(family(alloc, line.0, pair.0, pair.1)?)?;
    }
    Ok(())
}

fn put(alloc: Global, rules: &mut Vec<Rule>, lines: &[Line]) -> Result<(), AllocError>
    ensures { OnOk result (rules.new.items ≡ rules.old.items ++ flat_map rules_of lines.now) }
{
    for line in lines {
        put_line(alloc, rules, *line)?;
    }
    Ok(())
}

/// Sums, products and quotients.
const ARITHMETIC: [Line; 20] = [
    Line(Shape::Fold(Family::Add, Fun::Add), Widths::Each),
    Line(Shape::Fold(Family::Sub, Fun::Sub), Widths::Each),
    Line(Shape::Fold(Family::Mul, Fun::Mul), Widths::Each),
    Line(Shape::Fold(Family::And, Fun::And), Widths::Each),
    Line(Shape::Fold(Family::Or, Fun::Or), Widths::Each),
    Line(Shape::Fold(Family::Xor, Fun::Xor), Widths::Each),
    Line(Shape::FoldOne(Family::Neg, Fun::Neg), Widths::Each),
    Line(Shape::FoldOne(Family::Com, Fun::Com), Widths::Each),
    Line(Shape::Unit(Family::Add, 0), Widths::Each),
    Line(Shape::Cancel(Family::Sub), Widths::Each),
    Line(Shape::SubConst, Widths::Each),
    Line(Shape::AddTwice, Widths::Each),
    Line(Shape::AddNeg, Widths::Each),
    Line(Shape::Absorb(Family::Mul, 0), Widths::Each),
    Line(Shape::Unit(Family::Mul, 1), Widths::Each),
    Line(Shape::Turn(Family::Mul, Family::Neg), Widths::Each),
    Line(Shape::MulPower, Widths::Each),
    Line(Shape::DivOne, Widths::Each),
    Line(Shape::DivPower, Widths::Each),
    Line(Shape::ModPower, Widths::Each),
];

#[tactic(auto, unfolding(crate::specs::Lines::arithmetic))]
pub(crate) fn put_arithmetic(alloc: Global, rules: &mut Vec<Rule>) -> Result<(), AllocError>
    ensures { OnOk result (rules.new.items ≡ rules.old.items ++ flat_map rules_of arithmetic) }
{
    put(alloc, rules, &ARITHMETIC)
}

/// Bits, and what is done twice.
const BITS: [Line; 11] = [
    Line(Shape::Same(Family::And), Widths::Each),
    Line(Shape::Same(Family::Or), Widths::Each),
    Line(Shape::Absorb(Family::And, 0), Widths::Each),
    Line(Shape::Unit(Family::And, -1), Widths::Each),
    Line(Shape::Unit(Family::Or, 0), Widths::Each),
    Line(Shape::Absorb(Family::Or, -1), Widths::Each),
    Line(Shape::Cancel(Family::Xor), Widths::Each),
    Line(Shape::Unit(Family::Xor, 0), Widths::Each),
    Line(Shape::Turn(Family::Xor, Family::Com), Widths::Each),
    Line(Shape::Twice(Family::Neg), Widths::Each),
    Line(Shape::Twice(Family::Com), Widths::Each),
];

#[tactic(auto, unfolding(crate::specs::Lines::bits))]
pub(crate) fn put_bits(alloc: Global, rules: &mut Vec<Rule>) -> Result<(), AllocError>
    ensures { OnOk result (rules.new.items ≡ rules.old.items ++ flat_map rules_of bits) }
{
    put(alloc, rules, &BITS)
}

/// Comparisons and truth values.
const COMPARISONS: [Line; 26] = [
    Line(Shape::Compare(Family::Eq, Fun::Eq), Widths::Each),
    Line(Shape::Compare(Family::Neq, Fun::Ne), Widths::Each),
    Line(Shape::Compare(Family::Less, Fun::Lt), Widths::Each),
    Line(Shape::Compare(Family::Leq, Fun::Le), Widths::Each),
    Line(Shape::Compare(Family::LessU, Fun::Ult), Widths::Each),
    Line(Shape::Compare(Family::LeqU, Fun::Ule), Widths::Each),
    Line(Shape::CompareSame(Family::Eq, 1), Widths::Each),
    Line(Shape::CompareSame(Family::Leq, 1), Widths::Each),
    Line(Shape::CompareSame(Family::LeqU, 1), Widths::Each),
    Line(Shape::CompareSame(Family::Neq, 0), Widths::Each),
    Line(Shape::CompareSame(Family::Less, 0), Widths::Each),
    Line(Shape::CompareSame(Family::LessU, 0), Widths::Each),
    Line(Shape::NotConst, Widths::Alone),
    Line(Shape::Twice(Family::Not), Widths::Alone),
    Line(Shape::NotCompare(Family::Eq, Family::Neq), Widths::Each),
    Line(Shape::NotCompare(Family::Neq, Family::Eq), Widths::Each),
    Line(Shape::NotOrder(Family::Less, Family::Leq), Widths::Each),
    Line(Shape::NotOrder(Family::Leq, Family::Less), Widths::Each),
    Line(Shape::NotOrder(Family::LessU, Family::LeqU), Widths::Each),
    Line(Shape::NotOrder(Family::LeqU, Family::LessU), Widths::Each),
    Line(Shape::TruthAbsorb(Family::AndB, 0), Widths::Alone),
    Line(Shape::TruthUnit(Family::AndB, 1), Widths::Alone),
    Line(Shape::TruthAbsorb(Family::OrB, 1), Widths::Alone),
    Line(Shape::TruthUnit(Family::OrB, 0), Widths::Alone),
    Line(Shape::Same(Family::AndB), Widths::Alone),
    Line(Shape::Same(Family::OrB), Widths::Alone),
];

#[tactic(auto, unfolding(crate::specs::Lines::comparisons))]
pub(crate) fn put_comparisons(alloc: Global, rules: &mut Vec<Rule>) -> Result<(), AllocError>
    ensures { OnOk result (rules.new.items ≡ rules.old.items ++ flat_map rules_of comparisons) }
{
    put(alloc, rules, &COMPARISONS)
}

/// Shifts, extensions, masks, pointers and choices.
const CONVERSIONS: [Line; 21] = [
    Line(Shape::ShiftNone(Family::Lsh), Widths::Pairs),
    Line(Shape::ShiftNone(Family::Rsh), Widths::Pairs),
    Line(Shape::ShiftNone(Family::RshU), Widths::Pairs),
    Line(Shape::SignConst, Widths::To64),
    Line(Shape::SignConst, Widths::To32),
    Line(Shape::ZeroConst, Widths::To64),
    Line(Shape::ZeroConst, Widths::To32),
    Line(Shape::TruncConst, Widths::To64),
    Line(Shape::TruncConst, Widths::To32),
    Line(Shape::TruncExt(Family::SignExt), Widths::To64),
    Line(Shape::TruncExt(Family::ZeroExt), Widths::To64),
    Line(Shape::TruncExt(Family::SignExt), Widths::To32),
    Line(Shape::TruncExt(Family::ZeroExt), Widths::To32),
    Line(Shape::ZeroMask, Widths::Alone),
    Line(Shape::FullMask, Widths::Alone),
    Line(Shape::SignMask, Widths::Alone),
    Line(Shape::NoOffset, Widths::Alone),
    Line(Shape::OffsetTwice, Widths::Alone),
    Line(Shape::AddOffset, Widths::Words),
    Line(Shape::SelectFirst, Widths::Alone),
    Line(Shape::SelectSecond, Widths::Alone),
];

#[tactic(auto, unfolding(crate::specs::Lines::conversions))]
pub(crate) fn put_conversions(alloc: Global, rules: &mut Vec<Rule>) -> Result<(), AllocError>
    ensures { OnOk result (rules.new.items ≡ rules.old.items ++ flat_map rules_of conversions) }
{
    put(alloc, rules, &CONVERSIONS)
}
