// The list, line by line.
ghost use Rattle.std.specs.Prelude.{◌≡◌, ◌++◌, OnOk};
ghost use Rattle.std.specs.List.{flat_map};
ghost use Rattle.bk_rules_words.specs.Lines.{rules_of};
ghost use Rattle.bk_rules_rv.specs.Lines.{arithmetic, shifts, comparisons, conversions, accesses, immediates};

use bk_ops::{Family, RvOp};
use bk_rule::Rule;
use bk_rules_words::{Fits, Line, Shape, Widths, put};
use std::alloc::{AllocError, Global};

// The machine ops of the list.
const CONST: Family = Family::Rv(RvOp::Const);

const ADDR: Family = Family::Rv(RvOp::Addr);

const ADD: Family = Family::Rv(RvOp::Add);

const SUB: Family = Family::Rv(RvOp::Sub);

const MUL: Family = Family::Rv(RvOp::Mul);

const AND: Family = Family::Rv(RvOp::And);

const OR: Family = Family::Rv(RvOp::Or);

const XOR: Family = Family::Rv(RvOp::Xor);

const NEG: Family = Family::Rv(RvOp::Neg);

const XORI: Family = Family::Rv(RvOp::Xori);

const MULH: Family = Family::Rv(RvOp::Mulh);

const MULHU: Family = Family::Rv(RvOp::Mulhu);

const DIV: Family = Family::Rv(RvOp::Div);

const DIVU: Family = Family::Rv(RvOp::Divu);

const REM: Family = Family::Rv(RvOp::Rem);

const REMU: Family = Family::Rv(RvOp::Remu);

const SRAI: Family = Family::Rv(RvOp::Srai);

const SRLI: Family = Family::Rv(RvOp::Srli);

const LSL: Family = Family::Rv(RvOp::Lsl);

const ASR: Family = Family::Rv(RvOp::Asr);

const LSR: Family = Family::Rv(RvOp::Lsr);

const SEQZ: Family = Family::Rv(RvOp::Seqz);

const SNEZ: Family = Family::Rv(RvOp::Snez);

const SLT: Family = Family::Rv(RvOp::Slt);

const SLTU: Family = Family::Rv(RvOp::Sltu);

const ANDI: Family = Family::Rv(RvOp::Andi);

const ROTL: Family = Family::Rv(RvOp::Rotl);

const SEL: Family = Family::Rv(RvOp::Sel);

const LOAD: Family = Family::Rv(RvOp::Load);

const STORE_B: Family = Family::Rv(RvOp::StoreB);

const STORE: Family = Family::Rv(RvOp::Store);

const ZERO: Family = Family::Rv(RvOp::Zero);

const MOVE: Family = Family::Rv(RvOp::Move);

const NIL: Family = Family::Rv(RvOp::Nil);

const ADDI: Family = Family::Rv(RvOp::Addi);

const ORI: Family = Family::Rv(RvOp::Ori);

const SLLI: Family = Family::Rv(RvOp::Slli);

/// Constants, sums, products and quotients.
const ARITHMETIC: [Line; 27] = [
    Line(Shape::Constant(Family::Const, CONST), Widths::Each),
    Line(Shape::Constant(Family::ConstBool, CONST), Widths::Alone),
    Line(Shape::Nil(CONST), Widths::Alone),
    Line(Shape::Address(ADDR), Widths::Alone),
    Line(Shape::Two(Family::Add, ADD), Widths::Each),
    Line(Shape::Two(Family::Sub, SUB), Widths::Each),
    Line(Shape::Two(Family::Mul, MUL), Widths::Each),
    Line(Shape::Two(Family::And, AND), Widths::Each),
    Line(Shape::Two(Family::Or, OR), Widths::Each),
    Line(Shape::Two(Family::Xor, XOR), Widths::Each),
    Line(Shape::One(Family::Neg, NEG), Widths::Each),
    Line(Shape::OneWith(Family::Com, XORI, -1), Widths::Each),
    Line(Shape::Two(Family::AddPtr, ADD), Widths::Alone),
    Line(Shape::Two(Family::SubPtr, SUB), Widths::Alone),
    Line(Shape::Offset(ADD, CONST), Widths::Alone),
    Line(Shape::Two(Family::Hmul, MULH), Widths::At64),
    Line(Shape::Two(Family::Hmulu, MULHU), Widths::At64),
    Line(Shape::Two(Family::Div, DIV), Widths::At64),
    Line(Shape::Two(Family::Divu, DIVU), Widths::At64),
    Line(Shape::Two(Family::Mod, REM), Widths::At64),
    Line(Shape::Two(Family::Modu, REMU), Widths::At64),
    Line(
        Shape::High(Family::Hmul, Family::SignExt, SRAI),
        Widths::Alone,
    ),
    Line(
        Shape::High(Family::Hmulu, Family::ZeroExt, SRLI),
        Widths::Alone,
    ),
    Line(
        Shape::Widen(Family::Div, Family::SignExt, 64),
        Widths::Narrow,
    ),
    Line(
        Shape::Widen(Family::Mod, Family::SignExt, 64),
        Widths::Narrow,
    ),
    Line(
        Shape::Widen(Family::Divu, Family::ZeroExt, 64),
        Widths::Narrow,
    ),
    Line(
        Shape::Widen(Family::Modu, Family::ZeroExt, 64),
        Widths::Narrow,
    ),
];

#[tactic(auto, unfolding(crate::specs::Lines::arithmetic))]
pub(crate) fn put_arithmetic(alloc: Global, rules: &mut Vec<Rule>) -> Result<(), AllocError>
    ensures { OnOk result (rules.new.items ≡ rules.old.items ++ flat_map rules_of arithmetic) }
{
    put(alloc, rules, &ARITHMETIC)
}

/// Shifts.
const SHIFTS: [Line; 8] = [
    Line(
        Shape::WidenShift(Family::Rsh, Family::SignExt, 64),
        Widths::NarrowByEach,
    ),
    Line(
        Shape::WidenShift(Family::RshU, Family::ZeroExt, 64),
        Widths::NarrowByEach,
    ),
    Line(Shape::ShiftCount(Family::Lsh, LSL), Widths::EachByNarrow),
    Line(Shape::Two(Family::Lsh, LSL), Widths::EachBy64),
    Line(Shape::ShiftCount(Family::Rsh, ASR), Widths::At64ByNarrow),
    Line(Shape::Two(Family::Rsh, ASR), Widths::At64By64),
    Line(Shape::ShiftCount(Family::RshU, LSR), Widths::At64ByNarrow),
    Line(Shape::Two(Family::RshU, LSR), Widths::At64By64),
];

#[tactic(auto, unfolding(crate::specs::Lines::shifts))]
pub(crate) fn put_shifts(alloc: Global, rules: &mut Vec<Rule>) -> Result<(), AllocError>
    ensures { OnOk result (rules.new.items ≡ rules.old.items ++ flat_map rules_of shifts) }
{
    put(alloc, rules, &SHIFTS)
}

/// Comparisons and truth values.
const COMPARISONS: [Line; 23] = [
    Line(Shape::Test(Family::Eq, SEQZ), Widths::At64),
    Line(Shape::TestLow(Family::Eq, SEQZ), Widths::Narrow),
    Line(Shape::Test(Family::Neq, SNEZ), Widths::At64),
    Line(Shape::TestLow(Family::Neq, SNEZ), Widths::Narrow),
    Line(Shape::Test(Family::EqPtr, SEQZ), Widths::Alone),
    Line(Shape::Test(Family::NeqPtr, SNEZ), Widths::Alone),
    Line(Shape::Two(Family::Less, SLT), Widths::At64),
    Line(Shape::Two(Family::LessU, SLTU), Widths::At64),
    Line(Shape::Two(Family::IsInBounds, SLTU), Widths::Alone),
    Line(Shape::AtMost(Family::Leq, SLT), Widths::At64),
    Line(Shape::AtMost(Family::LeqU, SLTU), Widths::At64),
    Line(Shape::AtMost(Family::IsSliceInBounds, SLTU), Widths::Alone),
    Line(
        Shape::Widen(Family::Less, Family::SignExt, 64),
        Widths::Narrow,
    ),
    Line(
        Shape::Widen(Family::Leq, Family::SignExt, 64),
        Widths::Narrow,
    ),
    Line(
        Shape::Widen(Family::LessU, Family::ZeroExt, 64),
        Widths::Narrow,
    ),
    Line(
        Shape::Widen(Family::LeqU, Family::ZeroExt, 64),
        Widths::Narrow,
    ),
    Line(Shape::One(Family::IsNonNil, SNEZ), Widths::Alone),
    Line(Shape::Two(Family::AndB, AND), Widths::Alone),
    Line(Shape::Two(Family::OrB, OR), Widths::Alone),
    Line(Shape::Two(Family::NeqB, XOR), Widths::Alone),
    Line(Shape::EqualBools(XOR, XORI), Widths::Alone),
    Line(Shape::OneWith(Family::Not, XORI, 1), Widths::Alone),
    Line(Shape::OneWith(Family::CvtBoolToUint8, ANDI, 1), Widths::At8),
];

#[tactic(auto, unfolding(crate::specs::Lines::comparisons))]
pub(crate) fn put_comparisons(alloc: Global, rules: &mut Vec<Rule>) -> Result<(), AllocError>
    ensures { OnOk result (rules.new.items ≡ rules.old.items ++ flat_map rules_of comparisons) }
{
    put(alloc, rules, &COMPARISONS)
}

/// Extensions, masks, rotations and choices.
const CONVERSIONS: [Line; 8] = [
    Line(Shape::Extend(Family::SignExt, SRAI), Widths::Rising),
    Line(Shape::Extend(Family::ZeroExt, SRLI), Widths::Rising),
    Line(Shape::Truncate, Widths::Falling),
    Line(Shape::SignMask, Widths::Alone),
    Line(Shape::ZeroMask, Widths::Alone),
    Line(Shape::Two(Family::RotateLeft, ROTL), Widths::At64),
    Line(Shape::RotateHalf, Widths::Alone),
    Line(Shape::Three(Family::CondSelect, SEL), Widths::Alone),
];

#[tactic(auto, unfolding(crate::specs::Lines::conversions))]
pub(crate) fn put_conversions(alloc: Global, rules: &mut Vec<Rule>) -> Result<(), AllocError>
    ensures { OnOk result (rules.new.items ≡ rules.old.items ++ flat_map rules_of conversions) }
{
    put(alloc, rules, &CONVERSIONS)
}

/// Loads, stores and checks.
const ACCESSES: [Line; 7] = [
    Line(Shape::Load(LOAD), Widths::UpTo8),
    Line(Shape::StoreBool(STORE_B), Widths::Alone),
    Line(Shape::Store(STORE), Widths::UpTo8),
    Line(Shape::Zero(ZERO), Widths::Alone),
    Line(Shape::Move(MOVE), Widths::Alone),
    Line(Shape::Two(Family::NilCheck, NIL), Widths::Alone),
    Line(Shape::Panic, Widths::Alone),
];

#[tactic(auto, unfolding(crate::specs::Lines::accesses))]
pub(crate) fn put_accesses(alloc: Global, rules: &mut Vec<Rule>) -> Result<(), AllocError>
    ensures { OnOk result (rules.new.items ≡ rules.old.items ++ flat_map rules_of accesses) }
{
    put(alloc, rules, &ACCESSES)
}

/// Constants beside machine ops.
const IMMEDIATES: [Line; 10] = [
    Line(
        Shape::Immediate(ADD, CONST, ADDI, Fits::Is12),
        Widths::Alone,
    ),
    Line(
        Shape::Immediate(AND, CONST, ANDI, Fits::Is12),
        Widths::Alone,
    ),
    Line(Shape::Immediate(OR, CONST, ORI, Fits::Is12), Widths::Alone),
    Line(
        Shape::Immediate(XOR, CONST, XORI, Fits::Is12),
        Widths::Alone,
    ),
    Line(
        Shape::Immediate(LSL, CONST, SLLI, Fits::Below(64)),
        Widths::Alone,
    ),
    Line(
        Shape::Immediate(LSR, CONST, SRLI, Fits::Below(64)),
        Widths::Alone,
    ),
    Line(
        Shape::Immediate(ASR, CONST, SRAI, Fits::Below(64)),
        Widths::Alone,
    ),
    Line(Shape::LoadNear(LOAD, ADDI, Fits::Is12), Widths::UpTo8),
    Line(Shape::StoreNear(STORE, ADDI, Fits::Is12), Widths::UpTo8),
    Line(Shape::StoreNear(STORE_B, ADDI, Fits::Is12), Widths::Alone),
];

#[tactic(auto, unfolding(crate::specs::Lines::immediates))]
pub(crate) fn put_immediates(alloc: Global, rules: &mut Vec<Rule>) -> Result<(), AllocError>
    ensures { OnOk result (rules.new.items ≡ rules.old.items ++ flat_map rules_of immediates) }
{
    put(alloc, rules, &IMMEDIATES)
}
