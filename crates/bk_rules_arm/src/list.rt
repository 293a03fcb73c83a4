// The list, line by line.
ghost use Rattle.std.specs.Prelude.{◌≡◌, ◌++◌, OnOk};
ghost use Rattle.std.specs.List.{flat_map};
ghost use Rattle.bk_rules_words.specs.Lines.{rules_of};
ghost use Rattle.bk_rules_arm.specs.Lines.{arithmetic, shifts, comparisons, conversions, accesses, immediates};

use bk_ops::{ArmOp, Family};
use bk_rule::Rule;
use bk_rules_words::{Fits, Line, Shape, Widths, put};
use std::alloc::{AllocError, Global};

// The machine ops of the list.
const CONST: Family = Family::Arm(ArmOp::Const);

const ADDR: Family = Family::Arm(ArmOp::Addr);

const ADD: Family = Family::Arm(ArmOp::Add);

const SUB: Family = Family::Arm(ArmOp::Sub);

const MUL: Family = Family::Arm(ArmOp::Mul);

const AND: Family = Family::Arm(ArmOp::And);

const ORR: Family = Family::Arm(ArmOp::Orr);

const EOR: Family = Family::Arm(ArmOp::Eor);

const RSB0: Family = Family::Arm(ArmOp::Rsb0);

const MVN: Family = Family::Arm(ArmOp::Mvn);

const SMULH: Family = Family::Arm(ArmOp::Smulh);

const UMULH: Family = Family::Arm(ArmOp::Umulh);

const SDIV: Family = Family::Arm(ArmOp::Sdiv);

const UDIV: Family = Family::Arm(ArmOp::Udiv);

const SMOD: Family = Family::Arm(ArmOp::Smod);

const UMOD: Family = Family::Arm(ArmOp::Umod);

const LSL: Family = Family::Arm(ArmOp::Lsl);

const LSR: Family = Family::Arm(ArmOp::Lsr);

const ASR: Family = Family::Arm(ArmOp::Asr);

const SET_EQ: Family = Family::Arm(ArmOp::SetEq);

const SET_NE: Family = Family::Arm(ArmOp::SetNe);

const SET_LT: Family = Family::Arm(ArmOp::SetLt);

const SET_LE: Family = Family::Arm(ArmOp::SetLe);

const SET_LO: Family = Family::Arm(ArmOp::SetLo);

const SET_LS: Family = Family::Arm(ArmOp::SetLs);

const EORI: Family = Family::Arm(ArmOp::Eori);

const ANDI: Family = Family::Arm(ArmOp::Andi);

const SXTB: Family = Family::Arm(ArmOp::Sxtb);

const SXTH: Family = Family::Arm(ArmOp::Sxth);

const UXTB: Family = Family::Arm(ArmOp::Uxtb);

const UXTH: Family = Family::Arm(ArmOp::Uxth);

const ASRI: Family = Family::Arm(ArmOp::Asri);

const ZMASK: Family = Family::Arm(ArmOp::Zmask);

const CTZ: Family = Family::Arm(ArmOp::Ctz);

const BLEN: Family = Family::Arm(ArmOp::Blen);

const ROTL: Family = Family::Arm(ArmOp::Rotl);

const SEL: Family = Family::Arm(ArmOp::Sel);

const ADD_HI: Family = Family::Arm(ArmOp::AddHi);

const SUB_HI: Family = Family::Arm(ArmOp::SubHi);

const LOAD: Family = Family::Arm(ArmOp::Load);

const STORE_B: Family = Family::Arm(ArmOp::StoreB);

const STORE: Family = Family::Arm(ArmOp::Store);

const ZERO: Family = Family::Arm(ArmOp::Zero);

const MOVE: Family = Family::Arm(ArmOp::Move);

const NIL: Family = Family::Arm(ArmOp::Nil);

const ADDI: Family = Family::Arm(ArmOp::Addi);

const SUBI: Family = Family::Arm(ArmOp::Subi);

const LSLI: Family = Family::Arm(ArmOp::Lsli);

const LSRI: Family = Family::Arm(ArmOp::Lsri);

/// Constants, sums, products and quotients.
const ARITHMETIC: [Line; 25] = [
    Line(Shape::Constant(Family::Const, CONST), Widths::Narrow),
    Line(Shape::Constant(Family::ConstBool, CONST), Widths::Alone),
    Line(Shape::Nil(CONST), Widths::Alone),
    Line(Shape::Address(ADDR), Widths::Alone),
    Line(Shape::Two(Family::Add, ADD), Widths::Narrow),
    Line(Shape::Two(Family::Sub, SUB), Widths::Narrow),
    Line(Shape::Two(Family::Mul, MUL), Widths::Narrow),
    Line(Shape::Two(Family::And, AND), Widths::Narrow),
    Line(Shape::Two(Family::Or, ORR), Widths::Narrow),
    Line(Shape::Two(Family::Xor, EOR), Widths::Narrow),
    Line(Shape::One(Family::Neg, RSB0), Widths::Narrow),
    Line(Shape::One(Family::Com, MVN), Widths::Narrow),
    Line(Shape::Two(Family::AddPtr, ADD), Widths::Alone),
    Line(Shape::Two(Family::SubPtr, SUB), Widths::Alone),
    Line(Shape::Offset(ADD, CONST), Widths::Alone),
    Line(Shape::Two(Family::Hmul, SMULH), Widths::At32),
    Line(Shape::Two(Family::Hmulu, UMULH), Widths::At32),
    Line(Shape::Two(Family::Div, SDIV), Widths::At32),
    Line(Shape::Two(Family::Divu, UDIV), Widths::At32),
    Line(Shape::Two(Family::Mod, SMOD), Widths::At32),
    Line(Shape::Two(Family::Modu, UMOD), Widths::At32),
    Line(
        Shape::Widen(Family::Div, Family::SignExt, 32),
        Widths::Small,
    ),
    Line(
        Shape::Widen(Family::Mod, Family::SignExt, 32),
        Widths::Small,
    ),
    Line(
        Shape::Widen(Family::Divu, Family::ZeroExt, 32),
        Widths::Small,
    ),
    Line(
        Shape::Widen(Family::Modu, Family::ZeroExt, 32),
        Widths::Small,
    ),
];

#[tactic(auto, unfolding(crate::specs::Lines::arithmetic))]
pub(crate) fn put_arithmetic(alloc: Global, rules: &mut Vec<Rule>) -> Result<(), AllocError>
    ensures { OnOk result (rules.new.items ≡ rules.old.items ++ flat_map rules_of arithmetic) }
{
    put(alloc, rules, &ARITHMETIC)
}

/// Shifts.
const SHIFTS: [Line; 9] = [
    Line(Shape::WidenCount(Family::Lsh, 32), Widths::NarrowBySmall),
    Line(Shape::WidenCount(Family::Rsh, 32), Widths::NarrowBySmall),
    Line(Shape::WidenCount(Family::RshU, 32), Widths::NarrowBySmall),
    Line(Shape::AsWide(Family::Lsh, 32), Widths::SmallBy32),
    Line(
        Shape::WidenShift(Family::Rsh, Family::SignExt, 32),
        Widths::SmallBy32,
    ),
    Line(
        Shape::WidenShift(Family::RshU, Family::ZeroExt, 32),
        Widths::SmallBy32,
    ),
    Line(Shape::Two(Family::Lsh, LSL), Widths::At32By32),
    Line(Shape::Two(Family::RshU, LSR), Widths::At32By32),
    Line(Shape::Two(Family::Rsh, ASR), Widths::At32By32),
];

#[tactic(auto, unfolding(crate::specs::Lines::shifts))]
pub(crate) fn put_shifts(alloc: Global, rules: &mut Vec<Rule>) -> Result<(), AllocError>
    ensures { OnOk result (rules.new.items ≡ rules.old.items ++ flat_map rules_of shifts) }
{
    put(alloc, rules, &SHIFTS)
}

/// Comparisons and truth values.
const COMPARISONS: [Line; 23] = [
    Line(Shape::Widen(Family::Eq, Family::ZeroExt, 32), Widths::Small),
    Line(
        Shape::Widen(Family::Neq, Family::ZeroExt, 32),
        Widths::Small,
    ),
    Line(
        Shape::Widen(Family::Less, Family::SignExt, 32),
        Widths::Small,
    ),
    Line(
        Shape::Widen(Family::Leq, Family::SignExt, 32),
        Widths::Small,
    ),
    Line(
        Shape::Widen(Family::LessU, Family::ZeroExt, 32),
        Widths::Small,
    ),
    Line(
        Shape::Widen(Family::LeqU, Family::ZeroExt, 32),
        Widths::Small,
    ),
    Line(Shape::Two(Family::Eq, SET_EQ), Widths::At32),
    Line(Shape::Two(Family::Neq, SET_NE), Widths::At32),
    Line(Shape::Two(Family::Less, SET_LT), Widths::At32),
    Line(Shape::Two(Family::Leq, SET_LE), Widths::At32),
    Line(Shape::Two(Family::LessU, SET_LO), Widths::At32),
    Line(Shape::Two(Family::LeqU, SET_LS), Widths::At32),
    Line(Shape::Two(Family::EqPtr, SET_EQ), Widths::Alone),
    Line(Shape::Two(Family::NeqPtr, SET_NE), Widths::Alone),
    Line(Shape::Two(Family::IsInBounds, SET_LO), Widths::Alone),
    Line(Shape::Two(Family::IsSliceInBounds, SET_LS), Widths::Alone),
    Line(Shape::NotNil(SET_NE, CONST), Widths::Alone),
    Line(Shape::Two(Family::AndB, AND), Widths::Alone),
    Line(Shape::Two(Family::OrB, ORR), Widths::Alone),
    Line(Shape::Two(Family::NeqB, EOR), Widths::Alone),
    Line(Shape::EqualBools(EOR, EORI), Widths::Alone),
    Line(Shape::OneWith(Family::Not, EORI, 1), Widths::Alone),
    Line(Shape::OneWith(Family::CvtBoolToUint8, ANDI, 1), Widths::At8),
];

#[tactic(auto, unfolding(crate::specs::Lines::comparisons))]
pub(crate) fn put_comparisons(alloc: Global, rules: &mut Vec<Rule>) -> Result<(), AllocError>
    ensures { OnOk result (rules.new.items ≡ rules.old.items ++ flat_map rules_of comparisons) }
{
    put(alloc, rules, &COMPARISONS)
}

/// Extensions, masks, bits, rotations, choices and halves.
const CONVERSIONS: [Line; 13] = [
    Line(Shape::One(Family::SignExt, SXTB), Widths::From8),
    Line(Shape::One(Family::SignExt, SXTH), Widths::From16),
    Line(Shape::One(Family::ZeroExt, UXTB), Widths::From8),
    Line(Shape::One(Family::ZeroExt, UXTH), Widths::From16),
    Line(Shape::Truncate, Widths::FallingTo32),
    Line(Shape::OneWith(Family::Signmask, ASRI, 31), Widths::Alone),
    Line(Shape::One(Family::Zeromask, ZMASK), Widths::Alone),
    Line(Shape::One(Family::Ctz32, CTZ), Widths::At32),
    Line(Shape::One(Family::BitLen32, BLEN), Widths::At32),
    Line(Shape::Two(Family::RotateLeft, ROTL), Widths::At32),
    Line(Shape::Three(Family::CondSelect, SEL), Widths::Alone),
    Line(Shape::Four(Family::AddHi32, ADD_HI), Widths::At32),
    Line(Shape::Four(Family::SubHi32, SUB_HI), Widths::At32),
];

#[tactic(auto, unfolding(crate::specs::Lines::conversions))]
pub(crate) fn put_conversions(alloc: Global, rules: &mut Vec<Rule>) -> Result<(), AllocError>
    ensures { OnOk result (rules.new.items ≡ rules.old.items ++ flat_map rules_of conversions) }
{
    put(alloc, rules, &CONVERSIONS)
}

/// Loads, stores and checks.
const ACCESSES: [Line; 7] = [
    Line(Shape::Load(LOAD), Widths::UpTo4),
    Line(Shape::StoreBool(STORE_B), Widths::Alone),
    Line(Shape::Store(STORE), Widths::UpTo4),
    Line(Shape::Zero(ZERO), Widths::Alone),
    Line(Shape::Move(MOVE), Widths::Alone),
    Line(Shape::Two(Family::NilCheck, NIL), Widths::Alone),
    Line(Shape::Panic, Widths::Alone),
];

#[tactic(auto, unfolding(crate::specs::Lines::accesses))]
pub(crate) fn put_accesses(alloc: Global, rules: &mut Vec<Rule>) -> Result<(), AllocError>
    ensures { OnOk result (rules.new.items ≡ rules.old.items ++ flat_map rules_of accesses) }
{
    put(alloc, rules, &ACCESSES)
}

/// Constants beside machine ops.
const IMMEDIATES: [Line; 10] = [
    Line(
        Shape::Immediate(ADD, CONST, ADDI, Fits::ArmImm),
        Widths::Alone,
    ),
    Line(
        Shape::Negated(ADD, CONST, SUBI, Fits::ArmImm),
        Widths::Alone,
    ),
    Line(
        Shape::Immediate(AND, CONST, ANDI, Fits::ArmImm),
        Widths::Alone,
    ),
    Line(
        Shape::Immediate(EOR, CONST, EORI, Fits::ArmImm),
        Widths::Alone,
    ),
    Line(
        Shape::Immediate(LSL, CONST, LSLI, Fits::Below(32)),
        Widths::Alone,
    ),
    Line(
        Shape::Immediate(LSR, CONST, LSRI, Fits::FromOne(31)),
        Widths::Alone,
    ),
    Line(
        Shape::Immediate(ASR, CONST, ASRI, Fits::FromOne(31)),
        Widths::Alone,
    ),
    Line(Shape::LoadNear(LOAD, ADDI, Fits::Below(256)), Widths::UpTo4),
    Line(
        Shape::StoreNear(STORE, ADDI, Fits::Below(256)),
        Widths::UpTo4,
    ),
    Line(
        Shape::StoreNear(STORE_B, ADDI, Fits::Below(256)),
        Widths::Alone,
    ),
];

#[tactic(auto, unfolding(crate::specs::Lines::immediates))]
pub(crate) fn put_immediates(alloc: Global, rules: &mut Vec<Rule>) -> Result<(), AllocError>
    ensures { OnOk result (rules.new.items ≡ rules.old.items ++ flat_map rules_of immediates) }
{
    put(alloc, rules, &IMMEDIATES)
}
