// The rows of the op table by the length of their heads, so that a name is compared with few rows.
ghost use Rattle.std.specs.Prelude.{◌≡◌};
ghost use Rattle.bk_ops.specs.Reading.{families_of};

use crate::{ArmOp, Family, RvOp};

static LENGTH_2: [Family; 4] = [Family::Or, Family::Eq, Family::Sp, Family::Sb];

static LENGTH_3: [Family; 26] = [
    Family::Add,
    Family::Sub,
    Family::Mul,
    Family::And,
    Family::Xor,
    Family::Neg,
    Family::Com,
    Family::Div,
    Family::Divu,
    Family::Mod,
    Family::Modu,
    Family::Lsh,
    Family::Rsh,
    Family::RshU,
    Family::Neq,
    Family::Leq,
    Family::LeqU,
    Family::EqB,
    Family::OrB,
    Family::Not,
    Family::Ctz32,
    Family::Int64Make,
    Family::Int64Hi,
    Family::Int64Lo,
    Family::Phi,
    Family::Arg,
];

static LENGTH_4: [Family; 14] = [
    Family::Hmul,
    Family::Hmulu,
    Family::Less,
    Family::LessU,
    Family::NeqB,
    Family::AndB,
    Family::Copy,
    Family::Addr,
    Family::Load,
    Family::Zero,
    Family::Move,
    Family::Call,
    Family::Trap,
    Family::Rv(RvOp::Or),
];

static LENGTH_5: [Family; 21] = [
    Family::Const,
    Family::EqPtr,
    Family::Trunc,
    Family::AddHi32,
    Family::SubHi32,
    Family::Store,
    Family::Rv(RvOp::Add),
    Family::Rv(RvOp::Sub),
    Family::Rv(RvOp::Mul),
    Family::Rv(RvOp::And),
    Family::Rv(RvOp::Xor),
    Family::Rv(RvOp::Div),
    Family::Rv(RvOp::Rem),
    Family::Rv(RvOp::Slt),
    Family::Rv(RvOp::Lsl),
    Family::Rv(RvOp::Lsr),
    Family::Rv(RvOp::Asr),
    Family::Rv(RvOp::Neg),
    Family::Rv(RvOp::Sel),
    Family::Rv(RvOp::Ori),
    Family::Rv(RvOp::Nil),
];

static LENGTH_6: [Family; 37] = [
    Family::NeqPtr,
    Family::BitLen32,
    Family::AddPtr,
    Family::SubPtr,
    Family::OffPtr,
    Family::ArgReg,
    Family::ResReg,
    Family::Arm(ArmOp::Add),
    Family::Arm(ArmOp::Sub),
    Family::Arm(ArmOp::Mul),
    Family::Arm(ArmOp::And),
    Family::Arm(ArmOp::Orr),
    Family::Arm(ArmOp::Eor),
    Family::Arm(ArmOp::Lsl),
    Family::Arm(ArmOp::Lsr),
    Family::Arm(ArmOp::Asr),
    Family::Arm(ArmOp::Mvn),
    Family::Arm(ArmOp::Ctz),
    Family::Arm(ArmOp::Sel),
    Family::Arm(ArmOp::Nil),
    Family::Rv(RvOp::Addr),
    Family::Rv(RvOp::Mulh),
    Family::Rv(RvOp::Divu),
    Family::Rv(RvOp::Remu),
    Family::Rv(RvOp::Sltu),
    Family::Rv(RvOp::Rotl),
    Family::Rv(RvOp::Seqz),
    Family::Rv(RvOp::Snez),
    Family::Rv(RvOp::Addi),
    Family::Rv(RvOp::Andi),
    Family::Rv(RvOp::Xori),
    Family::Rv(RvOp::Slli),
    Family::Rv(RvOp::Srli),
    Family::Rv(RvOp::Srai),
    Family::Rv(RvOp::Load),
    Family::Rv(RvOp::Zero),
    Family::Rv(RvOp::Move),
];

static LENGTH_7: [Family; 34] = [
    Family::SignExt,
    Family::ZeroExt,
    Family::InitMem,
    Family::SelectN,
    Family::ArgWord,
    Family::ResWord,
    Family::OutWord,
    Family::RetWord,
    Family::RetRegs,
    Family::Arm(ArmOp::Addr),
    Family::Arm(ArmOp::Sdiv),
    Family::Arm(ArmOp::Udiv),
    Family::Arm(ArmOp::Smod),
    Family::Arm(ArmOp::Umod),
    Family::Arm(ArmOp::Rotl),
    Family::Arm(ArmOp::Rsb0),
    Family::Arm(ArmOp::Sxtb),
    Family::Arm(ArmOp::Sxth),
    Family::Arm(ArmOp::Uxtb),
    Family::Arm(ArmOp::Uxth),
    Family::Arm(ArmOp::Blen),
    Family::Arm(ArmOp::Addi),
    Family::Arm(ArmOp::Subi),
    Family::Arm(ArmOp::Andi),
    Family::Arm(ArmOp::Eori),
    Family::Arm(ArmOp::Lsli),
    Family::Arm(ArmOp::Lsri),
    Family::Arm(ArmOp::Asri),
    Family::Arm(ArmOp::Load),
    Family::Arm(ArmOp::Zero),
    Family::Arm(ArmOp::Move),
    Family::Rv(RvOp::Const),
    Family::Rv(RvOp::Mulhu),
    Family::Rv(RvOp::Store),
];

static LENGTH_8: [Family; 20] = [
    Family::ConstNil,
    Family::IsNonNil,
    Family::Signmask,
    Family::Zeromask,
    Family::NilCheck,
    Family::CallRegs,
    Family::Arm(ArmOp::Const),
    Family::Arm(ArmOp::Smulh),
    Family::Arm(ArmOp::Umulh),
    Family::Arm(ArmOp::SetEq),
    Family::Arm(ArmOp::SetNe),
    Family::Arm(ArmOp::SetLt),
    Family::Arm(ArmOp::SetLe),
    Family::Arm(ArmOp::SetLo),
    Family::Arm(ArmOp::SetLs),
    Family::Arm(ArmOp::Zmask),
    Family::Arm(ArmOp::AddHi),
    Family::Arm(ArmOp::SubHi),
    Family::Arm(ArmOp::Store),
    Family::Rv(RvOp::StoreB),
];

static LENGTH_9: [Family; 2] = [Family::ConstBool, Family::Arm(ArmOp::StoreB)];

static LENGTH_10: [Family; 4] = [
    Family::IsInBounds,
    Family::RotateLeft,
    Family::CondSelect,
    Family::MakeResult,
];

static LENGTH_11: [Family; 1] = [Family::PanicBounds];

static LENGTH_12: [Family; 1] = [Family::StaticLECall];

static LENGTH_13: [Family; 1] = [Family::CvtBoolToUint8];

static LENGTH_15: [Family; 1] = [Family::IsSliceInBounds];

/// The families whose names begin with a head of this length.
#[tactic(auto, unfolding(crate::specs::Reading::families_of))]
pub(crate) fn families(length: usize) -> &'static [Family]
    ensures { result.now ≡ families_of length }
{
    match length {
        2 => &LENGTH_2,
        3 => &LENGTH_3,
        4 => &LENGTH_4,
        5 => &LENGTH_5,
        6 => &LENGTH_6,
        7 => &LENGTH_7,
        8 => &LENGTH_8,
        9 => &LENGTH_9,
        10 => &LENGTH_10,
        11 => &LENGTH_11,
        12 => &LENGTH_12,
        13 => &LENGTH_13,
        15 => &LENGTH_15,
        _ => &[],
    }
}
