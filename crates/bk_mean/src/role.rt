// What a value is to a run: where its number comes from, and what it does.
ghost use Rattle.std.specs.Prelude.{◌≡◌};
ghost use Rattle.bk_func.specs.Numbers.{origin_of as meant_origin, natural as meant_natural};
ghost use Rattle.bk_func.specs.Effects.{effect_of as meant_effect};
ghost use Rattle.bk_mean.specs.Seen.{seen_origin, seen_effects};

use bk_ops::{ArmOp, Family, RvOp, Ty};

/// Where the number of a value comes from.
#[derive(Clone, Copy, PartialEq, Eq, Debug)]
pub(crate) enum Origin {
    /// The edge that its block is entered by.
    Phi,
    Argument,
    ArgumentWord,
    /// A call.
    Result,
    /// The place of a variable.
    Address,
    Loaded,
    /// A nil check: its number is that of what it checks.
    Checked,
    /// The number of its argument.
    Same,
    /// Its op, at the numbers of its arguments.
    Computed,
}

/// What a memory value does that another one stands before.
#[derive(Clone, Copy, PartialEq, Eq, Debug)]
pub(crate) enum Effect {
    Store,
    Zeros,
    Move,
    PanicBounds,
    Call,
    CallWords,
    OutWord,
    RetWord,
    RetWords,
    Trap,
    /// Nothing: the memory that a call gives.
    Pass,
}

pub(crate) fn origin_of(family: Family) -> Origin
    ensures { seen_origin result ≡ meant_origin family }
{
    match family {
        Family::Phi => Origin::Phi,
        Family::Arg => Origin::Argument,
        Family::ArgWord | Family::ArgReg => Origin::ArgumentWord,
        Family::SelectN | Family::ResWord | Family::ResReg => Origin::Result,
        Family::Addr | Family::Arm(ArmOp::Addr) | Family::Rv(RvOp::Addr) => Origin::Address,
        Family::Load | Family::Arm(ArmOp::Load) | Family::Rv(RvOp::Load) => Origin::Loaded,
        Family::NilCheck | Family::Arm(ArmOp::Nil) | Family::Rv(RvOp::Nil) => Origin::Checked,
        Family::Copy => Origin::Same,
        _ => Origin::Computed,
    }
}

pub(crate) fn effect_of(family: Family, ty: Ty) -> Option<Effect>
    ensures { seen_effects result ≡ meant_effect family ty }
{
    match family {
        Family::Store => Some(Effect::Store),
        Family::Arm(ArmOp::Store | ArmOp::StoreB) => Some(Effect::Store),
        Family::Rv(RvOp::Store | RvOp::StoreB) => Some(Effect::Store),
        Family::Zero | Family::Arm(ArmOp::Zero) | Family::Rv(RvOp::Zero) => Some(Effect::Zeros),
        Family::Move | Family::Arm(ArmOp::Move) | Family::Rv(RvOp::Move) => Some(Effect::Move),
        Family::PanicBounds => Some(Effect::PanicBounds),
        Family::StaticLECall => Some(Effect::Call),
        Family::Call | Family::CallRegs => Some(Effect::CallWords),
        Family::OutWord => Some(Effect::OutWord),
        Family::RetWord => Some(Effect::RetWord),
        Family::RetRegs => Some(Effect::RetWords),
        Family::Trap => Some(Effect::Trap),
        Family::SelectN if ty == Ty::Mem => Some(Effect::Pass),
        _ => None,
    }
}

/// The number beside an op as a count, 0 where it is negative.
pub(crate) fn natural(int: i64) -> u64
    ensures { result ≡ meant_natural int }
{
    if int < 0 { 0 } else { int.cast_unsigned() }
}
