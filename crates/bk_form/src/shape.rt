// What the places of an op take and what it gives.
ghost use Rattle.std.specs.Prelude.{◌≡◌, ◌≢◌, ◌↔◌, IsTrue};
ghost use Rattle.bk_ops.specs.Table.{is_op};
ghost use Rattle.bk_ops.specs.Types.{width_of, word_width as bits_of_word};
ghost use Rattle.bk_func.specs.Form.Shapes.{slot, words_and_memory, is_last, first_else};
ghost use Rattle.bk_form.specs.Slots.{seen_slot};

use bk_ops::{Class, Family, Op, Target, Ty, op_info, width};

/// What a place of an op takes.
#[derive(Clone, Copy, PartialEq, Eq)]
pub(crate) enum Slot {
    /// A number of so many bits.
    Bits(u8),
    /// A machine word.
    Word,
    Bool,
    Mem,
    /// What the value itself has.
    Same,
    /// What the value stores.
    Stored,
    /// The base of the variables.
    Base,
    /// A call.
    Call,
    /// A word of an argument of a call.
    Argument,
    /// A word of a result of the function.
    Result,
}

/// What the op takes at this place, where the op alone says it.
#[tactic(auto, unfolding(bk_func::specs::Form::Shapes::slot))]
pub(crate) fn slot_of(op: Op, index: usize) -> Slot
    ensures { seen_slot result ≡ slot op op.family index }
{
    match op.family {
        Family::Lsh | Family::Rsh | Family::RshU => at(index, Slot::Bits(op.a), Slot::Bits(op.b)),
        Family::RotateLeft => at(index, Slot::Bits(op.a), Slot::Word),
        Family::CondSelect => if index == 2 { Slot::Bool } else { Slot::Same },
        Family::Phi | Family::Copy => Slot::Same,
        Family::EqB
        | Family::NeqB
        | Family::AndB
        | Family::OrB
        | Family::Not
        | Family::CvtBoolToUint8 => Slot::Bool,
        Family::EqPtr
        | Family::NeqPtr
        | Family::IsNonNil
        | Family::IsInBounds
        | Family::IsSliceInBounds => Slot::Word,
        Family::AddPtr | Family::SubPtr | Family::OffPtr => Slot::Word,
        Family::Signmask | Family::Zeromask | Family::Ctz32 | Family::BitLen32 => Slot::Bits(32),
        Family::Int64Make | Family::AddHi32 | Family::SubHi32 => Slot::Bits(32),
        Family::Int64Hi | Family::Int64Lo => Slot::Bits(64),
        Family::Addr => Slot::Base,
        Family::SelectN | Family::ResWord | Family::ResReg => Slot::Call,
        Family::Store => if index == 1 {
            Slot::Stored
        } else {
            words_and_memory(op, index)
        },
        Family::Load | Family::Zero | Family::Move | Family::NilCheck => words_and_memory(
            op, index,
        ),
        Family::PanicBounds | Family::Arm(_) | Family::Rv(_) => words_and_memory(op, index),
        Family::OutWord => at(index, Slot::Argument, Slot::Mem),
        Family::RetWord => at(index, Slot::Result, Slot::Mem),
        Family::Call | Family::Trap => Slot::Mem,
        // Ops of one width, and ops without arguments or with those of a signature.
        Family::Const | Family::ConstBool | Family::ConstNil => Slot::Bits(op.a),
        Family::Add | Family::Sub | Family::Mul | Family::And | Family::Or | Family::Xor =>
            Slot::Bits(op.a),
        Family::Neg | Family::Com | Family::Div | Family::Divu | Family::Mod | Family::Modu =>
            Slot::Bits(op.a),
        Family::Hmul | Family::Hmulu | Family::Eq | Family::Neq => Slot::Bits(op.a),
        Family::Less | Family::LessU | Family::Leq | Family::LeqU => Slot::Bits(op.a),
        Family::SignExt | Family::ZeroExt | Family::Trunc => Slot::Bits(op.a),
        Family::Arg | Family::InitMem | Family::Sp | Family::Sb => Slot::Bits(op.a),
        Family::StaticLECall | Family::MakeResult | Family::ArgWord => Slot::Bits(op.a),
        Family::ArgReg | Family::CallRegs | Family::RetRegs => Slot::Bits(op.a),
    }
}

fn at(index: usize, first: Slot, second: Slot) -> Slot
    ensures { seen_slot result ≡ first_else index (seen_slot first) (seen_slot second) }
{
    if index == 0 { first } else { second }
}

/// Words, with memory last where the op takes memory.
fn words_and_memory(op: Op, index: usize) -> Slot
    ensures { seen_slot result ≡ words_and_memory op index }
{
    let info = op_info(op);
    if info.memory && is_last(info.arity, index) {
        Slot::Mem
    } else {
        Slot::Word
    }
}

fn is_last(arity: Option<u8>, index: usize) -> bool
    ensures { result ≡ is_last arity index }
{
    match arity {
        Some(arity) => index.checked_add(1) == Some(arity as usize),
        None => false,
    }
}

/// Whether values of the type are numbers or truth values, which stand in machine words.
pub(crate) fn is_data(ty: Ty, target: Target) -> bool
    ensures { IsTrue result ↔ (width_of ty target ≢ 0) }
{
    width(ty, target) != 0
}

/// Types of numbers are told apart by their widths alone.
pub(crate) fn alike(one: Ty, other: Ty, target: Target) -> bool
    ensures { IsTrue result ↔ (width_of one target ≢ 0) × (width_of other target ≡ width_of one target) }
{
    is_data(one, target) && width(other, target) == width(one, target)
}

/// The bits of a machine word.
pub(crate) fn word_width(target: Target) -> u32
    ensures { result ≡ bits_of_word target }
{
    width(Ty::Uintptr, target)
}

/// Whether some name has the op: what no name has takes and gives nothing.
pub(crate) fn is_op(op: Op) -> bool
    ensures { result ≡ is_op op.family op.a op.b }
{
    let info = op_info(op);
    match info.result {
        Class::Void => info.arity.is_some(),
        _ => true,
    }
}
