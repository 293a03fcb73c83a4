// The op table, and what it says of an op.
ghost use Rattle.std.specs.Prelude.{◌≡◌};
ghost use Rattle.bk_ops.specs.Table.{seen, entry, row, arm_row, rv_row, allows, info_of};

use crate::{ArmOp, Family, RvOp};

/// An op: a row of the op table, and the widths in its name.
///
/// `a` is the first number in the name and `b` the second, 0 where there is none: `Lsh32x8` has 32 and 8,
/// `Int64Make` has 64 and 0. They are bits, but at a machine's loads and stores bytes: `RVLOAD8` has 8.
#[derive(Clone, Copy, PartialEq, Eq, Debug)]
pub struct Op {
    pub family: Family,
    pub a: u8,
    pub b: u8,
}

/// What stands beside the arguments of an op.
#[derive(Clone, Copy, PartialEq, Eq, Debug)]
pub enum AuxKind {
    None,
    /// A number, as in `Const64 [5]`.
    Int,
    /// The name of a function, a variable or an argument.
    Name,
    /// A type, as in `Store {int}`.
    Ty,
}

/// The result of an op.
#[derive(Clone, Copy, PartialEq, Eq, Debug)]
pub enum Class {
    /// A number of so many bits.
    Number(u8),
    /// A machine word.
    Word,
    Bool,
    Mem,
    Void,
    /// Several results.
    Tuple,
    /// What the value's type says.
    ByType,
}

/// What the op table says of an op.
#[derive(Clone, Copy, PartialEq, Eq, Debug)]
pub struct OpInfo {
    /// The count of arguments, None where the op itself does not give it.
    pub arity: Option<u8>,
    pub aux: AuxKind,
    pub result: Class,
    /// Both orders of the two arguments give one value.
    pub commutative: bool,
    /// The op takes memory as its last argument, or gives memory.
    pub memory: bool,
}

/// The widths that the names of a row have.
#[derive(Clone, Copy, PartialEq, Eq, Debug)]
pub(crate) enum Widths {
    /// None.
    Alone,
    /// 8, 16, 32 or 64.
    Each,
    /// 32 or 64.
    Long,
    /// This one.
    Only(u8),
    /// Two of `Each`.
    Pairs,
    /// Two of `Each`, the second greater.
    Rising,
    /// Two of `Each`, the second less.
    Falling,
    /// 1, 2 or 4 bytes.
    UpTo4,
    /// 1, 2, 4 or 8 bytes.
    UpTo8,
}

/// A row of the op table: an op's name is `head`, its first width, `tail` and its second width.
#[derive(Clone, Copy)]
pub(crate) struct Row {
    pub(crate) head: &'static str,
    pub(crate) tail: &'static str,
    pub(crate) widths: Widths,
    pub(crate) info: OpInfo,
}

#[tactic(auto, unfolding(crate::specs::Table::entry))]
#[allow(clippy::too_many_arguments)]
fn entry(
    head: &'static str,
    tail: &'static str,
    widths: Widths,
    arity: Option<u8>,
    aux: AuxKind,
    class: Class,
    commutative: bool,
    memory: bool,
) -> Row
    ensures { seen result.head.now result.tail.now result.widths result.info
        ≡ entry head.now tail.now widths arity aux class commutative memory }
{
    let info = OpInfo {
        arity,
        aux,
        result: class,
        commutative,
        memory,
    };
    Row {
        head,
        tail,
        widths,
        info,
    }
}

macro_rules! row {
    ($head:literal $tail:literal $widths:expr, $arity:expr, $aux:ident, $class:expr, $commutative:literal $memory:literal) => {
        entry($head, $tail, $widths, $arity, AuxKind::$aux, $class, $commutative, $memory)
    };
}

/// The op table: the row of the op's family. The columns are head, tail, widths, count of arguments, aux,
/// result, commutative, memory.
#[tactic(auto, unfolding(crate::specs::Table::row))]
pub(crate) fn row_of(op: Op) -> Row
    ensures { seen result.head.now result.tail.now result.widths result.info ≡ row op.family op.a op.b }
{
    use Class::{Bool, ByType, Mem, Number, Tuple, Void, Word};
    use Widths::{Alone, Each, Falling, Long, Only, Pairs, Rising};
    match op.family {
        // Constants.
        Family::Const => row!("Const" "" Each, Some(0), Int, Number(op.a), false false),
        Family::ConstBool => row!("ConstBool" "" Alone, Some(0), Int, Bool, false false),
        Family::ConstNil => row!("ConstNil" "" Alone, Some(0), None, Word, false false),
        // Arithmetic.
        Family::Add => row!("Add" "" Each, Some(2), None, Number(op.a), true false),
        Family::Sub => row!("Sub" "" Each, Some(2), None, Number(op.a), false false),
        Family::Mul => row!("Mul" "" Each, Some(2), None, Number(op.a), true false),
        Family::And => row!("And" "" Each, Some(2), None, Number(op.a), true false),
        Family::Or => row!("Or" "" Each, Some(2), None, Number(op.a), true false),
        Family::Xor => row!("Xor" "" Each, Some(2), None, Number(op.a), true false),
        Family::Neg => row!("Neg" "" Each, Some(1), None, Number(op.a), false false),
        Family::Com => row!("Com" "" Each, Some(1), None, Number(op.a), false false),
        Family::Div => row!("Div" "" Each, Some(2), None, Number(op.a), false false),
        Family::Divu => row!("Div" "u" Each, Some(2), None, Number(op.a), false false),
        Family::Mod => row!("Mod" "" Each, Some(2), None, Number(op.a), false false),
        Family::Modu => row!("Mod" "u" Each, Some(2), None, Number(op.a), false false),
        Family::Hmul => row!("Hmul" "" Long, Some(2), None, Number(op.a), true false),
        Family::Hmulu => row!("Hmul" "u" Long, Some(2), None, Number(op.a), true false),
        // Shifts of a bits by a count of b bits.
        Family::Lsh => row!("Lsh" "x" Pairs, Some(2), None, Number(op.a), false false),
        Family::Rsh => row!("Rsh" "x" Pairs, Some(2), None, Number(op.a), false false),
        Family::RshU => row!("Rsh" "Ux" Pairs, Some(2), None, Number(op.a), false false),
        // Comparisons.
        Family::Eq => row!("Eq" "" Each, Some(2), None, Bool, true false),
        Family::Neq => row!("Neq" "" Each, Some(2), None, Bool, true false),
        Family::Less => row!("Less" "" Each, Some(2), None, Bool, false false),
        Family::LessU => row!("Less" "U" Each, Some(2), None, Bool, false false),
        Family::Leq => row!("Leq" "" Each, Some(2), None, Bool, false false),
        Family::LeqU => row!("Leq" "U" Each, Some(2), None, Bool, false false),
        // Truth values and pointers.
        Family::EqB => row!("EqB" "" Alone, Some(2), None, Bool, false false),
        Family::NeqB => row!("NeqB" "" Alone, Some(2), None, Bool, false false),
        Family::AndB => row!("AndB" "" Alone, Some(2), None, Bool, true false),
        Family::OrB => row!("OrB" "" Alone, Some(2), None, Bool, true false),
        Family::Not => row!("Not" "" Alone, Some(1), None, Bool, false false),
        Family::EqPtr => row!("EqPtr" "" Alone, Some(2), None, Bool, false false),
        Family::NeqPtr => row!("NeqPtr" "" Alone, Some(2), None, Bool, false false),
        Family::IsNonNil => row!("IsNonNil" "" Alone, Some(1), None, Bool, false false),
        Family::IsInBounds => row!("IsInBounds" "" Alone, Some(2), None, Bool, false false),
        Family::IsSliceInBounds =>
            row!("IsSliceInBounds" "" Alone, Some(2), None, Bool, false false),
        // Conversions from a bits to b bits.
        Family::SignExt => row!("SignExt" "to" Rising, Some(1), None, Number(op.b), false false),
        Family::ZeroExt => row!("ZeroExt" "to" Rising, Some(1), None, Number(op.b), false false),
        Family::Trunc => row!("Trunc" "to" Falling, Some(1), None, Number(op.b), false false),
        Family::CvtBoolToUint8 =>
            row!("CvtBoolToUint" "" Only(8), Some(1), None, Number(8), false false),
        // Masks, bits and rotations.
        Family::Signmask => row!("Signmask" "" Alone, Some(1), None, Number(32), false false),
        Family::Zeromask => row!("Zeromask" "" Alone, Some(1), None, Number(32), false false),
        Family::Ctz32 => row!("Ctz" "" Only(32), Some(1), None, Number(32), false false),
        Family::BitLen32 => row!("BitLen" "" Only(32), Some(1), None, Number(32), false false),
        Family::RotateLeft => row!("RotateLeft" "" Long, Some(2), None, Number(op.a), false false),
        Family::CondSelect => row!("CondSelect" "" Alone, Some(3), None, ByType, false false),
        // Addresses.
        Family::AddPtr => row!("AddPtr" "" Alone, Some(2), None, Word, false false),
        Family::SubPtr => row!("SubPtr" "" Alone, Some(2), None, Word, false false),
        Family::OffPtr => row!("OffPtr" "" Alone, Some(1), Int, Word, false false),
        // Numbers of 64 bits in halves.
        Family::Int64Make => row!("Int" "Make" Only(64), Some(2), None, Number(64), false false),
        Family::Int64Hi => row!("Int" "Hi" Only(64), Some(1), None, Number(32), false false),
        Family::Int64Lo => row!("Int" "Lo" Only(64), Some(1), None, Number(32), false false),
        Family::AddHi32 => row!("AddHi" "" Only(32), Some(4), None, Number(32), false false),
        Family::SubHi32 => row!("SubHi" "" Only(32), Some(4), None, Number(32), false false),
        // Values of a block or a function.
        Family::Phi => row!("Phi" "" Alone, None, None, ByType, false false),
        Family::Copy => row!("Copy" "" Alone, Some(1), None, ByType, false false),
        Family::Arg => row!("Arg" "" Alone, Some(0), Name, ByType, false false),
        Family::InitMem => row!("InitMem" "" Alone, Some(0), None, Mem, false true),
        Family::Sp => row!("SP" "" Alone, Some(0), None, Word, false false),
        Family::Sb => row!("SB" "" Alone, Some(0), None, Word, false false),
        Family::Addr => row!("Addr" "" Alone, Some(1), Name, Word, false false),
        // Memory, checks and calls.
        Family::Load => row!("Load" "" Alone, Some(2), None, ByType, false true),
        Family::Store => row!("Store" "" Alone, Some(3), Ty, Mem, false true),
        Family::Zero => row!("Zero" "" Alone, Some(2), Int, Mem, false true),
        Family::Move => row!("Move" "" Alone, Some(3), Int, Mem, false true),
        Family::NilCheck => row!("NilCheck" "" Alone, Some(2), None, Void, false true),
        Family::PanicBounds => row!("PanicBounds" "" Alone, Some(3), Int, Mem, false true),
        Family::StaticLECall => row!("StaticLECall" "" Alone, None, Name, Tuple, false true),
        Family::SelectN => row!("SelectN" "" Alone, Some(1), Int, ByType, false false),
        Family::MakeResult => row!("MakeResult" "" Alone, None, None, Tuple, false true),
        // Words of arguments and results, calls and traps.
        Family::ArgWord => row!("ARGWORD" "" Alone, Some(0), Int, Word, false false),
        Family::ArgReg => row!("ARGREG" "" Alone, Some(0), Int, Word, false false),
        Family::ResWord => row!("RESWORD" "" Alone, Some(1), Int, Word, false false),
        Family::ResReg => row!("RESREG" "" Alone, Some(1), Int, Word, false false),
        Family::OutWord => row!("OUTWORD" "" Alone, Some(2), Int, Mem, false true),
        Family::RetWord => row!("RETWORD" "" Alone, Some(2), Int, Mem, false true),
        Family::RetRegs => row!("RETREGS" "" Alone, None, None, Mem, false true),
        Family::Call => row!("CALL" "" Alone, Some(1), Name, Mem, false true),
        Family::CallRegs => row!("CALLREGS" "" Alone, None, Name, Mem, false true),
        Family::Trap => row!("TRAP" "" Alone, Some(1), Int, Mem, false true),
        // Machine ops.
        Family::Arm(op) => arm_row_of(op),
        Family::Rv(op) => rv_row_of(op),
    }
}

/// The machine ops of arm.
#[tactic(auto, unfolding(crate::specs::Table::arm_row))]
fn arm_row_of(op: ArmOp) -> Row
    ensures { seen result.head.now result.tail.now result.widths result.info ≡ arm_row op }
{
    use Class::{Mem, Void, Word};
    use Widths::{Alone, UpTo4};
    match op {
        ArmOp::Const => row!("ARMCONST" "" Alone, Some(0), Int, Word, false false),
        ArmOp::Addr => row!("ARMADDR" "" Alone, Some(0), Name, Word, false false),
        ArmOp::Add => row!("ARMADD" "" Alone, Some(2), None, Word, true false),
        ArmOp::Sub => row!("ARMSUB" "" Alone, Some(2), None, Word, false false),
        ArmOp::Mul => row!("ARMMUL" "" Alone, Some(2), None, Word, false false),
        ArmOp::And => row!("ARMAND" "" Alone, Some(2), None, Word, true false),
        ArmOp::Orr => row!("ARMORR" "" Alone, Some(2), None, Word, true false),
        ArmOp::Eor => row!("ARMEOR" "" Alone, Some(2), None, Word, true false),
        ArmOp::Smulh => row!("ARMSMULH" "" Alone, Some(2), None, Word, false false),
        ArmOp::Umulh => row!("ARMUMULH" "" Alone, Some(2), None, Word, false false),
        ArmOp::Sdiv => row!("ARMSDIV" "" Alone, Some(2), None, Word, false false),
        ArmOp::Udiv => row!("ARMUDIV" "" Alone, Some(2), None, Word, false false),
        ArmOp::Smod => row!("ARMSMOD" "" Alone, Some(2), None, Word, false false),
        ArmOp::Umod => row!("ARMUMOD" "" Alone, Some(2), None, Word, false false),
        ArmOp::Lsl => row!("ARMLSL" "" Alone, Some(2), None, Word, false false),
        ArmOp::Lsr => row!("ARMLSR" "" Alone, Some(2), None, Word, false false),
        ArmOp::Asr => row!("ARMASR" "" Alone, Some(2), None, Word, false false),
        ArmOp::SetEq => row!("ARMSETEQ" "" Alone, Some(2), None, Word, false false),
        ArmOp::SetNe => row!("ARMSETNE" "" Alone, Some(2), None, Word, false false),
        ArmOp::SetLt => row!("ARMSETLT" "" Alone, Some(2), None, Word, false false),
        ArmOp::SetLe => row!("ARMSETLE" "" Alone, Some(2), None, Word, false false),
        ArmOp::SetLo => row!("ARMSETLO" "" Alone, Some(2), None, Word, false false),
        ArmOp::SetLs => row!("ARMSETLS" "" Alone, Some(2), None, Word, false false),
        ArmOp::Rotl => row!("ARMROTL" "" Alone, Some(2), None, Word, false false),
        ArmOp::Rsb0 => row!("ARMRSB0" "" Alone, Some(1), None, Word, false false),
        ArmOp::Mvn => row!("ARMMVN" "" Alone, Some(1), None, Word, false false),
        ArmOp::Sxtb => row!("ARMSXTB" "" Alone, Some(1), None, Word, false false),
        ArmOp::Sxth => row!("ARMSXTH" "" Alone, Some(1), None, Word, false false),
        ArmOp::Uxtb => row!("ARMUXTB" "" Alone, Some(1), None, Word, false false),
        ArmOp::Uxth => row!("ARMUXTH" "" Alone, Some(1), None, Word, false false),
        ArmOp::Zmask => row!("ARMZMASK" "" Alone, Some(1), None, Word, false false),
        ArmOp::Ctz => row!("ARMCTZ" "" Alone, Some(1), None, Word, false false),
        ArmOp::Blen => row!("ARMBLEN" "" Alone, Some(1), None, Word, false false),
        ArmOp::Sel => row!("ARMSEL" "" Alone, Some(3), None, Word, false false),
        ArmOp::AddHi => row!("ARMADDHI" "" Alone, Some(4), None, Word, false false),
        ArmOp::SubHi => row!("ARMSUBHI" "" Alone, Some(4), None, Word, false false),
        ArmOp::Addi => row!("ARMADDI" "" Alone, Some(1), Int, Word, false false),
        ArmOp::Subi => row!("ARMSUBI" "" Alone, Some(1), Int, Word, false false),
        ArmOp::Andi => row!("ARMANDI" "" Alone, Some(1), Int, Word, false false),
        ArmOp::Eori => row!("ARMEORI" "" Alone, Some(1), Int, Word, false false),
        ArmOp::Lsli => row!("ARMLSLI" "" Alone, Some(1), Int, Word, false false),
        ArmOp::Lsri => row!("ARMLSRI" "" Alone, Some(1), Int, Word, false false),
        ArmOp::Asri => row!("ARMASRI" "" Alone, Some(1), Int, Word, false false),
        ArmOp::Load => row!("ARMLOAD" "" UpTo4, Some(2), Int, Word, false true),
        ArmOp::Store => row!("ARMSTORE" "" UpTo4, Some(3), Int, Mem, false true),
        ArmOp::StoreB => row!("ARMSTOREB" "" Alone, Some(3), Int, Mem, false true),
        ArmOp::Zero => row!("ARMZERO" "" Alone, Some(2), Int, Mem, false true),
        ArmOp::Move => row!("ARMMOVE" "" Alone, Some(3), Int, Mem, false true),
        ArmOp::Nil => row!("ARMNIL" "" Alone, Some(2), None, Void, false true),
    }
}

/// The machine ops of riscv64.
#[tactic(auto, unfolding(crate::specs::Table::rv_row))]
fn rv_row_of(op: RvOp) -> Row
    ensures { seen result.head.now result.tail.now result.widths result.info ≡ rv_row op }
{
    use Class::{Mem, Void, Word};
    use Widths::{Alone, UpTo8};
    match op {
        RvOp::Const => row!("RVCONST" "" Alone, Some(0), Int, Word, false false),
        RvOp::Addr => row!("RVADDR" "" Alone, Some(0), Name, Word, false false),
        RvOp::Add => row!("RVADD" "" Alone, Some(2), None, Word, true false),
        RvOp::Sub => row!("RVSUB" "" Alone, Some(2), None, Word, false false),
        RvOp::Mul => row!("RVMUL" "" Alone, Some(2), None, Word, false false),
        RvOp::And => row!("RVAND" "" Alone, Some(2), None, Word, true false),
        RvOp::Or => row!("RVOR" "" Alone, Some(2), None, Word, true false),
        RvOp::Xor => row!("RVXOR" "" Alone, Some(2), None, Word, true false),
        RvOp::Mulh => row!("RVMULH" "" Alone, Some(2), None, Word, false false),
        RvOp::Mulhu => row!("RVMULHU" "" Alone, Some(2), None, Word, false false),
        RvOp::Div => row!("RVDIV" "" Alone, Some(2), None, Word, false false),
        RvOp::Divu => row!("RVDIVU" "" Alone, Some(2), None, Word, false false),
        RvOp::Rem => row!("RVREM" "" Alone, Some(2), None, Word, false false),
        RvOp::Remu => row!("RVREMU" "" Alone, Some(2), None, Word, false false),
        RvOp::Slt => row!("RVSLT" "" Alone, Some(2), None, Word, false false),
        RvOp::Sltu => row!("RVSLTU" "" Alone, Some(2), None, Word, false false),
        RvOp::Lsl => row!("RVLSL" "" Alone, Some(2), None, Word, false false),
        RvOp::Lsr => row!("RVLSR" "" Alone, Some(2), None, Word, false false),
        RvOp::Asr => row!("RVASR" "" Alone, Some(2), None, Word, false false),
        RvOp::Rotl => row!("RVROTL" "" Alone, Some(2), None, Word, false false),
        RvOp::Neg => row!("RVNEG" "" Alone, Some(1), None, Word, false false),
        RvOp::Seqz => row!("RVSEQZ" "" Alone, Some(1), None, Word, false false),
        RvOp::Snez => row!("RVSNEZ" "" Alone, Some(1), None, Word, false false),
        RvOp::Sel => row!("RVSEL" "" Alone, Some(3), None, Word, false false),
        RvOp::Addi => row!("RVADDI" "" Alone, Some(1), Int, Word, false false),
        RvOp::Andi => row!("RVANDI" "" Alone, Some(1), Int, Word, false false),
        RvOp::Ori => row!("RVORI" "" Alone, Some(1), Int, Word, false false),
        RvOp::Xori => row!("RVXORI" "" Alone, Some(1), Int, Word, false false),
        RvOp::Slli => row!("RVSLLI" "" Alone, Some(1), Int, Word, false false),
        RvOp::Srli => row!("RVSRLI" "" Alone, Some(1), Int, Word, false false),
        RvOp::Srai => row!("RVSRAI" "" Alone, Some(1), Int, Word, false false),
        RvOp::Load => row!("RVLOAD" "" UpTo8, Some(2), Int, Word, false true),
        RvOp::Store => row!("RVSTORE" "" UpTo8, Some(3), Int, Mem, false true),
        RvOp::StoreB => row!("RVSTOREB" "" Alone, Some(3), Int, Mem, false true),
        RvOp::Zero => row!("RVZERO" "" Alone, Some(2), Int, Mem, false true),
        RvOp::Move => row!("RVMOVE" "" Alone, Some(3), Int, Mem, false true),
        RvOp::Nil => row!("RVNIL" "" Alone, Some(2), None, Void, false true),
    }
}

fn is_width(a: u8) -> bool
    ensures { result ≡ Rattle.bk_ops.specs.Table.is_width a }
{
    a == 8 || a == 16 || a == 32 || a == 64
}

impl Widths {
    /// Whether a name may have these widths.
    pub(crate) fn allow(self, a: u8, b: u8) -> bool
        ensures { result ≡ allows self a b }
    {
        match self {
            Widths::Alone => a == 0 && b == 0,
            Widths::Each => is_width(a) && b == 0,
            Widths::Long => (a == 32 || a == 64) && b == 0,
            Widths::Only(n) => a == n && b == 0,
            Widths::Pairs => is_width(a) && is_width(b),
            Widths::Rising => is_width(a) && is_width(b) && a < b,
            Widths::Falling => is_width(a) && is_width(b) && b < a,
            Widths::UpTo4 => (a == 1 || a == 2 || a == 4) && b == 0,
            Widths::UpTo8 => (a == 1 || a == 2 || a == 4 || a == 8) && b == 0,
        }
    }
}

/// What the op table says of the op. An op that no name has takes and gives nothing.
#[tactic(auto, unfolding(crate::specs::Table::info_of, crate::specs::Table::is_op))]
pub fn op_info(op: Op) -> OpInfo
    ensures { result ≡ info_of op }
{
    let row = row_of(op);
    if row.widths.allow(op.a, op.b) {
        row.info
    } else {
        OpInfo {
            arity: None,
            aux: AuxKind::None,
            result: Class::Void,
            commutative: false,
            memory: false,
        }
    }
}
