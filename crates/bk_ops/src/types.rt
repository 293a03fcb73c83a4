// Targets and types.
ghost use Rattle.std.specs.Prelude.{◌≡◌};
ghost use Rattle.bk_ops.specs.Types.{width_of, size_of_ty, code_of};

/// A machine that code is made for.
#[derive(Clone, Copy, PartialEq, Eq, Debug)]
pub enum Target {
    /// A32 with integer division; words of 32 bits.
    Arm,
    /// RV64IM; words of 64 bits.
    Riscv64,
}

/// The type of a value.
///
/// `Tuple` stands for the results of a call; it keeps no members.
#[derive(Clone, Copy, PartialEq, Eq, Debug)]
pub enum Ty {
    Bool,
    Int8,
    Uint8,
    Int16,
    Uint16,
    Int32,
    Uint32,
    Int64,
    Uint64,
    Int,
    Uint,
    Uintptr,
    /// `unsafe.Pointer` and every `*T`.
    Ptr,
    Mem,
    Void,
    Tuple,
}

/// The bits of a value of the type: 1 for `bool`, 0 for a type that stands for no machine word.
pub fn width(ty: Ty, target: Target) -> u32
    ensures { result ≡ width_of ty target }
{
    match ty {
        Ty::Bool => 1,
        Ty::Int8 | Ty::Uint8 => 8,
        Ty::Int16 | Ty::Uint16 => 16,
        Ty::Int32 | Ty::Uint32 => 32,
        Ty::Int64 | Ty::Uint64 => 64,
        Ty::Int | Ty::Uint | Ty::Uintptr | Ty::Ptr => match target {
            Target::Arm => 32,
            Target::Riscv64 => 64,
        },
        Ty::Mem | Ty::Void | Ty::Tuple => 0,
    }
}

/// The bytes of a value of the type in memory, 0 for a type that stands for no machine word.
pub fn size(ty: Ty, target: Target) -> u32
    ensures { result ≡ size_of_ty ty target }
{
    width(ty, target).div_ceil(8)
}

/// The code of the type in an object's list of signatures, None for a type that stands for no
/// machine word.
pub fn code(ty: Ty) -> Option<u32>
    ensures { result ≡ code_of ty }
{
    match ty {
        Ty::Bool => Some(1),
        Ty::Int8 => Some(2),
        Ty::Uint8 => Some(3),
        Ty::Int16 => Some(4),
        Ty::Uint16 => Some(5),
        Ty::Int32 => Some(6),
        Ty::Uint32 => Some(7),
        Ty::Int64 => Some(8),
        Ty::Uint64 => Some(9),
        Ty::Int => Some(10),
        Ty::Uint => Some(11),
        Ty::Uintptr => Some(12),
        Ty::Ptr => Some(13),
        Ty::Mem | Ty::Void | Ty::Tuple => None,
    }
}
