//! The names of types, and the symbols of operators and functions.
ghost use Rattle.std.specs.Prelude.{◌≡◌};
ghost use Rattle.bk_rule_text.specs.Layout.{type_name, symbol};

use bk_ops::Ty;
use bk_rule::Fun;

/// The name of a type; a list of types has none.
#[tactic(auto, unfolding(crate::specs::Layout::type_name))]
pub fn type_name(ty: Ty) -> &'static str
    ensures { result.now ≡ type_name ty }
{
    match ty {
        Ty::Bool => "bool",
        Ty::Int8 => "int8",
        Ty::Uint8 => "uint8",
        Ty::Int16 => "int16",
        Ty::Uint16 => "uint16",
        Ty::Int32 => "int32",
        Ty::Uint32 => "uint32",
        Ty::Int64 => "int64",
        Ty::Uint64 => "uint64",
        Ty::Int => "int",
        Ty::Uint => "uint",
        Ty::Uintptr => "uintptr",
        Ty::Ptr => "ptr",
        Ty::Mem => "mem",
        Ty::Void => "void",
        Ty::Tuple => "",
    }
}

/// How an operator or a function is written.
#[tactic(auto, unfolding(crate::specs::Layout::symbol))]
pub fn symbol(fun: Fun) -> &'static str
    ensures { result.now ≡ symbol fun }
{
    match fun {
        Fun::Neg | Fun::Sub => "-",
        Fun::Com | Fun::Xor => "^",
        Fun::Mul => "*",
        Fun::Shl => "<<",
        Fun::Shr => ">>",
        Fun::And => "&",
        Fun::Add => "+",
        Fun::Or => "|",
        Fun::Eq => "==",
        Fun::Ne => "!=",
        Fun::Lt => "<",
        Fun::Le => "<=",
        Fun::IsPowerOfTwo => "isPowerOfTwo",
        Fun::Log2 => "log2",
        Fun::Ult => "ult",
        Fun::Ule => "ule",
        Fun::Zext8 => "zext8",
        Fun::Zext16 => "zext16",
        Fun::Zext32 => "zext32",
        Fun::Is12 => "is12",
        Fun::ArmImm => "armimm",
        Fun::Size => "size",
        Fun::IsBool => "isBool",
        Fun::Uses => "Uses",
    }
}
