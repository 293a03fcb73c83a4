//! What ops and types of extra rules take and give.
ghost use Rattle.std.specs.Prelude.{◌≡◌};
ghost use Rattle.bk_ops.specs.Table.{info_of};
ghost use Rattle.bk_rule_text.specs.Widths.{may_be_extra, class_in, class_at, type_fits, op_fits};

use bk_ops::{Class, Family, Op, Target, Ty, op_info, width};

/// Whether an extra rule may have an op on numbers of this family and of this width: one that both targets have.
#[tactic(auto, unfolding(crate::specs::Widths::may_be_extra))]
fn may_be_extra(family: Family, width: u8) -> bool
    ensures { result ≡ may_be_extra family width }
{
    match family {
        Family::Const
        | Family::Add
        | Family::Sub
        | Family::Mul
        | Family::And
        | Family::Or
        | Family::Xor
        | Family::Neg
        | Family::Com
        | Family::Lsh
        | Family::Rsh
        | Family::RshU => true,
        Family::Eq
        | Family::Neq
        | Family::Less
        | Family::LessU
        | Family::Leq
        | Family::LeqU
        | Family::SignExt
        | Family::ZeroExt
        | Family::Trunc => true,
        Family::ConstBool
        | Family::EqB
        | Family::NeqB
        | Family::AndB
        | Family::OrB
        | Family::Not
        | Family::CvtBoolToUint8 => true,
        Family::Div | Family::Divu | Family::Mod | Family::Modu => width != 64,
        Family::Hmul | Family::Hmulu => width == 32,
        _ => false,
    }
}

/// What the place of an argument takes, of an op that an extra rule may have.
#[tactic(auto, unfolding(crate::specs::Widths::class_at))]
pub fn class_at(op: Op, place: usize) -> Class
    ensures { result ≡ class_at op place }
{
    match op.family {
        Family::EqB | Family::NeqB | Family::AndB | Family::OrB => Class::Bool,
        Family::Not | Family::CvtBoolToUint8 => Class::Bool,
        Family::Lsh | Family::Rsh | Family::RshU if place == 1 => Class::Number(op.b),
        _ => Class::Number(op.a),
    }
}

/// What the op gives.
pub fn result_of(op: Op) -> Class
    ensures { result ≡ (info_of op).result }
{
    op_info(op).result
}

/// Whether an extra rule may have the op at a place that takes this class.
#[tactic(auto, unfolding(crate::specs::Widths::op_fits))]
pub fn op_fits(op: Op, class: Class) -> bool
    ensures { result ≡ op_fits op class }
{
    may_be_extra(op.family, op.a) && result_of(op) == class
}

/// Whether a type has on both targets the width of this class.
#[tactic(auto, unfolding(crate::specs::Widths::type_fits))]
pub fn type_fits(ty: Ty, class: Class) -> bool
    ensures { result ≡ type_fits ty class }
{
    match class {
        Class::Bool => ty == Ty::Bool,
        Class::Number(bits) => {
            ty != Ty::Bool
                && width(ty, Target::Arm) == u32::from(bits)
                && width(ty, Target::Riscv64) == u32::from(bits)
        }
        _ => false,
    }
}
