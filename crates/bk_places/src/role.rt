// What values do with the states that they name.
ghost use Rattle.std.specs.Prelude.{◌↔◌, IsTrue};
ghost use Rattle.bk_func.specs.Form.Before.{IsLoad, IsNilCheck, IsResult};
ghost use Rattle.bk_places.specs.Order.{HasRole};

use bk_func::Value;
use bk_ops::{ArmOp, Family, RvOp, Ty, is_word_result};

/// What a value does with the state that it names.
#[derive(Clone, Copy)]
pub enum Role {
    Check,
    Load,
    /// It comes before the memory values that follow the state: a check, a load or a result.
    User,
}

/// Whether the value does this with the state that it names.
pub fn has_role(value: &Value, role: Role) -> bool
    ensures { IsTrue result ↔ HasRole role value.now }
{
    match role {
        Role::Check => is_check(value),
        Role::Load => is_load(value),
        Role::User => is_load(value) || is_check(value) || is_result(value),
    }
}

fn is_check(value: &Value) -> bool
    ensures { IsTrue result ↔ IsNilCheck value.now }
{
    match value.op.family {
        Family::NilCheck | Family::Arm(ArmOp::Nil) | Family::Rv(RvOp::Nil) => true,
        _ => false,
    }
}

fn is_load(value: &Value) -> bool
    ensures { IsTrue result ↔ IsLoad value.now }
{
    match value.op.family {
        Family::Load | Family::Arm(ArmOp::Load) | Family::Rv(RvOp::Load) => true,
        _ => false,
    }
}

/// Whether the value is a result of a call that is not memory.
fn is_result(value: &Value) -> bool
    ensures { IsTrue result ↔ IsResult value.now }
{
    match value.op.family {
        Family::SelectN => value.ty != Ty::Mem,
        family => is_word_result(family),
    }
}
