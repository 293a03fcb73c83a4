// Families that are alike.
ghost use Rattle.std.specs.Prelude.{◌≡◌};
ghost use Rattle.bk_ops.specs.Families.{is_phi, is_copy, is_nil_check, is_load, is_address, is_call, is_word_call, is_call_result, is_word_result};

use crate::{ArmOp, Family, RvOp};

/// The op takes the value of the edge by which its block was entered.
pub fn is_phi(family: Family) -> bool
    ensures { result ≡ is_phi family }
{
    matches!(family, Family::Phi)
}

/// The op gives its argument again.
pub fn is_copy(family: Family) -> bool
    ensures { result ≡ is_copy family }
{
    matches!(family, Family::Copy)
}

/// The op checks that an address is not nil.
pub fn is_nil_check(family: Family) -> bool
    ensures { result ≡ is_nil_check family }
{
    matches!(
        family,
        Family::NilCheck | Family::Arm(ArmOp::Nil) | Family::Rv(RvOp::Nil)
    )
}

/// The op reads memory.
pub fn is_load(family: Family) -> bool
    ensures { result ≡ is_load family }
{
    matches!(
        family,
        Family::Load | Family::Arm(ArmOp::Load) | Family::Rv(RvOp::Load)
    )
}

/// The op gives the address of a variable.
pub fn is_address(family: Family) -> bool
    ensures { result ≡ is_address family }
{
    matches!(
        family,
        Family::Addr | Family::Arm(ArmOp::Addr) | Family::Rv(RvOp::Addr)
    )
}

/// The op calls a function.
pub fn is_call(family: Family) -> bool
    ensures { result ≡ is_call family }
{
    matches!(
        family,
        Family::StaticLECall | Family::Call | Family::CallRegs
    )
}

/// The op calls a function whose arguments were taken apart into machine words.
pub fn is_word_call(family: Family) -> bool
    ensures { result ≡ is_word_call family }
{
    matches!(family, Family::Call | Family::CallRegs)
}

/// The op gives a result of a call.
pub fn is_call_result(family: Family) -> bool
    ensures { result ≡ is_call_result family }
{
    matches!(family, Family::SelectN | Family::ResWord | Family::ResReg)
}

/// The op gives a machine word of the results of a call.
pub fn is_word_result(family: Family) -> bool
    ensures { result ≡ is_word_result family }
{
    matches!(family, Family::ResWord | Family::ResReg)
}
