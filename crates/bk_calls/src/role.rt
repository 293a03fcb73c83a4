// What values are to calls.
ghost use Rattle.std.specs.Prelude.{◌≡◌};
ghost use Rattle.bk_calls.specs.Chains.{role_of};

use bk_ops::Family;

/// What a value is to the calls of its function, and to the call of it.
#[derive(Clone, Copy, PartialEq, Eq, Debug)]
pub enum Role {
    /// An argument of the function.
    Argument,
    /// A call.
    Call,
    /// A result of a call, or the memory after it.
    Selection,
    /// The results of the function.
    Results,
    Other,
}

pub(crate) fn role_of(family: Family) -> Role
    ensures { result ≡ role_of family }
{
    match family {
        Family::Arg => Role::Argument,
        Family::StaticLECall => Role::Call,
        Family::SelectN => Role::Selection,
        Family::MakeResult => Role::Results,
        _ => Role::Other,
    }
}
