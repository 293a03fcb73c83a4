// What values are to numbers of 64 bits.
ghost use Rattle.std.specs.Prelude.{◌≡◌};
ghost use Rattle.bk_dec64.specs.Signatures.{role_of};

use bk_ops::Family;

/// What a value is to a number that goes in words.
#[derive(Clone, Copy, PartialEq, Eq, Debug)]
pub enum Role {
    Phi,
    /// An argument of the function.
    Argument,
    Load,
    Store,
    /// A call.
    Call,
    /// A result of a call, or the memory after it.
    Selection,
    /// The results of the function.
    Results,
    Other,
}

pub(crate) fn role_of(family: Family) -> Role
    ensures { result ≡ role_of family }
{
    match family {
        Family::Phi => Role::Phi,
        Family::Arg => Role::Argument,
        Family::Load => Role::Load,
        Family::Store => Role::Store,
        Family::StaticLECall => Role::Call,
        Family::SelectN => Role::Selection,
        Family::MakeResult => Role::Results,
        _ => Role::Other,
    }
}
