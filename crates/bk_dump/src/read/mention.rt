//! What the braces of a value hold.
ghost use Rattle.std.specs.Prelude.{◌≡◌};
ghost use Rattle.bk_dump.specs.Trees.{no_mention, of_type, of_name};

use bk_func::Aux;
use bk_ops::Ty;
use std::marker::Model;

/// What the braces of a value hold. Contracts see the name as a list of bytes.
#[derive(Drop)]
pub struct Mention<'a> {
    /// What needs no looking up.
    pub aux: Aux,
    /// The name of an argument, a variable or a function, which is to be looked up.
    pub name: Option<&'a str>,
}

impl<'a> Model for Mention<'a> {
    ghost use Rattle.std.specs.Option.{option_map};
    ghost use Rattle.bk_dump.specs.Trees.{MentionTree};

    ghost Value = { MentionTree };

    ghost view = { λ m. record { aux = m.aux; name = option_map (λ n. n.now) m.name } };
}

impl<'a> Mention<'a> {
    /// Nothing that means something.
    pub fn nothing() -> Self
        ensures { result ≡ no_mention }
    {
        Mention {
            aux: Aux::Nothing,
            name: None,
        }
    }

    /// A type.
    pub fn of_type(ty: Ty) -> Self
        ensures { result ≡ of_type ty }
    {
        Mention {
            aux: Aux::Ty(ty),
            name: None,
        }
    }

    /// A name.
    pub fn of_name(name: &'a str) -> Self
        ensures { result ≡ of_name name.now }
    {
        Mention {
            aux: Aux::Nothing,
            name: Some(name),
        }
    }
}
