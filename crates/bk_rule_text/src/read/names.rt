//! The names of a rule's variables.
ghost use Rattle.std.specs.Prelude.{◌≡◌, [], IfOk};
ghost use Rattle.bk_rule_text.specs.Names.{place_of, numbered, in_scope};
ghost use Rattle.bk_rule_text.specs.Views.{Reads};

use crate::errors::Unread;
use indexmap::IndexSet;
use std::alloc::{AllocError, Global};
use std::marker::Model;

/// The names of a rule's variables, each at its number: in the order in which they first appear.
#[derive(Drop)]
pub struct Names<'a> {
    names: IndexSet<&'a [u8]>,
}

impl<'a> Model for Names<'a> {
    ghost use Rattle.std.specs.Prelude.{ℕ, List, map};

    ghost Value = { List (List ℕ) };

    ghost view = { λ n. map (λ name. name.now) n.names.keys };
}

/// The number at a place. No memory holds the text of 2^32 names.
fn number_at(place: usize) -> Result<u32, AllocError>
    ensures { IfOk result (λ number. number ≡ place) }
{
    u32::try_from(place).map_err(|_| AllocError)
}

impl<'a> Names<'a> {
    /// No name.
    pub fn new(alloc: Global) -> Self
        ensures { result ≡ [] }
    {
        Names {
            names: IndexSet::new(alloc),
        }
    }

    /// The number of the variable with this name, which gets the next one where it is new.
    pub fn number(&mut self, name: &'a [u8]) -> Result<u32, AllocError>
        ensures { IfOk result (λ number. (number, self.new) ≡ numbered self.old name.now) }
    {
        let (place, _) = self.names.insert_full(name)?;
        number_at(place)
    }

    /// The place of this name among the others.
    fn place_of(&self, name: &[u8]) -> Option<usize>
        ensures { result ≡ place_of self.now name.now }
    {
        self.names.get_index_of(name)
    }
}

/// The variables that an expression or a right tree may name: those with this number and above.
#[derive(Drop)]
pub struct Scope<'s, 'a> {
    pub names: &'s Names<'a>,
    pub first: usize,
}

impl<'s, 'a> Model for Scope<'s, 'a> {
    ghost use Rattle.bk_rule_text.specs.Names.{Variables};

    ghost Value = { Variables };

    ghost view = { λ s. record { names = s.names.now; first = s.first } };
}

impl<'s, 'a> Scope<'s, 'a> {
    /// The number of the variable with this name, which has to be in scope.
    #[tactic(auto, unfolding(crate::specs::Names::in_scope))]
    pub fn number(&self, name: &[u8]) -> Result<u32, Unread>
        ensures { Reads (λ number. number) result (in_scope self.now name.now) }
    {
        let Some(place) = self.names.place_of(name) else {
            return Err(Unread::Syntax);
        };
        if place < self.first {
            return Err(Unread::Syntax);
        }
        Ok(number_at(place)?)
    }
}
