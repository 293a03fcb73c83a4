//! What the references of a function may name.
use indexmap::IndexSet;
use std::marker::Model;

/// What the references of one function may name.
#[derive(Drop)]
pub struct Scope<'b, 'a> {
    pub names: &'b IndexSet<&'a str>,
    pub parameters: &'b IndexSet<&'a str>,
    /// The numbers of its values, and those of its blocks.
    pub values: &'b IndexSet<u32>,
    pub blocks: &'b IndexSet<u32>,
}

impl<'b, 'a> Model for Scope<'b, 'a> {
    ghost use Rattle.std.specs.Prelude.{map};
    ghost use Rattle.bk_dump.specs.Resolved.{Scope as ScopeRecord};

    ghost Value = { ScopeRecord };

    ghost view = { λ s. record {
      names = map (λ n. n.now) s.names.now.keys;
      parameters = map (λ n. n.now) s.parameters.now.keys;
      values = s.values.now.keys;
      blocks = s.blocks.now.keys;
    } };
}
