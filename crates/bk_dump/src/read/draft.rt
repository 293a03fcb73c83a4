//! A function while its text is read: what its lines declare, and the names that they mention.
ghost use Rattle.std.specs.Prelude.{◌≡◌, IfOk};
ghost use Rattle.std.specs.Option.{option_map};
ghost use Rattle.bk_func.specs.declared.parts.Kind.TheVariants as kind;

use crate::read::block::BlockLine;
use crate::read::end::EndLine;
use crate::read::value::ValueLine;
use bk_func::Sig;
use indexmap::IndexSet;
use std::marker::Model;

/// A block whose end is not read yet.
#[derive(Drop)]
pub struct OpenBlock<'a> {
    pub label: BlockLine,
    pub values: Vec<ValueLine<'a>>,
}

impl<'a> Model for OpenBlock<'a> {
    ghost use Rattle.bk_dump.specs.Trees.{OpenTree};

    ghost Value = { OpenTree };

    ghost view = { λ b. record { label = b.label; values = b.values.items } };
}

/// A block whose references are not looked up yet.
#[derive(Drop)]
pub struct BlockDraft<'a> {
    pub label: BlockLine,
    pub values: Vec<ValueLine<'a>>,
    pub end: EndLine,
}

impl<'a> Model for BlockDraft<'a> {
    ghost use Rattle.bk_dump.specs.Trees.{BlockTree};

    ghost Value = { BlockTree };

    ghost view = { λ b. record { label = b.label; values = b.values.items; end = b.end } };
}

/// A function whose references are not looked up yet.
#[derive(Drop)]
pub struct FuncDraft<'a> {
    /// The number of its name.
    pub name: u32,
    /// The names of its arguments, in order.
    pub parameters: IndexSet<&'a str>,
    pub sig: Sig,
    pub blocks: Vec<BlockDraft<'a>>,
    /// The numbers of its values, and those of its blocks, also of a block that is not whole yet.
    pub value_ids: IndexSet<u32>,
    pub block_ids: IndexSet<u32>,
}

impl<'a> Model for FuncDraft<'a> {
    ghost use Rattle.std.specs.Prelude.{map};
    ghost use Rattle.bk_dump.specs.Trees.{FuncTree};

    ghost Value = { FuncTree };

    ghost view = { λ f. record {
      name = f.name;
      parameters = map (λ n. n.now) f.parameters.keys;
      sig = f.sig;
      blocks = f.blocks.items;
      value_ids = f.value_ids.keys;
      block_ids = f.block_ids.keys;
    } };
}

/// Which line may come next.
#[derive(Drop)]
pub enum Stage<'a> {
    /// A declaration: no function is open.
    Between,
    /// A block of the open function, or, where it has one, a declaration.
    Function(FuncDraft<'a>),
    /// A value or the end of the open block.
    Block(FuncDraft<'a>, OpenBlock<'a>),
}
