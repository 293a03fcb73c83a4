// The values of a function by their places in text order.
ghost use Rattle.std.specs.Prelude.{◌≡◌, ◌++◌, IfOk, OnOk, map};
ghost use Rattle.bk_form.specs.Places.{nodes_from, node_at};

use bk_func::{Block, Value};
use std::alloc::{AllocError, Global};
use std::marker::Model;

/// A value with the place of its block.
#[derive(Drop)]
pub(crate) struct Node<'a> {
    pub(crate) home: usize,
    pub(crate) value: &'a Value,
}

impl<'a> Model for Node<'a> {
    ghost use Rattle.bk_form.specs.Places.{NodeRecord};

    ghost Value = { NodeRecord };

    ghost view = { λ n. record { home = n.home; value = n.value.now } };
}

/// The values of the blocks in text order.
#[tactic(auto, unfolding(crate::specs::Places::nodes_from))]
pub(crate) fn nodes<'a>(alloc: Global, blocks: &'a [Block]) -> Result<Vec<Node<'a>>, AllocError>
    ensures { IfOk result (λ nodes. nodes.items ≡ nodes_from 0 blocks.now) }
{
    let mut nodes = Vec::new(alloc);
    for (home, block) in blocks.iter().enumerate() {
        push_nodes(&mut nodes, home, &block.values)?;
    }
    Ok(nodes)
}

fn push_nodes<'a>(
    nodes: &mut Vec<Node<'a>>,
    home: usize,
    values: &'a [Value],
) -> Result<(), AllocError>
    ensures { OnOk result (nodes.new.items ≡ nodes.old.items ++ map (node_at home) values.now) }
{
    for value in values {
        nodes.push(Node { home, value })?;
    }
    Ok(())
}
