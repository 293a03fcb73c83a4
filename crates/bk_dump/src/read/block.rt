//! Lines that open a block.
ghost use Rattle.std.specs.Prelude.{◌≡◌, codes, IfOk};
ghost use Rattle.std.specs.Option.{option_map};
ghost use Rattle.bk_dump.specs.Blocks.{some_preds_at, preds_at, label_at, block_at};

use crate::read::number::{numbered, numbers};
use crate::read::part::{behind, behind_back_arrow, is_done, skip_blanks};
use std::alloc::{AllocError, Global};
use std::marker::Model;

/// The line `bN:` or `bN: <- bI bJ`.
#[derive(Drop)]
pub struct BlockLine {
    pub id: u32,
    pub preds: Vec<u32>,
}

impl Model for BlockLine {
    ghost use Rattle.bk_dump.specs.Trees.{LabelTree};

    ghost Value = { LabelTree };

    ghost view = { λ b. record { id = b.id; preds = b.preds.items } };
}

/// The blocks behind a `<-`, at least one, to the end of the line.
#[tactic(auto, unfolding(crate::specs::Blocks::some_preds_at))]
fn some_preds(alloc: Global, text: &[u8]) -> Result<Option<Vec<u32>>, AllocError>
    ensures { IfOk result (λ read. option_map (λ ps. ps.items) read ≡ some_preds_at text.now) }
{
    let Some(rest) = behind_back_arrow(text) else {
        return Ok(None);
    };
    let (preds, rest) = numbers(alloc, rest, b"b")?;
    if preds.is_empty() || !is_done(rest) {
        return Ok(None);
    }
    Ok(Some(preds))
}

/// The predecessors, where there are any, to the end of the line.
#[tactic(auto, unfolding(crate::specs::Blocks::preds_at))]
fn preds(alloc: Global, text: &[u8]) -> Result<Option<Vec<u32>>, AllocError>
    ensures { IfOk result (λ read. option_map (λ ps. ps.items) read ≡ preds_at text.now) }
{
    if is_done(text) {
        Ok(Some(Vec::new(alloc)))
    } else {
        some_preds(alloc, text)
    }
}

/// The number of a block before a `:`, and the text behind that.
#[tactic(auto, unfolding(crate::specs::Blocks::label_at))]
fn label(line: &[u8]) -> Option<(u32, &[u8])>
    ensures { option_map (λ x. (x.0, x.1.now)) result ≡ label_at line.now }
{
    let (id, rest) = numbered(skip_blanks(line), b"b")?;
    Some((id, behind(rest, b":")?))
}

/// Reads the line that opens a block.
#[tactic(auto, unfolding(crate::specs::Blocks::block_at))]
pub fn block_line(alloc: Global, line: &[u8]) -> Result<Option<BlockLine>, AllocError>
    ensures { IfOk result (λ read. read ≡ block_at line.now) }
{
    let Some((id, rest)) = label(line) else {
        return Ok(None);
    };
    let Some(preds) = preds(alloc, rest)? else {
        return Ok(None);
    };
    Ok(Some(BlockLine { id, preds }))
}
