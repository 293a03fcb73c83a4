// The lines of a block.
ghost use Rattle.std.specs.Prelude.{◌≡◌, ◌++◌, string_bytes, OnOk};
ghost use Rattle.bk_dump.specs.Print.{edges, label, kind_name, control_part, mark, mark_part, ending, block_text, block_texts};

use crate::print::part::write_numbers;
use crate::print::value::write_values;
use bk_func::{Block, Kind, Likely, Memory, Package, Sig};
use std::alloc::{AllocError, Global};

/// Writes the blocks of a function.
#[tactic(auto, unfolding(crate::specs::Print::block_texts))]
pub fn write_blocks(
    alloc: Global,
    out: &mut String,
    pkg: &Package,
    sig: &Sig,
    blocks: &[Block],
) -> Result<(), Memory>
    ensures { OnOk result (string_bytes out.new ≡ string_bytes out.old ++ block_texts pkg.now sig.now blocks.now) }
{
    for block in blocks {
        write_block(alloc, out, pkg, sig, block)?;
    }
    Ok(())
}

#[tactic(auto, unfolding(crate::specs::Print::block_text))]
fn write_block(
    alloc: Global,
    out: &mut String,
    pkg: &Package,
    sig: &Sig,
    block: &Block,
) -> Result<(), Memory>
    ensures { OnOk result (string_bytes out.new ≡ string_bytes out.old ++ block_text pkg.now sig.now block.now) }
{
    write_label(out, block)?;
    write_values(alloc, out, pkg, sig, &block.values)?;
    write_ending(out, block)?;
    Ok(())
}

/// Writes `bN: <- PREDECESSORS`.
#[tactic(auto, unfolding(crate::specs::Print::label))]
fn write_label(out: &mut String, block: &Block) -> Result<(), AllocError>
    ensures { OnOk result (string_bytes out.new ≡ string_bytes out.old ++ label block.now) }
{
    let id = block.id;
    write!(out, "b{id}:")?;
    write_edges(out, " <-", &block.preds)?;
    out.push_str("\n")
}

/// Writes an arrow and blocks, where there are any.
#[tactic(auto, unfolding(crate::specs::Print::edges))]
fn write_edges(out: &mut String, arrow: &str, blocks: &[u32]) -> Result<(), AllocError>
    ensures { OnOk result (string_bytes out.new ≡ string_bytes out.old ++ edges arrow.now blocks.now) }
{
    if blocks.is_empty() {
        return Ok(());
    }
    out.push_str(arrow)?;
    write_numbers(out, " b", blocks)
}

/// Writes `KIND CONTROL -> SUCCESSORS (LIKELY)`.
#[tactic(auto, unfolding(crate::specs::Print::ending))]
fn write_ending(out: &mut String, block: &Block) -> Result<(), AllocError>
    ensures { OnOk result (string_bytes out.new ≡ string_bytes out.old ++ ending block.now) }
{
    out.push_str(kind_name(block.kind))?;
    write_control(out, block.control)?;
    write_edges(out, " ->", &block.succs)?;
    out.push_str(mark(block.kind, block.likely))?;
    out.push_str("\n")
}

#[tactic(auto, unfolding(crate::specs::Print::kind_name))]
fn kind_name(kind: Kind) -> &'static str
    ensures { result.now ≡ kind_name kind }
{
    match kind {
        Kind::Plain => "  Plain",
        Kind::If => "  If",
        Kind::First => "  First",
        Kind::Ret => "  Ret",
        Kind::Exit => "  Exit",
    }
}

#[tactic(auto, unfolding(crate::specs::Print::control_part))]
fn write_control(out: &mut String, control: Option<u32>) -> Result<(), AllocError>
    ensures { OnOk result (string_bytes out.new ≡ string_bytes out.old ++ control_part control) }
{
    match control {
        Some(value) => write!(out, " v{value}"),
        None => Ok(()),
    }
}

/// The mark of the successor that an `If` is expected to take.
#[tactic(auto, unfolding(crate::specs::Print::mark_part, crate::specs::Print::mark))]
fn mark(kind: Kind, likely: Likely) -> &'static str
    ensures { result.now ≡ mark_part kind likely }
{
    match (kind, likely) {
        (Kind::If, Likely::First) => " (likely)",
        (Kind::If, Likely::Second) => " (unlikely)",
        _ => "",
    }
}
