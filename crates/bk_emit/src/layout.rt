// The lines of a placed function, and the words that each has.
ghost use Rattle.std.specs.Prelude.{◌≡◌, ◌+◌, ◌++◌, ◌∷◌, ℕ, length, drop, slice_get, slice_index, unwrap_or, option_map, IfOk, OnOk};
ghost use Rattle.std.specs.BTreeMap.{get};
ghost use Rattle.std.specs.Ordering.{nat_cmp};
ghost use Rattle.bk_emit.specs.Code.{function_lines, start_of, to_branch, branches_from, width_of, sizes_behind, widths, places_from};
ghost use Rattle.bk_emit.specs.Tables.{look, line_of};

use crate::blocks::{Frame, put_block};
use crate::lines::Line;
use crate::machine::Machine;
use crate::table::Entry;
use bk_fixup::Branch;
use bk_func::{Memory, PlacedBlock};
use std::alloc::{AllocError, Global};
use std::collections::BTreeMap;

/// The lines of a function, and for each block's number the place of its first line.
#[derive(Drop)]
pub struct Lines {
    pub(crate) lines: Vec<Line>,
    pub(crate) starts: BTreeMap<u32, usize>,
}

impl Lines {
    /// The lines of blocks in this order.
    pub(crate) fn new<M: Machine>(
        alloc: Global,
        blocks: &[PlacedBlock],
        frame: Frame,
        entries: &BTreeMap<u32, Entry<'_>>,
    ) -> Result<Lines, AllocError>
        ensures lines { IfOk result (λ l. l.lines.items ≡ function_lines M.forms frame (look entries.now) blocks.now) }
        ensures starts { IfOk result (λ l. (n : ℕ) → line_of l.starts n ≡ start_of M.forms frame (look entries.now) blocks.now n) }
    {
        let mut lines = Vec::new(alloc);
        let mut starts = BTreeMap::new(alloc);
        M::put_entry(&mut lines, frame.bytes)?;
        for (place, block) in blocks.iter().enumerate() {
            let start = start_or(starts.get(&block.id).copied(), lines.len());
            starts.insert(block.id, start)?;
            let next = number_at(blocks, place + 1);
            put_block::<M>(&mut lines, block, next, frame, entries)?;
        }
        Ok(Lines { lines, starts })
    }

    /// The place of the first line of a block, 0 where there is none with this number.
    pub(crate) fn start(&self, block: u32) -> usize
        ensures { result ≡ line_of self.now.starts block }
    {
        self.starts.get(&block).copied().unwrap_or(0)
    }

    /// The branches among the lines.
    fn branches(&self, alloc: Global) -> Result<Vec<Branch>, AllocError>
        ensures { IfOk result (λ bs. bs.items ≡ branches_from (line_of self.now.starts) 0 self.now.lines.items) }
    {
        let mut branches = Vec::new(alloc);
        for (place, line) in self.lines.iter().enumerate() {
            self.push_branch(&mut branches, place, *line)?;
        }
        Ok(branches)
    }

    fn push_branch(
        &self,
        branches: &mut Vec<Branch>,
        place: usize,
        line: Line,
    ) -> Result<(), AllocError>
        ensures { OnOk result (branches.new.items ≡ branches.old.items ++ to_branch (line_of self.now.starts) place line) }
    {
        match line {
            Line::Jump(block) => branches.push(self.branch(place, block, false)?)?,
            Line::Branch(_, block) => branches.push(self.branch(place, block, true)?)?,
            Line::Word(_) | Line::Open(..) => {}
        }
        Ok(())
    }

    fn branch(&self, place: usize, block: u32, cond: bool) -> Result<Branch, AllocError>
        ensures { IfOk result (λ b. b ≡ record { at = place; target = line_of self.now.starts block; cond = cond }) }
    {
        let at = narrow(place)?;
        let target = narrow(self.start(block))?;
        Ok(Branch { at, target, cond })
    }

    /// The sizes of the branches.
    pub(crate) fn sizes<M: Machine>(&self, alloc: Global) -> Result<Vec<u8>, Memory>
        ensures { IfOk result (λ zs. M.forms.sized (branches_from (line_of self.now.starts) 0 self.now.lines.items) zs.items) }
    {
        let branches = self.branches(alloc)?;
        let lines = narrow(self.lines.len())?;
        M::sizes(alloc, &branches, lines)
    }
}

/// Where a block begins: where its number began before, else here.
fn start_or(before: Option<usize>, here: usize) -> usize
    ensures { result ≡ unwrap_or before here }
{
    before.unwrap_or(here)
}

/// The number of the block at a place.
fn number_at(blocks: &[PlacedBlock], place: usize) -> Option<u32>
    ensures { result ≡ option_map (λ b. b.id) (slice_get blocks.now place) }
{
    match blocks.get(place) {
        Some(block) => Some(block.id),
        None => None,
    }
}

/// A place as a number of 32 bits; code beyond these is answered as want of memory.
fn narrow(place: usize) -> Result<u32, AllocError>
    ensures { IfOk result (λ n. n ≡ place) }
{
    if place < 0x1_0000_0000 {
        Ok(place as u32)
    } else {
        Err(AllocError)
    }
}

/// The words of each line, by the sizes of the branches.
pub(crate) fn widths_of(alloc: Global, lines: &[Line], sizes: &[u8]) -> Result<Vec<u8>, AllocError>
    ensures words { IfOk result (λ ws. ws.items ≡ widths sizes.now lines.now) }
    ensures long { IfOk result (λ ws. length ws.items ≡ length lines.now) }
{
    let mut widths = Vec::with_capacity(alloc, lines.len())?;
    let mut rest = sizes;
    for line in lines {
        widths.push(width_of(*line, rest))?;
        rest = sizes_behind(*line, rest);
    }
    Ok(widths)
}

/// The words of a line: one, or the first of the sizes of branches that are left.
fn width_of(line: Line, sizes: &[u8]) -> u8
    ensures { result ≡ width_of sizes.now line }
{
    match line {
        Line::Jump(_) | Line::Branch(..) => sizes.first().copied().unwrap_or(1),
        Line::Word(_) | Line::Open(..) => 1,
    }
}

/// The sizes that are left behind a line.
fn sizes_behind(line: Line, sizes: &[u8]) -> &[u8]
    ensures { result.now ≡ sizes_behind sizes.now line }
{
    match line {
        Line::Jump(_) | Line::Branch(..) => { if sizes.is_empty() { sizes } else { &sizes[1..] } }
        Line::Word(_) | Line::Open(..) => sizes,
    }
}

/// The place of each line in the code.
pub(crate) fn places_of(alloc: Global, widths: &[u8]) -> Result<Vec<u32>, AllocError>
    ensures { IfOk result (λ places. places.items ≡ places_from 0 widths.now) }
{
    let mut places = Vec::with_capacity(alloc, widths.len())?;
    let mut place = 0;
    for width in widths {
        places.push(place)?;
        place = next_place(place, *width)?;
    }
    Ok(places)
}

/// The place behind a line of so many words.
pub(crate) fn next_place(place: u32, width: u8) -> Result<u32, AllocError>
    ensures { IfOk result (λ next. next ≡ place + width) }
{
    match place.checked_add(u32::from(width)) {
        Some(next) => Ok(next),
        None => Err(AllocError),
    }
}
