// The order in which blocks are laid out.
ghost use Rattle.std.specs.Prelude.{◌≡◌, ℕ, ◌<◌, ◌||◌, [], length, position, IfOk, OnOk, IfSome, option_and_then, option_copied, slice_get, slice_index_or, true, Some};
ghost use Rattle.std.specs.List.{list_any};
ghost use Rattle.std.specs.BTreeSet.{contains};
ghost use Rattle.std.specs.Ordering.{nat_cmp};
ghost use Rattle.bk_graph.specs.Joined.{IsJoined};
ghost use Rattle.bk_graph.specs.Layout.{marked, is_ready, next_block, laid_out, layout_of};
ghost use Rattle.bk_graph.specs.Named.{AreFirsts, block_ids};
ghost use Rattle.bk_graph.specs.Placing.{if_free, first_in, unplaced_in, names, next_place, number_at, IsOrder, IsAfter};

use crate::places::Places;
use bk_func::{Block, Func, Likely, Memory};
use std::alloc::{AllocError, Global};
use std::collections::BTreeSet;

/// The numbers of the blocks in the order in which they are laid out: the entry; then after each block the successor
/// that it is expected to take, if that one is not placed, else its first that is not; else the first block in list
/// order that is not placed and has a predecessor that is. Blocks that no walk leads to are left out.
///
/// Joined blocks are asked for, as the order goes by numbers and the code by places: each number is to be that of one block, and
/// predecessors and successors are to agree.
pub fn layout(alloc: Global, func: &Func) -> Result<Vec<u32>, Memory>
    requires { IsJoined func.now }
    ensures { IfOk result (λ order. order.items ≡ layout_of func.now) }
{
    let places = Places::of_blocks(alloc, &func.blocks)?;
    let mut order = Order::new(alloc, func, &places)?;
    if func.blocks.is_empty() {
        return Ok(order.numbers);
    }
    order.put(0)?;
    order.advance_by(func.blocks.len() - 1)?;
    Ok(order.numbers)
}

/// Blocks that are placed, and what may follow them.
#[derive(Drop)]
struct Order<'a> {
    func: &'a Func,
    places: &'a Places,
    /// For each block whether it is placed.
    placed: Vec<bool>,
    /// The places of the blocks that are not placed and have a predecessor that is.
    ready: BTreeSet<usize>,
    /// The place of the block that was placed last.
    last: Option<usize>,
    /// The numbers of the placed blocks, in their order.
    numbers: Vec<u32>,
}

impl<'a> Order<'a> {
    /// Nothing is placed.
    fn new(alloc: Global, func: &'a Func, places: &'a Places) -> Result<Order<'a>, AllocError>
        requires given { IsJoined func.now }
        requires firsts { AreFirsts (block_ids func.now.blocks) places.now }
        ensures order { IfOk result IsOrder }
        ensures func { IfOk result (λ order. order.func.now ≡ func.now) }
        ensures empty { IfOk result (λ order. order.numbers.items ≡ []) }
    {
        Ok(Order {
            func,
            places,
            placed: vec![in alloc; false; func.blocks.len()]?,
            ready: BTreeSet::new(alloc),
            last: None,
            numbers: Vec::with_capacity(alloc, func.blocks.len())?,
        })
    }

    /// Puts at most so many blocks behind those that are placed.
    fn advance_by(&mut self, count: usize) -> Result<(), AllocError>
        requires { IsOrder self.old }
        ensures { OnOk result (self.new.numbers.items ≡ laid_out count self.old.func.now self.old.numbers.items) }
    {
        for _step in 0..count {
            self.advance()?;
        }
        Ok(())
    }

    /// Puts the block that comes after those that are placed behind them, if there is one.
    fn advance(&mut self) -> Result<(), AllocError>
        requires { IsOrder self.old }
        ensures { OnOk result (IsAfter self.old self.new (next_block self.old.func.now self.old.numbers.items)) }
    {
        match self.next() {
            Some(place) => self.put(place),
            None => Ok(()),
        }
    }

    /// Puts the block at this place behind those that are placed.
    fn put(&mut self, place: usize) -> Result<(), AllocError>
        requires order { IsOrder self.old }
        requires within { place < length self.old.func.now.blocks }
        ensures { OnOk result (IsAfter self.old self.new (number_at self.old.func.now place)) }
    {
        let func = self.func;
        let block = &func.blocks[place];
        self.last = Some(place);
        self.placed[place] = true;
        self.ready.remove(&place);
        self.numbers.push(block.id)?;
        note_all(&mut self.ready, self.places, &self.placed, &block.succs)?;
        Ok(())
    }

    /// The place of the block that comes after those that are placed.
    fn next(&self) -> Option<usize>
        requires { IsOrder self.now }
        ensures number { option_and_then (number_at self.now.func.now) result ≡ next_block self.now.func.now self.now.numbers.items }
        ensures within { IfSome result (λ place. place < length self.now.func.now.blocks) }
    {
        match self.next_successor() {
            Some(next) => Some(next),
            None => self.first_ready(),
        }
    }

    /// The place of the unplaced successor that follows the block that was placed last.
    fn next_successor(&self) -> Option<usize>
        ensures { result ≡ next_place self.now.places.now self.now.placed.items (option_and_then (slice_get self.now.func.now.blocks) self.now.last) }
    {
        let func = self.func;
        match self.last {
            Some(place) => next_place(self.places, &self.placed, func.blocks.get(place)),
            None => None,
        }
    }

    /// The place of the first block in list order that is ready.
    fn first_ready(&self) -> Option<usize>
        requires { IsOrder self.now }
        ensures { result ≡ position (is_ready self.now.numbers.items) self.now.func.now.blocks }
    {
        self.ready.first().copied()
    }
}

/// The place of the unplaced successor that follows the block.
fn next_place(places: &Places, placed: &[bool], block: Option<&Block>) -> Option<usize>
    ensures { result ≡ next_place places.now placed.now (option_copied block.entry) }
{
    match block {
        Some(block) => {
            let marked = marked_unplaced(places, placed, marked(block));
            match marked {
                Some(place) => Some(place),
                None => first_unplaced(places, placed, &block.succs),
            }
        }
        None => None,
    }
}

fn marked_unplaced(places: &Places, placed: &[bool], number: Option<u32>) -> Option<usize>
    ensures { result ≡ option_and_then (unplaced_in places.now placed.now) number }
{
    match number {
        Some(number) => unplaced(places, placed, number),
        None => None,
    }
}

/// The place of the first number whose block is not placed.
#[tactic(auto, using(crate::proofs::Readying::first_rules))]
fn first_unplaced(places: &Places, placed: &[bool], numbers: &[u32]) -> Option<usize>
    ensures { result ≡ first_in places.now placed.now numbers.now }
{
    for number in numbers {
        if let Some(place) = unplaced(places, placed, *number) {
            return Some(place);
        }
    }
    None
}

/// The place of the block with this number, if it is not placed.
fn unplaced(places: &Places, placed: &[bool], number: u32) -> Option<usize>
    ensures { result ≡ unplaced_in places.now placed.now number }
{
    match places.find(number) {
        Some(place) => if_free(placed, place),
        None => None,
    }
}

fn if_free(placed: &[bool], place: usize) -> Option<usize>
    ensures { result ≡ if_free placed.now (Some place) }
{
    if is_placed(placed, place) {
        None
    } else {
        Some(place)
    }
}

fn is_placed(placed: &[bool], place: usize) -> bool
    ensures { result ≡ slice_index_or placed.now place true }
{
    placed.get(place).copied().unwrap_or(true)
}

/// Notes the unplaced blocks with these numbers.
fn note_all(
    ready: &mut BTreeSet<usize>,
    places: &Places,
    placed: &[bool],
    numbers: &[u32],
) -> Result<(), AllocError>
    ensures { OnOk result ((q : ℕ) → contains nat_cmp ready.new q ≡ (contains nat_cmp ready.old q || list_any (λ s. names q (unplaced_in places.now placed.now s)) numbers.now)) }
{
    for number in numbers {
        note(ready, unplaced(places, placed, *number))?;
    }
    Ok(())
}

fn note(ready: &mut BTreeSet<usize>, place: Option<usize>) -> Result<(), AllocError>
    ensures { OnOk result ((q : ℕ) → contains nat_cmp ready.new q ≡ (contains nat_cmp ready.old q || names q place)) }
{
    if let Some(place) = place {
        ready.insert(place)?;
    }
    Ok(())
}

/// The successor that the block is expected to take.
fn marked(block: &Block) -> Option<u32>
    ensures { result ≡ marked block.now.likely block.now.succs }
{
    match block.likely {
        Likely::No => None,
        Likely::First => block.succs.get(0).copied(),
        Likely::Second => block.succs.get(1).copied(),
    }
}
