// A share is made and closed.
ghost use Rattle.std.specs.Prelude.{ℕ, vec_len, slice_index, ◌%◌, ◌≡◌, ◌≢◌, ◌<◌, ◌+◌, ◌≤◌, ◌^◌, [], ◌∷◌, length, map, All, IfOk, OnOk};
ghost use Rattle.std.specs.Slots.{slots_items, slots_len, IsFull};
ghost use Rattle.bk_core.specs.Rule.{sight, cells_of};
ghost use Rattle.bk_core.specs.Events.{CoreState, words_of, zeros, core_state, MeetsRule};
ghost use Rattle.bk_share.specs.Plan.{base};
ghost use Rattle.bk_share.specs.Passes.{IsPassOf, view, announced_in, parts_in, count_in, IsLast};

use crate::rules::Plan;
use crate::shares::{Pass, Share};
use atomic_table::{Closed, Table};
use bk_core::Memory;
use std::alloc::Global;

// No memory holds an area of more keys.
const MOST_KEYS: usize = 1 << 59;

// A row of cells with nothing.
fn zero_row(alloc: Global, len: usize) -> Result<Vec<u64>, Memory>
    ensures { IfOk result (λ v. v.items ≡ zeros len) }
{
    let mut row = Vec::new(alloc);
    row.resize(len, 0)?;
    Ok(row)
}

// How many cells each area has.
fn sizes_of(announced: &[Vec<u64>; 3]) -> Result<[u64; 3], Memory>
    ensures sizes { IfOk result (λ r. r ≡ cells_of (map (λ v. v.items) announced.now) 0 ∷ cells_of (map (λ v. v.items) announced.now) 1 ∷ cells_of (map (λ v. v.items) announced.now) 2 ∷ []) }
    ensures small { OnOk result (base (map (λ v. v.items) announced.now) 3 < 2 ^ 62) }
{
    let [a, b, c] = announced;
    if a.len() > MOST_KEYS || b.len() > MOST_KEYS || c.len() > MOST_KEYS {
        return Err(Memory);
    }
    Ok([a.len() as u64 + 1, b.len() as u64 + 1, c.len() as u64 + 1])
}

impl Share {
    /// A share whose claims are answered below `count`, and the pass that has all its parts. Each area
    /// has one cell more than the keys that are announced in it, repeats counted. No key is 0.
    pub fn new(
        alloc: Global,
        count: u64,
        announced: [Vec<u64>; 3],
        parts: u64,
    ) -> Result<(Share, Pass), Memory>
        requires keys { All (λ keys. All (λ key. key ≢ 0) keys) (map (λ v. v.items) announced) }
        requires parts { 1 ≤ parts }
        ensures share { IfOk result (λ r. (announced_in r.0 ≡ map (λ v. v.items) announced) × (parts_in r.0 ≡ parts) × (count_in r.0 ≡ count)) }
        ensures pass { IfOk result (λ r. IsPassOf r.0 r.1 × (view r.1 ≡ sight parts [] [])) }
    {
        let sizes = sizes_of(&announced)?;
        let bases = [
            1,
            1 + sizes[0] as usize,
            1 + sizes[0] as usize + sizes[1] as usize,
        ];
        let words = zero_row(alloc, bases[2] + sizes[2] as usize)?;
        let first = zero_row(alloc, sizes[0] as usize)?;
        let second = zero_row(alloc, sizes[1] as usize)?;
        let third = zero_row(alloc, sizes[2] as usize)?;
        let rows = Vec::with_capacity(alloc, 3)?;
        let plan = Plan { announced, parts };
        let (table, seat) = Table::of_words(alloc, words.as_slice(), &plan)?;
        let share = Share {
            table,
            count,
            sizes,
            bases,
            first,
            second,
            third,
            rows,
        };
        Ok((share, Pass { seat }))
    }

    /// Ends the share, and gives the words of the three areas. The pass has all the parts, so no other
    /// pass has numbers or known pairs.
    pub fn close(self, pass: Pass) -> Vec<Vec<u64>>
        requires pass { IsPassOf self pass }
        requires all { (view pass).parts ≡ parts_in self }
        ensures areas { vec_len result ≡ 3 }
        ensures last { (m : CoreState) × IsLast (announced_in self) (parts_in self) (words_of result) (view pass) m }
        ensures rule { MeetsRule (announced_in self) (parts_in self) (core_state (length (view pass).numbers % 2 ^ 64) (words_of result) (view pass ∷ [])) }
    {
        let Share {
            table,
            count: _,
            sizes: _,
            bases,
            mut first,
            mut second,
            mut third,
            mut rows,
        } = self;
        let Pass { seat } = pass;
        let closed = table.close_with(seat);
        fill(&closed, bases[0], &mut first);
        fill(&closed, bases[1], &mut second);
        fill(&closed, bases[2], &mut third);
        closed.free();
        rows.push_reserved(first);
        rows.push_reserved(second);
        rows.push_reserved(third);
        rows
    }
}

// Copies the table's words from the place on to the row.
fn fill(closed: &Closed<(), Global>, from: usize, row: &mut Vec<u64>)
    requires full { IsFull closed.now.words }
    requires room { from + vec_len row.old ≤ slots_len closed.now.words }
    ensures len { vec_len row.new ≡ vec_len row.old }
    ensures words { (k : ℕ) → k < vec_len row.new → slice_index row.new.items k ≡ slice_index (slots_items closed.now.words) (from + k) }
{
    for k in 0..row.len() {
        row[k] = closed.word(from + k);
    }
}
