// What a worker does with its pass.
ghost use Rattle.std.specs.Prelude.{ℕ, ◌≡◌, ◌≢◌, ◌<◌, ◌+◌, []};
ghost use Rattle.std.specs.List.{Contains};
ghost use Rattle.bk_core.specs.Rule.{sight, keys_of, cells_of};
ghost use Rattle.bk_core.specs.Events.{drew, saw, less, both, HasWalked};
ghost use Rattle.bk_share.specs.Plan.{base};
ghost use Rattle.bk_share.specs.Law.{IsSound};
ghost use Rattle.bk_share.specs.Passes.{IsPassOf, view, announced_in, count_in, Drew, Learns, knows_more};

use crate::rules::{Drawing, Looking, OnePart, Taking, Together};
use crate::shares::{Pass, Share};
use bk_piece::Handle;

impl Share {
    /// Gives one part of the pass to a new pass, which has no numbers and no known pairs.
    pub fn split(&self, pass: &mut Pass) -> Pass
        requires pass { IsPassOf self.now pass.old }
        requires parts { 1 < (view pass.old).parts }
        ensures pass { IsPassOf self.now pass.new × (view pass.new ≡ less (view pass.old)) }
        ensures other { IsPassOf self.now result × (view result ≡ sight 1 [] []) }
    {
        let seat = self.table.shared.split_seat::<OnePart>(&mut pass.seat);
        Pass { seat }
    }

    /// Gives the pass all parts, numbers and known pairs of the other.
    pub fn join(&self, pass: &mut Pass, other: Pass)
        requires pass { IsPassOf self.now pass.old }
        requires other { IsPassOf self.now other }
        ensures pass { IsPassOf self.now pass.new }
        ensures both { view pass.new ≡ both (view pass.old) (view other) }
    {
        let Pass { seat } = other;
        self.table
            .shared
            .join_seat::<Together>(&mut pass.seat, seat);
    }

    /// Draws the next number, in one step. The answer is the number where it is below the count of the
    /// share, and `None` where it is not.
    pub fn claim(&self, pass: &mut Pass) -> Option<u64>
        requires { IsPassOf self.now pass.old }
        ensures pass { IsPassOf self.now pass.new }
        ensures drew { Drew (count_in self.now) (view pass.old) result (view pass.new) }
    {
        let number = self.draw(pass);
        if number < self.count {
            Some(number)
        } else {
            None
        }
    }

    // The number that was drawn.
    fn draw(&self, pass: &mut Pass) -> u64
        requires { IsPassOf self.now pass.old }
        ensures pass { IsPassOf self.now pass.new }
        ensures drew { view pass.new ≡ drew (view pass.old) result }
    {
        self.table.shared.fetch_add::<Drawing>(&mut pass.seat, 0, 1)
    }

    /// Finds the cell of a key that is announced in the area, and puts the key there if it is the first
    /// to ask. It walks from the cell `key mod cells` upwards, round the end. The walk ends, since one
    /// cell of an area is always free.
    ///
    /// The handle's cell is the only one that the pass knows with this key: who asks again gets it again.
    pub fn intern(&self, pass: &mut Pass, area: u8, key: u64) -> Handle
        requires pass { IsPassOf self.now pass.old }
        requires key { Contains (keys_of (announced_in self.now) area) key }
        ensures pass { IsPassOf self.now pass.new }
        ensures learns { Learns (cells_of (announced_in self.now) area) area key (view pass.old) (view pass.new) }
        ensures handle { (result.area ≡ area) × Contains (view pass.new).known (area, result.cell, key) }
        ensures one_cell { (cell : ℕ) → Contains (view pass.new).known (area, cell, key) → cell ≡ result.cell }
    {
        let cells = self.cells(area);
        let mut cell = key % cells;
        for step in 0..cells {
            let found = self.visit(pass, area, cell, key);
            if found == key {
                return Handle { area, cell };
            }
            cell += 1;
            if cell == cells {
                cell = 0;
            }
        }
        unreachable!()
    }

    // What the cell holds, after it was taken if it was empty.
    fn visit(&self, pass: &mut Pass, area: u8, cell: u64, key: u64) -> u64
        requires pass { IsPassOf self.now pass.old }
        requires area { area < 3 }
        requires cell { cell < cells_of (announced_in self.now) area }
        requires key { (key ≢ 0) × Contains (keys_of (announced_in self.now) area) key }
        requires way { HasWalked (view pass.old).known (cells_of (announced_in self.now) area) area cell key }
        ensures pass { IsPassOf self.now pass.new }
        ensures learnt { view pass.new ≡ knows_more (view pass.old) area cell result }
        ensures sound { IsSound pass.new.seat.me.0 }
    {
        let found = self.look(pass, area, cell);
        if found != 0 {
            return found;
        }
        self.take(pass, area, cell, key)
    }

    // The word of a cell.
    fn look(&self, pass: &mut Pass, area: u8, cell: u64) -> u64
        requires pass { IsPassOf self.now pass.old }
        requires area { area < 3 }
        requires cell { cell < cells_of (announced_in self.now) area }
        ensures pass { IsPassOf self.now pass.new }
        ensures saw { view pass.new ≡ saw (view pass.old) area cell result }
        ensures sound { IsSound pass.new.seat.me.0 }
    {
        let word = self.word_of(area, cell);
        self.table.shared.load::<Looking>(&mut pass.seat, word)
    }

    // The word of a cell after it was taken, by this pass or by another.
    fn take(&self, pass: &mut Pass, area: u8, cell: u64, key: u64) -> u64
        requires pass { IsPassOf self.now pass.old }
        requires area { area < 3 }
        requires cell { cell < cells_of (announced_in self.now) area }
        requires key { (key ≢ 0) × Contains (keys_of (announced_in self.now) area) key }
        requires way { HasWalked (view pass.old).known (cells_of (announced_in self.now) area) area cell key }
        ensures pass { IsPassOf self.now pass.new }
        ensures took { (result ≢ 0) × (view pass.new ≡ saw (view pass.old) area cell result) }
        ensures sound { IsSound pass.new.seat.me.0 }
    {
        let word = self.word_of(area, cell);
        let found = self
            .table
            .shared
            .compare_exchange::<Taking>(&mut pass.seat, word, 0, key);
        if found == 0 { key } else { found }
    }

    // The place of a cell in the table.
    fn word_of(&self, area: u8, cell: u64) -> usize
        requires area { area < 3 }
        requires cell { cell < cells_of (announced_in self.now) area }
        ensures { result ≡ base (announced_in self.now) area + cell }
    {
        self.bases[area as usize] + cell as usize
    }

    // How many cells the area has.
    fn cells(&self, area: u8) -> u64
        requires { area < 3 }
        ensures { result ≡ cells_of (announced_in self.now) area }
    {
        self.sizes[area as usize]
    }
}
