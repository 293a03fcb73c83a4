// The next uses of all values at all places of a function.
ghost use Rattle.bk_live.specs.Rows.{AreRising};

use crate::counts::{Counts, steps_between};
use crate::edges::Edges;
use crate::homes::Homes;
use crate::live::live_rows;
use crate::places::Places;
use crate::rows::{LiveValue, Rows};
use crate::sets::{lesser, set_of};
use crate::uses::Scope;
use bk_func::{Func, Memory};
use std::alloc::Global;
use std::collections::BTreeSet;

/// The next uses of a function's values, the order of each block being fixed.
#[derive(Drop)]
pub struct Table {
    pub(crate) homes: Homes,
    pub(crate) places: Places,
    /// From the place of each block to those of its successors.
    pub(crate) edges: Edges,
    pub(crate) counts: Counts,
    /// The uses: the value, the place of the block, and how many entries of its order come before.
    pub(crate) uses: BTreeSet<(u32, usize, usize)>,
    /// What is live at the starts of blocks.
    pub(crate) live: Rows,
    ghost rising: { AreRising live },
}

/// What is seen of a value from a place of a block.
#[derive(Clone, Copy)]
pub(crate) enum Sight {
    /// A use comes first, behind so many entries of the order.
    Use(usize),
    /// Its definition comes first.
    Definition,
    /// Neither comes in the block.
    End,
}

impl Table {
    ghost use Rattle.std.specs.Prelude.{◌≡◌, ◌≤◌, ℕ, List, Some, IfOk, is_some, length, map, slice_index_or, []};
    ghost use Rattle.std.specs.List.{Contains, slice_get};
    ghost use Rattle.bk_func.specs.Records.{BlockRecord, FuncRecord};
    ghost use Rattle.bk_live.specs.Live.{IsOrdered, NextUseIs, order_at};
    ghost use Rattle.bk_live.specs.Table.{IsTable, IsLiveRow, definition, first_use, least_behind, look, next_at, next_in};

    /// The table of a function. The orders list the values of each block, in block order.
    pub fn new(alloc: Global, func: &Func, orders: &[Vec<u32>]) -> Result<Table, Memory>
        ensures { IsOrdered func.now (map (λ o. o.items) orders.now) → IfOk result (IsTable func.now (map (λ o. o.items) orders.now)) }
    {
        let scope = Scope::new(alloc, func, orders)?;
        let uses = scope.uses(alloc, func)?;
        let counts = Counts::new(alloc, func, orders)?;
        let live = live_rows(alloc, func, &scope, &counts, &uses)?;
        Ok(Table {
            edges: Edges::onwards(alloc, &func.blocks, &scope.places)?,
            uses: set_of(alloc, &uses)?,
            homes: scope.homes,
            places: scope.places,
            counts,
            live,
        })
    }

    /// The least number of scheduled places on a walk to a use of the value, from behind the first `after` entries of the
    /// block's order. The place of the use counts, the end of a block counts as one place, and phis do not count. None where
    /// no walk leads to a use without passing the value's definition.
    #[tactic(auto, unfolding(crate::specs::Table::next_in))]
    pub fn next(&self, block: u32, after: usize, value: u32) -> Option<u64>
        ensures is { result ≡ next_in self.now block after value }
        ensures next { (f : FuncRecord) (os : List (List ℕ)) (i : ℕ) (b : BlockRecord) → IsTable f os self.now → slice_get f.blocks i ≡ Some b → b.id ≡ block → after ≤ length (order_at os i) → NextUseIs f os value i after result }
    {
        let place = self.places.find(block)?;
        self.next_at(place, after, value)
    }

    /// The same, from a place of the block at this place.
    fn next_at(&self, place: usize, after: usize, value: u32) -> Option<u64>
        ensures { result ≡ next_at self.now after value place }
    {
        let before = self.counts.at(place, after)?;
        match self.look(place, after, value) {
            Sight::Use(entry) => {
                let behind = self.counts.at(place, entry)?;
                Some(steps_between(before, behind))
            }
            Sight::Definition => None,
            Sight::End => {
                let distance = self.least_behind(place, value)?;
                let steps = steps_between(before, self.counts.total(place));
                Some(steps + u64::from(distance))
            }
        }
    }

    /// Whether the value is live at the start of the block.
    pub fn is_live(&self, block: u32, value: u32) -> bool
        ensures { result ≡ is_some (next_in self.now block 0 value) }
    {
        self.next(block, 0, value).is_some()
    }

    /// The values that are live at the start of the block, by rising number.
    pub fn live_at_start(&self, block: u32) -> &[LiveValue]
        ensures { (f : FuncRecord) (os : List (List ℕ)) (i : ℕ) (b : BlockRecord) → IsTable f os self.now → slice_get f.blocks i ≡ Some b → b.id ≡ block → IsLiveRow f os i result.now }
    {
        match self.places.find(block) {
            Some(place) => self.live.row(place),
            None => &[],
        }
    }

    /// What comes first of the value behind the first `after` entries of the order of the block at this place.
    fn look(&self, place: usize, after: usize, value: u32) -> Sight
        ensures { result ≡ look self.now place after value }
    {
        match (
            self.first_use(place, after, value),
            self.definition(place, after, value),
        ) {
            (Some(used), Some(defined)) if defined < used => Sight::Definition,
            (Some(used), _) => Sight::Use(used),
            (None, Some(_)) => Sight::Definition,
            (None, None) => Sight::End,
        }
    }

    /// How many entries come before the first use of the value in the block at this place.
    fn first_use(&self, place: usize, after: usize, value: u32) -> Option<usize>
        ensures { result ≡ first_use self.now place after value }
    {
        match self.uses.range((value, place, after)..).next() {
            Some(found) if found.0 == value && found.1 == place => Some(found.2),
            _ => None,
        }
    }

    /// How many entries come before the value itself, where it stands behind these in the block at this place.
    fn definition(&self, place: usize, after: usize, value: u32) -> Option<usize>
        ensures { result ≡ definition self.now place after value }
    {
        match self.homes.find(value) {
            Some(home) if home.block == place && after <= home.entry => Some(home.entry),
            _ => None,
        }
    }

    /// The least distance from the starts of the successors.
    fn least_behind(&self, place: usize, value: u32) -> Option<u32>
        ensures { result ≡ least_behind self.now place value }
    {
        let mut least = None;
        for next in self.edges.behind(place) {
            least = lesser(least, self.live.distance(*next, value));
        }
        least
    }
}
