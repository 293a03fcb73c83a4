// Where values stand in the orders of blocks.
ghost use Rattle.std.specs.Prelude.{◌≡◌, ◌↔◌, ◌+◌, IfOk, OnOk, IsTrue, map};
ghost use Rattle.bk_live.specs.Homes.{home, AreHomes, HomesUpTo, IsBehind};
ghost use Rattle.bk_live.specs.Live.{order_at};

use std::alloc::{AllocError, Global};
use std::collections::BTreeMap;

/// A place in a block: the place of the block, and how many entries of its order come before.
#[derive(Clone, Copy, Drop)]
pub(crate) struct Spot {
    pub(crate) block: usize,
    pub(crate) entry: usize,
}

/// For each number in the orders of the blocks the spot at which it stands.
#[derive(Drop)]
pub(crate) struct Homes {
    pub(crate) spots: BTreeMap<u32, Spot>,
}

impl Homes {
    pub(crate) fn new(alloc: Global, orders: &[Vec<u32>]) -> Result<Homes, AllocError>
        ensures { IfOk result (λ homes. AreHomes (map (λ o. o.items) orders.now) (home homes)) }
    {
        let mut homes = Homes {
            spots: BTreeMap::new(alloc),
        };
        for block in 0..orders.len() {
            homes.add(orders, block)?;
        }
        Ok(homes)
    }

    /// Adds the entries of the order at this place.
    fn add(&mut self, orders: &[Vec<u32>], block: usize) -> Result<(), AllocError>
        requires { HomesUpTo (map (λ o. o.items) orders.now) block 0 (home self.old) }
        ensures { OnOk result (HomesUpTo (map (λ o. o.items) orders.now) (block + 1) 0 (home self.new)) }
    {
        for (entry, number) in order_of(orders, block).iter().enumerate() {
            self.spots.insert(*number, Spot { block, entry })?;
        }
        Ok(())
    }

    /// The spot at which the value with this number stands.
    pub(crate) fn find(&self, number: u32) -> Option<Spot>
        ensures { result ≡ home self.now number }
    {
        self.spots.get(&number).copied()
    }

    /// Whether the value stands in the block of the spot, before it.
    pub(crate) fn is_behind(&self, number: u32, spot: Spot) -> bool
        ensures { IsTrue result ↔ IsBehind (home self.now) number spot }
    {
        match self.find(number) {
            Some(home) => home.block == spot.block && home.entry < spot.entry,
            None => false,
        }
    }
}

/// The order of the block at this place.
pub(crate) fn order_of(orders: &[Vec<u32>], place: usize) -> &[u32]
    ensures { result.now ≡ order_at (map (λ o. o.items) orders.now) place }
{
    match orders.get(place) {
        Some(order) => order,
        None => &[],
    }
}
