// How many scheduled places come before the entries of the orders of blocks.
ghost use Rattle.std.specs.Prelude.{◌≡◌, ℕ, ◌+◌, ◌-◌, ◌||◌, ◌==◌, ◌&&◌, IfOk, OnOk, map, length};
ghost use Rattle.std.specs.BTreeSet.{contains};
ghost use Rattle.std.specs.List.{list_any};
ghost use Rattle.std.specs.Ordering.{nat_cmp};
ghost use Rattle.bk_live.specs.Counts.{AreCounts, IsCounted, count_at, last_of, length_of, steps_between, total_at};
ghost use Rattle.bk_live.specs.Live.{cost, is_phi, names_phi};
ghost use Rattle.bk_func.specs.Records.{FuncRecord};

use crate::uses::is_phi;
use bk_func::{Func, Value};
use std::alloc::{AllocError, Global};
use std::collections::BTreeSet;
use std::marker::Model;

/// For each block how many of the first entries of its order are no phis: one count for each count of entries, 0 to all.
#[derive(Drop)]
pub struct Counts {
    rows: Vec<Vec<u32>>,
}

impl Model for Counts {
    ghost use Rattle.std.specs.Prelude.{List, ℕ, map};

    ghost Value = { List (List ℕ) };

    ghost view = { λ c. map (λ r. r.items) c.rows.items };
}

impl Counts {
    pub(crate) fn new(alloc: Global, func: &Func, orders: &[Vec<u32>]) -> Result<Counts, AllocError>
        ensures { IfOk result (AreCounts func.now (map (λ o. o.items) orders.now)) }
    {
        let phis = phis(alloc, func)?;
        let mut rows = Vec::with_capacity(alloc, orders.len())?;
        for order in orders {
            rows.push(row_of(alloc, &phis, order)?)?;
        }
        Ok(Counts { rows })
    }

    /// How many of the first entries of the order of the block at this place are no phis, if it has so many entries.
    pub(crate) fn at(&self, place: usize, entries: usize) -> Option<u32>
        ensures { result ≡ count_at self.now place entries }
    {
        self.rows.get(place)?.get(entries).copied()
    }

    /// How many of all entries are no phis.
    pub(crate) fn total(&self, place: usize) -> u32
        ensures { result ≡ total_at self.now place }
    {
        match self.rows.get(place) {
            Some(row) => last_of(row),
            None => 0,
        }
    }

    /// How far it is through each block, its end counted.
    pub(crate) fn lengths(&self, alloc: Global) -> Result<Vec<u64>, AllocError>
        ensures { IfOk result (λ lengths. lengths.items ≡ map length_of self.now) }
    {
        let mut lengths = Vec::with_capacity(alloc, self.rows.len())?;
        for row in &self.rows {
            lengths.push(steps_between(0, last_of(row)))?;
        }
        Ok(lengths)
    }
}

/// The last count of a row.
fn last_of(row: &[u32]) -> u32
    ensures { result ≡ last_of row.now }
{
    row.last().copied().unwrap_or(0)
}

/// How far it is from behind so many scheduled places to behind so many, the one behind them counted.
pub(crate) fn steps_between(before: u32, behind: u32) -> u64
    ensures { result ≡ steps_between before behind }
{
    u64::from(behind.saturating_sub(before)) + 1
}

fn row_of(alloc: Global, phis: &BTreeSet<u32>, order: &[u32]) -> Result<Vec<u32>, AllocError>
    ensures { (f : FuncRecord) → ((x : ℕ) → contains nat_cmp phis.now x ≡ names_phi f x) → IfOk result (λ row. IsCounted f order.now row.items) }
{
    let mut count = 0;
    let mut row = Vec::with_capacity(alloc, order.len())?;
    row.push(0)?;
    for number in order {
        count = with_entry(phis, count, *number)?;
        row.push(count)?;
    }
    Ok(row)
}

fn with_entry(phis: &BTreeSet<u32>, count: u32, number: u32) -> Result<u32, AllocError>
    ensures { (f : FuncRecord) → ((x : ℕ) → contains nat_cmp phis.now x ≡ names_phi f x) → IfOk result (λ more. more ≡ count + cost f number) }
{
    if phis.contains(&number) {
        return Ok(count);
    }
    match count.checked_add(1) {
        Some(more) => Ok(more),
        None => Err(AllocError),
    }
}

/// The numbers of the function's phis.
#[tactic(auto, unfolding(crate::specs::Live::names_phi))]
fn phis(alloc: Global, func: &Func) -> Result<BTreeSet<u32>, AllocError>
    ensures { IfOk result (λ phis. (x : ℕ) → contains nat_cmp phis x ≡ names_phi func.now x) }
{
    let mut phis = BTreeSet::new(alloc);
    for block in &func.blocks {
        add_phis(&mut phis, &block.values)?;
    }
    Ok(phis)
}

fn add_phis(phis: &mut BTreeSet<u32>, values: &[Value]) -> Result<(), AllocError>
    ensures { OnOk result ((x : ℕ) → contains nat_cmp phis.new x ≡ contains nat_cmp phis.old x || list_any (λ v. is_phi v.op.family && (v.id == x)) values.now) }
{
    for value in values {
        if is_phi(value) {
            phis.insert(value.id)?;
        }
    }
    Ok(())
}
