// The share and the passes.
ghost use Rattle.std.specs.Prelude.{ℕ, ◌≢◌, ◌≡◌, ◌<◌, ◌^◌, [], ◌∷◌, ◌+◌, ◌≤◌, length, vec_len, vec_capacity};
ghost use Rattle.std.specs.List.{Contains};
ghost use Rattle.bk_core.specs.Rule.{keys_of, cells_of};
ghost use Rattle.bk_share.specs.Plan.{base};

use crate::rules::{Law, Plan, Seen};
use atomic_table::{Seat, Table};
use std::alloc::Global;

/// A counter of claims and three tables of keys, which workers step on through a `&Share`.
#[derive(Drop)]
pub struct Share {
    pub(crate) table: Table<(), Seen, Plan, Law, Global>,
    pub(crate) count: u64,
    // How many cells each area has, and the word at which it begins.
    pub(crate) sizes: [u64; 3],
    pub(crate) bases: [usize; 3],
    // Room for the areas' words, in which `close` hands them out without taking memory.
    pub(crate) first: Vec<u64>,
    pub(crate) second: Vec<u64>,
    pub(crate) third: Vec<u64>,
    pub(crate) rows: Vec<Vec<u64>>,
    ghost room_is: { (vec_len first ≡ cells_of table.shared.key.announced 0) × (vec_len second ≡ cells_of table.shared.key.announced 1) × (vec_len third ≡ cells_of table.shared.key.announced 2) },
    ghost rows_are: { (rows.items ≡ []) × (3 ≤ vec_capacity rows) },
    ghost nonzero: { (area key : ℕ) → Contains (keys_of table.shared.key.announced area) key → key ≢ 0 },
    ghost three: { length table.shared.key.announced ≡ 3 },
    ghost some_parts: { 1 ≤ table.shared.key.parts },
    ghost no_slots: { table.shared.table_id.slots ≡ 0 },
    ghost words: { table.shared.table_id.words ≡ base table.shared.key.announced 3 },
    ghost sizes_are: { sizes ≡ cells_of table.shared.key.announced 0 ∷ cells_of table.shared.key.announced 1 ∷ cells_of table.shared.key.announced 2 ∷ [] },
    ghost bases_are: { bases ≡ base table.shared.key.announced 0 ∷ base table.shared.key.announced 1 ∷ base table.shared.key.announced 2 ∷ [] },
    ghost fits: { base table.shared.key.announced 3 < 2 ^ 62 },
}

/// The leave to step on a share, with a number of parts. What it drew and learnt is known to contracts
/// alone, and is not kept when the program runs.
#[derive(Drop)]
pub struct Pass {
    pub(crate) seat: Seat<(), Seen>,
}
