// The core and its events.
ghost use Rattle.std.specs.Prelude.{◌≡◌, ◌≢◌, ◌+◌, ◌<◌, ◌^◌, [], length, slice_index_or, slice_set, vec_len, OnOk, OnErr};
ghost use Rattle.bk_core.specs.Rule.{nobody, worker};
ghost use Rattle.bk_core.specs.Events.{CoreState, both, words_of, with_word, PartsFit, after, CanHappen};

use crate::views::View;
use bk_ops::Memory;
use std::alloc::Global;
use std::marker::Model;
use std::mem;

/// One thing that happens to a core. An area is 0, 1 or 2.
#[derive(Debug, Clone, Copy, PartialEq, Eq)]
pub enum Event {
    /// The worker draws the claims word.
    Claim {
        worker: u32,
    },
    /// The worker looks at a cell.
    Look {
        worker: u32,
        area: u8,
        cell: u64,
    },
    /// The worker puts the key into the cell if it is empty, and learns what then stands there.
    Take {
        worker: u32,
        area: u8,
        cell: u64,
        key: u64,
    },
    /// One part of the worker goes to a new last worker.
    Split {
        worker: u32,
    },
    /// The worker `to` gains all that `from` has.
    Join {
        from: u32,
        to: u32,
    },
}

/// What workers share, as plain data.
#[derive(Drop)]
pub struct Core {
    /// The number that is drawn next.
    pub claims: u64,
    /// The cells of the areas. An empty cell is 0.
    pub areas: Vec<Vec<u64>>,
    pub workers: Vec<View>,
}

impl Model for Core {
    ghost Value = { CoreState };

    ghost view = { λ c. record { claims = c.claims; areas = words_of c.areas; workers = c.workers.items } };
}

/// Lets one event happen. After an error the core is as before.
///
/// Its worker exists and has a part, for a split two. A cell lies in its area. A take's key is not 0, and
/// its worker knows each earlier cell on the key's walk, with another key. Two workers that join differ,
/// and their parts add up to less than 2^64.
pub fn step(alloc: Global, core: &mut Core, event: Event) -> Result<(), Memory>
    requires can { CanHappen core.old event }
    requires fits { PartsFit core.old event }
    ensures ok { OnOk result (core.new ≡ after core.old event) }
    ensures err { OnErr result (core.new ≡ core.old) }
{
    match event {
        Event::Claim { worker } => {
            core.workers[worker as usize].draw(core.claims)?;
            core.claims = core.claims.wrapping_add(1);
            Ok(())
        }
        Event::Look { worker, area, cell } => {
            let word = core.areas[area as usize][cell as usize];
            core.workers[worker as usize].learn(area, cell, word)
        }
        Event::Take {
            worker,
            area,
            cell,
            key,
        } => {
            let word = core.areas[area as usize][cell as usize];
            let now = if word == 0 { key } else { word };
            core.workers[worker as usize].learn(area, cell, now)?;
            put(&mut core.areas, area as usize, cell as usize, now);
            Ok(())
        }
        Event::Split { worker } => {
            core.workers.reserve(1)?;
            core.workers[worker as usize].parts -= 1;
            core.workers.push_reserved(View::of_parts(alloc, 1));
            Ok(())
        }
        Event::Join { from, to } => join(
            &mut core.workers,
            from as usize,
            to as usize,
            View::of_parts(alloc, 0),
        ),
    }
}

// Writes the word into the cell.
fn put(areas: &mut Vec<Vec<u64>>, area: usize, cell: usize, word: u64)
    requires area { area < vec_len areas.old }
    requires cell { cell < length (slice_index_or (words_of areas.old) area []) }
    ensures { words_of areas.new ≡ with_word (words_of areas.old) area cell word }
{
    areas[area][cell] = word;
}

// Gives all that `from` has to `to`.
fn join(workers: &mut Vec<View>, from: usize, to: usize, nothing: View) -> Result<(), Memory>
    requires from_is { from < vec_len workers.old }
    requires to_is { to < vec_len workers.old }
    requires apart { from ≢ to }
    requires nothing { nothing ≡ nobody }
    requires fits { (worker workers.old.items from).parts + (worker workers.old.items to).parts < 2 ^ 64 }
    ensures ok { OnOk result (workers.new.items ≡ slice_set (slice_set workers.old.items to (both (worker workers.old.items to) (worker workers.old.items from))) from nobody) }
    ensures err { OnErr result (workers.new.items ≡ workers.old.items) }
{
    let mut other = mem::replace(&mut workers[from], nothing);
    let done = workers[to].gain(&mut other);
    workers[from] = other;
    done
}
