// An order in which each value follows those that it takes.
ghost use Rattle.std.specs.Prelude.{◌≡◌, ℕ, ◌+◌, ◌-◌, ◌<◌, ◌≤◌, ◌↔◌, IsTrue, IfOk, OnOk, length, map, slice_index, slice_set};
ghost use Rattle.std.specs.List.{All, Contains, range_with_len};
ghost use Rattle.bk_mean.specs.Arranged.{Filled};
ghost use Rattle.bk_places.specs.Counts.{count_in, total_in};
ghost use Rattle.bk_mean.specs.Dues.{due_in, taken_in, AllDue, DuesOfPlaces, FallsBy, StaysWithin, AreFree, Released};

use smallvec::SmallVec;
use std::alloc::{AllocError, Global};
use std::collections::BTreeSet;

/// When a value of a block is due: the level of its state of memory, its class there and its place in
/// the list.
#[derive(Clone, Copy, PartialEq, Eq, PartialOrd, Ord)]
pub(crate) struct Due {
    pub(crate) level: usize,
    pub(crate) class: u32,
    pub(crate) place: usize,
}

/// The places of the values that are due, each after those that it takes, and those that are due late as
/// late as that allows.
///
/// `takes` has for each value the places of those that it takes. Values that are not due or that take each
/// other in a circle are left out, and what they take.
pub(crate) fn arrange(
    alloc: Global,
    due: &[Option<Due>],
    takes: &[SmallVec<usize, 4>],
) -> Result<Vec<usize>, AllocError>
    requires length { length takes.now ≡ length due.now }
    requires within { StaysWithin (length due.now) (map (λ t. t.items) takes.now) }
    requires places { DuesOfPlaces due.now }
    ensures within { IfOk result (λ order. All (λ k. k < length due.now) order.items) }
    ensures filled { IfOk result (λ order. AllDue due.now → (r : ℕ → ℕ) → FallsBy r (map (λ t. t.items) takes.now) → Filled (due_in due.now) (λ x y. Contains (taken_in (map (λ t. t.items) takes.now) x) y) (range_with_len 0 (length due.now)) order.items) }
{
    let mut uses = count_uses(alloc, due.len(), takes)?;
    let mut free = free_values(alloc, due, &uses)?;
    let mut order = Vec::with_capacity(alloc, due.len())?;
    while let Some(last) = free.pop_last() {
        order.push(last.place)?;
        release(due, takes[last.place].as_slice(), &mut uses, &mut free)?;
    }
    order.reverse();
    Ok(order)
}

/// How often each value is taken.
fn count_uses(
    alloc: Global,
    count: usize,
    takes: &[SmallVec<usize, 4>],
) -> Result<Vec<u64>, AllocError>
    requires { StaysWithin count (map (λ t. t.items) takes.now) }
    ensures size { IfOk result (λ uses. length uses.items ≡ count) }
    ensures counts { IfOk result (λ uses. (y : ℕ) → slice_index uses.items y ≡ total_in (map (λ t. t.items) takes.now) y) }
{
    let mut uses = vec![in alloc; 0u64; count]?;
    for taken in takes {
        add_uses(&mut uses, taken.as_slice())?;
    }
    Ok(uses)
}

fn add_uses(uses: &mut [u64], taken: &[usize]) -> Result<(), AllocError>
    requires { All (λ y. y < length uses.old) taken.now }
    ensures size { length uses.new ≡ length uses.old }
    ensures counts { OnOk result ((y : ℕ) → slice_index uses.new y ≡ slice_index uses.old y + count_in y taken.now) }
{
    for place in taken {
        match uses[*place].checked_add(1) {
            Some(more) => uses[*place] = more,
            None => return Err(AllocError),
        }
    }
    Ok(())
}

/// The values that none takes, by when they are due.
fn free_values(
    alloc: Global,
    due: &[Option<Due>],
    uses: &[u64],
) -> Result<BTreeSet<Due>, AllocError>
    requires length { length uses.now ≡ length due.now }
    requires places { DuesOfPlaces due.now }
    ensures { IfOk result (λ free. AreFree due.now uses.now (length due.now) free) }
{
    let mut free = BTreeSet::new(alloc);
    for (place, due) in due.iter().enumerate() {
        if let Some(due) = due {
            if uses[place] == 0 {
                free.insert(*due)?;
            }
        }
    }
    Ok(free)
}

/// One use of each of the values is done; those without further uses are free.
fn release(
    due: &[Option<Due>],
    taken: &[usize],
    uses: &mut [u64],
    free: &mut BTreeSet<Due>,
) -> Result<(), AllocError>
    requires size { length uses.old ≡ length due.now }
    requires places { DuesOfPlaces due.now }
    requires within { All (λ y. y < length uses.old) taken.now }
    requires enough { (y : ℕ) → count_in y taken.now ≤ slice_index uses.old y }
    ensures size { length uses.new ≡ length uses.old }
    ensures uses { OnOk result ((y : ℕ) → slice_index uses.new y + count_in y taken.now ≡ slice_index uses.old y) }
    ensures free { OnOk result (Released due.now taken.now uses.new free.old free.new) }
{
    for place in taken {
        if take_use(uses, *place) {
            if let Some(due) = due[*place] {
                free.insert(due)?;
            }
        }
    }
    Ok(())
}

/// One use less of a value; whether that was the last.
fn take_use(uses: &mut [u64], place: usize) -> bool
    requires within { place < length uses.old }
    requires some { 0 < slice_index uses.old place }
    ensures uses { uses.new ≡ slice_set uses.old place (slice_index uses.old place - 1) }
    ensures last { IsTrue result ↔ (slice_index uses.old place ≡ 1) }
{
    uses[place] -= 1;
    uses[place] == 0
}
