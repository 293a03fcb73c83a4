// The states that values of a block name.
ghost use Rattle.std.specs.Prelude.{◌≡◌, ◌↔◌, ℕ, IfOk, IsTrue, None, OnOk, Some, length, replicate};
ghost use Rattle.std.specs.List.{slice_get};
ghost use Rattle.std.specs.Ordering.{nat_cmp};
ghost use Rattle.std.specs.BTreeMap.{get};
ghost use Rattle.bk_func.specs.Form.States.{CopiesMemory};
ghost use Rattle.bk_func.specs.Records.{ValueRecord};
ghost use Rattle.bk_places.specs.Named.{NamesFirst, NamesIf, place_in};
ghost use Rattle.bk_places.specs.Search.{Marks};
ghost use Rattle.bk_sched.specs.Named.{AreCopies, AreNamed, ArePlaces, AreRoots, Copies, NamesPlace};
ghost use Rattle.bk_sched.specs.Order.{HasOwnNumbers};

use crate::places::Places;
use bk_func::{Block, Value};
use bk_places::{Edges, Search, copies_memory, memory_argument};
use std::alloc::{AllocError, Global};

/// For each value the place of the number of the state that it names.
pub(crate) fn names(
    alloc: Global,
    block: &Block,
    places: &Places,
) -> Result<Vec<Option<usize>>, AllocError>
    requires own { HasOwnNumbers block.now }
    requires places { ArePlaces block.now.values places.now }
    ensures { IfOk result (λ names. AreNamed block.now places.now.numbers.items names.items) }
{
    let roots = roots(alloc, block, places)?;
    let mut names = Vec::with_capacity(alloc, block.values.len())?;
    for value in &block.values {
        let name = named(places, &roots, value);
        names.push(name)?;
    }
    Ok(names)
}

/// The place of the state that the value names, given for the place of each number that of the one it stands for.
fn named(places: &Places, roots: &[Option<usize>], value: &Value) -> Option<usize>
    requires { (n : ℕ) → get nat_cmp places.now.by_number n ≡ place_in places.now.numbers.items n }
    ensures { NamesPlace places.now.numbers.items roots.now value.now result }
{
    let argument = memory_argument(value);
    let Some(id) = argument else { return None };
    let found = places.place(id);
    let Some(place) = found else { return None };
    roots.get(place).copied().unwrap_or(None)
}

/// For the place of each number that of the number for which it stands: itself, or of a copy of memory what it copies in
/// the end. Copies of each other stand for none.
fn roots(alloc: Global, block: &Block, places: &Places) -> Result<Vec<Option<usize>>, AllocError>
    requires own { HasOwnNumbers block.now }
    requires places { ArePlaces block.now.values places.now }
    ensures { IfOk result (λ roots. AreRoots block.now places.now.numbers.items roots.items) }
{
    let copies = copies(alloc, block, places)?;
    let mut search = Search::new(alloc, copies.len())?;
    sow(&mut search, block, places, &copies)?;
    Ok(search.labels)
}

/// Searches from each number that is not that of a copy, with its place as the label.
fn sow(
    search: &mut Search,
    block: &Block,
    places: &Places,
    copies: &Edges,
) -> Result<(), AllocError>
    requires own { HasOwnNumbers block.now }
    requires places { ArePlaces block.now.values places.now }
    requires copies { AreCopies block.now.values places.now.numbers.items (length block.now.values) copies.now }
    requires marks { Marks search.old.labels.items search.old.reached.items }
    requires none { search.old.labels.items ≡ replicate (length copies.now) None }
    ensures { OnOk result (AreRoots block.now places.now.numbers.items search.new.labels.items) }
{
    let nowhere = copies.len();
    for place in 0..nowhere {
        let is_copy = is_copy_at(block, place);
        if is_copy {
            continue;
        }
        search.extend(copies, nowhere, place, place)?;
    }
    Ok(())
}

/// Whether the value at the place copies memory.
fn is_copy_at(block: &Block, place: usize) -> bool
    ensures { IsTrue result ↔ ((v : ValueRecord) × (slice_get block.now.values place ≡ Some v) × CopiesMemory v) }
{
    match block.values.get(place) {
        Some(value) => copies_memory(value),
        None => false,
    }
}

/// Behind the place of each number those of its copies.
fn copies(alloc: Global, block: &Block, places: &Places) -> Result<Edges, AllocError>
    requires { ArePlaces block.now.values places.now }
    ensures { IfOk result (λ edges. AreCopies block.now.values places.now.numbers.items (length block.now.values) edges) }
{
    let mut edges = Edges::new(alloc, places.numbers.len())?;
    for (place, value) in block.values.iter().enumerate() {
        let source = copied(places, value);
        edges.add_from(source, place)?;
    }
    Ok(edges)
}

/// The place of what the value copies, where it copies memory.
fn copied(places: &Places, value: &Value) -> Option<usize>
    requires { (n : ℕ) → get nat_cmp places.now.by_number n ≡ place_in places.now.numbers.items n }
    ensures { (p : ℕ) → (result ≡ Some p) ↔ Copies places.now.numbers.items value.now p }
{
    if !copies_memory(value) {
        return None;
    }
    let argument = memory_argument(value);
    let Some(id) = argument else { return None };
    places.place(id)
}
