// Whether pieces and cells are such that a package has an object of them.
ghost use Rattle.std.specs.Prelude.{◌≡◌, ◌≢◌, ◌≤◌, ◌^◌, ◌↔◌, length, slice_index, map, sum_by, IfOk, IsTrue};
ghost use Rattle.std.specs.List.{All, AllPairs};
ghost use Rattle.std.specs.List.Sorted.{IsStrictlyIncreasing};
ghost use Rattle.bk_elf.specs.Layout.{aligned};
ghost use Rattle.bk_fixup.specs.Patches.{patched_words};
ghost use Rattle.bk_piece.specs.Filled.{word_of};
ghost use Rattle.bk_piece.specs.Rising.{full};
ghost use Rattle.bk_link.specs.Conditions.{IsNamed, IsVar, IsHandle, IsPatch, HasPatches, IsTyped, AreTyped, AreCells, IsLinkable, area_of};

use crate::cells::{area, full};
use bk_func::{Func, Package, Var};
use bk_ops::{Memory, Target};
use bk_piece::{Handle, Patch, Piece};
use std::alloc::{AllocError, Global};

/// The most bytes of the data window.
const WINDOW_LIMIT: u64 = 1_048_576;

/// How many types of machine words have codes.
const TYPE_COUNT: u64 = 13;

/// The most arguments and results of a function.
const SIGNATURE_LIMIT: usize = 64;

/// Whether a package whose names are in order has an object of these pieces and cells, as [`link`](crate::link) asks.
pub fn is_linkable(
    alloc: Global,
    pkg: &Package,
    target: Target,
    pieces: &[Piece],
    words: &[Vec<u64>],
) -> Result<bool, Memory>
    requires { IsNamed pkg.now }
    ensures { IfOk result (λ linkable. IsTrue linkable ↔ IsLinkable pkg.now target pieces.now (map (λ w. w.items) words.now)) }
{
    let fit = are_vars(&pkg.vars)
        && window_size(&pkg.vars) <= WINDOW_LIMIT
        && have_patches(target, words, pieces)
        && are_typed(words, &pkg.funcs, pieces);
    let linkable = fit && are_cells(alloc, pkg.names.len() as u64, words)?;
    Ok(linkable)
}

/// Whether no variable has more bytes than its size.
fn are_vars(vars: &[Var]) -> bool
    ensures { IsTrue result ↔ All IsVar vars.now }
{
    vars.iter().all(|var| is_var(var))
}

fn is_var(var: &Var) -> bool
    ensures { IsTrue result ↔ IsVar var.now }
{
    var.bytes.len() <= var.size as usize
}

/// The bytes that the variables take.
fn window_size(vars: &[Var]) -> u64
    requires { length vars.now ≤ 4096 }
    ensures { result ≡ sum_by (λ v. aligned v.size) vars.now }
{
    let mut size = 0;
    for var in vars {
        size += aligned_size(var);
    }
    size
}

/// The bytes that a variable takes.
fn aligned_size(var: &Var) -> u64
    ensures value { result ≡ aligned var.now.size }
    ensures most { result ≤ 2 ^ 32 }
{
    u64::from(var.size).next_multiple_of(8)
}

/// Whether there are three areas of keys that differ, of symbols with so many names, of types and of constants.
fn are_cells(alloc: Global, names: u64, words: &[Vec<u64>]) -> Result<bool, AllocError>
    ensures { IfOk result (λ cells. IsTrue cells ↔ AreCells names (map (λ w. w.items) words.now)) }
{
    if words.len() != 3 {
        return Ok(false);
    }
    let known = are_at_most(area(words, 0), names) && are_at_most(area(words, 1), TYPE_COUNT);
    let cells = known && all_differ(alloc, words)?;
    Ok(cells)
}

fn are_at_most(words: &[u64], most: u64) -> bool
    ensures { IsTrue result ↔ All (λ w. w ≤ most) words.now }
{
    words.iter().all(|word| *word <= most)
}

/// Whether the keys of each area differ.
fn all_differ(alloc: Global, words: &[Vec<u64>]) -> Result<bool, AllocError>
    ensures { IfOk result (λ differ. IsTrue differ ↔ All (λ ws. AllPairs (λ x y. x ≢ y) (full ws)) (map (λ w. w.items) words.now)) }
{
    for place in 0..words.len() {
        let differ = differ(alloc, area(words, place))?;
        if !differ {
            return Ok(false);
        }
    }
    Ok(true)
}

/// Whether the words other than 0 differ.
fn differ(alloc: Global, words: &[u64]) -> Result<bool, AllocError>
    ensures { IfOk result (λ differ. IsTrue differ ↔ AllPairs (λ x y. x ≢ y) (full words.now)) }
{
    let mut keys = full(alloc, words)?;
    keys.sort_unstable();
    Ok(rise(&keys))
}

/// Whether each number is below the next.
fn rise(numbers: &[u64]) -> bool
    ensures { IsTrue result ↔ IsStrictlyIncreasing numbers.now }
{
    for place in 1..numbers.len() {
        if numbers[place - 1] >= numbers[place] {
            return false;
        }
    }
    true
}

/// Whether the patches of the pieces lie in their code and wait for keys.
fn have_patches(target: Target, words: &[Vec<u64>], pieces: &[Piece]) -> bool
    ensures { IsTrue result ↔ All (HasPatches target (map (λ w. w.items) words.now)) pieces.now }
{
    pieces.iter().all(|piece| has_patches(target, words, piece))
}

fn has_patches(target: Target, words: &[Vec<u64>], piece: &Piece) -> bool
    ensures { IsTrue result ↔ HasPatches target (map (λ w. w.items) words.now) piece.now }
{
    !piece.code.is_empty() && are_patches(target, words, piece.code.len(), &piece.handles)
}

fn are_patches(
    target: Target,
    words: &[Vec<u64>],
    size: usize,
    sites: &[(u32, Patch, Handle)],
) -> bool
    ensures { IsTrue result ↔ All (IsPatch target (map (λ w. w.items) words.now) size) sites.now }
{
    sites
        .iter()
        .all(|site| is_patch(target, words, size, *site))
}

fn is_patch(target: Target, words: &[Vec<u64>], size: usize, site: (u32, Patch, Handle)) -> bool
    ensures { IsTrue result ↔ IsPatch target (map (λ w. w.items) words.now) size site }
{
    let (place, patch, handle) = site;
    is_handle(words, area_of(patch), handle)
        && place as usize + patched_words(target, patch) <= size
}

/// The area of what a patch waits for.
fn area_of(patch: Patch) -> u8
    ensures { result ≡ area_of patch }
{
    match patch {
        Patch::Call | Patch::Addr => 0,
        Patch::Pool => 2,
    }
}

/// How many words a patch changes.
fn patched_words(target: Target, patch: Patch) -> usize
    ensures value { result ≡ patched_words target patch }
    ensures most { result ≤ 2 }
{
    match (target, patch) {
        (Target::Riscv64, _) => 2,
        (Target::Arm, Patch::Call) => 1,
        (Target::Arm, Patch::Addr) => 2,
        (Target::Arm, Patch::Pool) => 0,
    }
}

/// Whether the handle is one of the area and its cell holds a key.
fn is_handle(words: &[Vec<u64>], area: u8, handle: Handle) -> bool
    ensures { IsTrue result ↔ IsHandle (map (λ w. w.items) words.now) area handle }
{
    handle.area == area && word_of(words, handle) > 0
}

/// The word of a handle's cell, 0 where there is no such cell.
fn word_of(words: &[Vec<u64>], handle: Handle) -> u64
    ensures { result ≡ word_of (map (λ w. w.items) words.now) handle }
{
    match words.get(handle.area as usize) {
        Some(cells) => word_at(cells, handle.cell),
        None => 0,
    }
}

fn word_at(cells: &[u64], cell: u64) -> u64
    ensures { result ≡ slice_index cells.now cell }
{
    match cells.get(cell as usize) {
        Some(word) => *word,
        None => 0,
    }
}

/// Whether each function has a piece with types for its arguments and results.
fn are_typed(words: &[Vec<u64>], funcs: &[Func], pieces: &[Piece]) -> bool
    ensures { IsTrue result ↔ AreTyped (map (λ w. w.items) words.now) funcs.now pieces.now }
{
    funcs.len() == pieces.len() && all_typed(words, funcs, pieces)
}

fn all_typed(words: &[Vec<u64>], funcs: &[Func], pieces: &[Piece]) -> bool
    requires { length funcs.now ≡ length pieces.now }
    ensures { IsTrue result ↔ AreTyped (map (λ w. w.items) words.now) funcs.now pieces.now }
{
    funcs
        .iter()
        .zip(pieces)
        .all(|(func, piece)| is_typed(words, func, piece))
}

fn is_typed(words: &[Vec<u64>], func: &Func, piece: &Piece) -> bool
    ensures { IsTrue result ↔ IsTyped (map (λ w. w.items) words.now) func.now piece.now }
{
    let args = func.sig.args.len();
    let results = func.sig.results.len();
    args <= SIGNATURE_LIMIT
        && results <= SIGNATURE_LIMIT - args
        && piece.types.len() == args + results
        && are_types(words, &piece.types)
}

fn are_types(words: &[Vec<u64>], types: &[Handle]) -> bool
    ensures { IsTrue result ↔ All (IsHandle (map (λ w. w.items) words.now) 1) types.now }
{
    types.iter().all(|handle| is_handle(words, 1, *handle))
}
