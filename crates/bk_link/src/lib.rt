//! The executable of a package: the pieces of its functions' code laid side by side, their keys replaced by addresses.
#![tactic(auto)]

ghost use Rattle.std.specs.Prelude.{◌≡◌, ℕ, ◌<◌, ◌≤◌, ◌^◌, ◌↔◌, Ok, map, IfOk, IsErrOf};
ghost use Rattle.bk_piece.specs.Filled.{area};
ghost use Rattle.bk_piece.specs.Rising.{keys_in};
ghost use Rattle.bk_elf.specs.File.{file_of};
ghost use Rattle.bk_elf.specs.Loading.{loaded};
ghost use Rattle.bk_link.specs.Conditions.{IsLinkable};
ghost use Rattle.bk_link.specs.Linked.{code_size, gathered};

mod cells;
mod errors;
mod linkable;
mod object;
mod sites;
mod texts;

use crate::cells::area;
use crate::object::{code_size, object_of};
use bk_elf::write_elf;
use bk_func::Package;
pub use bk_ops::Memory;
use bk_ops::Target;
use bk_piece::Piece;
pub use errors::LinkError;
pub use linkable::is_linkable;
use std::alloc::Global;

/// The bytes that text and pool may take together.
const CODE_LIMIT: u128 = 16_777_216;

/// The object file of a package for a target: the pieces' code in package order, with the address of what each handle's cell
/// holds, the constants in rising order, the variables, the signatures and the names.
///
/// `pieces` holds one piece for each function. `words` are the cells of the three areas: symbols, types of signatures and
/// constants; a cell that holds no key is 0. No two cells of an area hold one key, and the cell of each handle holds one.
/// [`is_linkable`] tells whether these are such.
pub fn link(
    alloc: Global,
    pkg: &Package,
    target: Target,
    pieces: &[Piece],
    words: &[Vec<u64>],
) -> Result<Vec<u8>, LinkError>
    requires { IsLinkable pkg.now target pieces.now (map (λ w. w.items) words.now) }
    ensures file { IfOk result (λ bytes. bytes.items ≡ file_of (gathered pkg.now target pieces.now (map (λ w. w.items) words.now))) }
    ensures loads { IfOk result (λ bytes. loaded bytes.items ≡ Ok (gathered pkg.now target pieces.now (map (λ w. w.items) words.now))) }
    ensures within { IfOk result (λ bytes. code_size pieces.now (keys_in (area (map (λ w. w.items) words.now) 2)) ≤ 16777216) }
    ensures text { (n : ℕ) → IsErrOf result (LinkError.Text n) ↔ ((n ≡ code_size pieces.now (keys_in (area (map (λ w. w.items) words.now) 2))) × (16777216 < n) × (n < 2 ^ 64)) }
{
    let bytes = code_size(pieces, area(words, 2));
    if bytes > CODE_LIMIT {
        return Err(too_long(bytes));
    }
    let object = object_of(alloc, pkg, target, pieces, words)?;
    Ok(write_elf(alloc, &object)?)
}

/// The refusal of so many bytes, which no machine holds where a `u64` doesn't.
fn too_long(bytes: u128) -> LinkError
    ensures { (n : ℕ) → (result ≡ LinkError.Text n) ↔ ((n ≡ bytes) × (n < 2 ^ 64)) }
{
    match u64::try_from(bytes) {
        Ok(bytes) => LinkError::Text { bytes },
        Err(_) => LinkError::Memory,
    }
}
