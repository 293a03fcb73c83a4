// The code of pieces once each key has its address.
ghost use Rattle.std.specs.Prelude.{◌≡◌, ◌+◌, ◌*◌, ◌^◌, ◌<◌, ◌≤◌, ◌++◌, length, sum_by, IfOk, OnOk};
ghost use Rattle.std.specs.List.{All};
ghost use Rattle.bk_link.specs.Addresses.{find_in};
ghost use Rattle.bk_link.specs.Conditions.{AreTables, CanPatch, CanPatchAll};
ghost use Rattle.bk_link.specs.Texts.{patched_at, patched_code, text_of};

use crate::cells::Addresses;
use crate::sites::TEXT_BASE;
use bk_fixup::patch_words;
use bk_ops::Target;
use bk_piece::{Handle, Patch, Piece};
use std::alloc::{AllocError, Global};

/// The bytes of a word.
const WORD_SIZE: u64 = 4;

/// The words of all pieces, given the addresses of their handles' keys.
#[tactic(auto, unfolding(crate::specs::Texts::text_of))]
pub(crate) fn text_of(
    alloc: Global,
    target: Target,
    pieces: &[Piece],
    addresses: &Addresses,
) -> Result<Vec<u32>, AllocError>
    requires pieces { All (CanPatchAll target addresses.now) pieces.now }
    requires room { 4 * sum_by (λ p. length p.code) pieces.now ≤ 16777216 }
    requires tables { AreTables addresses.now }
    ensures { IfOk result (λ text. text.items ≡ text_of target (find_in addresses.now) 65536 pieces.now) }
{
    let mut text = Vec::new(alloc);
    let mut address = u64::from(TEXT_BASE);
    for piece in pieces {
        put_code(&mut text, piece, target, address, addresses)?;
        address += WORD_SIZE * piece.code.len() as u64;
    }
    Ok(text)
}

/// Appends the code of a piece, which stands at an address.
fn put_code(
    text: &mut Vec<u32>,
    piece: &Piece,
    target: Target,
    address: u64,
    addresses: &Addresses,
) -> Result<(), AllocError>
    requires piece { CanPatchAll target addresses.now piece.now }
    requires tables { AreTables addresses.now }
    requires room { address + 4 * length piece.now.code < 2 ^ 31 }
    ensures { OnOk result (text.new.items ≡ text.old.items ++ patched_code target (find_in addresses.now) address piece.now.code piece.now.handles) }
{
    let mut code = piece.code.clone()?;
    patch_code(&mut code, &piece.handles, target, address, addresses);
    text.extend_from_slice(&code)?;
    Ok(())
}

/// Patches code, which stands at an address, for each handle.
#[tactic(auto, unfolding(crate::specs::Texts::patched_code))]
fn patch_code(
    code: &mut [u32],
    handles: &[(u32, Patch, Handle)],
    target: Target,
    address: u64,
    addresses: &Addresses,
)
    requires handles { All (CanPatch target addresses.now (length code.old)) handles.now }
    requires tables { AreTables addresses.now }
    requires room { address + 4 * length code.old < 2 ^ 31 }
    ensures { code.new ≡ patched_code target (find_in addresses.now) address code.old handles.now }
{
    for (place, patch, handle) in handles {
        let found = addresses.find(*handle);
        let at = address + WORD_SIZE * u64::from(*place);
        patch_words(&mut code[*place as usize..], *patch, found, at, target);
    }
}
