// Numbers in bytes, and lists of rising numbers.
ghost use Rattle.std.specs.Prelude.{◌≡◌, ◌/◌, length, IfOk};
ghost use Rattle.bk_elf.specs.Lists.{rises_from, is_rising, is_zero, numbers};

use byteorder::{ByteOrder, LittleEndian};
use std::alloc::{AllocError, Global};

/// The words that the bytes hold, each in four bytes.
#[tactic(auto, using(crate::proofs::Steps::each_more, crate::proofs::Steps::each_end, std::proofs::lemmas::List::take_rest))]
pub(crate) fn words(alloc: Global, bytes: &[u8]) -> Result<Vec<u32>, AllocError>
    ensures { IfOk result (λ words. words.items ≡ numbers 4 (length bytes.now / 4) bytes.now) }
{
    let count = bytes.len() / 4;
    let mut words = Vec::with_capacity(alloc, count)?;
    for k in 0..count {
        words.push(LittleEndian::read_u32(&bytes[4 * k..]))?;
    }
    Ok(words)
}

/// The constants that the bytes hold, each in eight bytes.
#[tactic(auto, using(crate::proofs::Steps::each_more, crate::proofs::Steps::each_end, std::proofs::lemmas::List::take_rest))]
pub(crate) fn constants(alloc: Global, bytes: &[u8]) -> Result<Vec<u64>, AllocError>
    ensures { IfOk result (λ constants. constants.items ≡ numbers 8 (length bytes.now / 8) bytes.now) }
{
    let count = bytes.len() / 8;
    let mut constants = Vec::with_capacity(alloc, count)?;
    for k in 0..count {
        constants.push(LittleEndian::read_u64(&bytes[8 * k..]))?;
    }
    Ok(constants)
}

/// Whether each number is above the one before it.
pub(crate) fn is_rising(numbers: &[u64]) -> bool
    ensures { result ≡ is_rising numbers.now }
{
    match numbers {
        [] => true,
        [first, rest @ ..] => rises_from(*first, rest),
    }
}

/// Whether the first number is above `low`, and each other one above the one before it.
#[tactic(auto, using(crate::proofs::Steps::rises_more, crate::proofs::Steps::rises_here, crate::proofs::Steps::rises_end))]
pub(crate) fn rises_from(low: u64, numbers: &[u64]) -> bool
    ensures { result ≡ rises_from low numbers.now }
{
    let mut before = low;
    for number in numbers {
        if *number <= before {
            return false;
        }
        before = *number;
    }
    true
}

pub(crate) fn is_zero(bytes: &[u8]) -> bool
    ensures { result ≡ is_zero bytes.now }
{
    bytes.iter().all(|b| *b == 0)
}
