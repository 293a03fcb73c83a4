// The fields of headers: numbers in so many bytes, the low byte first.
ghost use Rattle.std.specs.Prelude.{◌≡◌, ◌+◌, ◌≤◌, ◌++◌, length, OnOk};
ghost use Rattle.byteorder.specs.Endian.{little_bytes};
ghost use Rattle.bk_elf.specs.Fields.{bytes_of, number_at, extent, spelled, first_fault};

use byteorder::{ByteOrder, LittleEndian};
use std::alloc::AllocError;

/// How many bytes a field takes, by the names of the ELF specification.
#[derive(Clone, Copy)]
pub(crate) enum Width {
    Byte,
    Half,
    Word,
    Xword,
}

impl Width {
    pub(crate) fn bytes(self) -> usize
        ensures { result ≡ bytes_of self }
    {
        match self {
            Width::Byte => 1,
            Width::Half => 2,
            Width::Word => 4,
            Width::Xword => 8,
        }
    }
}

/// A field and the number that it holds.
#[derive(Clone, Copy)]
pub(crate) struct Field {
    pub(crate) width: Width,
    pub(crate) number: u64,
}

/// The number in the field at this place.
#[tactic(auto, using(std::proofs::lemmas::List::take_rest), unfolding(crate::specs::Fields::number_at))]
pub(crate) fn number_at(bytes: &[u8], at: usize, width: Width) -> u64
    requires { at + bytes_of width ≤ length bytes.now }
    ensures { result ≡ number_at bytes.now at (bytes_of width) }
{
    LittleEndian::read_uint(&bytes[at..], width.bytes())
}

/// The place of the first field that does not read as its number, the fields following one another from `at` on.
#[tactic(auto, using(crate::proofs::Steps::fault_after, crate::proofs::Steps::fault_here, crate::proofs::Steps::fault_end, crate::proofs::Steps::extent_more))]
pub(crate) fn first_fault(bytes: &[u8], at: usize, fields: &[Field]) -> Option<usize>
    requires { at + extent fields.now ≤ length bytes.now }
    ensures { result ≡ first_fault bytes.now at fields.now }
{
    let mut place = at;
    for field in fields {
        if number_at(bytes, place, field.width) != field.number {
            return Some(place);
        }
        place += field.width.bytes();
    }
    None
}

/// Appends the field's bytes.
#[tactic(auto, using(crate::proofs::Steps::low_bytes))]
fn put_field(out: &mut Vec<u8>, field: Field) -> Result<(), AllocError>
    ensures { OnOk result (out.new.items ≡ out.old.items ++ little_bytes (bytes_of field.width) field.number) }
{
    let mut bytes = [0u8; 8];
    LittleEndian::write_u64(&mut bytes, field.number);
    out.extend_from_slice(&bytes[..field.width.bytes()])
}

/// Appends the fields' bytes.
#[tactic(auto, using(crate::proofs::Steps::spelled_more, crate::proofs::Steps::spelled_end))]
pub(crate) fn put_fields(out: &mut Vec<u8>, fields: &[Field]) -> Result<(), AllocError>
    ensures { OnOk result (out.new.items ≡ out.old.items ++ spelled fields.now) }
{
    for field in fields {
        put_field(out, *field)?;
    }
    Ok(())
}
