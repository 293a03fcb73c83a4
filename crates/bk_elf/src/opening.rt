// Opening a file: its header.
ghost use Rattle.std.specs.Prelude.{◌≡◌, ◌+◌, ◌*◌, ◌≤◌, nat_lt, length, take, Some, None, IfSome, is_none, IfOk, OnOk, IfErr};
ghost use Rattle.std.specs.Str.{bytes_eq};
ghost use Rattle.bk_elf.specs.Tables.{magic, class_of};
ghost use Rattle.bk_elf.specs.Loading.{target_of, header_fault, offset_of, headers_size, sizes_read, size_read, fitting_offset, fault_of, section_fault};

use crate::LoadError;
use crate::fields::{first_fault, number_at};
use crate::file::File;
use crate::layout::{Sizes, aligned};
use crate::tables::{E_SHNUM, ELFCLASS64, MAGIC, Section, class_of, file_header};
use bk_ops::Target;

/// The target that the file's class is of.
#[tactic(auto, unfolding(crate::specs::Loading::target_of))]
fn target_of(bytes: &[u8]) -> Target
    ensures { result ≡ target_of bytes.now }
{
    let class = bytes.get(4).copied().unwrap_or(0);
    if u64::from(class) == ELFCLASS64 {
        Target::Riscv64
    } else {
        Target::Arm
    }
}

/// Whether the file begins as an ELF file.
fn is_elf(bytes: &[u8]) -> bool
    ensures { result ≡ bytes_eq (take 4 bytes.now) magic }
{
    bytes.starts_with(&MAGIC)
}

/// The file, if its header is an object's and the section headers end it.
#[tactic(auto, unfolding(crate::specs::Loading::fault_of))]
pub(crate) fn opened(bytes: &[u8]) -> Result<File<'_>, LoadError>
    ensures bytes { IfOk result (λ file. file.bytes.now ≡ bytes.now) }
    ensures ok { OnOk result (fault_of bytes.now ≡ section_fault bytes.now) }
    ensures refused { IfErr result (λ e. fault_of bytes.now ≡ Some e) }
{
    if !is_elf(bytes) {
        return Err(LoadError::NotElf);
    }
    let target = target_of(bytes);
    if bytes.len() < class_of(target).e_ehsize {
        return Err(LoadError::Truncated);
    }
    if let Some(field) = header_fault(bytes, target) {
        return Err(LoadError::BadHeader { field });
    }
    if let Some(file) = file_of(bytes, target) {
        Ok(file)
    } else {
        Err(LoadError::Truncated)
    }
}

/// The file, if it does not end before its section headers do.
fn file_of(bytes: &[u8], target: Target) -> Option<File<'_>>
    requires target { target ≡ target_of bytes.now }
    requires room { (class_of target).e_ehsize ≤ length bytes.now }
    requires header { header_fault bytes.now ≡ None }
    ensures bytes { IfSome result (λ file. file.bytes.now ≡ bytes.now) }
    ensures whole { is_none result ≡ nat_lt (length bytes.now) (offset_of bytes.now + headers_size bytes.now) }
{
    let offset = offset_of(bytes, target);
    let len = bytes.len() as u64;
    let size = headers_size(target) as u64;
    if len < offset || len - offset < size {
        return None;
    }
    let e_shoff = offset as usize;
    Some(File {
        bytes,
        target,
        e_shoff,
        sizes: sizes_of(bytes, target, e_shoff),
    })
}

/// The place of the header's first field that is not an object's.
#[tactic(auto, using(crate::proofs::Headers::header_within), unfolding(crate::specs::Loading::header_fault))]
fn header_fault(bytes: &[u8], target: Target) -> Option<u32>
    requires target { target ≡ target_of bytes.now }
    requires room { (class_of target).e_ehsize ≤ length bytes.now }
    ensures { result ≡ header_fault bytes.now }
{
    let offset = offset_of(bytes, target);
    let header = file_header(target, fitting_offset(bytes, target, offset));
    match first_fault(bytes, 4, &header) {
        Some(place) => Some(place as u32),
        None => None,
    }
}

fn headers_size(target: Target) -> usize
    ensures { result ≡ 8 * (class_of target).e_shentsize }
{
    E_SHNUM as usize * class_of(target).e_shentsize
}

/// Where the section headers begin by the header.
#[tactic(auto, unfolding(crate::specs::Loading::offset_of))]
fn offset_of(bytes: &[u8], target: Target) -> u64
    requires target { target ≡ target_of bytes.now }
    requires room { (class_of target).e_ehsize ≤ length bytes.now }
    ensures { result ≡ offset_of bytes.now }
{
    let class = class_of(target);
    number_at(bytes, class.e_shoff, class.address)
}

/// A multiple of 8 from which on section headers reach the file's end, at the offset if it is such.
fn fitting_offset(bytes: &[u8], target: Target, offset: u64) -> u64
    requires target { target ≡ target_of bytes.now }
    requires offset { offset ≡ offset_of bytes.now }
    ensures { result ≡ fitting_offset bytes.now }
{
    let last = bytes.len().saturating_sub(headers_size(target));
    aligned(last as u64).max(offset / 8 * 8)
}

/// The sizes that the section headers tell.
#[tactic(auto, unfolding(crate::specs::Loading::sizes_read))]
fn sizes_of(bytes: &[u8], target: Target, e_shoff: usize) -> Sizes
    requires target { target ≡ target_of bytes.now }
    requires offset { e_shoff ≡ offset_of bytes.now }
    requires whole { length bytes.now ≡ e_shoff + 8 * (class_of target).e_shentsize }
    ensures { result ≡ sizes_read bytes.now }
{
    Sizes {
        text: size_of(bytes, target, e_shoff, Section::Text),
        pool: size_of(bytes, target, e_shoff, Section::Pool),
        window: size_of(bytes, target, e_shoff, Section::Data),
        gosig: size_of(bytes, target, e_shoff, Section::Gosig),
        symtab: size_of(bytes, target, e_shoff, Section::Symtab),
        strtab: size_of(bytes, target, e_shoff, Section::Strtab),
    }
}

/// The size that the section's header tells.
fn size_of(bytes: &[u8], target: Target, e_shoff: usize, section: Section) -> u64
    requires target { target ≡ target_of bytes.now }
    requires offset { e_shoff ≡ offset_of bytes.now }
    requires whole { length bytes.now ≡ e_shoff + 8 * (class_of target).e_shentsize }
    ensures { result ≡ size_read bytes.now section }
{
    let class = class_of(target);
    let place = e_shoff + section.number() as usize * class.e_shentsize;
    number_at(bytes, place + class.sh_size, class.address)
}
