// Where the sections of a file stand, and whether they stand as an object's.
ghost use Rattle.std.specs.Prelude.{◌≡◌, ◌+◌, ◌-◌, ◌*◌, ◌≤◌, nat_le, length, true, false, IsTrue, MatchResult, Some, IfOk, IfErr, slice_range};
ghost use Rattle.bk_elf.specs.declared.errors.LoadError.TheVariants.{BadSection};
ghost use Rattle.bk_elf.specs.Tables.{number_of, class_of};
ghost use Rattle.bk_elf.specs.Loading.{begin_read, extent_read, before_read, content, is_loaded, has_header, has_program_header, is_described, is_placed, section_fault, IsAt};

use crate::LoadError;
use crate::fields::first_fault;
use crate::file::{File, Part};
use crate::layout::aligned;
use crate::numbers::is_zero;
use crate::tables::{Section, class_of, program_header, section_header};

impl<'a> File<'a> {
    /// The bytes of a section that begins at this place, as far as they lie in the file.
    #[tactic(auto, unfolding(crate::specs::Loading::content))]
    pub(crate) fn content(&self, section: Section, begin: usize) -> &'a [u8]
        requires { begin ≡ begin_read self.now.bytes.now section }
        ensures { result.now ≡ content self.now.bytes.now section }
    {
        let bytes = self.bytes;
        if begin > bytes.len() {
            return &[];
        }
        let rest = &bytes[begin..];
        let size = self.sizes.of(section).min(rest.len() as u64) as usize;
        &rest[..size]
    }

    /// The section, what stands before it ending at `before`, if its headers and the gap before it are as an object's
    /// and it lies in the file.
    pub(crate) fn section(&self, section: Section, before: usize) -> Result<Part<'a>, LoadError>
        requires { IsAt self.now.bytes.now section before }
        ensures placed { IfOk result (λ part. is_placed self.now.bytes.now section ≡ true) }
        ensures content { IfOk result (λ part. part.content.now ≡ content self.now.bytes.now section) }
        ensures length { IfOk result (λ part. length part.content.now ≡ extent_read self.now.bytes.now section) }
        ensures end { IfOk result (λ part. part.end ≡ begin_read self.now.bytes.now section + extent_read self.now.bytes.now section) }
        ensures within { IfOk result (λ part. part.end ≤ length self.now.bytes.now) }
        ensures refused { IfErr result (λ e. section_fault self.now.bytes.now ≡ Some e) }
    {
        let begin = self.begin(section, before);
        if !self.is_placed(section, before, begin) {
            return Err(bad(section));
        }
        let content = self.content(section, begin);
        Ok(Part {
            content,
            end: begin + content.len(),
        })
    }

    /// Where a section begins that stands behind `before`.
    fn begin(&self, section: Section, before: usize) -> usize
        requires before { before ≡ before_read self.now.bytes.now section }
        requires within { before ≤ length self.now.bytes.now }
        ensures value { result ≡ begin_read self.now.bytes.now section }
        ensures after { before ≤ result }
    {
        match section {
            Section::Null | Section::Strtab | Section::Shstrtab => before,
            _ => aligned(before as u64) as usize,
        }
    }

    #[tactic(auto, unfolding(crate::specs::Loading::is_placed))]
    fn is_placed(&self, section: Section, before: usize, begin: usize) -> bool
        requires before { before ≡ before_read self.now.bytes.now section }
        requires begin { begin ≡ begin_read self.now.bytes.now section }
        requires after { before ≤ begin }
        ensures { result ≡ is_placed self.now.bytes.now section }
    {
        self.is_described(section, begin)
            && self.is_inside(section, begin)
            && is_zero(&self.bytes[before..begin])
    }

    /// Whether the section ends in the file.
    fn is_inside(&self, section: Section, begin: usize) -> bool
        requires { begin ≡ begin_read self.now.bytes.now section }
        ensures { result ≡ nat_le (begin_read self.now.bytes.now section + extent_read self.now.bytes.now section) (length self.now.bytes.now) }
    {
        let len = self.bytes.len();
        begin <= len && self.sizes.of(section) <= (len - begin) as u64
    }

    /// Whether the headers of the section are those of an object.
    #[tactic(auto, unfolding(crate::specs::Loading::is_described))]
    fn is_described(&self, section: Section, begin: usize) -> bool
        requires { begin ≡ begin_read self.now.bytes.now section }
        ensures { result ≡ is_described self.now.bytes.now section }
    {
        let size = self.sizes.of(section);
        self.has_header(section, begin as u64, size)
            && (!is_loaded(section) || self.has_program_header(section, begin as u64, size))
    }

    #[tactic(auto, unfolding(crate::specs::Loading::has_header))]
    fn has_header(&self, section: Section, begin: u64, size: u64) -> bool
        ensures { result ≡ has_header self.now.bytes.now section begin size }
    {
        let class = class_of(self.target);
        let place = self.e_shoff + section.number() as usize * class.e_shentsize;
        let header = section_header(self.target, section, begin, size);
        first_fault(self.bytes, place, &header).is_none()
    }

    #[tactic(auto, unfolding(crate::specs::Loading::has_program_header))]
    fn has_program_header(&self, section: Section, begin: u64, size: u64) -> bool
        requires { IsTrue (is_loaded section) }
        ensures { result ≡ has_program_header self.now.bytes.now section begin size }
    {
        let class = class_of(self.target);
        let place = class.e_ehsize + (section.number() as usize - 1) * class.e_phentsize;
        let header = program_header(self.target, section, begin, size);
        first_fault(self.bytes, place, &header).is_none()
    }
}

/// The section at fault.
pub(crate) fn bad(section: Section) -> LoadError
    ensures { result ≡ BadSection (number_of section) }
{
    LoadError::BadSection {
        n: section.number(),
    }
}

fn is_loaded(section: Section) -> bool
    ensures { result ≡ is_loaded section }
{
    match section {
        Section::Text | Section::Pool | Section::Data => true,
        _ => false,
    }
}
