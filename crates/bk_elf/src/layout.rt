// Where the parts of an object's file stand.
ghost use Rattle.std.specs.Prelude.{◌≡◌, ◌+◌, ◌^◌, ◌<◌};
ghost use Rattle.bk_elf.specs.Layout.{aligned, size_of, headers_end, e_shoff, layout_of, begin_in};

use crate::tables::{SECTION_NAMES, Section, class_of};
use bk_ops::Target;

/// The sizes in bytes of the sections that are not the same in every object.
#[derive(Clone, Copy)]
pub(crate) struct Sizes {
    pub(crate) text: u64,
    pub(crate) pool: u64,
    pub(crate) window: u64,
    pub(crate) gosig: u64,
    pub(crate) symtab: u64,
    pub(crate) strtab: u64,
}

impl Sizes {
    pub(crate) fn of(&self, section: Section) -> u64
        ensures { result ≡ size_of self.now section }
    {
        match section {
            Section::Null => 0,
            Section::Text => self.text,
            Section::Pool => self.pool,
            Section::Data => self.window,
            Section::Gosig => self.gosig,
            Section::Symtab => self.symtab,
            Section::Strtab => self.strtab,
            Section::Shstrtab => SECTION_NAMES.len() as u64,
        }
    }
}

/// The first multiple of 8 from `place` on.
pub(crate) fn aligned(place: u64) -> u64
    requires { place + 7 < 2 ^ 64 }
    ensures { result ≡ aligned place }
{
    (place + 7) / 8 * 8
}

/// Where the program headers end.
pub(crate) fn headers_end(target: Target) -> u64
    ensures { result ≡ headers_end target }
{
    let class = class_of(target);
    class.e_ehsize as u64 + 3 * class.e_phentsize as u64
}

/// Where each section begins, and the section headers after them.
#[derive(Clone, Copy)]
pub(crate) struct Layout {
    pub(crate) text: u64,
    pub(crate) pool: u64,
    pub(crate) window: u64,
    pub(crate) gosig: u64,
    pub(crate) symtab: u64,
    pub(crate) strtab: u64,
    pub(crate) shstrtab: u64,
    pub(crate) e_shoff: u64,
}

impl Layout {
    /// The places of sections of these sizes.
    pub(crate) fn new(target: Target, sizes: &Sizes) -> Layout
        requires { e_shoff target sizes.now < 2 ^ 64 }
        ensures { result ≡ layout_of target sizes.now }
    {
        let text = aligned(headers_end(target));
        let pool = aligned(text + sizes.text);
        let window = aligned(pool + sizes.pool);
        let gosig = aligned(window + sizes.window);
        let symtab = aligned(gosig + sizes.gosig);
        let strtab = symtab + sizes.symtab;
        let shstrtab = strtab + sizes.strtab;
        Layout {
            text,
            pool,
            window,
            gosig,
            symtab,
            strtab,
            shstrtab,
            e_shoff: aligned(shstrtab + SECTION_NAMES.len() as u64),
        }
    }

    pub(crate) fn of(&self, section: Section) -> u64
        ensures { result ≡ begin_in self.now section }
    {
        match section {
            Section::Null => 0,
            Section::Text => self.text,
            Section::Pool => self.pool,
            Section::Data => self.window,
            Section::Gosig => self.gosig,
            Section::Symtab => self.symtab,
            Section::Strtab => self.strtab,
            Section::Shstrtab => self.shstrtab,
        }
    }
}
