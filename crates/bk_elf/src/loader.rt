// Loading a file.
ghost use Rattle.std.specs.Prelude.{◌≡◌, ◌⊎◌, ◌+◌, ◌≤◌, length, None, Ok, Err, OnOk, IfOk, IfErr};
ghost use Rattle.bk_elf.specs.declared.errors.LoadError.TheVariants.{Memory};
ghost use Rattle.bk_elf.specs.declared.tables.Section.TheVariants.{Shstrtab};
ghost use Rattle.bk_elf.specs.Object.{IsObject};
ghost use Rattle.bk_elf.specs.File.{IsFileOf};
ghost use Rattle.bk_elf.specs.Loading.{content, begin_read, holds, image_of, section_fault, loaded, IsAt, IsCause};

use crate::file::{File, Part};
use crate::layout::aligned;
use crate::numbers::is_zero;
use crate::opening::opened;
use crate::placing::bad;
use crate::tables::{SECTION_NAMES, Section};
use crate::typed::are_bytes;
use crate::{Image, LoadError};
use std::alloc::Global;

/// The fields of the object that the file holds, where it is exactly as an object's. Of a symbol's address and size, which
/// may fill 64 bits in an object of riscv64, it gives the low 32 bits.
pub fn load(alloc: Global, bytes: &[u8]) -> Result<Image, LoadError>
    ensures image { IfOk result (λ image. loaded bytes.now ≡ Ok image) }
    ensures refused { IfErr result (λ e. (e ≡ Memory) ⊎ (loaded bytes.now ≡ Err e)) }
    ensures object { IfOk result IsObject }
    ensures file { IfOk result (IsFileOf bytes.now) }
{
    let image = image_of(alloc, bytes)?;
    are_bytes(bytes);
    Ok(image)
}

fn image_of(alloc: Global, bytes: &[u8]) -> Result<Image, LoadError>
    ensures image { IfOk result (λ image. loaded bytes.now ≡ Ok image) }
    ensures refused { IfErr result (λ e. (e ≡ Memory) ⊎ (loaded bytes.now ≡ Err e)) }
{
    let file = opened(bytes)?;
    let image = file.image(alloc)?;
    Ok(image)
}

impl<'a> File<'a> {
    /// The fields that the sections hold.
    #[tactic(auto, unfolding(crate::specs::Loading::image_of))]
    fn image(&self, alloc: Global) -> Result<Image, LoadError>
        ensures image { IfOk result (λ image. image ≡ image_of self.now.bytes.now) }
        ensures fits { OnOk result (section_fault self.now.bytes.now ≡ None) }
        ensures refused { IfErr result (IsCause self.now.bytes.now) }
    {
        let loaded = self.loaded(alloc)?;
        let signed = self.signatures(alloc, loaded.end)?;
        let named = self.symbols(alloc, signed.end)?;
        self.end(named.end)?;
        Ok(Image {
            target: self.target,
            text: loaded.text,
            pool: loaded.pool,
            window: loaded.window,
            types: signed.types,
            sigs: signed.sigs,
            symbols: named.symbols,
        })
    }

    /// The names of the sections and the gap before the section headers.
    #[tactic(auto, using(crate::proofs::Faults::fault_holds, crate::proofs::Faults::fit_all))]
    fn end(&self, before: usize) -> Result<(), LoadError>
        requires { IsAt self.now.bytes.now Shstrtab before }
        ensures fits { OnOk result (section_fault self.now.bytes.now ≡ None) }
        ensures refused { IfErr result (IsCause self.now.bytes.now) }
    {
        let part = self.section(Section::Shstrtab, before)?;
        if !self.is_end(part) {
            return Err(bad(Section::Shstrtab));
        }
        Ok(())
    }

    /// Whether the section holds the names of the sections, and the section headers are next.
    #[tactic(auto, unfolding(crate::specs::Loading::holds))]
    fn is_end(&self, part: Part<'_>) -> bool
        requires content { part.content.now ≡ content self.now.bytes.now Shstrtab }
        requires end { part.end ≡ begin_read self.now.bytes.now Shstrtab + 52 }
        requires within { part.end ≤ length self.now.bytes.now }
        ensures { result ≡ holds self.now.bytes.now Shstrtab }
    {
        let end = aligned(part.end as u64) as usize;
        part.content == SECTION_NAMES.as_slice()
            && end == self.e_shoff
            && is_zero(&self.bytes[part.end..end])
    }
}
