// The sections of symbols and of their names.
ghost use Rattle.std.specs.Prelude.{◌≡◌, ◌+◌, ◌-◌, ◌*◌, ◌/◌, ◌&&◌, not, true, length, map, IsTrue, OnOk, IfOk, IfErr};
ghost use Rattle.std.specs.List.{list_all};
ghost use Rattle.std.specs.Str.{is_utf8};
ghost use Rattle.bk_elf.specs.declared.tables.Section.TheVariants.{Symtab, Strtab, Shstrtab};
ghost use Rattle.bk_elf.specs.Lists.{has_zero};
ghost use Rattle.bk_elf.specs.Loading.{content, extent_read, before_read, entries_read, names_read, places_read, holds_entries, holds_symbols, symbols_of, Refuses, IsAt, IsCause};

use crate::file::{File, Part};
use crate::names::{are_distinct, are_ended, are_texts, names, symbols};
use crate::numbers::is_zero;
use crate::placing::bad;
use crate::symbols::{Entry, are_entries, are_places, entries, places};
use crate::tables::{Section, class_of};
use crate::{LoadError, Symbol};
use std::alloc::{AllocError, Global};

/// The symbols, and where their names end in the file.
#[derive(Drop)]
pub(crate) struct Named {
    pub(crate) symbols: Vec<Symbol>,
    pub(crate) end: usize,
}

impl<'a> File<'a> {
    /// The symbols with their names.
    #[tactic(auto, using(crate::proofs::Tabling::symbols_refused, crate::proofs::Tabling::symbols_next))]
    pub(crate) fn symbols(&self, alloc: Global, before: usize) -> Result<Named, LoadError>
        requires { IsAt self.now.bytes.now Symtab before }
        ensures symbols { IfOk result (λ n. n.symbols.items ≡ symbols_of (entries_read self.now.bytes.now) (names_read self.now.bytes.now)) }
        ensures end { IfOk result (λ n. IsAt self.now.bytes.now Shstrtab n.end) }
        ensures refused { IfErr result (IsCause self.now.bytes.now) }
    {
        let part = self.section(Section::Symtab, before)?;
        let (entries, names) = self.symtab(alloc, part)?;
        let end = self.strtab(&names, part.end)?;
        let symbols = symbols(alloc, &entries, &names)?;
        Ok(Named { symbols, end })
    }

    /// The entries of the symbols and their names.
    #[tactic(auto, using(crate::proofs::Tabling::entries_refused))]
    fn symtab(
        &self,
        alloc: Global,
        part: Part<'_>,
    ) -> Result<(Vec<Entry>, Vec<&'a [u8]>), LoadError>
        requires content { part.content.now ≡ content self.now.bytes.now Symtab }
        requires length { length part.content.now ≡ extent_read self.now.bytes.now Symtab }
        requires end { part.end ≡ before_read self.now.bytes.now Strtab }
        ensures entries { IfOk result (λ r. r.0.items ≡ entries_read self.now.bytes.now) }
        ensures names { IfOk result (λ r. map (λ n. n.now) r.1.items ≡ names_read self.now.bytes.now) }
        ensures holds { OnOk result (holds_symbols self.now.bytes.now ≡ true) }
        ensures fails { IfErr result (Refuses (holds_symbols self.now.bytes.now)) }
    {
        let entries = self.entries(alloc, part.content)?;
        let names = self.names(alloc, &entries, part.end)?;
        Ok((entries, names))
    }

    /// The names of the entries, if they begin one after the other and differ.
    #[tactic(auto, using(crate::proofs::Tabling::no_places, crate::proofs::Tabling::no_distinct, crate::proofs::Tabling::all_symbols))]
    fn names(
        &self,
        alloc: Global,
        entries: &[Entry],
        end: usize,
    ) -> Result<Vec<&'a [u8]>, LoadError>
        requires entries { entries.now ≡ entries_read self.now.bytes.now }
        requires holds { holds_entries self.now.bytes.now ≡ true }
        requires end { end ≡ before_read self.now.bytes.now Strtab }
        ensures names { IfOk result (λ names. map (λ n. n.now) names.items ≡ names_read self.now.bytes.now) }
        ensures holds { OnOk result (holds_symbols self.now.bytes.now ≡ true) }
        ensures fails { IfErr result (Refuses (holds_symbols self.now.bytes.now)) }
    {
        let places = places(alloc, entries)?;
        if !are_places(self.sizes.strtab, &places) {
            return Err(bad(Section::Symtab));
        }
        let names = self.names_at(alloc, &places, end)?;
        let distinct = are_distinct(alloc, &names)?;
        if !distinct {
            return Err(bad(Section::Symtab));
        }
        Ok(names)
    }

    #[tactic(auto, unfolding(crate::specs::Loading::names_read))]
    fn names_at(
        &self,
        alloc: Global,
        places: &[u64],
        end: usize,
    ) -> Result<Vec<&'a [u8]>, AllocError>
        requires places { places.now ≡ places_read self.now.bytes.now }
        requires end { end ≡ before_read self.now.bytes.now Strtab }
        ensures { IfOk result (λ names. map (λ n. n.now) names.items ≡ names_read self.now.bytes.now) }
    {
        let strtab = self.content(Section::Strtab, end);
        names(alloc, strtab, self.sizes.strtab, places)
    }

    /// The entries after the first one, which is 0.
    #[tactic(auto, using(crate::proofs::Tabling::tail_room), unfolding(crate::specs::Loading::holds_entries, crate::specs::Loading::entries_read))]
    fn entries(&self, alloc: Global, symtab: &[u8]) -> Result<Vec<Entry>, LoadError>
        requires content { symtab.now ≡ content self.now.bytes.now Symtab }
        requires length { length symtab.now ≡ extent_read self.now.bytes.now Symtab }
        ensures entries { IfOk result (λ entries. entries.items ≡ entries_read self.now.bytes.now) }
        ensures holds { OnOk result (holds_entries self.now.bytes.now ≡ true) }
        ensures fails { IfErr result (Refuses (holds_entries self.now.bytes.now)) }
    {
        let size = class_of(self.target).st_entsize;
        if symtab.len() % size != 0 || symtab.is_empty() || !is_zero(&symtab[..size]) {
            return Err(bad(Section::Symtab));
        }
        let count = symtab.len() / size - 1;
        if !are_entries(self.target, self.sizes.text, count, &symtab[size..]) {
            return Err(bad(Section::Symtab));
        }
        Ok(entries(alloc, self.target, count, &symtab[size..])?)
    }

    /// Where the names end, if their section holds them.
    #[tactic(auto, using(crate::proofs::Faults::fault_holds, crate::proofs::Faults::fit_strtab), unfolding(crate::specs::Loading::holds, crate::specs::Loading::holds_names))]
    fn strtab(&self, names: &[&[u8]], before: usize) -> Result<usize, LoadError>
        requires at { IsAt self.now.bytes.now Strtab before }
        requires names { map (λ n. n.now) names.now ≡ names_read self.now.bytes.now }
        ensures end { IfOk result (IsAt self.now.bytes.now Shstrtab) }
        ensures texts { OnOk result (IsTrue (list_all (λ n. not (has_zero n) && is_utf8 n) (names_read self.now.bytes.now))) }
        ensures refused { IfErr result (IsCause self.now.bytes.now) }
    {
        let part = self.section(Section::Strtab, before)?;
        if !are_ended(part.content, names) || !are_texts(names) {
            return Err(bad(Section::Strtab));
        }
        Ok(part.end)
    }
}
