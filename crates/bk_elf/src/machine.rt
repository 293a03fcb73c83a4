// The sections that are loaded: the text, the pool and the data window.
ghost use Rattle.std.specs.Prelude.{◌≡◌, ◌+◌, ◌/◌, ◌%◌, ◌<◌, length, IsTrue, OnOk, IfOk, IfErr};
ghost use Rattle.bk_elf.specs.declared.tables.Section.TheVariants.{Text, Pool, Data, Gosig};
ghost use Rattle.bk_elf.specs.Lists.{rises_from, is_rising, numbers};
ghost use Rattle.bk_elf.specs.Loading.{content, text_read, constants_read, holds, IsAt, IsCause};

use crate::LoadError;
use crate::file::File;
use crate::layout::headers_end;
use crate::numbers::{constants, is_rising, words};
use crate::placing::bad;
use crate::tables::Section;
use std::alloc::Global;

const CODE_LIMIT: u64 = 16_777_216;

const WINDOW_LIMIT: u64 = 1_048_576;

/// What is loaded, and where it ends in the file.
#[derive(Drop)]
pub(crate) struct Loaded {
    pub(crate) text: Vec<u32>,
    pub(crate) pool: Vec<u64>,
    pub(crate) window: Vec<u8>,
    pub(crate) end: usize,
}

impl<'a> File<'a> {
    /// The sections that are loaded.
    pub(crate) fn loaded(&self, alloc: Global) -> Result<Loaded, LoadError>
        ensures text { IfOk result (λ l. l.text.items ≡ text_read self.now.bytes.now) }
        ensures pool { IfOk result (λ l. l.pool.items ≡ constants_read self.now.bytes.now) }
        ensures window { IfOk result (λ l. l.window.items ≡ content self.now.bytes.now Data) }
        ensures end { IfOk result (λ l. IsAt self.now.bytes.now Gosig l.end) }
        ensures refused { IfErr result (IsCause self.now.bytes.now) }
    {
        let before = self.null()?;
        let text = self.text(alloc, before)?;
        let pool = self.pool(alloc, text.1)?;
        let data = self.data(alloc, pool.1)?;
        Ok(Loaded {
            text: text.0,
            pool: pool.0,
            window: data.0,
            end: data.1,
        })
    }

    /// Where the program headers end, if the null section is as it must.
    #[tactic(auto, using(crate::proofs::Faults::fit_null, crate::proofs::Faults::fit_start))]
    fn null(&self) -> Result<usize, LoadError>
        ensures ok { IfOk result (IsAt self.now.bytes.now Text) }
        ensures refused { IfErr result (IsCause self.now.bytes.now) }
    {
        self.section(Section::Null, 0)?;
        Ok(headers_end(self.target) as usize)
    }

    /// The words of the text, and where they end.
    #[tactic(auto, using(crate::proofs::Faults::fit_text, crate::proofs::Faults::fault_holds), unfolding(crate::specs::Loading::holds))]
    fn text(&self, alloc: Global, before: usize) -> Result<(Vec<u32>, usize), LoadError>
        requires { IsAt self.now.bytes.now Text before }
        ensures words { IfOk result (λ r. r.0.items ≡ text_read self.now.bytes.now) }
        ensures end { IfOk result (λ r. IsAt self.now.bytes.now Pool r.1) }
        ensures refused { IfErr result (IsCause self.now.bytes.now) }
    {
        let part = self.section(Section::Text, before)?;
        if self.sizes.text % 4 != 0 {
            return Err(bad(Section::Text));
        }
        let words = words(alloc, part.content)?;
        Ok((words, part.end))
    }

    /// The constants of the pool, and where they end.
    #[tactic(auto, using(crate::proofs::Faults::fit_pool, crate::proofs::Faults::fault_holds))]
    fn pool(&self, alloc: Global, before: usize) -> Result<(Vec<u64>, usize), LoadError>
        requires { IsAt self.now.bytes.now Pool before }
        ensures constants { IfOk result (λ r. r.0.items ≡ constants_read self.now.bytes.now) }
        ensures end { IfOk result (λ r. IsAt self.now.bytes.now Data r.1) }
        ensures refused { IfErr result (IsCause self.now.bytes.now) }
    {
        let part = self.section(Section::Pool, before)?;
        let constants = constants(alloc, part.content)?;
        if !self.are_constants(&constants) {
            return Err(bad(Section::Pool));
        }
        Ok((constants, part.end))
    }

    /// The data window, and where it ends.
    #[tactic(auto, using(crate::proofs::Faults::fit_data, crate::proofs::Faults::fault_holds), unfolding(crate::specs::Loading::holds))]
    fn data(&self, alloc: Global, before: usize) -> Result<(Vec<u8>, usize), LoadError>
        requires { IsAt self.now.bytes.now Data before }
        ensures window { IfOk result (λ r. r.0.items ≡ content self.now.bytes.now Data) }
        ensures end { IfOk result (λ r. IsAt self.now.bytes.now Gosig r.1) }
        ensures refused { IfErr result (IsCause self.now.bytes.now) }
    {
        let part = self.section(Section::Data, before)?;
        if self.sizes.window % 8 != 0 || self.sizes.window > WINDOW_LIMIT {
            return Err(bad(Section::Data));
        }
        let window = Vec::from_slice(alloc, part.content)?;
        Ok((window, part.end))
    }
    /// Whether the constants may stand in the pool, by its size and their order.
    #[tactic(auto, unfolding(crate::specs::Loading::holds))]
    fn are_constants(&self, constants: &[u64]) -> bool
        requires { constants.now ≡ constants_read self.now.bytes.now }
        ensures { result ≡ holds self.now.bytes.now Pool }
    {
        self.sizes.pool % 8 == 0
            && self.sizes.pool <= CODE_LIMIT
            && self.sizes.text <= CODE_LIMIT - self.sizes.pool
            && is_rising(constants)
    }
}
