//! The reader of a text's lines, one after the other.
ghost use Rattle.std.specs.Prelude.{◌≡◌, ◌≤◌, ◌<◌, ◌+◌, Ok, IfOk, OnOk, map, vec_len};
ghost use Rattle.std.specs.Option.{option_map};
ghost use Rattle.bk_dump.specs.Drafts.{State, entered, has_block, has_control, at_start, add_value, end_block, read_inside, declare, closed, open_block, read_behind, read_line, finished_function, finished};
ghost use Rattle.bk_dump.specs.Views.{state, Steps};

use crate::read::block::{BlockLine, block_line};
use crate::read::declare::declare;
use crate::read::draft::{BlockDraft, FuncDraft, OpenBlock, Stage};
use crate::read::end::{EndLine, end_line};
use crate::read::errors::{Fault, LineError};
use crate::read::faults::{block_fault, end_fault, value_fault};
use crate::read::sets::add_number;
use crate::read::state::Reader;
use crate::read::value::{ValueLine, value_line};
use indexmap::IndexSet;
use std::alloc::{AllocError, Global};
use std::mem;

/// Whether the line has a byte that no line may hold.
fn has_control(line: &[u8]) -> bool
    ensures { result ≡ has_control line.now }
{
    line.iter().any(|byte| *byte < b' ' && *byte != b'\t')
}

/// Whether the function has a block.
fn has_block(func: &FuncDraft) -> bool
    ensures { result ≡ has_block func.now }
{
    !func.blocks.is_empty()
}

impl<'a> Reader<'a> {
    /// The reader before the first line.
    pub fn new(alloc: Global) -> Self
        ensures { state result ≡ at_start }
    {
        Reader {
            names: IndexSet::new(alloc),
            funcs: Vec::new(alloc),
            vars: Vec::new(alloc),
            window: 0,
            stage: Stage::Between,
        }
    }

    /// Goes on to this stage.
    pub fn enter(&mut self, stage: Stage<'a>)
        ensures { state self.new ≡ entered (state self.old) stage.entry }
    {
        self.stage = stage;
    }

    /// Adds a value to the open block.
    fn add_value(
        &mut self,
        func: FuncDraft<'a>,
        block: OpenBlock<'a>,
        line: ValueLine<'a>,
    ) -> Result<(), LineError>
        ensures { Steps result (add_value (state self.old) func.entry block.entry line.entry) (state self.new) }
    {
        let mut func = func;
        let mut block = block;
        if let Some(fault) = value_fault(&func, &line) {
            return Err(LineError::Fault(fault));
        }
        add_number(&mut func.value_ids, line.id)?;
        block.values.push(line)?;
        self.enter(Stage::Block(func, block));
        Ok(())
    }

    /// Ends the open block.
    fn end_block(
        &mut self,
        func: FuncDraft<'a>,
        block: OpenBlock<'a>,
        end: EndLine,
    ) -> Result<(), LineError>
        ensures { Steps result (end_block (state self.old) func.entry block.entry end) (state self.new) }
    {
        if let Some(fault) = end_fault(&end) {
            return Err(LineError::Fault(fault));
        }
        let mut func = func;
        let OpenBlock { label, values } = block;
        func.blocks.push(BlockDraft { label, values, end })?;
        self.enter(Stage::Function(func));
        Ok(())
    }

    /// Reads a value's line, or the line that ends the open block.
    #[tactic(auto, unfolding(crate::specs::Drafts::read_inside))]
    fn read_inside(
        &mut self,
        alloc: Global,
        func: FuncDraft<'a>,
        block: OpenBlock<'a>,
        line: &'a [u8],
    ) -> Result<(), LineError>
        ensures { Steps result (read_inside (state self.old) func.entry block.entry line.now) (state self.new) }
    {
        if let Some(found) = value_line(alloc, line)? {
            return self.add_value(func, block, found);
        }
        match end_line(alloc, line)? {
            Some(found) => self.end_block(func, block, found),
            None => Err(LineError::Fault(Fault::Syntax)),
        }
    }

    /// Opens a block.
    fn open_block(
        &mut self,
        alloc: Global,
        func: FuncDraft<'a>,
        label: BlockLine,
    ) -> Result<(), LineError>
        ensures { Steps result (open_block (state self.old) func.entry label) (state self.new) }
    {
        if let Some(fault) = block_fault(&func, &label) {
            return Err(LineError::Fault(fault));
        }
        let mut func = func;
        add_number(&mut func.block_ids, label.id)?;
        let values = Vec::new(alloc);
        self.enter(Stage::Block(func, OpenBlock { label, values }));
        Ok(())
    }

    /// Finishes a function.
    fn close(&mut self, func: FuncDraft<'a>) -> Result<(), AllocError>
        ensures { OnOk result (state self.new ≡ closed (state self.old) func.entry) }
    {
        self.funcs.push(func)?;
        self.enter(Stage::Between);
        Ok(())
    }

    /// Reads the line that opens a block, or, where the function has one, a declaration.
    #[tactic(auto, unfolding(crate::specs::Drafts::read_behind))]
    fn read_behind(
        &mut self,
        alloc: Global,
        func: FuncDraft<'a>,
        line: &'a [u8],
    ) -> Result<(), LineError>
        ensures { Steps result (read_behind (state self.old) func.entry line.now) (state self.new) }
    {
        if let Some(found) = block_line(alloc, line)? {
            return self.open_block(alloc, func, found);
        }
        if !has_block(&func) {
            return Err(LineError::Fault(Fault::Syntax));
        }
        self.close(func)?;
        declare(alloc, self, line)
    }

    /// Reads the next line.
    #[tactic(auto, unfolding(crate::specs::Drafts::read_line))]
    pub fn read(&mut self, alloc: Global, line: &'a [u8]) -> Result<(), LineError>
        ensures { Steps result (read_line (state self.old) line.now) (state self.new) }
    {
        if has_control(line) {
            return Err(LineError::Fault(Fault::Syntax));
        }
        match mem::replace(&mut self.stage, Stage::Between) {
            Stage::Between => declare(alloc, self, line),
            Stage::Function(func) => self.read_behind(alloc, func, line),
            Stage::Block(func, block) => self.read_inside(alloc, func, block, line),
        }
    }

    /// Finishes the function that is open at the end of the text.
    fn finish_function(&mut self, func: FuncDraft<'a>) -> Result<(), LineError>
        ensures { Steps result (finished_function (state self.old) func.entry) (state self.new) }
    {
        if !has_block(&func) {
            return Err(LineError::Fault(Fault::Syntax));
        }
        self.close(func)?;
        Ok(())
    }

    /// Finishes what is open at the end of the text.
    #[tactic(auto, unfolding(crate::specs::Drafts::finished))]
    pub fn finish(&mut self) -> Result<(), LineError>
        ensures { Steps result (finished (state self.old)) (state self.new) }
    {
        match mem::replace(&mut self.stage, Stage::Between) {
            Stage::Between => Ok(()),
            Stage::Function(func) => self.finish_function(func),
            Stage::Block(_func, _block) => Err(LineError::Fault(Fault::Syntax)),
        }
    }
}
