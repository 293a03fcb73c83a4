//! References: the names and numbers that a function's lines mention.
ghost use Rattle.std.specs.Prelude.{◌≡◌, ◌++◌, not, map, codes, string_bytes, IfOk};
ghost use Rattle.std.specs.Fmt.{decimal};
ghost use Rattle.std.specs.List.{find};
ghost use Rattle.bk_dump.specs.Drafts.{declares};
ghost use Rattle.bk_dump.specs.Resolved.{missing, missing_control, missing_at_end, place_of, symbol_of, argument_of, callee_of, aux_of, looked_up, value_of, made_block, block_of, func_of, each};
ghost use Rattle.bk_dump.specs.Views.{Finds, Passes};

use crate::read::block::BlockLine;
use crate::read::declare::{DIVIDE_NAME, SHIFT_NAME, number_of};
use crate::read::draft::{BlockDraft, FuncDraft};
use crate::read::end::EndLine;
use crate::read::errors::ReferenceError;
use crate::read::mention::Mention;
use crate::read::scope::Scope;
use crate::read::value::ValueLine;
use bk_func::{Aux, Block, Func, PANIC_DIVIDE, PANIC_SHIFT, Value};
use bk_ops::Family;
use indexmap::IndexSet;
use std::alloc::{AllocError, Global};

/// A number behind its letter.
fn spelled(alloc: Global, letter: &str, number: u32) -> Result<String, AllocError>
    ensures { IfOk result (λ text. string_bytes text ≡ letter.now ++ decimal number) }
{
    format!(in alloc; "{letter}{number}")
}

/// The first of these numbers that is not declared.
fn first_missing(declared: &IndexSet<u32>, numbers: &[u32]) -> Option<u32>
    ensures { result ≡ find (λ n. not (declares declared.now.keys n)) numbers.now }
{
    numbers
        .iter()
        .copied()
        .find(|number| !declared.contains(number))
}

/// Refuses the first of these numbers that is not declared.
fn check(
    alloc: Global,
    letter: &str,
    declared: &IndexSet<u32>,
    numbers: &[u32],
) -> Result<(), ReferenceError>
    ensures { Passes result (missing letter.now declared.now.keys numbers.now) }
{
    match first_missing(declared, numbers) {
        Some(number) => Err(ReferenceError::Undefined(spelled(alloc, letter, number)?)),
        None => Ok(()),
    }
}

/// The number of a name in the set.
fn place_of(names: &IndexSet<&str>, name: &str) -> Result<Option<u32>, AllocError>
    ensures { IfOk result (λ place. place ≡ place_of (map (λ n. n.now) names.now.keys) name.now) }
{
    match names.get_index_of(name) {
        Some(place) => Ok(Some(number_of(place)?)),
        None => Ok(None),
    }
}

/// The number of a function or a variable.
fn symbol_of(names: &IndexSet<&str>, name: &str) -> Result<Option<Aux>, AllocError>
    ensures { IfOk result (λ found. found ≡ symbol_of (map (λ n. n.now) names.now.keys) name.now) }
{
    match place_of(names, name)? {
        Some(place) => Ok(Some(Aux::Sym(place))),
        None => Ok(None),
    }
}

/// The number of a callee; those that panic have numbers of their own.
fn callee_of(names: &IndexSet<&str>, name: &str) -> Result<Option<Aux>, AllocError>
    ensures { IfOk result (λ found. found ≡ callee_of (map (λ n. n.now) names.now.keys) name.now) }
{
    if name == DIVIDE_NAME {
        Ok(Some(Aux::Sym(PANIC_DIVIDE)))
    } else if name == SHIFT_NAME {
        Ok(Some(Aux::Sym(PANIC_SHIFT)))
    } else {
        symbol_of(names, name)
    }
}

/// The place of a parameter.
fn argument_of(parameters: &IndexSet<&str>, name: &str) -> Result<Option<Aux>, AllocError>
    ensures { IfOk result (λ found. found ≡ argument_of (map (λ n. n.now) parameters.now.keys) name.now) }
{
    match place_of(parameters, name)? {
        Some(place) => Ok(Some(Aux::Arg(place))),
        None => Ok(None),
    }
}

impl<'b, 'a> Scope<'b, 'a> {
    /// What the name that a value mentions stands for, by the family of the value's op.
    #[tactic(auto, unfolding(crate::specs::Resolved::aux_of))]
    fn aux_of(&self, family: Family, name: &str) -> Result<Option<Aux>, AllocError>
        ensures { IfOk result (λ found. found ≡ aux_of self.now family name.now) }
    {
        match family {
            Family::Arg => argument_of(self.parameters, name),
            Family::StaticLECall => callee_of(self.names, name),
            _ => symbol_of(self.names, name),
        }
    }

    /// What stands beside the arguments, its name looked up.
    #[tactic(auto, unfolding(crate::specs::Resolved::looked_up))]
    fn looked_up(
        &self,
        alloc: Global,
        family: Family,
        mention: &Mention<'a>,
    ) -> Result<Aux, ReferenceError>
        ensures { Finds (λ x. x) result (looked_up self.now family mention.now) }
    {
        let Some(name) = mention.name else {
            return Ok(mention.aux);
        };
        match self.aux_of(family, name)? {
            Some(aux) => Ok(aux),
            None => Err(ReferenceError::Undefined(String::from_str(alloc, name)?)),
        }
    }

    /// A value with its references looked up.
    #[tactic(auto, unfolding(crate::specs::Resolved::value_of))]
    fn value_of(&self, alloc: Global, line: ValueLine<'a>) -> Result<Value, ReferenceError>
        ensures { Finds (λ v. v) result (value_of self.now line.entry) }
    {
        let ValueLine {
            id,
            op,
            ty,
            args,
            int,
            mention,
        } = line;
        let aux = self.looked_up(alloc, op.family, &mention)?;
        check(alloc, "v", self.values, args.as_slice())?;
        Ok(Value {
            id,
            op,
            ty,
            args,
            int,
            aux,
        })
    }

    /// The values of a block with their references looked up.
    fn values_of(
        &self,
        alloc: Global,
        lines: Vec<ValueLine<'a>>,
    ) -> Result<Vec<Value>, ReferenceError>
        ensures { Finds (λ vs. vs.items) result (each (value_of self.now) lines.entry.items) }
    {
        let mut values = Vec::with_capacity(alloc, lines.len())?;
        for line in lines {
            values.push(self.value_of(alloc, line)?)?;
        }
        Ok(values)
    }

    /// Refuses a control that is not declared.
    fn check_control(&self, alloc: Global, control: Option<u32>) -> Result<(), ReferenceError>
        ensures { Passes result (missing_control self.now.values control) }
    {
        match control {
            Some(number) => check(alloc, "v", self.values, &[number]),
            None => Ok(()),
        }
    }

    /// Refuses the first reference at the end of a block that names nothing.
    #[tactic(auto, unfolding(crate::specs::Resolved::missing_at_end))]
    fn check_end(&self, alloc: Global, end: &EndLine) -> Result<(), ReferenceError>
        ensures { Passes result (missing_at_end self.now end.now) }
    {
        self.check_control(alloc, end.control)?;
        check(alloc, "b", self.blocks, &end.succs)
    }

    /// A block with its references looked up.
    #[tactic(auto, unfolding(crate::specs::Resolved::block_of))]
    fn block_of(&self, alloc: Global, block: BlockDraft<'a>) -> Result<Block, ReferenceError>
        ensures { Finds (λ b. b) result (block_of self.now block.entry) }
    {
        let BlockDraft { label, values, end } = block;
        check(alloc, "b", self.blocks, &label.preds)?;
        let values = self.values_of(alloc, values)?;
        self.check_end(alloc, &end)?;
        Ok(made_block(label, values, end))
    }

    /// The blocks of the function with their references looked up.
    fn blocks_of(
        &self,
        alloc: Global,
        drafts: Vec<BlockDraft<'a>>,
    ) -> Result<Vec<Block>, ReferenceError>
        ensures { Finds (λ bs. bs.items) result (each (block_of self.now) drafts.entry.items) }
    {
        let mut blocks = Vec::with_capacity(alloc, drafts.len())?;
        for draft in drafts {
            blocks.push(self.block_of(alloc, draft)?)?;
        }
        Ok(blocks)
    }
}

/// A block of what its lines declare.
fn made_block(label: BlockLine, values: Vec<Value>, end: EndLine) -> Block
    ensures { result ≡ made_block label values.items end }
{
    let BlockLine { id, preds } = label;
    let EndLine {
        kind,
        control,
        succs,
        likely,
    } = end;
    Block {
        id,
        kind,
        control,
        preds,
        succs,
        likely,
        values,
    }
}

/// A function with its references looked up.
#[tactic(auto, unfolding(crate::specs::Resolved::func_of))]
pub(crate) fn func_of<'a>(
    alloc: Global,
    draft: FuncDraft<'a>,
    names: &IndexSet<&'a str>,
) -> Result<Func, ReferenceError>
    ensures { Finds (λ f. f) result (func_of (map (λ n. n.now) names.now.keys) draft.entry) }
{
    let FuncDraft {
        name,
        parameters,
        sig,
        blocks,
        value_ids,
        block_ids,
    } = draft;
    let given = number_of(value_ids.len())?;
    let scope = Scope {
        names,
        parameters: &parameters,
        values: &value_ids,
        blocks: &block_ids,
    };
    let blocks = scope.blocks_of(alloc, blocks)?;
    Ok(Func {
        name,
        sig,
        blocks,
        given,
    })
}

/// The functions with their references looked up.
pub(crate) fn funcs_of<'a>(
    alloc: Global,
    drafts: Vec<FuncDraft<'a>>,
    names: &IndexSet<&'a str>,
) -> Result<Vec<Func>, ReferenceError>
    ensures { Finds (λ fs. fs.items) result (each (func_of (map (λ n. n.now) names.now.keys)) drafts.entry.items) }
{
    let mut funcs = Vec::with_capacity(alloc, drafts.len())?;
    for draft in drafts {
        funcs.push(func_of(alloc, draft, names)?)?;
    }
    Ok(funcs)
}
