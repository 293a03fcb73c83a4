//! What a line of a function may not declare.
ghost use Rattle.std.specs.Prelude.{◌≡◌, length, map, vec_len};
ghost use Rattle.indexmap.specs.IndexSet.{index_set_len};
ghost use Rattle.bk_dump.specs.Drafts.{is_number, are_numbers, control_is_number, value_fault, block_fault, end_fault};

use crate::read::block::BlockLine;
use crate::read::draft::FuncDraft;
use crate::read::end::EndLine;
use crate::read::errors::{Fault, Which};
use crate::read::value::ValueLine;
use bk_func::{MOST_BLOCKS, MOST_VALUES};

/// Whether values and blocks may have this number.
fn is_number(number: u32) -> bool
    ensures { result ≡ is_number number }
{
    1 <= number && number <= 2_147_483_647
}

fn are_numbers(numbers: &[u32]) -> bool
    ensures { result ≡ are_numbers numbers.now }
{
    numbers.iter().all(|number| is_number(*number))
}

/// Whether there is no control, or its number may be one.
fn control_is_number(control: Option<u32>) -> bool
    ensures { result ≡ control_is_number control }
{
    match control {
        Some(number) => is_number(number),
        None => true,
    }
}

/// The limit that a value's line passes, or whether it declares a number again.
#[tactic(auto, unfolding(crate::specs::Drafts::value_fault))]
pub fn value_fault(func: &FuncDraft, line: &ValueLine) -> Option<Fault>
    ensures { result ≡ value_fault func.now line.now }
{
    if func.value_ids.len() >= MOST_VALUES {
        Some(Fault::Limit(Which::Values))
    } else if !is_number(line.id) || !are_numbers(line.args.as_slice()) {
        Some(Fault::Limit(Which::Numbers))
    } else if func.value_ids.contains(&line.id) {
        Some(Fault::Duplicate)
    } else {
        None
    }
}

/// The limit that the line which opens a block passes, or whether it declares a number again.
#[tactic(auto, unfolding(crate::specs::Drafts::block_fault))]
pub fn block_fault(func: &FuncDraft, line: &BlockLine) -> Option<Fault>
    ensures { result ≡ block_fault func.now line.now }
{
    if func.block_ids.len() >= MOST_BLOCKS {
        Some(Fault::Limit(Which::Blocks))
    } else if !is_number(line.id) || !are_numbers(&line.preds) {
        Some(Fault::Limit(Which::Numbers))
    } else if func.block_ids.contains(&line.id) {
        Some(Fault::Duplicate)
    } else {
        None
    }
}

/// The limit that the line which ends a block passes.
#[tactic(auto, unfolding(crate::specs::Drafts::end_fault))]
pub fn end_fault(line: &EndLine) -> Option<Fault>
    ensures { result ≡ end_fault line.now }
{
    if control_is_number(line.control) && are_numbers(&line.succs) {
        None
    } else {
        Some(Fault::Limit(Which::Numbers))
    }
}
