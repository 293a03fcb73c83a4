//! Types, ops and the op table.
#![tactic(auto)]

mod arithmetic;
mod eval;
mod families;
mod family;
mod index;
mod machine;
mod names;
mod refused;
mod table;
mod types;

pub use eval::eval_op;
pub use families::{
    is_address, is_call, is_call_result, is_copy, is_load, is_nil_check, is_phi, is_word_call,
    is_word_result,
};
pub use family::{ArmOp, Family, RvOp};
pub use names::{op_name, op_of_name};
pub use refused::is_refused;
use std::alloc::AllocError;
pub use table::{AuxKind, Class, Op, OpInfo, op_info};
pub use types::{Target, Ty, code, size, width};

/// Want of memory.
#[derive(Clone, Copy, PartialEq, Eq, Debug)]
pub struct Memory;

impl From<AllocError> for Memory {
    fn from(_error: AllocError) -> Self {
        Memory
    }
}
