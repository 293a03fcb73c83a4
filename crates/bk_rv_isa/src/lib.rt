//! The RISC-V instructions of RV64I with M: their words, and what a machine does with them.
//!
//! The encodings are those of "The RISC-V Instruction Set Manual, Volume I: Unprivileged Architecture".
//! `specs/Encoding.antt` is the table of words, `specs/Machine.antt` the machine's step and its start.
#![tactic(auto)]

mod decoder;
mod encoder;
mod inst;
mod laws;

pub use bk_machine::Stop;
pub use decoder::decode;
pub use encoder::encode;
pub use inst::{BranchOp, ImmediateOp, Inst, LoadOp, RegisterOp, ShiftOp, StoreOp};
pub use laws::{a_stop_changes_nothing, memory_keeps_its_bytes, one_word_each};
