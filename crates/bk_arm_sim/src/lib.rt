//! A simulator of the A32 machine, whose steps are those of the machine's definition.
#![tactic(auto)]

mod arithmetic;
mod errors;
mod known;
mod machine;
mod memory;
mod operands;
mod registers;
mod returned;
mod signature;
mod starting;
mod status;
mod steps;

pub use bk_machine::Stop;
pub use errors::StartError;
pub use machine::Machine;
pub use returned::results;
pub use starting::start;
pub use steps::{run, step};
