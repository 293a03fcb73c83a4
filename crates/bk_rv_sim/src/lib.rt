//! A simulator of the RISC-V machine, whose steps are those of the machine's definition.
#![tactic(auto)]

mod errors;
mod known;
mod machine;
mod returned;
mod starting;
mod steps;
mod values;

pub use bk_machine::Stop;
pub use errors::StartError;
pub use machine::Machine;
pub use returned::results;
pub use starting::start;
pub use steps::{run, step};
