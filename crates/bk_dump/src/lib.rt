//! The text of a package: its reader, its printer, and packages that are made by a rule.
#![tactic(auto)]

mod claims;
mod generator;
mod print;
mod read;

pub use claims::claim_order;
pub use generator::generate;
pub use print::print_package;
pub use read::{DumpError, Which, read_package};
