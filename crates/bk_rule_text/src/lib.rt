//! The text of rewrite rules: its reader and its printer.
//!
//! A rule is one line, `sexpr [&& conditions] => sexpr`, in the syntax of Go's `cmd/compile/internal/ssa`.
#![tactic(auto)]

mod errors;
mod printer;
mod read;
mod stands;

pub use bk_rule::{Memory, Rule};
pub use errors::RuleError;
pub use printer::print_rules;
pub use read::read_rules;
