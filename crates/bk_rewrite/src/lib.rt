//! Rewriting by rules: where the first rule matches, and what stands there once it is applied.
#![tactic(auto)]

mod applying;
mod finding;
mod making;
mod ops;
mod parts;
mod passing;
mod roots;
mod same;
mod spots;
mod tree;

pub use applying::apply;
pub use bk_func::{Memory, RewriteError};
pub use finding::{Match, find_match};
pub use passing::{pass, rewrite, rewrite_by};
pub use roots::{Index, index_rules, rules_for};
