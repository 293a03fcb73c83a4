//! Rewrite rules as trees, and what they mean.
#![tactic(auto)]

mod copy;
pub mod make;
mod numbers;
mod trees;
mod values;

pub use bk_func::Memory;
pub use copy::copy_rules;
pub use trees::{Bound, Build, Expr, Fun, IntPart, Pattern, Rule, TyPart};
pub use values::{aux_value, holds};
