//! Numbers of 64 bits in halves, as a machine with words of 32 bits has them.
#![tactic(auto)]

mod decomposed;
mod growth;
mod halves;
mod made;
mod places;
mod plan;
mod role;
mod tables;
mod turn;

pub use bk_func::RewriteError;
pub use decomposed::{decompose, decompose_by};
