//! One function from SSA form to code, and a package from its functions.
#![tactic(auto)]

mod coding;
mod framing;
mod items;
mod listed;
mod lowering;
mod make;
mod numbers;
mod outcomes;
mod package;
mod placing;
mod refusals;
mod rounds;
mod rules;
mod run;
mod work;

pub use bk_func::Memory;
pub use items::{Done, Part};
pub use lowering::compile_one;
pub use package::{compile_package, frames_of};
pub use refusals::{Cause, PackageError, Refusal};
pub use rounds::{Job, Round};
