//! The top call of the compiler back end: words, an input and its output.
#![tactic(auto)]

mod answer;
mod command;
mod line;
mod program;
mod refusal;
mod rows;
mod tell;

pub use program::backend;
