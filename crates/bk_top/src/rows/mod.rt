//! What each row of words makes.

pub mod call;
pub mod check;
pub mod compile;
pub mod evaluate;
pub mod extra;
pub mod generate;
pub mod input;
pub mod load;
pub mod outcome;
pub mod refused;
pub mod rules;
pub mod run;
