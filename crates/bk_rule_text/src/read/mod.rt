//! The reader of rules.
mod build;
mod expr;
mod front;
mod group;
mod levels;
mod line;
mod names;
mod number;
mod operator;
mod pattern;
mod rule;
mod text;
mod whole;
mod word;

pub use text::read_rules;
