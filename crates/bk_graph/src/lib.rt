//! Edits and orders of a function's blocks: clean, split critical edges, layout.
#![tactic(auto)]

mod cleaned;
mod copies;
mod critical;
mod graph;
mod joined;
mod laws;
mod lists;
mod needed;
mod order;
mod places;
mod reads;
mod rebuilt;
mod roots;
mod search;
mod settled;
mod settling;

pub use bk_func::Memory;
pub use cleaned::clean;
pub use critical::split_critical;
pub use joined::is_joined;
pub use laws::forms_are_joined;
pub use order::layout;
