//! Values that are live where blocks begin, and the distances to their next uses.
#![tactic(auto)]

mod counts;
mod edges;
mod homes;
mod laws;
mod live;
mod next;
mod places;
mod rows;
mod search;
mod sets;
mod table;
mod uses;

pub use bk_func::Memory;
pub use laws::{has_one_next_use, tells_next_uses};
pub use live::live_in;
pub use next::next_use;
pub use rows::LiveValue;
pub use table::Table;
