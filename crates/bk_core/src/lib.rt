//! The pure machine behind the table that workers share: a counter of claims, three areas of cells,
//! and what each worker has and knows. Five events change it, and each of them keeps one rule.
#![tactic(auto)]

mod events;
mod laws;
#[cfg(test)]
mod tests;
mod views;

pub use bk_ops::Memory;
pub use events::{Core, Event, step};
pub use laws::{
    all_parts_know_all, each_is_drawn, every_run, one_event, one_is_free, one_key_one_cell,
};
pub use views::View;
