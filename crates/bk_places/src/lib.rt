//! Places of values: edges between them, what a search from a place reaches, and the order inside a block.
#![tactic(auto)]

mod edges;
mod first;
mod member;
mod named;
mod order;
mod role;
mod search;

pub use edges::{Edges, entry, reversed};
pub use first::first_places;
pub use member::members;
pub use named::{copies_memory, memory_argument};
pub use order::{Lists, order_edges};
pub use role::{Role, has_role};
pub use search::Search;
