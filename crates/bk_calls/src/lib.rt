//! Calls in words: the arguments and results of calls go to registers and to words of memory, and the frames that hold them.
#![tactic(auto)]

mod areas;
mod arguments;
mod budget;
mod callees;
mod chains;
mod frame;
mod laws;
mod plan;
mod role;
mod turn;

pub use areas::{word_areas, word_areas_by};
pub use bk_callees::Callees;
pub use bk_func::RewriteError;
pub use frame::{FrameError, frame_of};
pub use laws::{growth_is_counted, numbers_of_words, only_words_are_left};
