//! What both machines do alike: why a run is over, runs step by step, code in the text.
#![tactic(auto)]

mod stop;

pub use stop::Stop;
