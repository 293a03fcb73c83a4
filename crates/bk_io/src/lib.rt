//! Sources of bytes, sinks for bytes, and gates.
//!
//! A [`Source`] and a [`Sink`] count their faults: a call answers [`Failed`] only where its count rose.
//! [`MemSource`] and [`MemSink`] hold their bytes in memory and fail where they are told to.
//! [`StdSource`] and [`StdSink`] wrap any reader and writer of std and tell nothing of content.
//! [`read_all`] reads a source to its end, and [`write_all`] writes all of a text.
#![tactic(auto)]

mod errors;
mod gates;
mod in_memory;
mod reading;
mod standard;
mod writing;

pub use errors::{Failed, Memory, ReadError};
pub use gates::{Gate, Open};
pub use in_memory::{MemSink, MemSource};
pub use reading::{Source, read_all};
pub use standard::{StdSink, StdSource};
pub use writing::{Sink, write_all};

#[cfg(test)]
mod tests;
