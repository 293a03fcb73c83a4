//! The reader of packages.
mod beside;
mod block;
mod declare;
mod draft;
mod end;
mod errors;
mod faults;
mod header;
mod lines;
mod mention;
mod name;
mod number;
mod package;
mod part;
mod reader;
mod resolve;
mod scope;
mod sets;
mod state;
mod types;
mod value;
mod variable;

pub use errors::{DumpError, Which};
pub use package::read_package;
