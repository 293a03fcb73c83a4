//! Objects: the fields of an executable for one of the two machines, the ELF file that holds them, and its loader.
#![tactic(auto)]

mod errors;
mod fields;
mod file;
mod functions;
mod gosig;
mod laws;
mod layout;
mod loader;
mod machine;
mod names;
mod numbers;
mod object;
mod opening;
mod placing;
mod signatures;
mod symbols;
mod symtab;
mod tables;
mod typed;
mod writer;

pub use bk_ops::Memory;
pub use errors::LoadError;
pub use functions::function;
pub use laws::objects_and_files;
pub use loader::load;
pub use object::{Image, Object, Symbol};
pub use writer::write_elf;
