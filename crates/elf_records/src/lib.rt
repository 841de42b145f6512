//! What an ELF file is read by: byte orders, numbers, the error type of the library, plain records, as headers,
//! symbols, relocations and dynamic entries, tables of these, and tables of strings.
#![tactic(auto)]

pub mod compression;
pub mod dynamic;
pub mod endian;
pub mod file;
pub mod laws;
pub mod parse;
pub mod relocation;
pub mod section;
pub mod segment;
pub mod slices;
pub mod string_table;
pub mod symbol;
