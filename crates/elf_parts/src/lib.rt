//! The parts of an ELF file, over bytes: records, tables, strings, notes, versions and hash sections. The readers of
//! whole files are built on them. The plain records, their tables and the tables of strings are those of
//! `elf_records`, with the same names.
#![tactic(auto)]

pub use elf_records::{
    compression, dynamic, endian, file, relocation, section, segment, string_table, symbol,
};

pub mod gnu_symver;
pub mod hash;
pub mod laws;
pub mod note;
pub mod parse;
