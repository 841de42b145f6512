//! The contents of an ELF file as text: the calls of a listing, and the program that writes it.
//!
//! `bytes` writes the text of a call over an `ElfBytes`. `stream` first loads what the call reads of an `ElfStream`,
//! and writes its text. `runs` has runs of a list of calls, and `show` the program.
#![tactic(auto)]

pub mod bytes;
mod calls;
pub mod failure;
pub mod file_system;
mod hashes;
pub mod laws;
pub mod readers;
pub mod runs;
pub mod show;
pub mod stream;
mod text;
mod words;

pub use calls::Call;
pub use elf_hash_check::hashcheck;
pub use elf_linking::resolve;
