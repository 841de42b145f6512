//! Two readers of ELF files. `ElfBytes` borrows from a slice of the file's bytes, copies nothing and allocates no
//! memory. `ElfStream` reads a source lazily and caches what it has read.
#![tactic(auto)]

pub use elf_abi::{abi, to_str};
pub use elf_parts::parse::ParseError;
pub use elf_parts::{
    compression, dynamic, endian, file, gnu_symver, hash, laws, note, parse, relocation, section,
    segment, string_table, symbol,
};

mod elf_bytes;
mod elf_stream;
pub mod headers;
mod loaded_ranges;
mod read_error;
pub mod reader;
pub mod readers;
pub mod walk;

pub use elf_bytes::{CommonElfData, ElfBytes};
pub use elf_reading::source::{FileSource, MemSource, StreamSource};
pub use elf_stream::{Closed, ElfStream};
pub use loaded_ranges::{LoadedParts, LoadedRange, LoadedRanges, loaded_part};
pub use read_error::ReadError;
