//! The error type of the library, records that are read at an offset, and tables of records.

pub(crate) use elf_records::parse::{get_bytes, read_quickly, read_record};
pub use elf_records::parse::{ParseAt, ParseError, ParsingIterator, ParsingTable};
