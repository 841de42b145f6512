//! What the dynamic linker of the GNU C library (ld.so, from version 2.36 on) asks of one file that it finds for the
//! name of a library: whether it loads the file, whether its search goes on, or why the program does not start.
//!
//! A distribution may have changed the order of these questions. Debian's linker skips a file of another machine
//! also where its identification is not the wanted one.

mod dynamic_info;
mod header;
pub mod laws;
mod questions;
pub mod reading;
mod refusal;
mod segments;
#[cfg(test)]
mod tests;

use elf::endian::AnyEndian;
use elf::file::Class;
pub use questions::verdict;
pub use refusal::{Refusal, SkipReason};

/// What the files of a program have in common, and the system that runs it.
#[derive(Debug, Clone, Copy)]
pub struct Kind {
    pub class: Class,
    pub order: AnyEndian,
    /// The machine, one of `EM_*`.
    pub machine: u16,
    /// The size of a page of memory, in bytes.
    pub page_size: u64,
    /// How many bytes of addresses a process has.
    pub address_space: u64,
}

/// A file that the dynamic linker maps, and goes on with.
#[derive(Debug, Clone, Copy, PartialEq, Eq)]
pub struct Loadable {
    /// Where its dynamic entries begin in the file.
    pub start: u64,
    /// How many bytes the file has from there to the end of the segment that is loaded with them. The entries end at
    /// the first with the tag `DT_NULL`.
    pub size: u64,
}

/// What the dynamic linker does with a file that it finds for the name of a library.
#[derive(Debug, Clone, Copy, PartialEq, Eq)]
pub enum Candidate {
    /// It loads the file.
    Loadable(Loadable),
    /// It skips the file, and the search for the name goes on.
    Skipped(SkipReason),
    /// It ends, and the program does not start.
    Refused(Refusal),
}

// Why the questions end before the last one.
#[derive(Clone, Copy)]
pub(crate) enum Stop {
    // The bytes from a start to an end, which lie in the file, are not loaded.
    Missing((u64, u64)),
    Skipped(SkipReason),
    Refused(Refusal),
}
