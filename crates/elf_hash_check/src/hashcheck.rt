//! Checks whether a hash section is sound for its symbols.
//!
//! On a section that a checker accepts, a look-up never returns an error, and finds a symbol exactly if an indexed
//! symbol has the name. Nothing is allocated.

mod any;
mod gnu;
pub mod laws;
mod named;
mod reads;
mod sysv;
mod table_words;

pub use any::{AnyChecked, HashKind, HashSection, check_any};
pub use gnu::{CheckedGnuHash, check_gnu, check_gnu_counted};
pub use named::NamedSymbols;
pub use reads::Reads;
use std::fmt;
pub use sysv::{CheckedSysvHash, check_sysv, check_sysv_counted};

/// Why a section is not sound. An index is the index of a symbol; buckets are counted from 0.
#[derive(Copy, Clone, Debug, PartialEq, Eq)]
pub enum HashFault {
    /// SysV: the chain of the bucket has no 0 within as many steps as there are chain words.
    Endless { bucket: usize },
    /// SysV: the chain of the bucket leads to this index, which has no chain word.
    PastChains { bucket: usize, index: usize },
    /// The symbol of a chain (SysV) or of a chain word (GNU), or its name, cannot be read.
    Unreadable { index: usize },
    /// SysV: the chain of the bucket leads to this symbol, whose name belongs to another bucket.
    WrongBucket { bucket: usize, index: usize },
    /// GNU: the shift is 32 or more.
    ShiftTooLarge,
    /// GNU: the chain word is not the hash of the symbol's name, apart from bit 0.
    WrongHash { index: usize },
    /// GNU: a bloom bit of the symbol's name is not set, or there are no bloom words.
    NoBloomBit { index: usize },
    /// GNU: the chain word does not lie in the run of the bucket of the symbol's name.
    NotInRun { index: usize },
}

// The form that `Debug` has.
impl fmt::Display for HashFault {
    ghost use Rattle.elf_hash_check.specs.Texts.{fault_text};

    ghost output = { fault_text };

    fn fmt<W: fmt::Write>(&self, f: &mut fmt::Formatter<W>) -> fmt::Result {
        match self {
            HashFault::Endless { bucket } => write!(f, "Endless {{ bucket: {bucket} }}"),
            HashFault::PastChains { bucket, index } => {
                write!(f, "PastChains {{ bucket: {bucket}, index: {index} }}")
            }
            HashFault::Unreadable { index } => write!(f, "Unreadable {{ index: {index} }}"),
            HashFault::WrongBucket { bucket, index } => {
                write!(f, "WrongBucket {{ bucket: {bucket}, index: {index} }}")
            }
            HashFault::ShiftTooLarge => f.write_str("ShiftTooLarge"),
            HashFault::WrongHash { index } => write!(f, "WrongHash {{ index: {index} }}"),
            HashFault::NoBloomBit { index } => write!(f, "NoBloomBit {{ index: {index} }}"),
            HashFault::NotInRun { index } => write!(f, "NotInRun {{ index: {index} }}"),
        }
    }
}

/// The result of a check: a checked table, or a fault of the section.
#[derive(Debug, Drop)]
pub enum Checked<T: Drop> {
    Sound(T),
    Faulty(HashFault),
}
