//! Why a table that the dynamic linker uses is not available.
ghost use Rattle.std.specs.Prelude.{◌≡◌};
ghost use Rattle.elf.specs.ObjectFile.{Partial};
ghost use Rattle.elf_dynamic.specs.declared.dynamic_view.error.DynamicError.TheVariants.{Read as IsRead};
ghost use Rattle.elf_dynamic.specs.dynamic_view.Entries.{read_error};

use elf::{ParseError, ReadError};
use std::fmt;
use thiserror::Error;

/// Why a table that the dynamic linker uses is not available.
#[derive(Debug, Drop, Error)]
pub enum DynamicError {
    /// The bytes cannot be read.
    Read(ParseError),
    /// The bytes from a start to an end, which lie in the file, are not loaded.
    Missing((u64, u64)),
    /// No dynamic entry has this tag.
    NoEntry(i64),
    /// The dynamic entry with this tag gives another size of a record than the file's class: found, expected.
    EntrySize(i64, u64, u64),
    /// The dynamic entry `DT_PLTREL` is neither `DT_REL` nor `DT_RELA`.
    UnknownKind(u64),
    /// No segment of type `PT_LOAD` has the range that begins at this address in the file.
    NotLoaded(u64),
    /// No hash section says how many symbols there are.
    UnknownCount,
    /// No chain word ends the last run of the GNU hash section, so the number of symbols is not known.
    UnendedChain,
    /// The string that an entry names cannot be read.
    Name(ParseError),
}

impl fmt::Display for DynamicError {
    ghost use Rattle.elf_dynamic.specs.Texts.{error_text};

    ghost output = { error_text };

    fn fmt<W: fmt::Write>(&self, f: &mut fmt::Formatter<W>) -> fmt::Result {
        match self {
            DynamicError::Read(error) | DynamicError::Name(error) => { write!(f, "{error}") }
            DynamicError::Missing((start, end)) => {
                write!(f, "Bytes in range [0x{start:X}, 0x{end:X}) are not loaded")
            }
            DynamicError::NoEntry(tag) => write!(f, "no dynamic entry with tag 0x{tag:x}"),
            DynamicError::EntrySize(tag, found, expected) => {
                write!(
                    f,
                    "dynamic entry with tag 0x{tag:x}: size {found}, expected {expected}"
                )
            }
            DynamicError::UnknownKind(kind) => {
                write!(
                    f,
                    "relocations of the procedure linkage table are of kind {kind}"
                )
            }
            DynamicError::NotLoaded(address) => {
                write!(f, "no segment has what is at 0x{address:x}")
            }
            DynamicError::UnknownCount => f.write_str("number of symbols is not known"),
            DynamicError::UnendedChain => {
                f.write_str("last run of the GNU hash section has no end")
            }
        }
    }
}

impl From<ParseError> for DynamicError {
    ghost from_gives = { λ error made. made ≡ IsRead error };

    fn from(error: ParseError) -> DynamicError {
        DynamicError::Read(error)
    }
}

impl From<ReadError> for DynamicError {
    ghost from_gives = { λ read error. error ≡ read_error Partial read };

    fn from(error: ReadError) -> DynamicError {
        match error {
            ReadError::Parse(error) => DynamicError::Read(error),
            ReadError::NotLoaded(range) => DynamicError::Missing(range),
        }
    }
}
