//! The error type of the library, records that are read at an offset, and tables of records.
ghost use Rattle.std.specs.Prelude.{◌≡◌, ◌+◌, ◌≤◌, if◌then◌else◌, ◌==◌, ℕ, Bool, length, IfOk, OnOk};
ghost use Rattle.elf_records.specs.declared.file.Class.TheVariants.{ELF32, ELF64};
ghost use Rattle.elf_records.specs.Class.{address_size};
ghost use Rattle.elf_records.specs.Number.{bytes_at, moved_by, number_at, ok_map};
ghost use Rattle.elf_records.specs.Record.{RecordType};
ghost use Rattle.elf_records.specs.declared.parse.ParseError.{ParseError};
ghost use Rattle.elf_records.specs.declared.parse.ParseError.TheVariants.{IOError as IsIOError};
ghost use Rattle.elf_records.specs.declared.parse.ParseError.TheVariants.{OutOfMemory as IsOutOfMemory};
ghost use Rattle.elf_records.specs.declared.parse.ParseError.TheVariants.{TryFromIntError as IsTryFromIntError};
ghost use Rattle.elf_records.specs.declared.parse.ParseError.TheVariants.{TryFromSliceError as IsTryFromSliceError};
ghost use Rattle.elf_records.specs.declared.parse.ParseError.TheVariants.{Utf8Error as IsUtf8Error};

use crate::endian::EndianParse;
use crate::file::Class;
use std::alloc::AllocError;
use std::fmt;
use thiserror::Error;

mod integers;
mod table;

pub use table::{ParsingIterator, ParsingTable, read_quickly, read_record};

/// An error of the library. A pair of numbers is (found, expected), or (start, end) of a range of bytes whose end
/// is not included.
#[derive(Debug, Drop, Error)]
pub enum ParseError {
    /// The first four bytes are not 7f 45 4c 46. Holds these four bytes.
    BadMagic([u8; 4]),
    /// The class byte is neither 1 nor 2.
    UnsupportedElfClass(u8),
    /// The type of byte orders has no order for this order byte.
    UnsupportedElfEndianness(u8),
    /// The version of the identification, of a `VerDef` or of a `VerNeed` is not 1: (found, 1).
    UnsupportedVersion((u64, u64)),
    /// An index or an offset that lies past the end of its table; the index of a section header that does not
    /// exist; or, from an `ElfStream`, the end of a range that lies past the end of the source.
    BadOffset(u64),
    /// No 0 byte ends the string at this offset, in bytes.
    StringTableMissingNul(u64),
    /// An entry size in a header is not the size of the record, in bytes: (found, expected).
    BadEntsize((u64, u64)),
    /// A section header has another type than the method reads: (found, expected).
    UnexpectedSectionType((u32, u32)),
    /// A program header has another type than the method reads: (found, expected).
    UnexpectedSegmentType((u32, u32)),
    /// Never returned; the Rust crate has it. An iterator over notes with an unusable alignment ends instead.
    UnexpectedAlignment(usize),
    /// The bytes from start to end, end not included, do not lie in the data.
    SliceReadError((usize, usize)),
    /// An offset, a size or an end does not fit 64 bits. Also returned by a look-up in a GNU hash section that
    /// needs the second bloom bit, if the shift is 32 or more.
    IntegerOverflow,
    /// Bytes that were requested as text are not UTF-8.
    Utf8Error(std::str::Utf8Error),
    /// Never returned; the Rust crate has it.
    TryFromSliceError(std::array::TryFromSliceError),
    /// Never returned; the Rust crate has it.
    TryFromIntError(std::num::TryFromIntError),
    /// The source of an `ElfStream` failed.
    IOError(std::io::Error),
    /// An allocation failed: in a call of an `ElfStream`, or in a function that converts its `AllocError`.
    OutOfMemory,
}

impl fmt::Display for ParseError {
    ghost use Rattle.elf_records.specs.Texts.{error_text};

    ghost output = { error_text };

    fn fmt<W: fmt::Write>(&self, f: &mut fmt::Formatter<W>) -> fmt::Result {
        match self {
            ParseError::BadMagic([a, b, c, d]) => {
                write!(f, "Invalid Magic Bytes: [{a:X}, {b:X}, {c:X}, {d:X}]")
            }
            ParseError::UnsupportedElfClass(class) => write!(f, "Unsupported ELF Class: {class}"),
            ParseError::UnsupportedElfEndianness(order) => {
                write!(f, "Unsupported ELF Endianness: {order}")
            }
            ParseError::UnsupportedVersion((found, expected)) => {
                write!(
                    f,
                    "Unsupported ELF Version field found: {found} expected: {expected}"
                )
            }
            ParseError::BadOffset(offset) => write!(f, "Bad offset: 0x{offset:X}"),
            ParseError::StringTableMissingNul(offset) => {
                write!(
                    f,
                    "Could not find terminating NUL byte starting at offset: 0x{offset:X}"
                )
            }
            ParseError::BadEntsize((found, expected)) => {
                write!(
                    f,
                    "Invalid entsize. Expected: 0x{expected:X}, Found: 0x{found:X}"
                )
            }
            ParseError::UnexpectedSectionType((found, expected))
            | ParseError::UnexpectedSegmentType((found, expected)) => {
                write!(
                    f,
                    "Could not interpret section of type {found} as type {expected}"
                )
            }
            ParseError::UnexpectedAlignment(alignment) => {
                write!(
                    f,
                    "Could not interpret section with unexpected alignment of {alignment}"
                )
            }
            ParseError::SliceReadError((start, end)) => {
                write!(f, "Could not read bytes in range [0x{start:X}, 0x{end:X})")
            }
            ParseError::IntegerOverflow => f.write_str("Integer overflow detected"),
            ParseError::Utf8Error(error) => write!(f, "{error}"),
            ParseError::TryFromSliceError(error) => write!(f, "{error}"),
            ParseError::TryFromIntError(error) => write!(f, "{error}"),
            ParseError::IOError(error) => write!(f, "{error}"),
            ParseError::OutOfMemory => f.write_str("Out of memory"),
        }
    }
}

impl From<std::str::Utf8Error> for ParseError {
    ghost from_gives = { λ inner e. e ≡ IsUtf8Error inner };

    fn from(err: std::str::Utf8Error) -> ParseError {
        ParseError::Utf8Error(err)
    }
}

impl From<std::array::TryFromSliceError> for ParseError {
    ghost from_gives = { λ inner e. e ≡ IsTryFromSliceError inner };

    fn from(err: std::array::TryFromSliceError) -> ParseError {
        ParseError::TryFromSliceError(err)
    }
}

impl From<std::num::TryFromIntError> for ParseError {
    ghost from_gives = { λ inner e. e ≡ IsTryFromIntError inner };

    fn from(err: std::num::TryFromIntError) -> ParseError {
        ParseError::TryFromIntError(err)
    }
}

impl From<std::io::Error> for ParseError {
    ghost from_gives = { λ inner e. e ≡ IsIOError inner };

    fn from(err: std::io::Error) -> ParseError {
        ParseError::IOError(err)
    }
}

// With it `?` works on the functions of `to_str`, which allocate, in a function that returns a `ParseError`. The Rust
// crate has no variant for a failed allocation, and so no such conversion.
impl From<AllocError> for ParseError {
    ghost from_gives = { λ _ e. e ≡ IsOutOfMemory };

    fn from(_err: AllocError) -> ParseError {
        ParseError::OutOfMemory
    }
}

/// A record that can be read at an offset.
///
/// The laws: a record has at least one byte, and its size depends only on the class. The result and the offset
/// afterwards are determined by the byte order, the class, the offset and the data. A read that succeeds lies
/// within the data and moves the offset by the size, and its value depends only on those bytes, the order and the
/// class.
pub trait ParseAt: Sized {
    /// How many bytes a record has in a 32-bit file, how many in a 64-bit one, and whether these bytes alone decide
    /// whether it can be read, wherever they lie. If so, tables read the record from a slice of its own bytes, with one
    /// check of the bounds for all its fields. A record with a field table is such a record.
    const SHAPE: (usize, usize, bool);

    ghost SHAPE: { ℕ × ℕ × Bool };

    // How a record is read: its size, what is read at an offset, and the laws of these.
    ghost reads: { RecordType Self };

    /// Returns the record at `offset`, in bytes, and moves `offset` past it.
    ///
    /// A record with a field table returns the error of the first field that has one: `IntegerOverflow` if the end
    /// of the field does not fit 64 bits, `SliceReadError((start, end))` if the field does not lie in the data, or
    /// `UnsupportedVersion((found, 1))` for the version of a `VerDef` or `VerNeed`. The error leaves `offset` at
    /// that field, or after the version.
    fn parse_at<E: EndianParse>(
        endian: E,
        class: Class,
        offset: &mut usize,
        data: &[u8],
    ) -> Result<Self, ParseError>
        ensures value { result ≡ reads.record_at (E.little endian) class «data».now offset.old }
        ensures moved { offset.new ≡ reads.offset_after (E.little endian) class «data».now offset.old };

    /// Returns the size of a record in bytes.
    fn size_for(class: Class) -> usize
        ensures { result ≡ reads.size class }
    {
        match class {
            Class::ELF32 => Self::SHAPE.0,
            Class::ELF64 => Self::SHAPE.1,
        }
    }

    /// Returns the entry size that a header states, in bytes, if it is the size of the record. Otherwise returns
    /// `BadEntsize((entsize, size))`.
    fn validate_entsize(class: Class, entsize: usize) -> Result<usize, ParseError>
        ensures { result ≡ (if entsize == reads.size class then Ok entsize
            else Err (ParseError.BadEntsize (entsize, reads.size class))) }
    {
        let expected = Self::size_for(class);
        if entsize == expected {
            Ok(entsize)
        } else {
            Err(ParseError::BadEntsize((entsize as u64, expected as u64)))
        }
    }

    ghost shape_law: { SHAPE ≡ (reads.size ELF32, reads.size ELF64, reads.local) };
}

/// Returns `size` bytes of the data, starting at `start`. The errors are `IntegerOverflow` if their end does not fit 64
/// bits, and `SliceReadError((start, end))` if they do not lie in the data.
#[tactic(auto, unfolding(crate::specs::Number::bytes_at))]
pub fn get_bytes<'data>(
    data: &'data [u8],
    start: usize,
    size: usize,
) -> Result<&'data [u8], ParseError>
    ensures value { ok_map (λ bytes. bytes.now) result ≡ bytes_at size «data».now start }
    ensures within { OnOk result (start + size ≤ length «data».now) }
    ensures short { IfOk result (λ bytes. length bytes.now ≤ length «data».now) }
{
    let end = start.checked_add(size).ok_or(ParseError::IntegerOverflow)?;
    data.get(start..end)
        .ok_or(ParseError::SliceReadError((start, end)))
}

/// Returns an address, an offset or a size, which has four bytes in a 32-bit file and eight in a 64-bit one, and moves
/// `offset` after it. Errors, in order: those of `parse_u32_at` or `parse_u64_at`, which leave `offset` as it is.
// A call of it costs more than what it does, and a section header has six.
#[inline(always)]
pub fn parse_by_class<E: EndianParse>(
    endian: E,
    class: Class,
    offset: &mut usize,
    data: &[u8],
) -> Result<u64, ParseError>
    ensures value { result ≡ number_at (E.little endian) (address_size class) «data».now offset.old }
    ensures moved { offset.new ≡ moved_by (address_size class) result offset.old }
{
    match class {
        Class::ELF32 => Ok(endian.parse_u32_at(offset, data)? as u64),
        Class::ELF64 => endian.parse_u64_at(offset, data),
    }
}
