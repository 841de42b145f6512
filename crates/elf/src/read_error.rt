//! Why a reader does not return what is requested of its file.
ghost use Rattle.std.specs.Prelude.{◌≡◌};
ghost use Rattle.elf.specs.ObjectFile.{err_map};
ghost use Rattle.elf.specs.Parts.{as_parse_error};
ghost use Rattle.elf.specs.declared.read_error.ReadError.TheVariants.{Parse as IsParse};

use elf_parts::parse::ParseError;
use thiserror::Error;

/// An error of a file, or a range of it that is not loaded.
#[derive(Debug, Drop, Error)]
pub enum ReadError {
    /// The file gives this error, however much of it is loaded.
    #[error("{0}")]
    Parse(ParseError),
    /// The bytes from a start to an end, which lie in the file, are not loaded.
    #[error("Bytes in range [0x{:X}, 0x{:X}) are not loaded", .0.0, .0.1)]
    NotLoaded((u64, u64)),
}

impl From<ParseError> for ReadError {
    ghost from_gives = { λ error read. read ≡ IsParse error };

    fn from(error: ParseError) -> ReadError {
        ReadError::Parse(error)
    }
}

/// For a reader that loads nothing more, a range that is not loaded cannot be read: `SliceReadError((start, end))`.
impl From<ReadError> for ParseError {
    ghost from_gives = { λ read error. error ≡ as_parse_error read };

    fn from(error: ReadError) -> ParseError {
        match error {
            ReadError::Parse(error) => error,
            ReadError::NotLoaded((start, end)) => {
                ParseError::SliceReadError((start as usize, end as usize))
            }
        }
    }
}

// The result for a caller that loads nothing more.
pub(crate) fn given<T>(found: Result<T, ReadError>) -> Result<T, ParseError>
    ensures { result ≡ err_map as_parse_error found }
{
    Ok(found?)
}
