//! Answers as they are shown.
ghost use Rattle.std.specs.Iterator.{IsFinite};

use elf::ParseError;
use std::alloc::AllocError;
use std::fmt::{Debug, Display};
use std::io;
use std::str::from_utf8;
use thiserror::Error;

/// Why no more of a row is shown.
#[derive(Debug, Drop, Error)]
pub(crate) enum Stop {
    #[error("{0}")]
    Output(#[from] io::Error),
    /// The library refuses what the row gives it, which is shown.
    #[error("{0}")]
    Refused(#[from] ParseError),
}

impl From<AllocError> for Stop {
    fn from(error: AllocError) -> Stop {
        Stop::Output(io::Error::from(error))
    }
}

pub(crate) type Shown = Result<(), Stop>;

/// Shows the error of the library that stopped a row, if one did.
pub(crate) fn show_end(rt: &HostRuntime, shown: Shown) -> io::Result<()> {
    match shown {
        Ok(()) => Ok(()),
        Err(Stop::Output(error)) => Err(error),
        Err(Stop::Refused(error)) => print!(rt; "{error:?}, {error}"),
    }
}

/// An answer, or an error and its text.
pub(crate) fn show<T: Debug + Drop, E: Debug + Display + Drop>(
    rt: &HostRuntime,
    answer: Result<T, E>,
) -> Shown {
    match answer {
        Ok(value) => print!(rt; "{value:?}")?,
        Err(error) => print!(rt; "{error:?}, {error}")?,
    }
    Ok(())
}

/// Bytes as the text that they are.
pub(crate) fn text(bytes: &[u8]) -> &str {
    from_utf8(bytes).unwrap_or("no text")
}

/// Each item on a line of its own.
pub(crate) fn show_lines<I: Iterator + Drop>(rt: &HostRuntime, items: I) -> Shown
where
    I::Item: Debug + Drop,
    requires can { I.can_next items }
    requires finite { IsFinite (I.remaining items) }
{
    show_each(rt, "\n    ", items)
}

/// Each item after these characters.
pub(crate) fn show_each<I: Iterator + Drop>(rt: &HostRuntime, before: &str, items: I) -> Shown
where
    I::Item: Debug + Drop,
    requires can { I.can_next items }
    requires finite { IsFinite (I.remaining items) }
{
    for item in items {
        print!(rt; "{before}{item:?}")?;
    }
    Ok(())
}
