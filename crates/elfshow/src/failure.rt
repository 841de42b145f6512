//! Why the program stops: the message for standard error, and the exit status.
ghost use Rattle.std.specs.Prelude.{◌≡◌};
ghost use Rattle.elfshow.specs.Failure.{failure_of, failure_of_request, status_of};
ghost use Rattle.elfshow.specs.declared.failure.Failure.TheVariants.{OutOfMemory};

use crate::runs::RunError;
use crate::show::RequestError;
use elf::ParseError;
use std::alloc::AllocError;
use std::io;
use std::io::Write;
use thiserror::Error;

/// How the program is called.
const USAGE: &str = "usage: elfshow bytes|stream|both FILE CALL...";

/// Why the program stops. Its text is the line for standard error.
#[derive(Debug, Drop, Error)]
pub enum Failure {
    /// The words are no request.
    #[error("{USAGE}")]
    Usage,
    /// An allocation before the first call failed.
    #[error("elfshow: stopped after 0 calls: {}", ParseError::OutOfMemory)]
    OutOfMemory,
    /// The file cannot be opened or read.
    #[error("elfshow: file: {0}")]
    File(io::Error),
    /// The bytes of the file cannot be opened as an ELF file.
    #[error("elfshow: open: {0}")]
    Open(ParseError),
    /// The source of the file or an allocation failed after `done` calls.
    #[error("elfshow: stopped after {done} calls: {error}")]
    Fault { done: usize, error: ParseError },
    /// The writer failed after `done` calls.
    #[error("elfshow: stopped after {done} calls: {error}")]
    Write { done: usize, error: io::Error },
}

impl From<AllocError> for Failure {
    ghost from_gives = { λ _ failure. failure ≡ OutOfMemory };

    fn from(_error: AllocError) -> Failure {
        Failure::OutOfMemory
    }
}

impl From<RequestError> for Failure {
    ghost from_gives = { λ error failure. failure ≡ failure_of_request error };

    fn from(error: RequestError) -> Failure {
        match error {
            RequestError::Usage => Failure::Usage,
            RequestError::OutOfMemory => Failure::OutOfMemory,
        }
    }
}

impl From<RunError> for Failure {
    ghost from_gives = { λ error failure. failure ≡ failure_of error };

    fn from(error: RunError) -> Failure {
        match error {
            RunError::Open(error) => Failure::Open(error),
            RunError::Fault { done, error } => Failure::Fault { done, error },
            RunError::Write { done, error } => Failure::Write { done, error },
        }
    }
}

impl Failure {
    /// Returns the exit status: 2 if the words are no request, 1 for every other failure.
    pub fn status(&self) -> u8
        ensures { result ≡ status_of self.now }
    {
        match self {
            Failure::Usage => 2,
            Failure::OutOfMemory
            | Failure::File(_)
            | Failure::Open(_)
            | Failure::Fault { .. }
            | Failure::Write { .. } => 1,
        }
    }
}

/// Writes the line of a failure to standard error, and returns the exit status. A failed write is ignored.
pub fn report<V: Write>(failure: &Failure, err: &mut V) -> u8
    ensures { result ≡ status_of failure.now }
{
    let _ = writeln!(err, "{failure}");
    failure.status()
}
