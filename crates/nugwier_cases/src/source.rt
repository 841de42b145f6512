//! Files whose source fails at a read.
ghost use Rattle.std.specs.Prelude.{None, true};

use elf::{FileSource, StreamSource};
use std::io;
use std::io::ErrorKind;

/// A file that is read by parts. One of its reads may fail.
#[derive(Drop)]
pub(crate) struct CaseSource {
    file: FileSource,
    // How many reads succeed before the one that fails, if one does.
    left: Option<u64>,
}

impl CaseSource {
    /// The source of a file, whose reads succeed, or as many of them as are given.
    pub(crate) fn new(file: FileSource, left: Option<u64>) -> CaseSource {
        CaseSource { file, left }
    }
}

impl StreamSource for CaseSource {
    ghost content = { λ _. None };

    ghost position = { λ _. 0 };

    ghost failures = { λ _. 0 };

    ghost can_fail = { λ _. true };

    fn seek_end(&mut self) -> Result<u64, io::Error> {
        self.file.seek_end()
    }

    fn seek_start(&mut self, pos: u64) -> Result<(), io::Error> {
        self.file.seek_start(pos)
    }

    fn read(&mut self, buf: &mut [u8]) -> Result<usize, io::Error> {
        match self.left {
            Some(0) => {
                self.left = None;
                return Err(broken());
            }
            Some(left) => self.left = Some(left - 1),
            None => {}
        }
        self.file.read(buf)
    }
}

/// The error of a read that fails.
pub(crate) fn broken() -> io::Error {
    io::Error::new(ErrorKind::Other, "the read failed")
}

/// How many reads succeed before the one that fails, by the word `fails=N` or `slips=N`.
pub(crate) fn failing_read(word: &str) -> Option<u64> {
    let (name, number) = word.split_once('=')?;
    if name != "fails" && name != "slips" {
        return None;
    }
    number.parse().ok()
}
