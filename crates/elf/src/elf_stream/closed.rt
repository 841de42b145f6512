//! A stream whose source is closed.
ghost use Rattle.std.specs.Prelude.{true, IsErr, None};
ghost use Rattle.elf.specs.ElfStream.{IsClosed};

use super::ElfStream;
use elf_parts::endian::EndianParse;
use elf_reading::source::StreamSource;
use std::alloc::Allocator;
use std::io;
use std::io::ErrorKind;

/// The source of a stream that was closed. It has no bytes, and each call of it returns an error of the kind
/// `NotConnected`.
#[derive(Debug, Drop)]
pub struct Closed;

impl StreamSource for Closed {
    ghost content = { λ _. None };

    ghost position = { λ _. 0 };

    ghost failures = { λ _. 0 };

    ghost can_fail = { λ _. true };

    fn seek_end(&mut self) -> Result<u64, io::Error>
        ensures { IsErr result }
    {
        Err(io::Error::from(ErrorKind::NotConnected))
    }

    fn seek_start(&mut self, _pos: u64) -> Result<(), io::Error>
        ensures { IsErr result }
    {
        Err(io::Error::from(ErrorKind::NotConnected))
    }

    fn read(&mut self, _buf: &mut [u8]) -> Result<usize, io::Error>
        ensures { IsErr result }
    {
        Err(io::Error::from(ErrorKind::NotConnected))
    }
}

impl<E: EndianParse, S: StreamSource, A: Allocator + Copy> ElfStream<E, S, A> {
    /// Closes the source, and keeps the headers and all that is cached. What is cached is read from the closed stream as
    /// from the open one; a call that requests another range returns `IOError`.
    pub fn close(self) -> ElfStream<E, Closed, A>
        ensures { IsClosed self result }
    {
        ElfStream {
            ehdr: self.ehdr,
            by_segments: self.by_segments,
            declares_sections: self.declares_sections,
            shdrs: self.shdrs,
            phdrs: self.phdrs,
            alloc: self.alloc,
            source: Closed,
            len: self.len,
            cache: self.cache,
        }
    }
}
