//! The sources that an `ElfStream` reads from.
ghost use Rattle.std.specs.Prelude.{◌≡◌, ℕ, Bool, true, false, ◌≤◌, List, length, take, None, Some};
ghost use Rattle.std.specs.Prelude.{IfOk, IfSome, OnOk};
ghost use Rattle.std.specs.declared.option.Option.{Option};
ghost use Rattle.elf_reading.specs.Source.{Gives, HasCause};

use std::fs::File;
use std::io;
use std::io::{Read, Seek, SeekFrom};

/// A source of bytes that can be read from any position. Its content is known or unknown to the contracts.
///
/// An error of any call counts as a failure of the source. Over known content the count of failures rises exactly
/// if the call returns an error, and only a source that can fail returns one.
pub trait StreamSource: Drop {
    /// The bytes of the source, if they are known.
    ghost content: { Self → Option (List ℕ) };

    /// The position of the next read, in bytes.
    ghost position: { Self → ℕ };

    /// The count of failures so far.
    ghost failures: { Self → ℕ };

    /// Whether the source can fail at all.
    ghost can_fail: { Self → Bool };

    /// Moves to the end, and returns the length of the source in bytes, or the error of the source.
    fn seek_end(&mut self) -> Result<u64, io::Error>
        ensures content { content self.new ≡ content self.old }
        ensures nature { can_fail self.new ≡ can_fail self.old }
        ensures length { IfOk result (λ n. IfSome (content self.old) (λ bytes. n ≡ length bytes)) }
        ensures moves { OnOk result (IfSome (content self.old) (λ bytes. position self.new ≡ length bytes)) }
        ensures cause { IfSome (content self.old)
            (λ _. HasCause (failures self.old) (failures self.new) (can_fail self.old) result) };

    /// Moves to a position, in bytes from the start, or returns the error of the source.
    fn seek_start(&mut self, pos: u64) -> Result<(), io::Error>
        ensures content { content self.new ≡ content self.old }
        ensures nature { can_fail self.new ≡ can_fail self.old }
        ensures moves { OnOk result (IfSome (content self.old) (λ _. position self.new ≡ pos)) }
        ensures cause { IfSome (content self.old)
            (λ _. HasCause (failures self.old) (failures self.new) (can_fail self.old) result) };

    /// Reads the next bytes into the front of the buffer, and returns how many, or the error of the source. It may
    /// read fewer than fit; it reads none only at the end of the source or into an empty buffer.
    fn read(&mut self, buf: &mut [u8]) -> Result<usize, io::Error>
        ensures count { IfOk result (λ n. n ≤ length buf.old) }
        ensures content { content self.new ≡ content self.old }
        ensures nature { can_fail self.new ≡ can_fail self.old }
        ensures bytes { IfOk result (λ n. IfSome (content self.old)
            (λ bytes. Gives bytes (position self.old) (position self.new) n buf.new)) }
        ensures cause { IfSome (content self.old)
            (λ _. HasCause (failures self.old) (failures self.new) (can_fail self.old) result) };
}

/// A source over bytes in memory. Its content is known, and it cannot fail.
#[derive(Debug, Drop)]
pub struct MemSource<'a> {
    bytes: &'a [u8],
    at: u64,
}

impl<'a> MemSource<'a> {
    ghost use Rattle.elf_reading.specs.Source.{mem_bytes, mem_position};

    /// The source of these bytes, positioned at their start.
    pub fn new(bytes: &'a [u8]) -> Self
        ensures bytes { mem_bytes result ≡ bytes.now }
        ensures position { mem_position result ≡ 0 }
    {
        MemSource { bytes, at: 0 }
    }
}

impl<'a> StreamSource for MemSource<'a> {
    ghost content = { λ s. Some s.bytes.now };

    ghost position = { λ s. s.at };

    ghost failures = { λ _. 0 };

    ghost can_fail = { λ _. false };

    fn seek_end(&mut self) -> Result<u64, io::Error> {
        let end = self.bytes.len() as u64;
        self.at = end;
        Ok(end)
    }

    fn seek_start(&mut self, pos: u64) -> Result<(), io::Error> {
        self.at = pos;
        Ok(())
    }

    fn read(&mut self, buf: &mut [u8]) -> Result<usize, io::Error> {
        let at = self.at as usize;
        if at >= self.bytes.len() {
            return Ok(0);
        }
        let rest = &self.bytes[at..];
        let n = rest.len().min(buf.len());
        buf[..n].copy_from_slice(&rest[..n]);
        self.at += n as u64;
        Ok(n)
    }
}

/// A source over a file. Its content is unknown, since a file may change, and it can fail.
#[derive(Debug, Drop)]
pub struct FileSource {
    file: File,
}

impl FileSource {
    /// The source of this file.
    pub fn new(file: File) -> Self {
        FileSource { file }
    }
}

impl StreamSource for FileSource {
    ghost content = { λ _. None };

    ghost position = { λ _. 0 };

    ghost failures = { λ _. 0 };

    ghost can_fail = { λ _. true };

    fn seek_end(&mut self) -> Result<u64, io::Error> {
        self.file.seek(SeekFrom::End(0))
    }

    fn seek_start(&mut self, pos: u64) -> Result<(), io::Error> {
        self.file.seek(SeekFrom::Start(pos))?;
        Ok(())
    }

    fn read(&mut self, buf: &mut [u8]) -> Result<usize, io::Error> {
        self.file.read(buf)
    }
}
