//! A source in memory with a plan: it gives few bytes a read, fails once, or ends before its end, and counts. Streams
//! over it, and a section that tests ask them for.
ghost use Rattle.std.specs.Prelude.{None, true};

use elf::endian::AnyEndian;
use elf::section::SectionHeader;
use elf::{ElfStream, MemSource, ParseError, StreamSource};
use std::alloc::Global;
use std::cell::Cell;
use std::io;
use std::io::ErrorKind;

pub(crate) type InMemory<'a> = ElfStream<AnyEndian, MemSource<'a>, Global>;

pub(crate) type Planned<'a> = ElfStream<AnyEndian, PlannedSource<'a>, Global>;

/// A stream over a source with a plan.
pub(crate) fn open<'a>(
    alloc: Global,
    bytes: &'a [u8],
    plan: &'a Plan,
) -> Result<Planned<'a>, ParseError> {
    Planned::open_stream(alloc, PlannedSource::new(bytes, plan))
}

/// A section of type SHT_PROGBITS that has no bytes.
pub(crate) const EMPTY: SectionHeader = SectionHeader {
    sh_name: 0,
    sh_type: 1,
    sh_flags: 0,
    sh_addr: 0,
    sh_offset: 0,
    sh_size: 0,
    sh_link: 0,
    sh_info: 0,
    sh_addralign: 0,
    sh_entsize: 0,
};

/// Whether an error is the one that a source here fails with.
pub(crate) fn is_of_source(error: &ParseError) -> bool {
    match error {
        ParseError::IOError(error) => error.kind() == ErrorKind::TimedOut,
        _ => false,
    }
}

/// What a source is to do, and what it has done. The owner of a plan may change it.
#[derive(Drop)]
pub(crate) struct Plan {
    // The most bytes that a read gives.
    width: usize,
    /// How many calls succeed before the one that fails, if one is to fail.
    pub(crate) calls_before: Cell<Option<u64>>,
    calls: Cell<u64>,
    given: Cell<u64>,
}

impl Plan {
    pub(crate) fn new(width: usize, calls_before: Option<u64>) -> Plan {
        Plan {
            width,
            calls_before: Cell::new(calls_before),
            calls: Cell::new(0),
            given: Cell::new(0),
        }
    }

    /// How many calls there were, and how many bytes were given, since `taken` was called last.
    pub(crate) fn taken(&self) -> (u64, u64) {
        (self.calls.replace(0), self.given.replace(0))
    }

    // Counts a call, which fails if the plan says so.
    fn call(&self) -> io::Result<()> {
        self.calls.set(self.calls.get().saturating_add(1));
        match self.calls_before.get() {
            Some(0) => {
                self.calls_before.set(None);
                return Err(io::Error::from(ErrorKind::TimedOut));
            }
            Some(count) => self.calls_before.set(Some(count - 1)),
            None => {}
        }
        Ok(())
    }
}

#[derive(Drop)]
pub(crate) struct PlannedSource<'a> {
    bytes: &'a [u8],
    // The length that the source has by its own account.
    len: u64,
    at: u64,
    plan: &'a Plan,
}

impl<'a> PlannedSource<'a> {
    pub(crate) fn new(bytes: &'a [u8], plan: &'a Plan) -> PlannedSource<'a> {
        PlannedSource::longer(bytes, bytes.len() as u64, plan)
    }

    /// Says that it has this length, while its reads end with the bytes.
    pub(crate) fn longer(bytes: &'a [u8], len: u64, plan: &'a Plan) -> PlannedSource<'a> {
        PlannedSource {
            bytes,
            len,
            at: 0,
            plan,
        }
    }
}

impl StreamSource for PlannedSource<'_> {
    ghost content = { λ _. None };

    ghost position = { λ _. 0 };

    ghost failures = { λ _. 0 };

    ghost can_fail = { λ _. true };

    fn seek_end(&mut self) -> io::Result<u64> {
        self.plan.call()?;
        self.at = self.len;
        Ok(self.len)
    }

    fn seek_start(&mut self, pos: u64) -> io::Result<()> {
        self.plan.call()?;
        self.at = pos;
        Ok(())
    }

    fn read(&mut self, buf: &mut [u8]) -> io::Result<usize> {
        self.plan.call()?;
        let rest = self.bytes.get(self.at as usize..).unwrap_or_default();
        let n = rest.len().min(buf.len()).min(self.plan.width);
        buf[..n].copy_from_slice(&rest[..n]);
        self.at = self.at.saturating_add(n as u64);
        let given = self.plan.given.get();
        self.plan.given.set(given.saturating_add(n as u64));
        Ok(n)
    }
}
