//! A writer with a plan: it takes few bytes a write, is full, or fails at a write or at flushes, and counts.
ghost use Rattle.std.specs.Prelude.{Some};

use std::alloc::Global;
use std::io;
use std::io::{ErrorKind, Write};

/// What a writer is to do.
#[derive(Clone, Copy)]
pub(crate) struct Plan {
    /// How many bytes it holds once it fails at each write.
    pub(crate) room: usize,
    /// The most bytes that a write takes.
    pub(crate) width: usize,
    /// How many writes come before the one that fails. It goes on after it.
    pub(crate) writes_before: usize,
    /// How many flushes come before those that fail.
    pub(crate) flushes_before: usize,
}

/// Takes everything.
pub(crate) const WILLING: Plan = Plan {
    room: usize::MAX,
    width: usize::MAX,
    writes_before: usize::MAX,
    flushes_before: usize::MAX,
};

/// Takes nothing.
pub(crate) const FULL: Plan = Plan { room: 0, ..WILLING };

/// Fails at each flush.
pub(crate) const FLUSHLESS: Plan = Plan {
    flushes_before: 0,
    ..WILLING
};

/// Holds what was written, and counts. It takes memory only where it holds more than `written` has room for.
#[derive(Drop)]
pub(crate) struct PlannedWriter {
    plan: Plan,
    pub(crate) written: Vec<u8>,
    pub(crate) writes: usize,
    pub(crate) flushes: usize,
    pub(crate) has_failed: bool,
    pub(crate) is_used_after_failure: bool,
}

impl PlannedWriter {
    pub(crate) fn new(alloc: Global, plan: Plan) -> PlannedWriter {
        PlannedWriter::with_room(Vec::new(alloc), plan)
    }

    /// Writes into these bytes.
    pub(crate) fn with_room(written: Vec<u8>, plan: Plan) -> PlannedWriter {
        PlannedWriter {
            plan,
            written,
            writes: 0,
            flushes: 0,
            has_failed: false,
            is_used_after_failure: false,
        }
    }
}

impl Write for PlannedWriter {
    ghost contents = { λ w. Some w.written.items };

    fn write(&mut self, buf: &[u8]) -> io::Result<usize> {
        self.is_used_after_failure |= self.has_failed;
        let is_refused = self.writes == self.plan.writes_before;
        self.writes = self.writes.saturating_add(1);
        let room = self.plan.room.saturating_sub(self.written.len());
        if is_refused || room == 0 {
            self.has_failed = true;
            return Err(io::Error::from(ErrorKind::StorageFull));
        }
        let count = buf.len().min(room).min(self.plan.width);
        self.written.extend_from_slice(&buf[..count])?;
        Ok(count)
    }

    fn flush(&mut self) -> io::Result<()> {
        self.is_used_after_failure |= self.has_failed;
        if self.flushes >= self.plan.flushes_before {
            return Err(io::Error::from(ErrorKind::BrokenPipe));
        }
        self.flushes = self.flushes.saturating_add(1);
        Ok(())
    }
}
