//! Runs whose writer fails.
use crate::listing::texts::HEADER_LINE;
use crate::listing::writers::{FLUSHLESS, FULL, Plan, PlannedWriter, WILLING};
use crate::small_files::HEADER_ALONE;
use elf::endian::AnyEndian;
use elfshow::runs::{Call, RunError, run_bytes};
use std::alloc::{AllocError, Global};
use std::io::{BufWriter, ErrorKind, Write};
use std::process::Abort;
use std::test::Fail;

/// Three calls, the first and the last of them the same.
const CALLS: [Call; 3] = [Call::Header, Call::Sections, Call::Header];

fn whole_text(alloc: Global) -> Result<String, AllocError> {
    format!(in alloc; "{HEADER_LINE}end 0\n{HEADER_LINE}")
}

/// How many calls end within a number of bytes.
fn calls_within(room: usize) -> usize {
    let header = HEADER_LINE.len();
    match room {
        _ if room < header => 0,
        _ if room < header + 6 => 1,
        _ if room < 2 * header + 6 => 2,
        _ => 3,
    }
}

/// How many calls were done, by the run's result, and which failure of the writer stopped it.
fn run_into<W: Write>(out: &mut W) -> (usize, Option<ErrorKind>) {
    match run_bytes::<AnyEndian, W>(&HEADER_ALONE, &CALLS, out) {
        Ok(()) => (3, None),
        Err(RunError::Write { done, error }) => (done, Some(error.kind())),
        Err(_) => (0, None),
    }
}

/// The result of a run whose text has this length and whose writer has this room.
fn expected_in(room: usize, length: usize) -> (usize, Option<ErrorKind>) {
    if room < length {
        (calls_within(room), Some(ErrorKind::StorageFull))
    } else {
        (3, None)
    }
}

#[test]
fn a_run_stops_where_its_writer_is_full(rt: HostRuntime) -> Result<(), Fail> {
    let whole = whole_text(rt.alloc())?;
    for width in [3, 4096] {
        for room in 0..=whole.len() {
            let plan = Plan {
                room,
                width,
                ..WILLING
            };
            let mut out = PlannedWriter::new(rt.alloc(), plan);
            let is_expected = run_into(&mut out) == expected_in(room, whole.len());
            let is_begun = whole.as_bytes().starts_with(&out.written);
            assert!(rt;
                is_expected && is_begun && out.written.len() == room,
                "at {room}"
            );
        }
    }
    Ok(())
}

#[test]
fn a_buffer_changes_no_count(rt: HostRuntime) -> Result<(), Fail> {
    let whole = whole_text(rt.alloc())?;
    for capacity in [7, 4096] {
        for room in 0..=whole.len() {
            let plan = Plan {
                room,
                width: 3,
                ..WILLING
            };
            let mut inner = PlannedWriter::new(rt.alloc(), plan);
            let mut out = BufWriter::with_capacity(rt.alloc(), capacity, &mut inner)?;
            let is_expected = run_into(&mut out) == expected_in(room, whole.len());
            drop(out);
            let is_begun = whole.as_bytes().starts_with(&inner.written);
            assert!(rt; is_expected && is_begun, "at {room}");
        }
    }
    Ok(())
}

/// Whether the write after this number of writes fails, which is reported then; else all is written.
fn fails_after(rt: &(impl Abort + AllocGlobal), writes_before: usize, whole: &[u8]) -> bool {
    let plan = Plan {
        writes_before,
        ..WILLING
    };
    let mut out = PlannedWriter::new(rt.alloc(), plan);
    let (done, error) = run_into(&mut out);
    let length = out.written.len();
    let is_reported = error.is_some() == out.has_failed
        && (error.is_some() || length == whole.len());
    let is_begun = whole.starts_with(&out.written) && done == calls_within(length);
    assert!(rt; is_begun && is_reported, "after {writes_before} writes");
    error.is_some()
}

#[test]
fn one_failed_write_is_reported(rt: HostRuntime) -> Result<(), AllocError> {
    let whole = whole_text(rt.alloc())?;
    let mut writes = 0;
    for writes_before in 0..1000 {
        if !fails_after(&rt, writes_before, whole.as_bytes()) {
            break;
        }
        writes = writes_before;
    }
    assert!(rt; writes > 3);
    Ok(())
}

#[test]
fn a_failed_flush_is_reported(rt: HostRuntime) {
    let mut out = PlannedWriter::new(rt.alloc(), FLUSHLESS);
    let is_reported = run_into(&mut out) == (0, Some(ErrorKind::BrokenPipe));
    assert!(rt; is_reported && out.written.as_slice() == HEADER_LINE.as_bytes());
}

#[test]
fn a_writer_that_takes_nothing_is_reported(rt: HostRuntime) {
    let plan = Plan {
        width: 0,
        ..WILLING
    };
    let mut out = PlannedWriter::new(rt.alloc(), plan);
    assert!(rt; run_into(&mut out) == (0, Some(ErrorKind::WriteZero)));
}

#[test]
fn no_calls_write_nothing(rt: HostRuntime) -> Result<(), Fail> {
    for plan in [FULL, FLUSHLESS] {
        let mut out = PlannedWriter::new(rt.alloc(), plan);
        run_bytes::<AnyEndian, PlannedWriter>(&HEADER_ALONE, &[], &mut out)?;
        assert!(rt; out.written.is_empty());
    }
    Ok(())
}
