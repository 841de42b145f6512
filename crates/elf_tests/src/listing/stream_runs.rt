//! Runs over streams whose source fails, and to writers that fail.
use crate::listing::writers::{FLUSHLESS, Plan, PlannedWriter, WILLING};
use crate::small_files::{HASHED, TWO_SECTIONS};
use crate::sources;
use crate::sources::{InMemory, is_of_source, open};
use elf::endian::AnyEndian;
use elf::{MemSource, ParseError};
use elfshow::runs::{Call, RunError, run_bytes, run_stream};
use std::alloc::Global;
use std::io::ErrorKind;
use std::process::Abort;
use std::test::Fail;

/// The text of the first calls, by the reader over bytes.
fn text_of(alloc: Global, data: &[u8], calls: &[Call<'_>], done: usize) -> Result<Vec<u8>, Fail> {
    let mut text = Vec::new(alloc);
    match run_bytes::<AnyEndian, Vec<u8>>(data, calls.get(..done).unwrap_or_default(), &mut text) {
        Ok(()) => Ok(text),
        Err(_) => Err(Fail::from(std::alloc::AllocError)),
    }
}

/// How many of the calls were done, where all were or a fault of the source stopped the run.
fn done_of(stopped: &Result<(), RunError>, all: usize) -> Option<usize> {
    match stopped {
        Ok(()) => Some(all),
        Err(RunError::Fault { done, error }) if is_of_source(error) => Some(*done),
        Err(_) => None,
    }
}

/// Runs calls over a source that fails after a number of its calls, unless the opening fails.
fn run_behind(
    alloc: Global,
    data: &[u8],
    calls: &[Call<'_>],
    calls_before: u64,
    out: &mut Vec<u8>,
) -> Option<Result<(), RunError>> {
    let plan = sources::Plan::new(64, Some(calls_before));
    match open(alloc, data, &plan) {
        Ok(mut stream) => Some(run_stream(&mut stream, calls, out)),
        Err(_) => None,
    }
}

/// Whether there is a fault where the source fails after a number of its calls, and none if the opening fails. The
/// whole text is written, or the fault says how many calls were done and just their text is written.
fn faults_behind(
    rt: &(impl Abort + AllocGlobal),
    data: &[u8],
    calls: &[Call<'_>],
    calls_before: u64,
) -> Result<bool, Fail> {
    let mut out = Vec::new(rt.alloc());
    let Some(stopped) = run_behind(rt.alloc(), data, calls, calls_before, &mut out) else {
        return Ok(false);
    };
    let done = done_of(&stopped, calls.len()).ok_or("another error")?;
    let text = text_of(rt.alloc(), data, calls, done)?;
    assert!(rt; out.as_slice() == text.as_slice(), "{done}");
    Ok(stopped.is_err())
}

/// How often there was a fault, where the source fails at each of its calls in turn.
fn faults_in_turn(
    rt: &(impl Abort + AllocGlobal),
    data: &[u8],
    calls: &[Call<'_>],
) -> Result<usize, Fail> {
    let mut faults = 0usize;
    for calls_before in 0..200 {
        if faults_behind(rt, data, calls, calls_before)? {
            faults = faults.saturating_add(1);
        }
    }
    Ok(faults)
}

#[test]
fn a_failing_source_stops_the_run(rt: HostRuntime) -> Result<(), Fail> {
    let names = faults_in_turn(&rt, &TWO_SECTIONS, &[Call::Header, Call::Sections])?;
    let symbols = [Call::Header, Call::Sysv(4), Call::Gnu(3), Call::DynSyms];
    let checked = faults_in_turn(&rt, &HASHED, &symbols)?;
    assert!(rt; names > 0 && checked > 1, "{names} {checked}");
    Ok(())
}

const HEADER: &[u8] =
    b"header class=32 order=little version=0 osabi=0 abiversion=0 type=0 machine=0 entry=0x0 phoff=0 shoff=56 \
    flags=0x0 ehsize=0 phentsize=0 phnum=0 shentsize=40 shnum=2 shstrndx=1\n";

// The opening read no names, so the second call reads them.
#[test]
fn a_fault_in_the_second_call_is_reported(rt: HostRuntime) -> Result<(), Fail> {
    let plan = sources::Plan::new(64, None);
    let mut stream = open(rt.alloc(), &TWO_SECTIONS, &plan)?;
    plan.calls_before.set(Some(0));
    let mut out = Vec::new(rt.alloc());
    let stopped = run_stream(&mut stream, &CALLS, &mut out);
    assert!(rt; done_of(&stopped, 2) == Some(1) && out.as_slice() == HEADER);
    Ok(())
}

const CALLS: [Call; 2] = [Call::Header, Call::Sections];

/// How many calls of a run over a stream in memory were done where the writer failed, and by which error.
fn stopped_by(
    alloc: Global,
    out: &mut PlannedWriter,
) -> Result<Option<(usize, ErrorKind)>, ParseError> {
    let mut stream = InMemory::open_stream(alloc, MemSource::new(&TWO_SECTIONS))?;
    Ok(match run_stream(&mut stream, &CALLS, out) {
        Err(RunError::Write { done, error }) => Some((done, error.kind())),
        _ => None,
    })
}

#[test]
fn a_writer_that_fails_stops_the_run(rt: HostRuntime) -> Result<(), Fail> {
    let first = text_of(rt.alloc(), &TWO_SECTIONS, &CALLS, 1)?;
    let full = Plan {
        room: first.len(),
        ..WILLING
    };
    let stops = [
        (full, (1, ErrorKind::StorageFull)),
        (FLUSHLESS, (0, ErrorKind::BrokenPipe)),
    ];
    for (plan, stop) in stops {
        let mut out = PlannedWriter::new(rt.alloc(), plan);
        let stopped = stopped_by(rt.alloc(), &mut out)?;
        assert!(rt; stopped == Some(stop) && out.written.as_slice() == first.as_slice());
    }
    Ok(())
}
