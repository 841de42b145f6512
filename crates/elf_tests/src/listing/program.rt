//! What the program does with the words of its command line.
use crate::listing::texts::{HEADER_LINE, USAGE_LINE};
use crate::listing::writers::{FULL, Plan, PlannedWriter, WILLING};
use crate::memory::all_memory;
use crate::small_files::HEADER_ALONE;
use elf::ParseError;
use elfshow::failure::{Failure, report};
use elfshow::file_system::MemFile;
use elfshow::runs::{Call, RunError};
use elfshow::show::{Request, RequestError, answer, parse_words, show};
use std::alloc::{AllocError, AllocFailed, Global};
use std::io;
use std::io::{BufWriter, Write};
use std::process::Abort;

/// Asserts which status the program returns and what it writes, whose output has this room.
fn assert_run<W: Write>(
    rt: &(impl Abort + AllocGlobal),
    words: &[&str],
    data: &[u8],
    room: usize,
    err: &mut W,
    want: (u8, &str),
) -> io::Result<()> {
    let alloc = rt.alloc();
    let plan = Plan { room, ..WILLING };
    let mut out = BufWriter::new(alloc, PlannedWriter::new(alloc, plan))?;
    let files = MemFile { alloc, bytes: data };
    let status = show(alloc, words, &files, &mut out, err);
    let is_text = out.get_ref().written.as_slice() == want.1.as_bytes();
    assert!(rt; status == want.0 && is_text, "{status} for {words:?}");
    Ok(())
}

/// Asserts the same and its message; with a standard error that takes nothing it answers the same.
fn assert_shows(
    rt: &(impl Abort + AllocGlobal),
    words: &[&str],
    data: &[u8],
    room: usize,
    want: (u8, &str),
    message: &str,
) -> io::Result<()> {
    let mut err = Vec::new(rt.alloc());
    assert_run(rt, words, data, room, &mut err, want)?;
    assert!(rt; err.as_slice() == message.as_bytes(), "{words:?}");
    let plan = Plan { room: 5, ..WILLING };
    let mut deaf = PlannedWriter::new(rt.alloc(), plan);
    assert_run(rt, words, data, room, &mut deaf, want)
}

#[test]
fn a_message_that_is_not_taken_changes_nothing(rt: HostRuntime) -> io::Result<()> {
    let words = ["bytes", "F", "header"];
    assert_shows(&rt, &words[..2], &HEADER_ALONE, 4096, (2, ""), USAGE_LINE)?;
    assert_shows(
        &rt,
        &words,
        &[0xff; 15],
        4096,
        (1, ""),
        "elfshow: open: Could not read bytes in range [0x0, 0x10)\n",
    )
}

#[test]
fn a_full_output_is_reported(rt: HostRuntime) -> io::Result<()> {
    for mode in ["bytes", "stream", "both"] {
        let words = [mode, "F", "header", "sections"];
        let message = "elfshow: stopped after 0 calls: no storage space\n";
        assert_shows(&rt, &words, &HEADER_ALONE, 0, (1, ""), message)?;
        let message = match mode {
            "both" => "elfshow: stopped after 0 calls: no storage space\n",
            _ => "elfshow: stopped after 1 calls: no storage space\n",
        };
        let room = HEADER_LINE.len();
        assert_shows(&rt, &words, &HEADER_ALONE, room, (1, HEADER_LINE), message)?;
    }
    Ok(())
}

/// Asserts the line and the status of a failure; with a standard error that takes nothing the status is the same.
fn assert_reports(rt: &(impl Abort + AllocGlobal), failure: Failure, want: (u8, &str)) {
    let mut err = Vec::new(rt.alloc());
    let status = report(&failure, &mut err);
    let is_told = status == want.0 && err.as_slice() == want.1.as_bytes();
    let mut deaf = PlannedWriter::new(rt.alloc(), FULL);
    assert!(rt;
        is_told && report(&failure, &mut deaf) == want.0,
        "{failure}"
    );
}

#[test]
fn each_failure_has_its_line(rt: HostRuntime) {
    let wrong_words = Failure::from(RequestError::Usage);
    assert_reports(&rt, wrong_words, (2, USAGE_LINE));
    let without_memory = "elfshow: stopped after 0 calls: Out of memory\n";
    let refused_request = Failure::from(RequestError::OutOfMemory);
    assert_reports(&rt, refused_request, (1, without_memory));
    assert_reports(&rt, Failure::from(AllocError), (1, without_memory));
    let missing = Failure::File(io::Error::from(io::ErrorKind::NotFound));
    assert_reports(&rt, missing, (1, "elfshow: file: entity not found\n"));
}

#[test]
fn each_stopped_run_has_its_line(rt: HostRuntime) {
    let refused = RunError::Open(ParseError::UnsupportedElfClass(9));
    let line = "elfshow: open: Unsupported ELF Class: 9\n";
    assert_reports(&rt, Failure::from(refused), (1, line));
    let without_memory = RunError::Fault {
        done: 7,
        error: ParseError::OutOfMemory,
    };
    let line = "elfshow: stopped after 7 calls: Out of memory\n";
    assert_reports(&rt, Failure::from(without_memory), (1, line));
    let full = RunError::Write {
        done: 3,
        error: io::Error::from(io::ErrorKind::StorageFull),
    };
    let line = "elfshow: stopped after 3 calls: no storage space\n";
    assert_reports(&rt, Failure::from(full), (1, line));
}

#[test]
fn a_refused_push_is_an_allocation_failure(rt: HostRuntime) {
    let refused = RequestError::from(AllocFailed {
        value: Call::Header,
    });
    assert!(rt; refused == RequestError::OutOfMemory);
}

// `rt try --test` has an allocator of its own, which does not run out: there this test fails.
#[test]
fn nothing_is_written_without_memory(rt: HostRuntime) -> io::Result<()> {
    let alloc = rt.alloc();
    let mut out = BufWriter::with_capacity(alloc, 0, PlannedWriter::new(alloc, WILLING))?;
    let mut err = PlannedWriter::with_room(Vec::with_capacity(alloc, 128)?, WILLING);
    let files = MemFile {
        alloc,
        bytes: &HEADER_ALONE,
    };
    let words = ["bytes", "F", "header"];
    let blocks = all_memory(alloc)?;
    let status = show(alloc, &words, &files, &mut out, &mut err);
    let wrong = [
        &["other", "F", "header"][..],
        &["bytes", "F"],
        &["bytes", "F", "header", "other"],
    ];
    for words in wrong {
        let refused = parse_words(alloc, words).err();
        assert!(rt; refused == Some(RequestError::Usage));
    }
    drop(blocks);
    let want = b"elfshow: stopped after 0 calls: Out of memory\n";
    let is_told = err.written.as_slice() == want.as_slice();
    assert!(rt; status == 1 && out.get_ref().writes == 0 && is_told);
    Ok(())
}

/// Whether the text of a request over a header alone begins so.
fn begins(alloc: Global, request: &Request<'_>, want: &[u8]) -> bool {
    let files = MemFile {
        alloc,
        bytes: &HEADER_ALONE,
    };
    let mut out = Vec::new(alloc);
    answer(alloc, request, &files, &mut out).is_ok() && out.starts_with(want)
}

#[test]
fn words_make_a_request(rt: HostRuntime) -> Result<(), RequestError> {
    let words = ["bytes", "F", "sections", "header", "sections"];
    let request = parse_words(rt.alloc(), &words)?;
    let want = [Call::Sections, Call::Header, Call::Sections];
    let is_parsed = request.file == "F" && request.calls.as_slice() == want.as_slice();
    let is_run = begins(rt.alloc(), &request, b"end 0\nheader class=64 ");
    let refused = parse_words(rt.alloc(), &words[..2]).err();
    assert!(rt;
        is_parsed && is_run && refused == Some(RequestError::Usage),
        "{refused:?}"
    );
    Ok(())
}

/// Asserts the message where each flush fails after a number of flushes.
fn assert_flush_reported(
    rt: &(impl Abort + AllocGlobal),
    mode: &str,
    flushes_before: usize,
    message: &str,
) -> io::Result<()> {
    let alloc = rt.alloc();
    let files = MemFile {
        alloc,
        bytes: &HEADER_ALONE,
    };
    let plan = Plan {
        flushes_before,
        ..WILLING
    };
    let mut out = BufWriter::new(alloc, PlannedWriter::new(alloc, plan))?;
    let mut err = Vec::new(alloc);
    let words = [mode, "F", "header", "sections"];
    let status = show(alloc, &words, &files, &mut out, &mut err);
    let is_told = err.as_slice() == message.as_bytes();
    assert!(rt; status == 1 && is_told, "{mode}");
    Ok(())
}

// Each call is flushed, or in mode `both` the whole text, and then all that was written.
#[test]
fn a_failed_flush_is_reported_in_each_mode(rt: HostRuntime) -> io::Result<()> {
    let behind_none = "elfshow: stopped after 0 calls: broken pipe\n";
    for mode in ["bytes", "stream", "both"] {
        assert_flush_reported(&rt, mode, 0, behind_none)?;
    }
    let behind_one = "elfshow: stopped after 1 calls: broken pipe\n";
    let behind_all = "elfshow: stopped after 2 calls: broken pipe\n";
    for mode in ["bytes", "stream"] {
        assert_flush_reported(&rt, mode, 1, behind_one)?;
        assert_flush_reported(&rt, mode, 2, behind_all)?;
    }
    assert_flush_reported(&rt, "both", 1, behind_all)
}
