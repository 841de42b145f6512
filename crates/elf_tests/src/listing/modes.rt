//! Which call of the file system each mode makes, and the messages of its errors.
ghost use Rattle.std.specs.Prelude.{None, false};

use crate::listing::texts::HEADER_LINE;
use crate::listing::writers::{PlannedWriter, WILLING};
use crate::small_files::HEADER_ALONE;
use elf::MemSource;
use elfshow::file_system::FileSystem;
use elfshow::show::show;
use std::alloc::{AllocError, Global};
use std::io;
use std::io::{BufWriter, ErrorKind};
use std::process::Abort;

/// The header alone, as the file at every path, or for each of the two calls the error that it returns.
#[derive(Drop)]
struct Refusing {
    alloc: Global,
    open: Option<ErrorKind>,
    read: Option<ErrorKind>,
}

impl FileSystem for Refusing {
    type Source = MemSource<'static>;

    ghost content = { λ _ _. None };

    ghost can_fail = { λ _ _. false };

    fn open(&self, _path: &str) -> io::Result<MemSource<'static>> {
        match self.open {
            Some(kind) => Err(io::Error::from(kind)),
            None => Ok(MemSource::new(&HEADER_ALONE)),
        }
    }

    fn read(&self, _path: &str) -> io::Result<Vec<u8>> {
        match self.read {
            Some(kind) => Err(io::Error::from(kind)),
            None => Ok(Vec::from_slice(self.alloc, &HEADER_ALONE)?),
        }
    }
}

/// Asserts what the listing of the header writes in a mode, to standard output or to standard error.
fn assert_listed(
    rt: &(impl Abort + AllocGlobal),
    mode: &str,
    (open, read): (Option<ErrorKind>, Option<ErrorKind>),
    want: (u8, &str, &str),
) -> io::Result<()> {
    let alloc = rt.alloc();
    let files = Refusing { alloc, open, read };
    let mut out = BufWriter::new(alloc, PlannedWriter::new(alloc, WILLING))?;
    let mut err = Vec::new(alloc);
    let status = show(alloc, &[mode, "F", "header"], &files, &mut out, &mut err);
    let out = out.get_ref();
    let is_used = out.writes > 0;
    let is_listed = out.written.as_slice() == want.1.as_bytes() && is_used != want.1.is_empty();
    let is_told = err.as_slice() == want.2.as_bytes();
    assert!(rt;
        status == want.0 && is_listed && is_told,
        "{mode}: {status}"
    );
    Ok(())
}

#[test]
fn each_mode_makes_one_call(rt: HostRuntime) -> io::Result<()> {
    let by_open = (None, Some(ErrorKind::TimedOut));
    let by_read = (Some(ErrorKind::PermissionDenied), None);
    let unopened = (1, "", "elfshow: file: permission denied\n");
    assert_listed(&rt, "stream", by_open, (0, HEADER_LINE, ""))?;
    assert_listed(&rt, "stream", by_read, unopened)?;
    let unread = (1, "", "elfshow: file: timed out\n");
    assert_listed(&rt, "bytes", by_read, (0, HEADER_LINE, ""))?;
    assert_listed(&rt, "bytes", by_open, unread)?;
    let both = format!(in rt.alloc(); "{HEADER_LINE}readers agree\n")?;
    assert_listed(&rt, "both", by_read, (0, both.as_str(), ""))?;
    assert_listed(&rt, "both", by_open, unread)
}

#[test]
fn a_missing_file_is_reported_in_each_mode(rt: HostRuntime) -> io::Result<()> {
    let missing = (Some(ErrorKind::NotFound), Some(ErrorKind::NotFound));
    for mode in ["bytes", "stream", "both"] {
        let want = (1, "", "elfshow: file: entity not found\n");
        assert_listed(&rt, mode, missing, want)?;
    }
    Ok(())
}
