//! What the program `elfshow` answers to words of a command line.
ghost use Rattle.std.specs.Prelude.{None, true};

use crate::row_words::Words;
use crate::rows::RowError;
use elf::FileSource;
use elfshow::file_system::{FileSystem, MemFile};
use elfshow::show::show;
use std::fs::File;
use std::io::{BufWriter, Write};
use std::str::SplitWhitespace;
use std::{fs, io};

/// The files beside the program.
#[derive(Drop)]
struct FilesBeside<'a> {
    rt: &'a HostRuntime,
}

impl FileSystem for FilesBeside<'_> {
    type Source = FileSource;

    ghost content = { λ _ _. None };

    ghost can_fail = { λ _ _. true };

    fn open(&self, path: &str) -> io::Result<FileSource> {
        Ok(FileSource::new(File::open(self.rt, path)?))
    }

    fn read(&self, path: &str) -> io::Result<Vec<u8>> {
        fs::read(self.rt, path)
    }
}

/// Runs the cases of the file `cases`. A case is a line `FILE CHANGE.. : WORD..`: a small file, changed, and the words
/// of the command line; `''` is the empty word. In a case `- : WORD..` the words name a file beside the program. A line
/// repeats the case. After it comes what goes to standard output, then the exit status, and then what goes to
/// standard error.
pub(crate) fn show_cases(rt: &HostRuntime) -> Result<(), RowError> {
    let cases = fs::read_to_string(rt, "cases")?;
    for case in cases.lines() {
        show_case(rt, case)?;
    }
    Ok(())
}

fn show_case(rt: &HostRuntime, case: &str) -> Result<(), RowError> {
    println!(rt; "== {case}")?;
    if let Some(words) = case.strip_prefix("- : ") {
        return Ok(show_answer(rt, words.split_whitespace(), &FilesBeside { rt })?);
    }
    let mut row = Words::new(case);
    let data = row.file(rt);
    let files = MemFile {
        alloc: rt.alloc(),
        bytes: data.as_slice(),
    };
    show_answer(rt, row.rest(), &files)?;
    row.end()
}

fn show_answer<F: FileSystem>(
    rt: &HostRuntime,
    line: SplitWhitespace<'_>,
    files: &F,
) -> io::Result<()> {
    let mut words = Vec::new(rt.alloc());
    for word in line {
        words.push(if word == "''" { "" } else { word })?;
    }
    let mut out = BufWriter::new(rt.alloc(), rt.stdout())?;
    let mut err = Vec::new(rt.alloc());
    let status = show(rt.alloc(), words.as_slice(), files, &mut out, &mut err);
    println!(rt; "status {status}")?;
    rt.stdout().write_all(err.as_slice())
}
