//! Runs test cases of `nugwier`: each line of the file `cases` is the words of a command line, which name files beside
//! the program. Prints the line, what is listed, what is printed on standard error, and the exit status. The word
//! `NAME,62=0063` names the file NAME with other bytes from offset 62 on (`changes`), and is read whole. The words
//! `NAME,fails=N` and `NAME,slips=N` name the file NAME in a source whose first N reads succeed, and then one fails:
//! after `fails` the file cannot be read whole either, after `slips` it can (`source`). The rows of the file `calls`
//! follow (`calls`), and those of the file `tables` (`tables`).
#![tactic(auto)]

ghost use Rattle.std.specs.Prelude.{None};

mod calls;
mod changes;
mod source;
mod tables;

use changes::change;
use elf_libraries::files::Files;
use elf_libraries::folder::Entry;
use elf_libraries::opening::Opening;
use elf_libraries::system::SystemFiles;
use elf_libraries::tree::{Identity, Libraries};
use nugwier_commands::run::run;
use source::{CaseSource, broken, failing_read};
use std::alloc::AllocError;
use std::io::Write;
use std::{fs, io};

/// The files of the system beside the program.
#[derive(Drop)]
struct CaseFiles<'a> {
    system: SystemFiles<'a>,
}

impl Files for CaseFiles<'_> {
    type Source = CaseSource;

    // Files may change, so their contents are not known.
    ghost known = { λ _. None };

    fn open(&self, path: &str) -> Option<CaseSource> {
        let (name, reads) = match path.split_once(',') {
            Some((name, word)) => (name, Some(failing_read(word)?)),
            None => (path, None),
        };
        let file = self.system.open(name)?;
        Some(CaseSource::new(file, reads))
    }

    // Only files beside the program are read, so that those of the machine do not count.
    fn open_library(&self, path: &[u8]) -> Opening<CaseSource> {
        if path.starts_with(b"/") {
            return Opening::Missing;
        }
        match self.system.open_library(path) {
            Opening::Parts(file) => Opening::Parts(CaseSource::new(file, None)),
            Opening::Whole => Opening::Whole,
            Opening::Missing => Opening::Missing,
        }
    }

    fn read(&self, path: &str) -> io::Result<Vec<u8>> {
        match path.split_once(',') {
            Some((_, word)) if word.starts_with("fails=") => Err(broken()),
            Some((name, word)) if word.starts_with("slips=") => self.system.read(name),
            Some((name, changes)) => {
                let mut data = self.system.read(name)?;
                change(data.as_mut_slice(), changes)?;
                Ok(data)
            }
            None => self.system.read(path),
        }
    }

    // As of the libraries: none of the machine's files counts.
    fn read_front(&self, path: &[u8], most: usize) -> Result<Option<Vec<u8>>, AllocError> {
        if path.starts_with(b"/") {
            return Ok(None);
        }
        self.system.read_front(path, most)
    }

    fn folder(&self, path: &str) -> io::Result<Option<Vec<Entry>>> {
        self.system.folder(path)
    }

    fn identity(&self, path: &[u8]) -> Result<Option<Identity>, AllocError> {
        self.system.identity(path)
    }

    fn has_libraries(&self) {}
}

impl Libraries for CaseFiles<'_> {
    ghost contents = { λ _. None };

    fn read_library(&self, path: &[u8]) -> Result<Option<Vec<u8>>, AllocError> {
        if path.starts_with(b"/") {
            return Ok(None);
        }
        self.system.read_library(path)
    }
}

fn main(rt: HostRuntime) -> io::Result<()> {
    let cases = fs::read_to_string(&rt, "cases")?;
    let mut out = rt.stdout();
    for case in cases.lines() {
        show_case(&rt, case, &mut out)?;
    }
    calls::show_calls(&rt, &mut out)?;
    tables::show_tables(&rt, &mut out)
}

fn show_case<W: Write>(rt: &HostRuntime, case: &str, out: &mut W) -> io::Result<()> {
    let words: Vec<&str> = case.split_whitespace().collect(rt.alloc())?;
    let files = CaseFiles {
        system: SystemFiles::new(rt),
    };
    let (outcome, listed, told) = run(
        rt.alloc(),
        false,
        words.as_slice(),
        &files,
        Vec::new(rt.alloc()),
        Vec::new(rt.alloc()),
    );
    let status = outcome.status();
    writeln!(out, "== nugwier {case}")?;
    out.write_all(listed.as_slice())?;
    out.write_all(told.as_slice())?;
    writeln!(out, "status {status}")
}
