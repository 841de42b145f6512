//! Lists for people what an ELF file holds: the program around `nugwier_commands::run`.
#![tactic(auto)]

use elf_libraries::system::SystemFiles;
use nugwier_commands::run::run;
use nugwier_layouts::escape::Escaped;
use std::alloc::{AllocError, Global};
use std::env::{Env, FillError};
use std::io;
use std::io::{BufWriter, IsTerminal, Write};
use std::process::ExitCode;
use std::str::from_utf8;

// The size of the buffer of standard output, in bytes.
const OUTPUT_BUFFER: usize = 65536;

// The size of the longest word that Linux passes to a program, in bytes: 32 pages.
const LONGEST_WORD: usize = 32 * 4096;

fn main(rt: HostRuntime) -> ExitCode {
    ExitCode::from(run_program(&rt))
}

// Runs the command line, and returns the exit status.
fn run_program(rt: &HostRuntime) -> u8 {
    match run_words(rt) {
        Ok(status) => status,
        Err(error) => {
            let _ = writeln!(rt.stderr(), "nugwier: {error}");
            match error.kind() {
                io::ErrorKind::OutOfMemory => 1,
                _ => 2,
            }
        }
    }
}

// Runs the command line. A word that is not UTF-8 is told, and what the other words ask for is done; the file of such a
// name cannot be opened by std of Rattle. The error is that an allocation failed or that a word is too long.
fn run_words(rt: &HostRuntime) -> io::Result<u8> {
    let (arguments, are_text) = arguments(rt)?;
    let words = texts(rt.alloc(), arguments.as_slice())?;
    let out = BufWriter::with_capacity(rt.alloc(), OUTPUT_BUFFER, rt.stdout())?;
    // A problem is told in one write.
    let err = BufWriter::new(rt.alloc(), rt.stderr())?;
    let files = SystemFiles::new(rt);
    let (outcome, _, _) = run(
        rt.alloc(),
        shows_color(rt),
        words.as_slice(),
        &files,
        out,
        err,
    );
    let status = outcome.status();
    Ok(if are_text { status } else { status.max(1) })
}

// Whether headings are bold and names cyan: on a terminal, unless NO_COLOR is set to a text (https://no-color.org).
fn shows_color(rt: &HostRuntime) -> bool {
    let mut room = [0; 1];
    let has_no_color = match rt.var("NO_COLOR", &mut room) {
        Ok(length) => length > 0,
        Err(FillError::NotPresent) => false,
        Err(FillError::TooLong) => true,
    };
    rt.stdout().is_terminal() && !has_no_color
}

// The words after the program's name that are UTF-8, and whether all are.
fn arguments(rt: &HostRuntime) -> io::Result<(Vec<String>, bool)> {
    let mut room = Vec::new(rt.alloc());
    room.resize(LONGEST_WORD, 0)?;
    let mut words = Vec::new(rt.alloc());
    let mut are_text = true;
    for place in 1..usize::MAX {
        let length = match rt.arg(place, room.as_mut_slice()) {
            Ok(length) => length,
            Err(FillError::NotPresent) => break,
            Err(FillError::TooLong) => return Err(io::Error::from(io::ErrorKind::InvalidData)),
        };
        are_text &= add_word(rt, &room[..length], &mut words)?;
    }
    Ok((words, are_text))
}

// Adds a word, or tells that it is not UTF-8.
fn add_word(rt: &HostRuntime, word: &[u8], words: &mut Vec<String>) -> io::Result<bool> {
    match from_utf8(word) {
        Ok(text) => {
            words.push(String::from_str(rt.alloc(), text)?)?;
            Ok(true)
        }
        Err(_) => {
            let name = Escaped(word);
            let _ = writeln!(rt.stderr(), "nugwier: {name}: not UTF-8");
            Ok(false)
        }
    }
}

fn texts(alloc: Global, words: &[String]) -> Result<Vec<&str>, AllocError> {
    words.iter().map(|word| word.as_str()).collect(alloc)
}
