//! What the example callers of `elf_tools` and of `elf_linking` give for files.
mod answers;
mod binding_lines;
mod needed_lines;

use crate::rows::{RowError, changed_file};
use answers::print_answers;
use needed_lines::print_needed_of_files;
use std::fs;
use std::io::{BufWriter, Write};

// The size of the buffer of standard output, in bytes.
const OUTPUT_BUFFER: usize = 65536;

/// Prints the results of a caller for the files with these names. Flushes the output also after an error. Returns the
/// error of the flush only if there was none before it.
pub(crate) fn show_files(rt: &HostRuntime, caller: &str, names: &[String]) -> Result<(), RowError> {
    let mut out = BufWriter::with_capacity(rt.alloc(), OUTPUT_BUFFER, rt.stdout())?;
    let ended = print_files(rt, caller, names, &mut out);
    let flushed = out.flush();
    ended?;
    Ok(flushed?)
}

fn print_files<W: Write>(
    rt: &HostRuntime,
    caller: &str,
    names: &[String],
    out: &mut W,
) -> Result<(), RowError> {
    if caller == "needed" {
        return Ok(print_needed_of_files(rt, names, out)?);
    }
    let mut files = Vec::new(rt.alloc());
    for name in names {
        files.push(fs::read(rt, name.as_str())?)?;
    }
    Ok(print_answers(rt.alloc(), out, caller, files.as_slice())?)
}

/// Runs the test cases of the file `callers`. Each is a line `CALLER : FILE CHANGE.. : FILE CHANGE..`: a caller, and
/// small files with changes. The results of the caller follow a line that repeats the case.
pub(crate) fn show_rows(rt: &HostRuntime) -> Result<(), RowError> {
    let rows = fs::read_to_string(rt, "callers")?;
    let mut out = rt.stdout();
    for row in rows.lines() {
        print_row(rt, row, &mut out)?;
    }
    Ok(())
}

fn print_row<W: Write>(rt: &HostRuntime, row: &str, out: &mut W) -> Result<(), RowError> {
    writeln!(out, "== {row}")?;
    let mut parts = row.split(" : ");
    let caller = parts.next().unwrap_or("");
    let mut files = Vec::new(rt.alloc());
    for part in parts {
        files.push(changed_file(rt, part)?)?;
    }
    Ok(print_answers(rt.alloc(), out, caller, files.as_slice())?)
}
