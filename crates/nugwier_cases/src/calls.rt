//! Rows of the file `calls`: functions of `nugwier_programs` whose answers no listing shows by themselves.
use elf::file::Class;
use elf_libraries::patterns::{is_match, is_pattern};
use elf_libraries::processor::{has_levels, level_if};
use std::alloc::{AllocError, Global};
use std::io::Write;
use std::{fs, io};

/// Prints each row, and what its call answers: `match PATTERN NAME`, whether the pattern matches the name; `pattern
/// NAME`, whether it is one; `level TEXT`, the level of a processor of which Linux says this, with `|` at the ends of
/// lines, or nothing by `-`; `levels CLASS MACHINE`, whether programs have levels.
pub(crate) fn show_calls<W: Write>(rt: &HostRuntime, out: &mut W) -> io::Result<()> {
    let calls = fs::read_to_string(rt, "calls")?;
    for call in calls.lines() {
        write!(out, "{call}: ")?;
        let (kind, words) = call.split_once(' ').unwrap_or((call, ""));
        show_call(rt.alloc(), kind, words, out)?;
    }
    Ok(())
}

fn show_call<W: Write>(alloc: Global, kind: &str, words: &str, out: &mut W) -> io::Result<()> {
    let (first, second) = words.split_once(' ').unwrap_or((words, ""));
    match kind {
        "match" => {
            let is_found = is_match(alloc, first.as_bytes(), second.as_bytes())?;
            writeln!(out, "{is_found}")
        }
        "pattern" => {
            let is_one = is_pattern(first.as_bytes());
            writeln!(out, "{is_one}")
        }
        "level" => {
            let level = level_if(alloc, &text_of(alloc, words)?)?;
            writeln!(out, "{level:?}")
        }
        _ => {
            let has = has_levels(class_of(first), second.parse().unwrap_or(0));
            writeln!(out, "{has}")
        }
    }
}

fn class_of(word: &str) -> Class {
    if word == "64" {
        Class::ELF64
    } else {
        Class::ELF32
    }
}

// The text of a row, with line feeds in the place of `|`.
fn text_of(alloc: Global, words: &str) -> Result<Option<Vec<u8>>, AllocError> {
    if words == "-" {
        return Ok(None);
    }
    let mut text = Vec::new(alloc);
    for byte in words.bytes() {
        text.push(if byte == b'|' { b'\n' } else { byte })?;
    }
    Ok(Some(text))
}
