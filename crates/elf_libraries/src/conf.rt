//! The configuration of `ldconfig`, `/etc/ld.so.conf`: folders of libraries, and patterns of further files (the manual page
//! ldconfig(8); glibc, `elf/ldconfig.c`). Without a cache, it says which folders the cache would list.
ghost use Rattle.std.specs.Prelude.{◌≡◌, ◌++◌, IfOk, OnOk, map, position};
ghost use Rattle.std.specs.List.{before_first, slice_split};
ghost use Rattle.elf_libraries.specs.Conf.{Entry, blanks, conf_entries, folder_if, folder_in, has_at, is_hwcap, is_in};
ghost use Rattle.elf_libraries.specs.Conf.{is_include, is_newline, line_view, patterns_in, text_entries, text_of};
ghost use Rattle.elf_libraries.specs.Conf.{without_first, without_last};

use std::alloc::{AllocError, Global};

/// What a line of the configuration names.
#[derive(Debug, Clone, Copy)]
pub enum ConfLine<'a> {
    /// A folder of libraries, by its path without slashes at its end.
    Folder(&'a [u8]),
    /// Further files of configuration, by a pattern (the manual page glob(7)). Without a slash at its start it is relative
    /// to the folder of the file that has the line. The files are read in the order of their names.
    Include(&'a [u8]),
}

const BLANKS: &[u8] = b" \t";

const SPACES: &[u8] = b" \t\n\x0b\x0c\r";

fn is_in(set: &[u8], byte: u8) -> bool
    ensures { result ≡ is_in set.now byte }
{
    set.iter().any(|one| *one == byte)
}

// The place of the first byte of a set.
fn first_of(set: &[u8], bytes: &[u8]) -> Option<usize>
    ensures { result ≡ position (is_in set.now) bytes.now }
{
    bytes.iter().position(|byte| is_in(set, *byte))
}

// The bytes before the first byte of a set, or all.
fn before_first<'a>(set: &[u8], bytes: &'a [u8]) -> &'a [u8]
    ensures { result.now ≡ before_first (is_in set.now) bytes.now }
{
    match first_of(set, bytes) {
        Some(place) => bytes.get(..place).unwrap_or(bytes),
        None => bytes,
    }
}

// The bytes without those of a set at their start.
fn without_first<'a>(set: &[u8], bytes: &'a [u8]) -> &'a [u8]
    ensures { result.now ≡ without_first set.now bytes.now }
{
    let mut left = bytes;
    while let Some((first, others)) = left.split_first() {
        if !is_in(set, *first) {
            return left;
        }
        left = others;
    }
    left
}

// The bytes without those of a set at their end.
fn without_last<'a>(set: &[u8], bytes: &'a [u8]) -> &'a [u8]
    ensures { result.now ≡ without_last set.now bytes.now }
{
    let mut end = bytes.len();
    while end > 0 && is_in(set, bytes[end - 1]) {
        end -= 1;
    }
    &bytes[..end]
}

fn text_of(line: &[u8]) -> &[u8]
    ensures { result.now ≡ text_of line.now }
{
    without_first(SPACES, before_first(b"#\0", line))
}

// Whether the byte at a place is one of a set.
fn has_at(set: &[u8], text: &[u8], place: usize) -> bool
    ensures { result ≡ has_at set.now text.now place }
{
    match text.get(place) {
        Some(byte) => is_in(set, *byte),
        None => false,
    }
}

fn is_include(text: &[u8]) -> bool
    ensures { result ≡ is_include text.now }
{
    text.starts_with(b"include") && has_at(BLANKS, text, 7)
}

fn is_hwcap(text: &[u8]) -> bool
    ensures { result ≡ is_hwcap text.now }
{
    has_at(b"hH", text, 0)
        && has_at(b"wW", text, 1)
        && has_at(b"cC", text, 2)
        && has_at(b"aA", text, 3)
        && has_at(b"pP", text, 4)
        && has_at(BLANKS, text, 5)
}

fn folder_in(text: &[u8]) -> &[u8]
    ensures { result.now ≡ folder_in text.now }
{
    without_last(b"/", without_last(SPACES, before_first(b"=", text)))
}

// The words of a text with blanks between them. A word may be empty.
fn words<'a>(alloc: Global, text: &'a [u8]) -> Result<Vec<&'a [u8]>, AllocError>
    ensures { IfOk result (λ words. map (λ word. word.now) words.items ≡ slice_split (is_in blanks) text.now) }
{
    text.split(|byte| is_in(BLANKS, *byte)).collect(alloc)
}

fn lines<'a>(alloc: Global, file: &'a [u8]) -> Result<Vec<&'a [u8]>, AllocError>
    ensures { IfOk result (λ lines. map (λ line. line.now) lines.items ≡ slice_split is_newline file.now) }
{
    file.split(|byte| *byte == b'\n').collect(alloc)
}

// Adds the patterns of a line.
fn add_patterns<'a>(
    alloc: Global,
    text: &'a [u8],
    said: &mut Vec<ConfLine<'a>>,
) -> Result<(), AllocError>
    ensures { OnOk result (map line_view said.new.items
        ≡ map line_view said.old.items ++ map Entry.NamesFiles (patterns_in text.now)) }
{
    let words = words(alloc, text.get(8..).unwrap_or(&[]))?;
    for word in &words {
        if !word.is_empty() {
            said.push(ConfLine::Include(word))?;
        }
    }
    Ok(())
}

fn add_folder<'a>(folder: &'a [u8], said: &mut Vec<ConfLine<'a>>) -> Result<(), AllocError>
    ensures { OnOk result (map line_view said.new.items ≡ map line_view said.old.items ++ folder_if folder.now) }
{
    if !folder.is_empty() {
        said.push(ConfLine::Folder(folder))?;
    }
    Ok(())
}

// Adds what the text of a line names.
fn add_text<'a>(
    alloc: Global,
    text: &'a [u8],
    said: &mut Vec<ConfLine<'a>>,
) -> Result<(), AllocError>
    ensures { OnOk result (map line_view said.new.items ≡ map line_view said.old.items ++ text_entries text.now) }
{
    if is_include(text) {
        return add_patterns(alloc, text, said);
    }
    if is_hwcap(text) {
        return Ok(());
    }
    add_folder(folder_in(text), said)
}

/// Returns what the lines of a file of configuration name, in order. Comments and lines that begin with `hwcap` name
/// nothing, and a type of libraries after a folder is left out. The only error is a failed allocation.
pub fn conf_lines<'a>(alloc: Global, file: &'a [u8]) -> Result<Vec<ConfLine<'a>>, AllocError>
    ensures { IfOk result (λ said. map line_view said.items ≡ conf_entries file.now) }
{
    let lines = lines(alloc, file)?;
    let mut said = Vec::new(alloc);
    for line in &lines {
        add_text(alloc, text_of(line), &mut said)?;
    }
    Ok(said)
}
