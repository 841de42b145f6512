//! A header with its content.
ghost use Rattle.std.specs.Prelude.{◌≡◌, ◌≤◌, ◌<◌, ◌+◌, ◌^◌, length, IfSome, IsTrue};
ghost use Rattle.std.specs.Option.{option_map};
ghost use Rattle.elf_archive.specs.Archive.{bsd_entry, content_of, entry_in, entry_named_inside, entry_named_long};
ghost use Rattle.elf_archive.specs.Archive.{entry_of, entry_of_short, has_header, held_at, is_index, is_long_names, is_symdef};
ghost use Rattle.elf_archive.specs.Archive.{named_at, ok_map};
ghost use Rattle.elf_archive.specs.Fields.{decimal_in};
ghost use Rattle.elf_archive.specs.inner.Entries.{entry_and_next, entry_view};

use crate::archive::ArchiveError;
use crate::fields::{decimal_in, long_name, place_in, trimmed, without_slash};

/// What a header with its content is.
#[derive(Clone, Copy)]
pub(crate) enum Entry<'a> {
    /// An index of symbols.
    Index,
    /// The names that are too long for a header.
    LongNames(&'a [u8]),
    /// A file: its name, and its content.
    File(&'a [u8], &'a [u8]),
}

fn is_index(name: &[u8]) -> bool
    ensures { result ≡ is_index name.now }
{
    name == b"/".as_slice() || name == b"/SYM64/".as_slice()
}

fn is_long_names(name: &[u8]) -> bool
    ensures { result ≡ is_long_names name.now }
{
    name == b"//".as_slice()
}

fn is_symdef(name: &[u8]) -> bool
    ensures { result ≡ is_symdef name.now }
{
    name == b"__.SYMDEF".as_slice()
        || name == b"__.SYMDEF SORTED".as_slice()
        || name == b"__.SYMDEF_64".as_slice()
        || name == b"__.SYMDEF_64 SORTED".as_slice()
}

fn bsd_entry<'a>(name: &'a [u8], content: &'a [u8]) -> Entry<'a>
    ensures { entry_view result ≡ bsd_entry name.now content.now }
{
    if is_symdef(name) {
        Entry::Index
    } else {
        Entry::File(name, content)
    }
}

// The entry whose name is the start of its content, of a length that is given in decimal.
fn entry_named_inside<'a>(content: &'a [u8], length: Option<u64>) -> Option<Entry<'a>>
    ensures { option_map entry_view result ≡ entry_named_inside content.now length }
{
    let length = length? as usize;
    let name = content.get(..length)?;
    Some(bsd_entry(trimmed(0, name), &content[length..]))
}

// The entry whose name is among the long names.
fn entry_named_long<'a>(names: &'a [u8], content: &'a [u8], place: Option<u64>) -> Option<Entry<'a>>
    ensures { option_map entry_view result ≡ entry_named_long names.now content.now place }
{
    let name = long_name(names, place?)?;
    Some(Entry::File(name, content))
}

fn entry_of_short<'a>(name: &'a [u8], content: &'a [u8]) -> Entry<'a>
    ensures { entry_view result ≡ entry_of_short name.now content.now }
{
    let without_slash = without_slash(name);
    if without_slash == name {
        bsd_entry(name, content)
    } else {
        Entry::File(without_slash, content)
    }
}

// The entry with this name in its header and this content, if its name is there.
fn entry_of<'a>(names: &'a [u8], name: &'a [u8], content: &'a [u8]) -> Option<Entry<'a>>
    ensures { option_map entry_view result ≡ entry_of names.now name.now content.now }
{
    if is_index(name) {
        Some(Entry::Index)
    } else if is_long_names(name) {
        Some(Entry::LongNames(content))
    } else if name.starts_with(b"/") {
        entry_named_long(names, content, place_in(name))
    } else if name.starts_with(b"#1/") {
        entry_named_inside(content, decimal_in(&name[3..]))
    } else {
        Some(entry_of_short(name, content))
    }
}

// The bytes after a header that belong to it.
fn content_of<'a>(is_thin: bool, name: &[u8], size: u64, after: &'a [u8]) -> Option<&'a [u8]>
    ensures value { option_map (λ content. content.now) result ≡ content_of is_thin name.now size after.now }
    ensures within { IfSome result (λ content. length content.now ≤ length after.now) }
{
    if is_thin && !(is_index(name) || is_long_names(name)) {
        return Some(&[]);
    }
    after.get(..size as usize)
}

// Whether a header begins these bytes.
fn has_header(bytes: &[u8]) -> bool
    ensures value { result ≡ has_header bytes.now }
    ensures room { IsTrue result → 60 ≤ length bytes.now }
{
    bytes.len() >= 60 && &bytes[58..60] == b"`\n".as_slice()
}

// An entry that has a name, and the offset of the next one.
fn named_at<'a>(
    offset: usize,
    content: &'a [u8],
    entry: Option<Entry<'a>>,
) -> Result<(Entry<'a>, usize), ArchiveError>
    requires { offset + length content.now < 2 ^ 63 }
    ensures { ok_map entry_and_next result ≡ named_at offset content.now (option_map entry_view entry.entry) }
{
    match entry {
        Some(entry) => Ok((entry, offset + 60 + content.len() + content.len() % 2)),
        None => Err(ArchiveError::Name(offset)),
    }
}

// An entry that has its content.
fn held_at<'a>(
    offset: usize,
    names: &'a [u8],
    name: &'a [u8],
    content: Option<&'a [u8]>,
) -> Result<(Entry<'a>, usize), ArchiveError>
    requires { IfSome content (λ content. offset + length content.now < 2 ^ 63) }
    ensures { ok_map entry_and_next result
        ≡ held_at offset names.now name.now (option_map (λ content. content.now) content.entry) }
{
    match content {
        Some(content) => named_at(offset, content, entry_of(names, name, content)),
        None => Err(ArchiveError::PastEnd(offset)),
    }
}

/// Returns the entry whose header begins these bytes, which are at an offset of the archive, and the offset of the next
/// one.
#[tactic(auto, unfolding(crate::specs::Archive::entry_in))]
pub(crate) fn entry_in<'a>(
    is_thin: bool,
    offset: usize,
    names: &'a [u8],
    bytes: &'a [u8],
) -> Result<(Entry<'a>, usize), ArchiveError>
    requires { offset + length bytes.now < 2 ^ 63 }
    ensures { ok_map entry_and_next result ≡ entry_in is_thin offset names.now bytes.now }
{
    if !has_header(bytes) {
        return Err(ArchiveError::Header(offset));
    }
    let name = trimmed(b' ', &bytes[..16]);
    match decimal_in(trimmed(b' ', &bytes[48..58])) {
        Some(size) => {
            let content = content_of(is_thin, name, size, &bytes[60..]);
            held_at(offset, names, name, content)
        }
        None => Err(ArchiveError::Size(offset)),
    }
}
