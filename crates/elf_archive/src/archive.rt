//! The members of an archive.
ghost use Rattle.std.specs.Prelude.{◌≡◌, ◌≤◌, ◌<◌, IfOk, Ok, length};
ghost use Rattle.std.specs.Iterator.{YieldsFirstBy, item_count};
ghost use Rattle.std.specs.List.{cons_option};
ghost use Rattle.std.specs.Option.{option_map};
ghost use Rattle.elf_archive.specs.Archive.{item_view, member_of, members_in, members_left, names_after, ok_map};
ghost use Rattle.elf_archive.specs.Archive.{thinness};
ghost use Rattle.elf_archive.specs.inner.Entries.{bytes_left, entry_view};

use crate::entry::{Entry, entry_in};
use std::fmt;

/// Why the members of an archive cannot be read on. The number is the offset of the header.
#[derive(Debug, Clone, Copy, PartialEq, Eq)]
pub enum ArchiveError {
    /// The bytes do not begin as an archive does.
    NotAnArchive,
    /// No header is there: it would end with a grave accent and a line feed.
    Header(usize),
    /// The size of the member is no decimal number.
    Size(usize),
    /// The member goes past the end of the archive.
    PastEnd(usize),
    /// The name of the member is not where the header says.
    Name(usize),
}

impl fmt::Display for ArchiveError {
    ghost use Rattle.std.specs.Prelude.{Some};
    ghost use Rattle.elf_archive.specs.Archive.{error_text};

    ghost output = { λ error. Some (error_text error) };

    fn fmt<W: fmt::Write>(&self, f: &mut fmt::Formatter<W>) -> fmt::Result {
        match *self {
            ArchiveError::NotAnArchive => f.write_str("no ar archive"),
            ArchiveError::Header(offset) => write!(f, "member at 0x{offset:x}: no header"),
            ArchiveError::Size(offset) => write!(f, "member at 0x{offset:x}: no size"),
            ArchiveError::PastEnd(offset) => {
                write!(f, "member at 0x{offset:x}: past the end of the archive")
            }
            ArchiveError::Name(offset) => write!(f, "member at 0x{offset:x}: no name"),
        }
    }
}

/// A file in an archive.
#[derive(Debug, Clone, Copy)]
pub struct Member<'a> {
    pub name: &'a [u8],
    /// The offset of its header in the archive.
    pub offset: usize,
    /// Its content. A thin archive does not have it: the name is the path of the file, and a path that does not begin with a
    /// slash is relative to the folder of the archive.
    pub bytes: Option<&'a [u8]>,
}

/// An iterator over the members of an archive. If one cannot be read, it yields the error last. After its first `None` it
/// keeps returning `None`. Nothing is copied or allocated.
#[derive(Debug, Drop)]
pub struct Members<'a> {
    is_thin: bool,
    bytes: &'a [u8],
    names: &'a [u8],
    offset: usize,
}

/// Returns whether the archive that begins with these bytes is thin: whether its members are other files. Returns `None`
/// if no archive begins so.
pub fn thinness(bytes: &[u8]) -> Option<bool>
    ensures { result ≡ thinness bytes.now }
{
    if bytes.starts_with(b"!<arch>\n") {
        Some(false)
    } else if bytes.starts_with(b"!<thin>\n") {
        Some(true)
    } else {
        None
    }
}

/// Returns the members of an archive, in order. Indexes of symbols and the table of long names are no members. The error
/// is that the bytes do not begin as an archive does.
///
/// ```rust
/// let archive = b"!<arch>\nhello.o/        0           0     0     644     4         `\n\x7fELF";
/// for member in members_of(archive.as_slice())? {
///     let member = member?;
///     println!(rt; "{} at {}", from_utf8(member.name)?, member.offset)?; // hello.o at 8
/// }
/// ```
pub fn members_of(bytes: &[u8]) -> Result<Members<'_>, ArchiveError>
    ensures items { ok_map members_left result ≡ members_in bytes.now }
    ensures few { IfOk result (λ members. length (members_left members) ≤ length bytes.now) }
{
    let Some(is_thin) = thinness(bytes) else {
        return Err(ArchiveError::NotAnArchive);
    };
    Ok(Members {
        is_thin,
        bytes,
        names: &[],
        offset: 8,
    })
}

// What is yielded for an entry at an offset: the member that it is, if it is one.
fn item_of<'a>(
    is_thin: bool,
    offset: usize,
    entry: Entry<'a>,
) -> Option<Result<Member<'a>, ArchiveError>>
    ensures { option_map item_view result ≡ option_map Ok (member_of is_thin offset (entry_view entry.entry)) }
{
    match entry {
        Entry::Index | Entry::LongNames(_) => None,
        Entry::File(name, content) => Some(Ok(Member {
            name,
            offset,
            bytes: if is_thin { None } else { Some(content) },
        })),
    }
}

// The long names of the entries after one.
fn names_after<'a>(names: &'a [u8], entry: Entry<'a>) -> &'a [u8]
    ensures { result.now ≡ names_after names.now (entry_view entry.entry) }
{
    match entry {
        Entry::LongNames(others) => others,
        Entry::Index | Entry::File(..) => names,
    }
}

impl<'a> Members<'a> {
    // Reads the next entry. Returns the member that it is, or the error; an index or long names are no member.
    fn step(&mut self) -> Option<Result<Member<'a>, ArchiveError>>
        requires { self.old.offset < length self.old.bytes.now }
        ensures value { members_left self.old ≡ cons_option (option_map item_view result) (members_left self.new) }
        ensures fewer { bytes_left self.new < bytes_left self.old }
    {
        let offset = self.offset;
        match entry_in(self.is_thin, offset, self.names, &self.bytes[offset..]) {
            Ok((entry, next)) => {
                self.offset = next;
                self.names = names_after(self.names, entry);
                item_of(self.is_thin, offset, entry)
            }
            Err(error) => {
                self.bytes = &[];
                Some(Err(error))
            }
        }
    }
}

impl<'a> Iterator for Members<'a> {
    type Item = Result<Member<'a>, ArchiveError>;

    ghost next_gives = { YieldsFirstBy item_view members_left };

    ghost remaining = { item_count members_left };

    fn next(&mut self) -> Option<Result<Member<'a>, ArchiveError>> {
        while self.offset < self.bytes.len() {
            if let Some(item) = self.step() {
                return Some(item);
            }
        }
        None
    }
}
