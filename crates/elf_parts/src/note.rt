//! Notes (gABI, chapter "Program Header", "Note Section").
ghost use Rattle.std.specs.Prelude.{◌≡◌, ◌≤◌, ◌<◌, ◌^◌, ◌+◌, length, OnOk, refl, true};
ghost use Rattle.std.specs.Iterator.{YieldsFirstBy, item_count};
ghost use Rattle.elf_parts.specs.Note.{aligned_offset, content_of, is_gnu, note_and_next_view, note_at, note_view};
ghost use Rattle.elf_parts.specs.Note.{notes_in};
ghost use Rattle.elf_parts.specs.Note.{notes_left, GivesNameText};
ghost use Rattle.elf_records.specs.Number.{ok_map};

use crate::endian::{EndianParse, next_bytes};
use crate::file::Class;
use crate::parse::{ParseAt, ParseError, read_record};
use elf_abi::abi;
use std::marker::PhantomData;
use std::str::from_utf8;

/// A note.
#[derive(Debug, Drop, PartialEq, Eq)]
pub enum Note<'data> {
    /// The ABI tag: name `GNU`, type 1.
    GnuAbiTag(NoteGnuAbiTag),
    /// The build id: name `GNU`, type 3.
    GnuBuildId(NoteGnuBuildId<'data>),
    /// Any other note.
    Unknown(NoteAny<'data>),
}

/// The oldest version of an operating system that a program runs on.
#[derive(Debug, Clone, Copy, PartialEq, Eq)]
pub struct NoteGnuAbiTag {
    pub os: u32,
    pub major: u32,
    pub minor: u32,
    pub subminor: u32,
}

/// The bytes of a build id, which tells one build from all others.
#[derive(Debug, Clone, Copy, PartialEq, Eq)]
pub struct NoteGnuBuildId<'data>(pub &'data [u8]);

/// A note of another kind, as it is in the data. The name includes the 0 bytes at its end.
#[derive(Debug, Drop, PartialEq, Eq)]
pub struct NoteAny<'data> {
    pub n_type: u64,
    pub name: &'data [u8],
    pub desc: &'data [u8],
}

impl NoteAny<'_> {
    /// Returns the name as text, without the 0 bytes at its end. If the name is not UTF-8, the error is `Utf8Error`
    /// with its first fault.
    pub fn name_str(&self) -> Result<&str, ParseError>
        ensures { GivesNameText self.now.name.now result }
    {
        let name = from_utf8(self.name)?;
        Ok(name.trim_end_matches('\0'))
    }
}

// The sizes of a note's name and descriptor in bytes, and its type.
#[derive(Drop)]
struct NoteHeader {
    n_namesz: u32,
    n_descsz: u32,
    n_type: u32,
}

impl ParseAt for NoteHeader {
    ghost use Rattle.elf_parts.specs.Note.{note_header_reads};

    const SHAPE: (usize, usize, bool) = (12, 12, true);

    ghost SHAPE = { (12, 12, true) };

    ghost reads = { note_header_reads };

    ghost shape_law = { refl };

    #[tactic(auto, unfolding(elf_records::specs::Record::numbers_at, elf_records::specs::Record::numbers_end))]
    #[inline(always)]
    fn parse_at<E: EndianParse>(
        endian: E,
        _class: Class,
        offset: &mut usize,
        data: &[u8],
    ) -> Result<Self, ParseError> {
        Ok(NoteHeader {
            n_namesz: endian.parse_u32_at(offset, data)?,
            n_descsz: endian.parse_u32_at(offset, data)?,
            n_type: endian.parse_u32_at(offset, data)?,
        })
    }
}

impl ParseAt for NoteGnuAbiTag {
    ghost use Rattle.elf_parts.specs.Note.{abi_tag_reads};

    const SHAPE: (usize, usize, bool) = (16, 16, true);

    ghost SHAPE = { (16, 16, true) };

    ghost reads = { abi_tag_reads };

    ghost shape_law = { refl };

    #[tactic(auto, unfolding(elf_records::specs::Record::numbers_at, elf_records::specs::Record::numbers_end))]
    fn parse_at<E: EndianParse>(
        endian: E,
        _class: Class,
        offset: &mut usize,
        data: &[u8],
    ) -> Result<Self, ParseError> {
        Ok(NoteGnuAbiTag {
            os: endian.parse_u32_at(offset, data)?,
            major: endian.parse_u32_at(offset, data)?,
            minor: endian.parse_u32_at(offset, data)?,
            subminor: endian.parse_u32_at(offset, data)?,
        })
    }
}

// The next multiple of the alignment.
#[tactic(auto, unfolding(crate::specs::Note::aligned_offset))]
#[inline(always)]
fn aligned_offset(align: usize, offset: usize) -> Result<usize, ParseError>
    ensures { result ≡ aligned_offset align offset }
{
    // Nearly all files have 4 or 8. A division by a known number takes fewer instructions, and needs no remainder.
    let next = match align {
        4 => offset.checked_add(3).map(|last| last / 4 * 4),
        8 => offset.checked_add(7).map(|last| last / 8 * 8),
        _ => offset.checked_next_multiple_of(align),
    };
    next.ok_or(ParseError::IntegerOverflow)
}

// Whether a name is `GNU`, with the 0 byte that ends it. An `==` of two slices would be a call.
#[inline(always)]
fn is_gnu(name: &[u8]) -> bool
    ensures { result ≡ is_gnu name.now }
{
    matches!(name, [b'G', b'N', b'U', 0])
}

// What a note of this type, name and descriptor is.
#[tactic(auto, unfolding(crate::specs::Note::content_of))]
#[inline(always)]
fn interpret<'data>(
    little: bool,
    n_type: u64,
    name: &'data [u8],
    descriptor: &'data [u8],
) -> Result<Note<'data>, ParseError>
    ensures { ok_map note_view result ≡ content_of little n_type name.now descriptor.now }
{
    if n_type == abi::NT_GNU_ABI_TAG && is_gnu(name) {
        let tag = read_record(little, Class::ELF32, &mut 0, descriptor)?;
        return Ok(Note::GnuAbiTag(tag));
    }
    if n_type == abi::NT_GNU_BUILD_ID && is_gnu(name) {
        return Ok(Note::GnuBuildId(NoteGnuBuildId(descriptor)));
    }
    Ok(Note::Unknown(NoteAny {
        n_type,
        name,
        desc: descriptor,
    }))
}

/// Reads the note at `start`, in bytes, and returns it with the offset where the next note begins. Notes are the same
/// in both classes. A descriptor and the next note begin at multiples of `align`.
///
/// Errors, in order: those of the note's header; `IntegerOverflow` or `SliceReadError((start, end))` if the name does
/// not lie in the data; `IntegerOverflow` if `align` is 0; the same two if the descriptor does not lie there; those of
/// the ABI tag that a descriptor holds.
// Inlined with its parts into the iterator, which drops the error.
#[tactic(auto, unfolding(crate::specs::Note::note_at))]
#[inline(always)]
pub fn note_at<'data>(
    little: bool,
    align: usize,
    start: usize,
    data: &'data [u8],
) -> Result<(Note<'data>, usize), ParseError>
    ensures { ok_map note_and_next_view result ≡ note_at little align «data».now start }
{
    let mut offset = start;
    let header = read_record::<NoteHeader>(little, Class::ELF32, &mut offset, data)?;
    let name = next_bytes(&mut offset, header.n_namesz as usize, data)?;
    offset = aligned_offset(align, offset)?;
    let descriptor = next_bytes(&mut offset, header.n_descsz as usize, data)?;
    let next = aligned_offset(align, offset)?;
    let note = interpret(little, header.n_type as u64, name, descriptor)?;
    Ok((note, next))
}

/// An iterator over notes, up to the first that does not fit. After its first `None` it keeps returning `None`.
#[derive(Debug, Drop)]
pub struct NoteIterator<'data, E: EndianParse> {
    little: bool,
    align: usize,
    data: &'data [u8],
    offset: usize,
    order: PhantomData<E>,
}

impl<'data, E: EndianParse> NoteIterator<'data, E> {
    /// Returns the notes of the data, at most one for each byte. The descriptor of a note, and the next note, begin at
    /// multiples of `align`, counted in bytes from the start of the data. If `align` is 0, there are no notes. Both
    /// classes have the same notes.
    #[tactic(auto, using(crate::proofs::NoteLists::notes_few))]
    pub fn new(endian: E, _class: Class, align: usize, data: &'data [u8]) -> Self
        ensures items { notes_left result ≡ notes_in (E.little endian) align «data».now }
        ensures few { length (notes_left result) ≤ length «data».now }
        ensures bound { length (notes_left result) < 2 ^ 64 }
    {
        NoteIterator {
            little: endian.is_little(),
            align,
            data,
            offset: 0,
            order: PhantomData,
        }
    }

    // How many bytes the data has.
    pub(crate) fn data_len(&self) -> usize
        ensures { result ≡ length self.now.«data».now }
    {
        self.data.len()
    }
}

impl<'data, E: EndianParse> Iterator for NoteIterator<'data, E> {
    type Item = Note<'data>;

    ghost next_gives = { YieldsFirstBy note_view notes_left };

    ghost remaining = { item_count notes_left };

    // Inlined, so that the caller takes the note without a copy.
    #[inline(always)]
    fn next(&mut self) -> Option<Note<'data>> {
        match note_at(self.little, self.align, self.offset, self.data) {
            Ok((note, next)) => {
                self.offset = next;
                Some(note)
            }
            Err(_) => {
                self.data = &[];
                None
            }
        }
    }
}
