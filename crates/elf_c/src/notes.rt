//! Notes.
ghost use Rattle.std.specs.Prelude.{◌≡◌, ◌<◌, IsErr, Ok, length};
ghost use Rattle.elf_parts.specs.Note.{note_view};
ghost use Rattle.elf_c.specs.Filled.{AreRead};
ghost use Rattle.elf_c.specs.Notes.{IsNote, IsNoteWritten, IsShown, note_after, note_from, note_of_c};
ghost use Rattle.elf_c.specs.Status.{status_of, written};

use crate::status::{NugwierStatus, done, refused};
use elf_abi::abi;
use elf_parts::note::{Note, note_at};

/// The notes of a section or of a segment: their bytes, their byte order and their alignment.
#[repr(C)]
#[derive(Drop)]
pub struct NugwierNotes<'data> {
    pub little: bool,
    pub align: usize,
    pub bytes: &'data [u8],
}

/// The oldest version of an operating system that a program runs on.
#[repr(C)]
#[derive(Clone, Copy, Default)]
pub struct NugwierAbiTag {
    pub os: u32,
    pub major: u32,
    pub minor: u32,
    pub subminor: u32,
}

/// A note. `kind` is 1 for an ABI tag, 2 for a build id, and 0 for any other note. An ABI tag is in `tag`, the bytes of
/// a build id are in `desc`, and of any other note `n_type`, `name` (with the 0 bytes at its end) and `desc` are as in
/// the file. What a kind does not have is 0 or empty, except that `n_type` is that of the note's kind.
#[repr(C)]
#[derive(Drop)]
pub struct NugwierNote<'data> {
    pub kind: u32,
    pub tag: NugwierAbiTag,
    pub n_type: u64,
    pub name: &'data [u8],
    pub desc: &'data [u8],
}

// A note as C sees it.
fn note_shown<'data>(note: &Note<'data>) -> NugwierNote<'data>
    ensures { IsNote result (note_view note.now) }
{
    match note {
        Note::GnuAbiTag(tag) => NugwierNote {
            kind: 1,
            tag: NugwierAbiTag {
                os: tag.os,
                major: tag.major,
                minor: tag.minor,
                subminor: tag.subminor,
            },
            n_type: abi::NT_GNU_ABI_TAG,
            name: &[],
            desc: &[],
        },
        Note::GnuBuildId(id) => NugwierNote {
            kind: 2,
            tag: NugwierAbiTag::default(),
            n_type: abi::NT_GNU_BUILD_ID,
            name: &[],
            desc: id.0,
        },
        Note::Unknown(any) => NugwierNote {
            kind: 0,
            tag: NugwierAbiTag::default(),
            n_type: any.n_type,
            name: any.name,
            desc: any.desc,
        },
    }
}

/// Reads the note at `offset`, and moves `offset` to where the next note begins. An error leaves both as they are; the
/// errors are those of `note_at`. The first note is at offset 0.
#[unsafe(no_mangle)]
pub extern "C" fn nugwier_note<'data>(
    notes: &NugwierNotes<'data>,
    offset: &mut usize,
    note: &mut NugwierNote<'data>,
) -> NugwierStatus
    ensures status { result ≡ status_of (note_of_c notes.now offset.old) }
    ensures moved { offset.new ≡ written (λ found. found.1) offset.old (note_of_c notes.now offset.old) }
    ensures note { IsNoteWritten note.new note.old (note_of_c notes.now offset.old) }
{
    match note_at(notes.little, notes.align, *offset, notes.bytes) {
        Ok((found, next)) => {
            *note = note_shown(&found);
            *offset = next;
            done()
        }
        Err(error) => refused(&error),
    }
}

/// Fills `places` with the notes from `offset` on, moves `offset` to where the next note begins, and returns how many
/// notes these are: up to the first that cannot be read, and no more than there are places.
#[tactic(auto, using(crate::proofs::Filling::none_read))]
#[unsafe(no_mangle)]
pub extern "C" fn nugwier_note_list<'data>(
    notes: &NugwierNotes<'data>,
    offset: &mut usize,
    places: &mut [NugwierNote<'data>],
) -> usize
    ensures read { AreRead IsShown (note_from notes.now offset.old) 0 result places.old places.new }
    ensures moved { note_after notes.now result offset.old ≡ Ok offset.new }
    ensures all { result < length places.new → IsErr (note_of_c notes.now offset.new) }
{
    let mut count = 0;
    while count < places.len() {
        let Ok((note, next)) = note_at(notes.little, notes.align, *offset, notes.bytes) else {
            return count;
        };
        places[count] = note_shown(&note);
        *offset = next;
        count += 1;
    }
    count
}
