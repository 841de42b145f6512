//! The check of notes.
ghost use Rattle.std.specs.Prelude.{◌≡◌, MatchOption};
ghost use Rattle.elf_check.specs.Notes.{IsNoNote, NotesFill, note_align};

use elf::note::note_at;

/// Returns the alignment by which notes are read that declare this one.
pub fn note_align(align: usize) -> usize
    ensures { result ≡ note_align align }
{
    if align < 4 { 4 } else { align }
}

/// Where the first bytes are that are no note, if the notes do not fill the bytes.
pub fn first_no_note(little: bool, align: usize, bytes: &[u8]) -> Option<usize>
    ensures { MatchOption result (NotesFill little align bytes.now) (IsNoNote little align bytes.now) }
{
    let step = note_align(align);
    let mut offset = 0;
    while offset < bytes.len() {
        match note_at(little, step, offset, bytes) {
            Ok((_, next)) => offset = next,
            Err(_) => return Some(offset),
        }
    }
    None
}
