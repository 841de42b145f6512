//! The build id of a file that was checked, which distinguishes one build from all others.
ghost use Rattle.std.specs.Prelude.{◌≡◌};
ghost use Rattle.std.specs.Option.{option_map};
ghost use Rattle.elf_parts.specs.Note.{notes_left};
ghost use Rattle.elf_check.specs.BuildId.{build_id, first_id, sections_id, segments_id};

use super::WholeFile;
use crate::segments::notes_of;
use elf::endian::EndianParse;
use elf::note::{Note, NoteIterator};

// The first build id among some notes.
fn first_id<'data, E: EndianParse>(notes: NoteIterator<'data, E>) -> Option<&'data [u8]>
    ensures { option_map (λ id. id.now) result ≡ first_id (notes_left notes.entry) }
{
    for note in notes {
        if let Note::GnuBuildId(id) = note {
            return Some(id.0);
        }
    }
    None
}

impl<'a, 'data, E: EndianParse> WholeFile<'a, 'data, E> {
    ghost use Rattle.elf_check.specs.Whole.{whole_view};

    // The first build id among the notes of the segments.
    fn segments_id(&self) -> Option<&'data [u8]>
        ensures { option_map (λ id. id.now) result ≡ segments_id (whole_view E.little self.now) }
    {
        for (phdr, bytes) in self.segments().iter() {
            if let Some(notes) = notes_of(self.file, &phdr, bytes)
                && let Some(id) = first_id(notes)
            {
                return Some(id);
            }
        }
        None
    }

    // The first build id among the notes of the sections.
    fn sections_id(&self) -> Option<&'data [u8]>
        ensures { option_map (λ id. id.now) result ≡ sections_id (whole_view E.little self.now) }
    {
        for section in self.sections() {
            if let Some(notes) = section.notes()
                && let Some(id) = first_id(notes)
            {
                return Some(id);
            }
        }
        None
    }

    /// The first build id among the notes of the segments of type `PT_NOTE` or, if these have none, of the sections of
    /// type `SHT_NOTE`. It is the descriptor of a note of type `NT_GNU_BUILD_ID` whose name is `GNU`. `None` exactly if
    /// there is none.
    pub fn build_id(&self) -> Option<&'data [u8]>
        ensures { option_map (λ id. id.now) result ≡ build_id (whole_view E.little self.now) }
    {
        match self.segments_id() {
            Some(id) => Some(id),
            None => self.sections_id(),
        }
    }
}
