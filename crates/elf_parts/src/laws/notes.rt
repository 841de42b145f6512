//! Laws of notes.
ghost use Rattle.std.specs.Prelude.{◌≡◌, ◌↔◌, ◌<◌, ◌^◌, IsTrue, length, refl};
ghost use Rattle.std.specs.Int.{next_multiple_of};
ghost use Rattle.elf_parts.specs.Note.{note_links, note_view, notes_left, AreAllNotes, IsLeastMultiple};

use crate::endian::EndianParse;
use crate::laws::tables::PlainRecord;
use crate::note::{Note, NoteAny, NoteGnuAbiTag, NoteGnuBuildId, NoteIterator};

/// The notes of some bytes are the longest list in which the first note begins at 0 and each other note begins
/// where the one before it says.
pub fn notes_are_the_longest_list<E: EndianParse>(endian: E, align: usize, data: &[u8])
    ensures { AreAllNotes (E.little endian) align «data».now (note_links (E.little endian) align «data».now 0) }
{}

/// An iterator over notes has fewer than 2^64 of them left to yield.
pub fn few_notes_are_left<E: EndianParse>(notes: &NoteIterator<'_, E>)
    ensures { length (notes_left notes.now) < 2 ^ 64 }
{
    let _ = notes.data_len();
}

/// A descriptor, and the next note, begin at the least multiple of the alignment that is not below the end of what
/// precedes it. The alignment is not 0.
pub fn parts_begin_at_the_least_multiple(align: usize, offset: usize)
    ensures { 0 < align → IsLeastMultiple align offset (next_multiple_of offset align) }
{}

impl PlainRecord for NoteGnuAbiTag {
    ghost use Rattle.elf_records.specs.inner.RecordLaws.{wherever_by};
    ghost use Rattle.elf_parts.specs.Note.{abi_tag_layout};

    ghost wherever = { wherever_by abi_tag_layout refl };
}

/// Two notes are equal exactly if they have the same content: the same ABI tag, the same build id, or the same
/// type, name and descriptor. Two ABI tags are equal exactly if all their fields are, two build ids if they have the
/// same bytes, and two notes of other kinds if their types, the bytes of their names and those of their descriptors are.
pub fn equal_notes()
    ensures abi_tags { (a b : NoteGnuAbiTag) → IsTrue (⟦<NoteGnuAbiTag as PartialEq>⟧.eq a b) ↔ (a ≡ b) }
    ensures build_ids { (a b : NoteGnuBuildId) →
        IsTrue (⟦<NoteGnuBuildId<'static> as PartialEq>⟧.eq a b) ↔ (a.0.now ≡ b.0.now) }
    ensures others { (a b : NoteAny) → IsTrue (⟦<NoteAny<'static> as PartialEq>⟧.eq a b)
        ↔ ((a.n_type ≡ b.n_type) × (a.name.now ≡ b.name.now) × (a.desc.now ≡ b.desc.now)) }
    ensures notes { (a b : Note) → IsTrue (⟦<Note<'static> as PartialEq>⟧.eq a b) ↔ (note_view a ≡ note_view b) }
{}
