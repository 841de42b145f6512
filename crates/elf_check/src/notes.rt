//! The check of notes.
ghost use Rattle.std.specs.Prelude.{◌≡◌, MatchOption, Ok};
ghost use Rattle.std.specs.Result.{IsOkAnd};
ghost use Rattle.elf.specs.Data.{content};
ghost use Rattle.elf.specs.ElfBytes.{view};
ghost use Rattle.elf.specs.ObjectFile.{object_file};
ghost use Rattle.elf_check.specs.Notes.{IsNoNote, SoundNotes};

mod bytes;

pub use bytes::{first_no_note, note_align};
use elf::ElfBytes;
use elf::endian::EndianParse;
use elf::section::SectionHeader;

// Where the notes of a section end, if they do not fill it.
pub(crate) fn notes_fault<E: EndianParse>(
    file: &ElfBytes<'_, E>,
    shdr: &SectionHeader,
    bytes: &[u8],
) -> Option<usize>
    requires { content (object_file E.little (view file.now)) shdr.now ≡ Ok bytes.now }
    ensures { let whole = object_file E.little (view file.now) in
        MatchOption result (SoundNotes whole shdr.now) (λ offset.
        IsOkAnd (content whole shdr.now) (λ bytes. IsNoNote whole.little shdr.now.sh_addralign bytes offset)) }
{
    first_no_note(
        file.ehdr.endianness.is_little(),
        shdr.sh_addralign as usize,
        bytes,
    )
}
