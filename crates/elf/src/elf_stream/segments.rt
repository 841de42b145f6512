//! The bytes of segments.
ghost use Rattle.std.specs.Prelude.{◌≤◌, ◌<◌, ◌^◌, IfOk, IfSome, Ok, length};
ghost use Rattle.elf_parts.specs.Note.{notes_left};
ghost use Rattle.elf.specs.Answers.{segment_data, segment_data_as_notes};
ghost use Rattle.elf.specs.Ranges.{segment_ranges, segment_notes_ranges};
ghost use Rattle.elf.specs.inner.Loads.{Loads};

use super::ElfStream;
use crate::read_error::given;
use crate::reader;
use elf_abi::abi;
use elf_parts::endian::EndianParse;
use elf_parts::note::NoteIterator;
use elf_parts::parse::ParseError;
use elf_parts::segment::ProgramHeader;
use elf_reading::source::StreamSource;
use std::alloc::Allocator;

impl<E: EndianParse, S: StreamSource, A: Allocator + Copy> ElfStream<E, S, A> {
    ghost use Rattle.std.specs.Borrow.{sem};
    ghost use Rattle.elf.specs.Lending.{Lends};

    /// Returns the bytes of a segment in the file: `p_filesz` bytes from `p_offset` on (gABI, chapter "Program
    /// Header"). Requests the range of the segment. The error is that of the range.
    pub fn segment_data(&mut self, phdr: &ProgramHeader) -> Result<&[u8], ParseError>
        ensures* leaves { sem 𝓛 (Lends E.row S.row A.row E.EndianParse S.StreamSource A.Allocator self.entry
            (λ _. segment_ranges phdr.now) (λ part. part.now) (λ file. segment_data file phdr.now) result) }
    {
        self.load_segment(phdr)?;
        self.is_part_of_file();
        given(reader::segment_data(&*self, phdr))
    }

    // Reads the range of a segment of notes into the cache.
    fn load_segment_notes(&mut self, phdr: &ProgramHeader) -> Result<(), ParseError>
        ensures { Loads (segment_notes_ranges phdr.now) self.old self.new result }
    {
        if phdr.p_type != abi::PT_NOTE {
            return Ok(());
        }
        self.load_segment(phdr)
    }

    /// Returns an iterator over the notes of a segment of type `PT_NOTE`, aligned to `p_align` bytes (gABI, chapter
    /// "Program Header", "Note Section"). It ends at the first note that does not fit, and yields at most one for each
    /// byte of the segment. Requests the range of the segment.
    ///
    /// Errors, in order: `UnexpectedSegmentType((found, expected))` for any other type, with no range requested; that
    /// of the range.
    pub fn segment_data_as_notes(
        &mut self,
        phdr: &ProgramHeader,
    ) -> Result<NoteIterator<'_, E>, ParseError>
        ensures* leaves { sem 𝓛 (Lends E.row S.row A.row E.EndianParse S.StreamSource A.Allocator self.entry
            (λ _. segment_notes_ranges phdr.now) notes_left (λ file. segment_data_as_notes file phdr.now) result) }
        ensures few { IfOk result (λ notes.
            IfSome self.old.content (λ bytes. length (notes_left notes) ≤ length bytes)) }
        ensures size { IfOk result (λ notes. length (notes_left notes) ≤ phdr.now.p_filesz) }
        ensures bound { IfOk result (λ notes. length (notes_left notes) < 2 ^ 64) }
    {
        self.load_segment_notes(phdr)?;
        self.is_part_of_file();
        given(reader::segment_data_as_notes(&*self, phdr))
    }
}
