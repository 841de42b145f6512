//! The bytes of segments.
ghost use Rattle.std.specs.Prelude.{◌≡◌, ◌≤◌, ◌<◌, ◌^◌, IfOk, length};
ghost use Rattle.elf_parts.specs.Note.{notes_left};
ghost use Rattle.elf_records.specs.Number.{ok_map};
ghost use Rattle.elf.specs.Answers.{segment_data, segment_data_as_notes};
ghost use Rattle.elf.specs.ObjectFile.{object_file};
ghost use Rattle.elf.specs.ElfBytes.{view};

use super::ElfBytes;
use elf_abi::abi;
use elf_parts::endian::EndianParse;
use elf_parts::note::NoteIterator;
use elf_parts::parse::ParseError;
use elf_parts::segment::ProgramHeader;
use elf_records::parse::get_bytes;

impl<'data, E: EndianParse> ElfBytes<'data, E> {
    /// Returns the bytes of a segment in the file: `p_filesz` bytes from `p_offset` on (gABI, chapter "Program
    /// Header").
    ///
    /// Errors, in order: `IntegerOverflow` if the end of the segment does not fit 64 bits;
    /// `SliceReadError((start, end))` if the segment does not lie in the file.
    ///
    /// ```rust
    /// if let Some(segments) = file.segments() {
    ///     let bytes = file.segment_data(&segments.get(0)?)?;
    ///     println!(rt; "{} bytes", bytes.len())?;
    /// }
    /// ```
    pub fn segment_data(&self, phdr: &ProgramHeader) -> Result<&'data [u8], ParseError>
        ensures value { ok_map (λ bytes. bytes.now) result
            ≡ segment_data (object_file E.little (view self.now)) phdr.now }
        ensures within { IfOk result (λ bytes. length bytes.now ≤ length (view self.now).bytes) }
    {
        get_bytes(self.data, phdr.p_offset as usize, phdr.p_filesz as usize)
    }

    /// Returns an iterator over the notes of a segment of type `PT_NOTE`, aligned to `p_align` bytes (gABI, chapter
    /// "Program Header", "Note Section"). It ends at the first note that does not fit, and yields at most one for each
    /// byte of the file.
    ///
    /// Errors, in order: `UnexpectedSegmentType((found, expected))` for any other type; those of `segment_data`.
    ///
    /// ```rust
    /// if let Some(segments) = file.segments() {
    ///     for segment in segments {
    ///         if segment.p_type == abi::PT_NOTE {
    ///             println!(rt; "{} notes", file.segment_data_as_notes(&segment)?.count())?;
    ///         }
    ///     }
    /// }
    /// ```
    pub fn segment_data_as_notes(
        &self,
        phdr: &ProgramHeader,
    ) -> Result<NoteIterator<'data, E>, ParseError>
        ensures items { ok_map notes_left result
            ≡ segment_data_as_notes (object_file E.little (view self.now)) phdr.now }
        ensures few { IfOk result (λ notes. length (notes_left notes) ≤ length (view self.now).bytes) }
        ensures bound { IfOk result (λ notes. length (notes_left notes) < 2 ^ 64) }
    {
        if phdr.p_type != abi::PT_NOTE {
            return Err(ParseError::UnexpectedSegmentType((phdr.p_type, abi::PT_NOTE)));
        }
        let bytes = self.segment_data(phdr)?;
        Ok(NoteIterator::new(
            self.ehdr.endianness,
            self.ehdr.class,
            phdr.p_align as usize,
            bytes,
        ))
    }
}
