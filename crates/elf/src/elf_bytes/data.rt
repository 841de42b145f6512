//! The bytes of sections.
ghost use Rattle.std.specs.Prelude.{◌≡◌, ◌≤◌, ◌<◌, ◌^◌, IfOk, length};
ghost use Rattle.elf_parts.specs.Note.{notes_left};
ghost use Rattle.elf_records.specs.Number.{ok_map};
ghost use Rattle.elf_records.specs.StringTable.{strings_view};
ghost use Rattle.elf.specs.Answers.{relas_left, rels_left, section_data_as_notes};
ghost use Rattle.elf.specs.Data.{content_of_type, section_data};
ghost use Rattle.elf_reading.specs.Leading.{data_view};
ghost use Rattle.elf.specs.Answers.{section_data_as_relas, section_data_as_rels, section_data_as_strtab};
ghost use Rattle.elf.specs.ObjectFile.{object_file, section_part};
ghost use Rattle.elf.specs.ElfBytes.{view};

use super::ElfBytes;
use elf_abi::abi;
use elf_parts::compression::CompressionHeader;
use elf_parts::endian::EndianParse;
use elf_parts::note::NoteIterator;
use elf_parts::parse::ParseError;
use elf_parts::relocation::{RelIterator, RelaIterator};
use elf_parts::section::SectionHeader;
use elf_parts::string_table::StringTable;
use elf_reading::leading::leading_record;
use elf_records::parse::get_bytes;

impl<'data, E: EndianParse> ElfBytes<'data, E> {
    /// Returns the bytes in the range of a section header, whatever the type and the flags of the section are.
    ///
    /// Errors, in order: `IntegerOverflow` if the end of the section does not fit 64 bits;
    /// `SliceReadError((start, end))` if the section does not lie in the file.
    pub fn section_range(&self, shdr: &SectionHeader) -> Result<&'data [u8], ParseError>
        ensures value { ok_map (λ bytes. bytes.now) result
            ≡ section_part (object_file E.little (view self.now)) shdr.now }
        ensures within { IfOk result (λ bytes. length bytes.now ≤ length (view self.now).bytes) }
    {
        get_bytes(self.data, shdr.sh_offset as usize, shdr.sh_size as usize)
    }

    /// Returns the bytes of a section, and its compression header if its flags have `SHF_COMPRESSED` (gABI, chapter
    /// "Sections", "Section Compression"). The bytes are then those after that header; nothing is decompressed. A
    /// section of type `SHT_NOBITS` has no bytes, and its range is not checked.
    ///
    /// Errors, in order: `IntegerOverflow` if the end of the section does not fit 64 bits;
    /// `SliceReadError((start, end))` if the section does not lie in the file; `SliceReadError((start, end))`, in bytes
    /// from the start of the section, of the first number of the compression header that does not lie in the section.
    ///
    /// ```rust
    /// if let Some(section) = file.section_header_by_name(".interp")? {
    ///     let (interpreter, _) = file.section_data(&section)?;
    ///     println!(rt; "{} bytes", interpreter.len())?;
    /// }
    /// ```
    #[tactic(auto, unfolding(crate::specs::Data::section_data))]
    pub fn section_data(
        &self,
        shdr: &SectionHeader,
    ) -> Result<(&'data [u8], Option<CompressionHeader>), ParseError>
        ensures value { ok_map data_view result ≡ section_data (object_file E.little (view self.now)) shdr.now }
        ensures within { IfOk result (λ found. length found.0.now ≤ length (view self.now).bytes) }
    {
        if shdr.sh_type == abi::SHT_NOBITS {
            return Ok((&[], None));
        }
        let part = self.section_range(shdr)?;
        if shdr.sh_flags & abi::SHF_COMPRESSED as u64 == 0 {
            return Ok((part, None));
        }
        let (rest, header) = leading_record::<E, CompressionHeader>(
            self.ehdr.endianness,
            self.ehdr.class,
            part,
        )?;
        Ok((rest, Some(header)))
    }

    // The bytes of a section that must have a given type.
    pub(super) fn content_of_type(
        &self,
        shdr: &SectionHeader,
        sh_type: u32,
    ) -> Result<&'data [u8], ParseError>
        ensures value { ok_map (λ bytes. bytes.now) result
            ≡ content_of_type sh_type (object_file E.little (view self.now)) shdr.now }
        ensures within { IfOk result (λ bytes. length bytes.now ≤ length (view self.now).bytes) }
    {
        if shdr.sh_type != sh_type {
            return Err(ParseError::UnexpectedSectionType((shdr.sh_type, sh_type)));
        }
        let (bytes, _) = self.section_data(shdr)?;
        Ok(bytes)
    }

    /// Returns the strings of a section of type `SHT_STRTAB` (gABI, chapter "String Table").
    ///
    /// Errors, in order: `UnexpectedSectionType((found, expected))` for any other type; those of `section_data`.
    pub fn section_data_as_strtab(
        &self,
        shdr: &SectionHeader,
    ) -> Result<StringTable<'data>, ParseError>
        ensures { ok_map strings_view result
            ≡ section_data_as_strtab (object_file E.little (view self.now)) shdr.now }
    {
        let bytes = self.content_of_type(shdr, abi::SHT_STRTAB)?;
        Ok(StringTable::new(bytes))
    }

    /// Returns an iterator over the relocations of a section of type `SHT_REL` (gABI, chapter "Relocation"). It ends at
    /// the first one that cannot be read, and yields at most one for each byte of the file.
    ///
    /// Errors, in order: `UnexpectedSectionType((found, expected))` for any other type; those of `section_data`.
    pub fn section_data_as_rels(
        &self,
        shdr: &SectionHeader,
    ) -> Result<RelIterator<'data, E>, ParseError>
        ensures items { ok_map rels_left result
            ≡ section_data_as_rels (object_file E.little (view self.now)) shdr.now }
        ensures few { IfOk result (λ rels. length (rels_left rels) ≤ length (view self.now).bytes) }
        ensures bound { IfOk result (λ rels. length (rels_left rels) < 2 ^ 64) }
    {
        let bytes = self.content_of_type(shdr, abi::SHT_REL)?;
        Ok(RelIterator::new(self.ehdr.endianness, self.ehdr.class, bytes))
    }

    /// Returns an iterator over the relocations of a section of type `SHT_RELA` (gABI, chapter "Relocation"). It ends
    /// at the first one that cannot be read, and yields at most one for each byte of the file.
    ///
    /// Errors, in order: `UnexpectedSectionType((found, expected))` for any other type; those of `section_data`.
    ///
    /// ```rust
    /// if let Some(section) = file.section_header_by_name(".rela.dyn")? {
    ///     for rela in file.section_data_as_relas(&section)? {
    ///         println!(rt; "type {} at {:#x}", rela.r_type, rela.r_offset)?;
    ///     }
    /// }
    /// ```
    pub fn section_data_as_relas(
        &self,
        shdr: &SectionHeader,
    ) -> Result<RelaIterator<'data, E>, ParseError>
        ensures items { ok_map relas_left result
            ≡ section_data_as_relas (object_file E.little (view self.now)) shdr.now }
        ensures few { IfOk result (λ relas. length (relas_left relas) ≤ length (view self.now).bytes) }
        ensures bound { IfOk result (λ relas. length (relas_left relas) < 2 ^ 64) }
    {
        let bytes = self.content_of_type(shdr, abi::SHT_RELA)?;
        Ok(RelaIterator::new(self.ehdr.endianness, self.ehdr.class, bytes))
    }

    /// Returns an iterator over the notes of a section of type `SHT_NOTE`, aligned to `sh_addralign` bytes (gABI,
    /// chapter "Program Header", "Note Section"). It ends at the first note that does not fit, and yields at most one
    /// for each byte of the file.
    ///
    /// Errors, in order: `UnexpectedSectionType((found, expected))` for any other type; those of `section_data`.
    ///
    /// ```rust
    /// if let Some(section) = file.section_header_by_name(".note.gnu.build-id")? {
    ///     for note in file.section_data_as_notes(&section)? {
    ///         if let Note::GnuBuildId(id) = note {
    ///             println!(rt; "a build id of {} bytes", id.0.len())?;
    ///         }
    ///     }
    /// }
    /// ```
    pub fn section_data_as_notes(
        &self,
        shdr: &SectionHeader,
    ) -> Result<NoteIterator<'data, E>, ParseError>
        ensures items { ok_map notes_left result
            ≡ section_data_as_notes (object_file E.little (view self.now)) shdr.now }
        ensures few { IfOk result (λ notes. length (notes_left notes) ≤ length (view self.now).bytes) }
        ensures bound { IfOk result (λ notes. length (notes_left notes) < 2 ^ 64) }
    {
        let bytes = self.content_of_type(shdr, abi::SHT_NOTE)?;
        Ok(NoteIterator::new(
            self.ehdr.endianness,
            self.ehdr.class,
            shdr.sh_addralign as usize,
            bytes,
        ))
    }
}
