//! The bytes of sections.
ghost use Rattle.std.specs.Prelude.{◌≤◌, ◌<◌, ◌^◌, IfOk, IfSome, length};
ghost use Rattle.elf_abi.specs.Values.{sht_note, sht_rel, sht_rela, sht_strtab};
ghost use Rattle.elf_parts.specs.Note.{notes_left};
ghost use Rattle.elf_records.specs.StringTable.{strings_view};
ghost use Rattle.elf.specs.Answers.{relas_left, rels_left, section_data_as_notes};
ghost use Rattle.elf.specs.Data.{content, section_data};
ghost use Rattle.elf_reading.specs.Leading.{data_view};
ghost use Rattle.elf.specs.Answers.{section_data_as_relas, section_data_as_rels, section_data_as_strtab};
ghost use Rattle.elf.specs.Ranges.{section_ranges, typed_section_ranges};
ghost use Rattle.elf.specs.inner.Loads.{Loads};

use super::ElfStream;
use crate::read_error::given;
use crate::reader;
use elf_abi::abi;
use elf_parts::compression::CompressionHeader;
use elf_parts::endian::EndianParse;
use elf_parts::note::NoteIterator;
use elf_parts::parse::ParseError;
use elf_parts::relocation::{RelIterator, RelaIterator};
use elf_parts::section::SectionHeader;
use elf_parts::string_table::StringTable;
use elf_reading::source::StreamSource;
use std::alloc::Allocator;

impl<E: EndianParse, S: StreamSource, A: Allocator + Copy> ElfStream<E, S, A> {
    ghost use Rattle.std.specs.Borrow.{sem};
    ghost use Rattle.elf.specs.Lending.{Lends};

    // Reads the range of a section into the cache, if the section has bytes.
    pub(super) fn load_section_data(&mut self, shdr: &SectionHeader) -> Result<(), ParseError>
        ensures { Loads (section_ranges shdr.now) self.old self.new result }
    {
        if shdr.sh_type == abi::SHT_NOBITS {
            return Ok(());
        }
        self.load_section(shdr)
    }

    /// Returns the bytes of a section, and its compression header if its flags have `SHF_COMPRESSED` (gABI, chapter
    /// "Sections", "Section Compression"). The bytes are then those after that header; nothing is decompressed.
    /// Requests the range of the section. A section of type `SHT_NOBITS` has no bytes, and its range is not requested.
    ///
    /// Errors, in order: that of the range; `SliceReadError((start, end))`, in bytes from the start of the section, of
    /// the first number of the compression header that does not lie in the section.
    ///
    /// ```rust
    /// // `copied` ends the borrow of the stream, so that it can be called again.
    /// if let Some(section) = stream.section_header_by_name(".interp")?.copied() {
    ///     let (interpreter, _) = stream.section_data(&section)?;
    ///     println!(rt; "{} bytes", interpreter.len())?;
    /// }
    /// ```
    pub fn section_data(
        &mut self,
        shdr: &SectionHeader,
    ) -> Result<(&[u8], Option<CompressionHeader>), ParseError>
        ensures* leaves { sem 𝓛 (Lends E.row S.row A.row E.EndianParse S.StreamSource A.Allocator self.entry
            (λ _. section_ranges shdr.now) data_view (λ file. section_data file shdr.now) result) }
    {
        self.load_section_data(shdr)?;
        self.is_part_of_file();
        given(reader::section_data(&*self, shdr))
    }

    // Reads the range of a section into the cache, if the section has a given type and bytes.
    fn load_typed(&mut self, shdr: &SectionHeader, sh_type: u32) -> Result<(), ParseError>
        ensures { Loads (typed_section_ranges sh_type shdr.now) self.old self.new result }
    {
        if shdr.sh_type != sh_type {
            return Ok(());
        }
        self.load_section_data(shdr)
    }

    /// Returns the strings of a section of type `SHT_STRTAB` (gABI, chapter "String Table"). Requests the range that
    /// `section_data` requests.
    ///
    /// Errors, in order: `UnexpectedSectionType((found, expected))` for any other type, with no range requested; those
    /// of `section_data`.
    pub fn section_data_as_strtab(
        &mut self,
        shdr: &SectionHeader,
    ) -> Result<StringTable<'_>, ParseError>
        ensures* leaves { sem 𝓛 (Lends E.row S.row A.row E.EndianParse S.StreamSource A.Allocator self.entry
            (λ _. typed_section_ranges sht_strtab shdr.now) strings_view
            (λ file. section_data_as_strtab file shdr.now) result) }
    {
        self.load_typed(shdr, abi::SHT_STRTAB)?;
        self.is_part_of_file();
        given(reader::section_data_as_strtab(&*self, shdr))
    }

    /// Returns an iterator over the relocations of a section of type `SHT_REL` (gABI, chapter "Relocation"). It ends at
    /// the first one that cannot be read, and yields at most one for each byte of the section. Requests the range that
    /// `section_data` requests.
    ///
    /// Errors, in order: `UnexpectedSectionType((found, expected))` for any other type, with no range requested; those
    /// of `section_data`.
    pub fn section_data_as_rels(
        &mut self,
        shdr: &SectionHeader,
    ) -> Result<RelIterator<'_, E>, ParseError>
        ensures* leaves { sem 𝓛 (Lends E.row S.row A.row E.EndianParse S.StreamSource A.Allocator self.entry
            (λ _. typed_section_ranges sht_rel shdr.now) rels_left
            (λ file. section_data_as_rels file shdr.now) result) }
        ensures few { IfOk result (λ rels.
            IfSome self.old.content (λ bytes. length (rels_left rels) ≤ length bytes)) }
        ensures size { IfOk result (λ rels. length (rels_left rels) ≤ shdr.now.sh_size) }
        ensures bound { IfOk result (λ rels. length (rels_left rels) < 2 ^ 64) }
    {
        self.load_typed(shdr, abi::SHT_REL)?;
        self.is_part_of_file();
        given(reader::section_data_as_rels(&*self, shdr))
    }

    /// Returns an iterator over the relocations of a section of type `SHT_RELA` (gABI, chapter "Relocation"). It ends
    /// at the first one that cannot be read, and yields at most one for each byte of the section. Requests the range
    /// that `section_data` requests.
    ///
    /// Errors, in order: `UnexpectedSectionType((found, expected))` for any other type, with no range requested; those
    /// of `section_data`.
    pub fn section_data_as_relas(
        &mut self,
        shdr: &SectionHeader,
    ) -> Result<RelaIterator<'_, E>, ParseError>
        ensures* leaves { sem 𝓛 (Lends E.row S.row A.row E.EndianParse S.StreamSource A.Allocator self.entry
            (λ _. typed_section_ranges sht_rela shdr.now) relas_left
            (λ file. section_data_as_relas file shdr.now) result) }
        ensures few { IfOk result (λ relas.
            IfSome self.old.content (λ bytes. length (relas_left relas) ≤ length bytes)) }
        ensures size { IfOk result (λ relas. length (relas_left relas) ≤ shdr.now.sh_size) }
        ensures bound { IfOk result (λ relas. length (relas_left relas) < 2 ^ 64) }
    {
        self.load_typed(shdr, abi::SHT_RELA)?;
        self.is_part_of_file();
        given(reader::section_data_as_relas(&*self, shdr))
    }

    /// Returns an iterator over the notes of a section of type `SHT_NOTE`, aligned to `sh_addralign` bytes (gABI,
    /// chapter "Program Header", "Note Section"). It ends at the first note that does not fit, and yields at most one
    /// for each byte of the section. Requests the range that `section_data` requests.
    ///
    /// Errors, in order: `UnexpectedSectionType((found, expected))` for any other type, with no range requested; those
    /// of `section_data`.
    pub fn section_data_as_notes(
        &mut self,
        shdr: &SectionHeader,
    ) -> Result<NoteIterator<'_, E>, ParseError>
        ensures* leaves { sem 𝓛 (Lends E.row S.row A.row E.EndianParse S.StreamSource A.Allocator self.entry
            (λ _. typed_section_ranges sht_note shdr.now) notes_left
            (λ file. section_data_as_notes file shdr.now) result) }
        ensures few { IfOk result (λ notes.
            IfSome self.old.content (λ bytes. length (notes_left notes) ≤ length bytes)) }
        ensures size { IfOk result (λ notes. length (notes_left notes) ≤ shdr.now.sh_size) }
        ensures bound { IfOk result (λ notes. length (notes_left notes) < 2 ^ 64) }
    {
        self.load_typed(shdr, abi::SHT_NOTE)?;
        self.is_part_of_file();
        given(reader::section_data_as_notes(&*self, shdr))
    }
}
