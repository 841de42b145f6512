//! The names of sections.
ghost use Rattle.std.specs.Prelude.{◌≡◌, IfErr, Some, option_copied};
ghost use Rattle.elf_records.specs.Number.{ok_map};
ghost use Rattle.elf.specs.Answers.{first_named, section_header_by_name};
ghost use Rattle.elf.specs.Ranges.{headers_alone, names_ranges};
ghost use Rattle.elf.specs.inner.Loads.{Loads};
ghost use Rattle.elf.specs.Loaded.{loaded_ranges, streamed_file};
ghost use Rattle.elf.specs.Parts.{IsPlain, loaded};
ghost use Rattle.elf.specs.Names.{headers_with_names};

use super::ElfStream;
use crate::headers::{Headers, first_named_in};
use crate::read_error::{ReadError, given};
use crate::reader;
use elf_parts::endian::EndianParse;
use elf_parts::parse::ParseError;
use elf_parts::section::SectionHeader;
use elf_parts::string_table::{StringTable, TerminatedStrings};
use elf_reading::source::StreamSource;
use std::alloc::Allocator;

impl<E: EndianParse, S: StreamSource, A: Allocator + Copy> ElfStream<E, S, A> {
    ghost use Rattle.std.specs.Borrow.{sem};
    ghost use Rattle.elf.specs.Lending.{Lends};
    ghost use Rattle.elf.specs.Names.{listed_view};

    // Reads the range of the names of the sections into the cache, if there are any.
    #[tactic(auto, unfolding(crate::specs::Names::name_section))]
    fn load_names(&mut self) -> Result<(), ParseError>
        ensures { Loads (names_ranges (headers_alone E.little self.old)) self.old self.new result }
    {
        match self.name_section() {
            Ok(Some(names)) => self.load_section(&names),
            _ => Ok(()),
        }
    }

    // The section headers, and their names, whose range is to be cached.
    fn headers_and_names(
        &self,
    ) -> Result<(&Vec<SectionHeader, A>, Option<StringTable<'_>>), ReadError>
        ensures value { ok_map listed_view result
            ≡ headers_with_names (loaded (streamed_file E.little self.now) (loaded_ranges self.now)) }
        ensures plain { IfErr result IsPlain }
    {
        let names = reader::section_names(self)?;
        Ok((self.section_headers(), names))
    }

    /// Returns the section headers, and the table of their names (gABI, chapters "Sections" and "String Table"). The
    /// names are those of section `e_shstrndx` or, if that is `SHN_XINDEX`, of the section that `sh_link` of section 0
    /// names. There is no table of names if the file declares no section headers or if `e_shstrndx` is `SHN_UNDEF`.
    /// Requests the range of the section of the names.
    ///
    /// Errors, in order: `BadOffset(0)` if `e_shstrndx` is `SHN_XINDEX` and there is no section 0; `BadOffset(index)`
    /// if there is no section of the names with this index; that of the range.
    pub fn section_headers_with_strtab(
        &mut self,
    ) -> Result<(&Vec<SectionHeader, A>, Option<StringTable<'_>>), ParseError>
        ensures* leaves { sem 𝓛 (Lends E.row S.row A.row E.EndianParse S.StreamSource A.Allocator self.entry
            names_ranges listed_view headers_with_names result) }
    {
        self.load_names()?;
        self.is_part_of_file();
        given(self.headers_and_names())
    }

    // The first section with a name. The range of the names is to be cached.
    fn named_header(&self, name: &str) -> Result<Option<&SectionHeader>, ReadError>
        ensures value { ok_map option_copied result
            ≡ section_header_by_name (loaded (streamed_file E.little self.now) (loaded_ranges self.now)) name.now }
        ensures plain { IfErr result IsPlain }
    {
        let Some(names) = reader::section_names(self)? else {
            return Ok(None);
        };
        let names = TerminatedStrings::new(&names);
        Ok(first_named_in(&self.shdrs, &names, name.as_bytes()))
    }

    /// Returns the first section whose name has exactly the bytes of `name`. A section whose name cannot be read is
    /// skipped. Returns `None` if no section has the name, or if there is no table of names. Range and errors are those
    /// of `section_headers_with_strtab`.
    ///
    /// ```rust
    /// if let Some(section) = stream.section_header_by_name(".text")? {
    ///     println!(rt; "{} bytes at {:#x}", section.sh_size, section.sh_addr)?;
    /// }
    /// ```
    pub fn section_header_by_name(
        &mut self,
        name: &str,
    ) -> Result<Option<&SectionHeader>, ParseError>
        ensures* leaves { sem 𝓛 (Lends E.row S.row A.row E.EndianParse S.StreamSource A.Allocator self.entry
            names_ranges option_copied (λ file. section_header_by_name file name.now) result) }
    {
        self.load_names()?;
        self.is_part_of_file();
        given(self.named_header(name))
    }
}
