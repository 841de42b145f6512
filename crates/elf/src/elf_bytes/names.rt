//! The names of sections.
ghost use Rattle.std.specs.Prelude.{◌≡◌};
ghost use Rattle.elf_records.specs.Number.{ok_map};
ghost use Rattle.elf.specs.Answers.{section_header_by_name};
ghost use Rattle.elf.specs.Names.{beside, name_table, named_view};
ghost use Rattle.elf.specs.ObjectFile.{object_file};
ghost use Rattle.elf.specs.ElfBytes.{view};

use super::ElfBytes;
use crate::headers::{Headers, first_named};
use elf_parts::endian::EndianParse;
use elf_parts::parse::ParseError;
use elf_parts::section::{SectionHeader, SectionHeaderTable};
use elf_parts::string_table::{StringTable, TerminatedStrings};

impl<'data, E: EndianParse> ElfBytes<'data, E> {
    /// Returns the section headers, or `None` if the file declares none, and the table of their names (gABI, chapters
    /// "Sections" and "String Table"). The names are those of section `e_shstrndx` or, if that is `SHN_XINDEX`, of the
    /// section that `sh_link` of section 0 names. There is no table of names if the file declares no section headers or
    /// if `e_shstrndx` is `SHN_UNDEF`.
    ///
    /// Errors, in order: that of `ParsingTable::get` for section header 0, if `e_shstrndx` is `SHN_XINDEX`; that of
    /// `ParsingTable::get` for the section of the names; `IntegerOverflow` or `SliceReadError((start, end))` if the
    /// range of that section does not lie in the file.
    ///
    /// ```rust
    /// if let (Some(sections), Some(names)) = file.section_headers_with_strtab()? {
    ///     for section in sections {
    ///         println!(rt; "{}", names.get(section.sh_name as usize)?)?;
    ///     }
    /// }
    /// ```
    #[tactic(auto, unfolding(crate::specs::Names::name_table))]
    pub fn section_headers_with_strtab(
        &self,
    ) -> Result<
        (
            Option<SectionHeaderTable<'data, E>>,
            Option<StringTable<'data>>,
        ),
        ParseError,
    >
        ensures { ok_map named_view result
            ≡ ok_map (beside (view self.now).sections) (name_table (object_file E.little (view self.now))) }
    {
        let Some(names) = self.name_section()? else {
            return Ok((self.shdrs, None));
        };
        let bytes = self.section_range(&names)?;
        Ok((self.shdrs, Some(StringTable::new(bytes))))
    }

    /// Returns the first section whose name has exactly the bytes of `name`. A section whose name cannot be read is
    /// skipped. Returns `None` if no section has the name, or if there is no table of names. The errors are those of
    /// `section_headers_with_strtab`.
    ///
    /// ```rust
    /// if let Some(section) = file.section_header_by_name(".text")? {
    ///     println!(rt; "{} bytes at {:#x}", section.sh_size, section.sh_addr)?;
    /// }
    /// ```
    pub fn section_header_by_name(&self, name: &str) -> Result<Option<SectionHeader>, ParseError>
        ensures { result ≡ section_header_by_name (object_file E.little (view self.now)) name.now }
    {
        let (Some(shdrs), Some(names)) = self.section_headers_with_strtab()? else {
            return Ok(None);
        };
        let names = TerminatedStrings::new(&names);
        Ok(first_named(&shdrs, &names, name.as_bytes()))
    }
}
