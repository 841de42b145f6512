//! The dynamic entries.
ghost use Rattle.std.specs.Prelude.{◌≡◌};
ghost use Rattle.std.specs.Option.{option_map};
ghost use Rattle.elf_records.specs.Number.{ok_map};
ghost use Rattle.elf_records.specs.Table.{table_view};
ghost use Rattle.elf.specs.Answers.{dynamic, section_dynamic, segment_dynamic};
ghost use Rattle.elf.specs.ObjectFile.{object_file};
ghost use Rattle.elf.specs.ElfBytes.{view};

use super::ElfBytes;
use crate::headers::Headers;
use elf_abi::abi;
use elf_parts::dynamic::{Dyn, DynamicTable};
use elf_parts::endian::EndianParse;
use elf_parts::parse::{ParseAt, ParseError};
use elf_parts::section::SectionHeader;
use elf_parts::segment::ProgramHeader;

impl<'data, E: EndianParse> ElfBytes<'data, E> {
    // The dynamic entries of a section.
    pub(super) fn section_dynamic(
        &self,
        shdr: &SectionHeader,
    ) -> Result<DynamicTable<'data, E>, ParseError>
        ensures { ok_map table_view result ≡ section_dynamic (object_file E.little (view self.now)) shdr.now }
    {
        Dyn::validate_entsize(self.ehdr.class, shdr.sh_entsize as usize)?;
        let (bytes, _) = self.section_data(shdr)?;
        Ok(DynamicTable::new(self.ehdr.endianness, self.ehdr.class, bytes))
    }

    // The dynamic entries of a segment.
    pub(super) fn segment_dynamic(
        &self,
        phdr: &ProgramHeader,
    ) -> Result<DynamicTable<'data, E>, ParseError>
        ensures { ok_map table_view result ≡ segment_dynamic (object_file E.little (view self.now)) phdr.now }
    {
        let bytes = self.segment_data(phdr)?;
        Ok(DynamicTable::new(self.ehdr.endianness, self.ehdr.class, bytes))
    }

    /// Returns the dynamic entries (gABI, chapter "Dynamic Section"). If the file declares section headers, they are
    /// those of the first section of type `SHT_DYNAMIC`; otherwise those of the first segment of type `PT_DYNAMIC`.
    /// Returns `None` if there is no such section or segment.
    ///
    /// Errors of a section, in order: `BadEntsize((found, expected))` if `sh_entsize` is not the size of an entry;
    /// those of `section_data`. Errors of a segment: those of `segment_data`.
    ///
    /// ```rust
    /// if let Some(entries) = file.dynamic()? {
    ///     for entry in entries {
    ///         println!(rt; "tag {}, value {:#x}", entry.d_tag, entry.d_val())?;
    ///     }
    /// }
    /// ```
    pub fn dynamic(&self) -> Result<Option<DynamicTable<'data, E>>, ParseError>
        ensures { ok_map (option_map table_view) result ≡ dynamic (object_file E.little (view self.now)) }
    {
        if self.declares_sections() {
            match self.first_section_of(abi::SHT_DYNAMIC) {
                Some(shdr) => self.section_dynamic(&shdr).map(Some),
                None => Ok(None),
            }
        } else {
            match self.first_segment_of(abi::PT_DYNAMIC) {
                Some(phdr) => self.segment_dynamic(&phdr).map(Some),
                None => Ok(None),
            }
        }
    }
}
