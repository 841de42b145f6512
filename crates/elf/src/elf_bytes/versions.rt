//! The versions of symbols (GNU symbol versioning).
ghost use Rattle.std.specs.Prelude.{◌≡◌};
ghost use Rattle.std.specs.Option.{option_map};
ghost use Rattle.elf_records.specs.Number.{ok_map};
ghost use Rattle.elf_parts.specs.gnu_symver.Lists.{entries_in, entries_left};
ghost use Rattle.elf_parts.specs.gnu_symver.Table.{entries_view, versions_view};
ghost use Rattle.elf_records.specs.Table.{table_view};
ghost use Rattle.elf.specs.Answers.{symbol_version_table};
ghost use Rattle.elf.specs.Headers.{if_found};
ghost use Rattle.elf.specs.ObjectFile.{object_file};
ghost use Rattle.elf.specs.ElfBytes.{view};
ghost use Rattle.elf.specs.Versions.{linked_strings, version_entries, version_indexes, versions_of};

use super::ElfBytes;
use crate::headers::{Headers, VersionSections};
use elf_parts::endian::EndianParse;
use elf_parts::gnu_symver::links::VersionEntry;
use elf_parts::gnu_symver::{
    EntriesWithStrings, EntryIterator, SymbolVersionTable, VerDef, VerNeed, VersionIndex,
    VersionIndexTable,
};
use elf_parts::parse::{ParseAt, ParseError};
use elf_parts::section::SectionHeader;
use elf_parts::string_table::StringTable;

impl<'data, E: EndianParse> ElfBytes<'data, E> {
    // The version indexes of a section.
    fn version_indexes(
        &self,
        shdr: &SectionHeader,
    ) -> Result<VersionIndexTable<'data, E>, ParseError>
        ensures { ok_map table_view result ≡ version_indexes (object_file E.little (view self.now)) shdr.now }
    {
        VersionIndex::validate_entsize(self.ehdr.class, shdr.sh_entsize as usize)?;
        let bytes = self.section_range(shdr)?;
        Ok(VersionIndexTable::new(self.ehdr.endianness, self.ehdr.class, bytes))
    }

    // The bytes of the section that `sh_link` names.
    fn linked_strings(&self, shdr: &SectionHeader) -> Result<&'data [u8], ParseError>
        ensures { ok_map (λ bytes. bytes.now) result
            ≡ linked_strings (object_file E.little (view self.now)) shdr.now }
    {
        let linked = self.section_at(shdr.sh_link as usize)?;
        self.section_range(&linked)
    }

    // The entries of a section, with their strings.
    fn version_entries<V: VersionEntry>(
        &self,
        shdr: &SectionHeader,
    ) -> Result<EntriesWithStrings<'data, E, V>, ParseError>
        ensures { ok_map (entries_view (entries_left V.reads.record_at V.next_distance V.with_aux)) result
            ≡ version_entries (entries_in V.reads.record_at V.next_distance V.with_aux)
            (object_file E.little (view self.now)) shdr.now }
    {
        let bytes = self.section_range(shdr)?;
        let strings = self.linked_strings(shdr)?;
        let entries = EntryIterator::new(
            self.ehdr.endianness,
            self.ehdr.class,
            shdr.sh_info as u64,
            0,
            bytes,
        );
        Ok((entries, StringTable::new(strings)))
    }

    // The entries of a section with their strings, or `None` if there is no section.
    fn version_entries_if<V: VersionEntry>(
        &self,
        shdr: Option<SectionHeader>,
    ) -> Result<Option<EntriesWithStrings<'data, E, V>>, ParseError>
        ensures { ok_map (option_map (entries_view (entries_left V.reads.record_at V.next_distance V.with_aux))) result
            ≡ if_found (version_entries (entries_in V.reads.record_at V.next_distance V.with_aux)
            (object_file E.little (view self.now))) shdr }
    {
        match shdr {
            Some(shdr) => self.version_entries::<V>(&shdr).map(Some),
            None => Ok(None),
        }
    }

    // The version table with the indexes of a section, and with the needs and the definitions if there are any.
    fn versions_of(
        &self,
        chosen: VersionSections,
        shdr: &SectionHeader,
    ) -> Result<SymbolVersionTable<'data, E>, ParseError>
        ensures { ok_map versions_view result
            ≡ versions_of (object_file E.little (view self.now)) chosen shdr.now }
    {
        let indexes = self.version_indexes(shdr)?;
        let needs = self.version_entries_if::<VerNeed>(chosen.needs)?;
        let definitions = self.version_entries_if::<VerDef>(chosen.definitions)?;
        Ok(SymbolVersionTable::new(indexes, needs, definitions))
    }

    /// Returns the versions of the symbols (GNU symbol versioning), or `None` if there is no section of type
    /// `SHT_GNU_VERSYM`. The version indexes, the needs and the definitions come from the last sections of the types
    /// `SHT_GNU_VERSYM`, `SHT_GNU_VERNEED` and `SHT_GNU_VERDEF`. If all three types exist, sections after the first
    /// one that completes the three do not count.
    ///
    /// Errors, in order: `BadEntsize((found, 2))` of the indexes; `IntegerOverflow` or `SliceReadError((start, end))`
    /// if the range of the indexes does not lie in the file; the same for the range of the needs; that of
    /// `ParsingTable::get` for the section header that their `sh_link` names; that of the range of their strings; the
    /// last three for the definitions.
    ///
    /// ```rust
    /// if let Some(versions) = file.symbol_version_table()? {
    ///     println!(rt; "versions of {} symbols", versions.indexes().len())?;
    /// }
    /// ```
    pub fn symbol_version_table(&self) -> Result<Option<SymbolVersionTable<'data, E>>, ParseError>
        ensures { ok_map (option_map versions_view) result
            ≡ symbol_version_table (object_file E.little (view self.now)) }
    {
        let chosen = self.version_sections();
        match chosen.indexes {
            Some(shdr) => self.versions_of(chosen, &shdr).map(Some),
            None => Ok(None),
        }
    }
}
