//! The versions of symbols (GNU symbol versioning).
ghost use Rattle.std.specs.Prelude.{◌≡◌, IfErr, Ok};
ghost use Rattle.elf.specs.Answers.{symbol_version_table};
ghost use Rattle.elf.specs.Ranges.{headers_alone, both_sections, if_there, plan_ranges, version_plan};
ghost use Rattle.elf.specs.Ranges.{versions_ranges, with_link};
ghost use Rattle.elf_reading.specs.Refusals.{Kind, kind};
ghost use Rattle.elf.specs.inner.Loads.{Loads};
ghost use Rattle.elf.specs.Headers.{if_found};
ghost use Rattle.std.specs.Option.{option_map};
ghost use Rattle.elf_parts.specs.gnu_symver.Table.{versions_view};

use super::ElfStream;
use crate::headers::{Headers, LinkedSections};
use crate::read_error::given;
use crate::reader;
use elf_parts::endian::EndianParse;
use elf_parts::gnu_symver::{
    EntriesWithStrings, EntryIterator, SymbolVersionTable, VerDef, VerNeed, VersionIndex,
    VersionIndexTable,
};
use elf_parts::parse::{ParseAt, ParseError};
use elf_parts::section::SectionHeader;
use elf_reading::source::StreamSource;
use std::alloc::Allocator;

// The section of the version indexes, that of the needs and that of the definitions, the last two with the sections of
// their strings.
type VersionPlan = (
    SectionHeader,
    Option<LinkedSections>,
    Option<LinkedSections>,
);

impl<E: EndianParse, S: StreamSource, A: Allocator + Copy> ElfStream<E, S, A> {
    ghost use Rattle.std.specs.Borrow.{sem};
    ghost use Rattle.elf.specs.Lending.{Lends};

    // A section and the section that its `sh_link` names, or `None` if there is no section.
    fn link_if(&self, shdr: Option<SectionHeader>) -> Result<Option<LinkedSections>, ParseError>
        ensures value { result ≡ if_found (with_link (headers_alone E.little self.now)) shdr }
        ensures plain { IfErr result (λ e. kind e ≡ Kind.Refusal) }
    {
        let Some(shdr) = shdr else {
            return Ok(None);
        };
        let linked = self.section_at(shdr.sh_link as usize)?;
        Ok(Some((shdr, linked)))
    }

    // The sections with the versions.
    fn version_plan(&self) -> Result<Option<VersionPlan>, ParseError>
        ensures value { result ≡ version_plan (headers_alone E.little self.now) }
        ensures plain { IfErr result (λ e. kind e ≡ Kind.Refusal) }
    {
        let chosen = self.version_sections();
        let Some(shdr) = chosen.indexes else {
            return Ok(None);
        };
        VersionIndex::validate_entsize(self.ehdr.class, shdr.sh_entsize as usize)?;
        let needs = self.link_if(chosen.needs)?;
        let definitions = self.link_if(chosen.definitions)?;
        Ok(Some((shdr, needs, definitions)))
    }

    // Reads the ranges of two sections into the cache, if there are any.
    fn load_both_if(&mut self, linked: Option<LinkedSections>) -> Result<(), ParseError>
        ensures { Loads (if_there both_sections linked) self.old self.new result }
    {
        match linked {
            Some((shdr, linked)) => self.load_both(&shdr, &linked),
            None => Ok(()),
        }
    }

    // Reads the ranges of up to five sections into the cache.
    fn load_plan(&mut self, plan: Option<VersionPlan>) -> Result<(), ParseError>
        ensures { Loads (if_there plan_ranges plan) self.old self.new result }
    {
        let Some((shdr, needs, definitions)) = plan else {
            return Ok(());
        };
        self.load_section(&shdr)?;
        self.load_both_if(needs)?;
        self.load_both_if(definitions)
    }

    /// Returns the versions of the symbols (GNU symbol versioning), or `None` if there is no section of type
    /// `SHT_GNU_VERSYM`. The version indexes, the needs and the definitions come from the last sections of the types
    /// `SHT_GNU_VERSYM`, `SHT_GNU_VERNEED` and `SHT_GNU_VERDEF`. If all three types exist, sections after the first
    /// one that completes the three do not count. Requests the ranges of these sections and of the sections of their
    /// strings, up to five.
    ///
    /// Errors, in order: `BadEntsize((found, 2))` of the indexes; `BadOffset(sh_link)` if the needs name no section of
    /// strings; the same for the definitions; those of the ranges of the indexes, of the needs, of their strings, of
    /// the definitions, and of their strings.
    pub fn symbol_version_table(&mut self) -> Result<Option<SymbolVersionTable<'_, E>>, ParseError>
        ensures* leaves { sem 𝓛 (Lends E.row S.row A.row E.EndianParse S.StreamSource A.Allocator self.entry
            versions_ranges (option_map versions_view) symbol_version_table result) }
    {
        let plan = self.version_plan()?;
        self.load_plan(plan)?;
        self.is_part_of_file();
        given(reader::symbol_version_table(&*self))
    }
}
