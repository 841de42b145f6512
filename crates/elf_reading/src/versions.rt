//! The sections with the versions of symbols (GNU symbol versioning).
ghost use Rattle.std.specs.Prelude.{◌≡◌, ◌&&◌, Some, is_some};
ghost use Rattle.elf_records.specs.Clones.{ClonesExactly};
ghost use Rattle.elf_records.specs.Table.{table_view};
ghost use Rattle.elf_reading.specs.Opening.{section_list};
ghost use Rattle.elf_reading.specs.Versions.{version_sections};

use elf_abi::abi;
use elf_records::endian::EndianParse;
use elf_records::section::{SectionHeader, SectionHeaderTable};

/// The sections with the versions of symbols.
#[derive(Copy, Clone)]
pub struct VersionSections {
    /// The version indexes of the symbols (`SHT_GNU_VERSYM`).
    pub indexes: Option<SectionHeader>,
    /// The versions that are needed of other files (`SHT_GNU_VERNEED`).
    pub needs: Option<SectionHeader>,
    /// The versions that the file defines (`SHT_GNU_VERDEF`).
    pub definitions: Option<SectionHeader>,
}

/// The clone of version sections is the same value, and cloning it cannot fail.
pub fn clones_of_version_sections()
    ensures { ClonesExactly ⟦<VersionSections as Clone>⟧.is_clone ⟦<VersionSections as Clone>⟧.is_infallible }
{}

impl VersionSections {
    ghost use Rattle.elf_reading.specs.Versions.{no_version_sections, with_version_section};

    /// No sections.
    pub fn none() -> Self
        ensures { result ≡ no_version_sections }
    {
        VersionSections {
            indexes: None,
            needs: None,
            definitions: None,
        }
    }

    /// Adds a section, which replaces an earlier one of its type.
    pub fn with(mut self, shdr: SectionHeader) -> Self
        ensures { result ≡ with_version_section self shdr }
    {
        match shdr.sh_type {
            abi::SHT_GNU_VERSYM => self.indexes = Some(shdr),
            abi::SHT_GNU_VERNEED => self.needs = Some(shdr),
            abi::SHT_GNU_VERDEF => self.definitions = Some(shdr),
            _ => {}
        }
        self
    }

    /// Whether there are sections of all three types.
    pub fn are_all(&self) -> bool
        ensures { result ≡ (is_some self.now.indexes && is_some self.now.needs && is_some self.now.definitions) }
    {
        self.indexes.is_some() && self.needs.is_some() && self.definitions.is_some()
    }
}

/// The last sections of a table of the three types of version sections, up to the first section that completes the
/// three.
#[tactic(auto, using(crate::proofs::VersionChoice::found_in_all))]
pub fn version_sections_of_table<E: EndianParse>(
    shdrs: SectionHeaderTable<'_, E>,
) -> VersionSections
    ensures { result ≡ version_sections (section_list (Some (table_view shdrs.entry))) }
{
    let mut found = VersionSections::none();
    for shdr in shdrs {
        found = found.with(shdr);
        if found.are_all() {
            return found;
        }
    }
    found
}

/// The last sections of a list of the three types of version sections, up to the first section that completes the
/// three.
#[tactic(auto, using(crate::proofs::VersionChoice::found_in_all))]
pub fn version_sections_of_list(shdrs: &[SectionHeader]) -> VersionSections
    ensures { result ≡ version_sections shdrs.now }
{
    let mut found = VersionSections::none();
    for shdr in shdrs {
        found = found.with(*shdr);
        if found.are_all() {
            return found;
        }
    }
    found
}
