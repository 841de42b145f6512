//! Versions that were checked.
ghost use Rattle.std.specs.Prelude.{◌≡◌, ◌<◌, ◌↔◌, ℕ, IsOk, Ok, IfSome, IsErr, IsSome, MatchOption};
ghost use Rattle.std.specs.List.{AllByRecursion};
ghost use Rattle.std.specs.Option.{IsSomeAnd, option_map};
ghost use Rattle.std.specs.Result.{IsOkAnd};
ghost use Rattle.elf_records.specs.Table.{table_len};
ghost use Rattle.elf_parts.specs.gnu_symver.Records.{version_index_reads};
ghost use Rattle.elf_parts.specs.gnu_symver.Table.{GivesTexts, definition_view, index_of, versions_view};
ghost use Rattle.elf_check.specs.versions.Records.{IsText};
ghost use Rattle.elf_parts.specs.gnu_symver.VersionEntry.{defined_with, required_with};
ghost use Rattle.elf_check.specs.versions.Indexes.{SoundVersionTable, checked_version};
ghost use Rattle.elf_check.specs.inner.VersionProps.{SoundVersionTable-prop};

use super::names::WholeNames;
use elf::endian::EndianParse;
use elf::gnu_symver::{SymbolDefinition, SymbolRequirement, SymbolVersionTable, VersionIndex};

/// The version of a symbol.
#[derive(Debug, Drop)]
pub enum WholeVersion<'data, E: EndianParse> {
    /// The symbol is local: its index is 0.
    Local,
    /// The symbol has no version: its index is 1.
    Global,
    /// The version that another file must have.
    Required(SymbolRequirement<'data>),
    /// The version with which the symbol is defined. Each of its names is text.
    Defined(WholeDefinition<'data, E>),
}

/// The version with which a symbol is defined: its hash, its flags and its names, and whether the symbol's version
/// index is hidden.
#[derive(Debug, Drop)]
pub struct WholeDefinition<'data, E: EndianParse> {
    pub hash: u32,
    pub flags: u16,
    pub names: WholeNames<'data, E>,
    pub hidden: bool,
}

impl<'data, E: EndianParse> WholeDefinition<'data, E> {
    ghost use Rattle.elf_check.specs.versions.Views.{ShowsDefinition};

    // The same definition, with names that are all text.
    fn new(found: SymbolDefinition<'data, E>) -> Self
        requires { AllByRecursion IsText (definition_view found).names }
        ensures { ShowsDefinition (definition_view found.entry) result }
    {
        WholeDefinition {
            hash: found.hash,
            flags: found.flags,
            names: WholeNames::new(found.names),
            hidden: found.hidden,
        }
    }
}

/// The versions of the symbols of a file that was checked: each symbol has one, and all names are text.
#[derive(Debug, Drop)]
pub struct WholeVersions<'data, E: EndianParse> {
    table: SymbolVersionTable<'data, E>,
    ghost sound: { SoundVersionTable (versions_view table) } by { SoundVersionTable-prop (versions_view table) },
}

impl<'data, E: EndianParse> WholeVersions<'data, E> {
    ghost use Rattle.elf_check.specs.versions.Views.{Shows, whole_versions};

    // The versions of a table that is sound.
    pub(super) fn new(table: SymbolVersionTable<'data, E>) -> Self
        requires { SoundVersionTable (versions_view table) }
        ensures { whole_versions result ≡ versions_view table.entry }
    {
        WholeVersions { table }
    }

    /// How many symbols there are.
    pub fn len(&self) -> usize
        ensures count { result ≡ table_len version_index_reads (whole_versions self.now).indexes }
        ensures readable { (i : ℕ) → IsOk (index_of (whole_versions self.now) i) ↔ (i < result) }
    {
        let indexes = self.table.indexes();
        indexes.len()
    }

    // What a symbol is defined with.
    fn defined(&self, symbol: usize, index: &VersionIndex) -> Option<SymbolDefinition<'_, E>>
        requires { index_of (whole_versions self.now) symbol ≡ Ok index.now }
        ensures value { option_map definition_view result
            ≡ defined_with (whole_versions self.now).definitions index.now }
        ensures names { IfSome result (λ found. AllByRecursion IsText (definition_view found).names) }
    {
        self.table.get_definition(symbol).unwrap()
    }

    // What a symbol needs of another file.
    fn required(&self, symbol: usize, index: &VersionIndex) -> SymbolRequirement<'_>
        requires here { index_of (whole_versions self.now) symbol ≡ Ok index.now }
        requires some { IsSome (required_with (whole_versions self.now).needs index.now) }
        ensures { IsSomeAnd (required_with (whole_versions self.now).needs index.now) (λ r. GivesTexts r (Ok result)) }
    {
        self.table.get_requirement(symbol).unwrap().unwrap()
    }

    /// The version of a symbol, counted from 0, or `None` exactly if there is no such symbol.
    pub fn get(&self, symbol: usize) -> Option<WholeVersion<'_, E>>
        ensures { MatchOption result (IsErr (index_of (whole_versions self.now) symbol)) (λ shown.
            IsOkAnd (checked_version (whole_versions self.now) symbol) (λ found. IsSomeAnd found (λ version. Shows
            version shown))) }
    {
        let Ok(index) = self.table.get_index(symbol) else {
            return None;
        };
        match index.index() {
            0 => Some(WholeVersion::Local),
            1 => Some(WholeVersion::Global),
            _ => match self.defined(symbol, &index) {
                Some(defined) => Some(WholeVersion::Defined(WholeDefinition::new(defined))),
                None => Some(WholeVersion::Required(self.required(symbol, &index))),
            },
        }
    }
}
