//! The versions of the symbols of a file (GNU symbol versioning).
ghost use Rattle.std.specs.Prelude.{◌≡◌, ◌==◌, ◌<◌, ◌≤◌, ◌^◌, length};
ghost use Rattle.std.specs.Iterator.{item_count};
ghost use Rattle.std.specs.Option.{option_map};
ghost use Rattle.elf_records.specs.Number.{ok_map};
ghost use Rattle.elf_records.specs.StringTable.{strings_view};
ghost use Rattle.elf_parts.specs.gnu_symver.Table.{defined_version, definition, definition_by, definition_view};
ghost use Rattle.elf_parts.specs.gnu_symver.Table.{definitions_view, index_of, needed_entry};
ghost use Rattle.elf_parts.specs.gnu_symver.Table.{names_left, needed_version, needs_view, place_count, raw_names};
ghost use Rattle.elf_parts.specs.gnu_symver.Table.{requirement, requirement_of};
ghost use Rattle.elf_parts.specs.gnu_symver.Lists.{aux_view, ver_def_aux_left, ver_def_view, ver_defs_left};
ghost use Rattle.elf_parts.specs.gnu_symver.Lists.{ver_need_aux_left};
ghost use Rattle.elf_parts.specs.gnu_symver.Lists.{ver_needs_left};
ghost use Rattle.elf_parts.specs.gnu_symver.Table.{version_with, versions_view};
ghost use Rattle.elf_parts.specs.gnu_symver.Table.{GivesRequirement, GivesTexts, HasFewNames, YieldsName};
ghost use Rattle.elf_parts.specs.gnu_symver.Records.{version_index_reads};
ghost use Rattle.elf_records.specs.Table.{table_items, table_view};

mod indexed;
mod look_up;
mod placed;
mod walked;

use super::{
    VerDef, VerDefAuxIterator, VerDefIterator, VerNeed, VerNeedAux, VerNeedAuxIterator,
    VerNeedIterator, VersionIndex, VersionIndexTable,
};
use crate::endian::EndianParse;
use crate::parse::ParseError;
use crate::string_table::StringTable;
pub use indexed::IndexedVersions;
pub use look_up::SymbolVersions;
pub use placed::PlacedVersions;
use placed::{definition_by_places, requirement_by_places};
pub use walked::{NeedPlace, hold_needs};

/// The version of a symbol that another file must have: the name of that file, the name, the hash and the flags of
/// the version, and whether the symbol's version index is hidden.
#[derive(Debug, Drop, PartialEq, Eq)]
pub struct SymbolRequirement<'data> {
    pub file: &'data str,
    pub name: &'data str,
    pub hash: u32,
    pub flags: u16,
    pub hidden: bool,
}

/// The version with which a symbol is defined: its hash, its flags and its names, and whether the symbol's version
/// index is hidden.
#[derive(Debug, Drop)]
pub struct SymbolDefinition<'data, E: EndianParse> {
    pub hash: u32,
    pub flags: u16,
    pub names: SymbolNamesIterator<'data, E>,
    pub hidden: bool,
}

/// An iterator over the names of a version. Each is text, or an error of `StringTable::get`, which does not end the
/// iterator. After its first `None` it keeps returning `None`.
#[derive(Debug, Drop)]
pub struct SymbolNamesIterator<'data, E: EndianParse> {
    records: VerDefAuxIterator<'data, E>,
    strings: &'data StringTable<'data>,
}

impl<'data, E: EndianParse> SymbolNamesIterator<'data, E> {
    /// Returns an iterator over the names at the offsets in these records, in these strings. It yields at most one for
    /// each byte of the records' data.
    #[tactic(auto, using(crate::proofs::Versions::names_few, crate::proofs::Versions::names_counted))]
    pub fn new(records: VerDefAuxIterator<'data, E>, strings: &'data StringTable<'data>) -> Self
        ensures items { names_left result ≡ raw_names (strings_view strings.now) (ver_def_aux_left records.entry) }
        ensures few { length (names_left result) ≤ length (aux_view records.entry).bytes }
        ensures bound { length (names_left result) < 2 ^ 64 }
    {
        SymbolNamesIterator { records, strings }
    }
}

impl<'data, E: EndianParse> Iterator for SymbolNamesIterator<'data, E> {
    type Item = Result<&'data str, ParseError>;

    ghost next_gives = { YieldsName };

    ghost remaining = { item_count names_left };

    fn next(&mut self) -> Option<Result<&'data str, ParseError>> {
        let record = self.records.next()?;
        Some(self.strings.get(record.vda_name as usize))
    }
}

/// The versions of the symbols of a file. A look-up walks over the needs, or over the definitions, up to the first
/// one with the symbol's version index; `IndexedVersions` needs no walk.
#[derive(Debug, Drop)]
pub struct SymbolVersionTable<'data, E: EndianParse> {
    indexes: VersionIndexTable<'data, E>,
    needs: Option<(VerNeedIterator<'data, E>, StringTable<'data>)>,
    definitions: Option<(VerDefIterator<'data, E>, StringTable<'data>)>,
}

// The first of the versions of one file with this index.
fn version_with<E: EndianParse>(
    versions: VerNeedAuxIterator<'_, E>,
    index: u16,
) -> Option<VerNeedAux>
    ensures { result ≡ version_with index (ver_need_aux_left versions.entry) }
{
    for version in versions {
        if version.vna_other == index {
            return Some(version);
        }
    }
    None
}

/// Returns the first needed version with an index, and the need that it belongs to. Returns `None` if no version of a
/// need has this index.
#[tactic(auto, using(crate::proofs::Versions::needed))]
pub fn first_needed<E: EndianParse>(
    needs: VerNeedIterator<'_, E>,
    index: u16,
) -> Option<(VerNeed, VerNeedAux)>
    ensures { result ≡ needed_version index (ver_needs_left needs.entry) }
{
    for (need, versions) in needs {
        if let Some(version) = version_with(versions, index) {
            return Some((need, version));
        }
    }
    None
}

// The definitions starting at the first one with this index, or none or the last one if none has it. Of those before it
// only what is compared is read.
#[tactic(auto, unfolding(crate::specs::gnu_symver::Table::defined_version))]
fn skip_to_defined<'data, E: EndianParse>(
    definitions: VerDefIterator<'data, E>,
    index: u16,
) -> VerDefIterator<'data, E>
    ensures { defined_version index (ver_defs_left result) ≡ defined_version index (ver_defs_left definitions.entry) }
{
    let mut first = definitions;
    let mut left = definitions;
    while let Some((next, _)) = left.next() {
        if next.vd_ndx == index {
            return first;
        }
        first = left;
    }
    first
}

// The first definition with this index, and its names. Each definition up to it is read whole.
#[inline(always)]
#[tactic(auto, unfolding(crate::specs::gnu_symver::Table::defined_version))]
fn next_defined<'data, E: EndianParse>(
    definitions: VerDefIterator<'data, E>,
    index: u16,
) -> Option<(VerDef, VerDefAuxIterator<'data, E>)>
    ensures { option_map ver_def_view result ≡ defined_version index (ver_defs_left definitions.entry) }
{
    for (definition, names) in definitions {
        if definition.vd_ndx == index {
            return Some((definition, names));
        }
    }
    None
}

/// What the records of a needed version say of it, the names as offsets in bytes.
#[derive(Clone, Copy, Debug)]
pub struct Needed {
    file: u32,
    name: u32,
    hash: u32,
    flags: u16,
}

// What is stored of a version. `file` is the offset of the name of its file.
fn needed_entry(file: u32, version: &VerNeedAux) -> Needed
    ensures { result ≡ needed_entry file version.now }
{
    Needed {
        file,
        name: version.vna_name,
        hash: version.vna_hash,
        flags: version.vna_flags,
    }
}

// The requirement, with the names of the file and of the version as text.
#[inline(always)]
fn read_requirement<'data>(
    strings: StringTable<'data>,
    needed: Needed,
    hidden: bool,
) -> Result<SymbolRequirement<'data>, ParseError>
    ensures { GivesTexts (requirement_of (strings_view strings.entry) hidden needed) result }
{
    let file = strings.get(needed.file as usize)?;
    let name = strings.get(needed.name as usize)?;
    Ok(SymbolRequirement {
        file,
        name,
        hash: needed.hash,
        flags: needed.flags,
        hidden,
    })
}

// The definition with an iterator over its names, which reads them when it is used.
#[inline(always)]
fn read_definition<'data, E: EndianParse>(
    strings: &'data StringTable<'data>,
    definition: VerDef,
    names: VerDefAuxIterator<'data, E>,
    hidden: bool,
) -> SymbolDefinition<'data, E>
    ensures value { definition_view result
        ≡ definition_by (strings_view strings.now) hidden (ver_def_view (definition, names.entry)) }
    ensures count { definition.vd_cnt < 2 ^ 16 }
{
    SymbolDefinition {
        hash: definition.vd_hash,
        flags: definition.vd_flags,
        names: SymbolNamesIterator::new(names, strings),
        hidden,
    }
}

impl<'data, E: EndianParse> SymbolVersionTable<'data, E> {
    /// Returns the table of these version indexes, of the needs with their strings, and of the definitions with theirs.
    pub fn new(
        version_ids: VersionIndexTable<'data, E>,
        verneeds: Option<(VerNeedIterator<'data, E>, StringTable<'data>)>,
        verdefs: Option<(VerDefIterator<'data, E>, StringTable<'data>)>,
    ) -> Self
        ensures { versions_view result ≡ record {
          indexes = table_view version_ids.entry;
          needs = option_map needs_view verneeds.entry;
          definitions = option_map definitions_view verdefs.entry;
        } }
    {
        SymbolVersionTable {
            indexes: version_ids,
            needs: verneeds,
            definitions: verdefs,
        }
    }

    /// Returns the version indexes of the symbols.
    pub fn indexes(&self) -> VersionIndexTable<'data, E>
        ensures { table_view result ≡ (versions_view self.now).indexes }
    {
        self.indexes
    }

    /// Returns how many places the version indexes of the symbols take: one more than the greatest, and 0 if there are
    /// none.
    pub fn place_count(&self) -> usize
        ensures count { result ≡ place_count (table_items version_index_reads (versions_view self.now).indexes) }
        ensures bound { result ≤ 2 ^ 16 }
    {
        let mut count = 0;
        for index in self.indexes {
            count = count.max(index.index() as usize + 1);
        }
        count
    }

    /// Returns the version index of a symbol, counted from 0, or the error of `ParsingTable::get`.
    pub fn get_index(&self, symbol: usize) -> Result<VersionIndex, ParseError>
        ensures { result ≡ index_of (versions_view self.now) symbol }
    {
        self.indexes.get(symbol)
    }

    /// Returns the version that a symbol, counted from 0 among the dynamic symbols, needs of another file. Returns
    /// `None` if there are no needs, whatever the symbol's version index is, or if no needed version has this index.
    ///
    /// Errors, in order: that of `get_index`; that of `StringTable::get` for the name of the file; the same for the
    /// name of the version.
    ///
    /// ```rust
    /// if let Some(versions) = file.symbol_version_table()?
    ///     && let Some(version) = versions.get_requirement(1)?
    /// {
    ///     println!(rt; "symbol 1 needs {} of {}", version.name, version.file)?;
    /// }
    /// ```
    pub fn get_requirement(
        &self,
        symbol: usize,
    ) -> Result<Option<SymbolRequirement<'_>>, ParseError>
        ensures { GivesRequirement (requirement (versions_view self.now) symbol) result }
    {
        requirement_by_places(self, &[], symbol)
    }

    /// Returns the version with which a symbol, counted from 0 among the dynamic symbols, is defined. Returns `None` if
    /// there are no definitions, whatever the symbol's version index is, or if no definition has this index. The only
    /// error is that of `get_index`: the names, fewer than 2^16, are read by the iterator in the result.
    ///
    /// ```rust
    /// if let Some(versions) = file.symbol_version_table()?
    ///     && let Some(mut version) = versions.get_definition(1)?
    ///     && let Some(name) = version.names.next()
    /// {
    ///     println!(rt; "symbol 1 is defined with {}", name?)?;
    /// }
    /// ```
    pub fn get_definition(
        &self,
        symbol: usize,
    ) -> Result<Option<SymbolDefinition<'_, E>>, ParseError>
        ensures value { ok_map (option_map definition_view) result ≡ definition (versions_view self.now) symbol }
        ensures few { HasFewNames result }
    {
        definition_by_places(self, &[], symbol)
    }
}
