//! The versions of symbols: the version index of a symbol, the version that it needs of another file, and the one with
//! which it is defined.
ghost use Rattle.std.specs.Prelude.{◌≡◌, []};
ghost use Rattle.std.specs.List.{find};
ghost use Rattle.std.specs.Option.{option_map};
ghost use Rattle.elf_parts.specs.gnu_symver.Records.{ver_def_reads};
ghost use Rattle.elf_parts.specs.gnu_symver.Links.{links_left, links_view};
ghost use Rattle.elf_parts.specs.gnu_symver.Lists.{ver_def_aux_records, ver_needs_left};
ghost use Rattle.elf_parts.specs.gnu_symver.Table.{definition, raw_names};
ghost use Rattle.elf_records.specs.Number.{ok_map};
ghost use Rattle.elf_c.specs.Status.{IsWrittenIf, status_of, written};
ghost use Rattle.elf_c.specs.Tables.{table_of_c};
ghost use Rattle.elf_c.specs.VersionPlaces.{HoldDefinitions, HoldNeeds};
ghost use Rattle.elf_c.specs.Versions.{SameBytes, TakesName, defined_view, definition_view};
ghost use Rattle.elf_c.specs.Versions.{index_of_c, names_left, no_definition_in, no_more_names, no_requirement_in};
ghost use Rattle.elf_c.specs.Versions.{versions_of_c};
ghost use Rattle.elf_c.specs.inner.DefinitionLinks.{definition_links, has_index};
ghost use Rattle.elf_c.specs.Versions.{needed_view, needs_list, requirement_of_c, requirement_view, version_shown};

use crate::status::{NugwierStatus, done, refused};
use crate::strings::{NugwierBytes, nugwier_string};
use crate::table::{NugwierTable, class_in, order_in, records_in};
use crate::version_places::{
    NugwierPlacedDefinition, NugwierVersionPlace, definition_with, need_with,
    nugwier_placed_definition, nugwier_placed_requirement,
};
use elf_parts::endian::AnyEndian;
use elf_parts::gnu_symver::links::Links;
use elf_parts::gnu_symver::{VerDef, VerDefAux, VerNeedIterator, VersionIndex};
use elf_parts::parse::ParseError;
use elf_parts::string_table::StringTable;

/// The entries of a version section, needs or definitions, if there are any: at most `count` records, the first at the
/// start of `entries`, and the strings with their names. If a file has versions, but none of these, `count` is 0, there
/// are no bytes, and `entries` has the byte order and the class of the file.
#[repr(C)]
#[derive(Drop)]
pub struct NugwierEntries<'data> {
    pub found: bool,
    pub count: u64,
    pub entries: NugwierTable<'data>,
    pub strings: &'data [u8],
}

/// The versions of the symbols of a file, if it has any: the version indexes, and what they are looked up in.
#[repr(C)]
#[derive(Drop)]
pub struct NugwierVersions<'data> {
    pub found: bool,
    pub indexes: NugwierTable<'data>,
    pub needs: NugwierEntries<'data>,
    pub definitions: NugwierEntries<'data>,
}

/// The version index of a symbol: the lower 15 bits, and whether bit 15 is set, which hides the version.
#[repr(C)]
#[derive(Clone, Copy)]
pub struct NugwierVersion {
    pub index: u16,
    pub hidden: bool,
}

/// The version that a symbol needs of another file, if any: the names of the file and of the version, its hash and its
/// flags, and whether the symbol's version index is hidden.
#[repr(C)]
#[derive(Drop)]
pub struct NugwierRequirement<'data> {
    pub found: bool,
    pub hidden: bool,
    pub flags: u16,
    pub hash: u32,
    pub file: &'data [u8],
    pub name: &'data [u8],
}

/// The names of a version that are left, each the name of an entry: at most `count` entries, the first at `offset` of
/// `entries`.
#[repr(C)]
#[derive(Drop)]
pub struct NugwierVersionNames<'data> {
    pub count: u64,
    pub offset: usize,
    pub entries: NugwierTable<'data>,
    pub strings: &'data [u8],
}

/// The version with which a symbol is defined, if any: its hash, its flags and its names, and whether the symbol's
/// version index is hidden.
#[repr(C)]
#[derive(Drop)]
pub struct NugwierDefinition<'data> {
    pub found: bool,
    pub hidden: bool,
    pub flags: u16,
    pub hash: u32,
    pub names: NugwierVersionNames<'data>,
}

// The needs.
pub(crate) fn needs_in<'data>(needs: &NugwierEntries<'data>) -> VerNeedIterator<'data, AnyEndian>
    ensures { ver_needs_left result ≡ needs_list needs.now }
{
    VerNeedIterator::new(
        order_in(needs.entries.little),
        class_in(needs.entries.is_64),
        needs.count,
        0,
        needs.entries.bytes,
    )
}

// The version index of a symbol.
fn index_of(versions: &NugwierVersions<'_>, symbol: usize) -> Result<VersionIndex, ParseError>
    ensures { result ≡ index_of_c versions.now symbol }
{
    records_in::<VersionIndex>(&versions.indexes).get(symbol)
}

/// Reads the version index of a symbol, counted from 0. An error leaves `version` as it is; the errors are those of
/// `ParsingTable::get`.
#[unsafe(no_mangle)]
pub extern "C" fn nugwier_version_index(
    versions: &NugwierVersions<'_>,
    symbol: usize,
    version: &mut NugwierVersion,
) -> NugwierStatus
    ensures status { result ≡ status_of (index_of_c versions.now symbol) }
    ensures version { version.new ≡ written version_shown version.old (index_of_c versions.now symbol) }
{
    match index_of(versions, symbol) {
        Ok(found) => {
            *version = NugwierVersion {
                index: found.index(),
                hidden: found.is_hidden(),
            };
            done()
        }
        Err(error) => refused(&error),
    }
}

// What a symbol needs, with its names.
pub(crate) fn requirement_in<'data>(
    versions: &NugwierVersions<'data>,
    places: &[NugwierVersionPlace],
    symbol: usize,
) -> Result<Option<NugwierRequirement<'data>>, ParseError>
    ensures { HoldNeeds versions.now.needs places.now →
        ok_map (option_map needed_view) result ≡ requirement_of_c versions.now symbol }
{
    if !versions.needs.found {
        return Ok(None);
    }
    let index = index_of(versions, symbol)?;
    let need = need_with(places, &versions.needs, index.index());
    if need.found == 0 {
        return Ok(None);
    }
    let strings = StringTable::new(versions.needs.strings);
    let file = strings.get_raw(need.file as usize)?;
    let name = strings.get_raw(need.name as usize)?;
    Ok(Some(NugwierRequirement {
        found: true,
        hidden: index.is_hidden(),
        flags: need.flags,
        hash: need.hash,
        file,
        name,
    }))
}

/// Finds the version that a symbol, counted from 0, needs of another file. If there is none, `found` is false, and
/// nothing else is written. An error leaves `requirement` as it is. The errors are those of `get_requirement`, except
/// that the names are bytes and need not be UTF-8.
#[unsafe(no_mangle)]
pub extern "C" fn nugwier_requirement<'data>(
    versions: &NugwierVersions<'data>,
    symbol: usize,
    requirement: &mut NugwierRequirement<'data>,
) -> NugwierStatus
    ensures status { result ≡ status_of (requirement_of_c versions.now symbol) }
    ensures requirement { IsWrittenIf requirement_view no_requirement_in requirement.new requirement.old
        (requirement_of_c versions.now symbol) }
{
    nugwier_placed_requirement(versions, &[], symbol, requirement)
}

// The names of a definition, before the first is taken.
fn names_of<'data>(
    definitions: &NugwierEntries<'data>,
    definition: &NugwierPlacedDefinition,
) -> NugwierVersionNames<'data>
    ensures { names_left result ≡ raw_names definitions.now.strings.now
        (ver_def_aux_records (table_of_c definitions.now.entries) definition.now.count definition.now.offset) }
{
    NugwierVersionNames {
        count: definition.count,
        offset: definition.offset,
        entries: NugwierTable {
            little: definitions.entries.little,
            is_64: definitions.entries.is_64,
            bytes: definitions.entries.bytes,
        },
        strings: definitions.strings,
    }
}

// The links of the definitions.
pub(crate) fn definitions_in<'data>(
    definitions: &NugwierEntries<'data>,
) -> Links<'data, AnyEndian, VerDef>
    ensures items { links_left ver_def_reads.record_at (λ x. x.vd_next) result ≡ definition_links definitions.now }
    ensures view { links_view result ≡ table_of_c definitions.now.entries }
{
    Links::new(
        definitions.entries.little,
        class_in(definitions.entries.is_64),
        definitions.count,
        0,
        definitions.entries.bytes,
    )
}

// The first definition with this index, and its offset.
pub(crate) fn first_defined(definitions: &NugwierEntries<'_>, index: u16) -> Option<(usize, VerDef)>
    ensures { result ≡ find (has_index index) (definition_links definitions.now) }
{
    for (start, definition) in definitions_in(definitions) {
        if definition.vd_ndx == index {
            return Some((start, definition));
        }
    }
    None
}

// What a symbol is defined with.
pub(crate) fn definition_in<'data>(
    versions: &NugwierVersions<'data>,
    places: &[NugwierVersionPlace],
    symbol: usize,
) -> Result<Option<NugwierDefinition<'data>>, ParseError>
    ensures { HoldDefinitions versions.now.definitions places.now →
        ok_map (option_map defined_view) result ≡ definition (versions_of_c versions.now) symbol }
{
    if !versions.definitions.found {
        return Ok(None);
    }
    let index = index_of(versions, symbol)?;
    let definition = definition_with(places, &versions.definitions, index.index());
    if definition.found == 0 {
        return Ok(None);
    }
    Ok(Some(NugwierDefinition {
        found: true,
        hidden: index.is_hidden(),
        flags: definition.flags,
        hash: definition.hash,
        names: names_of(&versions.definitions, &definition),
    }))
}

/// Finds the version with which a symbol, counted from 0, is defined. If there is none, `found` is false, and nothing
/// else is written. An error leaves `defined` as it is; the errors are those of `get_definition`.
#[unsafe(no_mangle)]
pub extern "C" fn nugwier_definition<'data>(
    versions: &NugwierVersions<'data>,
    symbol: usize,
    defined: &mut NugwierDefinition<'data>,
) -> NugwierStatus
    ensures status { result ≡ status_of (definition (versions_of_c versions.now) symbol) }
    ensures defined { IsWrittenIf definition_view no_definition_in defined.new defined.old
        (definition (versions_of_c versions.now) symbol) }
{
    nugwier_placed_definition(versions, &[], symbol, defined)
}

/// Takes the next name of a version. If none is left, `found` is false, the count of `names` is 0, and nothing else is
/// written. Otherwise the count and the offset of `names` go on. A name that cannot be read is an error, which leaves
/// `name` as it is; the next call goes on with the name after it. The errors are those of `StringTable::get_raw`.
#[tactic(auto, unfolding(elf_parts::specs::gnu_symver::Links::links_in))]
#[unsafe(no_mangle)]
pub extern "C" fn nugwier_version_name<'data>(
    names: &mut NugwierVersionNames<'data>,
    found: &mut bool,
    name: &mut NugwierBytes<'data>,
) -> NugwierStatus
    ensures name { TakesName (names_left names.old) (names_left names.new) found.new name.new name.old result }
    ensures bytes { SameBytes names.new names.old }
    ensures end { names_left names.old ≡ [] → names.new ≡ no_more_names names.old }
{
    let mut links: Links<'data, AnyEndian, VerDefAux> = Links::new(
        names.entries.little,
        class_in(names.entries.is_64),
        names.count,
        names.offset,
        names.entries.bytes,
    );
    match links.next() {
        Some((_, record)) => {
            names.count = links.limit();
            names.offset = links.offset();
            *found = true;
            nugwier_string(names.strings, record.vda_name as usize, name)
        }
        None => {
            names.count = 0;
            *found = false;
            done()
        }
    }
}
