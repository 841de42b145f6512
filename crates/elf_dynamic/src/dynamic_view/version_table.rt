//! The versions of symbols.
ghost use Rattle.std.specs.Prelude.{◌≡◌};
ghost use Rattle.std.specs.Option.{option_map};
ghost use Rattle.elf.specs.Parts.{loaded};
ghost use Rattle.elf_dynamic.specs.dynamic_view.Entries.{entries_in};
ghost use Rattle.elf_dynamic.specs.dynamic_view.Versions.{indexes_at, version_definitions, version_entries};
ghost use Rattle.elf_dynamic.specs.dynamic_view.Versions.{version_indexes, version_needs, versions, versions_of};
ghost use Rattle.elf_parts.specs.gnu_symver.Lists.{entries_in as entries_from, entries_left};
ghost use Rattle.elf_parts.specs.gnu_symver.Table.{definitions_view, entries_view, needs_view, versions_view};
ghost use Rattle.elf_records.specs.Number.{ok_map};
ghost use Rattle.elf_records.specs.Table.{table_view};

use crate::dynamic_view::entries::{required, value};
use crate::dynamic_view::error::DynamicError;
use crate::dynamic_view::segments::{bytes_from, range_of, records_part};
use crate::dynamic_view::string_table::strings;
use crate::dynamic_view::symbol_table::total_count;
use elf::abi;
use elf::dynamic::DynamicTable;
use elf::endian::EndianParse;
use elf::gnu_symver::links::VersionEntry;
use elf::gnu_symver::{
    EntriesWithStrings, EntryIterator, SymbolVersionTable, VerDef, VerNeed, VersionIndex,
    VersionIndexTable,
};
use elf::reader::Reader;
use elf::string_table::StringTable;
use elf_parts::parse::ParseAt;

// The version indexes at an address, one for each symbol.
fn indexes_at<'f, E: EndianParse, R: Reader<E>>(
    file: &'f R,
    entries: &DynamicTable<'_, E>,
    address: u64,
) -> Result<VersionIndexTable<'f, E>, DynamicError>
    ensures { ok_map table_view result
        ≡ indexes_at (loaded (R.file file.now) (R.ranges file.now)) (entries_in (table_view entries.now)) address }
{
    let count = total_count(file, entries)?;
    let size = VersionIndex::size_for(file.class()) as u64;
    let part = records_part(file, address, count, size)?;
    let bytes = range_of(file, part)?;
    Ok(VersionIndexTable::new(file.endianness(), file.class(), bytes))
}

/// Returns the version indexes of the symbols (`DT_VERSYM`), one for each of `symbols`, or `None` if no entry gives their
/// address.
///
/// Errors, in order: those of `symbol_count`; `UnknownCount` if that returns `None`; `Missing` if relocations are not loaded;
/// those of `bytes_of`.
pub fn version_indexes<'f, E: EndianParse, R: Reader<E>>(
    file: &'f R,
    entries: &DynamicTable<'_, E>,
) -> Result<Option<VersionIndexTable<'f, E>>, DynamicError>
    ensures { ok_map (option_map table_view) result
        ≡ version_indexes (loaded (R.file file.now) (R.ranges file.now)) (entries_in (table_view entries.now)) }
{
    match value(entries, abi::DT_VERSYM) {
        Some(address) => indexes_at(file, entries, address).map(Some),
        None => Ok(None),
    }
}

// The version entries at an address, as many as the entry with a tag says, and their strings.
fn version_entries<'f, E: EndianParse, R: Reader<E>, V: VersionEntry>(
    file: &'f R,
    entries: &DynamicTable<'_, E>,
    count_tag: i64,
    address: u64,
) -> Result<EntriesWithStrings<'f, E, V>, DynamicError>
    ensures { ok_map (entries_view (entries_left V.reads.record_at V.next_distance V.with_aux)) result
        ≡ version_entries (entries_from V.reads.record_at V.next_distance V.with_aux)
        (loaded (R.file file.now) (R.ranges file.now)) count_tag (entries_in (table_view entries.now)) address }
{
    let count = required(entries, count_tag)?;
    let bytes = bytes_from(file, address)?;
    let names = strings(file, entries)?;
    let versions = EntryIterator::new(file.endianness(), file.class(), count, 0, bytes);
    Ok((versions, StringTable::new(names)))
}

/// Returns the needs (`DT_VERNEED`), each with its versions, and their strings, or `None` if no entry gives their
/// address. Their bytes end with the segment.
///
/// Errors, in order: `NoEntry(DT_VERNEEDNUM)`; those of `bytes_from`; those of `strings`.
pub fn version_needs<'f, E: EndianParse, R: Reader<E>>(
    file: &'f R,
    entries: &DynamicTable<'_, E>,
) -> Result<Option<EntriesWithStrings<'f, E, VerNeed>>, DynamicError>
    ensures { ok_map (option_map needs_view) result
        ≡ version_needs (loaded (R.file file.now) (R.ranges file.now)) (entries_in (table_view entries.now)) }
{
    match value(entries, abi::DT_VERNEED) {
        Some(address) => {
            version_entries::<E, R, VerNeed>(file, entries, abi::DT_VERNEEDNUM, address).map(Some)
        }
        None => Ok(None),
    }
}

/// Returns the definitions (`DT_VERDEF`), each with its names, and their strings, or `None` if no entry gives their
/// address. The errors are those of `version_needs`, with `DT_VERDEFNUM`.
pub fn version_definitions<'f, E: EndianParse, R: Reader<E>>(
    file: &'f R,
    entries: &DynamicTable<'_, E>,
) -> Result<Option<EntriesWithStrings<'f, E, VerDef>>, DynamicError>
    ensures { ok_map (option_map definitions_view) result
        ≡ version_definitions (loaded (R.file file.now) (R.ranges file.now)) (entries_in (table_view entries.now)) }
{
    match value(entries, abi::DT_VERDEF) {
        Some(address) => {
            version_entries::<E, R, VerDef>(file, entries, abi::DT_VERDEFNUM, address).map(Some)
        }
        None => Ok(None),
    }
}

/// Returns the versions of the symbols with these version indexes. The errors are those of `version_needs` and of
/// `version_definitions`, in this order.
pub fn versions_of<'f, E: EndianParse, R: Reader<E>>(
    file: &'f R,
    entries: &DynamicTable<'_, E>,
    indexes: VersionIndexTable<'f, E>,
) -> Result<SymbolVersionTable<'f, E>, DynamicError>
    ensures { ok_map versions_view result ≡ versions_of (loaded (R.file file.now) (R.ranges file.now))
        (entries_in (table_view entries.now)) (table_view indexes.entry) }
{
    let needs = version_needs(file, entries)?;
    let definitions = version_definitions(file, entries)?;
    Ok(SymbolVersionTable::new(indexes, needs, definitions))
}

/// Returns the versions of the symbols, or `None` if the file has no version indexes. The errors are those of
/// `version_indexes`, of `version_needs` and of `version_definitions`, in this order.
pub fn versions<'f, E: EndianParse, R: Reader<E>>(
    file: &'f R,
    entries: &DynamicTable<'_, E>,
) -> Result<Option<SymbolVersionTable<'f, E>>, DynamicError>
    ensures { ok_map (option_map versions_view) result
        ≡ versions (loaded (R.file file.now) (R.ranges file.now)) (entries_in (table_view entries.now)) }
{
    match version_indexes(file, entries)? {
        Some(indexes) => versions_of(file, entries, indexes).map(Some),
        None => Ok(None),
    }
}
