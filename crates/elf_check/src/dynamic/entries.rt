//! The check of the entries of a table.
ghost use Rattle.std.specs.Prelude.{◌≡◌, MatchOption, not};
ghost use Rattle.std.specs.List.{list_any, position};
ghost use Rattle.elf_abi.specs.Values.{dt_null};
ghost use Rattle.elf_records.specs.Dynamic.{dyn_reads, has_tag};
ghost use Rattle.elf_records.specs.StringTable.{strings_view};
ghost use Rattle.elf_records.specs.Table.{table_in, table_items, table_view};
ghost use Rattle.elf_check.specs.Dynamic.{IsTrueOfEntries, SoundEntries, before_null, has_its_string, names_string};

use crate::faults::DynamicFault;
use elf::abi;
use elf::dynamic::{Dyn, DynamicTable};
use elf::endian::EndianParse;
use elf::file::Class;
use elf::parse::ParseAt;
use elf::string_table::{StringTable, TerminatedStrings};

// Whether an entry has a tag, one of `DT_*`.
fn has_tag(entry: &Dyn, tag: i64) -> bool
    ensures { result ≡ has_tag tag entry.now }
{
    entry.d_tag == tag
}

// Whether an entry is the one that ends a table.
pub(crate) fn is_null(entry: &Dyn) -> bool
    ensures { result ≡ has_tag dt_null entry.now }
{
    has_tag(entry, abi::DT_NULL)
}

// Whether the number of an entry is the offset of a string.
pub(crate) fn names_string(entry: &Dyn) -> bool
    ensures { result ≡ names_string entry.now }
{
    has_tag(entry, abi::DT_NEEDED)
        || has_tag(entry, abi::DT_SONAME)
        || has_tag(entry, abi::DT_RPATH)
        || has_tag(entry, abi::DT_RUNPATH)
}

// Whether the string of an entry, if it names one, can be read.
fn has_its_string(strings: &TerminatedStrings<'_>, entry: &Dyn) -> bool
    ensures { result ≡ has_its_string strings.now entry.now }
{
    !names_string(entry) || strings.has_string_at(entry.d_val() as usize)
}

// Whether one of the entries ends the table.
pub(crate) fn has_null<E: EndianParse>(table: &DynamicTable<'_, E>) -> bool
    ensures { result ≡ list_any (has_tag dt_null) (table_items dyn_reads (table_view table.now)) }
{
    table.iter().any(|entry| is_null(&entry))
}

// The first entry whose string cannot be read.
fn first_without_string<E: EndianParse>(
    table: &DynamicTable<'_, E>,
    strings: &TerminatedStrings<'_>,
) -> Option<usize>
    ensures { result ≡ position (λ entry. not (has_its_string strings.now entry))
        (before_null (table_items dyn_reads (table_view table.now))) }
{
    table
        .iter()
        .take_while(|entry| !is_null(entry))
        .position(|entry| !has_its_string(strings, &entry))
}

// What these entries lack.
pub(super) fn entries_fault<E: EndianParse>(
    endian: E,
    class: Class,
    bytes: &[u8],
    strings: &StringTable<'_>,
) -> Option<DynamicFault>
    ensures { let table = table_in (E.little endian) class bytes.now in
        MatchOption result (SoundEntries (strings_view strings.now) table) (IsTrueOfEntries (strings_view
        strings.now) table) }
{
    if bytes.len() % Dyn::size_for(class) != 0 {
        return Some(DynamicFault::PartOfEntry);
    }
    let table = DynamicTable::<E>::new(endian, class, bytes);
    if !has_null(&table) {
        return Some(DynamicFault::NoNull);
    }
    match first_without_string(&table, &TerminatedStrings::new(strings)) {
        Some(index) => Some(DynamicFault::NoString { index }),
        None => None,
    }
}
