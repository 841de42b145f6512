//! The check of versions.
ghost use Rattle.std.specs.Prelude.{◌≡◌, ◌↔◌, IsTrue, MatchOption, Some, IfSome};
ghost use Rattle.std.specs.Option.{IsSomeAnd, option_map};
ghost use Rattle.std.specs.Result.{result_ok};
ghost use Rattle.elf_records.specs.StringTable.{strings_view};
ghost use Rattle.elf_parts.specs.gnu_symver.Table.{versions_view};
ghost use Rattle.elf.specs.ElfBytes.{view};
ghost use Rattle.elf.specs.ObjectFile.{object_file};
ghost use Rattle.elf_check.specs.AllFaults.{Definitions, Indexes, Needs};
ghost use Rattle.elf_check.specs.inner.Walk.{IsFaultIfAny};
ghost use Rattle.elf_check.specs.versions.InFile.{IsTrueOfEntries, IsTrueOfIndexSection, IsTrueOfIndexes};
ghost use Rattle.elf_check.specs.versions.InFile.{KnowsVersions, SoundEntriesOf, SoundIndexSection, SoundIndexesOf};
ghost use Rattle.elf_check.specs.versions.InFile.{with_strings};
ghost use Rattle.elf_check.specs.Whole.{strings_beside};
ghost use Rattle.elf_reading.specs.Versions.{version_sections};

mod indexes;
mod records;

use crate::chains::{Entry, chain_fault, do_fit};
use crate::faults::{ChainFault, FileFault, VersionsFault};
use elf::ElfBytes;
use elf::endian::EndianParse;
use elf::gnu_symver::links::Links;
use elf::gnu_symver::{
    Needed, PlacedVersions, SymbolVersionTable, VerDef, VerDefIterator, VerNeed, VersionIndex,
};
use elf::headers::{Headers, VersionSections};
use elf::parse::ParseAt;
use elf::section::SectionHeader;
use elf::string_table::StringTable;
use indexes::first_fault;

// The bytes of a section, and the strings of the section that it links to.
fn with_strings<'data, E: EndianParse>(
    file: &ElfBytes<'data, E>,
    shdr: &SectionHeader,
) -> Option<(&'data [u8], StringTable<'data>)>
    ensures { option_map strings_beside result ≡ result_ok (with_strings (object_file E.little (view file.now))
        shdr.now) }
{
    let bytes = file.section_range(shdr).ok()?;
    let linked = file.section_at(shdr.sh_link as usize).ok()?;
    let strings = file.section_range(&linked).ok()?;
    Some((bytes, StringTable::new(strings)))
}

// What a section of needs or of definitions lacks.
#[derive(Copy, Clone)]
pub(crate) enum EntriesFault {
    Unreadable,
    TooLong,
    Faulty(ChainFault),
}

// What the section of entries lacks, if there is one.
fn entries_fault<E: EndianParse, V: Entry>(
    file: &ElfBytes<'_, E>,
    shdr: &Option<SectionHeader>,
) -> Option<EntriesFault>
    ensures { let whole = object_file E.little (view file.now) in
        MatchOption result (IfSome shdr.now (SoundEntriesOf V.reads.record_at V.next_distance V.extent V.sound whole))
        (λ fault. IsSomeAnd shdr.now (λ s. IsTrueOfEntries V.reads.record_at V.next_distance V.extent V.sound whole s
        fault)) }
{
    let Some(shdr) = shdr else {
        return None;
    };
    let Some((bytes, strings)) = with_strings(file, shdr) else {
        return Some(EntriesFault::Unreadable);
    };
    let count = shdr.sh_info as u64;
    let links = Links::<E, V>::new(
        file.ehdr.endianness.is_little(),
        file.ehdr.class,
        count,
        0,
        bytes,
    );
    if !do_fit(links, bytes.len() as u64) {
        return Some(EntriesFault::TooLong);
    }
    chain_fault(links, count, &strings).map(EntriesFault::Faulty)
}

// What the version indexes lack. A version whose index has a place is looked up without a walk.
fn indexes_fault<'data, E: EndianParse>(
    file: &ElfBytes<'data, E>,
    table: &SymbolVersionTable<'data, E>,
    needed: &mut [Option<Needed>],
    defined: &mut [Option<VerDefIterator<'data, E>>],
) -> Option<VersionsFault>
    ensures { let whole = object_file E.little (view file.now) in
        MatchOption result (SoundIndexesOf whole (versions_view table.now)) (IsTrueOfIndexes whole (versions_view
        table.now)) }
{
    let Ok(Some((symbols, _))) = file.dynamic_symbol_table() else {
        return Some(VersionsFault::NoDynamicSymbols);
    };
    let indexes = table.indexes();
    let count = indexes.len();
    if symbols.len() != count {
        return Some(VersionsFault::CountOfIndexes);
    }
    let versions = PlacedVersions::new(table, needed, defined);
    first_fault(&versions, count)
}

// Whether it is known which versions there are.
fn knows_versions<E: EndianParse>(file: &ElfBytes<'_, E>, chosen: &VersionSections) -> bool
    ensures { IsTrue result ↔ KnowsVersions (object_file E.little (view file.now)) chosen.now }
{
    match entries_fault::<E, VerNeed>(file, &chosen.needs) {
        Some(_) => false,
        None => entries_fault::<E, VerDef>(file, &chosen.definitions).is_none(),
    }
}

// What a section of version indexes lacks. The indexes are looked up only if it is known which versions there are.
fn index_section_fault<'data, E: EndianParse>(
    file: &ElfBytes<'data, E>,
    chosen: &VersionSections,
    shdr: &SectionHeader,
    needed: &mut [Option<Needed>],
    defined: &mut [Option<VerDefIterator<'data, E>>],
) -> Option<VersionsFault>
    requires chosen { version_sections (object_file E.little (view file.now)).sections ≡ chosen.now }
    requires section { chosen.now.indexes ≡ Some shdr.now }
    ensures { let whole = object_file E.little (view file.now) in
        MatchOption result (SoundIndexSection whole chosen.now shdr.now) (IsTrueOfIndexSection whole chosen.now
        shdr.now) }
{
    if shdr.sh_size % VersionIndex::size_for(file.ehdr.class) as u64 != 0 {
        return Some(VersionsFault::PartOfIndex);
    }
    if !knows_versions(file, chosen) {
        return None;
    }
    match file.symbol_version_table() {
        Ok(Some(table)) => indexes_fault(file, &table, needed, defined),
        _ => Some(VersionsFault::IndexesUnreadable),
    }
}

// The fault of the needs.
pub(crate) fn needs_fault_in<E: EndianParse>(file: &ElfBytes<'_, E>) -> Option<FileFault>
    ensures { IsFaultIfAny (object_file E.little (view file.now)) Needs result }
{
    let chosen = file.version_sections();
    chosen.indexes.as_ref()?;
    let fault = match entries_fault::<E, VerNeed>(file, &chosen.needs)? {
        EntriesFault::Unreadable => VersionsFault::NeedsUnreadable,
        EntriesFault::TooLong => VersionsFault::NeedsTooLong,
        EntriesFault::Faulty(fault) => VersionsFault::FaultyNeeds(fault),
    };
    Some(FileFault::Versions(fault))
}

// The fault of the definitions.
pub(crate) fn definitions_fault_in<E: EndianParse>(file: &ElfBytes<'_, E>) -> Option<FileFault>
    ensures { IsFaultIfAny (object_file E.little (view file.now)) Definitions result }
{
    let chosen = file.version_sections();
    chosen.indexes.as_ref()?;
    let fault = match entries_fault::<E, VerDef>(file, &chosen.definitions)? {
        EntriesFault::Unreadable => VersionsFault::DefinitionsUnreadable,
        EntriesFault::TooLong => VersionsFault::DefinitionsTooLong,
        EntriesFault::Faulty(fault) => VersionsFault::FaultyDefinitions(fault),
    };
    Some(FileFault::Versions(fault))
}

// The fault of the version indexes.
pub(crate) fn indexes_fault_in<'data, E: EndianParse>(
    file: &ElfBytes<'data, E>,
    needed: &mut [Option<Needed>],
    defined: &mut [Option<VerDefIterator<'data, E>>],
) -> Option<FileFault>
    ensures { IsFaultIfAny (object_file E.little (view file.now)) Indexes result }
{
    let chosen = file.version_sections();
    match &chosen.indexes {
        Some(shdr) => index_section_fault(file, &chosen, shdr, needed, defined).map(
            FileFault::Versions,
        ),
        None => None,
    }
}
