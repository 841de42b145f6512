//! The relocations of a file.
#![tactic(auto, using(nugwier_report::proofs::Saying::saying_both))]

ghost use Rattle.std.specs.Prelude.{[], ◌≡◌, ◌∷◌, IfOk, OnOk, length};
ghost use Rattle.std.specs.List.{flat_map};
ghost use Rattle.std.specs.Option.{option_map};
ghost use Rattle.elf.specs.ObjectFile.{err_map};
ghost use Rattle.elf_dynamic.specs.dynamic_view.Entries.{entries_in};
ghost use Rattle.elf_records.specs.Number.{ok_map};
ghost use Rattle.elf_records.specs.Table.{items_left, table_view};
ghost use Rattle.nugwier_report.specs.Headings.{known_names};
ghost use Rattle.nugwier_report.specs.Reading.{if_read};
ghost use Rattle.nugwier_symbols.specs.Relocations.{count_if, linked_table, machine_of};
ghost use Rattle.nugwier_symbols.specs.Relocations.{placed_said, records_if, records_of};
ghost use Rattle.nugwier_symbols.specs.Relocations.{records_said, relative_in, relocations_of, relocations_said};
ghost use Rattle.nugwier_symbols.specs.Relocations.{said_of_relocations, section_relocations, sections_relocations};
ghost use Rattle.nugwier_symbols.specs.Relocations.{section_symbols, symbols_unread, table_members};
ghost use Rattle.nugwier_symbols.specs.Relocations.{table_count, table_records, table_relocations, used_by};
ghost use Rattle.nugwier_report.specs.Whole.{file_of};
ghost use Rattle.nugwier_symbols.specs.inner.Relocations.{around_view, counted_view, place_heading, place_part};
ghost use Rattle.nugwier_symbols.specs.inner.Relocations.{placed_view, records_view, symbols_view};
ghost use Rattle.nugwier_report.specs.inner.TypedSections.{section_view};
ghost use Rattle.nugwier_report.specs.Labels.{named_by};
ghost use Rattle.nugwier_layouts.specs.Members.{members_said};
ghost use Rattle.nugwier_symbols.specs.RelocationRows.{used_view};
ghost use Rattle.nugwier_report.specs.Said.{saying};
ghost use Rattle.nugwier_report.specs.declared.problem.Fault.TheVariants.{Read as IsRead};

use crate::relocation_rows::{Machine, RelocationRow, Symbols, tell_relative};
use crate::symbols::known_versions;
use elf::abi;
use elf::dynamic::DynamicTable;
use elf::endian::EndianParse;
use elf::file::FileHeader;
use elf::gnu_symver::SymbolVersions;
use elf::headers::Headers;
use elf::laws::tables::few_records_are_left;
use elf::parse::{ParseAt, ParsingIterator};
use elf::reader::Reader;
use elf::relocation::{RelIterator, RelaIterator};
use elf::section::SectionHeader;
use elf::string_table::TerminatedStrings;
use elf::symbol::SymbolTable;
use elf_dynamic::dynamic_view::{DynamicError, PltRelocations};
use elf_dynamic::linked::LinkedBy;
use elf_dynamic::relr::{RelrIterator, RelrTable, SHT_RELR};
use elf_linking::indexed;
use nugwier_layouts::json::{Member, Value, number_value};
use nugwier_layouts::layouts;
use nugwier_report::headings::{counted_members, known_names};
use nugwier_report::listed::ListedFile;
use nugwier_report::names::{Labels, label_name};
use nugwier_report::problem::{Fault, Item, Part, RelocationTable, Stop};
use nugwier_report::rows::tell_records;
use nugwier_report::tell::Tell;
use nugwier_report::typed_sections::{RELOCATION_TYPES, TypedSection, sections_of};
use nugwier_report::{linked, reading};
use std::alloc::Global;
use std::marker::PhantomData;

/// Tells the relocations of a file, and before them if the versions of its symbols cannot be read.
pub fn tell_relocations<E: EndianParse, R: ListedFile<E>, T: Tell>(
    alloc: Global,
    file: &R,
    tell: &mut T,
) -> Result<(), Stop>
    ensures { OnOk result (tell.new ≡ saying T.one tell.old (said_of_relocations
        (machine_of E.little (R.header file.now)) (file_of (R.file file.now) (R.bytes file.now)))) }
{
    let labels = labels_of(file)?;
    let versions = known_versions(linked::linked_versions(file)?, tell)?;
    let versions = indexed(alloc, versions.as_ref())?;
    let around = Surroundings {
        machine: machine_of(&file.file_header()),
        versions: versions.as_ref(),
        labels: &labels,
    };
    tell_by_place(alloc, &*file, &around, tell)
}

/// Returns the sections, and their names if they can be read.
pub fn labels_of<'f, E: EndianParse, R: ListedFile<E>>(file: &'f R) -> Result<Labels<'f>, Stop>
    ensures { let whole = file_of (R.file file.now) (R.bytes file.now) in IfOk result (λ labels. named_by labels
        ≡ record { class = whole.class; sections = whole.sections; names = known_names whole }) }
{
    let names = known_names(file)?;
    Ok(Labels {
        class: file.class(),
        sections: file.section_list(),
        names,
    })
}

fn machine_of<E: EndianParse>(header: &FileHeader<E>) -> Machine
    ensures { result ≡ machine_of E.little header.now }
{
    Machine {
        e_machine: header.e_machine,
        class: header.class,
        is_little: header.endianness.is_little(),
    }
}

// What relocations are told by.
#[derive(Drop)]
struct Surroundings<'a, V> {
    machine: Machine,
    versions: Option<&'a V>,
    labels: &'a Labels<'a>,
}

// Tells the relocations of each section that has them, or if the file declares no sections those that dynamic entries
// give.
fn tell_by_place<'f, E: EndianParse, R: ListedFile<E>, V: SymbolVersions<E>, T: Tell>(
    alloc: Global,
    file: &'f R,
    around: &Surroundings<'f, V>,
    tell: &mut T,
) -> Result<(), Stop>
    ensures { OnOk result (tell.new ≡ saying T.one tell.old (relocations_said (around_view V.versions around.now)
        (relocations_of (file_of (R.file file.now) (R.bytes file.now))))) }
{
    match linked::linked_by(file)? {
        Ok(LinkedBy::Sections) => tell_sections(alloc, file, around, tell),
        Ok(LinkedBy::Entries(entries)) => tell_tables(&TABLES, file, &entries, around, tell),
        Ok(LinkedBy::Nothing) => Ok(()),
        Err(error) => tell.problem(Part::Dynamic.whole(), &error),
    }
}

// ---- relocations of one place

// Relocations of one type.
#[derive(Drop)]
enum Records<'f, E: EndianParse> {
    Rels(RelIterator<'f, E>),
    Relas(RelaIterator<'f, E>),
    /// Packed relative relocations: their addresses alone.
    Relative(RelrIterator<'f, E>),
}

// A table of symbols, with their strings, and whether they are the dynamic ones, which may have versions.
#[derive(Drop)]
struct NamedSymbols<'f, E: EndianParse> {
    table: SymbolTable<'f, E>,
    strings: TerminatedStrings<'f>,
    is_dynamic: bool,
}

// The symbols that relocations use, if there are any.
type FoundSymbols<'f, E> = Result<Option<NamedSymbols<'f, E>>, Fault>;

// Where relocations are: in a section, by its number and its name, or in a table that a dynamic entry gives.
#[derive(Clone, Copy)]
enum Place<'f> {
    Section(u64, &'f [u8]),
    Table(RelocationTable),
}

impl Place<'_> {
    fn part(self) -> Part
        ensures { result ≡ place_part self.entry }
    {
        match self {
            Place::Section(number, _) => Part::Section(number),
            Place::Table(table) => Part::Relocations(table),
        }
    }

    // Tells the heading, above this number of relocations.
    fn tell<T: Tell>(self, count: Option<u64>, tell: &mut T) -> Result<(), Stop>
        ensures { OnOk result (tell.new ≡ saying T.one tell.old (place_heading self.entry count ∷ [])) }
    {
        match self {
            Place::Section(number, name) => tell.state(
                &layouts::RELOCATIONS_HEADING,
                &counted_members(number, name, count),
            ),
            Place::Table(table) => tell.state(
                &layouts::RELOCATION_TABLE_HEADING,
                &table_members(table, count),
            ),
        }
    }
}

fn table_members(table: RelocationTable, count: Option<u64>) -> [Member<'static>; 2]
    ensures { members_said result ≡ table_members table count }
{
    [
        ("table", Value::Text(Some(table.name().as_bytes()))),
        ("count", number_value(count)),
    ]
}

// Tells relocations, or why they cannot be read. They come twice, since to count them uses them up.
fn tell_placed<'a, E: EndianParse, V: SymbolVersions<E>, T: Tell>(
    around: &Surroundings<'a, V>,
    place: Place<'a>,
    counted: Option<Records<'a, E>>,
    symbols: FoundSymbols<'a, E>,
    records: Result<Records<'a, E>, Fault>,
    tell: &mut T,
) -> Result<(), Stop>
    ensures { OnOk result (tell.new ≡ saying T.one tell.old (placed_said (around_view V.versions around.now)
        (placed_view place.entry counted.entry symbols.entry records.entry))) }
{
    if tell.is_silent() {
        return Ok(());
    }
    place.tell(count_of(counted), tell)?;
    let part = place.part();
    let symbols = used_symbols(part, around, symbols, tell)?;
    tell_records_of(part, around.machine, symbols, records, tell)
}

// How many relocations there are. Of packed relative ones that is not told: a table of them may have more than 64 bits
// can count.
fn count_of<E: EndianParse>(records: Option<Records<'_, E>>) -> Option<u64>
    ensures { result ≡ counted_view records.entry }
{
    match records? {
        Records::Rels(rels) => Some(record_count(rels)),
        Records::Relas(relas) => Some(record_count(relas)),
        Records::Relative(_) => None,
    }
}

fn record_count<E: EndianParse, P: ParseAt + Drop>(records: ParsingIterator<'_, E, P>) -> u64
    ensures { result ≡ length (items_left P.reads records.entry) }
{
    few_records_are_left(&records);
    records.count() as u64
}

// The symbols with the versions and the sections by which they are told, or the problem that they cannot be read.
fn used_symbols<'a, E: EndianParse, V: SymbolVersions<E>, T: Tell>(
    part: Part,
    around: &Surroundings<'a, V>,
    symbols: FoundSymbols<'a, E>,
    tell: &mut T,
) -> Result<Option<Symbols<'a, E, V>>, Stop>
    ensures used { IfOk result (λ used. option_map (used_view V.versions) used
        ≡ option_map (used_by (around_view V.versions around.now))
        (if_read (ok_map (option_map symbols_view) symbols.entry))) }
    ensures wrong { OnOk result (tell.new ≡ saying T.one tell.old
        (symbols_unread part (ok_map (option_map symbols_view) symbols.entry))) }
{
    let symbols = match symbols {
        Ok(Some(symbols)) => symbols,
        Ok(None) => return Ok(None),
        Err(fault) => {
            tell.problem(part.item(Item::Symbols), &fault)?;
            return Ok(None);
        }
    };
    let versions = if symbols.is_dynamic {
        around.versions
    } else {
        None
    };
    Ok(Some(Symbols {
        table: symbols.table,
        strings: symbols.strings,
        versions,
        labels: around.labels,
    }))
}

// Tells each relocation, or that they cannot be read.
fn tell_records_of<'a, E: EndianParse, V: SymbolVersions<E>, T: Tell>(
    part: Part,
    machine: Machine,
    symbols: Option<Symbols<'a, E, V>>,
    records: Result<Records<'a, E>, Fault>,
    tell: &mut T,
) -> Result<(), Stop>
    ensures { OnOk result (tell.new ≡ saying T.one tell.old (records_said machine part
        (option_map (used_view V.versions) symbols.entry) (ok_map records_view records.entry))) }
{
    match records {
        Ok(Records::Rels(rels)) => {
            let kind = PhantomData;
            let row = RelocationRow {
                part,
                machine,
                symbols,
                kind,
            };
            tell_records(rels, &row, tell)
        }
        Ok(Records::Relas(relas)) => {
            let kind = PhantomData;
            let row = RelocationRow {
                part,
                machine,
                symbols,
                kind,
            };
            tell_records(relas, &row, tell)
        }
        Ok(Records::Relative(addresses)) => tell_relative(part, addresses, tell),
        Err(fault) => tell.problem(part.whole(), &fault),
    }
}

// ---- by dynamic entries

// The tables that dynamic entries may give.
static TABLES: [RelocationTable; 4] = [
    RelocationTable::Rel,
    RelocationTable::Rela,
    RelocationTable::Relr,
    RelocationTable::Plt,
];

// Tells the relocations of each of these tables that a dynamic entry gives.
#[tactic(auto, using(nugwier_report::proofs::Saying::saying_both, crate::proofs::Placed::said_of_both))]
fn tell_tables<'f, E: EndianParse, R: ListedFile<E>, V: SymbolVersions<E>, T: Tell>(
    all: &[RelocationTable],
    file: &'f R,
    entries: &DynamicTable<'_, E>,
    around: &Surroundings<'f, V>,
    tell: &mut T,
) -> Result<(), Stop>
    ensures { let whole = file_of (R.file file.now) (R.bytes file.now) in
        OnOk result (tell.new ≡ saying T.one tell.old (flat_map (placed_said (around_view V.versions around.now))
        (flat_map (table_relocations whole (entries_in (table_view entries.now))) all.now))) }
{
    for table in all {
        tell_table(*table, file, entries, around, tell)?;
    }
    Ok(())
}

#[tactic(auto, using(crate::proofs::Placed::said_of_one))]
fn tell_table<'f, E: EndianParse, R: ListedFile<E>, V: SymbolVersions<E>, T: Tell>(
    table: RelocationTable,
    file: &'f R,
    entries: &DynamicTable<'_, E>,
    around: &Surroundings<'f, V>,
    tell: &mut T,
) -> Result<(), Stop>
    ensures { let whole = file_of (R.file file.now) (R.bytes file.now) in
        OnOk result (tell.new ≡ saying T.one tell.old (flat_map (placed_said (around_view V.versions around.now))
        (table_relocations whole (entries_in (table_view entries.now)) table))) }
{
    let place = Place::Table(table);
    let counted = counted_in(table, file, entries)?;
    let symbols = linked_symbols(file, entries)?;
    match table_records(file, entries, table)? {
        Ok(Some(records)) => tell_placed(around, place, counted, symbols, Ok(records), tell),
        Ok(None) => Ok(()),
        Err(error) => {
            let records = Err(Fault::Linked(error));
            tell_placed(around, place, counted, symbols, records, tell)
        }
    }
}

// The relocations of a table, to count them, if there are any.
fn counted_in<'f, E: EndianParse, R: ListedFile<E>>(
    table: RelocationTable,
    file: &'f R,
    entries: &DynamicTable<'_, E>,
) -> Result<Option<Records<'f, E>>, Stop>
    ensures { IfOk result (λ counted. counted_view counted ≡ table_count
        (table_records (file_of (R.file file.now) (R.bytes file.now)) (entries_in (table_view entries.now)) table)) }
{
    match table_records(file, entries, table)? {
        Ok(Some(counted)) => Ok(Some(counted)),
        Ok(None) => Ok(None),
        Err(_) => Ok(None),
    }
}

// The symbols that dynamic entries give.
fn linked_symbols<'f, E: EndianParse, R: ListedFile<E>>(
    file: &'f R,
    entries: &DynamicTable<'_, E>,
) -> Result<FoundSymbols<'f, E>, Stop>
    ensures { IfOk result (λ found. ok_map (option_map symbols_view) found
        ≡ linked_table (file_of (R.file file.now) (R.bytes file.now)) (entries_in (table_view entries.now))) }
{
    match linked::symbols_by(file, entries)? {
        Ok((table, strings)) => Ok(Ok(Some(NamedSymbols {
            table,
            strings: TerminatedStrings::new(&strings),
            is_dynamic: true,
        }))),
        Err(error) => Ok(Err(Fault::Linked(error))),
    }
}

// The relocations of a table, if a dynamic entry gives it.
fn table_records<'f, E: EndianParse, R: ListedFile<E>>(
    file: &'f R,
    entries: &DynamicTable<'_, E>,
    table: RelocationTable,
) -> Result<Result<Option<Records<'f, E>>, DynamicError>, Stop>
    ensures { IfOk result (λ found. ok_map (option_map records_view) found ≡ table_records
        (file_of (R.file file.now) (R.bytes file.now)) (entries_in (table_view entries.now)) table) }
{
    match table {
        RelocationTable::Rel => match linked::rels(file, entries)? {
            Ok(Some(rels)) => Ok(Ok(Some(Records::Rels(rels)))),
            Ok(None) => Ok(Ok(None)),
            Err(error) => Ok(Err(error)),
        },
        RelocationTable::Rela => match linked::relas(file, entries)? {
            Ok(Some(relas)) => Ok(Ok(Some(Records::Relas(relas)))),
            Ok(None) => Ok(Ok(None)),
            Err(error) => Ok(Err(error)),
        },
        RelocationTable::Relr => match linked::relr_bytes(file, entries)? {
            Ok(Some(bytes)) => {
                let words = RelrTable::new(file.endianness(), file.class(), bytes);
                Ok(Ok(Some(relative(&words))))
            }
            Ok(None) => Ok(Ok(None)),
            Err(error) => Ok(Err(error)),
        },
        RelocationTable::Plt => match linked::plt_relocations(file, entries)? {
            Ok(Some(PltRelocations::Rel(rels))) => Ok(Ok(Some(Records::Rels(rels)))),
            Ok(Some(PltRelocations::Rela(relas))) => Ok(Ok(Some(Records::Relas(relas)))),
            Ok(None) => Ok(Ok(None)),
            Err(error) => Ok(Err(error)),
        },
    }
}

// The addresses of packed relative relocations.
fn relative<'f, E: EndianParse>(words: &RelrTable<'f, E>) -> Records<'f, E>
    ensures { records_view result ≡ relative_in (table_view words.now) }
{
    Records::Relative(RelrIterator::new(words))
}

// ---- by sections

fn tell_sections<'f, E: EndianParse, R: ListedFile<E>, V: SymbolVersions<E>, T: Tell>(
    alloc: Global,
    file: &'f R,
    around: &Surroundings<'f, V>,
    tell: &mut T,
) -> Result<(), Stop>
    ensures { let whole = file_of (R.file file.now) (R.bytes file.now) in
        OnOk result (tell.new ≡ saying T.one tell.old (flat_map (placed_said (around_view V.versions around.now))
        (sections_relocations whole))) }
{
    let names = known_names(file)?;
    for section in sections_of(alloc, file, &RELOCATION_TYPES)? {
        tell_section(file, &names, section, around, tell)?;
    }
    Ok(())
}

// Tells the relocations of a section, if its bytes are listed.
fn tell_section<'f, E: EndianParse, R: ListedFile<E>, V: SymbolVersions<E>, T: Tell>(
    file: &'f R,
    names: &Option<TerminatedStrings<'f>>,
    section: TypedSection<'f>,
    around: &Surroundings<'f, V>,
    tell: &mut T,
) -> Result<(), Stop>
    ensures { let whole = file_of (R.file file.now) (R.bytes file.now) in
        names.now ≡ known_names whole → OnOk result (tell.new ≡ saying T.one tell.old
        (placed_said (around_view V.versions around.now) (section_relocations whole (section_view section.entry)))) }
{
    let TypedSection {
        number,
        header,
        bytes,
    } = section;
    let symbols = section_symbols(file, header.sh_link)?;
    let (counted, records) = records_if(file, &header, bytes)?;
    let place = Place::Section(number, label_name(names, &header));
    tell_placed(around, place, counted, symbols, records, tell)
}

// The relocations of a section, if its bytes are listed. They come twice, since to count them uses them up.
fn records_if<'f, E: EndianParse, R: ListedFile<E>>(
    file: &'f R,
    section: &SectionHeader,
    bytes: Result<&[u8], Fault>,
) -> Result<(Option<Records<'f, E>>, Result<Records<'f, E>, Fault>), Stop>
    ensures counted { IfOk result (λ found. counted_view found.0 ≡ count_if (records_if
        (file_of (R.file file.now) (R.bytes file.now)) section.now (ok_map (λ bytes. bytes.now) bytes.entry))) }
    ensures records { IfOk result (λ found. ok_map records_view found.1 ≡ records_if
        (file_of (R.file file.now) (R.bytes file.now)) section.now (ok_map (λ bytes. bytes.now) bytes.entry)) }
{
    if let Err(fault) = bytes {
        return Ok((None, Err(fault)));
    }
    match records_of(file, section)? {
        Ok(counted) => Ok((Some(counted), records_of(file, section)?)),
        Err(fault) => Ok((None, Err(fault))),
    }
}

// The symbols of the section of this number, if it is of a type that has some. Section 0 is none.
fn section_symbols<'f, E: EndianParse, R: ListedFile<E>>(
    file: &'f R,
    number: u32,
) -> Result<FoundSymbols<'f, E>, Stop>
    ensures { IfOk result (λ found. ok_map (option_map symbols_view) found
        ≡ err_map IsRead (section_symbols (file_of (R.file file.now) (R.bytes file.now)) number)) }
{
    if number == 0 {
        return Ok(Ok(None));
    }
    let section = match file.section_at(number as usize) {
        Ok(section) => section,
        Err(error) => return Ok(Err(Fault::Read(error))),
    };
    if section.sh_type != abi::SHT_DYNSYM && section.sh_type != abi::SHT_SYMTAB {
        return Ok(Ok(None));
    }
    match reading::symbols_of(file, &section)? {
        Ok((table, strings)) => Ok(Ok(Some(NamedSymbols {
            table,
            strings: TerminatedStrings::new(&strings),
            is_dynamic: section.sh_type == abi::SHT_DYNSYM,
        }))),
        Err(error) => Ok(Err(Fault::Read(error))),
    }
}

// The relocations of a section, by its type.
fn records_of<'f, E: EndianParse, R: ListedFile<E>>(
    file: &'f R,
    section: &SectionHeader,
) -> Result<Result<Records<'f, E>, Fault>, Stop>
    ensures { IfOk result (λ found. ok_map records_view found
        ≡ err_map IsRead (records_of (file_of (R.file file.now) (R.bytes file.now)) section.now)) }
{
    match section.sh_type {
        abi::SHT_REL => match reading::rels(file, section)? {
            Ok(rels) => Ok(Ok(Records::Rels(rels))),
            Err(error) => Ok(Err(Fault::Read(error))),
        },
        SHT_RELR => match reading::relr(file, section)? {
            Ok(words) => Ok(Ok(relative(&words))),
            Err(error) => Ok(Err(Fault::Read(error))),
        },
        _ => match reading::relas(file, section)? {
            Ok(relas) => Ok(Ok(Records::Relas(relas))),
            Err(error) => Ok(Err(Fault::Read(error))),
        },
    }
}
