//! The versions that a file defines, and those that it needs of other files: by its section headers; if it declares none
//! by its dynamic entries.
#![tactic(auto, using(nugwier_report::proofs::Saying::saying_both))]

ghost use Rattle.std.specs.Prelude.{◌≡◌, ◌∷◌, [], IfOk, OnOk};
ghost use Rattle.std.specs.List.{flat_map};
ghost use Rattle.std.specs.Option.{option_map};
ghost use Rattle.elf_abi.specs.Values.{sht_gnu_verdef, sht_gnu_verneed};
ghost use Rattle.elf_dynamic.specs.dynamic_view.Entries.{entries_in};
ghost use Rattle.elf_parts.specs.gnu_symver.Lists.{ver_def_aux_left, ver_defs_left, ver_need_aux_left, ver_needs_left};
ghost use Rattle.elf_records.specs.Number.{ok_map};
ghost use Rattle.elf_records.specs.Table.{table_in, table_view};
ghost use Rattle.nugwier_dynamic.specs.VersionLists.{are_within, found_table_said, heading_of, is_defining};
ghost use Rattle.nugwier_dynamic.specs.VersionLists.{linked_content, record_count, records_in, records_said};
ghost use Rattle.nugwier_dynamic.specs.VersionLists.{said_of_version_lists, section_said, section_versions_said};
ghost use Rattle.nugwier_dynamic.specs.VersionLists.{table_heading_of, table_versions, version_count, versions_of};
ghost use Rattle.nugwier_dynamic.specs.inner.VersionLists.{fits, left_of, records_view, versions_view};
ghost use Rattle.nugwier_report.specs.Labels.{label_name};
ghost use Rattle.nugwier_report.specs.Said.{saying};
ghost use Rattle.nugwier_report.specs.Reading.{given_said};
ghost use Rattle.nugwier_report.specs.TypedSections.{sections_of};
ghost use Rattle.nugwier_report.specs.Whole.{file_of};
ghost use Rattle.nugwier_layouts.specs.Layouts.{layout_of};

use crate::version_rows::{VersionNames, tell_definitions, tell_needs};
use elf::dynamic::DynamicTable;
use elf::endian::EndianParse;
use elf::gnu_symver::{VerDefAuxIterator, VerDefIterator, VerNeedAuxIterator, VerNeedIterator};
use elf::headers::Headers;
use elf::reader::Reader;
use elf::section::SectionHeader;
use elf::string_table::{StringTable, TerminatedStrings};
use elf::{ParseError, abi};
use elf_dynamic::dynamic_view::DynamicError;
use elf_dynamic::linked::LinkedBy;
use nugwier_layouts::layouts;
use nugwier_layouts::layouts::Layout;
use nugwier_report::headings::{counted_members, known_names};
use nugwier_report::listed::ListedFile;
use nugwier_report::names::label_name;
use nugwier_report::problem::{Fault, Part, Stop};
use nugwier_report::tell::Tell;
use nugwier_report::typed_sections::{TypedSection, VERSION_TYPES, sections_of};
use nugwier_report::{linked, reading};
use std::alloc::Global;

// Versions that a file defines, or that it needs.
#[derive(Drop)]
enum Records<'f, E: EndianParse> {
    Defined(VerDefIterator<'f, E>),
    Needed(VerNeedIterator<'f, E>),
}

// Versions, and the strings that have their names.
#[derive(Drop)]
struct Versions<'f, E: EndianParse> {
    records: Records<'f, E>,
    strings: TerminatedStrings<'f>,
}

/// Tells the versions of each section that defines or needs some; if the file declares no sections those that dynamic
/// entries give. They are counted only if something comes of what is told.
pub fn tell_version_lists<E: EndianParse, R: ListedFile<E>, T: Tell>(
    alloc: Global,
    file: &R,
    tell: &mut T,
) -> Result<(), Stop>
    ensures { OnOk result (tell.new ≡ saying T.one tell.old
        (said_of_version_lists (file_of (R.file file.now) (R.bytes file.now)))) }
{
    match linked::linked_by(file)? {
        Ok(LinkedBy::Sections) => tell_sections(alloc, file, tell),
        Ok(LinkedBy::Entries(entries)) => {
            tell_table(file, &entries, true, tell)?;
            tell_table(file, &entries, false, tell)
        }
        Ok(LinkedBy::Nothing) => Ok(()),
        Err(error) => tell.problem(Part::Dynamic.whole(), &error),
    }
}

// ---- of sections

fn tell_sections<E: EndianParse, R: ListedFile<E>, T: Tell>(
    alloc: Global,
    file: &R,
    tell: &mut T,
) -> Result<(), Stop>
    ensures { let whole = file_of (R.file file.now) (R.bytes file.now) in
        OnOk result (tell.new ≡ saying T.one tell.old
        (flat_map (section_versions_said whole) (sections_of whole (sht_gnu_verdef ∷ sht_gnu_verneed ∷ [])))) }
{
    let names = known_names(file)?;
    for section in sections_of(alloc, file, &VERSION_TYPES)? {
        tell_section(file, &names, section, tell)?;
    }
    Ok(())
}

// Tells the versions of a section, with its name by these names, or that they cannot be read.
fn tell_section<E: EndianParse, R: ListedFile<E>, T: Tell>(
    file: &R,
    names: &Option<TerminatedStrings<'_>>,
    section: TypedSection<'_>,
    tell: &mut T,
) -> Result<(), Stop>
    ensures { let found = versions_of (file_of (R.file file.now) (R.bytes file.now)) section.entry.header
        (ok_map (λ bytes. bytes.now) section.entry.bytes) in
        OnOk result (tell.new ≡ saying T.one tell.old (section_said section.entry.number
        (label_name names.now section.entry.header) (is_defining section.entry.header) (version_count found) found)) }
{
    let TypedSection {
        number,
        header,
        bytes,
    } = section;
    let strings = linked_content(file, &header)?;
    if tell.is_silent() {
        return Ok(());
    }
    let (count, versions) = versions_of(file, &header, bytes, strings);
    let members = counted_members(number, label_name(names, &header), count);
    tell.state(heading_of(is_defining(&header)), &members)?;
    tell_each(Part::Section(number), versions, tell)
}

fn is_defining(section: &SectionHeader) -> bool
    ensures { result ≡ is_defining section.now }
{
    section.sh_type == abi::SHT_GNU_VERDEF
}

fn heading_of(is_defining: bool) -> &'static Layout
    ensures { layout_of result.now ≡ heading_of is_defining }
{
    if is_defining {
        &layouts::DEFINED_HEADING
    } else {
        &layouts::NEEDED_HEADING
    }
}

fn linked_content<'f, E: EndianParse, R: ListedFile<E>>(
    file: &'f R,
    section: &SectionHeader,
) -> Result<Result<&'f [u8], ParseError>, Stop>
    ensures { IfOk result (λ found. ok_map (λ bytes. bytes.now) found
        ≡ linked_content (file_of (R.file file.now) (R.bytes file.now)) section.now) }
{
    match file.section_at(section.sh_link as usize) {
        Ok(linked) => reading::content(file, &linked),
        Err(error) => Ok(Err(error)),
    }
}

// The versions in the bytes of a section, with the strings of the section that it links to, and how many they are.
fn versions_of<'f, E: EndianParse, R: ListedFile<E>>(
    file: &R,
    section: &SectionHeader,
    bytes: Result<&'f [u8], Fault>,
    strings: Result<&'f [u8], ParseError>,
) -> (Option<u64>, Result<Versions<'f, E>, Fault>)
    requires { ok_map (λ bytes. bytes.now) strings
        ≡ linked_content (file_of (R.file file.now) (R.bytes file.now)) section.now }
    ensures count { result.0 ≡ version_count (versions_of (file_of (R.file file.now) (R.bytes file.now)) section.now
        (ok_map (λ bytes. bytes.now) bytes.entry)) }
    ensures versions { ok_map versions_view result.1 ≡ versions_of (file_of (R.file file.now) (R.bytes file.now))
        section.now (ok_map (λ bytes. bytes.now) bytes.entry) }
{
    let bytes = match bytes {
        Ok(bytes) => bytes,
        Err(fault) => return (None, Err(fault)),
    };
    let strings = match strings {
        Ok(strings) => TerminatedStrings::new(&StringTable::new(strings)),
        Err(error) => return (None, Err(Fault::Read(error))),
    };
    let (records, count) = records_in(file, section, bytes);
    if are_within(bytes.len() as u64, &records) {
        (Some(count), Ok(Versions { records, strings }))
    } else {
        (None, Err(Fault::Repeated))
    }
}

// The versions in these bytes of a section, and how many they are.
fn records_in<'f, E: EndianParse, R: ListedFile<E>>(
    file: &R,
    section: &SectionHeader,
    bytes: &'f [u8],
) -> (Records<'f, E>, u64)
    ensures records { let whole = file_of (R.file file.now) (R.bytes file.now) in
        records_view result.0 ≡ records_in section.now (table_in whole.little whole.class bytes.now) }
    ensures count { result.1 ≡ record_count (records_view result.0) }
{
    let (order, class) = (file.endianness(), file.class());
    let most = section.sh_info as u64;
    if is_defining(section) {
        let definitions = VerDefIterator::new(order, class, most, 0, bytes);
        let count = definitions.count() as u64;
        (Records::Defined(definitions), count)
    } else {
        let needs = VerNeedIterator::new(order, class, most, 0, bytes);
        let count = needs.count() as u64;
        (Records::Needed(needs), count)
    }
}

// Whether all auxiliary entries are no more than this number. Versions may share theirs.
#[tactic(auto, using(crate::proofs::Auxiliary::fits_is))]
fn are_within<E: EndianParse>(most: u64, records: &Records<'_, E>) -> bool
    ensures { result ≡ are_within most (records_view records.now) }
{
    match records {
        Records::Defined(definitions) => fits_definitions(most, *definitions),
        Records::Needed(needs) => fits_needs(most, *needs),
    }
}

fn fits_definitions<E: EndianParse>(most: u64, definitions: VerDefIterator<'_, E>) -> bool
    ensures { result ≡ fits most (ver_defs_left definitions.entry) }
{
    let mut left = most;
    for definition in definitions {
        let Some(after) = left_of_definition(left, definition.1) else {
            return false;
        };
        left = after;
    }
    true
}

fn left_of_definition<E: EndianParse>(left: u64, records: VerDefAuxIterator<'_, E>) -> Option<u64>
    ensures { result ≡ left_of left (ver_def_aux_left records.entry) }
{
    let mut left = left;
    for _ in records {
        if left < 1 {
            return None;
        }
        left -= 1;
    }
    Some(left)
}

fn fits_needs<E: EndianParse>(most: u64, needs: VerNeedIterator<'_, E>) -> bool
    ensures { result ≡ fits most (ver_needs_left needs.entry) }
{
    let mut left = most;
    for need in needs {
        let Some(after) = left_of_need(left, need.1) else {
            return false;
        };
        left = after;
    }
    true
}

fn left_of_need<E: EndianParse>(left: u64, records: VerNeedAuxIterator<'_, E>) -> Option<u64>
    ensures { result ≡ left_of left (ver_need_aux_left records.entry) }
{
    let mut left = left;
    for _ in records {
        if left < 1 {
            return None;
        }
        left -= 1;
    }
    Some(left)
}

// Tells each version of a part, or why they cannot be read.
fn tell_each<E: EndianParse, T: Tell>(
    part: Part,
    versions: Result<Versions<'_, E>, Fault>,
    tell: &mut T,
) -> Result<(), Stop>
    ensures { OnOk result (tell.new ≡ saying T.one tell.old
        (given_said part (records_said part) (ok_map versions_view versions.entry))) }
{
    let versions = match versions {
        Ok(versions) => versions,
        Err(fault) => return tell.problem(part.whole(), &fault),
    };
    let names = VersionNames {
        part,
        strings: versions.strings,
    };
    match versions.records {
        Records::Defined(definitions) => tell_definitions(definitions, &names, tell),
        Records::Needed(needs) => tell_needs(needs, &names, tell),
    }
}

// ---- of dynamic entries

// Tells the versions that the file defines, or those that it needs, if an entry gives their address.
fn tell_table<E: EndianParse, R: ListedFile<E>, T: Tell>(
    file: &R,
    entries: &DynamicTable<'_, E>,
    is_defining: bool,
    tell: &mut T,
) -> Result<(), Stop>
    ensures { let whole = file_of (R.file file.now) (R.bytes file.now) in
        OnOk result (tell.new ≡ saying T.one tell.old (found_table_said whole.size is_defining
        (table_versions whole is_defining (entries_in (table_view entries.now))))) }
{
    let found = table_versions(file, entries, is_defining)?;
    if tell.is_silent() {
        return Ok(());
    }
    let versions = match found {
        Ok(Some(versions)) if are_within(file.size(), &versions.records) => Ok(versions),
        Ok(Some(_)) => Err(Fault::Repeated),
        Ok(None) => return Ok(()),
        Err(error) => Err(Fault::Linked(error)),
    };
    tell.state(table_heading_of(is_defining), &[])?;
    tell_each(Part::Versions, versions, tell)
}

fn table_heading_of(is_defining: bool) -> &'static Layout
    ensures { layout_of result.now ≡ table_heading_of is_defining }
{
    if is_defining {
        &layouts::DEFINED_TABLE_HEADING
    } else {
        &layouts::NEEDED_TABLE_HEADING
    }
}

// The versions that a file defines, or those that it needs, with their strings.
fn table_versions<'f, E: EndianParse, R: ListedFile<E>>(
    file: &'f R,
    entries: &DynamicTable<'_, E>,
    is_defining: bool,
) -> Result<Result<Option<Versions<'f, E>>, DynamicError>, Stop>
    ensures { IfOk result (λ found. ok_map (option_map versions_view) found
        ≡ table_versions (file_of (R.file file.now) (R.bytes file.now)) is_defining
        (entries_in (table_view entries.now))) }
{
    if is_defining {
        match linked::version_definitions(file, entries)? {
            Ok(Some((definitions, strings))) => Ok(Ok(Some(Versions {
                records: Records::Defined(definitions),
                strings: TerminatedStrings::new(&strings),
            }))),
            Ok(None) => Ok(Ok(None)),
            Err(error) => Ok(Err(error)),
        }
    } else {
        match linked::version_needs(file, entries)? {
            Ok(Some((needs, strings))) => Ok(Ok(Some(Versions {
                records: Records::Needed(needs),
                strings: TerminatedStrings::new(&strings),
            }))),
            Ok(None) => Ok(Ok(None)),
            Err(error) => Ok(Err(error)),
        }
    }
}
