//! The content of sections.
#![tactic(auto, using(nugwier_report::proofs::Saying::saying_both))]

ghost use Rattle.std.specs.Prelude.{◌≡◌, IfOk, OnOk, map};
ghost use Rattle.elf.specs.Data.{content};
ghost use Rattle.elf_reading.specs.Leading.{data_view};
ghost use Rattle.elf_records.specs.Number.{ok_map};
ghost use Rattle.nugwier_sections.specs.Contents.{bytes_said, content_said, heading_of, none_said, said_of_contents};
ghost use Rattle.nugwier_sections.specs.Contents.{section_said, sections_said, wanted_said, within};
ghost use Rattle.nugwier_report.specs.TypedSections.{left_after};
ghost use Rattle.nugwier_report.specs.Whole.{file_of};
ghost use Rattle.nugwier_sections.specs.ContentRows.{compression_said};
ghost use Rattle.nugwier_report.specs.Said.{said_if, saying};
ghost use Rattle.nugwier_sections.specs.Contents.{wanted_view};
ghost use Rattle.nugwier_layouts.specs.Layouts.{layout_of};

use crate::content_rows::{tell_compression, tell_data, tell_strings};
use elf::compression::CompressionHeader;
use elf::endian::EndianParse;
use elf::headers::Headers;
use elf::reader::Reader;
use elf::section::SectionHeader;
use elf::string_table::TerminatedStrings;
use elf::{ParseError, abi};
use nugwier_layouts::layouts;
use nugwier_layouts::layouts::Layout;
use nugwier_report::headings::{heading_members, known_names};
use nugwier_report::listed::ListedFile;
use nugwier_report::named_sections::sections_of;
use nugwier_report::names::label_name;
use nugwier_report::problem::{Fault, NoSection, Part, Stop};
use nugwier_report::quoted::Quoted;
use nugwier_report::reading;
use nugwier_report::tell::Tell;
use std::alloc::Global;

// The bytes of a section, and its compression header if it has one.
type Content<'f> = (&'f [u8], Option<CompressionHeader>);

/// How the content of a section is listed.
#[derive(Debug, Clone, Copy)]
pub enum Form {
    Bytes,
    Strings,
}

/// A section, by its name or its number.
#[derive(Debug, Clone, Copy)]
pub struct Wanted<'a> {
    pub form: Form,
    pub section: &'a str,
}

/// Tells the content of sections, in order. Of no section, nothing is read.
pub fn tell_contents<E: EndianParse, R: ListedFile<E>, T: Tell>(
    alloc: Global,
    file: &R,
    contents: &[Wanted<'_>],
    tell: &mut T,
) -> Result<(), Stop>
    ensures { OnOk result (tell.new ≡ saying T.one tell.old
        (said_of_contents (file_of (R.file file.now) (R.bytes file.now)) (map wanted_view contents.now))) }
{
    if contents.is_empty() {
        return Ok(());
    }
    let names = known_names(file)?;
    for wanted in contents {
        tell_wanted(alloc, file, &names, *wanted, tell)?;
    }
    Ok(())
}

// Tells the content of the sections that a word names, or that there are none.
fn tell_wanted<E: EndianParse, R: ListedFile<E>, T: Tell>(
    alloc: Global,
    file: &R,
    names: &Option<TerminatedStrings<'_>>,
    wanted: Wanted<'_>,
    tell: &mut T,
) -> Result<(), Stop>
    ensures { OnOk result (tell.new ≡ saying T.one tell.old
        (content_said (file_of (R.file file.now) (R.bytes file.now)) names.now (wanted_view wanted.entry))) }
{
    let sections = sections_of(alloc, file, names, wanted.section)?;
    if sections.is_empty() {
        let word = Quoted::new(wanted.section.as_bytes());
        return tell.problem(Part::File.whole(), &NoSection(word));
    }
    tell_sections(file, names, wanted.form, sections.as_slice(), tell)
}

fn tell_sections<E: EndianParse, R: ListedFile<E>, T: Tell>(
    file: &R,
    names: &Option<TerminatedStrings<'_>>,
    form: Form,
    sections: &[(usize, SectionHeader)],
    tell: &mut T,
) -> Result<(), Stop>
    ensures { let whole = file_of (R.file file.now) (R.bytes file.now) in OnOk result (tell.new
        ≡ saying T.one tell.old (sections_said whole names.now form whole.size sections.now)) }
{
    let mut left = file.size();
    for section in sections {
        left = tell_section(file, names, form, left, section, tell)?;
    }
    Ok(())
}

// Tells the content of a section. Returns how many bytes may follow.
fn tell_section<E: EndianParse, R: ListedFile<E>, T: Tell>(
    file: &R,
    names: &Option<TerminatedStrings<'_>>,
    form: Form,
    left: u64,
    section: &(usize, SectionHeader),
    tell: &mut T,
) -> Result<u64, Stop>
    ensures after { let whole = file_of (R.file file.now) (R.bytes file.now) in
        IfOk result (λ after. after ≡ left_after left (content whole section.now.1)) }
    ensures told { OnOk result (tell.new ≡ saying T.one tell.old
        (wanted_said (file_of (R.file file.now) (R.bytes file.now)) names.now form left section.now)) }
{
    let (number, section) = *section;
    let content = reading::section_data(file, &section)?;
    let after = left_after(left, &content);
    let name = label_name(names, &section);
    tell_found(form, number as u64, name, &section, left, content, tell)?;
    Ok(after)
}

// How many bytes may be listed after them.
fn left_after(left: u64, content: &Result<Content<'_>, ParseError>) -> u64
    ensures { result ≡ left_after left (ok_map (λ found. found.0.now) content.now) }
{
    match content {
        Ok((bytes, _)) => left.saturating_sub(bytes.len() as u64),
        Err(_) => left,
    }
}

// Tells the content of a section of this number and name, if no more than this number of bytes are left to list, or why
// it is not listed.
fn tell_found<T: Tell>(
    form: Form,
    number: u64,
    name: &[u8],
    section: &SectionHeader,
    left: u64,
    content: Result<Content<'_>, ParseError>,
    tell: &mut T,
) -> Result<(), Stop>
    ensures { OnOk result (tell.new ≡ saying T.one tell.old
        (section_said form number name.now section.now (within left (ok_map data_view content.entry)))) }
{
    if tell.is_silent() {
        return Ok(());
    }
    tell.state(heading_of(form), &heading_members(number, name))?;
    let place = Part::Section(number).whole();
    match content {
        Ok((bytes, _)) if left < bytes.len() as u64 => tell.problem(place, &Fault::Repeated),
        Ok(content) => tell_content(form, number, section, content, tell),
        Err(error) => tell.problem(place, &error),
    }
}

fn heading_of(form: Form) -> &'static Layout
    ensures { layout_of result.now ≡ heading_of form }
{
    match form {
        Form::Bytes => &layouts::BYTES_HEADING,
        Form::Strings => &layouts::STRINGS_HEADING,
    }
}

// Tells how the bytes of a section are compressed, if they are, and the bytes after the header, or their strings.
fn tell_content<T: Tell>(
    form: Form,
    number: u64,
    section: &SectionHeader,
    content: Content<'_>,
    tell: &mut T,
) -> Result<(), Stop>
    ensures { OnOk result (tell.new
        ≡ saying T.one tell.old (bytes_said form number section.now (data_view content.entry))) }
{
    let (bytes, header) = content;
    tell_header(number, &header, tell)?;
    tell_none(section, bytes, tell)?;
    match form {
        Form::Bytes => tell_data(number, section.sh_addr, bytes, tell),
        Form::Strings => tell_strings(number, bytes, tell),
    }
}

fn tell_header<T: Tell>(
    number: u64,
    header: &Option<CompressionHeader>,
    tell: &mut T,
) -> Result<(), Stop>
    ensures { OnOk result (tell.new ≡ saying T.one tell.old (said_if (compression_said number) header.now)) }
{
    match header {
        Some(header) => tell_compression(number, header, tell),
        None => Ok(()),
    }
}

// Tells that a section has no bytes in the file, or is empty.
fn tell_none<T: Tell>(section: &SectionHeader, bytes: &[u8], tell: &mut T) -> Result<(), Stop>
    ensures { OnOk result (tell.new ≡ saying T.one tell.old (none_said section.now bytes.now)) }
{
    match bytes {
        [] if section.sh_type == abi::SHT_NOBITS => tell.state(&layouts::NO_BYTES, &[]),
        [] => tell.state(&layouts::EMPTY_SECTION, &[]),
        _ => Ok(()),
    }
}
