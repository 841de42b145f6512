//! The notes of a file.
#![tactic(auto, using(nugwier_report::proofs::Saying::saying_both))]

ghost use Rattle.std.specs.Prelude.{◌≡◌, IfOk, OnOk};
ghost use Rattle.elf_parts.specs.Note.{notes_left};
ghost use Rattle.elf_records.specs.Number.{ok_map};
ghost use Rattle.nugwier_notes.specs.NoteSections.{after_segment, list_said, note_count, note_file, note_list};
ghost use Rattle.nugwier_notes.specs.NoteSections.{said_of_note_sections, said_of_note_segments, said_of_notes};
ghost use Rattle.nugwier_notes.specs.NoteSections.{section_notes_said, segment_notes_in, segment_notes_said};
ghost use Rattle.nugwier_report.specs.Reading.{given_said};
ghost use Rattle.nugwier_report.specs.Whole.{file_of};
ghost use Rattle.nugwier_report.specs.inner.TypedSections.{section_view};
ghost use Rattle.nugwier_report.specs.Said.{saying};

use crate::notes;
use crate::properties::NoteFile;
use elf::abi;
use elf::endian::{AnyEndian, EndianParse};
use elf::file::Class;
use elf::headers::Headers;
use elf::note::NoteIterator;
use elf::reader::Reader;
use elf::segment::ProgramHeader;
use elf_check::faults::SectionFault;
use elf_check::notes::{first_no_note, note_align};
use elf_parts::laws::notes::few_notes_are_left;
use nugwier_layouts::json::{Value, number_value};
use nugwier_layouts::layouts;
use nugwier_report::headings::{counted_members, known_names};
use nugwier_report::listed::ListedFile;
use nugwier_report::names::label_name;
use nugwier_report::problem::{Fault, Part, Stop};
use nugwier_report::reading;
use nugwier_report::tell::Tell;
use nugwier_report::typed_sections::{NOTE_TYPES, TypedSection, left_after, sections_of, within};
use std::alloc::Global;

/// Tells the notes of the sections or, if no sections are declared, of the segments.
pub fn tell_notes<E: EndianParse, R: ListedFile<E>, T: Tell>(
    alloc: Global,
    file: &R,
    tell: &mut T,
) -> Result<(), Stop>
    ensures { OnOk result (tell.new ≡ saying T.one tell.old
        (said_of_notes (R.header file.now).e_machine (file_of (R.file file.now) (R.bytes file.now)))) }
{
    if file.declares_sections() {
        tell_sections(alloc, file, tell)
    } else {
        tell_segments(file, tell)
    }
}

fn tell_sections<E: EndianParse, R: ListedFile<E>, T: Tell>(
    alloc: Global,
    file: &R,
    tell: &mut T,
) -> Result<(), Stop>
    ensures { OnOk result (tell.new ≡ saying T.one tell.old
        (said_of_note_sections (R.header file.now).e_machine (file_of (R.file file.now) (R.bytes file.now)))) }
{
    let names = known_names(file)?;
    for section in sections_of(alloc, file, &NOTE_TYPES)? {
        let name = label_name(&names, &section.header);
        tell_section(note_file(file), name, section, tell)?;
    }
    Ok(())
}

// Tells the notes of a section of this name, or why they are not listed.
fn tell_section<T: Tell>(
    file: NoteFile,
    name: &[u8],
    section: TypedSection<'_>,
    tell: &mut T,
) -> Result<(), Stop>
    ensures { let listed = section_view section.entry in OnOk result (tell.new ≡ saying T.one tell.old
        (section_notes_said listed.number name.now
        (ok_map (note_list file listed.header.sh_addralign) listed.bytes))) }
{
    if tell.is_silent() {
        return Ok(());
    }
    let TypedSection {
        number,
        header,
        bytes,
    } = section;
    let count = note_count(file, header.sh_addralign, &bytes);
    tell.state(
        &layouts::SECTION_NOTES_HEADING,
        &counted_members(number, name, count),
    )?;
    tell_list(
        file,
        header.sh_addralign,
        Part::Section(number),
        bytes,
        tell,
    )
}

fn tell_segments<E: EndianParse, R: ListedFile<E>, T: Tell>(
    file: &R,
    tell: &mut T,
) -> Result<(), Stop>
    ensures { OnOk result (tell.new ≡ saying T.one tell.old
        (said_of_note_segments (R.header file.now).e_machine (file_of (R.file file.now) (R.bytes file.now)))) }
{
    let mut left = file.size();
    let mut number = 0;
    for segment in file.segment_list() {
        left = tell_segment(file, left, number, segment, tell)?;
        number += 1;
    }
    Ok(())
}

// Tells the notes of a segment, if it has any. Returns how many bytes of notes may follow.
fn tell_segment<E: EndianParse, R: ListedFile<E>, T: Tell>(
    file: &R,
    left: u64,
    number: u64,
    segment: &ProgramHeader,
    tell: &mut T,
) -> Result<u64, Stop>
    ensures after { IfOk result (λ after. after
        ≡ after_segment (file_of (R.file file.now) (R.bytes file.now)) left segment.now) }
    ensures told { OnOk result (tell.new ≡ saying T.one tell.old
        (segment_notes_in (R.header file.now).e_machine (file_of (R.file file.now) (R.bytes file.now)) left number
        segment.now)) }
{
    if segment.p_type != abi::PT_NOTE {
        return Ok(left);
    }
    let bytes = reading::segment_data(file, segment)?;
    let after = left_after(left, &bytes);
    tell_segment_notes(
        note_file(file),
        number,
        segment.p_align,
        within(left, bytes),
        tell,
    )?;
    Ok(after)
}

// Tells the notes of a segment with these bytes and this alignment, or why they are not listed.
fn tell_segment_notes<T: Tell>(
    file: NoteFile,
    number: u64,
    align: u64,
    bytes: Result<&[u8], Fault>,
    tell: &mut T,
) -> Result<(), Stop>
    ensures { OnOk result (tell.new ≡ saying T.one tell.old (segment_notes_said number
        (ok_map (note_list file align) (ok_map (λ bytes. bytes.now) bytes.entry)))) }
{
    if tell.is_silent() {
        return Ok(());
    }
    let count = number_value(note_count(file, align, &bytes));
    let members = [("segment", Value::Number(number)), ("count", count)];
    tell.state(&layouts::SEGMENT_NOTES_HEADING, &members)?;
    tell_list(file, align, Part::Segment(number), bytes, tell)
}

/// Returns the file, as the descriptors of its notes and build attributes depend on it.
pub fn note_file<E: EndianParse, R: ListedFile<E>>(file: &R) -> NoteFile
    ensures { result ≡ note_file (R.header file.now).e_machine (file_of (R.file file.now) (R.bytes file.now)) }
{
    NoteFile {
        is_little: file.endianness().is_little(),
        class: file.class(),
        machine: file.file_header().e_machine,
    }
}

// How many notes there are, if they are listed.
fn note_count(file: NoteFile, align: u64, bytes: &Result<&[u8], Fault>) -> Option<u64>
    ensures { result ≡ note_count (ok_map (note_list file align) (ok_map (λ bytes. bytes.now) bytes.now)) }
{
    match bytes {
        Ok(bytes) => {
            let notes = notes_in(file, align, bytes);
            few_notes_are_left(&notes);
            Some(notes.count() as u64)
        }
        Err(_) => None,
    }
}

// The notes in bytes that declare this alignment.
fn notes_in(file: NoteFile, align: u64, bytes: &[u8]) -> NoteIterator<'_, AnyEndian>
    ensures { notes_left result ≡ (note_list file align bytes.now).notes }
{
    let align = align as usize;
    NoteIterator::new(file.order(), Class::ELF64, note_align(align), bytes)
}

// Tells the notes in bytes that declare this alignment, and their end if they do not fill them; or why they are not
// listed.
fn tell_list<T: Tell>(
    file: NoteFile,
    align: u64,
    part: Part,
    bytes: Result<&[u8], Fault>,
    tell: &mut T,
) -> Result<(), Stop>
    ensures { OnOk result (tell.new ≡ saying T.one tell.old (given_said part (list_said part)
        (ok_map (note_list file align) (ok_map (λ bytes. bytes.now) bytes.entry)))) }
{
    let bytes = match bytes {
        Ok(bytes) => bytes,
        Err(fault) => return tell.problem(part.whole(), &fault),
    };
    notes::tell_notes(file, part, notes_in(file, align, bytes), tell)?;
    match end_of(file, align as usize, bytes) {
        Some(offset) => {
            let fault = SectionFault::NoNote { offset };
            tell.problem(part.whole(), &fault)
        }
        None => Ok(()),
    }
}

// Where notes end, if they do not fill their bytes.
#[tactic(auto, using(crate::proofs::NoteEnds::end_found))]
fn end_of(file: NoteFile, align: usize, bytes: &[u8]) -> Option<usize>
    ensures { result ≡ (note_list file align bytes.now).end }
{
    first_no_note(file.is_little, align, bytes)
}
