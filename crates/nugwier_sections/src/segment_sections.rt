//! What is said of the sections that belong to each segment.
#![tactic(auto, using(nugwier_report::proofs::Saying::saying_both, nugwier_report::proofs::Parts::said_parts))]

ghost use Rattle.std.specs.Prelude.{◌≡◌, ◌<◌, length, OnOk};
ghost use Rattle.std.specs.Option.{option_copied};
ghost use Rattle.nugwier_layouts.specs.Members.{members_said};
ghost use Rattle.nugwier_report.specs.Said.{saying};
ghost use Rattle.nugwier_sections.specs.SegmentSections.{are_too_many, fits_ends, fits_memory, fits_threads, has_flag};
ghost use Rattle.nugwier_sections.specs.SegmentSections.{has_no_bytes, is_all_inside, is_gnu_memory, is_in_file};
ghost use Rattle.nugwier_sections.specs.SegmentSections.{is_in_memory, is_in_segment, is_inside, is_memory};
ghost use Rattle.nugwier_sections.specs.SegmentSections.{is_of, is_threads_alone, is_within, section_in_segment_said};
ghost use Rattle.nugwier_sections.specs.SegmentSections.{segment_members, segment_section_members};
ghost use Rattle.nugwier_sections.specs.SegmentSections.{segment_sections_said, segments_sections_said};
ghost use Rattle.nugwier_sections.specs.SectionRows.{name_read};

use elf_abi::abi;
use elf_parts::section::SectionHeader;
use elf_parts::segment::ProgramHeader;
use elf_parts::string_table::TerminatedStrings;
use nugwier_layouts::json::{Member, Value};
use nugwier_layouts::layouts;
use nugwier_report::problem::{Part, Stop};
use nugwier_report::rows::{Row, tell_slice};
use nugwier_report::tell::Tell;
use std::fmt;

/// Says the sections of each segment, with their names in these strings, if there are any.
pub fn tell_segments_sections<T: Tell>(
    names: Option<TerminatedStrings<'_>>,
    sections: &[SectionHeader],
    segments: &[ProgramHeader],
    tell: &mut T,
) -> Result<(), Stop>
    ensures { OnOk result (tell.new
        ≡ saying T.one tell.old (segments_sections_said names.entry sections.now segments.now)) }
{
    if sections.is_empty() || segments.is_empty() {
        return Ok(());
    }
    if are_too_many(sections, segments) {
        return tell.problem(Part::SectionHeaders.whole(), &TooMany);
    }
    tell.state(&layouts::SEGMENT_SECTIONS_HEADING, &[])?;
    tell_slice(segments, &SegmentRow { names, sections }, tell)
}

// That there are too many to list those of each segment.
#[derive(Drop)]
struct TooMany;

impl fmt::Display for TooMany {
    ghost use Rattle.nugwier_sections.specs.SegmentSections.{too_many_text};

    ghost output = { λ _. too_many_text };

    #[tactic(auto, unfolding(crate::specs::SegmentSections::too_many_text))]
    fn fmt<W: fmt::Write>(&self, f: &mut fmt::Formatter<W>) -> fmt::Result {
        f.write_str("too many to list those of each segment")
    }
}

fn are_too_many(sections: &[SectionHeader], segments: &[ProgramHeader]) -> bool
    requires { 0 < length sections.now }
    ensures { result ≡ are_too_many sections.now segments.now }
{
    segments.len() > 0x100_0000 / sections.len()
}

// A segment, with its sections.
#[derive(Drop)]
struct SegmentRow<'a> {
    names: Option<TerminatedStrings<'a>>,
    sections: &'a [SectionHeader],
}

impl Row for SegmentRow<'_> {
    type Item = ProgramHeader;

    ghost said = { λ row number segment. segment_sections_said row.names row.sections.now number segment };

    fn tell<T: Tell>(
        &self,
        number: u64,
        segment: &ProgramHeader,
        tell: &mut T,
    ) -> Result<(), Stop> {
        tell.state(&layouts::SEGMENT_SECTIONS, &segment_members(number))?;
        let row = SectionRow {
            names: &self.names,
            number,
            segment: *segment,
        };
        tell_slice(self.sections, &row, tell)?;
        tell.state(&layouts::SEGMENT_SECTIONS_END, &[])
    }
}

fn segment_members(number: u64) -> [Member<'static>; 1]
    ensures { members_said result ≡ segment_members number }
{
    [("segment", Value::Number(number))]
}

// A section, if it belongs to the segment of this number.
#[derive(Drop)]
struct SectionRow<'a> {
    names: &'a Option<TerminatedStrings<'a>>,
    number: u64,
    segment: ProgramHeader,
}

impl Row for SectionRow<'_> {
    type Item = SectionHeader;

    ghost said = { λ row number section.
        section_in_segment_said row.names.now row.number row.segment number section };

    fn tell<T: Tell>(
        &self,
        number: u64,
        section: &SectionHeader,
        tell: &mut T,
    ) -> Result<(), Stop> {
        if number != 0 && is_in_segment(section, &self.segment) {
            let members = segment_section_members(self.names, self.number, number, section);
            tell.state(&layouts::SEGMENT_SECTION, &members)
        } else {
            Ok(())
        }
    }
}

fn segment_section_members<'a>(
    names: &Option<TerminatedStrings<'a>>,
    segment: u64,
    number: u64,
    section: &SectionHeader,
) -> [Member<'a>; 3]
    ensures { members_said result ≡ segment_section_members names.now segment number section.now }
{
    [
        ("segment", Value::Number(segment)),
        ("section", Value::Number(number)),
        ("name", Value::Text(name_read(names, section))),
    ]
}

// The name of a section, if it can be read; no name if there are no names.
fn name_read<'a>(names: &Option<TerminatedStrings<'a>>, section: &SectionHeader) -> Option<&'a [u8]>
    ensures { option_copied result ≡ name_read names.now section.now }
{
    match names {
        Some(names) => names.get_raw(section.sh_name as usize).ok(),
        None => Some(&[]),
    }
}

// ---- whether a section belongs to a segment

fn is_in_segment(section: &SectionHeader, segment: &ProgramHeader) -> bool
    ensures { result ≡ is_in_segment section.now segment.now }
{
    fits_threads(section, segment)
        && !is_threads_alone(section, segment)
        && fits_memory(section, segment)
        && is_in_file(section, segment)
        && is_in_memory(section, segment)
        && fits_ends(section, segment)
}

fn has_flag(flag: u32, section: &SectionHeader) -> bool
    ensures { result ≡ has_flag flag section.now }
{
    section.sh_flags & flag as u64 != 0
}

fn has_no_bytes(section: &SectionHeader) -> bool
    ensures { result ≡ has_no_bytes section.now }
{
    section.sh_type == abi::SHT_NOBITS
}

fn is_of(p_type: u32, segment: &ProgramHeader) -> bool
    ensures { result ≡ is_of p_type segment.now }
{
    segment.p_type == p_type
}

fn fits_threads(section: &SectionHeader, segment: &ProgramHeader) -> bool
    ensures { result ≡ fits_threads section.now segment.now }
{
    if has_flag(abi::SHF_TLS, section) {
        is_of(abi::PT_TLS, segment)
            || is_of(abi::PT_GNU_RELRO, segment)
            || is_of(abi::PT_LOAD, segment)
    } else {
        !(is_of(abi::PT_TLS, segment) || is_of(abi::PT_PHDR, segment))
    }
}

fn is_threads_alone(section: &SectionHeader, segment: &ProgramHeader) -> bool
    ensures { result ≡ is_threads_alone section.now segment.now }
{
    has_flag(abi::SHF_TLS, section) && has_no_bytes(section) && !is_of(abi::PT_TLS, segment)
}

// Whether a type is `PT_GNU_SFRAME`, or one from `PT_GNU_MBIND_LO` to `PT_GNU_MBIND_HI`.
fn is_gnu_memory(p_type: u32) -> bool
    ensures { result ≡ is_gnu_memory p_type }
{
    0x6474_e554 <= p_type && p_type <= 0x6474_f554
}

fn is_memory(segment: &ProgramHeader) -> bool
    ensures { result ≡ is_memory segment.now }
{
    is_of(abi::PT_LOAD, segment)
        || is_of(abi::PT_DYNAMIC, segment)
        || is_of(abi::PT_GNU_EH_FRAME, segment)
        || is_of(abi::PT_GNU_STACK, segment)
        || is_of(abi::PT_GNU_RELRO, segment)
        || is_gnu_memory(segment.p_type)
}

fn fits_memory(section: &SectionHeader, segment: &ProgramHeader) -> bool
    ensures { result ≡ fits_memory section.now segment.now }
{
    has_flag(abi::SHF_ALLOC, section) || !is_memory(segment)
}

// Whether bytes lie in a range, by its start and length.
fn is_within(place: u64, size: u64, start: u64, length: u64) -> bool
    ensures { result ≡ is_within place size start length }
{
    if place < start {
        return false;
    }
    let before = place - start;
    (length == 0 || before < length) && before <= length && size <= length - before
}

fn is_in_file(section: &SectionHeader, segment: &ProgramHeader) -> bool
    ensures { result ≡ is_in_file section.now segment.now }
{
    has_no_bytes(section)
        || is_within(
            section.sh_offset,
            section.sh_size,
            segment.p_offset,
            segment.p_filesz,
        )
}

fn is_in_memory(section: &SectionHeader, segment: &ProgramHeader) -> bool
    ensures { result ≡ is_in_memory section.now segment.now }
{
    !has_flag(abi::SHF_ALLOC, section)
        || is_within(
            section.sh_addr,
            section.sh_size,
            segment.p_vaddr,
            segment.p_memsz,
        )
}

// Whether a place is in a range, and not its start.
fn is_inside(place: u64, start: u64, length: u64) -> bool
    ensures { result ≡ is_inside place start length }
{
    start < place && place - start < length
}

fn is_all_inside(section: &SectionHeader, segment: &ProgramHeader) -> bool
    ensures { result ≡ is_all_inside section.now segment.now }
{
    (has_no_bytes(section) || is_inside(section.sh_offset, segment.p_offset, segment.p_filesz))
        && (!has_flag(abi::SHF_ALLOC, section)
            || is_inside(section.sh_addr, segment.p_vaddr, segment.p_memsz))
}

fn fits_ends(section: &SectionHeader, segment: &ProgramHeader) -> bool
    ensures { result ≡ fits_ends section.now segment.now }
{
    !(is_of(abi::PT_DYNAMIC, segment) || is_of(abi::PT_NOTE, segment))
        || section.sh_size != 0
        || segment.p_memsz == 0
        || is_all_inside(section, segment)
}
