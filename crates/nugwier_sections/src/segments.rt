//! The segments.
#![tactic(auto, using(nugwier_report::proofs::Saying::saying_both))]

ghost use Rattle.std.specs.Prelude.{◌≡◌, OnOk};
ghost use Rattle.nugwier_sections.specs.Segments.{interpreter_in, said_of_segments, segments_said};
ghost use Rattle.nugwier_report.specs.Whole.{file_of};
ghost use Rattle.nugwier_report.specs.Said.{numbered, saying};

use crate::segment_rows::{SegmentRow, tell_interpreter};
use crate::segment_sections::tell_segments_sections;
use elf::abi;
use elf::endian::EndianParse;
use elf::segment::ProgramHeader;
use elf::string_table::StringTable;
use nugwier_layouts::layouts;
use nugwier_report::headings::{count_members, known_names};
use nugwier_report::listed::ListedFile;
use nugwier_report::problem::{Part, Stop};
use nugwier_report::reading;
use nugwier_report::rows::tell_slice;
use nugwier_report::tell::Tell;

/// Tells the segments, the programs that load the file, and the sections of each segment.
pub fn tell_segments<E: EndianParse, R: ListedFile<E>, T: Tell>(
    file: &R,
    tell: &mut T,
) -> Result<(), Stop>
    ensures { OnOk result (tell.new ≡ saying T.one tell.old
        (said_of_segments (R.header file.now).e_machine (file_of (R.file file.now) (R.bytes file.now)))) }
{
    let segments = file.segment_list();
    tell_headers(file.file_header().e_machine, segments, tell)?;
    tell_interpreters(file, tell)?;
    let names = known_names(file)?;
    tell_segments_sections(names, file.section_list(), segments, tell)
}

// Tells the segments of a file for this machine (`e_machine`), if there are any.
fn tell_headers<T: Tell>(machine: u16, segments: &[ProgramHeader], tell: &mut T) -> Result<(), Stop>
    ensures { OnOk result (tell.new ≡ saying T.one tell.old (segments_said machine segments.now)) }
{
    if segments.is_empty() {
        return Ok(());
    }
    tell.state(&layouts::SEGMENTS_HEADING, &count_members(segments.len()))?;
    tell_slice(segments, &SegmentRow { machine }, tell)
}

// Tells the paths of the programs that load the file.
fn tell_interpreters<E: EndianParse, R: ListedFile<E>, T: Tell>(
    file: &R,
    tell: &mut T,
) -> Result<(), Stop>
    ensures { let whole = file_of (R.file file.now) (R.bytes file.now) in
        OnOk result (tell.new ≡ saying T.one tell.old (numbered (interpreter_in whole) 0 whole.segments)) }
{
    let mut number = 0;
    for segment in file.segment_list() {
        tell_path(file, number, segment, tell)?;
        number += 1;
    }
    Ok(())
}

// Tells the path in a segment, up to a 0 byte, if the segment has one.
fn tell_path<E: EndianParse, R: ListedFile<E>, T: Tell>(
    file: &R,
    number: u64,
    segment: &ProgramHeader,
    tell: &mut T,
) -> Result<(), Stop>
    ensures { OnOk result (tell.new ≡ saying T.one tell.old
        (interpreter_in (file_of (R.file file.now) (R.bytes file.now)) number segment.now)) }
{
    if segment.p_type != abi::PT_INTERP {
        return Ok(());
    }
    let place = Part::Segment(number).whole();
    match reading::segment_data(file, segment)? {
        Ok(bytes) => match StringTable::new(bytes).get_raw(0) {
            Ok(path) => tell_interpreter(number, path, tell),
            Err(error) => tell.problem(place, &error),
        },
        Err(error) => tell.problem(place, &error),
    }
}
