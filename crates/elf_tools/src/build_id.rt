//! The build id of a file, which distinguishes one build from all others.
ghost use Rattle.std.specs.Prelude.{◌≡◌, IfErr, Ok};
ghost use Rattle.std.specs.Option.{option_map};
ghost use Rattle.elf_parts.specs.Note.{notes_left};
ghost use Rattle.elf_records.specs.Number.{ok_map};
ghost use Rattle.elf.specs.Parts.{IsPlain, loaded};
ghost use Rattle.elf.specs.StreamFile.{stream_file};
ghost use Rattle.elf_reading.specs.Refusals.{Kind, kind};
ghost use Rattle.elf_tools.specs.BuildId.{MissesId, build_id, first_id, sections_id, segments_id};
ghost use Rattle.elf_linking.specs.Missing.{LoadsMissing, loaded_part};
ghost use Rattle.elf_linking.specs.Readings.{IsCopy, NeedsMemory, ReadsFile};

use elf::endian::EndianParse;
use elf::note::{Note, NoteIterator};
use elf::reader::{Reader, section_data_as_notes, segment_data_as_notes};
use elf::{ElfStream, ParseError, ReadError, StreamSource, abi};
use std::alloc::Global;

// The first build id among some notes.
fn first_id<'data, E: EndianParse>(notes: NoteIterator<'data, E>) -> Option<&'data [u8]>
    ensures { option_map (λ id. id.now) result ≡ first_id (notes_left notes.entry) }
{
    for note in notes {
        if let Note::GnuBuildId(id) = note {
            return Some(id.0);
        }
    }
    None
}

// The first build id among the notes of the segments.
fn segments_id<'f, E: EndianParse, R: Reader<E>>(file: &'f R) -> Result<Option<&'f [u8]>, ReadError>
    ensures value { ok_map (option_map (λ id. id.now)) result
        ≡ segments_id (loaded (R.file file.now) (R.ranges file.now)) }
    ensures plain { IfErr result IsPlain }
{
    for segment in file.each_segment() {
        if segment.p_type == abi::PT_NOTE
            && let Some(id) = first_id(segment_data_as_notes(file, &segment)?)
        {
            return Ok(Some(id));
        }
    }
    Ok(None)
}

// The first build id among the notes of the sections.
fn sections_id<'f, E: EndianParse, R: Reader<E>>(file: &'f R) -> Result<Option<&'f [u8]>, ReadError>
    ensures value { ok_map (option_map (λ id. id.now)) result
        ≡ sections_id (loaded (R.file file.now) (R.ranges file.now)) }
    ensures plain { IfErr result IsPlain }
{
    for section in file.each_section() {
        if section.sh_type == abi::SHT_NOTE
            && let Some(id) = first_id(section_data_as_notes(file, &section)?)
        {
            return Ok(Some(id));
        }
    }
    Ok(None)
}

/// Returns the bytes of the first build id among the notes of the segments of type `PT_NOTE` or, if these have none, of
/// the sections of type `SHT_NOTE`. Returns `None` if there is none. The error is that of `segment_data_as_notes` or
/// `section_data_as_notes` for the first segment or section before the build id that cannot be read. Of a stream it
/// reads what is loaded; `read_build_id` loads the rest.
///
/// ```rust
/// if let Some(id) = build_id(&file)? {
///     for byte in id {
///         print!(rt; "{byte:02x}")?;
///     }
/// }
/// ```
pub fn build_id<'f, E: EndianParse, R: Reader<E>>(
    file: &'f R,
) -> Result<Option<&'f [u8]>, ReadError>
    ensures value { ok_map (option_map (λ id. id.now)) result
        ≡ build_id (loaded (R.file file.now) (R.ranges file.now)) }
    ensures plain { IfErr result IsPlain }
{
    match segments_id(file)? {
        Some(id) => Ok(Some(id)),
        None => sections_id(file),
    }
}

// A copy of a build id, if there is one.
fn copied(alloc: Global, id: Option<&[u8]>) -> Result<Option<Vec<u8>>, ParseError>
    ensures { IsCopy (λ copy. copy.items) (Ok (option_map (λ id. id.now) id.entry)) result }
{
    match id {
        Some(id) => Ok(Some(id.to_vec(alloc)?)),
        None => Ok(None),
    }
}

/// Returns of a stream what `build_id` returns of a file in memory, copied. Loads each range that is missing, and no
/// other: the segments and sections of notes, in their order, up to the one that has the build id.
///
/// The error is that of `build_id`; `IOError` exactly if the source failed; or `OutOfMemory` if an allocation failed,
/// which is possible only if a range was missing or the file has a build id, which is copied.
pub fn read_build_id<E: EndianParse, S: StreamSource>(
    alloc: Global,
    stream: &mut ElfStream<E, S, Global>,
) -> Result<Option<Vec<u8>>, ParseError>
    ensures id { ReadsFile kind (option_map (λ id. id.items)) (λ bytes. build_id (stream_file E.little stream.old bytes))
        stream.old stream.new result }
    ensures memory { IfErr result (λ e. kind e ≡ Kind.AllocationFailure
        → NeedsMemory (build_id (loaded_part E.little stream.old))) }
    ensures only { LoadsMissing E.little MissesId stream.old stream.new }
{
    // Each round loads a range that was missing, and no source has that many.
    'rounds: for round in 0..u64::MAX {
        stream.is_part_of_file();
        let error = match build_id(&*stream) {
            Ok(id) => return copied(alloc, id),
            Err(error) => error,
        };
        match error {
            ReadError::Parse(error) => return Err(error),
            ReadError::NotLoaded((start, end)) => {
                stream.load_range(start, end.saturating_sub(start))?;
            }
        }
    }
    Err(ParseError::OutOfMemory)
}
