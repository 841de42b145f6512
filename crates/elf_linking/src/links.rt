//! What look-ups use of a file, from a source: its dynamic symbols, its hash section, its versions and its
//! relocations.
ghost use Rattle.std.specs.Prelude.{◌≡◌, IfSome, IsNone, OnOk};
ghost use Rattle.elf_reading.specs.Refusals.{HasReason};
ghost use Rattle.elf.specs.ElfStream.{Keeps};
ghost use Rattle.elf.specs.Parts.{loaded};
ghost use Rattle.elf.specs.StreamFile.{stream_file};
ghost use Rattle.elf_linking.specs.Following.{HasLinks, SameLinks};
ghost use Rattle.elf_linking.specs.Missing.{loaded_part};
ghost use Rattle.elf_linking.specs.inner.Missed.{missing_in, missing_uses};

use crate::bindings::uses::{UsesError, is_dynamic};
use crate::dynamic::{add_dynamic_uses, dynamic_symbols, hash_parts, versions};
use crate::laws::part_links_as_whole;
use crate::resolve::ObjectFault;
use elf::endian::EndianParse;
use elf::reader::Reader;
use elf::section::SectionHeader;
use elf::{ElfStream, ParseError, StreamSource};
use elf_dynamic::dynamic_view::DynamicError;
use std::alloc::Global;

// A range of a file, by its start and its end.
type Range = (u64, u64);

// The range that is missing, if that is the error.
fn missing_in<T>(found: &Result<T, ObjectFault>) -> Option<Range>
    ensures { result ≡ missing_in found.now }
{
    match found {
        Err(ObjectFault::Dynamic(DynamicError::Missing(range))) => Some(*range),
        _ => None,
    }
}

// The same of the uses.
fn missing_uses(added: &Result<(), UsesError>) -> Option<Range>
    ensures { result ≡ missing_uses added.now }
{
    match added {
        Err(UsesError::Dynamic(DynamicError::Missing(range))) => Some(*range),
        _ => None,
    }
}

// The first range that is missing of what look-ups use. Which symbols the relocations use does not matter for it.
fn missing_link<E: EndianParse, R: Reader<E>>(file: &R) -> Option<Range>
    ensures { IsNone result → HasLinks (loaded (R.file file.now) (R.ranges file.now)) }
{
    if let Some(range) = missing_in(&dynamic_symbols(file)) {
        return Some(range);
    }
    if let Some(range) = missing_in(&hash_parts(file)) {
        return Some(range);
    }
    if let Some(range) = missing_in(&versions(file)) {
        return Some(range);
    }
    missing_uses(&add_dynamic_uses(0, file, &mut []))
}

// Loads a range, if no more than this number of bytes are left to load range by range, and returns how many are left after
// it. A longer range lies in part in others: then the source is loaded whole.
fn load_within<E: EndianParse, S: StreamSource>(
    stream: &mut ElfStream<E, S, Global>,
    left: u64,
    range: Range,
) -> Result<u64, ParseError>
    ensures keeps { Keeps stream.old stream.new }
    ensures reason { IfSome stream.old.content (λ _.
        HasReason stream.old.failures stream.new.failures stream.old.can_fail ⊥ result) }
{
    let size = range.1.saturating_sub(range.0);
    match left.checked_sub(size) {
        Some(after) => {
            stream.load_range(range.0, size)?;
            Ok(after)
        }
        None => {
            let len = stream.source_len();
            stream.load_range(0, len)?;
            Ok(left)
        }
    }
}

// The bytes of a section, if they lie in a source of this length.
fn range_in(len: u64, section: &SectionHeader) -> Option<Range> {
    let end = section.sh_offset.checked_add(section.sh_size)?;
    if end <= len {
        Some((section.sh_offset, end))
    } else {
        None
    }
}

// Loads the sections of relocations of dynamic symbols. There may be thousands of them, and after each range
// that is missing the reading begins again. Returns how many bytes are left to load range by range.
fn load_relocations<E: EndianParse, S: StreamSource>(
    stream: &mut ElfStream<E, S, Global>,
) -> Result<u64, ParseError>
    ensures keeps { Keeps stream.old stream.new }
    ensures reason { IfSome stream.old.content (λ _.
        HasReason stream.old.failures stream.new.failures stream.old.can_fail ⊥ result) }
{
    let len = stream.source_len();
    let mut left = len;
    for index in 0..stream.section_headers().len() {
        let Some(section) = stream.section_headers().get(index) else {
            return Ok(left);
        };
        let section = *section;
        if is_dynamic(&*stream, &section)
            && let Some(range) = range_in(len, &section)
        {
            left = load_within(stream, left, range)?;
        }
    }
    Ok(left)
}

/// Loads what look-ups use of a file: what `dynamic_symbols`, `dynamic_object` and `add_dynamic_uses` read of it. After
/// this these return what they return of the whole file. Beside the headers at most twice the bytes of the source are
/// loaded: what is used range by range, and where ranges overlap so that together they are longer than the source, the
/// source once.
///
/// Errors: `IOError` if the source failed, `OutOfMemory` if an allocation failed. That the file is damaged is no error.
pub fn load_links<E: EndianParse, S: StreamSource>(
    stream: &mut ElfStream<E, S, Global>,
) -> Result<(), ParseError>
    ensures keeps { Keeps stream.old stream.new }
    ensures reason { IfSome stream.old.content (λ _.
        HasReason stream.old.failures stream.new.failures stream.old.can_fail ⊥ result) }
    ensures links { OnOk result (IfSome stream.new.content (λ bytes.
        SameLinks (stream_file E.little stream.new bytes) (loaded_part E.little stream.new))) }
{
    let mut left = load_relocations(stream)?;
    // Each round loads a range that was missing, and no source has that many.
    'rounds: for _ in 0..u64::MAX {
        stream.is_part_of_file();
        part_links_as_whole();
        let Some(range) = missing_link(&*stream) else {
            return Ok(());
        };
        left = load_within(stream, left, range)?;
    }
    Err(ParseError::OutOfMemory)
}
