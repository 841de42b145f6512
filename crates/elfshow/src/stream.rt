//! The text of a call over an `ElfStream`: what the call reads is loaded, and then read as of any other reader.
ghost use Rattle.std.specs.Prelude.{◌≡◌, [], ◌∷◌, IfSome, OnOk, slice_get};
ghost use Rattle.std.specs.Io.KnownBytes.{Appends};
ghost use Rattle.elf.specs.Loaded.{AreLoadedOf, loaded_ranges, streamed_file};
ghost use Rattle.elf.specs.Parts.{loaded};
ghost use Rattle.elf.specs.Readers as methods;
ghost use Rattle.elf_reading.specs.Refusals.{kind};
ghost use Rattle.elfshow.specs.Question.{question};
ghost use Rattle.elfshow.specs.Ranges.{if_present, loads_of};
ghost use Rattle.elfshow.specs.Stream.{RanCall};
ghost use Rattle.elfshow.specs.Text.{call_text};
ghost use Rattle.elfshow.specs.inner.CallSteps.{IsWritten, LeadsTo, LeavesAll};
ghost use Rattle.elfshow.specs.inner.CallSteps.{is_wanted, section_loads, segment_loads};

use crate::calls::Call;
use crate::text;
use elf::endian::EndianParse;
use elf::section::SectionHeader;
use elf::segment::ProgramHeader;
use elf::{ElfStream, ParseError, StreamSource, abi};
use elfshow_lines::no_answer::write_refused;
use elfshow_lines::versions::HeapRoom;
use std::alloc::Allocator;
use std::io;
use std::io::Write;

/// What stopped a call over a stream.
#[derive(Debug, Drop)]
pub enum Stop {
    /// The source of the file or an allocation failed.
    Fault(ParseError),
    /// The writer failed.
    Write(io::Error),
}

/// Writes the text of a call over a stream. A call for which the stream returns an error other than `IOError` and
/// `OutOfMemory` writes the line `refused`.
///
/// No range is cached that was not cached before and does not lie within a range that the call requests. If the
/// requested ranges are cached, the stream is unchanged, and there is no `Fault`. The source and memory are used only
/// for a requested range that was not cached; places for versions are allocated too, but if that fails it is no error.
/// After `Ok` the ranges of a call that has a result are cached.
///
/// Errors over known content, in order: `Fault` if the source or an allocation failed, with nothing written; `Write` if
/// the writer fails.
pub fn write_call<E: EndianParse, S: StreamSource, A: Allocator + Copy, W: Write>(
    stream: &mut ElfStream<E, S, A>,
    call: Call<'_>,
    out: &mut W,
) -> Result<(), Stop>
    ensures { RanCall E.little (question call.entry) stream.old stream.new
        (W.contents out.old) (W.contents out.new) result }
{
    match load_call(stream, call) {
        Ok(()) => or_stop(write_loaded(stream, call, out)),
        Err(error) => refuse(error, out),
    }
}

// Writes the text of a call from what is loaded of its content.
fn write_loaded<E: EndianParse, S: StreamSource, A: Allocator + Copy, W: Write>(
    stream: &ElfStream<E, S, A>,
    call: Call<'_>,
    out: &mut W,
) -> io::Result<()>
    ensures known { IfSome stream.now.content (λ bytes. AreLoadedOf E.little stream.now bytes) }
    ensures text { OnOk result (Appends (W.contents out.old) (W.contents out.new)
        (call_text stream.now.headers.ehdr (loaded (streamed_file E.little stream.now) (loaded_ranges stream.now))
        (question call.entry))) }
{
    stream.is_part_of_file();
    let room = HeapRoom {
        alloc: *stream.section_headers().allocator(),
    };
    text::write_call(stream, &stream.ehdr, call, &room, out)
}

// Loads what a call reads.
fn load_call<E: EndianParse, S: StreamSource, A: Allocator + Copy>(
    stream: &mut ElfStream<E, S, A>,
    call: Call<'_>,
) -> Result<(), ParseError>
    ensures { LeavesAll E.little
        (loads_of stream.old.headers.sections stream.old.headers.segments (question call.entry))
        stream.old stream.new result }
{
    match call {
        Call::Header => Ok(()),
        Call::Sections => load_names(stream),
        Call::Segments => Ok(()),
        Call::Name(_) => load_names(stream),
        Call::Data(index) => load_section(stream, index, None),
        Call::Strings(index) => load_section(stream, index, Some(abi::SHT_STRTAB)),
        Call::Rels(index) => load_section(stream, index, Some(abi::SHT_REL)),
        Call::Relas(index) => load_section(stream, index, Some(abi::SHT_RELA)),
        Call::Notes(index) => load_section(stream, index, Some(abi::SHT_NOTE)),
        Call::Seg(index) => load_segment(stream, index, None),
        Call::SegNotes(index) => load_segment(stream, index, Some(abi::PT_NOTE)),
        Call::Symbols => load_symbols(stream),
        Call::DynSyms => load_dynamic_symbols(stream),
        Call::Dynamic => load_dynamic(stream),
        Call::Versions => load_versions(stream),
        Call::Sysv(index) => load_hash_section(stream, index),
        Call::Gnu(index) => load_hash_section(stream, index),
    }
}

fn load_names<E: EndianParse, S: StreamSource, A: Allocator + Copy>(
    stream: &mut ElfStream<E, S, A>,
) -> Result<(), ParseError>
    ensures { LeavesAll E.little (methods.SectionHeadersWithStrtab ∷ []) stream.old stream.new result }
{
    match stream.section_headers_with_strtab() {
        Ok(_) => Ok(()),
        Err(error) => Err(error),
    }
}

fn load_symbols<E: EndianParse, S: StreamSource, A: Allocator + Copy>(
    stream: &mut ElfStream<E, S, A>,
) -> Result<(), ParseError>
    ensures { LeavesAll E.little (methods.SymbolTable ∷ []) stream.old stream.new result }
{
    match stream.symbol_table() {
        Ok(_) => Ok(()),
        Err(error) => Err(error),
    }
}

fn load_dynamic_symbols<E: EndianParse, S: StreamSource, A: Allocator + Copy>(
    stream: &mut ElfStream<E, S, A>,
) -> Result<(), ParseError>
    ensures { LeavesAll E.little (methods.DynamicSymbolTable ∷ []) stream.old stream.new result }
{
    match stream.dynamic_symbol_table() {
        Ok(_) => Ok(()),
        Err(error) => Err(error),
    }
}

fn load_dynamic<E: EndianParse, S: StreamSource, A: Allocator + Copy>(
    stream: &mut ElfStream<E, S, A>,
) -> Result<(), ParseError>
    ensures { LeavesAll E.little (methods.Dynamic ∷ []) stream.old stream.new result }
{
    match stream.dynamic() {
        Ok(_) => Ok(()),
        Err(error) => Err(error),
    }
}

fn load_version_table<E: EndianParse, S: StreamSource, A: Allocator + Copy>(
    stream: &mut ElfStream<E, S, A>,
) -> Result<(), ParseError>
    ensures { LeavesAll E.little (methods.SymbolVersionTable ∷ []) stream.old stream.new result }
{
    match stream.symbol_version_table() {
        Ok(_) => Ok(()),
        Err(error) => Err(error),
    }
}

fn load_versions<E: EndianParse, S: StreamSource, A: Allocator + Copy>(
    stream: &mut ElfStream<E, S, A>,
) -> Result<(), ParseError>
    ensures { LeavesAll E.little (methods.DynamicSymbolTable ∷ methods.SymbolVersionTable ∷ [])
        stream.old stream.new result }
{
    match load_dynamic_symbols(stream) {
        Ok(()) => load_version_table(stream),
        Err(error) => Err(error),
    }
}

fn load_section_data<E: EndianParse, S: StreamSource, A: Allocator + Copy>(
    stream: &mut ElfStream<E, S, A>,
    section: &SectionHeader,
) -> Result<(), ParseError>
    ensures { LeavesAll E.little (methods.SectionData section.now ∷ []) stream.old stream.new result }
{
    match stream.section_data(section) {
        Ok(_) => Ok(()),
        Err(error) => Err(error),
    }
}

fn load_segment_data<E: EndianParse, S: StreamSource, A: Allocator + Copy>(
    stream: &mut ElfStream<E, S, A>,
    segment: &ProgramHeader,
) -> Result<(), ParseError>
    ensures { LeavesAll E.little (methods.SegmentData segment.now ∷ []) stream.old stream.new result }
{
    match stream.segment_data(segment) {
        Ok(_) => Ok(()),
        Err(error) => Err(error),
    }
}

// Whether a type is the one that is wanted, or none is.
fn is_wanted(wanted: Option<u32>, found: u32) -> bool
    ensures { result ≡ is_wanted wanted found }
{
    match wanted {
        Some(wanted) => found == wanted,
        None => true,
    }
}

// Loads a section, if there is one of this index, and if it has the type that is wanted.
fn load_section<E: EndianParse, S: StreamSource, A: Allocator + Copy>(
    stream: &mut ElfStream<E, S, A>,
    index: u64,
    wanted: Option<u32>,
) -> Result<(), ParseError>
    ensures { LeavesAll E.little (if_present (section_loads wanted) (slice_get stream.old.headers.sections index))
        stream.old stream.new result }
{
    let Some(section) = stream.section_headers().get(index as usize).copied() else {
        return Ok(());
    };
    if is_wanted(wanted, section.sh_type) {
        load_section_data(stream, &section)
    } else {
        Ok(())
    }
}

// Loads a segment, if there is one of this index, and if it has the type that is wanted.
fn load_segment<E: EndianParse, S: StreamSource, A: Allocator + Copy>(
    stream: &mut ElfStream<E, S, A>,
    index: u64,
    wanted: Option<u32>,
) -> Result<(), ParseError>
    ensures { LeavesAll E.little (if_present (segment_loads wanted) (slice_get stream.old.headers.segments index))
        stream.old stream.new result }
{
    let Some(segment) = stream.segments().get(index as usize).copied() else {
        return Ok(());
    };
    if is_wanted(wanted, segment.p_type) {
        load_segment_data(stream, &segment)
    } else {
        Ok(())
    }
}

// Loads a section, and the symbols that it is checked for.
fn load_checked<E: EndianParse, S: StreamSource, A: Allocator + Copy>(
    stream: &mut ElfStream<E, S, A>,
    section: &SectionHeader,
) -> Result<(), ParseError>
    ensures { LeavesAll E.little (methods.SectionData section.now ∷ methods.DynamicSymbolTable ∷ [])
        stream.old stream.new result }
{
    match load_section_data(stream, section) {
        Ok(()) => load_dynamic_symbols(stream),
        Err(error) => Err(error),
    }
}

// The same, if there is a section of this index.
fn load_hash_section<E: EndianParse, S: StreamSource, A: Allocator + Copy>(
    stream: &mut ElfStream<E, S, A>,
    index: u64,
) -> Result<(), ParseError>
    ensures { LeavesAll E.little (if_present (λ s. methods.SectionData s ∷ methods.DynamicSymbolTable ∷ [])
        (slice_get stream.old.headers.sections index)) stream.old stream.new result }
{
    match stream.section_headers().get(index as usize).copied() {
        Some(section) => load_checked(stream, &section),
        None => Ok(()),
    }
}

// The result of a write, as that of a call over a stream.
fn or_stop(written: io::Result<()>) -> Result<(), Stop>
    ensures { IsWritten written result }
{
    match written {
        Ok(()) => Ok(()),
        Err(error) => Err(Stop::Write(error)),
    }
}

// Stops at a failure of the source or of an allocation. For any other error writes the line `refused`.
fn refuse<W: Write>(error: ParseError, out: &mut W) -> Result<(), Stop>
    ensures { LeadsTo (kind error) (W.contents out.old) (W.contents out.new) result }
{
    match error {
        ParseError::IOError(error) => Err(Stop::Fault(ParseError::IOError(error))),
        ParseError::OutOfMemory => Err(Stop::Fault(ParseError::OutOfMemory)),
        _ => or_stop(write_refused(out)),
    }
}
