//! The calls of the methods that both readers have, as values: a file answers one, and one of a stream is made. The
//! contracts say that these calls are those of which the laws of both readers speak, as `calls_answer_alike`. Lists of
//! calls are made in `loads`.
ghost use Rattle.elf.specs.ElfBytes.{view};
ghost use Rattle.elf_laws.specs.Asked.{Tells, WasCalled, WasMade, method_of};

mod file;
mod stream;

use elf::compression::CompressionHeader;
use elf::dynamic::DynamicTable;
use elf::endian::EndianParse;
use elf::file::FileHeader;
use elf::gnu_symver::SymbolVersionTable;
use elf::note::NoteIterator;
use elf::relocation::{RelIterator, RelaIterator};
use elf::section::{SectionHeader, SectionHeaderTable};
use elf::segment::ProgramHeader;
use elf::string_table::StringTable;
use elf::symbol::SymbolTable;
use elf::{ElfBytes, ElfStream, ParseError, StreamSource};
use std::alloc::Allocator;

/// A call of a method that `ElfBytes` and `ElfStream` both have: the method of this name, with its arguments.
#[derive(Clone, Copy, Debug)]
pub enum Asked<'a> {
    SectionHeadersWithStrtab,
    SectionHeaderByName(&'a str),
    SectionData(SectionHeader),
    SectionDataAsStrtab(SectionHeader),
    SectionDataAsRels(SectionHeader),
    SectionDataAsRelas(SectionHeader),
    SectionDataAsNotes(SectionHeader),
    SegmentData(ProgramHeader),
    SegmentDataAsNotes(ProgramHeader),
    SymbolTable,
    DynamicSymbolTable,
    Dynamic,
    SymbolVersionTable,
}

/// What the method of `ElfBytes` of this name returned.
#[derive(Debug, Drop)]
pub enum Told<'data, E: EndianParse> {
    SectionHeadersWithStrtab(
        (
            Option<SectionHeaderTable<'data, E>>,
            Option<StringTable<'data>>,
        ),
    ),
    SectionHeaderByName(Option<SectionHeader>),
    SectionData((&'data [u8], Option<CompressionHeader>)),
    SectionDataAsStrtab(StringTable<'data>),
    SectionDataAsRels(RelIterator<'data, E>),
    SectionDataAsRelas(RelaIterator<'data, E>),
    SectionDataAsNotes(NoteIterator<'data, E>),
    SegmentData(&'data [u8]),
    SegmentDataAsNotes(NoteIterator<'data, E>),
    SymbolTable(Option<(SymbolTable<'data, E>, StringTable<'data>)>),
    DynamicSymbolTable(Option<(SymbolTable<'data, E>, StringTable<'data>)>),
    Dynamic(Option<DynamicTable<'data, E>>),
    SymbolVersionTable(Option<SymbolVersionTable<'data, E>>),
}

/// Calls a method of `ElfBytes`, and returns what it returns: what the definition of the method gives for the file, as
/// its bytes, its tables and its `ehdr` are now.
pub fn ask<'data, E: EndianParse>(
    file: &ElfBytes<'data, E>,
    asked: &Asked<'_>,
) -> Result<Told<'data, E>, ParseError>
    ensures { Tells E.little (view file.now) (method_of asked.now) result }
{
    match asked {
        Asked::SectionHeadersWithStrtab => file::tell_section_headers(file),
        Asked::SectionHeaderByName(name) => file::tell_by_name(file, name),
        Asked::SectionData(section) => file::tell_data(file, section),
        Asked::SectionDataAsStrtab(section) => file::tell_strings(file, section),
        Asked::SectionDataAsRels(section) => file::tell_rels(file, section),
        Asked::SectionDataAsRelas(section) => file::tell_relas(file, section),
        Asked::SectionDataAsNotes(section) => file::tell_notes(file, section),
        Asked::SegmentData(segment) => file::tell_segment(file, segment),
        Asked::SegmentDataAsNotes(segment) => file::tell_segment_notes(file, segment),
        Asked::SymbolTable => file::tell_symbols(file),
        Asked::DynamicSymbolTable => file::tell_dynamic_symbols(file),
        Asked::Dynamic => file::tell_dynamic(file),
        Asked::SymbolVersionTable => file::tell_versions(file),
    }
}

/// Puts a header into `ehdr` of a stream and calls a method. Its value is dropped, and its error returned.
///
/// This was a call, as the law `calls_answer_alike` speaks of calls: it has the header, the method, and a result.
pub fn make<E: EndianParse, S: StreamSource, A: Allocator + Copy>(
    stream: &mut ElfStream<E, S, A>,
    header: FileHeader<E>,
    asked: &Asked<'_>,
) -> Result<(), ParseError>
    ensures { WasMade E.little stream.old header (method_of asked.now) stream.new result }
{
    stream.ehdr = header;
    call(stream, asked)
}

// Calls a method of a stream, with the header that it has.
fn call<E: EndianParse, S: StreamSource, A: Allocator + Copy>(
    stream: &mut ElfStream<E, S, A>,
    asked: &Asked<'_>,
) -> Result<(), ParseError>
    ensures { WasCalled E.little stream.old (method_of asked.now) stream.new result }
{
    match asked {
        Asked::SectionHeadersWithStrtab => stream::call_section_headers(stream),
        Asked::SectionHeaderByName(name) => stream::call_by_name(stream, name),
        Asked::SectionData(section) => stream::call_data(stream, section),
        Asked::SectionDataAsStrtab(section) => stream::call_strings(stream, section),
        Asked::SectionDataAsRels(section) => stream::call_rels(stream, section),
        Asked::SectionDataAsRelas(section) => stream::call_relas(stream, section),
        Asked::SectionDataAsNotes(section) => stream::call_notes(stream, section),
        Asked::SegmentData(segment) => stream::call_segment(stream, segment),
        Asked::SegmentDataAsNotes(segment) => stream::call_segment_notes(stream, segment),
        Asked::SymbolTable => stream::call_symbols(stream),
        Asked::DynamicSymbolTable => stream::call_dynamic_symbols(stream),
        Asked::Dynamic => stream::call_dynamic(stream),
        Asked::SymbolVersionTable => stream::call_versions(stream),
    }
}
