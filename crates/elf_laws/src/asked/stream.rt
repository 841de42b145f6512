//! A call of each method of an `ElfStream`, its value dropped.
ghost use Rattle.elf.specs.Readers as method;
ghost use Rattle.elf_laws.specs.Asked.{WasCalled};

use elf::endian::EndianParse;
use elf::section::SectionHeader;
use elf::segment::ProgramHeader;
use elf::{ElfStream, ParseError, StreamSource};
use std::alloc::Allocator;

pub(super) fn call_section_headers<E: EndianParse, S: StreamSource, A: Allocator + Copy>(
    stream: &mut ElfStream<E, S, A>,
) -> Result<(), ParseError>
    ensures { WasCalled E.little stream.old method.SectionHeadersWithStrtab stream.new result }
{
    match stream.section_headers_with_strtab() {
        Ok(_) => Ok(()),
        Err(error) => Err(error),
    }
}

pub(super) fn call_by_name<E: EndianParse, S: StreamSource, A: Allocator + Copy>(
    stream: &mut ElfStream<E, S, A>,
    name: &str,
) -> Result<(), ParseError>
    ensures { WasCalled E.little stream.old (method.SectionHeaderByName name.now) stream.new result }
{
    match stream.section_header_by_name(name) {
        Ok(_) => Ok(()),
        Err(error) => Err(error),
    }
}

pub(super) fn call_data<E: EndianParse, S: StreamSource, A: Allocator + Copy>(
    stream: &mut ElfStream<E, S, A>,
    section: &SectionHeader,
) -> Result<(), ParseError>
    ensures { WasCalled E.little stream.old (method.SectionData section.now) stream.new result }
{
    match stream.section_data(section) {
        Ok(_) => Ok(()),
        Err(error) => Err(error),
    }
}

pub(super) fn call_strings<E: EndianParse, S: StreamSource, A: Allocator + Copy>(
    stream: &mut ElfStream<E, S, A>,
    section: &SectionHeader,
) -> Result<(), ParseError>
    ensures { WasCalled E.little stream.old (method.SectionDataAsStrtab section.now) stream.new result }
{
    match stream.section_data_as_strtab(section) {
        Ok(_) => Ok(()),
        Err(error) => Err(error),
    }
}

pub(super) fn call_rels<E: EndianParse, S: StreamSource, A: Allocator + Copy>(
    stream: &mut ElfStream<E, S, A>,
    section: &SectionHeader,
) -> Result<(), ParseError>
    ensures { WasCalled E.little stream.old (method.SectionDataAsRels section.now) stream.new result }
{
    match stream.section_data_as_rels(section) {
        Ok(_) => Ok(()),
        Err(error) => Err(error),
    }
}

pub(super) fn call_relas<E: EndianParse, S: StreamSource, A: Allocator + Copy>(
    stream: &mut ElfStream<E, S, A>,
    section: &SectionHeader,
) -> Result<(), ParseError>
    ensures { WasCalled E.little stream.old (method.SectionDataAsRelas section.now) stream.new result }
{
    match stream.section_data_as_relas(section) {
        Ok(_) => Ok(()),
        Err(error) => Err(error),
    }
}

pub(super) fn call_notes<E: EndianParse, S: StreamSource, A: Allocator + Copy>(
    stream: &mut ElfStream<E, S, A>,
    section: &SectionHeader,
) -> Result<(), ParseError>
    ensures { WasCalled E.little stream.old (method.SectionDataAsNotes section.now) stream.new result }
{
    match stream.section_data_as_notes(section) {
        Ok(_) => Ok(()),
        Err(error) => Err(error),
    }
}

pub(super) fn call_segment<E: EndianParse, S: StreamSource, A: Allocator + Copy>(
    stream: &mut ElfStream<E, S, A>,
    segment: &ProgramHeader,
) -> Result<(), ParseError>
    ensures { WasCalled E.little stream.old (method.SegmentData segment.now) stream.new result }
{
    match stream.segment_data(segment) {
        Ok(_) => Ok(()),
        Err(error) => Err(error),
    }
}

pub(super) fn call_segment_notes<E: EndianParse, S: StreamSource, A: Allocator + Copy>(
    stream: &mut ElfStream<E, S, A>,
    segment: &ProgramHeader,
) -> Result<(), ParseError>
    ensures { WasCalled E.little stream.old (method.SegmentDataAsNotes segment.now) stream.new result }
{
    match stream.segment_data_as_notes(segment) {
        Ok(_) => Ok(()),
        Err(error) => Err(error),
    }
}

pub(super) fn call_symbols<E: EndianParse, S: StreamSource, A: Allocator + Copy>(
    stream: &mut ElfStream<E, S, A>,
) -> Result<(), ParseError>
    ensures { WasCalled E.little stream.old method.SymbolTable stream.new result }
{
    match stream.symbol_table() {
        Ok(_) => Ok(()),
        Err(error) => Err(error),
    }
}

pub(super) fn call_dynamic_symbols<E: EndianParse, S: StreamSource, A: Allocator + Copy>(
    stream: &mut ElfStream<E, S, A>,
) -> Result<(), ParseError>
    ensures { WasCalled E.little stream.old method.DynamicSymbolTable stream.new result }
{
    match stream.dynamic_symbol_table() {
        Ok(_) => Ok(()),
        Err(error) => Err(error),
    }
}

pub(super) fn call_dynamic<E: EndianParse, S: StreamSource, A: Allocator + Copy>(
    stream: &mut ElfStream<E, S, A>,
) -> Result<(), ParseError>
    ensures { WasCalled E.little stream.old method.Dynamic stream.new result }
{
    match stream.dynamic() {
        Ok(_) => Ok(()),
        Err(error) => Err(error),
    }
}

pub(super) fn call_versions<E: EndianParse, S: StreamSource, A: Allocator + Copy>(
    stream: &mut ElfStream<E, S, A>,
) -> Result<(), ParseError>
    ensures { WasCalled E.little stream.old method.SymbolVersionTable stream.new result }
{
    match stream.symbol_version_table() {
        Ok(_) => Ok(()),
        Err(error) => Err(error),
    }
}
