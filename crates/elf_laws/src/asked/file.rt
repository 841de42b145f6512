//! What each method of an `ElfBytes` returns, as one type.
ghost use Rattle.elf.specs.ElfBytes.{view};
ghost use Rattle.elf.specs.Readers as method;
ghost use Rattle.elf_laws.specs.Asked.{Tells};

use super::Told;
use elf::endian::EndianParse;
use elf::section::SectionHeader;
use elf::segment::ProgramHeader;
use elf::{ElfBytes, ParseError};

pub(super) fn tell_section_headers<'data, E: EndianParse>(
    file: &ElfBytes<'data, E>,
) -> Result<Told<'data, E>, ParseError>
    ensures { Tells E.little (view file.now) method.SectionHeadersWithStrtab result }
{
    match file.section_headers_with_strtab() {
        Ok(found) => Ok(Told::SectionHeadersWithStrtab(found)),
        Err(error) => Err(error),
    }
}

pub(super) fn tell_by_name<'data, E: EndianParse>(
    file: &ElfBytes<'data, E>,
    name: &str,
) -> Result<Told<'data, E>, ParseError>
    ensures { Tells E.little (view file.now) (method.SectionHeaderByName name.now) result }
{
    match file.section_header_by_name(name) {
        Ok(found) => Ok(Told::SectionHeaderByName(found)),
        Err(error) => Err(error),
    }
}

pub(super) fn tell_data<'data, E: EndianParse>(
    file: &ElfBytes<'data, E>,
    section: &SectionHeader,
) -> Result<Told<'data, E>, ParseError>
    ensures { Tells E.little (view file.now) (method.SectionData section.now) result }
{
    match file.section_data(section) {
        Ok(found) => Ok(Told::SectionData(found)),
        Err(error) => Err(error),
    }
}

pub(super) fn tell_strings<'data, E: EndianParse>(
    file: &ElfBytes<'data, E>,
    section: &SectionHeader,
) -> Result<Told<'data, E>, ParseError>
    ensures { Tells E.little (view file.now) (method.SectionDataAsStrtab section.now) result }
{
    match file.section_data_as_strtab(section) {
        Ok(found) => Ok(Told::SectionDataAsStrtab(found)),
        Err(error) => Err(error),
    }
}

pub(super) fn tell_rels<'data, E: EndianParse>(
    file: &ElfBytes<'data, E>,
    section: &SectionHeader,
) -> Result<Told<'data, E>, ParseError>
    ensures { Tells E.little (view file.now) (method.SectionDataAsRels section.now) result }
{
    match file.section_data_as_rels(section) {
        Ok(found) => Ok(Told::SectionDataAsRels(found)),
        Err(error) => Err(error),
    }
}

pub(super) fn tell_relas<'data, E: EndianParse>(
    file: &ElfBytes<'data, E>,
    section: &SectionHeader,
) -> Result<Told<'data, E>, ParseError>
    ensures { Tells E.little (view file.now) (method.SectionDataAsRelas section.now) result }
{
    match file.section_data_as_relas(section) {
        Ok(found) => Ok(Told::SectionDataAsRelas(found)),
        Err(error) => Err(error),
    }
}

pub(super) fn tell_notes<'data, E: EndianParse>(
    file: &ElfBytes<'data, E>,
    section: &SectionHeader,
) -> Result<Told<'data, E>, ParseError>
    ensures { Tells E.little (view file.now) (method.SectionDataAsNotes section.now) result }
{
    match file.section_data_as_notes(section) {
        Ok(found) => Ok(Told::SectionDataAsNotes(found)),
        Err(error) => Err(error),
    }
}

pub(super) fn tell_segment<'data, E: EndianParse>(
    file: &ElfBytes<'data, E>,
    segment: &ProgramHeader,
) -> Result<Told<'data, E>, ParseError>
    ensures { Tells E.little (view file.now) (method.SegmentData segment.now) result }
{
    match file.segment_data(segment) {
        Ok(found) => Ok(Told::SegmentData(found)),
        Err(error) => Err(error),
    }
}

pub(super) fn tell_segment_notes<'data, E: EndianParse>(
    file: &ElfBytes<'data, E>,
    segment: &ProgramHeader,
) -> Result<Told<'data, E>, ParseError>
    ensures { Tells E.little (view file.now) (method.SegmentDataAsNotes segment.now) result }
{
    match file.segment_data_as_notes(segment) {
        Ok(found) => Ok(Told::SegmentDataAsNotes(found)),
        Err(error) => Err(error),
    }
}

pub(super) fn tell_symbols<'data, E: EndianParse>(
    file: &ElfBytes<'data, E>,
) -> Result<Told<'data, E>, ParseError>
    ensures { Tells E.little (view file.now) method.SymbolTable result }
{
    match file.symbol_table() {
        Ok(found) => Ok(Told::SymbolTable(found)),
        Err(error) => Err(error),
    }
}

pub(super) fn tell_dynamic_symbols<'data, E: EndianParse>(
    file: &ElfBytes<'data, E>,
) -> Result<Told<'data, E>, ParseError>
    ensures { Tells E.little (view file.now) method.DynamicSymbolTable result }
{
    match file.dynamic_symbol_table() {
        Ok(found) => Ok(Told::DynamicSymbolTable(found)),
        Err(error) => Err(error),
    }
}

pub(super) fn tell_dynamic<'data, E: EndianParse>(
    file: &ElfBytes<'data, E>,
) -> Result<Told<'data, E>, ParseError>
    ensures { Tells E.little (view file.now) method.Dynamic result }
{
    match file.dynamic() {
        Ok(found) => Ok(Told::Dynamic(found)),
        Err(error) => Err(error),
    }
}

pub(super) fn tell_versions<'data, E: EndianParse>(
    file: &ElfBytes<'data, E>,
) -> Result<Told<'data, E>, ParseError>
    ensures { Tells E.little (view file.now) method.SymbolVersionTable result }
{
    match file.symbol_version_table() {
        Ok(found) => Ok(Told::SymbolVersionTable(found)),
        Err(error) => Err(error),
    }
}
