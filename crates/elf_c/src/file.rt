//! Files that were opened: their header, their bytes and their two tables of headers.
ghost use Rattle.std.specs.Prelude.{◌≡◌, IfOk};
ghost use Rattle.std.specs.Option.{option_map};
ghost use Rattle.elf.specs.ElfBytes.{view};
ghost use Rattle.elf_records.specs.Table.{table_view};
ghost use Rattle.elf_c.specs.File.{IsWhole, MissingAreEmpty, file_of_c, file_view, header_in, header_shown};
ghost use Rattle.elf_c.specs.inner.OwnTables.{HasOwnTables, bytes_if};
ghost use Rattle.elf_c.specs.File.{opened_in, segment_at, table_if, view_over};
ghost use Rattle.elf_c.specs.Records.{section_shown, segment_shown};
ghost use Rattle.elf_c.specs.Status.{IsWritten, status_of, written};

use crate::records::{NugwierSection, NugwierSegment};
use crate::status::{NugwierStatus, done, refused};
use crate::table::{ForC, NugwierTable, class_in, get, is_64, order_in, records_in};
use elf::headers::Headers;
use elf::{ElfBytes, LoadedRange, ParseError};
use elf_parts::endian::{AnyEndian, EndianParse};
use elf_parts::file::FileHeader;
use elf_parts::parse::{ParseAt, ParsingTable};
use elf_parts::segment::ProgramHeader;

/// The header of a file.
#[repr(C)]
#[derive(Clone, Copy)]
pub struct NugwierHeader {
    pub little: bool,
    pub is_64: bool,
    pub osabi: u8,
    pub abiversion: u8,
    pub version: u32,
    pub kind: u16,
    pub machine: u16,
    pub flags: u32,
    pub entry: u64,
    pub phoff: u64,
    pub shoff: u64,
    pub ehsize: u16,
    pub phentsize: u16,
    pub phnum: u16,
    pub shentsize: u16,
    pub shnum: u16,
    pub shstrndx: u16,
}

/// A file that was opened. It belongs to the caller, and holds nothing that has to be freed. A table that the file does
/// not declare has no bytes, and the byte order and the class of the header. The header may be changed: the calls use
/// its current class, byte order and `shstrndx`.
///
/// What is loaded of the file are the `bytes` at its start, and the `ranges`. They may be changed too: a call reads what
/// is loaded when it is made.
#[repr(C)]
#[derive(Drop)]
pub struct NugwierFile<'data> {
    pub header: NugwierHeader,
    pub size: u64,
    pub bytes: &'data [u8],
    pub ranges: &'data [LoadedRange<'data>],
    pub has_sections: bool,
    pub has_segments: bool,
    pub sections: NugwierTable<'data>,
    pub segments: NugwierTable<'data>,
}

// A file header as C sees it.
fn header_shown(ehdr: &FileHeader<AnyEndian>) -> NugwierHeader
    ensures { result ≡ header_shown ehdr.now }
{
    NugwierHeader {
        little: ehdr.endianness.is_little(),
        is_64: is_64(ehdr.class),
        osabi: ehdr.osabi,
        abiversion: ehdr.abiversion,
        version: ehdr.version,
        kind: ehdr.e_type,
        machine: ehdr.e_machine,
        flags: ehdr.e_flags,
        entry: ehdr.e_entry,
        phoff: ehdr.e_phoff,
        shoff: ehdr.e_shoff,
        ehsize: ehdr.e_ehsize,
        phentsize: ehdr.e_phentsize,
        phnum: ehdr.e_phnum,
        shentsize: ehdr.e_shentsize,
        shnum: ehdr.e_shnum,
        shstrndx: ehdr.e_shstrndx,
    }
}

// The file header that C gives.
fn header_in(header: &NugwierHeader) -> FileHeader<AnyEndian>
    ensures { result ≡ header_in header.now }
{
    FileHeader {
        class: class_in(header.is_64),
        endianness: order_in(header.little),
        version: header.version,
        osabi: header.osabi,
        abiversion: header.abiversion,
        e_type: header.kind,
        e_machine: header.machine,
        e_entry: header.entry,
        e_phoff: header.phoff,
        e_shoff: header.shoff,
        e_flags: header.flags,
        e_ehsize: header.ehsize,
        e_phentsize: header.phentsize,
        e_phnum: header.phnum,
        e_shentsize: header.shentsize,
        e_shnum: header.shnum,
        e_shstrndx: header.shstrndx,
    }
}

// The bytes of a table, or none if it is not declared.
fn bytes_of<'data, R: ParseAt>(table: &Option<ParsingTable<'data, AnyEndian, R>>) -> &'data [u8]
    ensures { result.now ≡ bytes_if (option_map table_view table.now) }
{
    match table {
        Some(table) => table.bytes(),
        None => &[],
    }
}

// A file that was opened, as C sees it.
#[tactic(auto, using(crate::proofs::Files::shown_is))]
pub(crate) fn file_shown<'data>(file: &ElfBytes<'data, AnyEndian>) -> NugwierFile<'data>
    requires { HasOwnTables (view file.now) }
    ensures view { file_view result ≡ view file.now }
    ensures whole { IsWhole result }
    ensures missing { MissingAreEmpty result }
{
    let little = file.ehdr.endianness.is_little();
    let is_64 = is_64(file.ehdr.class);
    let sections = file.section_headers();
    let segments = file.segments();
    NugwierFile {
        header: header_shown(&file.ehdr),
        size: file.data().len() as u64,
        bytes: file.data(),
        ranges: &[],
        has_sections: sections.is_some(),
        has_segments: segments.is_some(),
        sections: NugwierTable {
            little,
            is_64,
            bytes: bytes_of(&sections),
        },
        segments: NugwierTable {
            little,
            is_64,
            bytes: bytes_of(&segments),
        },
    }
}

// A table that C declares.
fn table_if<'data, R: ParseAt>(
    declared: bool,
    table: &NugwierTable<'data>,
) -> Option<ParsingTable<'data, AnyEndian, R>>
    ensures { option_map table_view result ≡ table_if declared table.now }
{
    if declared {
        Some(records_in(table))
    } else {
        None
    }
}

// The file that these bytes hold, with the headers that C gives.
#[inline(always)]
pub(crate) fn file_over<'data>(
    file: &NugwierFile<'data>,
    bytes: &'data [u8],
) -> ElfBytes<'data, AnyEndian>
    ensures { view result ≡ view_over file.now bytes.now }
{
    ElfBytes::from_parts(
        header_in(&file.header),
        bytes,
        table_if(file.has_sections, &file.sections),
        table_if(file.has_segments, &file.segments),
    )
}

// The file that lies in the bytes that C gives.
#[inline(always)]
pub(crate) fn file_in<'data>(file: &NugwierFile<'data>) -> ElfBytes<'data, AnyEndian>
    ensures { view result ≡ file_view file.now }
{
    file_over(file, file.bytes)
}

/// Opens a file, given all of its bytes: reads its header, and finds its two tables of headers. The view of `file` is
/// then the opened file, and all of it is loaded, so what a call returns about `file` is the result about that file
/// (`laws::whole_file_is_loaded`). An error leaves `file` as it is. The errors are those of `ElfBytes::minimal_parse`.
#[unsafe(no_mangle)]
pub extern "C" fn nugwier_open<'data>(
    bytes: &'data [u8],
    file: &mut NugwierFile<'data>,
) -> NugwierStatus
    ensures status { result ≡ status_of (opened_in bytes.now) }
    ensures file { IsWritten file_view file.new file.old (opened_in bytes.now) }
    ensures whole { IfOk (opened_in bytes.now) (λ _. IsWhole file.new) }
    ensures missing { IfOk (opened_in bytes.now) (λ _. MissingAreEmpty file.new) }
{
    match ElfBytes::<AnyEndian>::minimal_parse(bytes) {
        Ok(found) => {
            *file = file_shown(&found);
            done()
        }
        Err(error) => refused(&error),
    }
}

/// Reads the section header `index` of a file, counted from 0. An error leaves `section` as it is; the errors are those
/// of `ParsingTable::get`, and `BadOffset(index)` if the file declares no section headers.
#[unsafe(no_mangle)]
pub extern "C" fn nugwier_section(
    file: &NugwierFile<'_>,
    index: usize,
    section: &mut NugwierSection,
) -> NugwierStatus
    ensures status { result ≡ status_of ((file_of_c file.now).section_at index) }
    ensures section { section.new ≡ written section_shown section.old ((file_of_c file.now).section_at index) }
{
    match file_in(file).section_at(index) {
        Ok(found) => {
            *section = found.show();
            done()
        }
        Err(error) => refused(&error),
    }
}

/// Reads the program header `index` of a file, counted from 0. An error leaves `segment` as it is; the errors are those
/// of `ParsingTable::get`, and `BadOffset(index)` if the file declares no program headers.
#[unsafe(no_mangle)]
pub extern "C" fn nugwier_segment(
    file: &NugwierFile<'_>,
    index: usize,
    segment: &mut NugwierSegment,
) -> NugwierStatus
    ensures status { result ≡ status_of (segment_at (file_view file.now).segments index) }
    ensures segment { segment.new
        ≡ written segment_shown segment.old (segment_at (file_view file.now).segments index) }
{
    if file.has_segments {
        get::<ProgramHeader>(&file.segments, index, segment)
    } else {
        refused(&ParseError::BadOffset(index as u64))
    }
}
