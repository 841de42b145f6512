//! A file in a source: its headers are read. Memory is allocated only for tables that lie in the source.
ghost use Rattle.std.specs.Prelude.{◌≡◌, ℕ, ◌≤◌, Bool, List, Ok, IfOk, IfErr, IfSome, length};
ghost use Rattle.std.specs.Option.{option_map};
ghost use Rattle.elf_reading.specs.Opening.{first_section, header_at_front, headers_of, opened_by_segments};
ghost use Rattle.elf_reading.specs.Opening.{opened_file, read_headers, section_table, segment_table, table_bytes};
ghost use Rattle.elf_records.specs.File.{tail_fields};
ghost use Rattle.elf_records.specs.Number.{bytes_at, ok_map};
ghost use Rattle.elf_records.specs.Record.{size_by, size_of};
ghost use Rattle.elf_records.specs.Section.{section_header_layout};
ghost use Rattle.elf_records.specs.Table.{table_items, table_view};
ghost use Rattle.elf_reading.specs.Refusals.{IsAnswer, IsNoAllocationFailure, IsOpeningOf, kind};
ghost use Rattle.elf_reading.specs.inner.HeaderSteps.{front_ident, opened_with, range_bytes, range_records};
ghost use Rattle.elf_reading.specs.inner.HeaderSteps.{range_table, tail_header};
ghost use Rattle.elf_reading.specs.inner.Reads.{HasLength, ReadsSource, ReadsSourceAs};
ghost use Rattle.elf_reading.specs.Tables.{declared_count, declared_table};

use crate::reads::{fetch, read_at};
use crate::source::StreamSource;
use crate::tables::DeclaredTable;
use elf_abi::abi::EI_NIDENT;
use elf_records::endian::EndianParse;
use elf_records::file::{Class, ELF32_EHDR_TAILSIZE, ELF64_EHDR_TAILSIZE, FileHeader, parse_ident};
use elf_records::parse::{ParseAt, ParseError, ParsingTable};
use elf_records::section::SectionHeader;
use elf_records::segment::ProgramHeader;
use std::alloc::{AllocError, Allocator};

// The sizes of a section header in bytes (gABI, chapter "Sections").
const ELF32_SHDR_SIZE: usize = 40;

const ELF64_SHDR_SIZE: usize = 64;

// Reads the N bytes from `start` on into an array. `len` is the length of the source.
fn read_array<const N: usize, S: StreamSource>(
    source: &mut S,
    len: u64,
    start: u64,
) -> Result<[u8; N], ParseError>
    requires { HasLength S.StreamSource source.old len }
    ensures { ReadsSource S.StreamSource (λ bytes. bytes_at N bytes start) source.old source.new result }
{
    let Some(end) = start.checked_add(N as u64) else {
        return Err(ParseError::IntegerOverflow);
    };
    if end > len {
        return Err(ParseError::BadOffset(end));
    }
    let mut part = [0; N];
    read_at(source, start, &mut part, end)?;
    Ok(part)
}

// Reads the identification.
fn read_ident<E: EndianParse, S: StreamSource>(
    source: &mut S,
    len: u64,
) -> Result<(E, Class, u8, u8), ParseError>
    requires { HasLength S.StreamSource source.old len }
    ensures { ReadsSource S.StreamSource (front_ident E.of_byte) source.old source.new result }
{
    let front = read_array::<EI_NIDENT, S>(source, len, 0)?;
    parse_ident(&front)
}

// Reads the tail of the header, which has N bytes in files of its class.
fn read_tail_of<const N: usize, E: EndianParse, S: StreamSource>(
    source: &mut S,
    len: u64,
    ident: (E, Class, u8, u8),
) -> Result<FileHeader<E>, ParseError>
    requires whole { HasLength S.StreamSource source.old len }
    requires size { N ≡ size_of (tail_fields ident.1) }
    ensures { ReadsSource S.StreamSource (λ bytes. tail_header E.little bytes ident) source.old source.new result }
{
    let tail = read_array::<N, S>(source, len, EI_NIDENT as u64)?;
    FileHeader::parse_tail(ident, &tail)
}

// Reads the tail of the header.
fn read_tail<E: EndianParse, S: StreamSource>(
    source: &mut S,
    len: u64,
    ident: (E, Class, u8, u8),
) -> Result<FileHeader<E>, ParseError>
    requires { HasLength S.StreamSource source.old len }
    ensures { ReadsSource S.StreamSource (λ bytes. tail_header E.little bytes ident) source.old source.new result }
{
    match ident.1 {
        Class::ELF32 => read_tail_of::<ELF32_EHDR_TAILSIZE, E, S>(source, len, ident),
        Class::ELF64 => read_tail_of::<ELF64_EHDR_TAILSIZE, E, S>(source, len, ident),
    }
}

// Reads the file header.
fn read_ehdr<E: EndianParse, S: StreamSource>(
    source: &mut S,
    len: u64,
) -> Result<FileHeader<E>, ParseError>
    requires { HasLength S.StreamSource source.old len }
    ensures { ReadsSource S.StreamSource (header_at_front E.little E.of_byte) source.old source.new result }
{
    let ident = read_ident::<E, S>(source, len)?;
    read_tail(source, len, ident)
}

// Reads the first section header, which has N bytes in files of its class.
fn read_first_of<const N: usize, E: EndianParse, S: StreamSource>(
    source: &mut S,
    len: u64,
    ehdr: &FileHeader<E>,
) -> Result<SectionHeader, ParseError>
    requires whole { HasLength S.StreamSource source.old len }
    requires size { N ≡ size_by section_header_layout ehdr.now.class }
    ensures { ReadsSource S.StreamSource (first_section E.little ehdr.now) source.old source.new result }
{
    let part = read_array::<N, S>(source, len, ehdr.e_shoff)?;
    let mut offset = 0;
    SectionHeader::parse_at(ehdr.endianness, ehdr.class, &mut offset, &part)
}

// Reads the first section header.
fn read_first<E: EndianParse, S: StreamSource>(
    source: &mut S,
    len: u64,
    ehdr: &FileHeader<E>,
) -> Result<SectionHeader, ParseError>
    requires { HasLength S.StreamSource source.old len }
    ensures { ReadsSource S.StreamSource (first_section E.little ehdr.now) source.old source.new result }
{
    match ehdr.class {
        Class::ELF32 => read_first_of::<ELF32_SHDR_SIZE, E, S>(source, len, ehdr),
        Class::ELF64 => read_first_of::<ELF64_SHDR_SIZE, E, S>(source, len, ehdr),
    }
}

// Reads the number of records of a table.
fn read_count<E: EndianParse, S: StreamSource>(
    source: &mut S,
    len: u64,
    ehdr: &FileHeader<E>,
    table: DeclaredTable,
) -> Result<u64, ParseError>
    requires { HasLength S.StreamSource source.old len }
    ensures { ReadsSource S.StreamSource (declared_count E.little ehdr.now table) source.old source.new result }
{
    if table.count != table.extended {
        return Ok(u64::from(table.count));
    }
    let first = read_first(source, len, ehdr)?;
    Ok(table.word.count_in(&first))
}

// The start and the end of `count` records from `offset` on, in a source of length `len`. `entsize` is the size of a
// record as the file header gives it.
fn locate_records<P: ParseAt>(
    len: u64,
    class: Class,
    entsize: u16,
    count: u64,
    offset: u64,
) -> Result<(u64, u64), ParseError>
    ensures answer { (bytes : List ℕ) (can_fail : Bool) (failures : ℕ) → len ≡ length bytes →
        IsAnswer (range_bytes bytes) (table_bytes (P.reads.size class) entsize count offset bytes)
        can_fail failures failures result }
    ensures within { IfOk result (λ range. (range.0 ≤ range.1) × (range.1 ≤ len)) }
    ensures memory { IfErr result (λ e. IsNoAllocationFailure (kind e)) }
{
    let size = P::validate_entsize(class, entsize as usize)? as u64;
    let Some(length) = size.checked_mul(count) else {
        return Err(ParseError::IntegerOverflow);
    };
    let Some(end) = offset.checked_add(length) else {
        return Err(ParseError::IntegerOverflow);
    };
    if end > len {
        return Err(ParseError::BadOffset(end));
    }
    Ok((offset, end))
}

// The start and the end of a table, or `None` if the file declares none.
fn locate<P: ParseAt, E: EndianParse, S: StreamSource>(
    source: &mut S,
    len: u64,
    ehdr: &FileHeader<E>,
    table: DeclaredTable,
) -> Result<Option<(u64, u64)>, ParseError>
    requires { HasLength S.StreamSource source.old len }
    ensures reads { ReadsSourceAs S.StreamSource (λ bytes. option_map (range_table E.little ehdr.now bytes))
        (declared_table E.little ehdr.now (P.reads.size ehdr.now.class) table) source.old source.new result }
    ensures within { IfOk result (λ found. IfSome found (λ range. (range.0 ≤ range.1) × (range.1 ≤ len))) }
{
    if table.offset == 0 {
        return Ok(None);
    }
    let count = read_count(source, len, ehdr, table)?;
    let range = locate_records::<P>(len, ehdr.class, table.entsize, count, table.offset)?;
    Ok(Some(range))
}

// The start and the end of the section headers, or `None` if the file declares none.
#[tactic(auto, unfolding(crate::specs::Opening::section_table))]
fn locate_shdrs<E: EndianParse, S: StreamSource>(
    source: &mut S,
    len: u64,
    ehdr: &FileHeader<E>,
) -> Result<Option<(u64, u64)>, ParseError>
    requires { HasLength S.StreamSource source.old len }
    ensures reads { ReadsSourceAs S.StreamSource (λ bytes. option_map (range_table E.little ehdr.now bytes))
        (section_table E.little ehdr.now) source.old source.new result }
    ensures within { IfOk result (λ found. IfSome found (λ range. (range.0 ≤ range.1) × (range.1 ≤ len))) }
{
    locate::<SectionHeader, E, S>(source, len, ehdr, DeclaredTable::of_sections(ehdr))
}

// The start and the end of the program headers, or `None` if the file declares none.
#[tactic(auto, unfolding(crate::specs::Opening::segment_table))]
fn locate_phdrs<E: EndianParse, S: StreamSource>(
    source: &mut S,
    len: u64,
    ehdr: &FileHeader<E>,
) -> Result<Option<(u64, u64)>, ParseError>
    requires { HasLength S.StreamSource source.old len }
    ensures reads { ReadsSourceAs S.StreamSource (λ bytes. option_map (range_table E.little ehdr.now bytes))
        (segment_table E.little ehdr.now) source.old source.new result }
    ensures within { IfOk result (λ found. IfSome found (λ range. (range.0 ≤ range.1) × (range.1 ≤ len))) }
{
    locate::<ProgramHeader, E, S>(source, len, ehdr, DeclaredTable::of_segments(ehdr))
}

// The records of a table.
fn collected<E: EndianParse, P: ParseAt + Drop, A: Allocator>(
    alloc: A,
    table: ParsingTable<'_, E, P>,
) -> Result<Vec<P, A>, AllocError>
    ensures { IfOk result (λ v. v.items ≡ table_items P.reads (table_view table.entry)) }
{
    table.iter().collect(alloc)
}

// Reads the records of a table that lies in the source.
fn read_records<E: EndianParse, P: ParseAt + Drop, S: StreamSource, A: Allocator + Copy>(
    alloc: A,
    source: &mut S,
    ehdr: &FileHeader<E>,
    found: Option<(u64, u64)>,
) -> Result<Vec<P, A>, ParseError>
    requires ordered { IfSome found (λ range. range.0 ≤ range.1) }
    requires within { IfSome (S.content source.old) (λ bytes. IfSome found (λ range. range.1 ≤ length bytes)) }
    ensures content { S.content source.new ≡ S.content source.old }
    ensures nature { S.can_fail source.new ≡ S.can_fail source.old }
    ensures answer { IfSome (S.content source.old) (λ bytes. IsAnswer (λ v. v.items)
        (Ok (range_records P.reads (option_map (range_table E.little ehdr.now bytes) found)))
        (S.can_fail source.old) (S.failures source.old) (S.failures source.new) result) }
{
    let Some((start, end)) = found else {
        return Ok(Vec::new(alloc));
    };
    let bytes = fetch(alloc, source, start, end)?;
    match collected(
        alloc,
        ParsingTable::<E, P>::new(ehdr.endianness, ehdr.class, &bytes),
    ) {
        Ok(headers) => Ok(headers),
        Err(AllocError) => Err(ParseError::OutOfMemory),
    }
}

/// The headers of a file that were read from a source, and the length of the source in bytes.
#[derive(Drop)]
pub struct SourceHeaders<E: EndianParse, A: Allocator + Copy> {
    /// The file header.
    pub ehdr: FileHeader<E>,
    /// Whether the file declares section headers.
    pub declares_sections: bool,
    /// The section headers; none if the file declares none.
    pub shdrs: Vec<SectionHeader, A>,
    /// The program headers; none if the file declares none.
    pub phdrs: Vec<ProgramHeader, A>,
    /// The length of the source, in bytes.
    pub len: u64,
}

// Reads the program headers of a file whose header was read, and its section headers, which are in this range.
fn read_tables<E: EndianParse, S: StreamSource, A: Allocator + Copy>(
    alloc: A,
    source: &mut S,
    len: u64,
    ehdr: FileHeader<E>,
    sections: Option<(u64, u64)>,
) -> Result<SourceHeaders<E, A>, ParseError>
    requires whole { HasLength S.StreamSource source.old len }
    requires within { IfSome sections (λ range. (range.0 ≤ range.1) × (range.1 ≤ len)) }
    ensures content { S.content source.new ≡ S.content source.old }
    ensures nature { S.can_fail source.new ≡ S.can_fail source.old }
    ensures length { IfOk result (λ found. HasLength S.StreamSource source.new found.len) }
    ensures opening { IfSome (S.content source.old) (λ bytes. IsOpeningOf read_headers
        (ok_map headers_of (opened_with E.little ehdr (option_map (range_table E.little ehdr bytes) sections) bytes))
        (S.can_fail source.old) (S.failures source.old) (S.failures source.new) result) }
{
    let segments = locate_phdrs(source, len, &ehdr)?;
    let shdrs = read_records(alloc, source, &ehdr, sections)?;
    let phdrs = read_records(alloc, source, &ehdr, segments)?;
    Ok(SourceHeaders {
        ehdr,
        declares_sections: sections.is_some(),
        shdrs,
        phdrs,
        len,
    })
}

/// Reads the header of a file and the two tables that it declares (gABI, chapters "ELF Header", "Sections" and "Program
/// Header"). Allocates memory for the two tables only, and only if both lie in the source.
///
/// If the content of the source is known, the headers are those that `open` finds in it. Returns an error if that
/// returns one. Otherwise the error is `IOError`, only if the source can fail, or `OutOfMemory` (tested, not proved: only
/// if an allocation failed); of a file that `open` does not open it is never `OutOfMemory`.
pub fn open_source<E: EndianParse, S: StreamSource, A: Allocator + Copy>(
    alloc: A,
    source: &mut S,
) -> Result<SourceHeaders<E, A>, ParseError>
    ensures content { S.content source.new ≡ S.content source.old }
    ensures nature { S.can_fail source.new ≡ S.can_fail source.old }
    ensures length { IfOk result (λ found. HasLength S.StreamSource source.new found.len) }
    ensures opening { IfSome (S.content source.old) (λ bytes. IsOpeningOf read_headers
        (ok_map headers_of (opened_file E.little E.of_byte bytes)) (S.can_fail source.old) (S.failures source.old)
        (S.failures source.new) result) }
{
    let len = source.seek_end()?;
    let ehdr = read_ehdr(source, len)?;
    let sections = locate_shdrs(source, len, &ehdr)?;
    read_tables(alloc, source, len, ehdr, sections)
}

/// Reads the header of a file and its program headers alone, as the dynamic linker does (gABI, chapter "Program
/// Header"). So a file whose section headers cannot be read still has its header and its segments; it declares no
/// section headers. Allocates memory for the program headers only, and only if they lie in the source.
///
/// If the content of the source is known, the headers are those that `open_by_segments` finds in it. Returns an error if
/// that returns one. Otherwise the error is `IOError`, only if the source can fail, or `OutOfMemory` (tested, not proved:
/// only if an allocation failed); of a file that `open_by_segments` does not open it is never `OutOfMemory`.
pub fn open_source_by_segments<E: EndianParse, S: StreamSource, A: Allocator + Copy>(
    alloc: A,
    source: &mut S,
) -> Result<SourceHeaders<E, A>, ParseError>
    ensures content { S.content source.new ≡ S.content source.old }
    ensures nature { S.can_fail source.new ≡ S.can_fail source.old }
    ensures length { IfOk result (λ found. HasLength S.StreamSource source.new found.len) }
    ensures opening { IfSome (S.content source.old) (λ bytes. IsOpeningOf read_headers
        (ok_map headers_of (opened_by_segments E.little E.of_byte bytes)) (S.can_fail source.old)
        (S.failures source.old) (S.failures source.new) result) }
{
    let len = source.seek_end()?;
    let ehdr = read_ehdr(source, len)?;
    read_tables(alloc, source, len, ehdr, None)
}
