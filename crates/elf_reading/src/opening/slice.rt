//! A file in a slice of bytes: its header, and the two tables that it declares.
ghost use Rattle.std.specs.Prelude.{◌≡◌};
ghost use Rattle.std.specs.Option.{option_map};
ghost use Rattle.elf_records.specs.Number.{ok_map};
ghost use Rattle.elf_records.specs.Table.{table_view};
ghost use Rattle.elf_reading.specs.Opening.{first_section, header_at_front, opened_by_segments, opened_file};
ghost use Rattle.elf_reading.specs.Opening.{opened_view, table_bytes};
ghost use Rattle.elf_reading.specs.Tables.{declared_count, declared_table};

use crate::tables::DeclaredTable;
use elf_abi::abi;
use elf_records::endian::EndianParse;
use elf_records::file::{Class, ELF32_EHDR_TAILSIZE, ELF64_EHDR_TAILSIZE, FileHeader, parse_ident};
use elf_records::parse::{ParseAt, ParseError, ParsingTable, get_bytes};
use elf_records::section::{SectionHeader, SectionHeaderTable};
use elf_records::segment::SegmentTable;

// The file header at the front of the data.
#[tactic(auto, unfolding(crate::specs::Opening::header_at_front))]
fn parse_ehdr<E: EndianParse>(data: &[u8]) -> Result<FileHeader<E>, ParseError>
    ensures { result ≡ header_at_front E.little E.of_byte «data».now }
{
    let ident = parse_ident(get_bytes(data, 0, abi::EI_NIDENT)?)?;
    let tail_size = match ident.1 {
        Class::ELF32 => ELF32_EHDR_TAILSIZE,
        Class::ELF64 => ELF64_EHDR_TAILSIZE,
    };
    let tail = get_bytes(data, abi::EI_NIDENT, tail_size)?;
    FileHeader::parse_tail(ident, tail)
}

// The first section header. It holds the counts that do not fit the file header.
#[inline(never)]
fn first_section<E: EndianParse>(
    ehdr: &FileHeader<E>,
    data: &[u8],
) -> Result<SectionHeader, ParseError>
    ensures { result ≡ first_section E.little ehdr.now «data».now }
{
    let mut offset = ehdr.e_shoff as usize;
    SectionHeader::parse_at(ehdr.endianness, ehdr.class, &mut offset, data)
}

// The number of records of a table.
fn record_count<E: EndianParse>(
    ehdr: &FileHeader<E>,
    data: &[u8],
    table: DeclaredTable,
) -> Result<usize, ParseError>
    ensures { result ≡ declared_count E.little ehdr.now table «data».now }
{
    if table.count != table.extended {
        return Ok(table.count as usize);
    }
    let first = first_section(ehdr, data)?;
    Ok(table.word.count_in(&first) as usize)
}

// The bytes of `count` records from `offset` on. `entsize` is their size as the file header gives it.
#[tactic(auto, unfolding(elf_records::specs::Number::bytes_at))]
fn table_bytes<'data, P: ParseAt>(
    class: Class,
    entsize: u16,
    count: usize,
    offset: u64,
    data: &'data [u8],
) -> Result<&'data [u8], ParseError>
    ensures { ok_map (λ bytes. bytes.now) result
        ≡ table_bytes (P.reads.size class) entsize count offset «data».now }
{
    let size = P::validate_entsize(class, entsize as usize)?;
    let length = size.checked_mul(count).ok_or(ParseError::IntegerOverflow)?;
    get_bytes(data, offset as usize, length)
}

// A table of headers, or `None` if the file declares none.
fn find_table<'data, E: EndianParse, P: ParseAt>(
    ehdr: &FileHeader<E>,
    data: &'data [u8],
    table: DeclaredTable,
) -> Result<Option<ParsingTable<'data, E, P>>, ParseError>
    ensures { ok_map (option_map table_view) result
        ≡ declared_table E.little ehdr.now (P.reads.size ehdr.now.class) table «data».now }
{
    if table.offset == 0 {
        return Ok(None);
    }
    let count = record_count(ehdr, data, table)?;
    let bytes = table_bytes::<P>(ehdr.class, table.entsize, count, table.offset, data)?;
    Ok(Some(ParsingTable::new(ehdr.endianness, ehdr.class, bytes)))
}

/// The header of a file, and the two tables that it declares. A table whose offset is 0 is not declared.
#[derive(Drop)]
pub struct Opened<'data, E: EndianParse> {
    /// The file header.
    pub ehdr: FileHeader<E>,
    /// The section headers.
    pub shdrs: Option<SectionHeaderTable<'data, E>>,
    /// The program headers.
    pub phdrs: Option<SegmentTable<'data, E>>,
}

/// Reads the header of a file and finds its two tables (gABI, chapters "ELF Header", "Sections" and "Program Header").
/// The error is that of the first step that fails. The steps are the identification, the tail of the file header, the
/// section headers and the program headers.
///
/// Errors of the header, in order: `SliceReadError((0, 16))` if the data are shorter; those of `parse_ident`;
/// `SliceReadError((16, end))` if the tail does not lie in the data.
///
/// Errors of a table that is declared, in order: that of the first section header at `e_shoff`, if it holds the count;
/// `BadEntsize((found, expected))`; `IntegerOverflow` if the end of the table does not fit 64 bits;
/// `SliceReadError((start, end))` if the table does not lie in the data.
#[tactic(auto, unfolding(crate::specs::Opening::section_table, crate::specs::Opening::segment_table))]
pub fn open<'data, E: EndianParse>(data: &'data [u8]) -> Result<Opened<'data, E>, ParseError>
    ensures { ok_map (opened_view «data».now) result ≡ opened_file E.little E.of_byte «data».now }
{
    let ehdr = parse_ehdr(data)?;
    let shdrs = find_table(&ehdr, data, DeclaredTable::of_sections(&ehdr))?;
    let phdrs = find_table(&ehdr, data, DeclaredTable::of_segments(&ehdr))?;
    Ok(Opened { ehdr, shdrs, phdrs })
}

/// Reads the header of a file and finds its program headers alone, as the dynamic linker does (gABI, chapter "Program
/// Header"). So a file whose section headers cannot be read still has its header and its segments; it declares no
/// section headers.
///
/// The errors of the header are those of `open`, and so are those of the program headers.
#[tactic(auto, unfolding(crate::specs::Opening::segment_table))]
pub fn open_by_segments<'data, E: EndianParse>(
    data: &'data [u8],
) -> Result<Opened<'data, E>, ParseError>
    ensures { ok_map (opened_view «data».now) result ≡ opened_by_segments E.little E.of_byte «data».now }
{
    let ehdr = parse_ehdr(data)?;
    let phdrs = find_table(&ehdr, data, DeclaredTable::of_segments(&ehdr))?;
    Ok(Opened {
        ehdr,
        shdrs: None,
        phdrs,
    })
}
