//! A file is opened as far as it is loaded.
ghost use Rattle.std.specs.Prelude.{◌≡◌, ℕ, All, IfOk, List, length, map};
ghost use Rattle.std.specs.Option.{option_map};
ghost use Rattle.elf.specs.ElfBytes.{view};
ghost use Rattle.elf_reading.specs.Cache.{IsOf};
ghost use Rattle.elf_records.specs.Number.{ok_map};
ghost use Rattle.elf_records.specs.Table.{table_view};
ghost use Rattle.elf.specs.LoadedRanges.{part_of};
ghost use Rattle.elf_c.specs.Opening.{IsOpened};
ghost use Rattle.elf_c.specs.inner.OwnTables.{HasOwnTables, IsOwn};
ghost use Rattle.elf_c.specs.inner.Steps.{count_by, first_by, header_by, moved, opened_by, ranges_of, records_by};
ghost use Rattle.elf_c.specs.inner.Steps.{table_by};

use crate::file::{NugwierFile, file_shown};
use crate::status::{NugwierStatus, done, unread};
use elf::{ElfBytes, LoadedParts, LoadedRange, ParseError, ReadError, abi};
use elf_parts::endian::AnyEndian;
use elf_parts::file::{Class, ELF32_EHDR_TAILSIZE, ELF64_EHDR_TAILSIZE, FileHeader, parse_ident};
use elf_parts::parse::{ParseAt, ParsingTable};
use elf_parts::section::SectionHeader;
use elf_reading::tables::DeclaredTable;

// The file header.
#[tactic(auto, unfolding(crate::specs::inner::Steps::header_by))]
fn read_ehdr(loaded: &LoadedParts<'_>) -> Result<FileHeader<AnyEndian>, ReadError>
    ensures { result ≡ header_by loaded.now.size (ranges_of loaded.now) }
{
    let ident = parse_ident(loaded.range(0, abi::EI_NIDENT as u64)?)?;
    let tail_size = match ident.1 {
        Class::ELF32 => ELF32_EHDR_TAILSIZE,
        Class::ELF64 => ELF64_EHDR_TAILSIZE,
    };
    let tail = loaded.range(abi::EI_NIDENT as u64, tail_size as u64)?;
    Ok(FileHeader::parse_tail(ident, tail)?)
}

// An error of bytes that begin at an offset, as the file has it.
fn moved(error: ParseError, by: u64) -> ParseError
    ensures { result ≡ moved by error }
{
    match error {
        ParseError::SliceReadError((start, end)) => {
            match (by.checked_add(start as u64), by.checked_add(end as u64)) {
                (Some(start), Some(end)) => {
                    ParseError::SliceReadError((start as usize, end as usize))
                }
                _ => ParseError::IntegerOverflow,
            }
        }
        other => other,
    }
}

// The first section header. It holds the counts that do not fit the file header. The part of it that lies in the file is
// read, so the error is that of the first field that does not.
fn first_section(
    loaded: &LoadedParts<'_>,
    ehdr: &FileHeader<AnyEndian>,
) -> Result<SectionHeader, ReadError>
    ensures { result ≡ first_by loaded.now.size (ranges_of loaded.now) ehdr.now }
{
    let left = loaded.size.saturating_sub(ehdr.e_shoff);
    let size = SectionHeader::size_for(ehdr.class) as u64;
    let part = loaded.range(ehdr.e_shoff.min(loaded.size), size.min(left))?;
    let mut offset = 0;
    match SectionHeader::parse_at(ehdr.endianness, ehdr.class, &mut offset, part) {
        Ok(first) => Ok(first),
        Err(error) => Err(ReadError::Parse(moved(error, ehdr.e_shoff))),
    }
}

// The number of records of a table.
fn record_count(
    loaded: &LoadedParts<'_>,
    ehdr: &FileHeader<AnyEndian>,
    table: DeclaredTable,
) -> Result<u64, ReadError>
    ensures { result ≡ count_by loaded.now.size (ranges_of loaded.now) ehdr.now table }
{
    if table.count != table.extended {
        return Ok(u64::from(table.count));
    }
    let first = first_section(loaded, ehdr)?;
    Ok(table.word.count_in(&first))
}

// The bytes of this many records of a table.
fn table_bytes<'data, P: ParseAt>(
    loaded: &LoadedParts<'data>,
    class: Class,
    table: DeclaredTable,
    count: u64,
) -> Result<&'data [u8], ReadError>
    ensures { ok_map (λ bytes. bytes.now) result
        ≡ records_by loaded.now.size (ranges_of loaded.now) (P.reads.size class) table count }
{
    let size = P::validate_entsize(class, table.entsize as usize)? as u64;
    let Some(length) = size.checked_mul(count) else {
        return Err(ReadError::Parse(ParseError::IntegerOverflow));
    };
    loaded.range(table.offset, length)
}

// A table of headers, or `None` if the file declares none.
fn find_table<'data, P: ParseAt>(
    loaded: &LoadedParts<'data>,
    ehdr: &FileHeader<AnyEndian>,
    table: DeclaredTable,
) -> Result<Option<ParsingTable<'data, AnyEndian, P>>, ReadError>
    ensures value { ok_map (option_map table_view) result
        ≡ table_by loaded.now.size (ranges_of loaded.now) ehdr.now (P.reads.size ehdr.now.class) table }
    ensures own { IfOk result (λ found. IsOwn ehdr.now (option_map table_view found)) }
{
    if table.offset == 0 {
        return Ok(None);
    }
    let count = record_count(loaded, ehdr, table)?;
    let bytes = table_bytes::<P>(loaded, ehdr.class, table, count)?;
    Ok(Some(ParsingTable::new(ehdr.endianness, ehdr.class, bytes)))
}

// The file that is opened.
fn opened<'data>(loaded: &LoadedParts<'data>) -> Result<ElfBytes<'data, AnyEndian>, ReadError>
    ensures value { ok_map view result
        ≡ opened_by loaded.now.size (ranges_of loaded.now) loaded.now.front.now }
    ensures own { IfOk result (λ file. HasOwnTables (view file)) }
{
    let ehdr = read_ehdr(loaded)?;
    let shdrs = find_table(loaded, &ehdr, DeclaredTable::of_sections(&ehdr))?;
    let phdrs = find_table(loaded, &ehdr, DeclaredTable::of_segments(&ehdr))?;
    Ok(ElfBytes::from_parts(ehdr, loaded.front, shdrs, phdrs))
}

/// Opens a file of `size` bytes that has these ranges loaded: reads its header, and finds its two tables of headers.
/// The ranges may be in any order and may overlap. If they are ranges of a file, the status and the opened file are those
/// of `nugwier_open` for all of its bytes; or the status names a range that is missing, by its start and its end: it lies
/// in the file, has bytes, and lies within none of the ranges. The caller loads it, or more, and calls again with all
/// ranges. An error leaves `file` as it is.
#[unsafe(no_mangle)]
pub extern "C" fn nugwier_open_ranges<'data>(
    size: u64,
    ranges: &'data [LoadedRange<'data>],
    file: &mut NugwierFile<'data>,
) -> NugwierStatus
    ensures { (bytes : List ℕ) → size ≡ length bytes → All (IsOf bytes) (map part_of ranges.now)
        → IsOpened bytes ranges.now file.old file.new result }
{
    let loaded = LoadedParts {
        size,
        front: &[],
        ranges,
    };
    match opened(&loaded) {
        Ok(found) => {
            *file = file_shown(&found);
            file.size = size;
            file.ranges = ranges;
            done()
        }
        Err(error) => unread(&error),
    }
}
