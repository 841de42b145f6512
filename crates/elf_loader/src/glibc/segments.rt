//! The questions to the segments, before the file is mapped.
ghost use Rattle.std.specs.Prelude.{◌≡◌, ◌<◌, ◌^◌, filter, length, nat_lt};
ghost use Rattle.std.specs.List.{find, list_any};
ghost use Rattle.elf_loader.specs.Glibc.{dynamic_address, extent, has_room, is_empty_dynamic, is_full_dynamic};
ghost use Rattle.elf_loader.specs.Glibc.{is_load, is_misaligned, lacks_dynamic, larger_alignment, largest_alignment};
ghost use Rattle.elf_loader.specs.Glibc.{last_of, mapping_verdict, overlaps, page_of, page_start, pages_end, reserved};
ghost use Rattle.elf_loader.specs.Glibc.{segments_verdict, wrapped};
ghost use Rattle.elf_records.specs.Segment.{program_header_reads};
ghost use Rattle.elf_records.specs.Table.{table_items, table_view};

use crate::glibc::{Kind, Refusal, Stop};
use elf::abi;
use elf::endian::AnyEndian;
use elf::file::Class;
use elf::segment::{ProgramHeader, SegmentTable};

pub(super) fn is_load(phdr: &ProgramHeader) -> bool
    ensures { result ≡ is_load phdr.now }
{
    phdr.p_type == abi::PT_LOAD
}

// The size of a page of memory. There is none of no bytes.
fn page_of(kind: &Kind) -> u64
    ensures { result ≡ page_of kind.now }
{
    kind.page_size.max(1)
}

// Whether a segment that is loaded is at different places of a page in the file and in memory.
fn is_misaligned(kind: &Kind, phdr: &ProgramHeader) -> bool
    ensures { result ≡ is_misaligned kind.now phdr.now }
{
    let page = page_of(kind);
    is_load(phdr) && phdr.p_vaddr % page != phdr.p_offset % page
}

fn has_misaligned(kind: &Kind, table: &SegmentTable<'_, AnyEndian>) -> bool
    ensures { result ≡ list_any (is_misaligned kind.now) (table_items program_header_reads (table_view table.now)) }
{
    table.iter().any(|phdr| is_misaligned(kind, &phdr))
}

fn first_load(table: &SegmentTable<'_, AnyEndian>) -> Option<ProgramHeader>
    ensures { result ≡ find is_load (table_items program_header_reads (table_view table.now)) }
{
    table.iter().find(|phdr| is_load(phdr))
}

fn last_load(table: &SegmentTable<'_, AnyEndian>) -> Option<ProgramHeader>
    ensures { result ≡ last_of is_load (table_items program_header_reads (table_view table.now)) }
{
    let mut last = None;
    for phdr in table.iter() {
        if is_load(&phdr) {
            last = Some(phdr);
        }
    }
    last
}

// Whether several segments are loaded.
fn has_several_loads(table: &SegmentTable<'_, AnyEndian>) -> bool
    ensures { result ≡ nat_lt 1 (length (filter is_load (table_items program_header_reads (table_view table.now)))) }
{
    table.iter().filter(|phdr| is_load(phdr)).count() > 1
}

// Whether a segment is a dynamic section without bytes in the file.
fn is_empty_dynamic(phdr: &ProgramHeader) -> bool
    ensures { result ≡ is_empty_dynamic phdr.now }
{
    phdr.p_type == abi::PT_DYNAMIC && phdr.p_filesz == 0
}

fn is_full_dynamic(phdr: &ProgramHeader) -> bool
    ensures { result ≡ is_full_dynamic phdr.now }
{
    phdr.p_type == abi::PT_DYNAMIC && phdr.p_filesz != 0
}

fn has_empty_dynamic(table: &SegmentTable<'_, AnyEndian>) -> bool
    ensures { result ≡ list_any is_empty_dynamic (table_items program_header_reads (table_view table.now)) }
{
    table.iter().any(|phdr| is_empty_dynamic(&phdr))
}

fn last_dynamic(table: &SegmentTable<'_, AnyEndian>) -> Option<ProgramHeader>
    ensures { result ≡ last_of is_full_dynamic (table_items program_header_reads (table_view table.now)) }
{
    let mut last = None;
    for phdr in table.iter() {
        if is_full_dynamic(&phdr) {
            last = Some(phdr);
        }
    }
    last
}

// The address of the dynamic section. It is 0 if there is none.
pub(super) fn dynamic_address(table: &SegmentTable<'_, AnyEndian>) -> u64
    ensures { result ≡ dynamic_address (table_items program_header_reads (table_view table.now)) }
{
    match last_dynamic(table) {
        Some(phdr) => phdr.p_vaddr,
        None => 0,
    }
}

fn lacks_dynamic(table: &SegmentTable<'_, AnyEndian>) -> bool
    ensures { result ≡ lacks_dynamic (table_items program_header_reads (table_view table.now)) }
{
    has_empty_dynamic(table) || dynamic_address(table) == 0
}

// The address at which the page of an address begins.
fn page_start(kind: &Kind, address: u128) -> u128
    ensures { result ≡ page_start kind.now address }
{
    address - address % page_of(kind) as u128
}

// An address of the class of the program: addresses wrap around.
fn wrapped(kind: &Kind, address: u128) -> u128
    ensures { result ≡ wrapped kind.now address }
{
    match kind.class {
        Class::ELF32 => address % (1 << 32),
        Class::ELF64 => address % (1 << 64),
    }
}

// How many bytes there are from the page of the first loaded segment to the end of the last one.
fn extent(kind: &Kind, first: &ProgramHeader, last: &ProgramHeader) -> u128
    ensures { result ≡ extent kind.now first.now last.now }
{
    let end = last.p_vaddr as u128 + last.p_memsz as u128;
    wrapped(
        kind,
        end + ((1 << 64) - page_start(kind, first.p_vaddr as u128)),
    )
}

// The larger one of an alignment and that of a segment, if it counts.
fn larger_alignment(alignment: u64, phdr: &ProgramHeader) -> u64
    ensures { result ≡ larger_alignment alignment phdr.now }
{
    if is_load(phdr) && phdr.p_align.is_power_of_two() {
        alignment.max(phdr.p_align)
    } else {
        alignment
    }
}

fn largest_alignment(table: &SegmentTable<'_, AnyEndian>) -> u64
    ensures { result ≡ largest_alignment (table_items program_header_reads (table_view table.now)) }
{
    let mut alignment = 0;
    for phdr in table.iter() {
        alignment = larger_alignment(alignment, &phdr);
    }
    alignment
}

// How many bytes are reserved, so that they can be aligned.
fn reserved(kind: &Kind, size: u128, alignment: u64) -> u128
    requires { size < 2 ^ 64 }
    ensures { result ≡ reserved kind.now size alignment }
{
    if alignment <= page_of(kind) {
        size
    } else if alignment as u128 <= size {
        wrapped(kind, size + alignment as u128)
    } else {
        wrapped(kind, 2 * alignment as u128)
    }
}

// Whether there is room for all loaded segments.
fn has_room(
    kind: &Kind,
    table: &SegmentTable<'_, AnyEndian>,
    first: &ProgramHeader,
    last: &ProgramHeader,
) -> bool
    ensures { result
        ≡ has_room kind.now (table_items program_header_reads (table_view table.now)) first.now last.now }
{
    let size = reserved(kind, extent(kind, first, last), largest_alignment(table));
    size != 0 && size <= kind.address_space as u128
}

// The end of the pages that a segment has in the file.
fn pages_end(kind: &Kind, phdr: &ProgramHeader) -> u128
    ensures { result ≡ pages_end kind.now phdr.now }
{
    let end = phdr.p_vaddr as u128 + phdr.p_filesz as u128;
    page_start(kind, end + (page_of(kind) - 1) as u128)
}

// Whether the last of several loaded segments begins before the pages of the first one end.
fn overlaps(
    kind: &Kind,
    table: &SegmentTable<'_, AnyEndian>,
    first: &ProgramHeader,
    last: &ProgramHeader,
) -> bool
    ensures { result
        ≡ overlaps kind.now (table_items program_header_reads (table_view table.now)) first.now last.now }
{
    has_several_loads(table) && page_start(kind, last.p_vaddr as u128) < pages_end(kind, first)
}

// The questions before the segments are mapped, and those of their mapping.
fn check_mapping(
    kind: &Kind,
    e_type: u16,
    table: &SegmentTable<'_, AnyEndian>,
    first: &ProgramHeader,
    last: &ProgramHeader,
) -> Result<(), Stop>
    ensures { result
        ≡ mapping_verdict kind.now e_type (table_items program_header_reads (table_view table.now)) first.now last.now }
{
    if e_type != abi::ET_DYN {
        return Err(Stop::Refused(Refusal::Executable));
    }
    if lacks_dynamic(table) {
        return Err(Stop::Refused(Refusal::NoDynamic));
    }
    if !has_room(kind, table, first, last) {
        return Err(Stop::Refused(Refusal::NoRoom));
    }
    if overlaps(kind, table, first, last) {
        return Err(Stop::Refused(Refusal::Overlapping));
    }
    Ok(())
}

// The questions to all segments.
pub(super) fn check_segments(
    kind: &Kind,
    e_type: u16,
    table: &SegmentTable<'_, AnyEndian>,
) -> Result<(), Stop>
    ensures { result ≡ segments_verdict kind.now e_type (table_items program_header_reads (table_view table.now)) }
{
    if has_misaligned(kind, table) {
        return Err(Stop::Refused(Refusal::Misaligned));
    }
    let Some(first) = first_load(table) else {
        return Err(Stop::Refused(Refusal::NoLoad));
    };
    let last = last_load(table).unwrap_or(first);
    check_mapping(kind, e_type, table, &first, &last)
}
