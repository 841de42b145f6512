//! The questions to the dynamic entries and to the hash table of a file that is mapped.
ghost use Rattle.std.specs.Prelude.{◌≡◌};
ghost use Rattle.elf_dynamic.specs.dynamic_view.Entries.{entries_in, value_of};
ghost use Rattle.elf_loader.specs.Glibc.{dynamic_place, entries_verdict, hash_verdict, holds, knows_rel, last_of};
ghost use Rattle.elf_loader.specs.Glibc.{loaded_file, pie_verdict, place_of, plt_verdict, rel_verdict, rela_verdict};
ghost use Rattle.elf_loader.specs.Glibc.{relr_verdict, size_verdict, words_verdict};
ghost use Rattle.elf_abi.specs.Values.{dt_gnu_hash, dt_pltrel};
ghost use Rattle.elf_records.specs.Endian.{any_is_little};
ghost use Rattle.elf_records.specs.Number.{number_at};
ghost use Rattle.elf_records.specs.Segment.{program_header_reads};
ghost use Rattle.elf_records.specs.Table.{table_items, table_view};

use crate::glibc::header::read;
use crate::glibc::segments::{dynamic_address, is_load};
use crate::glibc::{Kind, Refusal, Stop};
use elf::dynamic::DynamicTable;
use elf::endian::{AnyEndian, EndianParse};
use elf::parse::ParseAt;
use elf::relocation::{Rel, Rela};
use elf::segment::{ProgramHeader, SegmentTable};
use elf::{LoadedParts, abi};
use elf_dynamic::dynamic_view::{address_size, value};
use elf_dynamic::relr::{DT_RELR, DT_RELRENT};

// Whether a segment has what is at an address in memory.
fn holds(phdr: &ProgramHeader, address: u64) -> bool
    ensures { result ≡ holds address phdr.now }
{
    is_load(phdr)
        && phdr.p_vaddr <= address
        && address - phdr.p_vaddr < phdr.p_filesz.max(phdr.p_memsz)
}

// The last segment that has what is at an address in memory: it is mapped over those before it.
fn last_holding(table: &SegmentTable<'_, AnyEndian>, address: u64) -> Option<ProgramHeader>
    ensures { result ≡ last_of (holds address) (table_items program_header_reads (table_view table.now)) }
{
    let mut last = None;
    for phdr in table.iter() {
        if holds(&phdr, address) {
            last = Some(phdr);
        }
    }
    last
}

// Where the bytes of an address begin in the file, and how many of its segment there are.
fn place_of(
    file: &LoadedParts<'_>,
    table: &SegmentTable<'_, AnyEndian>,
    address: u64,
) -> Option<(u64, u64)>
    ensures { result
        ≡ place_of (loaded_file file.now) (table_items program_header_reads (table_view table.now)) address }
{
    let phdr = last_holding(table, address)?;
    let before = address.saturating_sub(phdr.p_vaddr);
    let start = phdr.p_offset.checked_add(before)?;
    let size = phdr.p_filesz.saturating_sub(before);
    Some((start, size.min(file.size.saturating_sub(start))))
}

// The place of the dynamic section.
pub(super) fn dynamic_place(
    file: &LoadedParts<'_>,
    table: &SegmentTable<'_, AnyEndian>,
) -> Result<(u64, u64), Stop>
    ensures { result ≡ dynamic_place (loaded_file file.now) (table_items program_header_reads (table_view table.now)) }
{
    place_of(file, table, dynamic_address(table)).ok_or(Stop::Refused(Refusal::DynamicOutside))
}

// Whether the machine has relocations without addends.
fn knows_rel(machine: u16) -> bool
    ensures { result ≡ knows_rel machine }
{
    machine == abi::EM_386 || machine == abi::EM_ARM || machine == abi::EM_MIPS
}

// The question to `DT_PLTREL`.
fn check_plt(kind: &Kind, entries: &DynamicTable<'_, AnyEndian>) -> Result<(), Stop>
    ensures { result ≡ plt_verdict kind.now (value_of dt_pltrel (entries_in (table_view entries.now))) }
{
    let Some(tag) = value(entries, abi::DT_PLTREL) else {
        return Ok(());
    };
    if tag == abi::DT_RELA as u64 || (knows_rel(kind.machine) && tag == abi::DT_REL as u64) {
        Ok(())
    } else {
        Err(Stop::Refused(Refusal::PltKind))
    }
}

// The question to the size of a table's records. These are the refusals of another size and of none.
fn check_size(
    other: Refusal,
    none: Refusal,
    expected: u64,
    table: Option<u64>,
    size: Option<u64>,
) -> Result<(), Stop>
    ensures { result ≡ size_verdict other none expected table size }
{
    if table.is_none() {
        return Ok(());
    }
    match size {
        None => Err(Stop::Refused(none)),
        Some(size) => {
            if size == expected {
                Ok(())
            } else {
                Err(Stop::Refused(other))
            }
        }
    }
}

// The question to `DT_RELAENT`.
fn check_rela(kind: &Kind, entries: &DynamicTable<'_, AnyEndian>) -> Result<(), Stop>
    ensures { result ≡ rela_verdict kind.now (entries_in (table_view entries.now)) }
{
    check_size(
        Refusal::RelaSize,
        Refusal::NoRelaSize,
        Rela::size_for(kind.class) as u64,
        value(entries, abi::DT_RELA),
        value(entries, abi::DT_RELAENT),
    )
}

// The question to `DT_RELENT`.
fn check_rel(kind: &Kind, entries: &DynamicTable<'_, AnyEndian>) -> Result<(), Stop>
    ensures { result ≡ rel_verdict kind.now (entries_in (table_view entries.now)) }
{
    if !knows_rel(kind.machine) {
        return Ok(());
    }
    check_size(
        Refusal::RelSize,
        Refusal::NoRelSize,
        Rel::size_for(kind.class) as u64,
        value(entries, abi::DT_REL),
        value(entries, abi::DT_RELENT),
    )
}

// The question to `DT_RELRENT`.
fn check_relr(kind: &Kind, entries: &DynamicTable<'_, AnyEndian>) -> Result<(), Stop>
    ensures { result ≡ relr_verdict kind.now (entries_in (table_view entries.now)) }
{
    check_size(
        Refusal::RelrSize,
        Refusal::NoRelrSize,
        address_size(kind.class),
        value(entries, DT_RELR),
        value(entries, DT_RELRENT),
    )
}

// The question to the flag `DF_1_PIE` of `DT_FLAGS_1`.
fn check_pie(entries: &DynamicTable<'_, AnyEndian>) -> Result<(), Stop>
    ensures { result ≡ pie_verdict (entries_in (table_view entries.now)) }
{
    let flags = value(entries, abi::DT_FLAGS_1).unwrap_or(0);
    if flags & abi::DF_1_PIE as u64 != 0 {
        Err(Stop::Refused(Refusal::PositionIndependent))
    } else {
        Ok(())
    }
}

// The questions to the dynamic entries.
pub(super) fn check_entries(kind: &Kind, entries: &DynamicTable<'_, AnyEndian>) -> Result<(), Stop>
    ensures { result ≡ entries_verdict kind.now (entries_in (table_view entries.now)) }
{
    check_plt(kind, entries)?;
    check_rela(kind, entries)?;
    check_rel(kind, entries)?;
    check_relr(kind, entries)?;
    check_pie(entries)
}

// The question to the front of a hash table.
fn check_words(kind: &Kind, front: &[u8]) -> Result<(), Stop>
    ensures { result ≡ words_verdict (number_at (any_is_little kind.now.order) 4 front.now 8) }
{
    let mut offset = 8;
    match kind.order.parse_u32_at(&mut offset, front) {
        Ok(words) => {
            if words == 0 || words.is_power_of_two() {
                Ok(())
            } else {
                Err(Stop::Refused(Refusal::HashWords))
            }
        }
        Err(_) => Err(Stop::Refused(Refusal::HashOutside)),
    }
}

// The question to the hash table, which is at the address of `DT_GNU_HASH`.
pub(super) fn check_hash(
    kind: &Kind,
    file: &LoadedParts<'_>,
    table: &SegmentTable<'_, AnyEndian>,
    entries: &DynamicTable<'_, AnyEndian>,
) -> Result<(), Stop>
    ensures { result
        ≡ hash_verdict kind.now (loaded_file file.now) (table_items program_header_reads (table_view table.now))
        (value_of dt_gnu_hash (entries_in (table_view entries.now))) }
{
    let Some(address) = value(entries, abi::DT_GNU_HASH) else {
        return Ok(());
    };
    let (start, _) = place_of(file, table, address).ok_or(Stop::Refused(Refusal::HashOutside))?;
    let front = read(file, start, 12, Refusal::HashOutside)?;
    check_words(kind, front)
}
