//! The relocations.
ghost use Rattle.std.specs.Prelude.{◌≡◌, ◌≤◌, IfErr, IfOk};
ghost use Rattle.std.specs.Option.{option_map};
ghost use Rattle.elf.specs.Answers.{relas_left, rels_left};
ghost use Rattle.elf.specs.Parts.{loaded};
ghost use Rattle.elf_dynamic.specs.dynamic_view.Entries.{IsPlainError, entries_in};
ghost use Rattle.elf_dynamic.specs.dynamic_view.Relocations.{all_parts, count_named, named_count, plt_at, plt_left, plt_of};
ghost use Rattle.elf_dynamic.specs.dynamic_view.Relocations.{plt_relocations, relas, relr_bytes, rels, table_at, table_bytes};
ghost use Rattle.elf_records.specs.Class.{address_size};
ghost use Rattle.elf_records.specs.Number.{ok_map};
ghost use Rattle.elf_records.specs.Table.{items_left, table_view};

use crate::dynamic_view::entries::{entry_size, required, value};
use crate::dynamic_view::error::DynamicError;
use crate::dynamic_view::segments::bytes_of;
use crate::relr::{DT_RELR, DT_RELRENT, DT_RELRSZ};
use elf::abi;
use elf::dynamic::DynamicTable;
use elf::endian::EndianParse;
use elf::file::Class;
use elf::reader::Reader;
use elf::relocation::{Rel, RelIterator, Rela, RelaIterator, Relocation};
use elf_parts::parse::{ParseAt, ParsingIterator};

// The tags of the entries that give the address of a table, its size, and the size of a record of it.
struct TableTags {
    address: i64,
    size: i64,
    entry: i64,
}

const REL: TableTags = TableTags {
    address: abi::DT_REL,
    size: abi::DT_RELSZ,
    entry: abi::DT_RELENT,
};

const RELA: TableTags = TableTags {
    address: abi::DT_RELA,
    size: abi::DT_RELASZ,
    entry: abi::DT_RELAENT,
};

const RELR: TableTags = TableTags {
    address: DT_RELR,
    size: DT_RELRSZ,
    entry: DT_RELRENT,
};

// The bytes of the table at an address, whose records have a size.
fn table_at<'f, E: EndianParse, R: Reader<E>>(
    file: &'f R,
    entries: &DynamicTable<'_, E>,
    tags: &TableTags,
    size: u64,
    address: u64,
) -> Result<&'f [u8], DynamicError>
    ensures value { ok_map (λ bytes. bytes.now) result ≡ table_at (loaded (R.file file.now) (R.ranges file.now))
        tags.now.size tags.now.entry size (entries_in (table_view entries.now)) address }
    ensures plain { IfErr result IsPlainError }
{
    let total = required(entries, tags.size)?;
    entry_size(entries, tags.entry, size)?;
    bytes_of(file, address, total)
}

// The bytes of a table whose records have a size, if an entry gives its address.
fn table_bytes<'f, E: EndianParse, R: Reader<E>>(
    file: &'f R,
    entries: &DynamicTable<'_, E>,
    tags: &TableTags,
    size: u64,
) -> Result<Option<&'f [u8]>, DynamicError>
    ensures value { ok_map (option_map (λ bytes. bytes.now)) result
        ≡ table_bytes (loaded (R.file file.now) (R.ranges file.now))
        tags.now.address tags.now.size tags.now.entry size (entries_in (table_view entries.now)) }
    ensures plain { IfErr result IsPlainError }
{
    match value(entries, tags.address) {
        Some(address) => table_at(file, entries, tags, size, address).map(Some),
        None => Ok(None),
    }
}

/// Returns an iterator over the relocations without addends (`DT_REL`), or `None` if no entry gives their address.
///
/// Errors, in order: `NoEntry(DT_RELSZ)`; `NoEntry(DT_RELENT)`; `EntrySize` if the size of a relocation is not the one
/// of the file's class; those of `bytes_of`.
pub fn rels<'f, E: EndianParse, R: Reader<E>>(
    file: &'f R,
    entries: &DynamicTable<'_, E>,
) -> Result<Option<RelIterator<'f, E>>, DynamicError>
    ensures value { ok_map (option_map rels_left) result
        ≡ rels (loaded (R.file file.now) (R.ranges file.now)) (entries_in (table_view entries.now)) }
    ensures plain { IfErr result IsPlainError }
{
    let size = Rel::size_for(file.class()) as u64;
    match table_bytes(file, entries, &REL, size)? {
        Some(bytes) => Ok(Some(RelIterator::new(file.endianness(), file.class(), bytes))),
        None => Ok(None),
    }
}

/// Returns an iterator over the relocations with addends (`DT_RELA`), or `None` if no entry gives their address. The
/// errors are those of `rels`, with `DT_RELASZ` and `DT_RELAENT`.
pub fn relas<'f, E: EndianParse, R: Reader<E>>(
    file: &'f R,
    entries: &DynamicTable<'_, E>,
) -> Result<Option<RelaIterator<'f, E>>, DynamicError>
    ensures value { ok_map (option_map relas_left) result
        ≡ relas (loaded (R.file file.now) (R.ranges file.now)) (entries_in (table_view entries.now)) }
    ensures plain { IfErr result IsPlainError }
{
    let size = Rela::size_for(file.class()) as u64;
    match table_bytes(file, entries, &RELA, size)? {
        Some(bytes) => Ok(Some(RelaIterator::new(file.endianness(), file.class(), bytes))),
        None => Ok(None),
    }
}

/// Returns the size of an address in bytes.
pub fn address_size(class: Class) -> u64
    ensures size { result ≡ address_size class }
    ensures most { result ≤ 8 }
{
    match class {
        Class::ELF32 => 4,
        Class::ELF64 => 8,
    }
}

/// Returns the bytes of the packed relative relocations (`DT_RELR`), which are words of the size of an address, or
/// `None` if no entry gives their address. The errors are those of `rels`, with `DT_RELRSZ` and `DT_RELRENT`.
pub fn relr_bytes<'f, E: EndianParse, R: Reader<E>>(
    file: &'f R,
    entries: &DynamicTable<'_, E>,
) -> Result<Option<&'f [u8]>, DynamicError>
    ensures value { ok_map (option_map (λ bytes. bytes.now)) result
        ≡ relr_bytes (loaded (R.file file.now) (R.ranges file.now)) (entries_in (table_view entries.now)) }
    ensures plain { IfErr result IsPlainError }
{
    table_bytes(file, entries, &RELR, address_size(file.class()))
}

/// The relocations of the procedure linkage table, which are all of one kind.
#[derive(Debug, Drop)]
pub enum PltRelocations<'data, E: EndianParse> {
    /// Without addends.
    Rel(RelIterator<'data, E>),
    /// With addends.
    Rela(RelaIterator<'data, E>),
}

// The relocations at an address, which are of the kind that `DT_PLTREL` gives.
fn plt_of<'f, E: EndianParse, R: Reader<E>>(
    file: &'f R,
    kind: u64,
    address: u64,
    size: u64,
) -> Result<PltRelocations<'f, E>, DynamicError>
    ensures value { ok_map plt_left result
        ≡ plt_of (loaded (R.file file.now) (R.ranges file.now)) kind address size }
    ensures plain { IfErr result IsPlainError }
{
    if kind == abi::DT_REL as u64 {
        let bytes = bytes_of(file, address, size)?;
        let rels = RelIterator::new(file.endianness(), file.class(), bytes);
        Ok(PltRelocations::Rel(rels))
    } else if kind == abi::DT_RELA as u64 {
        let bytes = bytes_of(file, address, size)?;
        let relas = RelaIterator::new(file.endianness(), file.class(), bytes);
        Ok(PltRelocations::Rela(relas))
    } else {
        Err(DynamicError::UnknownKind(kind))
    }
}

// The relocations of the procedure linkage table at an address.
fn plt_at<'f, E: EndianParse, R: Reader<E>>(
    file: &'f R,
    entries: &DynamicTable<'_, E>,
    address: u64,
) -> Result<PltRelocations<'f, E>, DynamicError>
    ensures value { ok_map plt_left result
        ≡ plt_at (loaded (R.file file.now) (R.ranges file.now)) (entries_in (table_view entries.now)) address }
    ensures plain { IfErr result IsPlainError }
{
    let size = required(entries, abi::DT_PLTRELSZ)?;
    let kind = required(entries, abi::DT_PLTREL)?;
    plt_of(file, kind, address, size)
}

/// Returns an iterator over the relocations of the procedure linkage table (`DT_JMPREL`), or `None` if no entry gives
/// their address.
///
/// Errors, in order: `NoEntry(DT_PLTRELSZ)`; `NoEntry(DT_PLTREL)`; `UnknownKind` if `DT_PLTREL` is neither `DT_REL` nor
/// `DT_RELA`; those of `bytes_of`.
pub fn plt_relocations<'f, E: EndianParse, R: Reader<E>>(
    file: &'f R,
    entries: &DynamicTable<'_, E>,
) -> Result<Option<PltRelocations<'f, E>>, DynamicError>
    ensures value { ok_map (option_map plt_left) result
        ≡ plt_relocations (loaded (R.file file.now) (R.ranges file.now)) (entries_in (table_view entries.now)) }
    ensures plain { IfErr result IsPlainError }
{
    match value(entries, abi::DT_JMPREL) {
        Some(address) => plt_at(file, entries, address).map(Some),
        None => Ok(None),
    }
}

// One past the largest index of a symbol that relocations name, and at least this number.
fn count_each<E: EndianParse, P: Relocation>(
    count: u64,
    relocations: ParsingIterator<'_, E, P>,
) -> u64
    ensures { result ≡ named_count count (all_parts P.fields (items_left P.reads relocations.entry)) }
{
    let mut count = count;
    for relocation in relocations {
        count = count.max(relocation.fields().r_sym as u64 + 1);
    }
    count
}

// How many symbols there are at least, since relocations name them.
pub(crate) fn count_named<E: EndianParse, R: Reader<E>>(
    file: &R,
    entries: &DynamicTable<'_, E>,
) -> Result<u64, DynamicError>
    ensures { result
        ≡ count_named (loaded (R.file file.now) (R.ranges file.now)) (entries_in (table_view entries.now)) }
{
    let mut count = 0;
    if let Some(rels) = rels(file, entries)? {
        count = count_each(count, rels);
    }
    if let Some(relas) = relas(file, entries)? {
        count = count_each(count, relas);
    }
    match plt_relocations(file, entries)? {
        Some(PltRelocations::Rel(rels)) => Ok(count_each(count, rels)),
        Some(PltRelocations::Rela(relas)) => Ok(count_each(count, relas)),
        None => Ok(count),
    }
}
