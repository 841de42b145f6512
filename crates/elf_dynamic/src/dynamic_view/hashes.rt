//! Hash sections by their addresses.
ghost use Rattle.std.specs.Prelude.{◌≡◌, ◌≤◌, ◌<◌, ◌+◌, ◌-◌, ◌^◌, IfErr, IfOk, IfSome};
ghost use Rattle.std.specs.Option.{option_map};
ghost use Rattle.elf.specs.Parts.{loaded};
ghost use Rattle.elf_dynamic.specs.dynamic_view.Entries.{IsPlainError, entries_in};
ghost use Rattle.elf_dynamic.specs.dynamic_view.Hashes.{count_from, gnu_at, gnu_count, gnu_from, gnu_hash, gnu_until};
ghost use Rattle.elf_dynamic.specs.dynamic_view.Hashes.{largest_word, run_end, sysv_at, sysv_hash, sysv_header};
ghost use Rattle.elf_dynamic.specs.dynamic_view.Hashes.{sysv_size};
ghost use Rattle.elf_parts.specs.GnuFind.{gnu_view};
ghost use Rattle.elf_parts.specs.Hash.{word_count};
ghost use Rattle.elf_parts.specs.SysvFind.{sysv_view};
ghost use Rattle.elf_records.specs.Number.{ok_map};
ghost use Rattle.elf_records.specs.Table.{table_view};

use crate::dynamic_view::entries::value;
use crate::dynamic_view::error::DynamicError;
use crate::dynamic_view::segments::{bytes_from, bytes_of};
use elf::abi;
use elf::dynamic::DynamicTable;
use elf::endian::EndianParse;
use elf::file::Class;
use elf::hash::{GnuHashHeader, GnuHashTable, SysVHashHeader, SysVHashTable};
use elf::reader::Reader;
use elf_parts::parse::{ParseAt, ParsingTable};

// ---- SysV

// The header of the SysV hash section at an address.
pub(crate) fn sysv_header<E: EndianParse, R: Reader<E>>(
    file: &R,
    address: u64,
) -> Result<SysVHashHeader, DynamicError>
    ensures { result ≡ sysv_header (loaded (R.file file.now) (R.ranges file.now)) address }
{
    let front = bytes_of(file, address, 8)?;
    let header = SysVHashHeader::parse_at(file.endianness(), file.class(), &mut 0, front)?;
    Ok(header)
}

// The size of a SysV hash section in bytes.
fn sysv_size(header: &SysVHashHeader) -> u64
    ensures { result ≡ sysv_size header.now }
{
    8 + 4 * header.nbucket as u64 + 4 * header.nchain as u64
}

// The SysV hash section at an address.
fn sysv_at<'f, E: EndianParse, R: Reader<E>>(
    file: &'f R,
    address: u64,
) -> Result<SysVHashTable<'f, E>, DynamicError>
    ensures { ok_map sysv_view result ≡ sysv_at (loaded (R.file file.now) (R.ranges file.now)) address }
{
    let header = sysv_header(file, address)?;
    let bytes = bytes_of(file, address, sysv_size(&header))?;
    let table = SysVHashTable::new(file.endianness(), file.class(), bytes)?;
    Ok(table)
}

/// Returns the SysV hash section by the entry `DT_HASH`, or `None` if there is no such entry.
///
/// Errors, in order: those of `bytes_of` for the header; those of `bytes_of` for the section, whose size follows from
/// the header.
pub fn sysv_hash<'f, E: EndianParse, R: Reader<E>>(
    file: &'f R,
    entries: &DynamicTable<'_, E>,
) -> Result<Option<SysVHashTable<'f, E>>, DynamicError>
    ensures { ok_map (option_map sysv_view) result
        ≡ sysv_hash (loaded (R.file file.now) (R.ranges file.now)) (entries_in (table_view entries.now)) }
{
    match value(entries, abi::DT_HASH) {
        Some(address) => sysv_at(file, address).map(Some),
        None => Ok(None),
    }
}

// ---- GNU

// The GNU hash section at an address, with all bytes up to the last one of its segment as chain words.
pub(crate) fn gnu_from<'f, E: EndianParse, R: Reader<E>>(
    file: &'f R,
    address: u64,
) -> Result<GnuHashTable<'f, E>, DynamicError>
    ensures { ok_map gnu_view result ≡ gnu_from (loaded (R.file file.now) (R.ranges file.now)) address }
{
    let bytes = bytes_from(file, address)?;
    let table = GnuHashTable::new(file.endianness(), file.class(), bytes)?;
    Ok(table)
}

// The largest word of a table, or 0 if it has none.
fn largest_word<E: EndianParse>(words: &ParsingTable<'_, E, u32>) -> u32
    ensures { result ≡ largest_word (table_view words.now) }
{
    words.iter().fold(0, |largest, word| largest.max(word))
}

// One past the first place from `start` on whose chain word has bit 0 set.
#[tactic(auto, using(crate::proofs::Runs::end_steps))]
fn run_end<E: EndianParse>(chains: &ParsingTable<'_, E, u32>, start: usize) -> Option<usize>
    ensures end { result ≡ run_end (table_view chains.now) (word_count (table_view chains.now) - start) start }
    ensures within { IfSome result (λ end. end ≤ word_count (table_view chains.now)) }
    ensures few { word_count (table_view chains.now) < 2 ^ 62 }
{
    for place in start..chains.len() {
        let word = chains.get_quickly(place)?;
        if word % 2 == 1 {
            return Some(place + 1);
        }
    }
    None
}

// How many symbols there are, if `last` is the first index of the last run.
fn count_from<E: EndianParse>(table: &GnuHashTable<'_, E>, last: u32) -> Result<u64, DynamicError>
    ensures value { result ≡ count_from (gnu_view table.now) last }
    ensures most { IfOk result (λ count.
        count ≤ table.now.hdr.table_start_idx + word_count (gnu_view table.now).chains) }
    ensures least { IfOk result (λ count. table.now.hdr.table_start_idx ≤ count) }
    ensures plain { IfErr result IsPlainError }
{
    let first = table.hdr.table_start_idx;
    if last == 0 || last < first {
        return Ok(first as u64);
    }
    match run_end(&table.chains(), (last - first) as usize) {
        Some(end) => Ok(first as u64 + end as u64),
        None => Err(DynamicError::UnendedChain),
    }
}

// How many symbols there are by a GNU hash section.
pub(crate) fn gnu_count<E: EndianParse>(table: &GnuHashTable<'_, E>) -> Result<u64, DynamicError>
    ensures value { result ≡ gnu_count (gnu_view table.now) }
    ensures most { IfOk result (λ count.
        count ≤ table.now.hdr.table_start_idx + word_count (gnu_view table.now).chains) }
    ensures least { IfOk result (λ count. table.now.hdr.table_start_idx ≤ count) }
    ensures plain { IfErr result IsPlainError }
{
    count_from(table, largest_word(&table.buckets()))
}

// The section whose chain words are those of its symbols, if there are `count` symbols in all.
fn gnu_until<'f, E: EndianParse>(
    endian: E,
    class: Class,
    table: &GnuHashTable<'f, E>,
    count: u64,
) -> GnuHashTable<'f, E>
    requires most { count ≤ table.now.hdr.table_start_idx + word_count (gnu_view table.now).chains }
    requires least { table.now.hdr.table_start_idx ≤ count }
    ensures { gnu_view result ≡ gnu_until (E.little endian) class (gnu_view table.now) count }
{
    let header = GnuHashHeader {
        nbucket: table.hdr.nbucket,
        table_start_idx: table.hdr.table_start_idx,
        nbloom: table.hdr.nbloom,
        nshift: table.hdr.nshift,
    };
    let words = (count - table.hdr.table_start_idx as u64) as usize;
    let chains = table.chains().bytes();
    GnuHashTable::from_parts(
        endian,
        class,
        header,
        table.bloom(),
        table.buckets().bytes(),
        &chains[..4 * words],
    )
}

// The GNU hash section at an address.
fn gnu_at<'f, E: EndianParse, R: Reader<E>>(
    file: &'f R,
    address: u64,
) -> Result<GnuHashTable<'f, E>, DynamicError>
    ensures { ok_map gnu_view result ≡ gnu_at (loaded (R.file file.now) (R.ranges file.now)) address }
{
    let table = gnu_from(file, address)?;
    let count = gnu_count(&table)?;
    Ok(gnu_until(file.endianness(), file.class(), &table, count))
}

/// Returns the GNU hash section by the entry `DT_GNU_HASH`, or `None` if there is no such entry. Its chain words are
/// those of the symbols that it can find.
///
/// Errors, in order: those of `bytes_from` for the bytes up to the end of the segment; `Read` if the header, the bloom
/// words and the buckets do not lie in them; `UnendedChain` if no chain word ends the last run.
pub fn gnu_hash<'f, E: EndianParse, R: Reader<E>>(
    file: &'f R,
    entries: &DynamicTable<'_, E>,
) -> Result<Option<GnuHashTable<'f, E>>, DynamicError>
    ensures { ok_map (option_map gnu_view) result
        ≡ gnu_hash (loaded (R.file file.now) (R.ranges file.now)) (entries_in (table_view entries.now)) }
{
    match value(entries, abi::DT_GNU_HASH) {
        Some(address) => gnu_at(file, address).map(Some),
        None => Ok(None),
    }
}
