//! The symbol table.
ghost use Rattle.std.specs.Prelude.{◌≡◌};
ghost use Rattle.elf.specs.Answers.{symbols_view};
ghost use Rattle.elf.specs.Parts.{loaded};
ghost use Rattle.elf_dynamic.specs.dynamic_view.Entries.{entries_in};
ghost use Rattle.elf_dynamic.specs.dynamic_view.Symbols.{count_by, count_by_gnu, known_count, or_none, symbol_count};
ghost use Rattle.elf_dynamic.specs.dynamic_view.Symbols.{symbol_part, symbols, symbols_with_strings, total_count};
ghost use Rattle.elf_records.specs.Number.{ok_map};
ghost use Rattle.elf_records.specs.Table.{table_view};

use crate::dynamic_view::entries::{entry_size, required, value};
use crate::dynamic_view::error::DynamicError;
use crate::dynamic_view::hashes::{gnu_count, gnu_from, sysv_header};
use crate::dynamic_view::relocations::count_named;
use crate::dynamic_view::segments::{range_of, records_part};
use crate::dynamic_view::string_table::strings;
use elf::abi;
use elf::dynamic::DynamicTable;
use elf::endian::EndianParse;
use elf::reader::Reader;
use elf::string_table::StringTable;
use elf::symbol::{Symbol, SymbolTable};
use elf_parts::parse::ParseAt;

// How many symbols there are by the GNU hash section at an address.
fn count_by_gnu<E: EndianParse, R: Reader<E>>(file: &R, address: u64) -> Result<u64, DynamicError>
    ensures { result ≡ count_by_gnu (loaded (R.file file.now) (R.ranges file.now)) address }
{
    let table = gnu_from(file, address)?;
    gnu_count(&table)
}

// How many symbols there are by the addresses of both hash sections.
fn count_by<E: EndianParse, R: Reader<E>>(
    file: &R,
    sysv: Option<u64>,
    gnu: Option<u64>,
) -> Result<Option<u64>, DynamicError>
    ensures { result ≡ count_by (loaded (R.file file.now) (R.ranges file.now)) sysv gnu }
{
    if let Some(address) = sysv {
        let header = sysv_header(file, address)?;
        return Ok(Some(header.nchain as u64));
    }
    match gnu {
        Some(address) => count_by_gnu(file, address).map(Some),
        None => Ok(None),
    }
}

/// Returns how many symbols there are, or `None` if no entry gives a hash section. It is the number of chain words of
/// the SysV hash section (`DT_HASH`). Without one it is one past the last symbol of the last run of the GNU hash
/// section (`DT_GNU_HASH`), or the number of symbols before the first that this section could find, if it finds none.
///
/// Errors, in order: those of `bytes_of` for the header of a SysV hash section; else those of `bytes_from` for a GNU
/// hash section, `Read` if its header, its bloom words and its buckets do not lie in its segment, and `UnendedChain`.
pub fn symbol_count<E: EndianParse, R: Reader<E>>(
    file: &R,
    entries: &DynamicTable<'_, E>,
) -> Result<Option<u64>, DynamicError>
    ensures { result
        ≡ symbol_count (loaded (R.file file.now) (R.ranges file.now)) (entries_in (table_view entries.now)) }
{
    count_by(
        file,
        value(entries, abi::DT_HASH),
        value(entries, abi::DT_GNU_HASH),
    )
}

// The same if it has to be known.
fn known_count<E: EndianParse, R: Reader<E>>(
    file: &R,
    entries: &DynamicTable<'_, E>,
) -> Result<u64, DynamicError>
    ensures { result
        ≡ known_count (loaded (R.file file.now) (R.ranges file.now)) (entries_in (table_view entries.now)) }
{
    match symbol_count(file, entries)? {
        Some(count) => Ok(count),
        None => Err(DynamicError::UnknownCount),
    }
}

// The number that relocations name, or 0 if they cannot be read; unless that is since bytes are not loaded.
fn or_none(named: Result<u64, DynamicError>) -> Result<u64, DynamicError>
    ensures { result ≡ or_none named }
{
    match named {
        Ok(count) => Ok(count),
        Err(DynamicError::Missing(range)) => Err(DynamicError::Missing(range)),
        Err(_) => Ok(0),
    }
}

// How many symbols there are: as many as a hash section counts, and at least as many as relocations name.
pub(crate) fn total_count<E: EndianParse, R: Reader<E>>(
    file: &R,
    entries: &DynamicTable<'_, E>,
) -> Result<u64, DynamicError>
    ensures { result
        ≡ total_count (loaded (R.file file.now) (R.ranges file.now)) (entries_in (table_view entries.now)) }
{
    let counted = known_count(file, entries)?;
    let named = or_none(count_named(file, entries))?;
    Ok(counted.max(named))
}

/// Returns the range of the symbol table in the file, by its start and its size. There are as many symbols as
/// `symbol_count` says, and at least as many as the relocations name that can be read: a GNU hash section need not count
/// the symbols that other files define.
///
/// Errors, in order: `NoEntry(DT_SYMTAB)`; `NoEntry(DT_SYMENT)`; `EntrySize` if the size of a symbol is not the one of
/// the file's class; those of `symbol_count`; `UnknownCount` if that returns `None`; `Missing` if relocations are not
/// loaded; `NotLoaded` with the address of the table if no segment of type `PT_LOAD` has it in the file.
pub fn symbol_part<E: EndianParse, R: Reader<E>>(
    file: &R,
    entries: &DynamicTable<'_, E>,
) -> Result<(u64, u64), DynamicError>
    ensures { result
        ≡ symbol_part (loaded (R.file file.now) (R.ranges file.now)) (entries_in (table_view entries.now)) }
{
    let address = required(entries, abi::DT_SYMTAB)?;
    let expected = Symbol::size_for(file.class()) as u64;
    let size = entry_size(entries, abi::DT_SYMENT, expected)?;
    let count = total_count(file, entries)?;
    records_part(file, address, count, size)
}

/// Returns the symbol table. The errors are those of `symbol_part`, then `Read` if its bytes cannot be read, or
/// `Missing` if they lie in the file and are not loaded.
pub fn symbols<'f, E: EndianParse, R: Reader<E>>(
    file: &'f R,
    entries: &DynamicTable<'_, E>,
) -> Result<SymbolTable<'f, E>, DynamicError>
    ensures { ok_map table_view result
        ≡ symbols (loaded (R.file file.now) (R.ranges file.now)) (entries_in (table_view entries.now)) }
{
    let part = symbol_part(file, entries)?;
    let bytes = range_of(file, part)?;
    Ok(SymbolTable::new(file.endianness(), file.class(), bytes))
}

/// Returns the symbol table, and the strings that the names of symbols lie in. The errors are those of `symbols`, then
/// those of `strings`.
pub fn symbols_with_strings<'f, E: EndianParse, R: Reader<E>>(
    file: &'f R,
    entries: &DynamicTable<'_, E>,
) -> Result<(SymbolTable<'f, E>, StringTable<'f>), DynamicError>
    ensures { ok_map symbols_view result
        ≡ symbols_with_strings (loaded (R.file file.now) (R.ranges file.now)) (entries_in (table_view entries.now)) }
{
    let table = symbols(file, entries)?;
    let names = strings(file, entries)?;
    Ok((table, StringTable::new(names)))
}
