//! The string table, and the names that entries give by offsets in it.
ghost use Rattle.std.specs.Prelude.{◌≡◌, IfErr};
ghost use Rattle.std.specs.Option.{option_map};
ghost use Rattle.elf.specs.Parts.{loaded};
ghost use Rattle.elf_dynamic.specs.dynamic_view.Entries.{IsPlainError, entries_in};
ghost use Rattle.elf_dynamic.specs.dynamic_view.Strings.{name_at, name_of, string_part, string_range, strings};
ghost use Rattle.elf_records.specs.Number.{ok_map};
ghost use Rattle.elf_records.specs.Table.{table_view};

use crate::dynamic_view::entries::{required, value};
use crate::dynamic_view::error::DynamicError;
use crate::dynamic_view::segments::{part_of, range_of};
use elf::abi;
use elf::dynamic::DynamicTable;
use elf::endian::EndianParse;
use elf::reader::Reader;
use elf::string_table::TerminatedStrings;

// The address of the string table, and its size.
fn string_range<E: EndianParse>(entries: &DynamicTable<'_, E>) -> Result<(u64, u64), DynamicError>
    ensures value { result ≡ string_range (entries_in (table_view entries.now)) }
    ensures plain { IfErr result IsPlainError }
{
    let address = required(entries, abi::DT_STRTAB)?;
    let size = required(entries, abi::DT_STRSZ)?;
    Ok((address, size))
}

/// Returns the range of the string table in the file, by its start and its size.
///
/// Errors, in order: `NoEntry(DT_STRTAB)`; `NoEntry(DT_STRSZ)`; `NotLoaded` with the address of the table if no segment
/// of type `PT_LOAD` has it in the file.
pub fn string_part<E: EndianParse, R: Reader<E>>(
    file: &R,
    entries: &DynamicTable<'_, E>,
) -> Result<(u64, u64), DynamicError>
    ensures value { result ≡ string_part (R.file file.now).segments (entries_in (table_view entries.now)) }
    ensures plain { IfErr result IsPlainError }
{
    let (address, size) = string_range(entries)?;
    part_of(file, address, size)
}

/// Returns the bytes of the string table. The errors are those of `string_part`, then `Read` if the bytes cannot be
/// read, or `Missing` if they lie in the file and are not loaded.
pub fn strings<'f, E: EndianParse, R: Reader<E>>(
    file: &'f R,
    entries: &DynamicTable<'_, E>,
) -> Result<&'f [u8], DynamicError>
    ensures value { ok_map (λ bytes. bytes.now) result
        ≡ strings (loaded (R.file file.now) (R.ranges file.now)) (entries_in (table_view entries.now)) }
    ensures plain { IfErr result IsPlainError }
{
    let part = string_part(file, entries)?;
    range_of(file, part)
}

// The string at an offset.
fn name_at<'data>(
    strings: &TerminatedStrings<'data>,
    offset: u64,
) -> Result<&'data [u8], DynamicError>
    ensures { ok_map (λ bytes. bytes.now) result ≡ name_at strings.now offset }
{
    match strings.get_raw(offset as usize) {
        Ok(bytes) => Ok(bytes),
        Err(error) => Err(DynamicError::Name(error)),
    }
}

/// Returns the name that the entry with a tag gives, or `None` if no entry has the tag: the file's own name by
/// `DT_SONAME`, its search paths by `DT_RUNPATH` and `DT_RPATH`. `strings` are those of the function `strings`.
///
/// The error is `Name`, with the error of `StringTable::get_raw`.
pub fn name_of<'data, E: EndianParse>(
    strings: &TerminatedStrings<'data>,
    entries: &DynamicTable<'_, E>,
    tag: i64,
) -> Result<Option<&'data [u8]>, DynamicError>
    ensures { ok_map (option_map (λ bytes. bytes.now)) result
        ≡ name_of strings.now tag (entries_in (table_view entries.now)) }
{
    match value(entries, tag) {
        Some(offset) => name_at(strings, offset).map(Some),
        None => Ok(None),
    }
}
