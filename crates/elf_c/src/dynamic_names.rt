//! The names that the dynamic entries of a file give: its own, those of the libraries that are loaded with it, and the
//! search paths.
ghost use Rattle.std.specs.Prelude.{◌≡◌, [], IfOk, IfSome, drop, true};
ghost use Rattle.std.specs.Option.{option_map};
ghost use Rattle.elf_abi.specs.Values.{dt_rpath, dt_runpath, dt_soname};
ghost use Rattle.elf_records.specs.Number.{ok_map};
ghost use Rattle.elf_records.specs.Table.{table_view};
ghost use Rattle.elf_dynamic.specs.dynamic_view.Entries.{entries_in};
ghost use Rattle.elf_linking.specs.Needed.{name_of, strings_by};
ghost use Rattle.elf_c.specs.DynamicNames.{IsNextLibrary, dynamic_names, dynamic_names_view, libraries_left};
ghost use Rattle.elf_c.specs.DynamicNames.{name_with, names_pair, needed_view, next_needed, no_dynamic_names_in};
ghost use Rattle.elf_c.specs.DynamicNames.{no_needed_in};
ghost use Rattle.elf_c.specs.Loaded.{loaded_of_c};
ghost use Rattle.elf_c.specs.Status.{IsWrittenIf, names_status};
ghost use Rattle.elf_c.specs.Tables.{found_bytes, no_bytes_in, table_of_c};

use crate::file::NugwierFile;
use crate::status::{NugwierStatus, done, nameless};
use crate::strings::NugwierFoundBytes;
use crate::table::{NugwierTable, records_in, table_shown};
use elf::laws::tables::{iter_gives_len_records, iter_gives_whatever_get_gives};
use elf::{abi, reader};
use elf_dynamic::dynamic_view::{has_tag, value};
use elf_linking::needed::{NamesError, is_library, strings_at};
use elf_parts::dynamic::{Dyn, DynamicTable};
use elf_parts::endian::AnyEndian;
use elf_parts::string_table::StringTable;

/// The dynamic entries of a file, up to the first with the tag `DT_NULL`, and the strings that they name, if the file
/// has dynamic entries.
#[repr(C)]
#[derive(Drop)]
pub struct NugwierDynamicNames<'data> {
    pub found: bool,
    pub entries: NugwierTable<'data>,
    pub strings: &'data [u8],
}

/// A library that is loaded with a file, if one is left: the tag of the entry that names it, `DT_NEEDED`,
/// `DT_AUXILIARY` or `DT_FILTER`, and its name.
#[repr(C)]
#[derive(Drop)]
pub struct NugwierNeeded<'data> {
    pub found: bool,
    pub tag: i64,
    pub name: &'data [u8],
}

// The strings of the entries.
fn strings_in<'data>(
    file: &'data NugwierFile<'data>,
    entries: &DynamicTable<'_, AnyEndian>,
) -> Result<&'data [u8], NamesError>
    ensures { ok_map (λ strings. strings.now) result
        ≡ strings_by (loaded_of_c file.now) (entries_in (table_view entries.now)) }
{
    let Some(address) = value(entries, abi::DT_STRTAB) else {
        return Err(NamesError::NoAddress);
    };
    let Some(size) = value(entries, abi::DT_STRSZ) else {
        return Err(NamesError::NoSize);
    };
    strings_at::<AnyEndian, _>(file, address, size)
}

// The dynamic entries of a file with their strings.
fn dynamic_names<'data>(
    file: &'data NugwierFile<'data>,
) -> Result<Option<NugwierDynamicNames<'data>>, NamesError>
    ensures value { ok_map (option_map names_pair) result ≡ dynamic_names (loaded_of_c file.now) }
    ensures found { IfOk result (λ names. IfSome names (λ names. names.found ≡ true)) }
{
    let entries = match reader::dynamic::<AnyEndian, _>(file) {
        Ok(Some(entries)) => entries,
        Ok(None) => return Ok(None),
        Err(error) => return Err(NamesError::from(error)),
    };
    let strings = strings_in(file, &entries)?;
    Ok(Some(NugwierDynamicNames {
        found: true,
        entries: table_shown(&entries),
        strings,
    }))
}

/// Finds the dynamic entries of a file, as `nugwier_dynamic_table` does, with the strings that they name. These are
/// found by their address, as the dynamic linker finds them, so no section header is needed. If the file has no dynamic
/// entries, `found` is false, and nothing else is written. An error leaves `names` as it is; the errors are those of
/// `elf_linking::needed::dynamic_names` up to the strings.
#[unsafe(no_mangle)]
pub extern "C" fn nugwier_dynamic_names<'data>(
    file: &'data NugwierFile<'data>,
    names: &mut NugwierDynamicNames<'data>,
) -> NugwierStatus
    ensures status { result ≡ names_status (dynamic_names (loaded_of_c file.now)) }
    ensures names { IsWrittenIf dynamic_names_view no_dynamic_names_in names.new names.old
        (dynamic_names (loaded_of_c file.now)) }
{
    match dynamic_names(file) {
        Ok(Some(found)) => {
            *names = found;
            done()
        }
        Ok(None) => {
            names.found = false;
            done()
        }
        Err(error) => nameless(&error),
    }
}

// The string at an offset.
fn name_of<'data>(strings: &'data [u8], offset: u64) -> Result<&'data [u8], NamesError>
    ensures { ok_map (λ name. name.now) result ≡ name_of strings.now offset }
{
    match StringTable::new(strings).get_raw(offset as usize) {
        Ok(name) => Ok(name),
        Err(error) => Err(NamesError::Name(error)),
    }
}

// Writes the string that a tag gives, or that there is none.
fn write_name<'data>(
    names: &NugwierDynamicNames<'data>,
    tag: i64,
    name: &mut NugwierFoundBytes<'data>,
) -> NugwierStatus
    ensures status { result ≡ names_status (name_with tag names.now) }
    ensures name { IsWrittenIf found_bytes no_bytes_in name.new name.old (name_with tag names.now) }
{
    let Some(offset) = value(&records_in(&names.entries), tag) else {
        name.found = false;
        return done();
    };
    match name_of(names.strings, offset) {
        Ok(bytes) => {
            *name = NugwierFoundBytes { found: true, bytes };
            done()
        }
        Err(error) => nameless(&error),
    }
}

/// Finds the name by which others need a file, that of its last entry `DT_SONAME`. If there is none, `found` is false,
/// and nothing else is written. An error leaves `soname` as it is; the errors are those of `StringTable::get_raw`.
#[unsafe(no_mangle)]
pub extern "C" fn nugwier_soname<'data>(
    names: &NugwierDynamicNames<'data>,
    soname: &mut NugwierFoundBytes<'data>,
) -> NugwierStatus
    ensures status { result ≡ names_status (name_with dt_soname names.now) }
    ensures soname { IsWrittenIf found_bytes no_bytes_in soname.new soname.old (name_with dt_soname names.now) }
{
    write_name(names, abi::DT_SONAME, soname)
}

/// Finds the search paths of libraries that the last entry `DT_RUNPATH` names, as `nugwier_soname` does the soname.
#[unsafe(no_mangle)]
pub extern "C" fn nugwier_runpath<'data>(
    names: &NugwierDynamicNames<'data>,
    runpath: &mut NugwierFoundBytes<'data>,
) -> NugwierStatus
    ensures status { result ≡ names_status (name_with dt_runpath names.now) }
    ensures runpath { IsWrittenIf found_bytes no_bytes_in runpath.new runpath.old (name_with dt_runpath names.now) }
{
    write_name(names, abi::DT_RUNPATH, runpath)
}

/// Finds the search paths of libraries that the last entry `DT_RPATH` names, as `nugwier_soname` does the soname.
#[unsafe(no_mangle)]
pub extern "C" fn nugwier_rpath<'data>(
    names: &NugwierDynamicNames<'data>,
    rpath: &mut NugwierFoundBytes<'data>,
) -> NugwierStatus
    ensures status { result ≡ names_status (name_with dt_rpath names.now) }
    ensures rpath { IsWrittenIf found_bytes no_bytes_in rpath.new rpath.old (name_with dt_rpath names.now) }
{
    write_name(names, abi::DT_RPATH, rpath)
}

// The first entry of a library, from entry number `from` on up to the next `DT_NULL`, and the number of the entry after
// it.
fn next_library(entries: &DynamicTable<'_, AnyEndian>, from: usize) -> Option<(Dyn, usize)>
    ensures { IsNextLibrary (table_view entries.now) (libraries_left (table_view entries.now) from) result }
{
    iter_gives_len_records(entries);
    let mut at = from;
    while at < entries.len() {
        iter_gives_whatever_get_gives(entries, at);
        let Ok(entry) = entries.get(at) else {
            return None;
        };
        if has_tag(&entry, abi::DT_NULL) {
            return None;
        }
        at += 1;
        if is_library(&entry) {
            return Some((entry, at));
        }
    }
    None
}

/// Finds the next library that is loaded with a file, starting at entry number `next`, at first 0, and moves `next` past
/// its entry, also if its name is an error. If none is left, `found` is false, and nothing else is written. An error
/// leaves `needed` as it is; the errors are those of `StringTable::get_raw`.
#[unsafe(no_mangle)]
pub extern "C" fn nugwier_needed<'data>(
    names: &NugwierDynamicNames<'data>,
    next: &mut usize,
    needed: &mut NugwierNeeded<'data>,
) -> NugwierStatus
    ensures status { result ≡ names_status (next_needed names.now next.old) }
    ensures needed { IsWrittenIf needed_view no_needed_in needed.new needed.old (next_needed names.now next.old) }
    ensures moved { let entries = table_of_c names.now.entries in
        libraries_left entries next.new ≡ drop 1 (libraries_left entries next.old) }
    ensures ended { libraries_left (table_of_c names.now.entries) next.old ≡ [] → next.new ≡ next.old }
{
    let Some((entry, after)) = next_library(&records_in(&names.entries), *next) else {
        needed.found = false;
        return done();
    };
    *next = after;
    match name_of(names.strings, entry.d_val()) {
        Ok(name) => {
            *needed = NugwierNeeded {
                found: true,
                tag: entry.d_tag,
                name,
            };
            done()
        }
        Err(error) => nameless(&error),
    }
}
