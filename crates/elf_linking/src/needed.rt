//! The names by which the dynamic linker finds a file and the libraries that it loads with it.
ghost use Rattle.std.specs.Prelude.{◌≡◌, ◌≢◌, Err, IfErr, IfOk, None, Ok, map};
ghost use Rattle.std.specs.Option.{option_map};
ghost use Rattle.elf_records.specs.Number.{ok_map};
ghost use Rattle.elf_records.specs.Table.{table_view};
ghost use Rattle.elf.specs.Answers.{dynamic};
ghost use Rattle.elf.specs.ObjectFile.{Partial};
ghost use Rattle.elf.specs.Parts.{loaded};
ghost use Rattle.elf.specs.Ranges.{dynamic_ranges, headers_alone};
ghost use Rattle.elf.specs.StreamFile.{stream_file};
ghost use Rattle.elf_reading.specs.Refusals.{Kind};
ghost use Rattle.elf_dynamic.specs.dynamic_view.Entries.{entries_in};
ghost use Rattle.elf_linking.specs.Missing.{LoadsMissing, loaded_part};
ghost use Rattle.elf_linking.specs.Needed.{IsAnswered, IsGiven, MissesNames};
ghost use Rattle.elf_linking.specs.Needed.{has_nodeflib, is_library};
ghost use Rattle.elf_linking.specs.Needed.{libraries_of, library_of, library_view, missing_of};
ghost use Rattle.elf_linking.specs.Needed.{name_bytes, name_of, name_with, names, names_by, names_in, names_kind};
ghost use Rattle.elf_linking.specs.Needed.{names_view, read_error, role_of};
ghost use Rattle.elf_linking.specs.Needed.{string_range, strings_at, strings_by};
ghost use Rattle.elf_linking.specs.Readings.{LeavesCopy, ReadsFile};
ghost use Rattle.elf_linking.specs.declared.needed.NamesError.TheVariants.{Memory as IsMemory};

use elf::dynamic::{Dyn, DynamicTable};
use elf::endian::EndianParse;
use elf::reader::{Reader, dynamic};
use elf::string_table::{StringTable, TerminatedStrings};
use elf::{ElfStream, ParseError, ReadError, StreamSource, abi};
use elf_dynamic::dynamic_view::{has_tag, part_of, value_in};
use std::alloc::{AllocError, AllocFailed, Allocator, Global};
use std::fmt;
use thiserror::Error;

/// A name in the string table of a file, by its offset in bytes. `Names::bytes` returns its bytes.
#[derive(Debug, Clone, Copy)]
pub struct Name {
    start: usize,
}

/// Tag of the dynamic entry with the name of a library in which symbols are looked up before the file that has the entry.
/// The library may be missing.
pub const DT_AUXILIARY: i64 = 0x7ffffffd;
/// The same of a library that may not be missing.
pub const DT_FILTER: i64 = 0x7fffffff;

/// How a file names a library that is loaded with it.
#[derive(Debug, Clone, Copy, PartialEq, Eq)]
pub enum Role {
    /// It needs the library (`DT_NEEDED`).
    Needed,
    /// Symbols are looked up in the library before the file, if the library is there (`DT_AUXILIARY`).
    Auxiliary,
    /// Symbols are looked up in the library before the file (`DT_FILTER`).
    Filter,
}

/// A library that is loaded with a file.
#[derive(Debug, Clone, Copy)]
pub struct Library {
    pub role: Role,
    pub name: Name,
}

/// The names that the dynamic entries of a file give, in one copy of its string table. Many entries may name one long
/// string, so a name is neither copied nor read to its end before its bytes are requested.
#[derive(Debug, Drop)]
pub struct Names {
    strings: Vec<u8>,
    /// The file's own name, by its last entry `DT_SONAME`.
    pub soname: Option<Name>,
    /// The libraries that are loaded with it, by its entries `DT_NEEDED`, `DT_AUXILIARY` and `DT_FILTER`, in order.
    pub libraries: Vec<Library>,
    /// The search paths of libraries, by its last entry `DT_RUNPATH` and by its last entry `DT_RPATH`.
    pub runpath: Option<Name>,
    pub rpath: Option<Name>,
    /// Whether the usual folders do not count, by the flag `DF_1_NODEFLIB` of its last entry `DT_FLAGS_1`.
    pub nodeflib: bool,
}

impl Names {
    /// Returns the bytes of a name, without the 0 byte that ends it. Of a name of another file it returns the string at
    /// its offset, or no bytes if there is none. The time grows with the length of the name.
    pub fn bytes(&self, name: &Name) -> &[u8]
        ensures { result.now ≡ name_bytes self.now.strings.items name.now }
    {
        match StringTable::new(&self.strings).get_raw(name.start) {
            Ok(bytes) => bytes,
            Err(_) => &[],
        }
    }

    /// Returns a copy. The only error is a failed allocation.
    pub fn copied(&self, alloc: Global) -> Result<Names, AllocError>
        ensures { IfOk result (λ copy. names_view copy ≡ names_view self.now) }
    {
        Ok(Names {
            strings: Vec::from_slice(alloc, &self.strings)?,
            soname: self.soname,
            libraries: Vec::from_slice(alloc, &self.libraries)?,
            runpath: self.runpath,
            rpath: self.rpath,
            nodeflib: self.nodeflib,
        })
    }
}

/// Why the names of a file are not available.
#[derive(Debug, Drop, Error)]
pub enum NamesError {
    /// The bytes cannot be read.
    Read(ParseError),
    /// The bytes from a start to an end, which lie in the file, are not loaded.
    Missing((u64, u64)),
    /// No entry gives the address of the string table.
    NoAddress,
    /// No entry gives the size of the string table.
    NoSize,
    /// No loaded segment has the string table, which begins at this address, in the file.
    NotLoaded(u64),
    /// The string that an entry names cannot be read.
    Name(ParseError),
    /// An allocation failed.
    Memory,
}

impl fmt::Display for NamesError {
    ghost use Rattle.elf_linking.specs.Texts.{names_text};

    ghost output = { names_text };

    fn fmt<W: fmt::Write>(&self, f: &mut fmt::Formatter<W>) -> fmt::Result {
        match self {
            NamesError::Read(error) | NamesError::Name(error) => write!(f, "{error}"),
            NamesError::Missing((start, end)) => {
                write!(f, "Bytes in range [0x{start:X}, 0x{end:X}) are not loaded")
            }
            NamesError::NoAddress => f.write_str("no entry DT_STRTAB"),
            NamesError::NoSize => f.write_str("no entry DT_STRSZ"),
            NamesError::NotLoaded(address) => {
                write!(f, "no segment holds the string table at 0x{address:x}")
            }
            NamesError::Memory => f.write_str("out of memory"),
        }
    }
}

impl From<AllocError> for NamesError {
    ghost from_gives = { λ _ error. error ≡ IsMemory };

    fn from(_error: AllocError) -> NamesError {
        NamesError::Memory
    }
}

impl<T: Drop> From<AllocFailed<T>> for NamesError {
    ghost from_gives = { λ _ error. error ≡ IsMemory };

    fn from(_error: AllocFailed<T>) -> NamesError {
        NamesError::Memory
    }
}

impl From<ReadError> for NamesError {
    ghost from_gives = { λ read error. error ≡ read_error Partial read };

    fn from(error: ReadError) -> NamesError {
        match error {
            ReadError::Parse(error) => NamesError::Read(error),
            ReadError::NotLoaded(range) => NamesError::Missing(range),
        }
    }
}

/// Returns the entries of a table before the first with the tag `DT_NULL`, which ends it. The only error is a failed
/// allocation.
pub fn entries_in<E: EndianParse>(
    alloc: Global,
    table: &DynamicTable<'_, E>,
) -> Result<Vec<Dyn>, AllocError>
    ensures { IfOk result (λ entries. entries.items ≡ entries_in (table_view table.now)) }
{
    table
        .iter()
        .take_while(|entry| !has_tag(entry, abi::DT_NULL))
        .collect(alloc)
}

// The address of the string table, and its size.
fn string_range(entries: &[Dyn]) -> Result<(u64, u64), NamesError>
    ensures value { result ≡ string_range entries.now }
    ensures plain { IsGiven (λ range. range) (string_range entries.now) result }
{
    let Some(address) = value_in(entries, abi::DT_STRTAB) else {
        return Err(NamesError::NoAddress);
    };
    let Some(size) = value_in(entries, abi::DT_STRSZ) else {
        return Err(NamesError::NoSize);
    };
    Ok((address, size))
}

/// Returns the string table with an address and a size. The address is one of memory, and the segments of type `PT_LOAD`
/// say which bytes of the file are loaded there.
///
/// Errors, in order: `NotLoaded` if no segment of type `PT_LOAD` holds it; `Read` if the bytes cannot be read, or
/// `Missing` if they are not loaded.
pub fn strings_at<'f, E: EndianParse, R: Reader<E>>(
    file: &'f R,
    address: u64,
    size: u64,
) -> Result<&'f [u8], NamesError>
    ensures value { ok_map (λ bytes. bytes.now) result
        ≡ strings_at (loaded (R.file file.now) (R.ranges file.now)) (address, size) }
    ensures plain { IsAnswered (λ bytes. bytes.now)
        (strings_at (loaded (R.file file.now) (R.ranges file.now)) (address, size)) result }
{
    let Ok((start, length)) = part_of(file, address, size) else {
        return Err(NamesError::NotLoaded(address));
    };
    match file.range(start, length) {
        Ok(bytes) => Ok(bytes),
        Err(error) => Err(NamesError::from(error)),
    }
}

/// Returns the string table of the dynamic entries of a file. The errors are `NoAddress` and `NoSize` if no entry gives
/// its address or its size, then those of `strings_at`.
pub fn strings_of<'f, E: EndianParse, R: Reader<E>>(
    file: &'f R,
    entries: &[Dyn],
) -> Result<&'f [u8], NamesError>
    ensures value { ok_map (λ bytes. bytes.now) result
        ≡ strings_by (loaded (R.file file.now) (R.ranges file.now)) entries.now }
    ensures plain { IsAnswered (λ bytes. bytes.now)
        (strings_by (loaded (R.file file.now) (R.ranges file.now)) entries.now) result }
{
    match string_range(entries) {
        Ok((address, size)) => strings_at(file, address, size),
        Err(error) => Err(error),
    }
}

// The string at an offset. Comparing it with the empty name gives the error, and reads at most one byte of it.
fn name_of(strings: &TerminatedStrings<'_>, offset: u64) -> Result<Name, NamesError>
    ensures { ok_map (name_bytes strings.now) result ≡ name_of strings.now offset }
{
    let start = offset as usize;
    match strings.is(start, &[]) {
        Ok(_) => Ok(Name { start }),
        Err(error) => Err(NamesError::Name(error)),
    }
}

// The string that a tag gives.
fn name_with(
    strings: &TerminatedStrings<'_>,
    entries: &[Dyn],
    tag: i64,
) -> Result<Option<Name>, NamesError>
    ensures { ok_map (option_map (name_bytes strings.now)) result ≡ name_with strings.now tag entries.now }
{
    match value_in(entries, tag) {
        Some(offset) => name_of(strings, offset).map(Some),
        None => Ok(None),
    }
}

/// Returns whether the entry names a library that is loaded with the file: its tag is `DT_NEEDED`, `DT_AUXILIARY` or
/// `DT_FILTER`.
pub fn is_library(entry: &Dyn) -> bool
    ensures { result ≡ is_library entry.now }
{
    has_tag(entry, abi::DT_NEEDED) || has_tag(entry, DT_AUXILIARY) || has_tag(entry, DT_FILTER)
}

// How an entry names a library.
fn role_of(entry: &Dyn) -> Role
    ensures { result ≡ role_of entry.now }
{
    match entry.d_tag {
        DT_AUXILIARY => Role::Auxiliary,
        DT_FILTER => Role::Filter,
        _ => Role::Needed,
    }
}

// The library that an entry names.
fn library_of(strings: &TerminatedStrings<'_>, entry: &Dyn) -> Result<Library, NamesError>
    ensures { ok_map (library_view strings.now) result ≡ library_of strings.now entry.now }
{
    let name = name_of(strings, entry.d_val())?;
    Ok(Library {
        role: role_of(entry),
        name,
    })
}

// The libraries that the entries name, in order.
fn libraries_of(
    alloc: Global,
    strings: &TerminatedStrings<'_>,
    entries: &[Dyn],
) -> Result<Vec<Library>, NamesError>
    ensures { IsGiven (λ libraries. map (library_view strings.now) libraries.items)
        (libraries_of strings.now entries.now) result }
{
    let mut libraries = Vec::new(alloc);
    for entry in entries {
        if is_library(entry) {
            libraries.push(library_of(strings, entry)?)?;
        }
    }
    Ok(libraries)
}

// Whether the flag is set.
fn has_nodeflib(entries: &[Dyn]) -> bool
    ensures { result ≡ has_nodeflib entries.now }
{
    value_in(entries, abi::DT_FLAGS_1).unwrap_or(0) & abi::DF_1_NODEFLIB as u64 != 0
}

// The names that the entries give in a string table, with a copy of it.
fn names_in(alloc: Global, table: &[u8], entries: &[Dyn]) -> Result<Names, NamesError>
    ensures { IsGiven names_view (names_in table.now entries.now) result }
{
    let strings = TerminatedStrings::new(&StringTable::new(table));
    let soname = name_with(&strings, entries, abi::DT_SONAME)?;
    let libraries = libraries_of(alloc, &strings, entries)?;
    let runpath = name_with(&strings, entries, abi::DT_RUNPATH)?;
    let rpath = name_with(&strings, entries, abi::DT_RPATH)?;
    Ok(Names {
        strings: Vec::from_slice(alloc, table)?,
        soname,
        libraries,
        runpath,
        rpath,
        nodeflib: has_nodeflib(entries),
    })
}

/// Returns the dynamic entries of a file before the first with the tag `DT_NULL`, copied, or `None` if it has none. It
/// requests what `dynamic` requests: if that is cached, the stream is as it was.
///
/// Errors, in order: those of `dynamic`, among them `IOError` exactly if the source failed; `OutOfMemory` if an
/// allocation failed, which is possible only if a requested range was not cached or the file has dynamic entries.
pub fn read_entries<E: EndianParse, S: StreamSource, A: Allocator + Copy>(
    alloc: Global,
    stream: &mut ElfStream<E, S, A>,
) -> Result<Option<Vec<Dyn>>, ParseError>
    ensures { LeavesCopy (dynamic_ranges (headers_alone E.little stream.old)) (λ entries. entries.items)
        (λ bytes. ok_map (option_map entries_in) (dynamic (stream_file E.little stream.old bytes)))
        stream.old stream.new result }
{
    match stream.dynamic() {
        Ok(Some(table)) => {
            let entries = entries_in(alloc, &table)?;
            Ok(Some(entries))
        }
        Ok(None) => Ok(None),
        Err(error) => Err(error),
    }
}

// The names that the entries of a file give.
fn names_by<E: EndianParse, R: Reader<E>>(
    alloc: Global,
    file: &R,
    entries: &[Dyn],
) -> Result<Names, NamesError>
    ensures { IsAnswered names_view
        (names_by (loaded (R.file file.now) (R.ranges file.now)) entries.now) result }
{
    match strings_of(file, entries) {
        Ok(strings) => names_in(alloc, strings, entries),
        Err(error) => Err(error),
    }
}

/// Returns the soname of a file, the libraries that are loaded with it, its search paths and the flag `DF_1_NODEFLIB`, or
/// `None` if it has no dynamic entries. Of several entries with a tag that only one should have the last counts, as for
/// the dynamic linker. The string table is found by its address, as the dynamic linker finds it, so no section header is
/// needed. Of a stream it reads what is loaded; `read_dynamic_names` loads the rest.
///
/// Errors, in order: `Read` if the dynamic entries cannot be read; `NoAddress` and `NoSize` if no entry gives the
/// address or the size of the string table; `NotLoaded` if no segment of type `PT_LOAD` holds it; `Read` if its bytes
/// cannot be read; `Name` if the string of an entry cannot be read: of the soname, then of the libraries in
/// order, of `DT_RUNPATH` and of `DT_RPATH`. In place of `Read`, `Missing` if the bytes lie in the file and are not
/// loaded. `Memory` if an allocation failed, which is possible only if the file has dynamic entries.
pub fn dynamic_names<E: EndianParse, R: Reader<E>>(
    alloc: Global,
    file: &R,
) -> Result<Option<Names>, NamesError>
    ensures names { IsAnswered (option_map names_view)
        (names (loaded (R.file file.now) (R.ranges file.now))) result }
    ensures memory { result ≡ Err NamesError.Memory →
        names (loaded (R.file file.now) (R.ranges file.now)) ≢ Ok None }
{
    let entries = match dynamic(file) {
        Ok(Some(table)) => entries_in(alloc, &table)?,
        Ok(None) => return Ok(None),
        Err(error) => return Err(NamesError::from(error)),
    };
    match names_by(alloc, file, entries.as_slice()) {
        Ok(names) => Ok(Some(names)),
        Err(error) => Err(error),
    }
}

// The range that is missing, if that is the error.
fn missing_of(found: &Result<Option<Names>, NamesError>) -> Option<(u64, u64)>
    ensures { result ≡ missing_of found.now }
{
    match found {
        Err(NamesError::Missing(range)) => Some(*range),
        _ => None,
    }
}

/// Returns of a stream what `dynamic_names` returns of a file in memory, with the same errors in the same order. It
/// loads each range that is missing, and no other. `Read` also with `IOError`, exactly if the source failed, and with
/// `OutOfMemory` if an allocation for a range failed, which like `Memory` is possible only if the file has dynamic
/// entries.
///
/// ```rust
/// if let Some(names) = read_dynamic_names(rt.alloc(), &mut stream)? {
///     for library in &names.libraries {
///         println!(rt; "{}", from_utf8(names.bytes(&library.name))?)?;
///     }
/// }
/// ```
pub fn read_dynamic_names<E: EndianParse, S: StreamSource, A: Allocator + Copy>(
    alloc: Global,
    stream: &mut ElfStream<E, S, A>,
) -> Result<Option<Names>, NamesError>
    ensures names { ReadsFile names_kind (option_map names_view)
        (λ bytes. names (stream_file E.little stream.old bytes)) stream.old stream.new result }
    ensures memory { IfErr result (λ e. names_kind e ≡ Kind.AllocationFailure
        → names (loaded_part E.little stream.old) ≢ Ok None) }
    ensures only { LoadsMissing E.little MissesNames stream.old stream.new }
{
    // Each round loads a range that was missing, and no source has that many.
    'rounds: for round in 0..u64::MAX {
        stream.is_part_of_file();
        let found = dynamic_names(alloc, &*stream);
        let Some((start, end)) = missing_of(&found) else {
            return found;
        };
        match stream.load_range(start, end.saturating_sub(start)) {
            Ok(()) => {}
            Err(error) => return Err(NamesError::Read(error)),
        }
    }
    Err(NamesError::Memory)
}
