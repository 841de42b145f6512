//! The checked hash table of a file, and the look-up of a name over such tables.
ghost use Rattle.std.specs.Prelude.{◌≡◌};
ghost use Rattle.elf_records.specs.Number.{ok_map};
ghost use Rattle.elf.specs.ObjectFile.{Whole, object_file};
ghost use Rattle.elf.specs.ElfBytes.{view};
ghost use Rattle.elf_hash_check.specs.CheckedTable.{object_view};
ghost use Rattle.elf_hash_check.specs.Object.{object_in};
ghost use Rattle.elf_records.specs.StringTable.{strings_view};
ghost use Rattle.elf_records.specs.Table.{table_view};
ghost use Rattle.elf_linking.specs.ObjectTable.{GivesObjectTable, GivesTable, object_of, parts_view, or_fault, section_object};
ghost use Rattle.elf_linking.specs.ObjectTable.{section_parts};
ghost use Rattle.elf_linking.specs.Resolve.{IsResolved};

use crate::resolve::ObjectFault;
use elf::endian::EndianParse;
use elf::file::Class;
use elf::headers::Headers;
use elf::section::SectionHeader;
use elf::string_table::StringTable;
use elf::symbol::{Symbol, SymbolTable};
use elf::{ElfBytes, abi};
use elf_hash_check::hashcheck::{AnyChecked, Checked, HashKind, check_any};

/// The bytes of a section, and the dynamic symbols with their strings.
pub(crate) type SectionParts<'data, E> = (&'data [u8], (SymbolTable<'data, E>, StringTable<'data>));

/// A hash section by its kind, with what it is checked with.
pub(crate) type HashParts<'data, E> = (HashKind, SectionParts<'data, E>);

// What a section is checked with.
fn section_parts<'data, E: EndianParse>(
    file: &ElfBytes<'data, E>,
    section: &SectionHeader,
) -> Result<SectionParts<'data, E>, ObjectFault>
    ensures { ok_map parts_view result ≡ section_parts (object_file E.little (view file.now)) section.now }
{
    let (bytes, _) = file.section_data(section)?;
    match file.dynamic_symbol_table()? {
        Some(symbols) => Ok((bytes, symbols)),
        None => Err(ObjectFault::NoSymbols),
    }
}

/// Returns the checked table of a hash section of this kind, by its bytes, over these symbols.
pub(crate) fn checked_in<'data, E: EndianParse>(
    kind: HashKind,
    endian: E,
    class: Class,
    bytes: &'data [u8],
    symbols: SymbolTable<'data, E>,
    strings: StringTable<'data>,
) -> Result<AnyChecked<'data, E>, ObjectFault>
    ensures { GivesTable object_view (or_fault Whole (object_in kind (E.little endian) class bytes.now
        (table_view symbols.entry) (strings_view strings.entry))) result }
{
    match check_any(kind, endian, class, bytes, symbols, strings)? {
        Checked::Sound(table) => Ok(table),
        Checked::Faulty(fault) => Err(ObjectFault::Faulty(fault)),
    }
}

/// Returns the checked table of a hash section of this kind over the dynamic symbols of its file. The type of the section
/// is not checked.
///
/// Errors, in order: `Read` if the bytes of the section cannot be read; `Read` if the dynamic symbols cannot be read;
/// `NoSymbols` if there are none; `Read` if `new` of the table returns an error; `Faulty` with the first fault of the
/// section.
pub fn section_table<'data, E: EndianParse>(
    file: &ElfBytes<'data, E>,
    kind: HashKind,
    section: &SectionHeader,
) -> Result<AnyChecked<'data, E>, ObjectFault>
    ensures { GivesTable object_view (section_object kind (object_file E.little (view file.now)) section.now) result }
{
    let (bytes, (symbols, strings)) = section_parts(file, section)?;
    let ehdr = &file.ehdr;
    checked_in(kind, ehdr.endianness, ehdr.class, bytes, symbols, strings)
}

/// Returns the checked hash table of a file over its dynamic symbols: that of the first section of type
/// `SHT_GNU_HASH`, or if there is none that of the first of type `SHT_HASH`. Returns `None` exactly if the file has
/// neither. The errors are those of `section_table`.
///
/// ```rust
/// match object_table(&file)? {
///     Some(table) => println!(rt; "{} indexed symbols", table.indexed())?,
///     None => println!(rt; "no hash section")?,
/// }
/// ```
pub fn object_table<'data, E: EndianParse>(
    file: &ElfBytes<'data, E>,
) -> Result<Option<AnyChecked<'data, E>>, ObjectFault>
    ensures { GivesObjectTable object_view (object_of (object_file E.little (view file.now))) result }
{
    if let Some(section) = file.first_section_of(abi::SHT_GNU_HASH) {
        return Ok(Some(section_table(file, HashKind::Gnu, &section)?));
    }
    if let Some(section) = file.first_section_of(abi::SHT_HASH) {
        return Ok(Some(section_table(file, HashKind::Sysv, &section)?));
    }
    Ok(None)
}

#[tactic(auto, using(std::proofs::lemmas::Grind::elements))]
/// Returns the place of the first object in the list that has the name, counted from 0, with the index and the symbol
/// that its `find` returns. Returns `None` exactly if no object has the name. The objects are the tables that
/// `object_table` returns for the files, in the order of the search.
///
/// ```rust
/// if let Some(table) = object_table(&file)?
///     && let Some((object, index, _)) = resolve(&[table], b"malloc")
/// {
///     println!(rt; "object {object}, symbol {index}")?;
/// }
/// ```
pub fn resolve<E: EndianParse>(
    objects: &[AnyChecked<'_, E>],
    name: &[u8],
) -> Option<(usize, usize, Symbol)>
    ensures { IsResolved object_view objects.now name.now result }
{
    for (place, object) in objects.iter().enumerate() {
        if let Some((index, symbol)) = object.find(name) {
            return Some((place, index, symbol));
        }
    }
    None
}
