//! What a user's functions can promise of notes and of the versions of symbols, whatever the order is. Each
//! uses the contracts of the iterators alone: a `for` has its invariant, and nothing else is proved here.
ghost use Rattle.std.specs.Prelude.{◌≡◌, ◌==◌, ◌<◌, ◌^◌, length, IfOk};
ghost use Rattle.std.specs.List.{find};
ghost use Rattle.std.specs.Option.{option_map};
ghost use Rattle.elf_parts.specs.Note.{notes_in};
ghost use Rattle.elf_records.specs.Number.{ok_map};
ghost use Rattle.elf_parts.specs.gnu_symver.Lists.{ver_def_aux_records, ver_defs_left};
ghost use Rattle.elf_parts.specs.gnu_symver.Table.{definition, names_left, versions_view};
ghost use Rattle.elf_parts.specs.gnu_symver.Lists.{ver_need_aux_left, ver_needs};
ghost use Rattle.elf_records.specs.Table.{table_in};

use elf::endian::EndianParse;
use elf::file::Class;
use elf::gnu_symver::{
    IndexedVersions, SymbolNamesIterator, SymbolVersionTable, SymbolVersions, VerDefAuxIterator,
    VerDefIterator, VerNeedAuxIterator, VerNeedIterator,
};
use elf::note::NoteIterator;
use elf::parse::ParseError;
use std::alloc::{AllocError, Global};

/// How many notes the data hold.
pub fn count_notes<E: EndianParse>(endian: E, class: Class, align: usize, data: &[u8]) -> usize
    ensures { result ≡ length (notes_in (E.little endian) align «data».now) }
{
    NoteIterator::new(endian, class, align, data).count()
}

/// How many files are needed.
pub fn count_needs<E: EndianParse>(endian: E, class: Class, count: u64, data: &[u8]) -> usize
    ensures { result ≡ length (ver_needs (table_in (E.little endian) class «data».now) count 0) }
{
    VerNeedIterator::new(endian, class, count, 0, data).count()
}

/// The hash of the first of these versions that has this index.
pub fn hash_of_needed<E: EndianParse>(
    versions: VerNeedAuxIterator<'_, E>,
    index: u16,
) -> Option<u32>
    ensures { result ≡ option_map (λ version. version.vna_hash)
        (find (λ version. version.vna_other == index) (ver_need_aux_left versions.entry)) }
{
    for version in versions {
        if version.vna_other == index {
            return Some(version.vna_hash);
        }
    }
    None
}

/// The flags of the first of these definitions that has this index.
pub fn flags_of_defined<E: EndianParse>(
    definitions: VerDefIterator<'_, E>,
    index: u16,
) -> Option<u16>
    ensures { result ≡ option_map (λ found. found.0.vd_flags)
        (find (λ found. found.0.vd_ndx == index) (ver_defs_left definitions.entry)) }
{
    for (found, _) in definitions {
        if found.vd_ndx == index {
            return Some(found.vd_flags);
        }
    }
    None
}

/// How many names a definition has whose first name begins at `start`.
pub fn count_aux_records<E: EndianParse>(
    endian: E,
    class: Class,
    count: u16,
    start: usize,
    data: &[u8],
) -> usize
    ensures { result ≡ length (ver_def_aux_records (table_in (E.little endian) class «data».now) count start) }
{
    VerDefAuxIterator::new(endian, class, count, start, data).count()
}

/// How many names the iterator yields, including errors.
pub fn count_names<E: EndianParse>(names: SymbolNamesIterator<'_, E>) -> u64
    requires { length (names_left names) < 2 ^ 64 }
    ensures { result ≡ length (names_left names.entry) }
{
    let mut count = 0;
    for _ in names {
        count += 1;
    }
    count
}

/// How many names the definition of a symbol has. They are always few enough to be counted.
pub fn count_names_of<E: EndianParse, V: SymbolVersions<E>>(
    versions: &V,
    symbol: usize,
) -> Result<Option<u64>, ParseError>
    ensures { result ≡ ok_map (option_map (λ found. length found.names))
        (definition (V.versions versions.now) symbol) }
{
    match versions.get_definition(symbol) {
        Ok(Some(found)) => Ok(Some(count_names(found.names))),
        Ok(None) => Ok(None),
        Err(err) => Err(err),
    }
}

/// How many names the definition of a symbol has, by an index of these versions. The outer error is a failed
/// allocation.
pub fn count_names_by_index<E: EndianParse>(
    alloc: Global,
    versions: &SymbolVersionTable<'_, E>,
    symbol: usize,
) -> Result<Result<Option<u64>, ParseError>, AllocError>
    ensures { IfOk result (λ counted. counted ≡ ok_map (option_map (λ found. length found.names))
        (definition (versions_view versions.now) symbol)) }
{
    let index = IndexedVersions::new(alloc, versions)?;
    Ok(count_names_of(&index, symbol))
}
