//! The versions of symbols, as they are written after the names of the symbols.
ghost use Rattle.std.specs.Prelude.{◌≡◌, IfOk, map};
ghost use Rattle.std.specs.Option.{option_map};
ghost use Rattle.elf_records.specs.Number.{ok_map};
ghost use Rattle.elf_records.specs.Symbol.{symbol_reads};
ghost use Rattle.elf_records.specs.Table.{table_items, table_view};
ghost use Rattle.elf_linking.specs.Binding.{entry_view};
ghost use Rattle.elf_tools.specs.SymbolVersions.{symbol_version, symbol_version_in, symbol_version_view, symbol_view};
ghost use Rattle.elf_tools.specs.SymbolVersions.{versioned_symbols, written};

use elf::endian::EndianParse;
use elf::gnu_symver::{SymbolVersions, VersionIndex};
use elf::symbol::{Symbol, SymbolTable};
use elf_linking::{SymbolEntry, Unreadable, symbol_entry, version_index_of};
use std::alloc::{AllocError, Global};

/// The version of a symbol.
#[derive(Debug, Clone, Copy)]
pub enum SymbolVersion<'a> {
    /// The version `name` of the other file `file`, written as `@name`.
    Needed { file: &'a str, name: &'a str },
    /// A version of the file itself. A reference without a version binds to a symbol of a default version, which is
    /// written as `@@name`; one that is not is written as `@name`.
    Defined { name: &'a str, is_default: bool },
}

/// A symbol with its version.
#[derive(Debug, Drop)]
pub struct VersionedSymbol<'a> {
    pub symbol: Symbol,
    pub version: Result<Option<SymbolVersion<'a>>, Unreadable>,
}

// What a version index stands for, as it is written after a name.
fn written<'a>(
    entry: SymbolEntry<'a>,
    index: VersionIndex,
    symbol: usize,
) -> Result<Option<SymbolVersion<'a>>, Unreadable>
    ensures { ok_map (option_map symbol_version_view) result ≡ written symbol index (entry_view entry.entry) }
{
    match entry {
        SymbolEntry::Nothing => Err(Unreadable { symbol }),
        SymbolEntry::File => Ok(None),
        SymbolEntry::Defined(version) => Ok(Some(SymbolVersion::Defined {
            name: version.name,
            is_default: !index.is_hidden(),
        })),
        SymbolEntry::Needed { file, version } => Ok(Some(SymbolVersion::Needed {
            file,
            name: version.name,
        })),
    }
}

/// Returns the version of a symbol, counted from 0. Returns `None` if its version index is 0 (`VER_NDX_LOCAL`) or 1
/// (`VER_NDX_GLOBAL`), or if it is that of the file itself (`VER_FLG_BASE`). If a definition and a need have its index,
/// the definition counts. A symbol that the file defines may have a needed version: it is the copy of a variable of
/// another file.
///
/// The error is `Unreadable` if the version index or a name cannot be read (of a need also the name of its file), if
/// the definition has no names, or if no definition and no need has the version index.
///
/// ```rust
/// if let Some(versions) = file.symbol_version_table()? {
///     match symbol_version(&versions, 1)? {
///         Some(SymbolVersion::Needed { file, name }) => println!(rt; "needs {name} of {file}")?,
///         Some(SymbolVersion::Defined { name, .. }) => println!(rt; "is defined with {name}")?,
///         None => println!(rt; "has no version")?,
///     }
/// }
/// ```
pub fn symbol_version<'a, E: EndianParse, V: SymbolVersions<E>>(
    versions: &'a V,
    symbol: usize,
) -> Result<Option<SymbolVersion<'a>>, Unreadable>
    ensures { ok_map (option_map symbol_version_view) result ≡ symbol_version (V.versions versions.now) symbol }
{
    let index = version_index_of(versions, symbol)?;
    if index.index() < 2 {
        return Ok(None);
    }
    let entry = symbol_entry(versions, symbol)?;
    written(entry, index, symbol)
}

// The version of a symbol of a file that may have no versions.
fn symbol_version_in<'a, E: EndianParse, V: SymbolVersions<E>>(
    versions: Option<&'a V>,
    symbol: usize,
) -> Result<Option<SymbolVersion<'a>>, Unreadable>
    ensures { ok_map (option_map symbol_version_view) result
        ≡ symbol_version_in (option_map (λ table. V.versions table.now) versions.entry) symbol }
{
    match versions {
        Some(versions) => symbol_version(versions, symbol),
        None => Ok(None),
    }
}

/// Returns the symbols of a table in order, each with its version, by a look-up of versions. Without versions, no symbol
/// has one. The only error is a failed allocation. Over `IndexedVersions` the time grows with the number of symbols and
/// the length of their versions' names alone.
pub fn versioned_symbols<'a, E: EndianParse, V: SymbolVersions<E>>(
    alloc: Global,
    symbols: &SymbolTable<'_, E>,
    versions: Option<&'a V>,
) -> Result<Vec<VersionedSymbol<'a>>, AllocError>
    ensures { IfOk result (λ all. map symbol_view all.items
        ≡ versioned_symbols (option_map (λ table. V.versions table.now) versions.entry)
        (table_items symbol_reads (table_view symbols.now))) }
{
    let mut all = Vec::new(alloc);
    for symbol in symbols.iter() {
        let version = symbol_version_in(versions, all.len());
        all.push(VersionedSymbol { symbol, version })?;
    }
    Ok(all)
}
