//! The version of a symbol in its file, by an index that is built once or without, and whether a definition serves a
//! reference.
ghost use Rattle.std.specs.Prelude.{◌≡◌, Ok, IfOk, IsNone, IsOk};
ghost use Rattle.std.specs.Option.{option_map};
ghost use Rattle.elf_records.specs.Number.{ok_map};
ghost use Rattle.elf_parts.specs.gnu_symver.VersionEntry.{ByNeed, required_with};
ghost use Rattle.elf_parts.specs.gnu_symver.Table.{definition_view, index_of, names_left, versions_view};
ghost use Rattle.elf_linking.specs.Binding.{defined_as, entry_by, entry_view, first_name, is_base, is_version, serves};
ghost use Rattle.elf_linking.specs.Binding.{serves_exactly, serves_version, symbol_entry, version_in, version_index_of};
ghost use Rattle.elf_linking.specs.Binding.{version_of, version_view};

use crate::{Rule, Unreadable, Version};
use elf::endian::EndianParse;
use elf::gnu_symver::{
    IndexedVersions, SymbolDefinition, SymbolNamesIterator, SymbolVersionTable, SymbolVersions,
    VersionIndex,
};
use elf_abi::abi;
use std::alloc::{AllocError, Global};

/// What the version index of a symbol stands for.
#[derive(Debug, Clone, Copy)]
pub enum SymbolEntry<'a> {
    /// Nothing: no definition and no need has the index.
    Nothing,
    /// The file itself (`VER_FLG_BASE`), which is no version.
    File,
    /// This version of the file.
    Defined(Version<'a>),
    /// This version of the other file `file`.
    Needed { file: &'a str, version: Version<'a> },
}

impl<'a> SymbolEntry<'a> {
    /// Returns the version, if it is one.
    pub fn version(&self) -> Option<Version<'a>>
        ensures { option_map version_view result ≡ version_in (entry_view self.now) }
    {
        match self {
            SymbolEntry::Nothing | SymbolEntry::File => None,
            SymbolEntry::Defined(version) => Some(*version),
            SymbolEntry::Needed { version, .. } => Some(*version),
        }
    }
}

// A definition by the first of its names.
fn first_name<'a, E: EndianParse>(
    mut names: SymbolNamesIterator<'a, E>,
    hash: u32,
    symbol: usize,
) -> Result<SymbolEntry<'a>, Unreadable>
    ensures { ok_map entry_view result ≡ first_name symbol hash (names_left names.entry) }
{
    match names.next() {
        Some(Ok(name)) => Ok(SymbolEntry::Defined(Version { name, hash })),
        Some(Err(_)) => Err(Unreadable { symbol }),
        None => Err(Unreadable { symbol }),
    }
}

// A definition. What is defined for the file itself is no version.
fn defined_as<'a, E: EndianParse>(
    definition: SymbolDefinition<'a, E>,
    symbol: usize,
) -> Result<SymbolEntry<'a>, Unreadable>
    ensures { ok_map entry_view result ≡ defined_as symbol (definition_view definition.entry) }
{
    if definition.flags & abi::VER_FLG_BASE != 0 {
        return Ok(SymbolEntry::File);
    }
    first_name(definition.names, definition.hash, symbol)
}

// The version that a symbol needs, or nothing.
#[tactic(auto, using(crate::proofs::Requirements::needed_given, crate::proofs::Requirements::needed_none))]
fn needed_as<'a, E: EndianParse, V: SymbolVersions<E>>(
    versions: &'a V,
    symbol: usize,
    index: VersionIndex,
) -> Result<SymbolEntry<'a>, Unreadable>
    requires { index_of (V.versions versions.now) symbol ≡ Ok index }
    ensures { ok_map entry_view result
        ≡ entry_by symbol (option_map ByNeed (required_with (V.versions versions.now).needs index)) }
{
    match versions.get_requirement(symbol) {
        Ok(Some(needed)) => Ok(SymbolEntry::Needed {
            file: needed.file,
            version: Version {
                name: needed.name,
                hash: needed.hash,
            },
        }),
        Ok(None) => Ok(SymbolEntry::Nothing),
        Err(_) => Err(Unreadable { symbol }),
    }
}

/// Returns what the version index of a symbol, counted from 0, stands for in its file: the first name and the hash of the
/// definition with this index, or if there is no such definition of the need with it.
///
/// The error is `Unreadable` if the version index or a name cannot be read (of a need also the name of its file),
/// or if the definition has no names.
#[tactic(auto, using(crate::proofs::Requirements::symbol_defined, crate::proofs::Requirements::symbol_needed, crate::proofs::Requirements::symbol_refused))]
pub fn symbol_entry<'a, E: EndianParse, V: SymbolVersions<E>>(
    versions: &'a V,
    symbol: usize,
) -> Result<SymbolEntry<'a>, Unreadable>
    ensures { ok_map entry_view result ≡ symbol_entry (V.versions versions.now) symbol }
{
    let Ok(index) = versions.get_index(symbol) else {
        return Err(Unreadable { symbol });
    };
    match versions.get_definition(symbol) {
        Ok(Some(definition)) => defined_as(definition, symbol),
        Ok(None) => needed_as(versions, symbol, index),
        Err(_) => Err(Unreadable { symbol }),
    }
}

/// Returns the version of a symbol, counted from 0, in its file: that of `symbol_entry`, with its error. Returns `None`
/// if the definition is the one of the file itself (`VER_FLG_BASE`), or if there is no definition and no need.
pub fn version_of<'a, E: EndianParse, V: SymbolVersions<E>>(
    versions: &'a V,
    symbol: usize,
) -> Result<Option<Version<'a>>, Unreadable>
    ensures { ok_map (option_map version_view) result ≡ version_of (V.versions versions.now) symbol }
{
    let entry = symbol_entry(versions, symbol)?;
    Ok(entry.version())
}

/// Returns the version index of a symbol, counted from 0. The error is `Unreadable` if it cannot be read.
pub fn version_index_of<E: EndianParse, V: SymbolVersions<E>>(
    versions: &V,
    symbol: usize,
) -> Result<VersionIndex, Unreadable>
    ensures { result ≡ version_index_of (V.versions versions.now) symbol }
{
    match versions.get_index(symbol) {
        Ok(index) => Ok(index),
        Err(_) => Err(Unreadable { symbol }),
    }
}

fn is_version(own: &Version<'_>, wanted: &Version<'_>) -> bool
    ensures { result ≡ is_version (version_view own.now) (version_view wanted.now) }
{
    own.hash == wanted.hash && own.name.as_bytes() == wanted.name.as_bytes()
}

// Whether a definition has the version, or has none and is not hidden.
fn serves_version(wanted: &Version<'_>, own: &Option<Version<'_>>, index: VersionIndex) -> bool
    ensures { result ≡ serves_version (version_view wanted.now) (option_map version_view own.now) index }
{
    match own {
        Some(own) => is_version(own, wanted),
        None => !index.is_hidden(),
    }
}

// Whether a definition has the version.
fn serves_exactly(wanted: &Version<'_>, own: &Option<Version<'_>>) -> bool
    ensures { result ≡ serves_exactly (version_view wanted.now) (option_map version_view own.now) }
{
    match own {
        Some(own) => is_version(own, wanted),
        None => false,
    }
}

// Whether a definition has no version, or the first one that its file defines.
fn is_base(index: VersionIndex) -> bool
    ensures { result ≡ is_base index }
{
    index.index() < 3
}

// Whether a definition serves.
pub(crate) fn serves<E: EndianParse, V: SymbolVersions<E>>(
    versions: &V,
    rule: &Rule<'_>,
    symbol: usize,
) -> Result<bool, Unreadable>
    ensures { result ≡ serves (V.versions versions.now) rule.now symbol }
{
    match rule {
        Rule::Versioned(wanted) => {
            let own = version_of(versions, symbol)?;
            let index = version_index_of(versions, symbol)?;
            Ok(serves_version(wanted, &own, index))
        }
        Rule::Exact(wanted) => {
            let own = version_of(versions, symbol)?;
            Ok(serves_exactly(wanted, &own))
        }
        Rule::Base => Ok(is_base(version_index_of(versions, symbol)?)),
        Rule::Shown => Ok(!version_index_of(versions, symbol)?.is_hidden()),
    }
}

/// Returns an index of these versions, if there are any. The only error is a failed allocation. Without versions
/// nothing is allocated.
pub fn indexed<'a, 'data, E: EndianParse>(
    alloc: Global,
    versions: Option<&'a SymbolVersionTable<'data, E>>,
) -> Result<Option<IndexedVersions<'a, 'data, E, Global>>, AllocError>
    ensures index { IfOk result (λ index. index ≡ option_map (λ table. versions_view table.now) versions.entry) }
    ensures none { IsNone versions.entry → IsOk result }
{
    match versions {
        Some(versions) => {
            let index = IndexedVersions::new(alloc, versions)?;
            Ok(Some(index))
        }
        None => Ok(None),
    }
}
