//! What the undefined symbols of a program and of its libraries bind to.
ghost use Rattle.std.specs.Prelude.{◌≡◌, IfOk, IsNone, IsOk, filter};
ghost use Rattle.std.specs.List.{enumerate_from};
ghost use Rattle.std.specs.Option.{option_map};
ghost use Rattle.elf_records.specs.Symbol.{symbol_reads};
ghost use Rattle.elf_records.specs.Table.{table_items, table_view};
ghost use Rattle.elf_parts.specs.gnu_symver.Table.{versions_view};
ghost use Rattle.elf_hash_check.specs.CheckedTable.{object_view};
ghost use Rattle.elf_linking.specs.VersionedView.{versioned_view};
ghost use Rattle.elf_linking.specs.Bindings.{IsBound, is_reference};

pub mod kinds;
pub mod uses;

use crate::{BindingFault, VersionedObject, Wanted, bind, indexed};
use elf::abi;
use elf::endian::EndianParse;
use elf::gnu_symver::{IndexedVersions, SymbolVersionTable, SymbolVersions};
use elf::symbol::{Symbol, SymbolTable};
use elf_hash_check::hashcheck::AnyChecked;
use std::alloc::{AllocError, Global};

/// What a reference binds to.
#[derive(Debug, Clone, Copy)]
pub enum Bound {
    /// A symbol of an object. Both are counted from 0.
    To { object: usize, symbol: usize },
    /// Nothing, and the reference is weak.
    Weak,
    /// Nothing, although the reference is not weak.
    Missing,
}

/// Returns whether another file has to define the symbol.
pub fn is_reference(symbol: &Symbol) -> bool
    ensures { result ≡ is_reference symbol.now }
{
    symbol.is_undefined() && symbol.st_bind() != abi::STB_LOCAL
}

/// Returns all such symbols of a table, in order, each with its index. The only error is a failed allocation.
pub fn references<E: EndianParse>(
    alloc: Global,
    symbols: &SymbolTable<'_, E>,
) -> Result<Vec<(usize, Symbol)>, AllocError>
    ensures { IfOk result (λ found. found.items ≡ filter (λ one. is_reference one.1)
        (enumerate_from 0 (table_items symbol_reads (table_view symbols.now)))) }
{
    symbols
        .iter()
        .enumerate()
        .filter(|one| is_reference(&one.1))
        .collect(alloc)
}

/// An object whose versions are looked up without a walk.
pub type IndexedObject<'a, 'data, E> = VersionedObject<
    'data,
    E,
    IndexedVersions<'a, 'data, E, Global>,
>;

/// Returns the object of a table and of an index of these versions, if there are any. The only error is a failed
/// allocation. Without versions nothing is allocated.
pub fn with_index<'a, 'data, E: EndianParse>(
    alloc: Global,
    table: AnyChecked<'data, E>,
    versions: Option<&'a SymbolVersionTable<'data, E>>,
) -> Result<IndexedObject<'a, 'data, E>, AllocError>
    ensures object { IfOk result (λ object. versioned_view (λ index. index) object ≡ record {
      symbols = object_view table.entry;
      versions = option_map (λ table. versions_view table.now) versions.entry;
    }) }
    ensures none { IsNone versions.entry → IsOk result }
{
    let versions = indexed(alloc, versions)?;
    Ok(VersionedObject { table, versions })
}

/// Returns what a reference of a name binds to, in the first object in order that has a symbol for it. The error is
/// that of `bind`: the first object for which this cannot be decided.
pub fn bind_reference<E: EndianParse, V: SymbolVersions<E>>(
    objects: &[VersionedObject<'_, E, V>],
    symbol: &Symbol,
    name: &[u8],
    wanted: &Wanted<'_>,
) -> Result<Bound, BindingFault>
    ensures { IsBound (versioned_view V.versions) objects.now symbol.now name.now wanted.now result }
{
    match bind(objects, name, wanted)? {
        Some((object, index, _)) => Ok(Bound::To {
            object,
            symbol: index,
        }),
        None => {
            if symbol.st_bind() == abi::STB_WEAK {
                Ok(Bound::Weak)
            } else {
                Ok(Bound::Missing)
            }
        }
    }
}
