//! Names that are resolved over an ordered list of libraries.
ghost use Rattle.std.specs.Prelude.{◌≡◌, IfErr, IfOk};
ghost use Rattle.elf_hash_check.specs.CheckedTable.{object_view};
ghost use Rattle.elf_linking.specs.Resolver.{AreTables, IsDefinition, IsTrueOf};
ghost use Rattle.elf_linking.specs.declared.resolver.TablesError.TheVariants.{Memory as IsMemory};

use crate::resolve::{AnyChecked, ObjectFault, object_table};
use elf::ElfBytes;
use elf::endian::EndianParse;
use elf::symbol::Symbol;
use std::alloc::{AllocFailed, Global};
use thiserror::Error;

/// Why there are no tables. Libraries are counted from 0.
#[derive(Debug, Drop, Error)]
pub enum TablesError {
    /// The library has no hash section.
    #[error("library {library} has no hash section")]
    NoHash { library: usize },
    /// The hash section of the library has no checked table.
    #[error("library {library}: {fault}")]
    Fault { library: usize, fault: ObjectFault },
    /// An allocation failed.
    #[error("out of memory")]
    Memory,
}

impl<T: Drop> From<AllocFailed<T>> for TablesError {
    ghost from_gives = { λ _ error. error ≡ IsMemory };

    fn from(_error: AllocFailed<T>) -> TablesError {
        TablesError::Memory
    }
}

/// Returns the checked tables of the libraries, in their order.
///
/// Errors, for the first library that has no checked table: `NoHash` if it has no hash section; `Fault` with the error
/// of `object_table`. `Memory` if an allocation failed, which is possible only after the first library had a checked
/// table.
pub fn tables<'data, E: EndianParse>(
    alloc: Global,
    files: &[ElfBytes<'data, E>],
) -> Result<Vec<AnyChecked<'data, E>>, TablesError>
    ensures tables { IfOk result (λ tables. AreTables E.little files.now tables.items) }
    ensures refused { IfErr result (IsTrueOf E.little files.now) }
{
    let mut tables = Vec::new(alloc);
    for (library, file) in files.iter().enumerate() {
        match object_table(file) {
            Ok(Some(table)) => tables.push(table)?,
            Ok(None) => return Err(TablesError::NoHash { library }),
            Err(fault) => return Err(TablesError::Fault { library, fault }),
        }
    }
    Ok(tables)
}

/// Returns the first library that defines the name, counted from 0, with the index of its symbol and the symbol. A
/// library in which the symbol is undefined is skipped, like one without the name. The tables are those that `tables`
/// returns.
///
/// ```rust
/// let tables = tables(rt.alloc(), &[file])?;
/// if let Some((library, index, _)) = definition(tables.as_slice(), b"malloc") {
///     println!(rt; "library {library}, symbol {index}")?;
/// }
/// ```
pub fn definition<E: EndianParse>(
    tables: &[AnyChecked<'_, E>],
    name: &[u8],
) -> Option<(usize, usize, Symbol)>
    ensures { IsDefinition object_view tables.now name.now result }
{
    for (library, table) in tables.iter().enumerate() {
        if let Some((index, symbol)) = table.find(name)
            && !symbol.is_undefined()
        {
            return Some((library, index, symbol));
        }
    }
    None
}
