//! The functions that a file defines for others, with their versions.
ghost use Rattle.std.specs.Prelude.{◌≡◌, IfOk, filter};
ghost use Rattle.std.specs.List.{enumerate_from};
ghost use Rattle.elf_records.specs.Symbol.{symbol_reads};
ghost use Rattle.elf_parts.specs.gnu_symver.Table.{definition, definition_view};
ghost use Rattle.elf_records.specs.Table.{table_items, table_view};
ghost use Rattle.elf_tools.specs.Functions.{GivesVersion, GivesVersionOf, is_defined_function};

use crate::addresses::is_code;
use elf::endian::EndianParse;
use elf::gnu_symver::{SymbolDefinition, SymbolVersions};
use elf::symbol::{Symbol, SymbolTable};
use elf::{ParseError, abi};
use std::alloc::{AllocError, Global};

/// The version with which a symbol is defined. A reference without a version binds to a symbol whose version is not
/// hidden.
#[derive(Debug, Clone, Copy)]
pub struct FunctionVersion<'a> {
    pub name: &'a str,
    pub hidden: bool,
}

/// Returns whether the symbol is a function that this file defines and other files can call.
pub fn is_defined_function(symbol: &Symbol) -> bool
    ensures { result ≡ is_defined_function symbol.now }
{
    !symbol.is_undefined() && symbol.st_bind() != abi::STB_LOCAL && is_code(symbol)
}

/// Returns the symbols of a table that are functions by `is_defined_function`, in order, each with its index. Those
/// that other files can call are among the dynamic symbols. The only error is a failed allocation.
///
/// ```rust
/// if let Some((symbols, names)) = file.dynamic_symbol_table()? {
///     for (_, function) in &functions(rt.alloc(), &symbols)? {
///         println!(rt; "{}", names.get(function.st_name as usize)?)?;
///     }
/// }
/// ```
pub fn functions<E: EndianParse>(
    alloc: Global,
    symbols: &SymbolTable<'_, E>,
) -> Result<Vec<(usize, Symbol)>, AllocError>
    ensures { IfOk result (λ found. found.items ≡ filter (λ one. is_defined_function one.1)
        (enumerate_from 0 (table_items symbol_reads (table_view symbols.now)))) }
{
    symbols
        .iter()
        .enumerate()
        .filter(|one| is_defined_function(&one.1))
        .collect(alloc)
}

// The version that a definition has: the first of its names. A definition of the file itself (`VER_FLG_BASE`) is no
// version.
fn version_in<'a, E: EndianParse>(
    definition: SymbolDefinition<'a, E>,
) -> Result<Option<FunctionVersion<'a>>, ParseError>
    ensures { GivesVersionOf (definition_view definition.entry) result }
{
    if definition.flags & abi::VER_FLG_BASE != 0 {
        return Ok(None);
    }
    let mut names = definition.names;
    match names.next() {
        Some(Ok(name)) => Ok(Some(FunctionVersion {
            name,
            hidden: definition.hidden,
        })),
        Some(Err(error)) => Err(error),
        None => Ok(None),
    }
}

/// Returns the version with which a symbol, counted from 0, is defined. Returns `None` if the file gives it no
/// definition, or one without a name, or only that of the file itself (`VER_FLG_BASE`).
///
/// Errors, in order: that of `get_definition`; that of the first name of the definition.
pub fn function_version<'a, E: EndianParse, V: SymbolVersions<E>>(
    versions: &'a V,
    symbol: usize,
) -> Result<Option<FunctionVersion<'a>>, ParseError>
    ensures { GivesVersion (definition (V.versions versions.now) symbol) result }
{
    match versions.get_definition(symbol) {
        Ok(Some(definition)) => version_in(definition),
        Ok(None) => Ok(None),
        Err(error) => Err(error),
    }
}
