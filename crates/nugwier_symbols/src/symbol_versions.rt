//! The versions of symbols.
ghost use Rattle.std.specs.Prelude.{◌≡◌};
ghost use Rattle.std.specs.Option.{option_map};
ghost use Rattle.elf_parts.specs.gnu_symver.Table.{definition_view, requirement};
ghost use Rattle.elf_records.specs.Number.{ok_map};
ghost use Rattle.nugwier_symbols.specs.SymbolVersions.{definition_version, required_version, shown_version, version_view};

use elf_abi::abi;
use elf_parts::endian::EndianParse;
use elf_parts::gnu_symver::{SymbolDefinition, SymbolVersions};
use elf_parts::parse::ParseError;
use elf_parts::symbol::Symbol;

/// The version of a symbol. It is the default version of the symbol's name, unless it is hidden or belongs to another
/// file.
#[derive(Clone, Copy)]
pub struct ShownVersion<'a> {
    pub name: &'a str,
    pub is_default: bool,
}

/// Returns the version of a symbol, counted from 0: of a symbol that the file defines the version of its definition, if
/// it has one, and else the version that the symbol needs of another file. `None` if it has no version.
///
/// Errors, in order: that of `get_definition`; that of the first name of the definition; that of `get_requirement`.
pub fn shown_version<'a, E: EndianParse, V: SymbolVersions<E>>(
    versions: &'a V,
    number: usize,
    symbol: &Symbol,
) -> Result<Option<ShownVersion<'a>>, ParseError>
    ensures { ok_map (option_map version_view) result ≡ shown_version (V.versions versions.now) number symbol.now }
{
    if symbol.is_undefined() {
        return needed_version::<E, V>(versions, number);
    }
    match versions.get_definition(number) {
        Ok(Some(definition)) => defined_version(definition),
        Ok(None) => needed_version::<E, V>(versions, number),
        Err(error) => Err(error),
    }
}

fn needed_version<'a, E: EndianParse, V: SymbolVersions<E>>(
    versions: &'a V,
    number: usize,
) -> Result<Option<ShownVersion<'a>>, ParseError>
    ensures { ok_map (option_map version_view) result
        ≡ required_version (requirement (V.versions versions.now) number) }
{
    match versions.get_requirement(number) {
        Ok(Some(needed)) => Ok(Some(ShownVersion {
            name: needed.name,
            is_default: false,
        })),
        Ok(None) => Ok(None),
        Err(error) => Err(error),
    }
}

// The version of a definition: the first of its names. A definition of the file itself (`VER_FLG_BASE`) is no version.
fn defined_version<'a, E: EndianParse>(
    definition: SymbolDefinition<'a, E>,
) -> Result<Option<ShownVersion<'a>>, ParseError>
    ensures { ok_map (option_map version_view) result ≡ definition_version (definition_view definition.entry) }
{
    if definition.flags & abi::VER_FLG_BASE != 0 {
        return Ok(None);
    }
    let mut names = definition.names;
    match names.next() {
        Some(Ok(name)) => Ok(Some(ShownVersion {
            name,
            is_default: !definition.hidden,
        })),
        Some(Err(error)) => Err(error),
        None => Ok(None),
    }
}
