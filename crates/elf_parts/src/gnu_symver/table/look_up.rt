//! The look-up of the versions of symbols, with or without a walk.
ghost use Rattle.std.specs.Prelude.{◌≡◌};
ghost use Rattle.std.specs.Option.{option_map};
ghost use Rattle.elf_records.specs.Number.{ok_map};
ghost use Rattle.elf_parts.specs.gnu_symver.Table.{Versions, definition, definition_view, index_of, requirement};
ghost use Rattle.elf_parts.specs.gnu_symver.Table.{GivesRequirement, HasFewNames, versions_view};

use super::{SymbolDefinition, SymbolRequirement, SymbolVersionTable, VersionIndex};
use crate::endian::EndianParse;
use crate::parse::ParseError;

/// The versions of the symbols of a file. Every implementation returns the same values and the same errors for the
/// same versions; what a look-up costs may differ.
pub trait SymbolVersions<E: EndianParse> {
    // The versions that are looked up.
    ghost versions: { Self → Versions };

    /// Returns the version index of a symbol, counted from 0. The error is that of `SymbolVersionTable::get_index`.
    fn get_index(&self, symbol: usize) -> Result<VersionIndex, ParseError>
        ensures { result ≡ index_of (versions self.now) symbol };

    /// Returns the version that a symbol, counted from 0, needs of another file. The cases and the errors are those of
    /// `SymbolVersionTable::get_requirement`.
    fn get_requirement(&self, symbol: usize) -> Result<Option<SymbolRequirement<'_>>, ParseError>
        ensures { GivesRequirement (requirement (versions self.now) symbol) result };

    /// Returns the version with which a symbol, counted from 0, is defined. The cases and the error are those of
    /// `SymbolVersionTable::get_definition`.
    fn get_definition(&self, symbol: usize) -> Result<Option<SymbolDefinition<'_, E>>, ParseError>
        ensures value { ok_map (option_map definition_view) result ≡ definition (versions self.now) symbol }
        ensures few { HasFewNames result };
}

impl<'data, E: EndianParse> SymbolVersions<E> for SymbolVersionTable<'data, E> {
    ghost versions = { versions_view };

    fn get_index(&self, symbol: usize) -> Result<VersionIndex, ParseError> {
        SymbolVersionTable::get_index(self, symbol)
    }

    fn get_requirement(&self, symbol: usize) -> Result<Option<SymbolRequirement<'_>>, ParseError> {
        SymbolVersionTable::get_requirement(self, symbol)
    }

    fn get_definition(&self, symbol: usize) -> Result<Option<SymbolDefinition<'_, E>>, ParseError> {
        SymbolVersionTable::get_definition(self, symbol)
    }
}
