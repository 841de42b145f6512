//! The versions of the symbols of a file, looked up by version index without a walk.
ghost use Rattle.std.specs.Prelude.{◌≡◌, ◌≤◌, ◌^◌, if◌then◌else◌, [], false, is_some, length, vec_capacity};
ghost use Rattle.std.specs.Prelude.{IfOk, IsNone, IsOk};
ghost use Rattle.elf_parts.specs.gnu_symver.Table.{versions_view};
ghost use Rattle.elf_parts.specs.gnu_symver.Records.{version_index_reads};
ghost use Rattle.elf_records.specs.Table.{table_items};

use super::placed::{definition_by_places, place_definitions, place_needs, requirement_by_places};
use super::{
    Needed, SymbolDefinition, SymbolRequirement, SymbolVersionTable, SymbolVersions,
    VerDefIterator, VersionIndex,
};
use crate::endian::EndianParse;
use crate::parse::ParseError;
use std::alloc::{AllocError, Allocator};
use std::marker::Model;

/// The versions of the symbols of a file, with the first need and the first definition of each version index in two
/// tables. A look-up needs no walk. Each table has at most 65,536 places, and holds memory for no more places than it
/// has. They are filled as those of `PlacedVersions`.
#[derive(Debug, Drop)]
pub struct IndexedVersions<'a, 'data, E: EndianParse, A: Allocator> {
    versions: &'a SymbolVersionTable<'data, E>,
    needed: Vec<Option<Needed>, A>,
    defined: Vec<Option<VerDefIterator<'data, E>>, A>,
}

impl<'a, 'data, E: EndianParse, A: Allocator> Model for IndexedVersions<'a, 'data, E, A> {
    ghost use Rattle.std.specs.Prelude.{◌≡◌, ◌≤◌, ◌^◌, length, vec_capacity};
    ghost use Rattle.elf_parts.specs.inner.Placed.{HoldDefinitions, HoldNeeds, places_for};
    ghost use Rattle.elf_parts.specs.gnu_symver.Table.{Versions, versions_view};

    ghost Value = { Versions };

    ghost view = { λ s. versions_view s.versions.now };

    ghost invariant = { λ s. HoldNeeds s.needed.items (versions_view s.versions.now).needs
        × HoldDefinitions s.defined.items (versions_view s.versions.now).definitions
        × (length s.needed.items ≡ places_for s.versions.now.needs (versions_view s.versions.now).indexes)
        × (length s.defined.items ≡ places_for s.versions.now.definitions (versions_view s.versions.now).indexes)
        × (length s.needed.items ≤ 2 ^ 16) × (length s.defined.items ≤ 2 ^ 16)
        × (vec_capacity s.needed ≡ length s.needed.items) × (vec_capacity s.defined ≡ length s.defined.items) };
}

// This number of empty places, or none if there is nothing to look up, and memory for no more places.
fn empty_places<S, T: Copy, A: Allocator>(
    alloc: A,
    source: &Option<S>,
    count: usize,
) -> Result<Vec<Option<T>, A>, AllocError>
    requires { count ≤ 2 ^ 16 }
    ensures places { IfOk result (λ places. length places.items ≡ (if is_some source.now then count else 0)) }
    ensures room { IfOk result (λ places. vec_capacity places ≡ length places.items) }
    ensures no_source { is_some source.now ≡ false → IsOk result }
    ensures no_place { count ≡ 0 → IsOk result }
{
    let size = if source.is_some() { count } else { 0 };
    let mut places = Vec::with_capacity(alloc, size)?;
    while places.len() < size {
        places.push_reserved(None);
    }
    Ok(places)
}

impl<'a, 'data, E: EndianParse, A: Allocator + Copy> IndexedVersions<'a, 'data, E, A> {
    /// Builds both tables: goes over the version indexes, over the needs and over the definitions once. Each table has
    /// a place for each version index up to the greatest that a symbol has. If an allocation fails, the error is
    /// `AllocError`. Nothing is allocated if there are no version indexes, or neither needs nor definitions.
    ///
    /// ```rust
    /// if let Some(table) = file.symbol_version_table()? {
    ///     let versions = IndexedVersions::new(rt.alloc(), &table)?;
    ///     println!(rt; "{}", versions.get_requirement(1)?.is_some())?;
    /// }
    /// ```
    pub fn new(alloc: A, versions: &'a SymbolVersionTable<'data, E>) -> Result<Self, AllocError>
        ensures versions { IfOk result (λ indexed. indexed ≡ versions_view versions.now) }
        ensures no_entries { IsNone (versions_view versions.now).needs →
            IsNone (versions_view versions.now).definitions → IsOk result }
        ensures no_indexes { table_items version_index_reads (versions_view versions.now).indexes ≡ [] → IsOk result }
    {
        let count = versions.place_count();
        let mut needed = empty_places(alloc, &versions.needs, count)?;
        let mut defined = empty_places(alloc, &versions.definitions, count)?;
        place_needs(&mut needed, &versions.needs);
        place_definitions(&mut defined, &versions.definitions);
        Ok(IndexedVersions {
            versions,
            needed,
            defined,
        })
    }
}

impl<'a, 'data, E: EndianParse, A: Allocator> SymbolVersions<E>
    for IndexedVersions<'a, 'data, E, A> {
    ghost versions = { λ s. s };

    fn get_index(&self, symbol: usize) -> Result<VersionIndex, ParseError> {
        self.versions.get_index(symbol)
    }

    fn get_requirement(&self, symbol: usize) -> Result<Option<SymbolRequirement<'_>>, ParseError> {
        requirement_by_places(self.versions, &self.needed, symbol)
    }

    fn get_definition(&self, symbol: usize) -> Result<Option<SymbolDefinition<'_, E>>, ParseError> {
        definition_by_places(self.versions, &self.defined, symbol)
    }
}
