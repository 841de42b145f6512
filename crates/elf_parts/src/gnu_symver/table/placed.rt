//! The versions of the symbols of a file by version index, in slices that the caller provides.
ghost use Rattle.std.specs.Prelude.{◌≡◌, ◌==◌, ◌<◌, ℕ, length, if◌then◌else◌, MatchOption, None, Some};
ghost use Rattle.std.specs.Option.{option_map, option_or};
ghost use Rattle.elf_parts.specs.inner.Placed.{HoldDefined, HoldDefinitions, HoldNeeded, HoldNeeds, slot};
ghost use Rattle.elf_records.specs.Number.{ok_map};
ghost use Rattle.elf_parts.specs.gnu_symver.Lists.{ver_defs_left, ver_needs_left};
ghost use Rattle.elf_parts.specs.gnu_symver.Table.{defined_version, definition, definition_view, definitions_view};
ghost use Rattle.elf_parts.specs.gnu_symver.Table.{needed_of, needed_version, needs_view};
ghost use Rattle.elf_parts.specs.gnu_symver.Table.{requirement, versions_view};
ghost use Rattle.elf_parts.specs.gnu_symver.Table.{GivesRequirement, HasFewNames};

use super::walked::hold_needs;
use super::{
    Needed, SymbolDefinition, SymbolRequirement, SymbolVersionTable, SymbolVersions,
    VerDefIterator, VerNeedIterator, VersionIndex, first_needed, needed_entry, next_defined,
    read_definition, read_requirement, skip_to_defined,
};
use crate::endian::EndianParse;
use crate::parse::ParseError;
use crate::string_table::StringTable;
use std::marker::Model;

/// The versions of the symbols of a file. Two slices that the caller provides hold the first need and the first
/// definition of each version index for which they have a place. Such a version is found without a walk, any other one
/// as `SymbolVersionTable` finds it. With `SymbolVersionTable::place_count` places in each slice no look-up walks; they
/// are at most 32,768. Filling the slices costs the number of definitions, and what `hold_needs` costs. Allocates no
/// memory.
#[derive(Debug, Drop)]
pub struct PlacedVersions<'a, 'data, E: EndianParse> {
    versions: &'a SymbolVersionTable<'data, E>,
    needed: &'a [Option<Needed>],
    defined: &'a [Option<VerDefIterator<'data, E>>],
}

impl<'a, 'data, E: EndianParse> Model for PlacedVersions<'a, 'data, E> {
    ghost use Rattle.elf_parts.specs.inner.Placed.{HoldDefinitions, HoldNeeds};
    ghost use Rattle.elf_parts.specs.gnu_symver.Table.{Versions, versions_view};

    ghost Value = { Versions };

    ghost view = { λ s. versions_view s.versions.now };

    ghost invariant = { λ s. HoldNeeds s.needed.now (versions_view s.versions.now).needs
        × HoldDefinitions s.defined.now (versions_view s.versions.now).definitions };
}

// Puts a value into the place of an index, if there is one and it is empty.
pub(super) fn put<T: Copy>(slots: &mut [Option<T>], index: u16, value: T)
    ensures values { (k : ℕ) → k < length slots.new → slot slots.new k
        ≡ option_or (slot slots.old k) (if index == k then Some value else None) }
    ensures places { length slots.new ≡ length slots.old }
{
    let index = index as usize;
    if index < slots.len() && slots[index].is_none() {
        slots[index] = Some(value);
    }
}

// Finds the first needed version of each index that has a place.
#[tactic(auto, using(crate::proofs::Placed::held_in_slot))]
fn place_needed<E: EndianParse>(slots: &mut [Option<Needed>], needs: VerNeedIterator<'_, E>)
    ensures { HoldNeeded slots.new (ver_needs_left needs.entry) }
{
    slots.fill(None);
    hold_needs(slots, needs);
}

// Finds the first definition of each index that has a place, and stores an iterator that yields it next.
fn place_defined<'data, E: EndianParse>(
    slots: &mut [Option<VerDefIterator<'data, E>>],
    definitions: VerDefIterator<'data, E>,
)
    ensures { HoldDefined slots.new (ver_defs_left definitions.entry) }
{
    slots.fill(None);
    let mut start = definitions;
    let mut left = definitions;
    while let Some((definition, _)) = left.next() {
        put(slots, definition.vd_ndx, start);
        start = left;
    }
}

/// Finds the first needed version of each index that has a place, if there are needs.
pub(super) fn place_needs<'data, E: EndianParse>(
    slots: &mut [Option<Needed>],
    needs: &Option<(VerNeedIterator<'data, E>, StringTable<'data>)>,
)
    ensures { HoldNeeds slots.new (option_map needs_view needs.now) }
{
    if let Some((needs, _)) = needs {
        place_needed(slots, *needs);
    }
}

/// Finds the first definition of each index that has a place, if there are definitions.
pub(super) fn place_definitions<'data, E: EndianParse>(
    slots: &mut [Option<VerDefIterator<'data, E>>],
    definitions: &Option<(VerDefIterator<'data, E>, StringTable<'data>)>,
)
    ensures { HoldDefinitions slots.new (option_map definitions_view definitions.now) }
{
    if let Some((definitions, _)) = definitions {
        place_defined(slots, *definitions);
    }
}

// What a look-up by places calls is inlined, so that the records are not moved from call to call.

// The first needed version with an index. If the index has no place it is found by a walk.
#[inline(always)]
fn find_needed<E: EndianParse>(
    slots: &[Option<Needed>],
    needs: VerNeedIterator<'_, E>,
    index: u16,
) -> Option<Needed>
    requires { HoldNeeded slots.now (ver_needs_left needs) }
    ensures { result ≡ option_map needed_of (needed_version index (ver_needs_left needs.entry)) }
{
    if let Some(found) = slots.get(index as usize) {
        return *found;
    }
    // An empty place says that no need has the index, and takes no walk.
    prove!(slots.len() <= index as usize);
    let (need, version) = first_needed(needs, index)?;
    Some(needed_entry(need.vn_file, &version))
}

// An iterator that yields the first definition with an index before any other with that index, if there is one.
#[inline(always)]
fn find_defined<'data, E: EndianParse>(
    slots: &[Option<VerDefIterator<'data, E>>],
    definitions: VerDefIterator<'data, E>,
    index: u16,
) -> Option<VerDefIterator<'data, E>>
    requires { HoldDefined slots.now (ver_defs_left definitions) }
    ensures { MatchOption result (defined_version index (ver_defs_left definitions.entry) ≡ None)
        (λ first. defined_version index (ver_defs_left first)
        ≡ defined_version index (ver_defs_left definitions.entry)) }
{
    match slots.get(index as usize) {
        Some(found) => *found,
        None => Some(skip_to_defined(definitions, index)),
    }
}

/// What a symbol needs, without a walk if its version index has a place.
#[inline(always)]
pub(super) fn requirement_by_places<'a, E: EndianParse>(
    versions: &'a SymbolVersionTable<'_, E>,
    needed: &[Option<Needed>],
    symbol: usize,
) -> Result<Option<SymbolRequirement<'a>>, ParseError>
    requires { HoldNeeds needed.now (versions_view versions.now).needs }
    ensures { GivesRequirement (requirement (versions_view versions.now) symbol) result }
{
    let Some((needs, strings)) = versions.needs else {
        return Ok(None);
    };
    let index = versions.indexes.get(symbol)?;
    let Some(needed) = find_needed(needed, needs, index.index()) else {
        return Ok(None);
    };
    Ok(Some(read_requirement(strings, needed, index.is_hidden())?))
}

/// What a symbol is defined with, without a walk if its version index has a place.
#[inline(always)]
pub(super) fn definition_by_places<'a, 'data, E: EndianParse>(
    versions: &'a SymbolVersionTable<'data, E>,
    defined: &[Option<VerDefIterator<'data, E>>],
    symbol: usize,
) -> Result<Option<SymbolDefinition<'a, E>>, ParseError>
    requires { HoldDefinitions defined.now (versions_view versions.now).definitions }
    ensures value { ok_map (option_map definition_view) result ≡ definition (versions_view versions.now) symbol }
    ensures few { HasFewNames result }
{
    let Some((definitions, strings)) = &versions.definitions else {
        return Ok(None);
    };
    let index = versions.indexes.get(symbol)?;
    let Some(first) = find_defined(defined, *definitions, index.index()) else {
        return Ok(None);
    };
    let Some((definition, names)) = next_defined(first, index.index()) else {
        return Ok(None);
    };
    Ok(Some(read_definition(strings, definition, names, index.is_hidden())))
}

impl<'a, 'data, E: EndianParse> PlacedVersions<'a, 'data, E> {
    /// Fills the places: walks over the needs once and then over the definitions once. The earlier content of the
    /// places is ignored and may be overwritten.
    pub fn new(
        versions: &'a SymbolVersionTable<'data, E>,
        needed: &'a mut [Option<Needed>],
        defined: &'a mut [Option<VerDefIterator<'data, E>>],
    ) -> Self
        ensures { result ≡ versions_view versions.now }
    {
        place_needs(needed, &versions.needs);
        place_definitions(defined, &versions.definitions);
        PlacedVersions {
            versions,
            needed,
            defined,
        }
    }
}

impl<'a, 'data, E: EndianParse> SymbolVersions<E> for PlacedVersions<'a, 'data, E> {
    ghost versions = { λ s. s };

    fn get_index(&self, symbol: usize) -> Result<VersionIndex, ParseError> {
        self.versions.get_index(symbol)
    }

    fn get_requirement(&self, symbol: usize) -> Result<Option<SymbolRequirement<'_>>, ParseError> {
        requirement_by_places(self.versions, self.needed, symbol)
    }

    fn get_definition(&self, symbol: usize) -> Result<Option<SymbolDefinition<'_, E>>, ParseError> {
        definition_by_places(self.versions, self.defined, symbol)
    }
}
