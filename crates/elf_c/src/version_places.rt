//! The versions of symbols by version index, in places that the caller provides.
ghost use Rattle.std.specs.Prelude.{◌≡◌, ◌==◌, ◌<◌, ℕ, length, if◌then◌else◌, None, Some};
ghost use Rattle.std.specs.Option.{option_map, option_or};
ghost use Rattle.elf_parts.specs.gnu_symver.Links.{links_view};
ghost use Rattle.elf_parts.specs.gnu_symver.Lists.{ver_def_with_aux};
ghost use Rattle.elf_parts.specs.gnu_symver.Table.{defined_version, definition, needed_entry, needed_of, needed_version};
ghost use Rattle.elf_records.specs.Table.{Table};
ghost use Rattle.elf_c.specs.Status.{IsWrittenIf, status_of};
ghost use Rattle.elf_c.specs.Tables.{table_of_c};
ghost use Rattle.elf_c.specs.VersionPlaces.{HoldDefinitions, HoldNeeds, HoldVersions};
ghost use Rattle.elf_c.specs.VersionPlaces.{defined_at, defined_held, defined_of, need_at, need_held};
ghost use Rattle.elf_c.specs.Versions.{definition_view, definitions_list, needs_list, no_definition_in, no_requirement_in};
ghost use Rattle.elf_c.specs.Versions.{requirement_of_c, requirement_view, versions_of_c};

use crate::status::{NugwierStatus, done, refused};
use crate::versions::{
    NugwierDefinition, NugwierEntries, NugwierRequirement, NugwierVersions, definition_in,
    definitions_in, first_defined, needs_in, requirement_in,
};
use elf_parts::endian::AnyEndian;
use elf_parts::gnu_symver::links::Links;
use elf_parts::gnu_symver::{NeedPlace, VerDef, VerNeedAux, first_needed, hold_needs};

/// The first needed version with a version index; `found` is 0 if there is none. Its flags, its hash, and where the
/// names of its file and of the version begin in the strings of the needs, in bytes.
#[repr(C)]
#[derive(Clone, Copy, Default)]
pub struct NugwierPlacedNeed {
    pub found: u16,
    pub flags: u16,
    pub hash: u32,
    pub file: u32,
    pub name: u32,
}

/// The first definition with a version index; `found` is 0 if there is none. Its flags, its hash, and its names: at most
/// `count`, the first at `offset` of the entries of the definitions, in bytes.
#[repr(C)]
#[derive(Clone, Copy, Default)]
pub struct NugwierPlacedDefinition {
    pub found: u16,
    pub flags: u16,
    pub hash: u32,
    pub count: u64,
    pub offset: usize,
}

/// The place of a version index. The place with number `k` is that of the index `k`.
#[repr(C)]
#[derive(Clone, Copy, Default)]
pub struct NugwierVersionPlace {
    pub need: NugwierPlacedNeed,
    pub definition: NugwierPlacedDefinition,
}

// What is placed of a needed version. `file` is the offset of the name of its file.
fn placed_need(file: u32, version: &VerNeedAux) -> NugwierPlacedNeed
    ensures { need_held result ≡ Some (needed_entry file version.now) }
{
    NugwierPlacedNeed {
        found: 1,
        flags: version.vna_flags,
        hash: version.vna_hash,
        file,
        name: version.vna_name,
    }
}

impl NeedPlace for NugwierVersionPlace {
    ghost use Rattle.elf_c.specs.VersionPlaces.{need_held};
    ghost use Rattle.elf_c.specs.declared.version_places.NugwierPlacedDefinition.{NugwierPlacedDefinition};

    ghost held = { λ place. need_held place.need };

    ghost Kept = { NugwierPlacedDefinition };

    ghost kept = { λ place. place.definition };

    fn hold(&mut self, file: u32, version: &VerNeedAux) {
        if self.need.found == 0 {
            self.need = placed_need(file, version);
        }
    }
}

// What is placed of a definition that begins at the offset `start`.
fn placed_definition(
    definitions: &Links<'_, AnyEndian, VerDef>,
    start: usize,
    definition: &VerDef,
) -> NugwierPlacedDefinition
    ensures { defined_held (links_view definitions.now) result
        ≡ Some (defined_of (ver_def_with_aux (links_view definitions.now) (start, definition.now))) }
{
    let names = definition.aux_links(definitions, start);
    NugwierPlacedDefinition {
        found: 1,
        flags: definition.vd_flags,
        hash: definition.vd_hash,
        count: names.limit(),
        offset: names.offset(),
    }
}

// Puts a definition into the place of its index, if there is one and it holds none.
fn put_definition(
    places: &mut [NugwierVersionPlace],
    index: u16,
    definition: NugwierPlacedDefinition,
)
    ensures definitions { (t : Table) (k : ℕ) → k < length places.new → defined_at t places.new k
        ≡ option_or (defined_at t places.old k) (if index == k then defined_held t definition else None) }
    ensures needs { (k : ℕ) → need_at places.new k ≡ need_at places.old k }
    ensures places { length places.new ≡ length places.old }
{
    let index = index as usize;
    if index < places.len() && places[index].definition.found == 0 {
        places[index].definition = definition;
    }
}

// Puts the definitions in, in order.
fn place_definitions(places: &mut [NugwierVersionPlace], definitions: &NugwierEntries<'_>)
    ensures definitions { (k : ℕ) → k < length places.new →
        defined_at (table_of_c definitions.now.entries) places.new k
        ≡ option_or (defined_at (table_of_c definitions.now.entries) places.old k)
        (option_map defined_of (defined_version k (definitions_list definitions.now))) }
    ensures needs { (k : ℕ) → need_at places.new k ≡ need_at places.old k }
    ensures places { length places.new ≡ length places.old }
{
    let links = definitions_in(definitions);
    for (start, definition) in links {
        let placed = placed_definition(&links, start, &definition);
        put_definition(places, definition.vd_ndx, placed);
    }
}

/// Fills the places: each one holds the first needed version and the first definition with its version index. What they
/// held before is ignored. Walks over the needs once and over the definitions once: an entry that several needs share
/// counts once, and each need takes some two thousand steps at most. Only in a section of some ten mebibytes may a need
/// cost more. For a section of more than 16 KiB the call takes 24 KiB of the stack.
#[unsafe(no_mangle)]
pub extern "C" fn nugwier_place_versions(
    versions: &NugwierVersions<'_>,
    places: &mut [NugwierVersionPlace],
)
    ensures { HoldVersions versions.now places.new }
{
    places.fill(NugwierVersionPlace::default());
    hold_needs(places, needs_in(&versions.needs));
    place_definitions(places, &versions.definitions);
}

// The first needed version with an index. If the index has no place it is found by a walk.
pub(crate) fn need_with(
    places: &[NugwierVersionPlace],
    needs: &NugwierEntries<'_>,
    index: u16,
) -> NugwierPlacedNeed
    ensures { HoldNeeds needs.now places.now →
        need_held result ≡ option_map needed_of (needed_version index (needs_list needs.now)) }
{
    if let Some(place) = places.get(index as usize) {
        return place.need;
    }
    match first_needed(needs_in(needs), index) {
        Some((need, version)) => placed_need(need.vn_file, &version),
        None => NugwierPlacedNeed::default(),
    }
}

// The first definition with an index. If the index has no place it is found by a walk.
pub(crate) fn definition_with(
    places: &[NugwierVersionPlace],
    definitions: &NugwierEntries<'_>,
    index: u16,
) -> NugwierPlacedDefinition
    ensures { HoldDefinitions definitions.now places.now → defined_held (table_of_c definitions.now.entries) result
        ≡ option_map defined_of (defined_version index (definitions_list definitions.now)) }
{
    if let Some(place) = places.get(index as usize) {
        return place.definition;
    }
    match first_defined(definitions, index) {
        Some((start, definition)) => {
            placed_definition(&definitions_in(definitions), start, &definition)
        }
        None => NugwierPlacedDefinition::default(),
    }
}

/// Finds what `nugwier_requirement` finds, if `nugwier_place_versions` filled the places for these versions. A version
/// index that has a place takes no walk. Of other places it is not said what is found.
#[unsafe(no_mangle)]
pub extern "C" fn nugwier_placed_requirement<'data>(
    versions: &NugwierVersions<'data>,
    places: &[NugwierVersionPlace],
    symbol: usize,
    requirement: &mut NugwierRequirement<'data>,
) -> NugwierStatus
    ensures status { HoldVersions versions.now places.now →
        result ≡ status_of (requirement_of_c versions.now symbol) }
    ensures requirement { HoldVersions versions.now places.now →
        IsWrittenIf requirement_view no_requirement_in requirement.new requirement.old
        (requirement_of_c versions.now symbol) }
{
    match requirement_in(versions, places, symbol) {
        Ok(Some(found)) => {
            *requirement = found;
            requirement.found = true;
            done()
        }
        Ok(None) => {
            requirement.found = false;
            done()
        }
        Err(error) => refused(&error),
    }
}

/// Finds what `nugwier_definition` finds, if `nugwier_place_versions` filled the places for these versions. A version
/// index that has a place takes no walk. Of other places it is not said what is found.
#[unsafe(no_mangle)]
pub extern "C" fn nugwier_placed_definition<'data>(
    versions: &NugwierVersions<'data>,
    places: &[NugwierVersionPlace],
    symbol: usize,
    defined: &mut NugwierDefinition<'data>,
) -> NugwierStatus
    ensures status { HoldVersions versions.now places.now →
        result ≡ status_of (definition (versions_of_c versions.now) symbol) }
    ensures defined { HoldVersions versions.now places.now →
        IsWrittenIf definition_view no_definition_in defined.new defined.old
        (definition (versions_of_c versions.now) symbol) }
{
    match definition_in(versions, places, symbol) {
        Ok(Some(one)) => {
            *defined = one;
            defined.found = true;
            done()
        }
        Ok(None) => {
            defined.found = false;
            done()
        }
        Err(error) => refused(&error),
    }
}
