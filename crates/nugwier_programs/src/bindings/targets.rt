//! The symbols of a file, and what they bind to.
ghost use Rattle.std.specs.Prelude.{◌≡◌, map, slice_get};
ghost use Rattle.std.specs.Option.{option_copied, option_map};
ghost use Rattle.elf_linking.specs.BindingObjects.{version_in};
ghost use Rattle.elf_tools.specs.SymbolVersions.{symbol_version_in};
ghost use Rattle.nugwier_programs.specs.Symbols.{address_place, bound_place, own_version, path_in, same_outcome};
ghost use Rattle.nugwier_programs.specs.Symbols.{same_place};
ghost use Rattle.nugwier_programs.specs.Symbols.{symbol_in, symbol_of, target_of, wanted_version};
ghost use Rattle.nugwier_programs.specs.inner.Scope.{indexed_view, scope_paths, versions_of};
ghost use Rattle.nugwier_programs.specs.BindingRows.{bound_view, target_view, version_view};

use crate::binding_rows::{BoundSymbol, OwnVersion, Place, Target};
use crate::bindings::objects::BoundFile;
use elf::endian::AnyEndian;
use elf::gnu_symver::IndexedVersions;
use elf::symbol::Symbol;
use elf_linking::bindings::kinds::SymbolFault;
use elf_linking::bindings::{Bound, IndexedObject};
use elf_linking::{Wanted, reference};
use elf_tools::symbol_versions::{SymbolVersion, symbol_version};
use std::alloc::Global;

/// The versions of the symbols of a file.
pub(crate) type Versions<'a, 'data> = IndexedVersions<'a, 'data, AnyEndian, Global>;

/// What a look-up returned.
pub(crate) type Outcome = Result<Bound, SymbolFault>;

/// The files of a program whose symbols are bound, and their objects, in the order in which these are searched.
#[derive(Clone, Copy)]
pub(crate) struct Scope<'f, 'o, 'a, 'data> {
    pub files: &'f [BoundFile<'data>],
    pub objects: &'o [IndexedObject<'a, 'data, AnyEndian>],
}

impl<'f, 'o, 'a, 'data> Scope<'f, 'o, 'a, 'data> {
    /// Returns the path of the file of an object.
    pub(crate) fn path(self, object: usize) -> &'data [u8]
        ensures { result.now ≡ path_in (scope_paths self.entry.files.now) object }
    {
        match self.files.get(object) {
            Some(file) => file.path,
            None => &[],
        }
    }

    /// Returns the versions of the symbols of a file, by the place of its object.
    pub(crate) fn versions(self, object: usize) -> Option<&'o Versions<'a, 'data>>
        ensures { option_map (λ index. index.now) result
            ≡ versions_of (option_map indexed_view (slice_get self.entry.objects.now object)) }
    {
        match self.objects.get(object) {
            Some(found) => found.versions.as_ref(),
            None => None,
        }
    }

    // The object at a place, if there is one.
    fn object(self, object: usize) -> Option<&'o IndexedObject<'a, 'data, AnyEndian>>
        ensures { option_map (λ found. indexed_view found.now) result
            ≡ slice_get (map indexed_view self.entry.objects.now) object }
    {
        self.objects.get(object)
    }

    /// Returns what a symbol binds to.
    pub(crate) fn target(self, outcome: &Outcome) -> Target<'o>
    where
        'data: 'o,
        ensures { target_view result
            ≡ target_of (scope_paths self.entry.files.now) (map indexed_view self.entry.objects.now) outcome.now }
    {
        match outcome {
            Ok(Bound::To { object, symbol }) => self.symbol(*object, *symbol),
            Ok(Bound::Weak) => Target::Weak,
            Ok(Bound::Missing) => Target::Missing,
            Err(_) => Target::Unknown,
        }
    }

    // A symbol of an object.
    fn symbol(self, object: usize, index: usize) -> Target<'o>
    where
        'data: 'o,
        ensures { target_view result ≡ symbol_in (scope_paths self.entry.files.now) object index
            (slice_get (map indexed_view self.entry.objects.now) object) }
    {
        match self.object(object) {
            Some(found) => Target::Symbol {
                path: self.path(object),
                index,
                version: own_version(found.versions.as_ref(), index),
            },
            None => Target::Unknown,
        }
    }
}

/// Returns a symbol of a file with the version that it requests.
pub(crate) fn bound_symbol<'n>(
    file: &BoundFile<'n>,
    versions: Option<&'n Versions<'_, '_>>,
    one: &(usize, Symbol),
) -> BoundSymbol<'n>
    ensures { bound_view result ≡ symbol_of file.now.path.now file.now.strings
        (option_map (λ index. index.now) versions.entry) one.now }
{
    let (index, symbol) = one;
    BoundSymbol {
        path: file.path,
        index: *index,
        name: file.strings.get_raw(symbol.st_name as usize).ok(),
        version: wanted_version(versions, *index),
    }
}

fn wanted_version<'v>(versions: Option<&'v Versions<'_, '_>>, symbol: usize) -> Option<&'v [u8]>
    ensures { option_copied result
        ≡ wanted_version (version_in (option_map (λ index. index.now) versions.entry) symbol) }
{
    match reference(versions, symbol) {
        Ok(Wanted::Compatible(version)) => Some(version.name.as_bytes()),
        Ok(_) => None,
        Err(_) => None,
    }
}

// The version of a symbol to which another one binds.
fn own_version<'v>(versions: Option<&'v Versions<'_, '_>>, symbol: usize) -> Option<OwnVersion<'v>>
    ensures { option_map version_view result
        ≡ own_version (symbol_version_in (option_map (λ index. index.now) versions.entry) symbol) }
{
    match symbol_version(versions?, symbol) {
        Ok(Some(SymbolVersion::Defined { name, is_default })) => Some(OwnVersion {
            name: name.as_bytes(),
            is_default,
        }),
        Ok(Some(SymbolVersion::Needed { name, .. })) => Some(OwnVersion {
            name: name.as_bytes(),
            is_default: false,
        }),
        Ok(None) => None,
        Err(_) => None,
    }
}

/// Returns how people are told what the address of a symbol binds to, beside what calls of it bind to.
pub(crate) fn address_place(calls: &Option<Outcome>, address: &Option<Outcome>) -> Place
    ensures { result ≡ address_place calls.now address.now }
{
    match (calls, address) {
        (Some(calls), Some(address)) if is_same(calls, address) => Place::Same,
        (Some(_), Some(_)) => Place::Elsewhere,
        _ => Place::First,
    }
}

// Whether both have the same line.
fn is_same(first: &Outcome, second: &Outcome) -> bool
    ensures { result ≡ same_outcome first.now second.now }
{
    match (first, second) {
        (Ok(first), Ok(second)) => is_same_place(place_of(first), place_of(second)),
        (Err(_), Err(_)) => true,
        _ => false,
    }
}

// The object and the symbol to which it binds, if there is one. A symbol without one is weak or missing by itself.
fn place_of(bound: &Bound) -> Option<(usize, usize)>
    ensures { result ≡ bound_place bound.now }
{
    match bound {
        Bound::To { object, symbol } => Some((*object, *symbol)),
        Bound::Weak | Bound::Missing => None,
    }
}

fn is_same_place(first: Option<(usize, usize)>, second: Option<(usize, usize)>) -> bool
    ensures { result ≡ same_place first second }
{
    match (first, second) {
        (Some(first), Some(second)) => first.0 == second.0 && first.1 == second.1,
        (None, None) => true,
        _ => false,
    }
}
