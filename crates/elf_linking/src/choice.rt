//! Finds the symbol to which a reference binds, in one object and in a list of objects.
ghost use Rattle.std.specs.Prelude.{◌≡◌};
ghost use Rattle.std.specs.Option.{option_map};
ghost use Rattle.elf_parts.specs.Hash.{gnu_hash_of};
ghost use Rattle.elf_hash_check.specs.NamedSymbols.{named_left};
ghost use Rattle.elf_linking.specs.Binding.{IsBinding, IsBindingFor, first_serving, passes_over, serves_in};
ghost use Rattle.elf_linking.specs.VersionedView.{versioned_view};

use crate::versions::serves;
use crate::{
    BindingFault, ReferenceKind, Rule, Unreadable, VersionedObject, Wanted, is_definition_for,
};
use elf::endian::EndianParse;
use elf::gnu_symver::SymbolVersions;
use elf::hash::gnu_hash;
use elf::symbol::Symbol;
use elf_hash_check::hashcheck::NamedSymbols;

// Whether a definition serves; all of a file without versions do.
fn serves_in<E: EndianParse, V: SymbolVersions<E>>(
    versions: Option<&V>,
    rule: &Rule<'_>,
    symbol: usize,
) -> Result<bool, Unreadable>
    ensures { result ≡ serves_in (option_map (λ table. V.versions table.now) versions.entry) rule.now symbol }
{
    match versions {
        Some(versions) => serves(versions, rule, symbol),
        None => Ok(true),
    }
}

// The first of these symbols that is a definition for a kind of reference, and serves.
fn first_serving<E: EndianParse, V: SymbolVersions<E>>(
    kind: ReferenceKind,
    versions: Option<&V>,
    rule: &Rule<'_>,
    named: NamedSymbols<'_, '_, E>,
) -> Result<Option<(usize, Symbol)>, Unreadable>
    ensures { result ≡ first_serving kind (serves_in (option_map (λ table. V.versions table.now) versions.entry) rule.now)
        (named_left named.entry) }
{
    for (index, symbol) in named {
        if is_definition_for(kind, &symbol) && serves_in(versions, rule, index)? {
            return Ok(Some((index, symbol)));
        }
    }
    Ok(None)
}

// Whether a reference of a kind takes nothing from the object at a place.
fn passes_over(kind: ReferenceKind, place: usize) -> bool
    ensures { result ≡ passes_over kind place }
{
    match kind {
        ReferenceKind::JumpSlot => false,
        ReferenceKind::Address => false,
        ReferenceKind::Copied => place == 0,
    }
}

impl<'data, E: EndianParse, V: SymbolVersions<E>> VersionedObject<'data, E, V> {
    ghost use Rattle.elf_linking.specs.Binding.{IsChosen, IsChosenFor, IsFirstServing, IsFoundAt};

    // The first symbol of the name that serves.
    fn first_serving(
        &self,
        kind: ReferenceKind,
        name: &[u8],
        rule: Rule<'_>,
    ) -> Result<Option<(usize, Symbol)>, Unreadable>
        ensures { IsFirstServing kind (versioned_view V.versions self.now) name.now rule.entry result }
    {
        first_serving(
            kind,
            self.versions.as_ref(),
            &rule,
            self.table.find_all(name),
        )
    }

    /// Returns the symbol of the name to which a reference binds in this object, with its index: the first
    /// definition, in the order of `find_all`, that serves the reference. A reference without a version takes a
    /// definition with version index 0, 1 or 2, or else the first one that is not hidden. Returns `None` if no
    /// definition of the name serves.
    ///
    /// The error is `Unreadable` for the first definition on the way whose version cannot be read.
    pub fn find(
        &self,
        name: &[u8],
        wanted: &Wanted<'_>,
    ) -> Result<Option<(usize, Symbol)>, Unreadable>
        ensures { IsChosen (versioned_view V.versions self.now) name.now wanted.now result }
    {
        self.find_for(ReferenceKind::JumpSlot, name, wanted)
    }

    /// Returns what `find` returns, for a reference of a kind: definitions are those of `is_definition_for`.
    pub fn find_for(
        &self,
        kind: ReferenceKind,
        name: &[u8],
        wanted: &Wanted<'_>,
    ) -> Result<Option<(usize, Symbol)>, Unreadable>
        ensures { IsChosenFor kind (versioned_view V.versions self.now) name.now wanted.now result }
    {
        match wanted {
            Wanted::Compatible(version) => {
                self.first_serving(kind, name, Rule::Versioned(*version))
            }
            Wanted::Only(version) => self.first_serving(kind, name, Rule::Exact(*version)),
            Wanted::Any => match self.first_serving(kind, name, Rule::Base)? {
                Some(found) => Ok(Some(found)),
                None => self.first_serving(kind, name, Rule::Shown),
            },
        }
    }

    // What the object, which is at this place, has for a reference of a kind to a name with this hash. The filters of most
    // objects tell by the hash alone that they have no such name.
    fn find_at(
        &self,
        place: usize,
        kind: ReferenceKind,
        name: &[u8],
        hash: u32,
        wanted: &Wanted<'_>,
    ) -> Result<Option<(usize, Symbol)>, Unreadable>
        requires { hash ≡ gnu_hash_of name.now }
        ensures { IsFoundAt kind place (versioned_view V.versions self.now) name.now wanted.now result }
    {
        if passes_over(kind, place) {
            return Ok(None);
        }
        if self.table.excludes(hash) {
            return Ok(None);
        }
        self.find_for(kind, name, wanted)
    }
}

/// Returns the first object in the list with a definition of the name that serves the reference: its place, counted
/// from 0, with the index and the symbol that its `find` returns. Returns `None` exactly if no object has one. Objects
/// come from `versioned_object`, in the order of the search; what an undefined symbol requests is `reference`.
///
/// The error is that of the first object whose `find` returns an error, if no object before it has a definition
/// that serves.
///
/// ```rust
/// if let Some(object) = versioned_object(&file)?
///     && let Some((object, index, _)) = bind(&[object], b"malloc", &Wanted::Any)?
/// {
///     println!(rt; "object {object}, symbol {index}")?;
/// }
/// ```
pub fn bind<E: EndianParse, V: SymbolVersions<E>>(
    objects: &[VersionedObject<'_, E, V>],
    name: &[u8],
    wanted: &Wanted<'_>,
) -> Result<Option<(usize, usize, Symbol)>, BindingFault>
    ensures { IsBinding (versioned_view V.versions) objects.now name.now wanted.now result }
{
    bind_for(objects, ReferenceKind::JumpSlot, name, wanted)
}

/// Returns what `bind` returns, for a reference of a kind: each object is searched by `find_for`. The first object is
/// the program, and `Copied` passes over it.
pub fn bind_for<E: EndianParse, V: SymbolVersions<E>>(
    objects: &[VersionedObject<'_, E, V>],
    kind: ReferenceKind,
    name: &[u8],
    wanted: &Wanted<'_>,
) -> Result<Option<(usize, usize, Symbol)>, BindingFault>
    ensures { IsBindingFor (versioned_view V.versions) objects.now name.now wanted.now kind result }
{
    let hash = gnu_hash(name);
    for (object, candidate) in objects.iter().enumerate() {
        match candidate.find_at(object, kind, name, hash, wanted) {
            Ok(Some((index, symbol))) => return Ok(Some((object, index, symbol))),
            Ok(None) => {}
            Err(fault) => {
                return Err(BindingFault {
                    object,
                    symbol: fault.symbol,
                });
            }
        }
    }
    Ok(None)
}
