//! What the symbols of an object bind to, by each kind of reference to them.
ghost use Rattle.std.specs.Prelude.{◌≡◌, IfOk, filter};
ghost use Rattle.std.specs.List.{enumerate_from, list_all};
ghost use Rattle.std.specs.Option.{option_map};
ghost use Rattle.elf_linking.specs.VersionedView.{versioned_view};
ghost use Rattle.elf_records.specs.Symbol.{symbol_reads};
ghost use Rattle.elf_records.specs.Table.{table_items, table_view};
ghost use Rattle.elf_linking.specs.SymbolBindings.{AreAllBound, AreKindsBound, IsBoundFor, IsBoundIf, IsSymbolBound};
ghost use Rattle.elf_linking.specs.SymbolBindings.{is_bound, is_settled, is_symbol_settled, kinds_of};
ghost use Rattle.elf_linking.specs.SymbolUses.{uses_at};

use crate::bindings::uses::{SymbolUses, uses_at};
use crate::bindings::{Bound, is_reference};
use crate::{
    BindingFault, ReferenceKind, Unreadable, VersionedObject, Wanted, bind_for, reference,
};
use elf::endian::EndianParse;
use elf::gnu_symver::SymbolVersions;
use elf::string_table::TerminatedStrings;
use elf::symbol::{Symbol, SymbolTable};
use elf::{ParseError, abi};
use std::alloc::{AllocError, Global};
use std::fmt;
use thiserror::Error;

/// Why it is not known what a symbol binds to.
#[derive(Debug, Drop, Error)]
pub enum SymbolFault {
    /// Its name cannot be read.
    Name(ParseError),
    /// Its version cannot be read.
    Version(Unreadable),
    /// The version of a symbol of an object cannot be read.
    Object(BindingFault),
}

impl fmt::Display for SymbolFault {
    ghost use Rattle.elf_linking.specs.Texts.{symbol_text};

    ghost output = { symbol_text };

    fn fmt<W: fmt::Write>(&self, f: &mut fmt::Formatter<W>) -> fmt::Result {
        match self {
            SymbolFault::Name(error) => write!(f, "{error}"),
            SymbolFault::Version(version) => {
                write!(f, "version of symbol {} cannot be read", version.symbol)
            }
            SymbolFault::Object(version) => {
                let object = version.object;
                let symbol = version.symbol;
                write!(
                    f,
                    "object {object}: version of symbol {symbol} cannot be read"
                )
            }
        }
    }
}

/// What a symbol binds to, by each kind of reference for which it is looked up.
#[derive(Debug, Drop)]
pub struct SymbolBinding {
    pub jump_slot: Option<Result<Bound, SymbolFault>>,
    pub address: Option<Result<Bound, SymbolFault>>,
    pub copied: Option<Result<Bound, SymbolFault>>,
}

/// Returns what `bind_reference` returns, for a reference of a kind. The first object is the program.
pub fn bind_reference_for<E: EndianParse, V: SymbolVersions<E>>(
    objects: &[VersionedObject<'_, E, V>],
    kind: ReferenceKind,
    symbol: &Symbol,
    name: &[u8],
    wanted: &Wanted<'_>,
) -> Result<Bound, BindingFault>
    ensures { IsBoundFor (versioned_view V.versions) objects.now kind symbol.now name.now wanted.now result }
{
    match bind_for(objects, kind, name, wanted)? {
        Some((object, index, _)) => Ok(Bound::To {
            object,
            symbol: index,
        }),
        None => {
            if symbol.st_bind() == abi::STB_WEAK {
                Ok(Bound::Weak)
            } else {
                Ok(Bound::Missing)
            }
        }
    }
}

// Whether the dynamic linker binds the symbol: another file has to define it, or a relocation copies it.
fn is_bound(symbol: &Symbol, uses: SymbolUses) -> bool
    ensures { result ≡ is_bound symbol.now uses }
{
    is_reference(symbol) || uses.copied
}

/// Returns the symbols of a table that are bound, in order, each with its index: those that another file has to
/// define, and those that a relocation copies. The only error is a failed allocation.
pub fn bound_symbols<E: EndianParse>(
    alloc: Global,
    symbols: &SymbolTable<'_, E>,
    uses: &[SymbolUses],
) -> Result<Vec<(usize, Symbol)>, AllocError>
    ensures { IfOk result (λ found. found.items ≡ filter (λ one. is_bound one.1 (uses_at uses.now one.0))
        (enumerate_from 0 (table_items symbol_reads (table_view symbols.now)))) }
{
    symbols
        .iter()
        .enumerate()
        .filter(|one| is_bound(&one.1, uses_at(uses, one.0)))
        .collect(alloc)
}

/// Returns the kinds of references for which a symbol is looked up. One that no relocation names is looked up as if by
/// a jump slot; one that a section defines, for copies alone.
pub fn kinds_of(symbol: &Symbol, uses: SymbolUses) -> SymbolUses
    ensures { result ≡ kinds_of symbol.now uses }
{
    let is_reference = is_reference(symbol);
    SymbolUses {
        jump_slot: is_reference && (uses.jump_slot || !uses.address),
        address: is_reference && uses.address,
        copied: uses.copied,
    }
}

/// Returns what a symbol of an object, with this index, binds to by a kind of reference. Its name is read from the
/// strings, and the version that it requests from the versions of its object, if it has any.
///
/// Errors, in order: `Name` if its name cannot be read; `Version` with that of `reference`; `Object` with that of
/// `bind_for`.
pub fn bind_symbol<E: EndianParse, V: SymbolVersions<E>>(
    objects: &[VersionedObject<'_, E, V>],
    kind: ReferenceKind,
    one: &(usize, Symbol),
    strings: &TerminatedStrings<'_>,
    versions: Option<&V>,
) -> Result<Bound, SymbolFault>
    ensures { IsSymbolBound (versioned_view V.versions) objects.now strings.now
        (option_map (λ table. V.versions table.now) versions.entry) kind one.now result }
{
    let (index, symbol) = one;
    let name = match strings.get_raw(symbol.st_name as usize) {
        Ok(name) => name,
        Err(error) => return Err(SymbolFault::Name(error)),
    };
    let wanted = match reference(versions, *index) {
        Ok(wanted) => wanted,
        Err(error) => return Err(SymbolFault::Version(error)),
    };
    match bind_reference_for(objects, kind, symbol, name, &wanted) {
        Ok(bound) => Ok(bound),
        Err(fault) => Err(SymbolFault::Object(fault)),
    }
}

// What it binds to by a kind of reference, if there is a reference of this kind.
fn bind_if<E: EndianParse, V: SymbolVersions<E>>(
    is_used: bool,
    objects: &[VersionedObject<'_, E, V>],
    kind: ReferenceKind,
    one: &(usize, Symbol),
    strings: &TerminatedStrings<'_>,
    versions: Option<&V>,
) -> Option<Result<Bound, SymbolFault>>
    ensures { IsBoundIf is_used (IsSymbolBound (versioned_view V.versions) objects.now strings.now
        (option_map (λ table. V.versions table.now) versions.entry) kind one.now) result }
{
    if is_used {
        Some(bind_symbol(objects, kind, one, strings, versions))
    } else {
        None
    }
}

/// Returns what a symbol of an object binds to, by each of these kinds of references. The time is that of a look-up in
/// each object for each kind.
pub fn bind_kinds<E: EndianParse, V: SymbolVersions<E>>(
    objects: &[VersionedObject<'_, E, V>],
    kinds: SymbolUses,
    one: &(usize, Symbol),
    strings: &TerminatedStrings<'_>,
    versions: Option<&V>,
) -> SymbolBinding
    ensures { AreKindsBound (versioned_view V.versions) objects.now strings.now
        (option_map (λ table. V.versions table.now) versions.entry) kinds one.now result }
{
    SymbolBinding {
        jump_slot: bind_if(
            kinds.jump_slot,
            objects,
            ReferenceKind::JumpSlot,
            one,
            strings,
            versions,
        ),
        address: bind_if(
            kinds.address,
            objects,
            ReferenceKind::Address,
            one,
            strings,
            versions,
        ),
        copied: bind_if(
            kinds.copied,
            objects,
            ReferenceKind::Copied,
            one,
            strings,
            versions,
        ),
    }
}

/// Returns what each of these symbols of an object binds to, in order, by each kind of reference for which it is looked
/// up. The objects are those of a program in the order in which they are searched, the program first. The only error
/// is a failed allocation.
pub fn bind_symbols<E: EndianParse, V: SymbolVersions<E>>(
    alloc: Global,
    objects: &[VersionedObject<'_, E, V>],
    symbols: &[(usize, Symbol)],
    uses: &[SymbolUses],
    strings: &TerminatedStrings<'_>,
    versions: Option<&V>,
) -> Result<Vec<SymbolBinding>, AllocError>
    ensures { IfOk result (λ all. AreAllBound (versioned_view V.versions) objects.now strings.now
        (option_map (λ table. V.versions table.now) versions.entry) uses.now symbols.now all.items) }
{
    let mut all = Vec::new(alloc);
    for (place, one) in symbols.iter().enumerate() {
        let kinds = kinds_of(&one.1, uses_at(uses, one.0));
        all.push(bind_kinds(objects, kinds, one, strings, versions))?;
    }
    Ok(all)
}

// Whether it is known, and not missing, what a symbol binds to.
fn is_settled(bound: &Option<Result<Bound, SymbolFault>>) -> bool
    ensures { result ≡ is_settled bound.now }
{
    match bound {
        Some(Ok(Bound::Missing)) => false,
        Some(Ok(_)) => true,
        Some(Err(_)) => false,
        None => true,
    }
}

// The same by each kind of reference.
fn is_symbol_settled(binding: &SymbolBinding) -> bool
    ensures { result ≡ is_symbol_settled binding.now }
{
    is_settled(&binding.jump_slot) && is_settled(&binding.address) && is_settled(&binding.copied)
}

/// Whether it is known of each symbol what it binds to, and none is missing.
pub fn are_settled(bindings: &[SymbolBinding]) -> bool
    ensures { result ≡ list_all is_symbol_settled bindings.now }
{
    bindings.iter().all(|binding| is_symbol_settled(binding))
}
