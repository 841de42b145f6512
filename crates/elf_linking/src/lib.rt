//! How the dynamic linker binds symbols: the symbol to which each reference of a program binds.
//!
//! `needed` has the names of the libraries that a file needs, and `bindings` what the symbols of a program and of its
//! libraries bind to. `elf_libraries` finds these libraries.
//!
//! These rest on look-ups of a name in an ordered list of objects. `resolve` finds the first object that has the name.
//! `bind` finds the symbol to which a reference binds if symbols have versions: the first definition that serves the
//! reference (GNU symbol versioning). `bind_for` does so for references that are no calls, too: these may bind to the
//! undefined symbols with values of a program at a fixed address. An object is given by its checked hash table
//! (`elf_hash_check`), and for `bind` also by the versions of its symbols. These look-ups allocate nothing. `resolver`
//! makes the tables of a list of files. `dynamic` has what is looked up and bound of a file, whether it declares section
//! headers or not, and `links` loads that from a source.
//!
//! `laws` has theorems for the proofs of callers.
#![tactic(auto)]

pub mod bindings;
mod choice;
mod definitions;
pub mod dynamic;
mod kinds;
pub mod laws;
pub mod links;
pub mod needed;
mod objects;
pub mod resolve;
pub mod resolver;
mod versions;

pub use choice::{bind, bind_for};
pub use definitions::{is_definition, is_definition_for};
use elf::endian::EndianParse;
use elf::gnu_symver::SymbolVersionTable;
use elf_hash_check::hashcheck::AnyChecked;
pub use kinds::reference_kind;
pub use objects::{reference, versioned_object};
use thiserror::Error;
pub use versions::{SymbolEntry, indexed, symbol_entry, version_index_of, version_of};

/// A version of a symbol: its name, and the SysV hash of the name as a file states it.
#[derive(Debug, Clone, Copy)]
pub struct Version<'a> {
    pub name: &'a str,
    pub hash: u32,
}

/// What a reference requests.
#[derive(Debug, Clone, Copy)]
pub enum Wanted<'a> {
    /// No version.
    Any,
    /// A definition of this version, hidden or not, or one that has no version and is not hidden.
    Compatible(Version<'a>),
    /// A definition of this version only, as `dlvsym` requests it.
    Only(Version<'a>),
}

/// How a file refers to a symbol, by the type of a relocation (`reference_kind`).
#[derive(Debug, Clone, Copy)]
pub enum ReferenceKind {
    /// By a jump slot of the procedure linkage table, for calls. Only definitions serve it. It is also the kind of a
    /// reference whose relocations are not known.
    JumpSlot,
    /// By any other relocation. An undefined symbol with a value serves it too.
    Address,
    /// By a relocation that copies a variable into the program. It is not searched for in the program.
    Copied,
}

// When a definition of an object with versions serves.
#[derive(Clone, Copy)]
pub(crate) enum Rule<'a> {
    // It has this version, or none and is not hidden.
    Versioned(Version<'a>),
    // It has this version.
    Exact(Version<'a>),
    // It has no version, or the first one of its file.
    Base,
    // It is not hidden.
    Shown,
}

/// The version of this symbol, counted from 0, cannot be read.
#[derive(Debug, Clone, Copy, PartialEq, Eq, Error)]
#[error("version of symbol {symbol} cannot be read")]
pub struct Unreadable {
    pub symbol: usize,
}

/// It cannot be known whether this object, counted from 0, has a definition that serves: the version of this symbol
/// of it cannot be read.
#[derive(Debug, Clone, Copy, PartialEq, Eq, Error)]
#[error("object {object}: version of symbol {symbol} cannot be read")]
pub struct BindingFault {
    pub object: usize,
    pub symbol: usize,
}

/// An object in a look-up with versions: its checked hash table, and the versions of its symbols, if it has any. These
/// are a `SymbolVersionTable` or, so that a look-up needs no walk, an `IndexedVersions` or a `PlacedVersions`.
#[derive(Debug, Drop)]
pub struct VersionedObject<'data, E: EndianParse, V = SymbolVersionTable<'data, E>> {
    pub table: AnyChecked<'data, E>,
    pub versions: Option<V>,
}
