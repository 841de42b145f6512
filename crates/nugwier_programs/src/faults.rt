//! What is wrong with the objects of a program. Contracts see the values, not the references.
ghost use Rattle.std.specs.Prelude.{◌≡◌};

use elf_linking::bindings::kinds::SymbolFault;
use elf_linking::bindings::uses::UsesError;
use elf_linking::needed::NamesError;
use elf_linking::resolve::ObjectFault;
use nugwier_report::quoted::Quoted;
use std::fmt;
use std::marker::Model;

/// Why the names of an object are not available.
#[derive(Debug, Drop)]
pub struct NamesFault<'a> {
    error: &'a NamesError,
}

impl<'a> Model for NamesFault<'a> {
    ghost use Rattle.elf_linking.specs.declared.needed.NamesError.{NamesError};

    ghost Value = { NamesError };

    ghost view = { λ fault. fault.error.now };
}

impl<'a> NamesFault<'a> {
    pub fn new(error: &'a NamesError) -> NamesFault<'a>
        ensures { result ≡ error.now }
    {
        NamesFault { error }
    }
}

impl fmt::Display for NamesFault<'_> {
    ghost use Rattle.elf_linking.specs.Texts.{names_text};

    ghost output = { names_text };

    fn fmt<W: fmt::Write>(&self, f: &mut fmt::Formatter<W>) -> fmt::Result {
        let error = self.error;
        write!(f, "{error}")
    }
}

/// Why it is not known what a symbol binds to.
#[derive(Debug, Drop)]
pub struct UnknownBinding<'a> {
    fault: &'a SymbolFault,
}

impl<'a> Model for UnknownBinding<'a> {
    ghost use Rattle.elf_linking.specs.declared.bindings.kinds.SymbolFault.{SymbolFault};

    ghost Value = { SymbolFault };

    ghost view = { λ unknown. unknown.fault.now };
}

impl<'a> UnknownBinding<'a> {
    pub fn new(fault: &'a SymbolFault) -> UnknownBinding<'a>
        ensures { result ≡ fault.now }
    {
        UnknownBinding { fault }
    }
}

impl fmt::Display for UnknownBinding<'_> {
    ghost use Rattle.elf_linking.specs.Texts.{symbol_text};

    ghost output = { symbol_text };

    fn fmt<W: fmt::Write>(&self, f: &mut fmt::Formatter<W>) -> fmt::Result {
        let fault = self.fault;
        write!(f, "{fault}")
    }
}

/// A symbol by its name, if this can be read, and the version that it requests, if it requests one.
#[derive(Debug, Drop)]
pub struct QuotedSymbol<'a> {
    pub name: Option<Quoted<'a>>,
    pub version: Option<Quoted<'a>>,
}

impl fmt::Display for QuotedSymbol<'_> {
    ghost use Rattle.nugwier_programs.specs.Faults.{symbol_text};

    ghost output = { symbol_text };

    fn fmt<W: fmt::Write>(&self, f: &mut fmt::Formatter<W>) -> fmt::Result {
        match (&self.name, &self.version) {
            (Some(name), Some(version)) => write!(f, "{name}@{version}"),
            (Some(name), None) => write!(f, "{name}"),
            (None, Some(version)) => write!(f, "<unreadable>@{version}"),
            (None, None) => f.write_str("<unreadable>"),
        }
    }
}

/// What is wrong with an object of a program.
#[derive(Debug, Drop)]
pub enum Fault<'a> {
    /// A library of this name, which the object at the second path needs, is not found.
    NotFound(Quoted<'a>, Quoted<'a>),
    /// The names of the object at this path are not available.
    Names(Quoted<'a>, NamesFault<'a>),
    /// The object at this path was found, and then it could not be read.
    Unread(Quoted<'a>),
    /// Symbols cannot be looked up in the object at this path.
    Object(Quoted<'a>, ObjectFault),
    /// The object at this path has symbols and no hash section, so these cannot be looked up.
    NoHash(Quoted<'a>),
    /// The relocations of the object at this path are not known.
    Relocations(Quoted<'a>, UsesError),
    /// A symbol of the object at this path binds to nothing.
    MissingSymbol(Quoted<'a>, QuotedSymbol<'a>),
    /// It is not known what a symbol of the object at this path binds to.
    UnknownSymbol(Quoted<'a>, QuotedSymbol<'a>, UnknownBinding<'a>),
    /// The same, since the version of a symbol of the object at the second path cannot be read.
    UnknownVersion(Quoted<'a>, QuotedSymbol<'a>, Quoted<'a>, usize),
}

impl fmt::Display for Fault<'_> {
    ghost use Rattle.nugwier_programs.specs.Faults.{fault_text};

    ghost output = { fault_text };

    fn fmt<W: fmt::Write>(&self, f: &mut fmt::Formatter<W>) -> fmt::Result {
        match self {
            Fault::NotFound(name, path) => write!(f, "{name}, which {path} needs, is not found"),
            Fault::Names(path, error) => write!(f, "names of {path}: {error}"),
            Fault::Unread(path) => write!(f, "symbols of {path}: the file can no longer be read"),
            Fault::Object(path, fault) => write!(f, "symbols of {path}: {fault}"),
            Fault::NoHash(path) => write!(f, "symbols of {path}: no hash section"),
            Fault::Relocations(path, error) => write!(f, "relocations of {path}: {error}"),
            Fault::MissingSymbol(path, symbol) => write!(f, "symbol {symbol} of {path}: missing"),
            Fault::UnknownSymbol(path, symbol, fault) => {
                write!(f, "symbol {symbol} of {path}: {fault}")
            }
            Fault::UnknownVersion(path, symbol, other, version) => write!(
                f,
                "symbol {symbol} of {path}: {other}: version of symbol {version} cannot be read"
            ),
        }
    }
}
