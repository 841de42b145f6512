//! Looks a name up in an ordered list of objects: the first object that has the name decides, also where its symbol is
//! undefined, as a SysV section may index it. The look-ups of the dynamic linker, `resolver::definition` and `bind`, pass
//! over such a symbol.
//!
//! An object is given by its checked hash table, so a look-up returns no error and misses no indexed symbol.
//! Nothing is allocated.
ghost use Rattle.std.specs.Prelude.{◌≡◌};
ghost use Rattle.elf_linking.specs.declared.resolve.ObjectFault.TheVariants.{Dynamic as IsDynamic, Read as IsRead};

mod objects;

use elf::parse::ParseError;
use elf_dynamic::dynamic_view::DynamicError;
use elf_hash_check::hashcheck::HashFault;
pub use elf_hash_check::hashcheck::{AnyChecked, HashSection};
pub(crate) use objects::{HashParts, checked_in};
pub use objects::{object_table, resolve, section_table};
use std::fmt;
use thiserror::Error;

/// Why a file with a hash section has no checked table.
#[derive(Debug, Drop, Error)]
pub enum ObjectFault {
    /// The bytes of the section, the dynamic symbols, or the table in these bytes cannot be read.
    Read(ParseError),
    /// The file has no dynamic symbol table.
    NoSymbols,
    /// The section is not sound for the dynamic symbols.
    Faulty(HashFault),
    /// What links the file is not available: its dynamic symbols, their versions or its hash section, where they are
    /// read as `elf_dynamic::linked` does. So it is too if a range is not loaded (`DynamicError::Missing`).
    Dynamic(DynamicError),
}

impl fmt::Display for ObjectFault {
    ghost use Rattle.elf_linking.specs.Texts.{object_text};

    ghost output = { object_text };

    fn fmt<W: fmt::Write>(&self, f: &mut fmt::Formatter<W>) -> fmt::Result {
        match self {
            ObjectFault::Read(error) => write!(f, "{error}"),
            ObjectFault::NoSymbols => f.write_str("no dynamic symbol table"),
            ObjectFault::Faulty(fault) => { write!(f, "hash section is not sound: {fault}") }
            ObjectFault::Dynamic(error) => write!(f, "{error}"),
        }
    }
}

impl From<DynamicError> for ObjectFault {
    ghost from_gives = { λ error fault. fault ≡ IsDynamic error };

    fn from(error: DynamicError) -> ObjectFault {
        ObjectFault::Dynamic(error)
    }
}

impl From<ParseError> for ObjectFault {
    ghost from_gives = { λ error fault. fault ≡ IsRead error };

    fn from(error: ParseError) -> ObjectFault {
        ObjectFault::Read(error)
    }
}
