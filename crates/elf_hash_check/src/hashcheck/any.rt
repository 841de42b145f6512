//! The check of a section of either kind, and the table that it gives.
ghost use Rattle.std.specs.Prelude.{◌≡◌, ℕ, List, [], true};
ghost use Rattle.elf_parts.specs.Hash.{gnu_hash_of};
ghost use Rattle.elf_records.specs.StringTable.{strings_view};
ghost use Rattle.elf_records.specs.Table.{table_view};
ghost use Rattle.elf_hash_check.specs.CheckedTable.{object_view};
ghost use Rattle.elf_hash_check.specs.Indexed.{IsNumberOf};
ghost use Rattle.elf_hash_check.specs.Object.{IsFirstOfObject, IsSound, object_in};
ghost use Rattle.elf_hash_check.specs.Verdict.{GivesVerdict};

use crate::hashcheck::{
    Checked, CheckedGnuHash, CheckedSysvHash, NamedSymbols, check_gnu, check_sysv,
};
use elf_parts::endian::EndianParse;
use elf_parts::file::Class;
use elf_parts::parse::ParseError;
use elf_parts::string_table::StringTable;
use elf_parts::symbol::{Symbol, SymbolTable};

/// A kind of hash section.
#[derive(Copy, Clone, Debug, PartialEq, Eq)]
pub enum HashKind {
    /// The one of the gABI, of type `SHT_HASH`.
    Sysv,
    /// The one of GNU, of type `SHT_GNU_HASH`.
    Gnu,
}

/// A table of either kind of hash section.
// The two are type parameters, since an enum that borrows bytes may not have a struct with a ghost field by its name.
#[derive(Debug, Drop)]
pub enum HashSection<S: Drop, G: Drop> {
    /// A table of a gABI hash section.
    Sysv(S),
    /// A table of a GNU hash section.
    Gnu(G),
}

/// The table of a hash section of either kind that is sound for its symbols.
pub type AnyChecked<'data, E> = HashSection<CheckedSysvHash<'data, E>, CheckedGnuHash<'data, E>>;

impl<'data, E: EndianParse> HashSection<CheckedSysvHash<'data, E>, CheckedGnuHash<'data, E>> {
    ghost use Rattle.elf_hash_check.specs.NamedSymbols.{AreAllNamed, named_left};
    ghost use Rattle.elf_hash_check.specs.Object.{Indexed, IsFound, excludes, indexed_count};

    /// Returns the index and the symbol of a name: of a GNU section the least such index, of a SysV section the first
    /// along its chain. Returns `None` exactly if no indexed symbol has the name. The table comes from `check_any` or,
    /// for a file, from `elf_linking::resolve::object_table`.
    ///
    /// ```rust
    /// if let Some(table) = object_table(&file)?
    ///     && let Some((index, symbol)) = table.find(b"malloc")
    /// {
    ///     println!(rt; "symbol {index}, value {:#x}", symbol.st_value)?;
    /// }
    /// ```
    pub fn find(&self, name: &[u8]) -> Option<(usize, Symbol)>
        ensures { IsFound (object_view self.now) name.now result }
    {
        match self {
            AnyChecked::Sysv(table) => table.find(name),
            AnyChecked::Gnu(table) => table.find(name),
        }
    }

    /// Returns an iterator over all indexed symbols with a name, each once with its index: of a GNU section in the
    /// order of their indexes, of a SysV section in the order of their chain. The first is the one that `find` returns.
    ///
    /// ```rust
    /// if let Some(table) = object_table(&file)? {
    ///     for (index, symbol) in table.find_all(b"malloc") {
    ///         println!(rt; "symbol {index}, value {:#x}", symbol.st_value)?;
    ///     }
    /// }
    /// ```
    pub fn find_all<'a>(&self, name: &'a [u8]) -> NamedSymbols<'a, 'data, E>
        ensures { AreAllNamed (object_view self.now) name.now (named_left result) }
    {
        match self {
            AnyChecked::Sysv(table) => table.find_all(name),
            AnyChecked::Gnu(table) => table.find_all(name),
        }
    }

    /// Returns whether the section's filter tells that no indexed symbol has a name with this hash
    /// (`elf::hash::gnu_hash`). It tells so of most such names. Who looks for one name in many files takes its hash once.
    /// A SysV section has no filter, and excludes none.
    ///
    /// ```rust
    /// let hash = gnu_hash(b"malloc");
    /// if let Some(table) = object_table(&file)?
    ///     && !table.excludes(hash)
    ///     && let Some((index, _)) = table.find(b"malloc")
    /// {
    ///     println!(rt; "symbol {index}")?;
    /// }
    /// ```
    pub fn excludes(&self, hash: u32) -> bool
        ensures value { result ≡ excludes (object_view self.now) hash }
        ensures none { result ≡ true → (name : List ℕ) → gnu_hash_of name ≡ hash
            → AreAllNamed (object_view self.now) name [] }
    {
        match self {
            AnyChecked::Sysv(_) => false,
            AnyChecked::Gnu(table) => table.excludes(hash),
        }
    }

    /// Returns the number of symbols that the section indexes.
    pub fn indexed(&self) -> usize
        ensures count { result ≡ indexed_count (object_view self.now) }
        ensures members { IsNumberOf result (Indexed (object_view self.now)) }
    {
        match self {
            AnyChecked::Sysv(table) => table.indexed(),
            AnyChecked::Gnu(table) => table.indexed(),
        }
    }
}

/// Checks the bytes of a hash section of either kind as `check_sysv` or `check_gnu` does. The symbols are those of the
/// section that `sh_link` of the hash section names, with their strings: usually those of `dynamic_symbol_table`.
/// Returns the checked table exactly if the section is sound for these symbols, and otherwise its first fault.
/// Returns an error exactly if `new` of the table does, and that error.
///
/// ```rust
/// if let Some(section) = file.section_header_by_name(".gnu.hash")?
///     && let Some((symbols, names)) = file.dynamic_symbol_table()?
/// {
///     let (kind, ehdr) = (HashKind::Gnu, &file.ehdr);
///     let (bytes, _) = file.section_data(&section)?;
///     match check_any(kind, ehdr.endianness, ehdr.class, bytes, symbols, names)? {
///         Checked::Sound(table) => println!(rt; "sound, {} symbols", table.indexed())?,
///         Checked::Faulty(fault) => println!(rt; "{fault:?}")?,
///     }
/// }
/// ```
pub fn check_any<'data, E: EndianParse>(
    kind: HashKind,
    endian: E,
    class: Class,
    section: &'data [u8],
    symtab: SymbolTable<'data, E>,
    strtab: StringTable<'data>,
) -> Result<Checked<AnyChecked<'data, E>>, ParseError>
    ensures { let object = object_in kind (E.little endian) class section.now
        (table_view symtab.entry) (strings_view strtab.entry) in
        GivesVerdict object_view IsSound IsFirstOfObject object result }
{
    match kind {
        HashKind::Sysv => match check_sysv(endian, class, section, symtab, strtab) {
            Ok(Checked::Sound(table)) => Ok(Checked::Sound(AnyChecked::Sysv(table))),
            Ok(Checked::Faulty(fault)) => Ok(Checked::Faulty(fault)),
            Err(error) => Err(error),
        },
        HashKind::Gnu => match check_gnu(endian, class, section, symtab, strtab) {
            Ok(Checked::Sound(table)) => Ok(Checked::Sound(AnyChecked::Gnu(table))),
            Ok(Checked::Faulty(fault)) => Ok(Checked::Faulty(fault)),
            Err(error) => Err(error),
        },
    }
}
