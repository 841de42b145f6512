//! What a check of a file says. The texts of the faults name a record by its index, counted from 0, and a string by its
//! offset in its table, in bytes.

use crate::segments::SegmentsFault;
use elf_hash_check::hashcheck::HashFault;
use std::fmt;
use thiserror::Error;

/// Why a symbol is not sound.
#[derive(Copy, Clone, Debug, PartialEq, Eq, Error)]
pub enum SymbolFault {
    /// Its name, at this offset of the strings, cannot be read.
    NoName { name: u32 },
    /// Its section number is below `SHN_LORESERVE`, and there is no such section.
    NoSection { section: u16 },
}

impl fmt::Display for SymbolFault {
    ghost use Rattle.elf_check.specs.Texts.{symbol_text};

    ghost output = { symbol_text };

    fn fmt<W: fmt::Write>(&self, f: &mut fmt::Formatter<W>) -> fmt::Result {
        match self {
            SymbolFault::NoName { name } => write!(f, "no name at 0x{name:x}"),
            SymbolFault::NoSection { section } => write!(f, "no section {section}"),
        }
    }
}

/// Why the symbols of a section are not sound.
#[derive(Copy, Clone, Debug, PartialEq, Eq, Error)]
pub enum SymbolsFault {
    /// There is no section `sh_link`, or `sh_entsize` is not the size of a symbol.
    BadLink,
    /// Section `sh_link` holds no strings.
    LinkedToNoStrings,
    /// The bytes are not a whole number of symbols.
    PartOfSymbol,
    /// The range of the symbols or that of their strings does not lie in the file.
    NoSymbols,
    /// This is the first symbol that is not sound.
    At { index: usize, fault: SymbolFault },
}

impl fmt::Display for SymbolsFault {
    ghost use Rattle.elf_check.specs.Texts.{symbols_text};

    ghost output = { symbols_text };

    fn fmt<W: fmt::Write>(&self, f: &mut fmt::Formatter<W>) -> fmt::Result {
        match self {
            SymbolsFault::BadLink => {
                f.write_str("no linked section, or not the entry size of symbols")
            }
            SymbolsFault::LinkedToNoStrings => {
                f.write_str("linked to a section that holds no strings")
            }
            SymbolsFault::PartOfSymbol => f.write_str("not a whole number of symbols"),
            SymbolsFault::NoSymbols => f.write_str("no symbols, or no strings, at their ranges"),
            SymbolsFault::At { index, fault } => { write!(f, "symbol {index}: {fault}") }
        }
    }
}

/// Why the relocations of a section are not sound.
#[derive(Copy, Clone, Debug, PartialEq, Eq, Error)]
pub enum RelocationsFault {
    /// `sh_entsize` is not the size of a relocation.
    EntrySize,
    /// Section `sh_link` holds no symbols, and is not 0.
    NoLink,
    /// The bytes are not a whole number of relocations.
    PartOfRelocation,
    /// This is the first relocation whose symbol does not exist.
    NoSymbol { index: usize, symbol: u32 },
}

impl fmt::Display for RelocationsFault {
    ghost use Rattle.elf_check.specs.Texts.{relocations_text};

    ghost output = { relocations_text };

    fn fmt<W: fmt::Write>(&self, f: &mut fmt::Formatter<W>) -> fmt::Result {
        match self {
            RelocationsFault::EntrySize => f.write_str("not the entry size of relocations"),
            RelocationsFault::NoLink => f.write_str("linked to a section that holds no symbols"),
            RelocationsFault::PartOfRelocation => f.write_str("not a whole number of relocations"),
            RelocationsFault::NoSymbol { index, symbol } => {
                write!(f, "relocation {index}: no symbol {symbol}")
            }
        }
    }
}

/// Why a hash section is not sound.
#[derive(Copy, Clone, Debug, PartialEq, Eq, Error)]
pub enum HashSectionFault {
    /// Section `sh_link` holds no symbols.
    NotLinked,
    /// The section holds no hash table, or its symbols cannot be read.
    NoTable,
    /// The table is not sound for the symbols.
    Unsound(HashFault),
}

impl fmt::Display for HashSectionFault {
    ghost use Rattle.elf_check.specs.Texts.{hash_section_text};

    ghost output = { hash_section_text };

    fn fmt<W: fmt::Write>(&self, f: &mut fmt::Formatter<W>) -> fmt::Result {
        match self {
            HashSectionFault::NotLinked => f.write_str("linked to a section that holds no symbols"),
            HashSectionFault::NoTable => f.write_str("no hash table, or no symbols for it"),
            HashSectionFault::Unsound(fault) => { write!(f, "the table is not sound: {fault}") }
        }
    }
}

/// Why dynamic entries are not sound.
#[derive(Copy, Clone, Debug, PartialEq, Eq, Error)]
pub enum DynamicFault {
    /// `sh_entsize` is not the size of an entry.
    EntrySize,
    /// Section `sh_link` does not exist, or holds no strings.
    NotLinked,
    /// The range of the linked strings does not lie in the file.
    NoStrings,
    /// The bytes are not a whole number of entries.
    PartOfEntry,
    /// No entry has the tag `DT_NULL`, which ends the table.
    NoNull,
    /// This is the first entry whose string cannot be read.
    NoString { index: usize },
}

impl fmt::Display for DynamicFault {
    ghost use Rattle.elf_check.specs.Texts.{dynamic_text};

    ghost output = { dynamic_text };

    fn fmt<W: fmt::Write>(&self, f: &mut fmt::Formatter<W>) -> fmt::Result {
        match self {
            DynamicFault::EntrySize => f.write_str("not the entry size of dynamic entries"),
            DynamicFault::NotLinked => f.write_str("linked to a section that holds no strings"),
            DynamicFault::NoStrings => f.write_str("no strings at their range"),
            DynamicFault::PartOfEntry => f.write_str("not a whole number of dynamic entries"),
            DynamicFault::NoNull => f.write_str("no entry DT_NULL"),
            DynamicFault::NoString { index } => {
                write!(f, "dynamic entry {index}: no string at its offset")
            }
        }
    }
}

/// Why a section is not sound.
#[derive(Copy, Clone, Debug, PartialEq, Eq, Error)]
pub enum SectionFault {
    /// Its name cannot be read.
    NoName,
    /// Its range does not lie in the file, or it has no room for its compression header.
    NoBytes,
    /// It has a type whose records, strings or tables are read as they lie in the file, and it is compressed.
    Compressed,
    /// It holds strings, and its last byte is not 0.
    NoLastNul,
    /// The symbols that it holds are not sound.
    Symbols(SymbolsFault),
    /// The relocations that it holds are not sound.
    Relocations(RelocationsFault),
    /// The hash table that it holds is not sound.
    Hash(HashSectionFault),
    /// The dynamic entries that it holds are not sound.
    Dynamic(DynamicFault),
    /// It holds notes. After the last one, at this offset of the section, is no note, and the section does not end.
    NoNote { offset: usize },
}

impl fmt::Display for SectionFault {
    ghost use Rattle.elf_check.specs.Texts.{section_text};

    ghost output = { section_text };

    fn fmt<W: fmt::Write>(&self, f: &mut fmt::Formatter<W>) -> fmt::Result {
        match self {
            SectionFault::NoName => f.write_str("no name"),
            SectionFault::NoBytes => f.write_str("no bytes at its range"),
            SectionFault::Compressed => f.write_str("compressed"),
            SectionFault::NoLastNul => f.write_str("the last string does not end"),
            SectionFault::Symbols(fault) => write!(f, "{fault}"),
            SectionFault::Relocations(fault) => write!(f, "{fault}"),
            SectionFault::Hash(fault) => write!(f, "{fault}"),
            SectionFault::Dynamic(fault) => write!(f, "{fault}"),
            SectionFault::NoNote { offset } => write!(f, "no note at 0x{offset:x}"),
        }
    }
}

/// Why linked records are not sound.
#[derive(Copy, Clone, Debug, PartialEq, Eq, Error)]
pub enum ChainFault {
    /// There are fewer than declared.
    Short { found: u64 },
    /// The last one says that there is a next one.
    NotLast,
    /// This is the first one that is not sound: a name cannot be read or is no text, or the auxiliary records are not
    /// as many as it declares.
    At { index: u64 },
}

impl fmt::Display for ChainFault {
    ghost use Rattle.elf_check.specs.Texts.{chain_text};

    ghost output = { chain_text };

    fn fmt<W: fmt::Write>(&self, f: &mut fmt::Formatter<W>) -> fmt::Result {
        match self {
            ChainFault::Short { found } => write!(f, "only {found} of them"),
            ChainFault::NotLast => f.write_str("more of them than declared"),
            ChainFault::At { index } => {
                write!(
                    f,
                    "number {index}: a name, or an auxiliary record, cannot be read"
                )
            }
        }
    }
}

/// Why the versions of a file are not sound.
#[derive(Copy, Clone, Debug, PartialEq, Eq, Error)]
pub enum VersionsFault {
    /// The section of needs or that of their strings cannot be read.
    NeedsUnreadable,
    /// The needs declare more versions than the section has bytes for.
    NeedsTooLong,
    /// The needs.
    FaultyNeeds(ChainFault),
    /// The section of definitions or that of their strings cannot be read.
    DefinitionsUnreadable,
    /// The definitions declare more names than the section has bytes for.
    DefinitionsTooLong,
    /// The definitions.
    FaultyDefinitions(ChainFault),
    /// The bytes are not a whole number of version indexes.
    PartOfIndex,
    /// The version indexes cannot be read.
    IndexesUnreadable,
    /// There are no dynamic symbols.
    NoDynamicSymbols,
    /// There are not as many version indexes as symbols.
    CountOfIndexes,
    /// This is the first symbol whose index is not that of exactly one version: none has it.
    UnknownIndex { symbol: usize },
    /// This is the first symbol whose index is not that of exactly one version: the file defines one with it, and needs
    /// one.
    AmbiguousIndex { symbol: usize },
}

impl fmt::Display for VersionsFault {
    ghost use Rattle.elf_check.specs.Texts.{versions_text};

    ghost output = { versions_text };

    fn fmt<W: fmt::Write>(&self, f: &mut fmt::Formatter<W>) -> fmt::Result {
        match self {
            VersionsFault::NeedsUnreadable => f.write_str("no needs, or no strings for them"),
            VersionsFault::NeedsTooLong => {
                f.write_str("more versions of needs than the section has bytes for")
            }
            VersionsFault::FaultyNeeds(fault) => write!(f, "needs: {fault}"),
            VersionsFault::DefinitionsUnreadable => {
                f.write_str("no definitions, or no strings for them")
            }
            VersionsFault::DefinitionsTooLong => {
                f.write_str("more names of definitions than the section has bytes for")
            }
            VersionsFault::FaultyDefinitions(fault) => { write!(f, "definitions: {fault}") }
            VersionsFault::PartOfIndex => f.write_str("not a whole number of version indexes"),
            VersionsFault::IndexesUnreadable => f.write_str("no version indexes"),
            VersionsFault::NoDynamicSymbols => f.write_str("no symbols for dynamic linking"),
            VersionsFault::CountOfIndexes => {
                f.write_str("not as many version indexes as symbols")
            }
            VersionsFault::UnknownIndex { symbol } => {
                write!(f, "symbol {symbol}: no version with its index")
            }
            VersionsFault::AmbiguousIndex { symbol } => {
                write!(f, "symbol {symbol}: a definition and a need with its index")
            }
        }
    }
}

/// Why a file is not sound.
#[derive(Copy, Clone, Debug, PartialEq, Eq, Error)]
pub enum FileFault {
    /// The names of the sections cannot be read.
    NoNames,
    /// More than one section has this type, and there is to be one at most.
    Repeated { sh_type: u32 },
    /// This section is not sound. `check_file` returns the first one.
    Section { index: usize, fault: SectionFault },
    /// The versions of symbols are not sound.
    Versions(VersionsFault),
    /// The segments are not sound.
    Segments(SegmentsFault),
}

impl fmt::Display for FileFault {
    ghost use Rattle.elf_check.specs.Texts.{file_text};

    ghost output = { file_text };

    fn fmt<W: fmt::Write>(&self, f: &mut fmt::Formatter<W>) -> fmt::Result {
        match self {
            FileFault::NoNames => f.write_str("no names of sections"),
            FileFault::Repeated { sh_type } => {
                write!(f, "more than one section of type 0x{sh_type:x}")
            }
            FileFault::Section { index, fault } => { write!(f, "section {index}: {fault}") }
            FileFault::Versions(fault) => write!(f, "versions: {fault}"),
            FileFault::Segments(fault) => write!(f, "{fault}"),
        }
    }
}

/// The result of a check: a file whose parts can all be read, or a fault of the file.
#[derive(Debug, Drop)]
pub enum FileVerdict<C: Drop> {
    Sound(C),
    Faulty(FileFault),
}
