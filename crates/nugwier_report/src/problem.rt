//! What is wrong in a file, and where.
#![tactic(auto, using(crate::proofs::Saying::saying_both))]

ghost use Rattle.std.specs.Prelude.{◌≡◌};
ghost use Rattle.nugwier_report.specs.Parts.{part_member, tag_name};
ghost use Rattle.nugwier_report.specs.Said.{whole};
ghost use Rattle.nugwier_layouts.specs.Members.{member_said};
ghost use Rattle.nugwier_report.specs.declared.problem.Stop.TheVariants.{Memory as IsMemory, Write as IsWrite};

use crate::quoted::Quoted;
use elf_dynamic::dynamic_view::DynamicError;
use elf_parts::parse::ParseError;
use nugwier_layouts::escape::Escaped;
use nugwier_layouts::json::{Member, Value};
use std::alloc::{AllocError, AllocFailed};
use std::{fmt, io};

/// A part of a file. Sections and segments are counted from 0.
#[derive(Clone, Copy)]
pub enum Part {
    /// The file as a whole. It has no text of its own, since the file's name comes before it.
    File,
    /// The section headers.
    SectionHeaders,
    /// The names of the sections.
    SectionNames,
    Section(u64),
    Segment(u64),
    /// The symbols, of the first section of type `SHT_SYMTAB`.
    Symbols,
    /// The dynamic symbols, of the first section of type `SHT_DYNSYM`.
    DynamicSymbols,
    /// The versions of the dynamic symbols.
    Versions,
    /// The dynamic entries.
    Dynamic,
    /// The strings that dynamic entries name.
    DynamicStrings,
    BuildId,
    /// What is at an address.
    Address(u64),
    /// What a loader maps.
    LoadPlan,
    /// The relocations that dynamic entries give.
    Relocations(RelocationTable),
}

/// A table of relocations, by the dynamic entry that gives its address.
#[derive(Clone, Copy)]
pub enum RelocationTable {
    /// `DT_REL`.
    Rel,
    /// `DT_RELA`.
    Rela,
    /// `DT_RELR`.
    Relr,
    /// `DT_JMPREL`.
    Plt,
}

/// The section or the segment of a part of a file, by its number.
pub fn part_member(part: Part) -> Member<'static>
    ensures { member_said result ≡ part_member part }
{
    match part {
        Part::Section(number) => ("section", Value::Number(number)),
        Part::Segment(number) => ("segment", Value::Number(number)),
        _ => ("section", Value::Null),
    }
}

impl RelocationTable {
    /// Returns the name of the tag of the entry.
    pub fn name(self) -> &'static str
        ensures { result.now ≡ tag_name self }
    {
        match self {
            RelocationTable::Rel => "DT_REL",
            RelocationTable::Rela => "DT_RELA",
            RelocationTable::Relr => "DT_RELR",
            RelocationTable::Plt => "DT_JMPREL",
        }
    }
}

impl Part {
    /// Returns the place of the whole part.
    pub fn whole(self) -> Place
        ensures { result ≡ whole self }
    {
        self.item(Item::Whole)
    }

    /// Returns the place of an item of the part.
    pub fn item(self, item: Item) -> Place
        ensures { result ≡ record { part = self; item = item } }
    {
        Place { part: self, item }
    }
}

/// An item of a part. Each kind of item is counted from 0.
#[derive(Clone, Copy)]
pub enum Item {
    /// The whole part.
    Whole,
    /// Its name.
    Name,
    /// The symbols that its relocations use.
    Symbols,
    SymbolName(u64),
    SymbolVersion(u64),
    /// The string that a dynamic entry names.
    EntryName(u64),
    /// The symbol of a relocation, or its name.
    RelocationSymbol(u64),
    /// The name of the version of this index. For index 0 the name of a file from which versions are needed.
    VersionName(u64),
    /// The signature of a section group.
    Signature,
    /// A member of a section group, by the number of its section.
    Member(u64),
}

/// A place in a file.
#[derive(Clone, Copy)]
pub struct Place {
    pub part: Part,
    pub item: Item,
}

/// What is wrong at a place, of what many parts of a file have in common. Others are told by types of their own: each error
/// has a text (`Display`).
#[derive(Debug, Drop)]
pub enum Fault {
    /// It cannot be read.
    Read(ParseError),
    /// It is not available through the segments.
    Linked(DynamicError),
    /// The file has no such part.
    Missing,
    /// It is not listed, since what was listed of its kind has as many bytes as the file.
    Repeated,
    /// The chains of a hash section have more symbols than the section has chain words.
    LongChains,
}

impl fmt::Display for Fault {
    ghost use Rattle.nugwier_report.specs.Problems.{fault_text};

    ghost output = { fault_text };

    fn fmt<W: fmt::Write>(&self, f: &mut fmt::Formatter<W>) -> fmt::Result {
        match self {
            Fault::Read(error) => write!(f, "{error}"),
            Fault::Linked(error) => write!(f, "{error}"),
            Fault::Missing => f.write_str("the file has none"),
            Fault::Repeated => {
                f.write_str("left out: those up to here have more bytes than the file")
            }
            Fault::LongChains => f.write_str("its chains do not end, or share symbols"),
        }
    }
}

/// That no section has this name or this number.
#[derive(Debug, Drop)]
pub struct NoSection<'a>(pub Quoted<'a>);

impl fmt::Display for NoSection<'_> {
    ghost use Rattle.nugwier_report.specs.Problems.{no_section_text};

    ghost output = { λ none. no_section_text none.0 };

    fn fmt<W: fmt::Write>(&self, f: &mut fmt::Formatter<W>) -> fmt::Result {
        let name = &self.0;
        write!(f, "no section {name}")
    }
}

/// Why a listing stops.
#[derive(Debug, Drop)]
pub enum Stop {
    /// The bytes from a start to an end, which lie in the file, are not loaded.
    Missing((u64, u64)),
    /// The writer failed.
    Write(io::Error),
    /// An allocation failed.
    Memory,
}

impl From<io::Error> for Stop {
    ghost from_gives = { λ error stop. stop ≡ IsWrite error };

    fn from(error: io::Error) -> Stop {
        Stop::Write(error)
    }
}

impl From<AllocError> for Stop {
    ghost from_gives = { λ _ stop. stop ≡ IsMemory };

    fn from(_error: AllocError) -> Stop {
        Stop::Memory
    }
}

impl<T: Drop> From<AllocFailed<T>> for Stop {
    ghost from_gives = { λ _ stop. stop ≡ IsMemory };

    fn from(_error: AllocFailed<T>) -> Stop {
        Stop::Memory
    }
}

/// A problem as text: its place, with the number and the name of its section, if it has one, and the text of its fault.
#[derive(Clone, Copy)]
pub struct Told<'a> {
    pub place: Place,
    pub section: Option<(u64, &'a [u8])>,
    pub fault: &'a str,
}

impl fmt::Display for Told<'_> {
    ghost use Rattle.std.specs.Prelude.{Some};
    ghost use Rattle.nugwier_report.specs.Labels.{label_seen};
    ghost use Rattle.nugwier_report.specs.Problems.{problem_text};

    ghost output = { λ told. Some (problem_text (label_seen told.section) told.place told.fault.now) };

    fn fmt<W: fmt::Write>(&self, f: &mut fmt::Formatter<W>) -> fmt::Result {
        let Place { part, item } = self.place;
        let fault = self.fault;
        match (self.section, part) {
            (Some((number, name)), _) => {
                let name = Escaped(name);
                write!(f, "section {number} ({name}){item}{fault}")
            }
            (None, Part::File) => f.write_str(fault),
            (None, part) => write!(f, "{part}{item}{fault}"),
        }
    }
}

impl fmt::Display for Part {
    ghost use Rattle.std.specs.Prelude.{Some};
    ghost use Rattle.nugwier_report.specs.Problems.{part_text};

    ghost output = { λ part. Some (part_text part) };

    fn fmt<W: fmt::Write>(&self, f: &mut fmt::Formatter<W>) -> fmt::Result {
        match *self {
            Part::File => f.write_str("file"),
            Part::SectionHeaders => f.write_str("section headers"),
            Part::SectionNames => f.write_str("names of the sections"),
            Part::Section(number) => write!(f, "section {number}"),
            Part::Segment(number) => write!(f, "segment {number}"),
            Part::Symbols => f.write_str("symbols"),
            Part::DynamicSymbols => f.write_str("dynamic symbols"),
            Part::Versions => f.write_str("versions"),
            Part::Dynamic => f.write_str("dynamic entries"),
            Part::DynamicStrings => f.write_str("strings of the dynamic entries"),
            Part::Relocations(table) => {
                let name = table.name();
                write!(f, "relocations of {name}")
            }
            Part::BuildId => f.write_str("build id"),
            Part::Address(address) => write!(f, "address 0x{address:x}"),
            Part::LoadPlan => f.write_str("load plan"),
        }
    }
}

// After the text of its part, and before that of the fault.
impl fmt::Display for Item {
    ghost use Rattle.std.specs.Prelude.{Some};
    ghost use Rattle.nugwier_report.specs.Problems.{item_text};

    ghost output = { λ item. Some (item_text item) };

    fn fmt<W: fmt::Write>(&self, f: &mut fmt::Formatter<W>) -> fmt::Result {
        match *self {
            Item::Whole => f.write_str(": "),
            Item::Name => f.write_str(": name: "),
            Item::Symbols => f.write_str(": symbols: "),
            Item::SymbolName(number) => write!(f, ": name of symbol {number}: "),
            Item::SymbolVersion(number) => write!(f, ": version of symbol {number}: "),
            Item::EntryName(number) => write!(f, ": string of entry {number}: "),
            Item::RelocationSymbol(number) => write!(f, ": symbol of relocation {number}: "),
            Item::Signature => f.write_str(": signature: "),
            Item::Member(number) => write!(f, ": member {number}: "),
            Item::VersionName(0) => f.write_str(": name of a needed file: "),
            Item::VersionName(index) => write!(f, ": name of version {index}: "),
        }
    }
}
