//! The faults of a file as C sees them.
ghost use Rattle.std.specs.Prelude.{◌≡◌};
ghost use Rattle.elf_c.specs.Faults.{chain_fault, dynamic_fault, fault, fault_shown, hash_fault, no_fault};
ghost use Rattle.elf_c.specs.Faults.{relocations_fault, section_fault, segment_fault, segments_fault, symbols_fault};
ghost use Rattle.elf_c.specs.Faults.{versions_fault};

pub mod kinds;

use elf_check::faults::{
    ChainFault, DynamicFault, FileFault, HashSectionFault, RelocationsFault, SectionFault,
    SymbolFault, SymbolsFault, VersionsFault,
};
use elf_check::segments::{SegmentFault, SegmentsFault};
use elf_hash_check::hashcheck::HashFault;

/// The file as a whole is at fault.
pub const PART_FILE: u32 = 0;

/// A section is at fault.
pub const PART_SECTION: u32 = 1;

/// The versions of symbols are at fault.
pub const PART_VERSIONS: u32 = 2;

/// A segment is at fault.
pub const PART_SEGMENT: u32 = 3;

/// A fault of a file: its kind, one of `kinds`, or 0 for no fault; which part of the file is at fault; the index of the
/// section or of the segment at fault, counted from 0, and otherwise 0; and two numbers that belong to the kind. A
/// number that the kind does not name is 0.
#[repr(C)]
#[derive(Clone, Copy)]
pub struct NugwierFault {
    pub kind: u32,
    pub part: u32,
    pub index: u64,
    pub first: u64,
    pub second: u64,
}

// What is told of a fault: its kind, and the two numbers that belong to it.
type Told = (u32, u64, u64);

// A fault of a part of the file.
fn fault(part: u32, index: u64, told: Told) -> NugwierFault
    ensures { result ≡ fault part index told }
{
    let (kind, first, second) = told;
    NugwierFault {
        kind,
        part,
        index,
        first,
        second,
    }
}

// No fault.
pub(crate) fn no_fault() -> NugwierFault
    ensures { result ≡ no_fault }
{
    fault(PART_FILE, 0, (0, 0, 0))
}

// The fault of the symbols of a section.
fn symbols_fault(found: &SymbolsFault) -> Told
    ensures { result ≡ symbols_fault found.now }
{
    match *found {
        SymbolsFault::BadLink => (kinds::SYMBOLS_BAD_LINK, 0, 0),
        SymbolsFault::LinkedToNoStrings => (kinds::SYMBOLS_LINKED_TO_NO_STRINGS, 0, 0),
        SymbolsFault::PartOfSymbol => (kinds::PART_OF_SYMBOL, 0, 0),
        SymbolsFault::NoSymbols => (kinds::NO_SYMBOLS, 0, 0),
        SymbolsFault::At {
            index,
            fault: SymbolFault::NoName { name },
        } => (kinds::SYMBOL_NO_NAME, index as u64, name as u64),
        SymbolsFault::At {
            index,
            fault: SymbolFault::NoSection { section },
        } => (kinds::SYMBOL_NO_SECTION, index as u64, section as u64),
    }
}

// The fault of the relocations of a section.
fn relocations_fault(found: &RelocationsFault) -> Told
    ensures { result ≡ relocations_fault found.now }
{
    match *found {
        RelocationsFault::EntrySize => (kinds::RELOCATIONS_ENTRY_SIZE, 0, 0),
        RelocationsFault::NoLink => (kinds::RELOCATIONS_NO_LINK, 0, 0),
        RelocationsFault::PartOfRelocation => (kinds::PART_OF_RELOCATION, 0, 0),
        RelocationsFault::NoSymbol { index, symbol } => {
            (kinds::RELOCATION_NO_SYMBOL, index as u64, symbol as u64)
        }
    }
}

// The fault of the hash table of a section.
fn hash_fault(found: &HashFault) -> Told
    ensures { result ≡ hash_fault found.now }
{
    match *found {
        HashFault::Endless { bucket } => (kinds::HASH_ENDLESS, bucket as u64, 0),
        HashFault::PastChains { bucket, index } => {
            (kinds::HASH_PAST_CHAINS, bucket as u64, index as u64)
        }
        HashFault::Unreadable { index } => (kinds::HASH_UNREADABLE, index as u64, 0),
        HashFault::WrongBucket { bucket, index } => {
            (kinds::HASH_WRONG_BUCKET, bucket as u64, index as u64)
        }
        HashFault::ShiftTooLarge => (kinds::HASH_SHIFT_TOO_LARGE, 0, 0),
        HashFault::WrongHash { index } => (kinds::HASH_WRONG_HASH, index as u64, 0),
        HashFault::NoBloomBit { index } => (kinds::HASH_NO_BLOOM_BIT, index as u64, 0),
        HashFault::NotInRun { index } => (kinds::HASH_NOT_IN_RUN, index as u64, 0),
    }
}

// The fault of the dynamic entries of a section.
fn dynamic_fault(found: &DynamicFault) -> Told
    ensures { result ≡ dynamic_fault found.now }
{
    match *found {
        DynamicFault::EntrySize => (kinds::DYNAMIC_ENTRY_SIZE, 0, 0),
        DynamicFault::NotLinked => (kinds::DYNAMIC_NOT_LINKED, 0, 0),
        DynamicFault::NoStrings => (kinds::DYNAMIC_NO_STRINGS, 0, 0),
        DynamicFault::PartOfEntry => (kinds::PART_OF_DYNAMIC_ENTRY, 0, 0),
        DynamicFault::NoNull => (kinds::DYNAMIC_NO_NULL, 0, 0),
        DynamicFault::NoString { index } => (kinds::DYNAMIC_NO_STRING, index as u64, 0),
    }
}

// The fault of a section.
fn section_fault(found: &SectionFault) -> Told
    ensures { result ≡ section_fault found.now }
{
    match found {
        SectionFault::NoName => (kinds::SECTION_NO_NAME, 0, 0),
        SectionFault::NoBytes => (kinds::SECTION_NO_BYTES, 0, 0),
        SectionFault::Compressed => (kinds::SECTION_COMPRESSED, 0, 0),
        SectionFault::NoLastNul => (kinds::SECTION_NO_LAST_NUL, 0, 0),
        SectionFault::Symbols(fault) => symbols_fault(fault),
        SectionFault::Relocations(fault) => relocations_fault(fault),
        SectionFault::Hash(HashSectionFault::NotLinked) => (kinds::HASH_NOT_LINKED, 0, 0),
        SectionFault::Hash(HashSectionFault::NoTable) => (kinds::HASH_NO_TABLE, 0, 0),
        SectionFault::Hash(HashSectionFault::Unsound(fault)) => hash_fault(fault),
        SectionFault::Dynamic(fault) => dynamic_fault(fault),
        SectionFault::NoNote { offset } => (kinds::SECTION_NO_NOTE, *offset as u64, 0),
    }
}

// The fault of the needs or of the definitions, by the kinds that it has there.
fn chain_fault(short: u32, not_last: u32, at: u32, found: &ChainFault) -> Told
    ensures { result ≡ chain_fault short not_last at found.now }
{
    match *found {
        ChainFault::Short { found } => (short, found, 0),
        ChainFault::NotLast => (not_last, 0, 0),
        ChainFault::At { index } => (at, index, 0),
    }
}

// The fault of the versions.
fn versions_fault(found: &VersionsFault) -> Told
    ensures { result ≡ versions_fault found.now }
{
    match found {
        VersionsFault::NeedsUnreadable => (kinds::NEEDS_UNREADABLE, 0, 0),
        VersionsFault::NeedsTooLong => (kinds::NEEDS_TOO_LONG, 0, 0),
        VersionsFault::FaultyNeeds(fault) => chain_fault(
            kinds::NEEDS_SHORT,
            kinds::NEEDS_NOT_LAST,
            kinds::NEED_UNREADABLE,
            fault,
        ),
        VersionsFault::DefinitionsUnreadable => (kinds::DEFINITIONS_UNREADABLE, 0, 0),
        VersionsFault::DefinitionsTooLong => (kinds::DEFINITIONS_TOO_LONG, 0, 0),
        VersionsFault::FaultyDefinitions(fault) => chain_fault(
            kinds::DEFINITIONS_SHORT,
            kinds::DEFINITIONS_NOT_LAST,
            kinds::DEFINITION_UNREADABLE,
            fault,
        ),
        VersionsFault::PartOfIndex => (kinds::PART_OF_VERSION_INDEX, 0, 0),
        VersionsFault::IndexesUnreadable => (kinds::VERSION_INDEXES_UNREADABLE, 0, 0),
        VersionsFault::NoDynamicSymbols => (kinds::NO_DYNAMIC_SYMBOLS, 0, 0),
        VersionsFault::CountOfIndexes => (kinds::COUNT_OF_VERSION_INDEXES, 0, 0),
        VersionsFault::UnknownIndex { symbol } => (kinds::UNKNOWN_VERSION_INDEX, *symbol as u64, 0),
        VersionsFault::AmbiguousIndex { symbol } => {
            (kinds::AMBIGUOUS_VERSION_INDEX, *symbol as u64, 0)
        }
    }
}

// The fault of a segment of a type.
fn segment_fault(p_type: u32, found: &SegmentFault) -> Told
    ensures { result ≡ segment_fault p_type found.now }
{
    let (kind, second) = match *found {
        SegmentFault::NoBytes => (kinds::SEGMENT_NO_BYTES, 0),
        SegmentFault::FileSize => (kinds::SEGMENT_FILE_SIZE, 0),
        SegmentFault::PastAddresses => (kinds::SEGMENT_PAST_ADDRESSES, 0),
        SegmentFault::NoLastNul => (kinds::SEGMENT_NO_LAST_NUL, 0),
        SegmentFault::NoNote { offset } => (kinds::SEGMENT_NO_NOTE, offset as u64),
        SegmentFault::PartOfEntry => (kinds::SEGMENT_PART_OF_ENTRY, 0),
        SegmentFault::EntriesWithoutEnd => (kinds::SEGMENT_NO_NULL, 0),
        SegmentFault::OtherSection => (kinds::SEGMENT_OTHER_SECTION, 0),
    };
    (kind, p_type as u64, second)
}

// The fault of the segments.
fn segments_fault(found: &SegmentsFault) -> NugwierFault
    ensures { result ≡ segments_fault found.now }
{
    let (kind, first, index) = match *found {
        SegmentsFault::SecondInterp { first, index } => (kinds::SECOND_INTERP, first, index),
        SegmentsFault::SecondDynamic { first, index } => (kinds::SECOND_DYNAMIC, first, index),
        SegmentsFault::SecondPhdr { first, index } => (kinds::SECOND_PHDR, first, index),
        SegmentsFault::SecondTls { first, index } => (kinds::SECOND_TLS, first, index),
        SegmentsFault::PhdrAfterLoad { first, index } => (kinds::PHDR_AFTER_LOAD, first, index),
        SegmentsFault::OverlappingLoad { first, index } => (kinds::OVERLAPPING_LOAD, first, index),
        SegmentsFault::Segment {
            index,
            p_type,
            fault: own,
        } => return fault(PART_SEGMENT, index as u64, segment_fault(p_type, &own)),
    };
    fault(PART_SEGMENT, index as u64, (kind, first as u64, 0))
}

// A fault of a file.
pub(crate) fn fault_shown(found: &FileFault) -> NugwierFault
    ensures { result ≡ fault_shown found.now }
{
    match found {
        FileFault::NoNames => fault(PART_FILE, 0, (kinds::NO_NAMES, 0, 0)),
        FileFault::Repeated { sh_type } => {
            fault(PART_FILE, 0, (kinds::REPEATED_TYPE, *sh_type as u64, 0))
        }
        FileFault::Section { index, fault: own } => {
            fault(PART_SECTION, *index as u64, section_fault(own))
        }
        FileFault::Versions(own) => fault(PART_VERSIONS, 0, versions_fault(own)),
        FileFault::Segments(own) => segments_fault(own),
    }
}
