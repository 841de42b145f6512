//! What a check of segments says.

use elf::to_str::p_type_to_str;
use std::fmt;
use thiserror::Error;

/// Why a segment is not sound.
#[derive(Copy, Clone, Debug, PartialEq, Eq, Error)]
pub enum SegmentFault {
    /// Its bytes do not lie in the file.
    NoBytes,
    /// `PT_LOAD`, `PT_TLS`: it has more bytes in the file than in memory.
    FileSize,
    /// `PT_LOAD`: it ends past the last address of the file's class.
    PastAddresses,
    /// `PT_INTERP`: the last byte is not 0, or there is none.
    NoLastNul,
    /// `PT_NOTE`: the note after the last one would begin at this byte of the segment, before its end, and there is
    /// none.
    NoNote { offset: usize },
    /// `PT_DYNAMIC`: the bytes are not a whole number of entries.
    PartOfEntry,
    /// `PT_DYNAMIC`: no entry has the tag `DT_NULL`.
    EntriesWithoutEnd,
    /// `PT_DYNAMIC`: the first section of type `SHT_DYNAMIC` has other bytes.
    OtherSection,
}

impl fmt::Display for SegmentFault {
    ghost use Rattle.elf_check.specs.Texts.{segment_text};

    ghost output = { segment_text };

    fn fmt<W: fmt::Write>(&self, f: &mut fmt::Formatter<W>) -> fmt::Result {
        match self {
            SegmentFault::NoBytes => f.write_str("does not lie in the file"),
            SegmentFault::FileSize => f.write_str("has more bytes in the file than in memory"),
            SegmentFault::PastAddresses => f.write_str("ends past the last address"),
            SegmentFault::NoLastNul => f.write_str("does not end in a 0 byte"),
            SegmentFault::NoNote { offset } => write!(f, "has no note at offset 0x{offset:x}"),
            SegmentFault::PartOfEntry => f.write_str("is not a whole number of entries"),
            SegmentFault::EntriesWithoutEnd => f.write_str("has no entry DT_NULL"),
            SegmentFault::OtherSection => {
                f.write_str("has other bytes than the section SHT_DYNAMIC")
            }
        }
    }
}

/// The name of a segment's type, or its number if it has no name.
#[derive(Copy, Clone)]
struct TypeName(u32);

impl fmt::Display for TypeName {
    ghost use Rattle.std.specs.Prelude.{Some};
    ghost use Rattle.elf_check.specs.Texts.{type_text};

    ghost output = { λ name. Some (type_text name.0) };

    fn fmt<W: fmt::Write>(&self, f: &mut fmt::Formatter<W>) -> fmt::Result {
        match p_type_to_str(self.0) {
            Some(name) => f.write_str(name),
            None => write!(f, "0x{:x}", self.0),
        }
    }
}

/// Why the segments of a file are not sound. `index` is that of the segment at fault, counted from 0, and `first` that
/// of an earlier one.
#[derive(Copy, Clone, Debug, PartialEq, Eq, Error)]
pub enum SegmentsFault {
    /// A second segment of type `PT_INTERP`.
    SecondInterp {
        first: usize,
        index: usize,
    },
    /// A second segment of type `PT_DYNAMIC`.
    SecondDynamic {
        first: usize,
        index: usize,
    },
    /// A second segment of type `PT_PHDR`.
    SecondPhdr {
        first: usize,
        index: usize,
    },
    /// A second segment of type `PT_TLS`.
    SecondTls {
        first: usize,
        index: usize,
    },
    /// A segment of type `PT_PHDR` after one of type `PT_LOAD`.
    PhdrAfterLoad {
        first: usize,
        index: usize,
    },
    /// A segment that is not sound, with its type. `segments_fault` returns the first one.
    Segment {
        index: usize,
        p_type: u32,
        fault: SegmentFault,
    },
    /// A segment of type `PT_LOAD` that begins before the one before it of this type ends.
    OverlappingLoad {
        first: usize,
        index: usize,
    },
}

impl fmt::Display for SegmentsFault {
    ghost use Rattle.elf_check.specs.Texts.{segments_text};

    ghost output = { segments_text };

    fn fmt<W: fmt::Write>(&self, f: &mut fmt::Formatter<W>) -> fmt::Result {
        match self {
            SegmentsFault::SecondInterp { first, index } => {
                write!(
                    f,
                    "segment {index} (PT_INTERP): segment {first} has this type too"
                )
            }
            SegmentsFault::SecondDynamic { first, index } => {
                write!(
                    f,
                    "segment {index} (PT_DYNAMIC): segment {first} has this type too"
                )
            }
            SegmentsFault::SecondPhdr { first, index } => {
                write!(
                    f,
                    "segment {index} (PT_PHDR): segment {first} has this type too"
                )
            }
            SegmentsFault::SecondTls { first, index } => {
                write!(
                    f,
                    "segment {index} (PT_TLS): segment {first} has this type too"
                )
            }
            SegmentsFault::PhdrAfterLoad { first, index } => {
                write!(
                    f,
                    "segment {index} (PT_PHDR): comes after segment {first} (PT_LOAD)"
                )
            }
            SegmentsFault::Segment {
                index,
                p_type,
                fault,
            } => write!(f, "segment {index} ({}): {fault}", TypeName(*p_type)),
            SegmentsFault::OverlappingLoad { first, index } => write!(
                f,
                "segment {index} (PT_LOAD): begins before the end of segment {first} (PT_LOAD)"
            ),
        }
    }
}
