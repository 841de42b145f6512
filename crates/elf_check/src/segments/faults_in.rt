//! The faults of the segments: of their types, of each, and of the order of the loaded ones.
ghost use Rattle.std.specs.Prelude.{◌≡◌};
ghost use Rattle.elf_abi.specs.Values.{sht_dynamic};
ghost use Rattle.elf.specs.ElfBytes.{view};
ghost use Rattle.elf.specs.Headers.{first_section_of};
ghost use Rattle.elf.specs.ObjectFile.{object_file};
ghost use Rattle.elf_check.specs.AllFaults.{LoadOrder, SegmentAt, Types};
ghost use Rattle.elf_check.specs.TypeRules.{fault_of, types_of};
ghost use Rattle.elf_check.specs.inner.Walk.{IsFaultIfAny};

use super::each::segment_fault;
use super::faults::SegmentsFault;
use super::loads::first_overlap;
use super::table::{first_pair, segment_at};
use crate::faults::FileFault;
use elf::endian::EndianParse;
use elf::section::SectionHeader;
use elf::{ElfBytes, abi};

/// What the types of two segments have to keep: no segment of the second may follow one of the first.
#[derive(Copy, Clone)]
pub(crate) enum TypeRule {
    SingleInterp,
    SingleDynamic,
    SinglePhdr,
    SingleTls,
    PhdrFirst,
}

impl TypeRule {
    // The type that comes first, and the one that may not follow it.
    fn types(self) -> (u32, u32)
        ensures { result ≡ types_of self }
    {
        match self {
            TypeRule::SingleInterp => (abi::PT_INTERP, abi::PT_INTERP),
            TypeRule::SingleDynamic => (abi::PT_DYNAMIC, abi::PT_DYNAMIC),
            TypeRule::SinglePhdr => (abi::PT_PHDR, abi::PT_PHDR),
            TypeRule::SingleTls => (abi::PT_TLS, abi::PT_TLS),
            TypeRule::PhdrFirst => (abi::PT_LOAD, abi::PT_PHDR),
        }
    }

    // The fault of two segments that break it.
    fn fault(self, first: usize, index: usize) -> SegmentsFault
        ensures { result ≡ fault_of self first index }
    {
        match self {
            TypeRule::SingleInterp => SegmentsFault::SecondInterp { first, index },
            TypeRule::SingleDynamic => SegmentsFault::SecondDynamic { first, index },
            TypeRule::SinglePhdr => SegmentsFault::SecondPhdr { first, index },
            TypeRule::SingleTls => SegmentsFault::SecondTls { first, index },
            TypeRule::PhdrFirst => SegmentsFault::PhdrAfterLoad { first, index },
        }
    }
}

// The fault of the types of two segments.
pub(crate) fn types_fault<E: EndianParse>(
    file: &ElfBytes<'_, E>,
    rule: TypeRule,
) -> Option<FileFault>
    ensures { IsFaultIfAny (object_file E.little (view file.now)) (Types rule) result }
{
    let (earlier, later) = rule.types();
    let (first, index) = first_pair(file, earlier, later)?;
    Some(FileFault::Segments(rule.fault(first, index)))
}

// The fault of the segment of an index, where the first section of type `SHT_DYNAMIC` is known.
pub(crate) fn segment_fault_at<E: EndianParse>(
    file: &ElfBytes<'_, E>,
    section: &Option<SectionHeader>,
    index: usize,
) -> Option<FileFault>
    requires { first_section_of sht_dynamic (object_file E.little (view file.now)).sections ≡ section.now }
    ensures { IsFaultIfAny (object_file E.little (view file.now)) (SegmentAt index) result }
{
    let phdr = segment_at(file, index)?;
    let fault = segment_fault(file, section, &phdr)?;
    Some(FileFault::Segments(SegmentsFault::Segment {
        index,
        p_type: phdr.p_type,
        fault,
    }))
}

// The fault of the order of the loaded segments.
pub(crate) fn overlap_fault<E: EndianParse>(file: &ElfBytes<'_, E>) -> Option<FileFault>
    ensures { IsFaultIfAny (object_file E.little (view file.now)) LoadOrder result }
{
    let (first, index) = first_overlap(file)?;
    Some(FileFault::Segments(SegmentsFault::OverlappingLoad { first, index }))
}
