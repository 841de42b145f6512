//! The check of the segments of a file (gABI, chapters "Program Header" and "Program Loading").
ghost use Rattle.std.specs.Prelude.{◌≡◌, MatchOption, MatchResult, Some};
ghost use Rattle.elf.specs.ElfBytes.{view};
ghost use Rattle.elf.specs.ObjectFile.{object_file};
ghost use Rattle.elf_check.specs.Segments.{SoundSegments};
ghost use Rattle.elf_check.specs.SegmentsFaults.{IsTrueOfSegments};
ghost use Rattle.elf_check.specs.SegmentsWhole.{segments_file};
ghost use Rattle.elf_check.specs.declared.faults.FileFault.TheVariants.{Segments};
ghost use Rattle.elf_check.specs.declared.segments.faults.SegmentsFault.{SegmentsFault};

use crate::checking::segment_fault_walk;
use crate::faults::FileFault;
use elf::ElfBytes;
use elf::endian::EndianParse;

mod dynamic;
mod each;
mod faults;
pub(crate) mod faults_in;
mod iter;
mod loads;
mod plan;
mod table;
mod whole;

pub use faults::{SegmentFault, SegmentsFault};
pub use iter::WholeSegmentsIter;
pub use plan::WholeLoads;
pub(crate) use table::segment_count;
pub use whole::WholeSegments;
pub(crate) use whole::notes_of;

// A fault of segments as one.
fn as_segments(fault: FileFault) -> Option<SegmentsFault>
    ensures { (own : SegmentsFault) → fault ≡ Segments own → result ≡ Some own }
{
    match fault {
        FileFault::Segments(own) => Some(own),
        _ => None,
    }
}

/// Returns what the segments of a file lack, or `None` exactly if they are sound: of the types `PT_INTERP`,
/// `PT_DYNAMIC`, `PT_PHDR` and `PT_TLS` there is one at most, `PT_PHDR` comes before the loaded segments, each segment
/// is sound, and the loaded ones are in the order of their addresses and have no address in common. A file without
/// segments is sound.
///
/// The fault is the first one in this order: types, in the order above; segments, in the order of the table; the
/// overlap whose second segment comes first. Allocates nothing. The time is linear in the number of the headers and in
/// the number of the bytes in segments of the types `PT_NOTE` and `PT_DYNAMIC`.
pub fn segments_fault<E: EndianParse>(file: &ElfBytes<'_, E>) -> Option<SegmentsFault>
    ensures { let whole = object_file E.little (view file.now) in
        MatchOption result (SoundSegments whole) (λ fault. (¬ SoundSegments whole) × IsTrueOfSegments whole fault) }
{
    as_segments(segment_fault_walk(file).next_fault(&mut [], &mut [])?)
}

/// Checks the segments of a file: `Ok` exactly if they are sound, otherwise the fault of `segments_fault`.
pub fn check_segments<'a, 'data, E: EndianParse>(
    file: &'a ElfBytes<'data, E>,
) -> Result<WholeSegments<'a, 'data, E>, SegmentsFault>
    ensures { let whole = object_file E.little (view file.now) in
        MatchResult result (λ segments. SoundSegments whole × (segments_file E.little segments ≡ whole))
        (λ fault. (¬ SoundSegments whole) × IsTrueOfSegments whole fault) }
{
    match segments_fault(file) {
        Some(fault) => Err(fault),
        None => Ok(WholeSegments::new(file)),
    }
}
