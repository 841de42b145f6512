//! What a loader maps of a file that was checked.
ghost use Rattle.std.specs.Prelude.{◌≡◌};
ghost use Rattle.std.specs.Iterator.{YieldsFirstBy, item_count};
ghost use Rattle.elf_check.specs.LoadPlan.{IsPlan, load_plan};

use super::iter::WholeSegmentsIter;
use super::whole::WholeSegments;
use elf::abi;
use elf::endian::EndianParse;
use elf::segment::ProgramHeader;

/// What a loader maps: the segments of type `PT_LOAD`, in the order of their addresses, each with its bytes in the
/// file. They are mapped from `p_vaddr` on, and the rest of the memory is 0. After its first `None` it keeps returning
/// `None`.
#[derive(Debug, Drop)]
pub struct WholeLoads<'a, 'data, E: EndianParse> {
    segments: WholeSegmentsIter<'a, 'data, E>,
}

impl<'a, 'data, E: EndianParse> Iterator for WholeLoads<'a, 'data, E> {
    type Item = (ProgramHeader, &'data [u8]);

    ghost use Rattle.elf_check.specs.LoadPlan.{loads_left};
    ghost use Rattle.elf_check.specs.SegmentsWhole.{segment_view};

    ghost next_gives = { YieldsFirstBy segment_view (loads_left E.little) };

    ghost remaining = { item_count (loads_left E.little) };

    fn next(&mut self) -> Option<(ProgramHeader, &'data [u8])> {
        for _ in 0..self.segments.len() {
            let found = self.segments.next()?;
            if found.0.p_type == abi::PT_LOAD {
                return Some(found);
            }
        }
        None
    }
}

impl<'a, 'data, E: EndianParse> WholeSegments<'a, 'data, E> {
    ghost use Rattle.elf_check.specs.LoadPlan.{loads_left};
    ghost use Rattle.elf_check.specs.SegmentsWhole.{segments_file};

    /// Returns what a loader maps. Each segment has memory for its bytes, and addresses of the file's class, and no
    /// address belongs to two. Nothing is known of pages, and `p_align` is ignored.
    pub fn load_plan(&self) -> WholeLoads<'a, 'data, E>
        ensures items { loads_left E.little result ≡ load_plan (segments_file E.little self.now) }
        ensures plan { let file = segments_file E.little self.now in IsPlan file.class (load_plan file) }
    {
        WholeLoads {
            segments: self.iter(),
        }
    }
}
