//! The segments of a file that was checked, in the order of the table.
ghost use Rattle.std.specs.Prelude.{◌≡◌};
ghost use Rattle.std.specs.Iterator.{YieldsFirstBy, item_count};
ghost use Rattle.elf_check.specs.SegmentsBytes.{with_bytes};

use super::whole::WholeSegments;
use elf::endian::EndianParse;
use elf::segment::ProgramHeader;

/// Segments in the order of the table: each program header with the bytes of its segment in the file. It knows their
/// number. After its first `None` it keeps returning `None`.
#[derive(Debug, Drop)]
pub struct WholeSegmentsIter<'a, 'data, E: EndianParse> {
    segments: WholeSegments<'a, 'data, E>,
    next: usize,
}

impl<'a, 'data, E: EndianParse> WholeSegments<'a, 'data, E> {
    ghost use Rattle.elf_check.specs.SegmentsWhole.{segments_file, segments_left};

    /// Returns an iterator over the segments in the order of the table: each program header with the bytes of its
    /// segment in the file.
    pub fn iter(&self) -> WholeSegmentsIter<'a, 'data, E>
        ensures { segments_left E.little result
            ≡ with_bytes (segments_file E.little self.now) (segments_file E.little self.now).segments }
    {
        WholeSegmentsIter {
            segments: WholeSegments::new(self.file),
            next: 0,
        }
    }
}

impl<'a, 'data, E: EndianParse> Iterator for WholeSegmentsIter<'a, 'data, E> {
    type Item = (ProgramHeader, &'data [u8]);

    ghost use Rattle.elf_check.specs.SegmentsWhole.{segment_view, segments_left};

    ghost next_gives = { YieldsFirstBy segment_view (segments_left E.little) };

    ghost remaining = { item_count (segments_left E.little) };

    fn next(&mut self) -> Option<(ProgramHeader, &'data [u8])> {
        if self.next >= self.segments.len() {
            return None;
        }
        let found = self.segments.get(self.next).unwrap();
        self.next += 1;
        Some(found)
    }

    fn size_hint(&self) -> (usize, Option<usize>) {
        let left = self.len();
        (left, Some(left))
    }
}

impl<'a, 'data, E: EndianParse> ExactSizeIterator for WholeSegmentsIter<'a, 'data, E> {
    fn len(&self) -> usize {
        self.segments.len().saturating_sub(self.next)
    }
}
