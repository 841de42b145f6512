//! The check of the order of the loaded segments.
ghost use Rattle.std.specs.Prelude.{MatchOption};
ghost use Rattle.elf.specs.ElfBytes.{view};
ghost use Rattle.elf.specs.ObjectFile.{object_file};
ghost use Rattle.elf_check.specs.Segments.{LoadsRise};
ghost use Rattle.elf_check.specs.SegmentsFaults.{IsFirstOverlap};

use super::table::{segment_below, segment_count};
use elf::endian::EndianParse;
use elf::{ElfBytes, abi};

// The first loaded segment that begins before the one before it ends, after the index of that one.
pub(super) fn first_overlap<E: EndianParse>(file: &ElfBytes<'_, E>) -> Option<(usize, usize)>
    ensures { let segments = (object_file E.little (view file.now)).segments in
        MatchOption result (LoadsRise segments) (λ pair. IsFirstOverlap segments pair.0 pair.1) }
{
    // The last loaded segment, and the address after its last one.
    let mut last = 0;
    let mut end: u128 = 0;
    for index in 0..segment_count(file) {
        let phdr = segment_below(file, index);
        if phdr.p_type == abi::PT_LOAD {
            if (phdr.p_vaddr as u128) < end {
                return Some((last, index));
            }
            last = index;
            end = phdr.p_vaddr as u128 + phdr.p_memsz as u128;
        }
    }
    None
}
